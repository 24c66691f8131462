//! The arguments of `audit`, read by `clap`.

ghost use Rattle.std.specs.Prelude.{◌≡◌, IfOk, codes, map, option_map, true};
ghost use Rattle.std.specs.List.{list_any};
ghost use Rattle.std.specs.Str.{bytes_eq};
ghost use Rattle.clap.specs.Faults.{is_simple_and_free};
ghost use Rattle.clap.specs.Matches.{found_of};
ghost use Rattle.clap.specs.Simple.{app_of};
ghost use Rattle.clap.specs.Walk.{first_of, rows_of};
ghost use Rattle.command_lines.specs.Lines.{AreMatches, AreMatchesOf};
ghost use Rattle.reach_audit.specs.Arguments.{audit_app};

use clap::error::ErrorKind;
use clap::{Arg, ArgMatches, Command};
use command_lines::Refusal;
use std::alloc::{AllocError, Global};

// `audit`, with its options.
fn audit_command<'a>(alloc: Global) -> Result<Command<'a>, AllocError>
    ensures { IfOk result (λ c. app_of c ≡ audit_app) }
{
    let wanted = Arg::new(alloc, "wanted").long("wanted").required(true);
    let settings = Arg::new(alloc, "settings").long("settings");
    let store = Arg::new(alloc, "store").long("store");
    let plain = Command::new(alloc, "audit")
        .no_binary_name(true)
        .disable_help_flag(true)
        .disable_version_flag(true);
    let command = plain.arg(wanted)?.arg(settings)?.arg(store)?;
    Ok(command)
}

// What the command makes of the words.
fn matches<'a>(command: Command<'a>, words: &'a [&'a str]) -> Result<ArgMatches<'a>, Refusal>
    requires { is_simple_and_free (app_of command) ≡ true }
    ensures { AreMatches (app_of command.entry) (map (λ w. w.now) words.entry.now) result }
{
    match command.try_get_matches_from(words) {
        Ok(found) => Ok(found),
        Err(error) if error.kind() == ErrorKind::OutOfMemory => Err(Refusal::OutOfMemory),
        Err(_) => Err(Refusal::Wrong),
    }
}

// Whether one of the words is `--`.
fn has_dashes(words: &[&str]) -> bool
    ensures { result ≡ list_any (λ w. bytes_eq w.now (codes "--")) words.now }
{
    words.iter().any(|word| *word == "--")
}

/// What `audit` finds in its words.
pub(crate) fn audit_matches<'a>(
    alloc: Global,
    words: &'a [&'a str],
) -> Result<ArgMatches<'a>, Refusal>
    ensures { AreMatchesOf audit_app (map (λ w. w.now) words.entry.now) result }
{
    if has_dashes(words) {
        return Err(Refusal::Wrong);
    }
    let command = audit_command(alloc)?;
    matches(command, words)
}

/// The value that was found for an option.
pub(crate) fn value_in<'a>(found: &ArgMatches<'a>, id: &str) -> Option<&'a str>
    ensures { option_map (λ s. s.now) result ≡ first_of id.now (rows_of (found_of found.now)) }
{
    found.get_str(id)
}
