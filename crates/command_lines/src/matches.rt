//! The words of a command, read by `clap`.

ghost use Rattle.std.specs.Prelude.{◌≡◌, Some, codes, map, option_map, true};
ghost use Rattle.std.specs.List.{list_any};
ghost use Rattle.std.specs.Str.{bytes_eq};
ghost use Rattle.clap.specs.Faults.{is_simple_and_free};
ghost use Rattle.clap.specs.Matches.{found_of};
ghost use Rattle.clap.specs.Simple.{app_of};
ghost use Rattle.clap.specs.Walk.{first_of, rows_of};
ghost use Rattle.command_lines.specs.Commands.{agent_app, drill_app, serve_app, session_app};
ghost use Rattle.command_lines.specs.Lines.{AreMatches, AreMatchesOf};

use crate::commands::{agent_command, drill_command, serve_command, session_command};
use crate::line::Refusal;
use clap::error::ErrorKind;
use clap::{ArgMatches, Command};
use std::alloc::Global;

// What the command makes of the words.
fn matches<'a>(command: Command<'a>, words: &'a [&'a str]) -> Result<ArgMatches<'a>, Refusal>
    requires { is_simple_and_free (app_of command) ≡ true }
    ensures { AreMatches (app_of command.entry) (map (λ w. w.now) words.entry.now) result }
{
    match command.try_get_matches_from(words) {
        Ok(found) => Ok(found),
        Err(error) if error.kind() == ErrorKind::OutOfMemory => Err(Refusal::OutOfMemory),
        Err(_) => Err(Refusal::Wrong),
    }
}

// Whether one of the words is `--`.
fn has_dashes(words: &[&str]) -> bool
    ensures { result ≡ list_any (λ w. bytes_eq w.now (codes "--")) words.now }
{
    words.iter().any(|word| *word == "--")
}

/// What `session` finds in its words.
pub(crate) fn session_matches<'a>(
    alloc: Global,
    words: &'a [&'a str],
) -> Result<ArgMatches<'a>, Refusal>
    ensures { AreMatchesOf session_app (map (λ w. w.now) words.entry.now) result }
{
    if has_dashes(words) {
        return Err(Refusal::Wrong);
    }
    let command = session_command(alloc)?;
    matches(command, words)
}

/// What `serve` finds in its words.
pub(crate) fn serve_matches<'a>(
    alloc: Global,
    words: &'a [&'a str],
) -> Result<ArgMatches<'a>, Refusal>
    ensures { AreMatchesOf serve_app (map (λ w. w.now) words.entry.now) result }
{
    if has_dashes(words) {
        return Err(Refusal::Wrong);
    }
    let command = serve_command(alloc)?;
    matches(command, words)
}

/// What `drill` finds in its words.
pub(crate) fn drill_matches<'a>(
    alloc: Global,
    words: &'a [&'a str],
) -> Result<ArgMatches<'a>, Refusal>
    ensures { AreMatchesOf drill_app (map (λ w. w.now) words.entry.now) result }
{
    if has_dashes(words) {
        return Err(Refusal::Wrong);
    }
    let command = drill_command(alloc)?;
    matches(command, words)
}

/// What `agent` finds in its words.
pub(crate) fn agent_matches<'a>(
    alloc: Global,
    words: &'a [&'a str],
) -> Result<ArgMatches<'a>, Refusal>
    ensures { AreMatchesOf agent_app (map (λ w. w.now) words.entry.now) result }
{
    if has_dashes(words) {
        return Err(Refusal::Wrong);
    }
    let command = agent_command(alloc)?;
    matches(command, words)
}

/// The value that was found for an option or a number.
pub(crate) fn value_in<'a>(found: &ArgMatches<'a>, id: &str) -> Option<&'a str>
    ensures { option_map (λ s. s.now) result ≡ first_of id.now (rows_of (found_of found.now)) }
{
    found.get_str(id)
}
