//! The arguments of `audit`.

ghost use Rattle.std.specs.Prelude.{◌≡◌, IfOk, map, option_map};
ghost use Rattle.clap.specs.Matches.{found_of};
ghost use Rattle.clap.specs.Walk.{rows_of};
ghost use Rattle.command_lines.specs.Lines.{IsAnswer};
ghost use Rattle.command_lines.specs.Values.{is_value as is_value_by, optional_value as optional, required_value as required};
ghost use Rattle.reach_audit.specs.Arguments.{arguments_in, arguments_of, options_of};

use crate::matches::{audit_matches, value_in};
use clap::ArgMatches;
use command_lines::{Delivery, Opening, Refusal};
use net_addr::Text;
use std::alloc::{AllocError, Global};

/// What the arguments of `audit` say.
#[derive(Drop)]
pub(crate) struct Arguments {
    /// The wanted file.
    pub(crate) wanted: Text,
    /// The settings and the store. Nothing is delivered.
    pub(crate) opening: Opening,
}

// Whether a value isn't empty and doesn't begin with a hyphen.
fn is_value(text: &str) -> bool
    ensures { result ≡ is_value_by text.now }
{
    match text.as_bytes() {
        [] => false,
        [first, ..] => *first != b'-',
    }
}

// The value of an option that may be absent.
fn optional_value(alloc: Global, given: Option<&str>) -> Result<Option<Text>, Refusal>
    ensures { IsAnswer result (optional (option_map (λ s. s.now) given.entry)) }
{
    match given {
        None => Ok(None),
        Some(text) if is_value(text) => Ok(Some(Text::of(alloc, text)?)),
        Some(_) => Err(Refusal::Wrong),
    }
}

// The value of an option that is required.
fn required_value(alloc: Global, given: Option<&str>) -> Result<Text, Refusal>
    ensures { IsAnswer result (required (option_map (λ s. s.now) given.entry)) }
{
    match given {
        Some(text) if is_value(text) => Ok(Text::of(alloc, text)?),
        Some(_) | None => Err(Refusal::Wrong),
    }
}

fn arguments_in(alloc: Global, found: &ArgMatches<'_>) -> Result<Arguments, Refusal>
    ensures { IsAnswer result (arguments_in (rows_of (found_of found.now))) }
{
    let wanted = required_value(alloc, value_in(found, "wanted"))?;
    let settings = optional_value(alloc, value_in(found, "settings"))?;
    let store = optional_value(alloc, value_in(found, "store"))?;
    let opening = Opening {
        settings,
        store,
        delivery: Delivery::Automatic,
    };
    Ok(Arguments { wanted, opening })
}

// The words as `clap` takes them.
fn lend_words<'a>(alloc: Global, words: &'a [Text]) -> Result<Vec<&'a str>, AllocError>
    ensures { IfOk result (λ v. map (λ w. w.now) v.items ≡ words.entry.now) }
{
    let mut lent = Vec::new(alloc);
    for word in words {
        lent.push(word.as_str())?;
    }
    Ok(lent)
}

fn read_options(alloc: Global, words: &[Text]) -> Result<Arguments, Refusal>
    ensures { IsAnswer result (options_of words.now) }
{
    let words = lend_words(alloc, words)?;
    let found = audit_matches(alloc, words.as_slice())?;
    arguments_in(alloc, &found)
}

/// What the arguments after the program's name say, if the first is `audit`: `--wanted` once, and
/// `--settings` and `--store` at most once, in any order. `Wrong` comes only if they are no such
/// arguments.
pub(crate) fn read_arguments(alloc: Global, words: &[Text]) -> Result<Arguments, Refusal>
    ensures { IsAnswer result (arguments_of words.now) }
{
    let Some((command, rest)) = words.split_first() else {
        return Err(Refusal::Wrong);
    };
    if command.as_str() == "audit" {
        read_options(alloc, rest)
    } else {
        Err(Refusal::Wrong)
    }
}
