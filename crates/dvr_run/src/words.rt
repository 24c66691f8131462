//! The arguments of the command.

ghost use Rattle.std.specs.Prelude.{◌≡◌, IfOk};
ghost use Rattle.std.specs.List.{list_any};
ghost use Rattle.command_lines.specs.Lines.{IsAnswer};
ghost use Rattle.dvr_run.specs.Words.{begins_delivery, opening_given, opening_in_session, session_words as words_of_session};

use command_lines::{Line, Opening, Refusal, read_line};
use net_addr::{Copies, OutOfMemory, Text};
use std::alloc::Global;

// Whether a word begins as the option `--delivery`, which is the server's alone.
fn begins_delivery(word: &Text) -> bool
    ensures { result ≡ begins_delivery word.now }
{
    word.as_str().as_bytes().starts_with(b"--delivery")
}

fn has_delivery(words: &[Text]) -> bool
    ensures { result ≡ list_any begins_delivery words.now }
{
    for word in words {
        if begins_delivery(word) {
            return true;
        }
    }
    false
}

// The same words for the command `session`.
fn session_words(alloc: Global, words: &[Text]) -> Result<Vec<Text>, OutOfMemory>
    ensures { IfOk result (λ w. w.items ≡ words_of_session words.now) }
{
    let mut session = Vec::new(alloc);
    session.push(Text::of(alloc, "session")?)?;
    for word in words {
        session.push(word.copy(alloc)?)?;
    }
    Ok(session)
}

// What a session opens.
fn opening_of(line: Line) -> Option<Opening>
    ensures { result ≡ opening_in_session line }
{
    match line {
        Line::Session { opening } => Some(opening),
        Line::Serve { .. } | Line::Drill { .. } => None,
    }
}

/// What `dvr [--settings FILE] [--store FILE]` opens. `Wrong` comes exactly if the words aren't
/// that. The cost grows with the words and their lengths.
pub(crate) fn read_words(alloc: Global, words: &[Text]) -> Result<Opening, Refusal>
    ensures { IsAnswer result (opening_given words.now) }
{
    let Some((command, rest)) = words.split_first() else {
        return Err(Refusal::Wrong);
    };
    if command.as_str() != "dvr" || has_delivery(rest) {
        return Err(Refusal::Wrong);
    }
    let session = session_words(alloc, rest)?;
    let line = read_line(alloc, session.as_slice())?;
    match opening_of(line) {
        Some(opening) => Ok(opening),
        None => Err(Refusal::Wrong),
    }
}
