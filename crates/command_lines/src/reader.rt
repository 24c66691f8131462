//! Command lines, read.

ghost use Rattle.std.specs.Prelude.{◌≡◌, IfOk, map};
ghost use Rattle.clap.specs.Matches.{found_of};
ghost use Rattle.clap.specs.Walk.{rows_of};
ghost use Rattle.command_lines.specs.Lines as lines;
ghost use Rattle.command_lines.specs.Lines.{IsAnswer, drill_line as drill_line_of, drill_of as drill_by, line_behind, line_of, opening_of as opening_by, serve_line as serve_line_of, serve_of as serve_by, session_line as session_line_of, session_of as session_by};

use crate::line::{AgentLine, Delivery, Line, Opening, Refusal};
use crate::matches::{agent_matches, drill_matches, serve_matches, session_matches, value_in};
use crate::values::{
    connections, delivery, drill_size, is_set, optional_value, required_number, required_value,
    rounds,
};
use clap::ArgMatches;
use net_addr::Text;
use std::alloc::{AllocError, Global};

fn opening_of(alloc: Global, found: &ArgMatches<'_>) -> Result<Opening, Refusal>
    ensures { IsAnswer result (opening_by (rows_of (found_of found.now))) }
{
    let settings = optional_value(alloc, value_in(found, "settings"))?;
    let store = optional_value(alloc, value_in(found, "store"))?;
    let delivery = delivery(value_in(found, "delivery"))?;
    Ok(Opening {
        settings,
        store,
        delivery,
    })
}

fn session_of(alloc: Global, found: &ArgMatches<'_>) -> Result<Line, Refusal>
    ensures { IsAnswer result (session_by (rows_of (found_of found.now))) }
{
    let opening = opening_of(alloc, found)?;
    Ok(Line::Session { opening })
}

fn serve_of(alloc: Global, found: &ArgMatches<'_>) -> Result<Line, Refusal>
    ensures { IsAnswer result (serve_by (rows_of (found_of found.now))) }
{
    let opening = opening_of(alloc, found)?;
    let listen = required_value(alloc, value_in(found, "listen"))?;
    let connections = connections(value_in(found, "connections"))?;
    Ok(Line::Serve {
        opening,
        listen,
        connections,
    })
}

fn drill_of(found: &ArgMatches<'_>) -> Result<Line, Refusal>
    ensures { IsAnswer result (drill_by (rows_of (found_of found.now))) }
{
    let start = required_number(value_in(found, "start"), 0, u64::MAX)?;
    let size = drill_size(value_in(found, "size"))?;
    let replies = is_set(value_in(found, "replies"));
    Ok(Line::Drill {
        start,
        size,
        replies,
    })
}

fn session_line<'a>(alloc: Global, words: &'a [&'a str]) -> Result<Line, Refusal>
    ensures { IsAnswer result (session_line_of (map (λ w. w.now) words.entry.now)) }
{
    let found = session_matches(alloc, words)?;
    session_of(alloc, &found)
}

fn serve_line<'a>(alloc: Global, words: &'a [&'a str]) -> Result<Line, Refusal>
    ensures { IsAnswer result (serve_line_of (map (λ w. w.now) words.entry.now)) }
{
    let found = serve_matches(alloc, words)?;
    serve_of(alloc, &found)
}

fn drill_line<'a>(alloc: Global, words: &'a [&'a str]) -> Result<Line, Refusal>
    ensures { IsAnswer result (drill_line_of (map (λ w. w.now) words.entry.now)) }
{
    let found = drill_matches(alloc, words)?;
    drill_of(&found)
}

// The words as `clap` takes them.
fn lent<'a>(alloc: Global, words: &'a [Text]) -> Result<Vec<&'a str>, AllocError>
    ensures { IfOk result (λ v. map (λ w. w.now) v.items ≡ words.entry.now) }
{
    let mut lent = Vec::new(alloc);
    for word in words {
        lent.push(word.as_str())?;
    }
    Ok(lent)
}

fn line_with<'a>(alloc: Global, command: &str, words: &'a [&'a str]) -> Result<Line, Refusal>
    ensures { IsAnswer result (line_behind command.now (map (λ w. w.now) words.entry.now)) }
{
    if command == "session" {
        return session_line(alloc, words);
    }
    if command == "serve" {
        return serve_line(alloc, words);
    }
    if command == "drill" {
        return drill_line(alloc, words);
    }
    Err(Refusal::Wrong)
}

/// The command line that the words after the program's name are. `Wrong` comes exactly where they
/// are none, or where memory runs out. Its cost grows with the words and their lengths.
pub fn read_line(alloc: Global, words: &[Text]) -> Result<Line, Refusal>
    ensures { IsAnswer result (line_of words.now) }
{
    let Some((command, rest)) = words.split_first() else {
        return Err(Refusal::Wrong);
    };
    let rest = lent(alloc, rest)?;
    line_with(alloc, command.as_str(), rest.as_slice())
}

fn agent_of(alloc: Global, found: &ArgMatches<'_>) -> Result<AgentLine, Refusal>
    ensures { IsAnswer result (lines.agent_of (rows_of (found_of found.now))) }
{
    let connect = required_value(alloc, value_in(found, "connect"))?;
    let host = required_value(alloc, value_in(found, "host"))?;
    let rounds = rounds(value_in(found, "rounds"))?;
    let settings = optional_value(alloc, value_in(found, "settings"))?;
    let opening = Opening {
        settings,
        store: None,
        delivery: Delivery::Automatic,
    };
    Ok(AgentLine {
        connect,
        host,
        rounds,
        opening,
    })
}

fn agent_line<'a>(alloc: Global, words: &'a [&'a str]) -> Result<AgentLine, Refusal>
    ensures { IsAnswer result (lines.agent_line (map (λ w. w.now) words.entry.now)) }
{
    let found = agent_matches(alloc, words)?;
    agent_of(alloc, &found)
}

fn agent_line_with<'a>(
    alloc: Global,
    command: &str,
    words: &'a [&'a str],
) -> Result<AgentLine, Refusal>
    ensures { IsAnswer result
        (lines.agent_line_after command.now (map (λ w. w.now) words.entry.now)) }
{
    if command == "agent" {
        return agent_line(alloc, words);
    }
    Err(Refusal::Wrong)
}

/// The command line of `agent` that the words after the program's name are. `Wrong` comes exactly
/// where they are none, or where memory runs out. Its cost grows with the words and their lengths.
pub fn read_agent_line(alloc: Global, words: &[Text]) -> Result<AgentLine, Refusal>
    ensures { IsAnswer result (lines.agent_line_of words.now) }
{
    let Some((command, rest)) = words.split_first() else {
        return Err(Refusal::Wrong);
    };
    let rest = lent(alloc, rest)?;
    agent_line_with(alloc, command.as_str(), rest.as_slice())
}
