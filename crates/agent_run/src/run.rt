//! What `agent` does. Begin here.

ghost use Rattle.std.specs.Prelude.{◌≡◌, IfErr, IfOk, None, option_and_then, string_bytes};
ghost use Rattle.command_lines.specs.Lines.{agent_line_of};
ghost use Rattle.keeper_core.specs.Counts.{RoseBy};
ghost use Rattle.openings.specs.Openings.{AreBadSettings};
ghost use Rattle.agent_run.specs.Runs as runs;
ghost use Rattle.agent_run.specs.Status.{status_code};
ghost use Rattle.agent_run.specs.declared.status.Status.{Status as TheStatus};

use crate::rounds::run_round;
use crate::status::Status;
use agent_links::Link;
use agent_wire::WireAgent;
use command_lines::{AgentLine, Refusal, read_agent_line};
use http_session::send;
use keeper_core::{Desk, Sink, SinkRefusal};
use net_addr::{Copies, OutOfMemory, Text};
use net_settings::Settings;
use openings::ask_settings;
use std::alloc::Global;
use wire_types::WireStep;

// The status by what was said of a reply, if it was bad.
fn bad_status(said: Option<WireStep>) -> Option<Status>
    ensures { result ≡ option_and_then runs.status_by said }
{
    match said {
        Some(WireStep::BadReply) => Some(Status::BadReply),
        Some(WireStep::BadRows) => Some(Status::BadRows),
        _ => None,
    }
}

// Runs the rounds one after the other, until a reply is bad or memory runs out.
fn run_rounds<L: Link>(
    alloc: Global,
    agent: &mut WireAgent,
    link: &mut L,
    line: &AgentLine,
) -> Status
    ensures { runs.RunsRounds L.In.told L.Out.told result line.now.rounds line.now.connect agent.old
        (L.told link.old) (L.told link.new) agent.new }
{
    'rounds: for _round in 0..line.rounds {
        match run_round(alloc, agent, link, &line.connect) {
            Ok(said) => match bad_status(said) {
                Some(status) => return status,
                None => {}
            },
            Err(OutOfMemory) => return Status::OutOfMemory,
        }
    }
    Status::Done
}

// The line that says what is held.
fn held_line(alloc: Global, held: Option<u64>) -> Result<String, OutOfMemory>
    ensures { IfOk result (λ s. string_bytes s ≡ runs.held_line held) }
{
    match held {
        Some(held) => Ok(format!(in alloc; "held {held}\n")?),
        None => Ok(String::from_str(alloc, "held none\n")?),
    }
}

// Writes a line. If a write or a flush fails, or memory runs out, some of the first bytes are
// written.
fn send_line<O: Sink>(line: &String, output: &mut O) -> Status
    ensures { runs.WritesLine (string_bytes line.now) result (O.told output.old)
        (O.told output.new) }
{
    match send(output, line.as_bytes()) {
        Ok(()) => Status::Done,
        Err(SinkRefusal::Failed) => Status::WriteFault,
        Err(SinkRefusal::OutOfMemory) => Status::OutOfMemory,
    }
}

// Writes the line that says what is held.
fn write_line<O: Sink>(alloc: Global, held: Option<u64>, output: &mut O) -> Status
    ensures { runs.WritesLine (runs.held_line held) result (O.told output.old)
        (O.told output.new) }
{
    match held_line(alloc, held) {
        Ok(line) => send_line(&line, output),
        Err(OutOfMemory) => Status::OutOfMemory,
    }
}

// An agent that holds nothing.
fn make_agent(alloc: Global, line: &AgentLine, settings: Settings) -> Result<WireAgent, OutOfMemory>
    ensures { IfOk result (λ agent. agent ≡ runs.first_host line.now settings) }
{
    let host = line.host.copy(alloc)?;
    WireAgent::make(alloc, host, settings)
}

// Runs the rounds, and writes the line if all were made.
fn run_from<L: Link, O: Sink>(
    alloc: Global,
    agent: &mut WireAgent,
    line: &AgentLine,
    link: &mut L,
    output: &mut O,
) -> Status
    ensures { runs.IsFollowed L.told L.In.told L.Out.told O.told line.now agent.old result link.old
        link.new output.old output.new }
{
    match run_rounds(alloc, agent, link, line) {
        Status::Done => write_line(alloc, agent.held(), output),
        status => status,
    }
}

// The same from an agent that holds nothing.
fn follow<L: Link, O: Sink>(
    alloc: Global,
    line: &AgentLine,
    settings: Settings,
    link: &mut L,
    output: &mut O,
) -> Status
    ensures { runs.IsFollowed L.told L.In.told L.Out.told O.told line.now
        (runs.first_host line.now settings) result link.old link.new output.old output.new }
{
    match make_agent(alloc, line, settings) {
        Ok(mut agent) => run_from(alloc, &mut agent, line, link, output),
        Err(OutOfMemory) => Status::OutOfMemory,
    }
}

fn run_line<D: Desk, L: Link>(
    alloc: Global,
    line: &AgentLine,
    desk: &mut D,
    link: &mut L,
    output: &mut D::Out,
) -> Status
    ensures runs { runs.RunsLine D.told L.told L.In.told L.Out.told D.Out.told line.now result
        (runs.outside desk.old link.old output.old)
        (runs.outside desk.new link.new output.new) }
    ensures words { result ≡ Status.WrongWords → ⊥ }
    ensures write_fault { result ≡ Status.WriteFault
        → RoseBy 1 (D.Out.told output.old).faults (D.Out.told output.new).faults }
    ensures bad_settings { result ≡ Status.BadSettings
        → AreBadSettings (D.told desk.old).files line.now.opening.settings }
    ensures outside { result ≡ Status.Failed
        → RoseBy 1 (D.told desk.old).faults (D.told desk.new).faults }
{
    match ask_settings(alloc, desk, &line.opening) {
        Ok(settings) => follow(alloc, line, settings, link, output),
        Err(why) => Status::unopened(why),
    }
}

/// Runs `agent --connect ADDRESS --host NAME --rounds N [--settings FILE]`: asks the server as
/// often as the arguments say, over a link for each time, hears what it replies, and then writes
/// which version is held: `held 7`, or `held none`, and a line feed.
///
/// In each round a link is opened at the address, the request is written and flushed, and the first
/// whole reply is read and heard. A round is lost if no link is opened, if a write, a flush or a
/// read fails, or if no whole reply comes: the agent is then as before. The desk is asked for the
/// settings that the arguments name, and for nothing else; they have to be those of the server.
///
/// The status is
/// - 0 if all rounds were made: the line is written and flushed,
/// - 1 exactly if the arguments are no such command line,
/// - 3 if a write or a flush of `output` failed: some of the first bytes are written,
/// - 4 if memory ran out: so are some of the first bytes, or nothing,
/// - 5 exactly if the bytes of the settings aren't in their grammar,
/// - 7 if the desk failed,
/// - 9 if a reply was none of a server: no further round is made, and nothing is written,
/// - 10 if the rows of a reply couldn't be taken: the same.
///
/// Arguments, settings and replies are looked at in this order. The cost of a round is that of its
/// reply, and of wiring the rows if new ones are put in place.
pub fn run_agent<D: Desk, L: Link>(
    alloc: Global,
    words: &[Text],
    desk: &mut D,
    link: &mut L,
    output: &mut D::Out,
) -> u8
    ensures runs { (status : TheStatus) × (result ≡ status_code status)
        × runs.Runs D.told L.told L.In.told L.Out.told D.Out.told (agent_line_of words.now) status
        (runs.outside desk.old link.old output.old)
        (runs.outside desk.new link.new output.new) }
    ensures wrong_words { result ≡ 1 → agent_line_of words.now ≡ None }
    ensures write_fault { result ≡ 3
        → RoseBy 1 (D.Out.told output.old).faults (D.Out.told output.new).faults }
    ensures bad_settings { result ≡ 5
        → runs.HasBadSettings (agent_line_of words.now) (D.told desk.old) }
    ensures outside { result ≡ 7 → RoseBy 1 (D.told desk.old).faults (D.told desk.new).faults }
{
    match read_agent_line(alloc, words) {
        Ok(line) => run_line(alloc, &line, desk, link, output).code(),
        Err(Refusal::Wrong) => Status::WrongWords.code(),
        Err(Refusal::OutOfMemory) => Status::OutOfMemory.code(),
    }
}
