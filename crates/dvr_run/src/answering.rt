//! One line, answered.

ghost use Rattle.std.specs.Prelude.{◌≡◌, ◌≤◌, IfOk, OnOk, false};
ghost use Rattle.dvr_run.specs.Turns.{IsEventTurn, IsLineSent, IsTurn, ends_by_read, reply_of};
ghost use Rattle.dvr_types.specs.DvrVerdicts.{dvr_hosts_after};
ghost use Rattle.keeper_core.specs.Counts.{RoseBy};

use crate::asking::{known_event, read_body};
use crate::hosts::Hosts;
use crate::status::Status;
use crate::turn::Turn;
use api_types::Rows;
use http_session::send;
use json_replies::write_handled;
use keeper_core::{Sink, SinkRefusal};
use net_addr::OutOfMemory;
use plane_types::Event;
use std::alloc::Global;

// The line that answers an event, with its line feed.
fn reply_to(alloc: Global, hosts: &mut Hosts, event: &Event) -> Result<Vec<u8>, OutOfMemory>
    ensures reply { IfOk result (λ line. line.items ≡ reply_of hosts.old event.now) }
    ensures kept { OnOk result (hosts.new ≡ dvr_hosts_after hosts.old event.now) }
{
    let verdict = hosts.send(alloc, event)?;
    let reply = write_handled(alloc, &verdict.hosts, &verdict.verdict)?;
    let mut line = Vec::new(alloc);
    line.extend_from_slice(reply.as_slice())?;
    line.push(b'\n')?;
    Ok(line)
}

// Writes a line, and flushes it.
fn send_line<O: Sink>(output: &mut O, line: &[u8]) -> Turn
    ensures is { IsLineSent line.now (O.told output.old) (O.told output.new) result }
    ensures later { (O.told output.old).faults ≤ (O.told output.new).faults }
    ensures fault { result ≡ Turn.Ends Status.WriteFault
        → RoseBy 1 (O.told output.old).faults (O.told output.new).faults }
    ensures no_read { ends_by_read result ≡ false }
{
    match send(output, line) {
        Ok(()) => Turn::Again,
        Err(SinkRefusal::Failed) => Turn::Ends(Status::WriteFault),
        Err(SinkRefusal::OutOfMemory) => Turn::Ends(Status::OutOfMemory),
    }
}

fn answer_event<O: Sink>(alloc: Global, hosts: &mut Hosts, event: &Event, output: &mut O) -> Turn
    ensures is { IsEventTurn event.now hosts.old hosts.new (O.told output.old)
        (O.told output.new) result }
    ensures later { (O.told output.old).faults ≤ (O.told output.new).faults }
    ensures fault { result ≡ Turn.Ends Status.WriteFault
        → RoseBy 1 (O.told output.old).faults (O.told output.new).faults }
    ensures no_read { ends_by_read result ≡ false }
{
    match reply_to(alloc, hosts, event) {
        Ok(line) => send_line(output, line.as_slice()),
        Err(OutOfMemory) => Turn::Ends(Status::OutOfMemory),
    }
}

/// Answers a line, which is given without its line feed.
pub(crate) fn answer_line<O: Sink>(
    alloc: Global,
    rows: &Rows,
    hosts: &mut Hosts,
    line: &[u8],
    output: &mut O,
) -> Turn
    ensures is { IsTurn rows.now line.now hosts.old hosts.new (O.told output.old)
        (O.told output.new) result }
    ensures later { (O.told output.old).faults ≤ (O.told output.new).faults }
    ensures fault { result ≡ Turn.Ends Status.WriteFault
        → RoseBy 1 (O.told output.old).faults (O.told output.new).faults }
    ensures no_read { ends_by_read result ≡ false }
{
    match read_body(alloc, line) {
        Ok(Some(ask)) => match known_event(rows, &ask) {
            Some(event) => answer_event(alloc, hosts, event, output),
            None => Turn::Ends(Status::BadLine),
        },
        Ok(None) => Turn::Ends(Status::BadLine),
        Err(OutOfMemory) => Turn::Ends(Status::OutOfMemory),
    }
}
