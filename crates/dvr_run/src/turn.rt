//! The lines of an input, answered one after the other.

ghost use Rattle.std.specs.Prelude.{◌≡◌, ◌+◌, ◌-◌, ◌<◌, ◌≤◌, ◌^◌, ◌⊎◌, List, false, length};
ghost use Rattle.std.specs.Io.KnownBytes.{Keeps};
ghost use Rattle.dvr_run.specs.Answers.{Answers, Stops};
ghost use Rattle.dvr_run.specs.Status.{IsFinished, is_read_fault};
ghost use Rattle.dvr_run.specs.Turns.{Follows, Goes, ends_by_read, replies_of};
ghost use Rattle.dvr_types.specs.DvrFabric.{DvrHost};
ghost use Rattle.keeper_core.specs.Counts.{RoseBy};
ghost use Rattle.keeper_core.specs.Ends.{SinkTold, SourceTold, has_failed};

use crate::answering::answer_line;
use crate::hosts::Hosts;
use crate::lines::await_line;
use crate::pending::Pending;
use crate::status::Status;
use api_types::Rows;
use keeper_core::{Sink, Source};
use std::alloc::Global;

/// Whether the run goes on.
#[derive(Clone, Copy)]
pub(crate) enum Turn {
    Again,
    Ends(Status),
}

// Waits for a line and answers it.
fn take_line<I: Source, O: Sink>(
    alloc: Global,
    rows: &Rows,
    hosts: &mut Hosts,
    pending: &mut Pending,
    taken: &mut u64,
    input: &mut I,
    output: &mut O,
) -> Turn
    requires { taken.old ≤ 2 ^ 40 }
    ensures follows { (start : List DvrHost) (i : SourceTold) (o : SinkTold)
        → Goes rows.now start hosts.old pending.old taken.old i o (I.told input.old)
        (O.told output.old)
        → Follows rows.now start hosts.new pending.new taken.new i o (I.told input.new)
        (O.told output.new) result }
    ensures within { taken.new ≤ 2 ^ 40 }
    ensures less { result ≡ Turn.Again
        → (2 ^ 40 - taken.new) + length pending.new < (2 ^ 40 - taken.old) + length pending.old }
    ensures read_later { (I.told input.old).faults ≤ (I.told input.new).faults }
    ensures write_later { (O.told output.old).faults ≤ (O.told output.new).faults }
    ensures read_fault { result ≡ Turn.Ends Status.ReadFault
        → RoseBy 1 (I.told input.old).faults (I.told input.new).faults }
    ensures write_fault { result ≡ Turn.Ends Status.WriteFault
        → RoseBy 1 (O.told output.old).faults (O.told output.new).faults }
    ensures last_read { has_failed (I.told input.old) ≡ false
        → has_failed (I.told input.new) ≡ ends_by_read result }
{
    match await_line(input, pending, taken) {
        Ok(length) => {
            let turn = answer_line(alloc, rows, hosts, &pending.as_slice()[..length], output);
            pending.drop_front(length + 1);
            turn
        }
        Err(why) => Turn::Ends(Status::of_no_line(why)),
    }
}

// Answers lines to the last, or to the first that can't be answered.
fn answer_lines<I: Source, O: Sink>(
    alloc: Global,
    rows: &Rows,
    hosts: &mut Hosts,
    input: &mut I,
    output: &mut O,
) -> Status
    ensures stops { Stops rows.now (replies_of hosts.old) result (I.told input.old)
        (O.told output.old) (I.told input.new) (O.told output.new) }
    ensures read_fault { result ≡ Status.ReadFault
        → RoseBy 1 (I.told input.old).faults (I.told input.new).faults }
    ensures write_fault { result ≡ Status.WriteFault
        → RoseBy 1 (O.told output.old).faults (O.told output.new).faults }
    ensures write_later { (O.told output.old).faults ≤ (O.told output.new).faults }
    ensures last_read { has_failed (I.told input.old) ≡ false
        → has_failed (I.told input.new) ≡ is_read_fault result }
{
    let Ok(mut pending) = Pending::make(alloc) else {
        return Status::OutOfMemory;
    };
    let mut taken = 0;
    'lines: loop {
        match take_line(alloc, rows, hosts, &mut pending, &mut taken, input, output) {
            Turn::Again => {}
            Turn::Ends(status) => return status,
        }
    }
}

// Flushes what was written, if each line is answered.
fn finish<O: Sink>(output: &mut O, status: Status) -> Status
    ensures kept { Keeps (O.told output.old).written (O.told output.new).written }
    ensures is { IsFinished status (O.told output.new) result }
    ensures later { (O.told output.old).faults ≤ (O.told output.new).faults }
    ensures fault { result ≡ Status.WriteFault
        → (status ≡ Status.WriteFault)
        ⊎ RoseBy 1 (O.told output.old).faults (O.told output.new).faults }
{
    if !status.is_whole() {
        return status;
    }
    match output.flush() {
        Ok(()) => status,
        Err(_) => Status::WriteFault,
    }
}

/// Answers the lines of the input, and flushes the output once all are, or those before a bad one.
pub(crate) fn answer_input<I: Source, O: Sink>(
    alloc: Global,
    rows: &Rows,
    hosts: &mut Hosts,
    input: &mut I,
    output: &mut O,
) -> Status
    ensures answers { Answers rows.now (replies_of hosts.old) result (I.told input.old)
        (O.told output.old) (I.told input.new) (O.told output.new) }
    ensures read_fault { result ≡ Status.ReadFault
        → RoseBy 1 (I.told input.old).faults (I.told input.new).faults }
    ensures write_fault { result ≡ Status.WriteFault
        → RoseBy 1 (O.told output.old).faults (O.told output.new).faults }
{
    let status = answer_lines(alloc, rows, hosts, input, output);
    finish(output, status)
}
