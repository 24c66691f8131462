//! Waiting for a line.

ghost use Rattle.std.specs.Prelude.{◌≡◌, ◌^◌, ◌<◌, ◌≤◌, false, true, length, take, IfOk, IfErr, OnOk};
ghost use Rattle.dvr_run.specs.Lines.{is_unbroken};
ghost use Rattle.dvr_run.specs.Reading.{HasLine, IsLineEnd, IsNoLine, is_no_read};
ghost use Rattle.http_session.specs.Reading.{Reads};
ghost use Rattle.keeper_core.specs.Counts.{RoseBy};
ghost use Rattle.keeper_core.specs.Ends.{has_failed};

use crate::pending::{LINE_LIMIT, Pending};
use crate::status::Status;
use keeper_core::Source;

/// The most bytes that are read: 2^40.
pub(crate) const BUDGET: u64 = 1_099_511_627_776;

const LINE_FEED: u8 = b'\n';

/// Why there is no next line.
#[derive(Clone, Copy)]
pub(crate) enum NoLine {
    /// The input ended after a line feed, or has no byte.
    AtEnd,
    /// The line is too long, or the input ended without a line feed.
    Unfinished,
    /// A read failed.
    NoRead,
    /// As many bytes were read as may be.
    Spent,
}

// The place of the first line feed, of which there is none among the first `seen` bytes.
fn line_end(bytes: &[u8], seen: usize) -> Option<usize>
    requires within { seen ≤ length bytes.now }
    requires unbroken { is_unbroken (take seen bytes.now) ≡ true }
    ensures { IsLineEnd bytes.now result }
{
    for at in seen..bytes.len() {
        if bytes[at] == LINE_FEED {
            return Some(at);
        }
    }
    None
}

// Reads some more bytes after those that wait for them.
fn read_more<I: Source>(input: &mut I, pending: &mut Pending, taken: &mut u64) -> Result<(), NoLine>
    requires unbroken { is_unbroken pending.old ≡ true }
    requires within { taken.old ≤ 2 ^ 40 }
    ensures reads { Reads pending.old pending.new (I.told input.old).left (I.told input.new).left
        taken.old taken.new }
    ensures within { taken.new ≤ 2 ^ 40 }
    ensures some { OnOk result (taken.old < taken.new) }
    ensures stop { IfErr result (IsNoLine pending.new (I.told input.new) taken.new) }
    ensures later { (I.told input.old).faults ≤ (I.told input.new).faults }
    ensures fault { IfErr result
        (λ why. why ≡ NoLine.NoRead
        → RoseBy 1 (I.told input.old).faults (I.told input.new).faults) }
    ensures went { OnOk result (has_failed (I.told input.new) ≡ false) }
    ensures last { IfErr result
        (λ why. has_failed (I.told input.old) ≡ false
        → has_failed (I.told input.new) ≡ is_no_read why) }
{
    if pending.as_slice().len() > LINE_LIMIT {
        return Err(NoLine::Unfinished);
    }
    if *taken == BUDGET {
        return Err(NoLine::Spent);
    }
    let Ok(count) = pending.read_from(input, BUDGET - *taken) else {
        return Err(NoLine::NoRead);
    };
    *taken += count as u64;
    if count == 0 {
        if pending.as_slice().len() == 0 {
            return Err(NoLine::AtEnd);
        }
        return Err(NoLine::Unfinished);
    }
    Ok(())
}

/// Reads until a whole line is there, and answers how long it is without its line feed; or tells
/// why there is none. No byte is looked at twice for one line, in whatever pieces they come.
pub(crate) fn await_line<I: Source>(
    input: &mut I,
    pending: &mut Pending,
    taken: &mut u64,
) -> Result<usize, NoLine>
    requires { taken.old ≤ 2 ^ 40 }
    ensures reads { Reads pending.old pending.new (I.told input.old).left (I.told input.new).left
        taken.old taken.new }
    ensures within { taken.new ≤ 2 ^ 40 }
    ensures line { IfOk result (HasLine pending.new) }
    ensures stop { IfErr result (IsNoLine pending.new (I.told input.new) taken.new) }
    ensures later { (I.told input.old).faults ≤ (I.told input.new).faults }
    ensures fault { IfErr result
        (λ why. why ≡ NoLine.NoRead
        → RoseBy 1 (I.told input.old).faults (I.told input.new).faults) }
    ensures went { OnOk result
        (has_failed (I.told input.old) ≡ false → has_failed (I.told input.new) ≡ false) }
    ensures last { IfErr result
        (λ why. has_failed (I.told input.old) ≡ false
        → has_failed (I.told input.new) ≡ is_no_read why) }
{
    let mut seen = 0;
    'reads: loop {
        let bytes = pending.as_slice();
        if let Some(length) = line_end(bytes, seen) {
            return Ok(length);
        }
        seen = bytes.len();
        read_more(input, pending, taken)?;
    }
}

impl Status {
    ghost use Rattle.dvr_run.specs.Reading.{no_line_status};

    /// By why there is no next line.
    pub(crate) fn of_no_line(why: NoLine) -> Status
        ensures { result ≡ no_line_status why }
    {
        match why {
            NoLine::AtEnd => Status::Done,
            NoLine::Unfinished => Status::BadLine,
            NoLine::NoRead => Status::ReadFault,
            NoLine::Spent => Status::Budget,
        }
    }
}
