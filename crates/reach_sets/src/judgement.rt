//! Whether the tables of a wanted file hold.

ghost use Rattle.std.specs.Prelude.{◌≡◌, ◌<◌, ℕ, IfOk, Some, is_some, true};
ghost use Rattle.api_types.specs.Consistent.{IsConsistent};
ghost use Rattle.reach_laws.specs.Decides.{Decides};
ghost use Rattle.reach_laws.specs.Numbers.{number_end};
ghost use Rattle.reach_sets.specs.Breaking.{IsFirstBreak, IsNumberAgainst};
ghost use Rattle.reach_sets.specs.Cuts.{IsPiece};
ghost use Rattle.reach_sets.specs.Judged.{AreJudged, Breaks, IsJudged, IsSource, JudgedBy, is_against, shows, usual_source};
ghost use Rattle.reach_sets.specs.Named.{are_named, named};
ghost use Rattle.reach_sets.specs.TwoPorts.{AreRows, two_ports};

use crate::comes::{comes, reaches};
use crate::cuts::piece_end;
use crate::events::first_event;
use crate::pair::Pair;
use crate::wanted_pairs::named;
use api_types::Rows;
use net_addr::{OutOfMemory, Seq};
use plane_types::Event;
use reach_laws::ReachKind;
use std::alloc::Global;
use wanted_files::{ReachWant, Wanted, WantedReach};

/// What becomes of a table.
#[derive(Drop)]
pub enum Judgement {
    /// It holds.
    Held,
    /// It doesn't, and this event shows it: a first packet to the least number that breaks it. None
    /// if there is no first event.
    Broken { event: Option<Event> },
}

/// What becomes of each table.
pub type Judged = Seq<Judgement>;

fn is_against(want: ReachWant, comes: bool) -> bool
    ensures { result ≡ is_against want comes }
{
    match want {
        ReachWant::Allow => !comes,
        ReachWant::Deny => comes,
    }
}

fn usual_source(kind: ReachKind) -> u16
    ensures { result ≡ usual_source kind }
{
    match kind {
        ReachKind::Tcp => 40000,
        ReachKind::Udp => 40000,
        ReachKind::Echo => 1,
        ReachKind::Other => 0,
    }
}

// Whether the numbers of a piece are against what is wanted. If they are left out no event is
// evaluated.
fn is_piece_against(
    alloc: Global,
    rows: &Rows,
    pair: &Pair,
    wanted: &WantedReach,
    at: u32,
) -> Result<bool, OutOfMemory>
    requires consistent { IsConsistent rows.now }
    requires rows { AreRows rows.now (two_ports pair.now) }
    requires number { at < number_end wanted.now.proto }
    ensures { IfOk result (λ b. (d : ℕ)
        → IsPiece rows.now (two_ports pair.now) wanted.now.proto at d
        → Decides b (IsNumberAgainst rows.now (two_ports pair.now) wanted.now d)) }
{
    let left_out = wanted.proto.is_left_out(&pair.ends.source(), at);
    if left_out {
        return Ok(false);
    }
    let came = reaches(alloc, rows, pair, wanted.proto, at)?;
    Ok(is_against(wanted.want, came))
}

// The least number that breaks the table. It evaluates one event for each piece of the range.
fn first_break(
    alloc: Global,
    rows: &Rows,
    pair: &Pair,
    wanted: &WantedReach,
) -> Result<Option<u32>, OutOfMemory>
    requires consistent { IsConsistent rows.now }
    requires rows { AreRows rows.now (two_ports pair.now) }
    ensures { IfOk result (IsFirstBreak rows.now (two_ports pair.now) wanted.now) }
{
    let end = wanted.proto.number_end();
    let mut at = wanted.low;
    'pieces: while at <= wanted.high && at < end {
        let against = is_piece_against(alloc, rows, pair, wanted, at)?;
        if against {
            return Ok(Some(at));
        }
        at = piece_end(rows, pair, wanted.proto, at);
    }
    Ok(None)
}

// The source whose event to a number shows that it breaks the table: the usual one, or 0 if that
// packet comes as the answer to itself.
fn find_source(
    alloc: Global,
    rows: &Rows,
    pair: &Pair,
    wanted: &WantedReach,
    number: u32,
) -> Result<u16, OutOfMemory>
    requires consistent { IsConsistent rows.now }
    requires rows { AreRows rows.now (two_ports pair.now) }
    requires number { number < number_end wanted.now.proto }
    requires breaks { Breaks rows.now (two_ports pair.now) wanted.now number }
    ensures usual { IfOk result (IsSource rows.now (two_ports pair.now) wanted.now number) }
    ensures shown { IfOk result
        (λ s. shows rows.now (two_ports pair.now) wanted.now number s ≡ true) }
{
    let usual = usual_source(wanted.proto);
    let part = wanted.proto.part(usual, number);
    let came = comes(alloc, rows, pair, part)?;
    if is_against(wanted.want, came) {
        Ok(usual)
    } else {
        Ok(0)
    }
}

// What becomes of a table that a number breaks, and none before it.
fn break_at(
    alloc: Global,
    rows: &Rows,
    pair: &Pair,
    wanted: &WantedReach,
    number: u32,
) -> Result<Judgement, OutOfMemory>
    requires consistent { IsConsistent rows.now }
    requires rows { AreRows rows.now (two_ports pair.now) }
    requires number { number < number_end wanted.now.proto }
    requires first { IsFirstBreak rows.now (two_ports pair.now) wanted.now (Some number) }
    ensures { IfOk result (JudgedBy rows.now (two_ports pair.now) wanted.now) }
{
    let source = find_source(alloc, rows, pair, wanted, number)?;
    let part = wanted.proto.part(source, number);
    let event = first_event(rows, pair, part);
    Ok(Judgement::Broken { event })
}

// What becomes of a table whose ports and addresses are these.
fn judge_pair(
    alloc: Global,
    rows: &Rows,
    pair: &Pair,
    wanted: &WantedReach,
) -> Result<Judgement, OutOfMemory>
    requires consistent { IsConsistent rows.now }
    requires rows { AreRows rows.now (two_ports pair.now) }
    ensures { IfOk result (JudgedBy rows.now (two_ports pair.now) wanted.now) }
{
    let found = first_break(alloc, rows, pair, wanted)?;
    match found {
        None => Ok(Judgement::Held),
        Some(number) => break_at(alloc, rows, pair, wanted, number),
    }
}

// What becomes of a table whose ports and addresses are there.
fn judge_table(alloc: Global, rows: &Rows, wanted: &WantedReach) -> Result<Judgement, OutOfMemory>
    requires consistent { IsConsistent rows.now }
    requires named { is_some (named rows.now wanted.now) ≡ true }
    ensures { IfOk result (IsJudged rows.now wanted.now) }
{
    match named(rows, wanted) {
        Some(pair) => judge_pair(alloc, rows, &pair, wanted),
        None => unreachable!(),
    }
}

fn judge_tables(alloc: Global, rows: &Rows, tables: &[WantedReach]) -> Result<Judged, OutOfMemory>
    requires consistent { IsConsistent rows.now }
    requires named { are_named rows.now tables.now ≡ true }
    ensures { IfOk result (AreJudged rows.now tables.now) }
{
    let mut judged = Judged::new(alloc);
    for table in tables {
        judged.push(judge_table(alloc, rows, table)?)?;
    }
    Ok(judged)
}

/// What becomes of each table of a wanted file, whose ports and addresses are there: it holds, or
/// the first packet to the least number that breaks it. It evaluates at most one event for each
/// piece of a table's range, and one more for a broken table.
pub fn judge(alloc: Global, rows: &Rows, wanted: &Wanted) -> Result<Judged, OutOfMemory>
    requires consistent { IsConsistent rows.now }
    requires named { are_named rows.now wanted.now ≡ true }
    ensures { IfOk result (AreJudged rows.now wanted.now) }
{
    judge_tables(alloc, rows, wanted.as_slice())
}
