//! Whether a first packet comes.

ghost use Rattle.std.specs.Prelude.{◌≡◌, ◌==◌, ◌<◌, ℕ, IfOk, false};
ghost use Rattle.api_types.specs.Consistent.{IsConsistent};
ghost use Rattle.reach_laws.specs.Decides.{Decides};
ghost use Rattle.reach_laws.specs.Numbers.{number_end};
ghost use Rattle.reach_laws.specs.Pieces.{AreOnePiece};
ghost use Rattle.reach_laws.specs.Reach.{is_delivered};
ghost use Rattle.reach_sets.specs.Cuts.{IsPiece};
ghost use Rattle.reach_sets.specs.TwoPorts.{AreRows, IsReachedBetween, ReachesBetween, comes_between, two_ports};

use crate::events::first_event;
use crate::pair::Pair;
use api_types::{Id, Rows};
use net_addr::OutOfMemory;
use net_meaning::explain;
use plane_types::{Entries, KeyPart, Outcome};
use reach_laws::ReachKind;
use std::alloc::Global;

fn is_delivered(port: Id, outcome: &Outcome) -> bool
    ensures { result ≡ is_delivered port outcome.now }
{
    match outcome {
        Outcome::Delivered { port: receiver, .. } => port == *receiver,
        Outcome::Answered(_) => false,
        Outcome::Absorbed { .. } => false,
        Outcome::Out { .. } => false,
        Outcome::Dropped(_) => false,
    }
}

/// Whether the first packet with this part comes from one port to the other, when nothing is
/// tracked yet.
pub(crate) fn comes(
    alloc: Global,
    rows: &Rows,
    pair: &Pair,
    part: KeyPart,
) -> Result<bool, OutOfMemory>
    ensures { IfOk result (λ b. b ≡ comes_between rows.now (two_ports pair.now) part) }
{
    let Some(event) = first_event(rows, pair, part) else {
        return Ok(false);
    };
    let nothing_tracked = Entries::new(alloc);
    let verdict = explain(alloc, rows, &nothing_tracked, &event)?;
    Ok(is_delivered(pair.to.id, &verdict.outcome))
}

// A source other than the number: from the number itself a packet may come where others don't.
fn other_source(number: u32) -> u16
    ensures { (result == number) ≡ false }
{
    if number == 0 { 1 } else { 0 }
}

/// Whether first packets to a number of the kind, and to each number of its piece, come. One event
/// decides for all sources.
pub(crate) fn reaches(
    alloc: Global,
    rows: &Rows,
    pair: &Pair,
    kind: ReachKind,
    number: u32,
) -> Result<bool, OutOfMemory>
    requires consistent { IsConsistent rows.now }
    requires rows { AreRows rows.now (two_ports pair.now) }
    requires number { number < number_end kind }
    ensures { IfOk result (λ b. (d : ℕ)
        → AreOnePiece rows.now pair.now.from.now pair.now.to.now kind number d
        → Decides b (ReachesBetween rows.now (two_ports pair.now) kind d)) }
{
    let source = other_source(number);
    let part = kind.part(source, number);
    let came = comes(alloc, rows, pair, part)?;
    Ok(came)
}

/// Whether a number is one of the kind, and first packets to it, and to each number of its piece,
/// come. If it is left out no event is evaluated.
pub(crate) fn is_reached(
    alloc: Global,
    rows: &Rows,
    pair: &Pair,
    kind: ReachKind,
    number: u32,
) -> Result<bool, OutOfMemory>
    requires consistent { IsConsistent rows.now }
    requires rows { AreRows rows.now (two_ports pair.now) }
    requires number { number < number_end kind }
    ensures { IfOk result (λ b. (d : ℕ)
        → IsPiece rows.now (two_ports pair.now) kind number d
        → Decides b (IsReachedBetween rows.now (two_ports pair.now) kind d)) }
{
    let left_out = kind.is_left_out(&pair.ends.source(), number);
    if left_out {
        return Ok(false);
    }
    let came = reaches(alloc, rows, pair, kind, number)?;
    Ok(came)
}
