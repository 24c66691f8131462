//! The sets of numbers by which one port reaches another.

ghost use Rattle.std.specs.Prelude.{◌≡◌, ◌<◌, ◌≤◌, IfOk, Some, is_some, option_map, true};
ghost use Rattle.net_addr.specs.Addresses.{same_version};
ghost use Rattle.api_types.specs.Consistent.{IsConsistent};
ghost use Rattle.api_types.specs.RowsWith.{port_with};
ghost use Rattle.api_types.specs.declared.port.PortRow.{PortRow as Port};
ghost use Rattle.plane_types.specs.Ends.{ends_of};
ghost use Rattle.reach_laws.specs.Numbers.{number_end};
ghost use Rattle.reach_sets.specs.Growth.{AreSoFar};
ghost use Rattle.reach_sets.specs.Named.{ends_if_same, with_ends};
ghost use Rattle.reach_sets.specs.ReachSets.{AreSpansOf, IsReachSet};
ghost use Rattle.reach_sets.specs.TwoPorts.{AreRows, IsReachedBetween, ports_with_ends, two_ports};

use crate::comes::{is_reached, reaches};
use crate::cuts::piece_end;
use crate::growth::Growing;
use crate::pair::Pair;
use crate::spans::Spans;
use crate::wanted_pairs::{ends_if_same, port_named};
use api_types::{Id, Rows};
use net_addr::{Addr, OutOfMemory};
use reach_laws::ReachKind;
use std::alloc::Global;

/// By which numbers one port reaches another.
#[derive(Drop)]
pub struct ReachSet {
    /// Destination ports of TCP.
    pub tcp: Spans,
    /// Destination ports of UDP.
    pub udp: Spans,
    /// Whether echoes come.
    pub echo: bool,
    /// Other protocols.
    pub other: Spans,
}

// Adds the piece of numbers that begins at `at`, and gives the next one's beginning.
fn add_piece(
    alloc: Global,
    rows: &Rows,
    pair: &Pair,
    kind: ReachKind,
    at: u32,
    growing: &mut Growing,
) -> Result<u32, OutOfMemory>
    requires consistent { IsConsistent rows.now }
    requires rows { AreRows rows.now (two_ports pair.now) }
    requires number { at < number_end kind }
    requires so_far { AreSoFar (IsReachedBetween rows.now (two_ports pair.now) kind) at
        growing.old }
    ensures above { IfOk result (λ next. at < next) }
    ensures within { IfOk result (λ next. next ≤ number_end kind) }
    ensures so_far { IfOk result (λ next.
        AreSoFar (IsReachedBetween rows.now (two_ports pair.now) kind) next growing.new) }
{
    let next = piece_end(rows, pair, kind, at);
    let reached = is_reached(alloc, rows, pair, kind, at)?;
    growing.add(at, reached)?;
    Ok(next)
}

// The spans of the numbers of one kind.
fn find_spans(
    alloc: Global,
    rows: &Rows,
    pair: &Pair,
    kind: ReachKind,
) -> Result<Spans, OutOfMemory>
    requires consistent { IsConsistent rows.now }
    requires rows { AreRows rows.now (two_ports pair.now) }
    ensures { IfOk result
        (AreSpansOf (IsReachedBetween rows.now (two_ports pair.now) kind)) }
{
    let end = kind.number_end();
    let mut growing = Growing::new(alloc);
    let mut at = 0;
    'pieces: while at < end {
        at = add_piece(alloc, rows, pair, kind, at, &mut growing)?;
    }
    growing.finish(at)
}

// The four sets.
fn find_set(alloc: Global, rows: &Rows, pair: &Pair) -> Result<ReachSet, OutOfMemory>
    requires consistent { IsConsistent rows.now }
    requires rows { AreRows rows.now (two_ports pair.now) }
    ensures { IfOk result (IsReachSet rows.now (two_ports pair.now)) }
{
    let tcp = find_spans(alloc, rows, pair, ReachKind::Tcp)?;
    let udp = find_spans(alloc, rows, pair, ReachKind::Udp)?;
    let echo = reaches(alloc, rows, pair, ReachKind::Echo, 0)?;
    let other = find_spans(alloc, rows, pair, ReachKind::Other)?;
    Ok(ReachSet {
        tcp,
        udp,
        echo,
        other,
    })
}

// The ports with these ids and their addresses.
fn pair_of<'r>(
    rows: &'r Rows,
    from: Id,
    source: &Addr,
    to: Id,
    destination: &Addr,
) -> Option<Pair<'r>>
    ensures { option_map two_ports result
        ≡ ports_with_ends (port_with rows.now from) (port_with rows.now to)
        (ends_if_same source.now destination.now) }
{
    let from = port_named(rows, from)?;
    let to = port_named(rows, to)?;
    let ends = ends_if_same(source, destination)?;
    Some(Pair { from, to, ends })
}

/// By which numbers an address of one port reaches an address of another: exactly the numbers whose
/// first packets are delivered from every source when nothing is tracked yet. It evaluates at most
/// 2(2k + 1) events for ports, one for echoes and 6 + 2m for other protocols, where k is how many
/// rules of the two ports have a range and m how many other protocols these name; each costs what
/// `explain` does.
pub fn reach(
    alloc: Global,
    rows: &Rows,
    from: Id,
    source: Addr,
    to: Id,
    destination: Addr,
) -> Result<ReachSet, OutOfMemory>
    requires consistent { IsConsistent rows.now }
    requires from { is_some (port_with rows.now from) ≡ true }
    requires to { is_some (port_with rows.now to) ≡ true }
    requires version { same_version source destination ≡ true }
    ensures { (p q : Port) → port_with rows.now from ≡ Some p → port_with rows.now to ≡ Some q
        → IfOk result (IsReachSet rows.now (with_ends p q (ends_of source destination))) }
{
    match pair_of(rows, from, &source, to, &destination) {
        Some(pair) => find_set(alloc, rows, &pair),
        None => unreachable!(),
    }
}
