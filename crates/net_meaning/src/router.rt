//! What a router does with a packet, by the rows.

ghost use Rattle.std.specs.Prelude.{◌≡◌, ◌++◌, IfOk, Some, find, if◌then◌else◌, map, option_map};
ghost use Rattle.std.specs.List.{list_any};
ghost use Rattle.std.specs.Option.{unwrap_or};
ghost use Rattle.net_addr.specs.Prefixes.{contains};
ghost use Rattle.api_types.specs.declared.port.PortRow.{PortRow as ThePort};
ghost use Rattle.api_types.specs.Holders.{holds as holds_address};
ghost use Rattle.api_types.specs.RouterRows.{gateway_address as gateway_by_rows, leg_of, legs_of, router_view, ways_of as ways_by_rows};
ghost use Rattle.plane_types.specs.Ends.{destination as destined_to};
ghost use Rattle.plane_types.specs.Routing.{answers as answers_to, best_way as best_of_ways, better as better_of, new_destination as destined_by, beats as way_beats, routing_of as routed_by_view, routed_to as to_by_view, routed_way as way_by_view, sending_of as sent_by};
ghost use Rattle.plane_rows.specs.Ways.{way_of};
ghost use Rattle.plane_types.specs.Parts.{changed_of, destined_of, packet_of, sourced_of, use_of};
ghost use Rattle.net_meaning.specs.Views.{routed_of};

use crate::source::find_source;
use crate::uses::{answering, valid_uses};
use api_types::{PortRow, RouterRow, Rows};
use net_addr::{Addr, OutOfMemory};
use plane_rows::{Way, fixed_behind, gateway_address, is_own_address, leg, ways_of};
use plane_types::{
    Changed, Destined, DropCause, Entry, Outcome, Packet, Sourced, Use, answered_to, lower,
    rank_number, with_ends,
};
use std::alloc::Global;

/// A packet that a router sends on by a port of it, toward the next hop.
#[derive(Clone, Copy)]
pub(crate) struct Sent<'r> {
    pub(crate) made: Option<Entry>,
    pub(crate) out: &'r PortRow,
    pub(crate) hop: Addr,
    pub(crate) packet: Packet,
}

/// What a router does with a packet.
#[derive(Drop)]
pub(crate) enum Routed<'r> {
    Ends(Outcome),
    Sends(Sent<'r>),
}

// The valid entry that a packet answers.
#[tactic(auto, using(plane_types::proofs::UseLemmas::none_answers))]
fn answer(rows: &Rows, router: &RouterRow, uses: &[Use], packet: &Packet) -> Option<Use>
    ensures { option_map use_of result
        ≡ find (answers_to (gateway_by_rows rows.now router.now) (packet_of packet.now))
        (map use_of uses.now) }
{
    match gateway_address(rows, router) {
        Some(outer) => answering(uses, outer, packet),
        None => None,
    }
}

// A floating address of this router becomes the fixed address; otherwise an entry that the packet
// answers gives it back the source that it keeps.
#[tactic(auto, unfolding(api_types::specs::RouterRows::router_view))]
fn find_destination(rows: &Rows, router: &RouterRow, uses: &[Use], packet: &Packet) -> Destined
    ensures { destined_of result
        ≡ destined_by (router_view rows.now router.now) (map use_of uses.now)
        (packet_of packet.now) }
{
    if let Some(fixed) = fixed_behind(rows, router, &packet.ends.destination()) {
        let ends = packet.ends.with_destination(fixed);
        return Destined {
            packet: with_ends(packet, ends, packet.part),
            by: Changed::Floating,
        };
    }
    match answer(rows, router, uses, packet) {
        Some(entry) => Destined {
            packet: answered_to(packet, &entry),
            by: Changed::Entry,
        },
        None => Destined {
            packet: *packet,
            by: Changed::Nothing,
        },
    }
}

// Whether the first goes before the second: by length, then by rank, then as the first.
fn beats(a: &Way, b: &Way) -> bool
    ensures { result ≡ way_beats (way_of a.now) (way_of b.now) }
{
    b.prefix.len < a.prefix.len
        || (a.prefix.len == b.prefix.len && rank_number(a.rank) <= rank_number(b.rank))
}

fn better(way: &Way, other: &Option<Way>) -> Way
    ensures { way_of result ≡ better_of (way_of way.now) (option_map way_of other.now) }
{
    match other {
        Some(other) => { if beats(way, other) { *way } else { *other } }
        None => *way,
    }
}

// The better of the way, where its prefix has the destination, and of the other.
fn better_for(destination: &Addr, way: &Way, other: &Option<Way>) -> Option<Way>
    ensures { option_map way_of result
        ≡ (if contains way.now.prefix destination.now
        then Some (better_of (way_of way.now) (option_map way_of other.now))
        else option_map way_of other.now) }
{
    if way.prefix.contains(*destination) {
        Some(better(way, other))
    } else {
        *other
    }
}

// The route with the longest prefix that has the destination; of equal lengths a connected one goes
// before an extra one, that before the default, and the first of equal ones.
fn best_way(destination: &Addr, mut ways: Vec<Way>) -> Option<Way>
    ensures { option_map way_of result ≡ best_of_ways destination.now (map way_of ways.items) }
{
    let mut best = None;
    while let Some(way) = ways.pop() {
        best = better_for(destination, &way, &best);
    }
    best
}

// The source MAC is that of the way out.
fn send_on<'r>(out: &'r PortRow, hop: &Addr, sourced: Option<Sourced>) -> Routed<'r>
    ensures { routed_of result ≡ sent_by (leg_of out.now) hop.now (option_map sourced_of sourced) }
{
    match sourced {
        Some(sourced) => Routed::Sends(Sent {
            made: sourced.made,
            out,
            hop: *hop,
            packet: Packet {
                src: out.mac,
                ..sourced.packet
            },
        }),
        None => Routed::Ends(Outcome::Dropped(DropCause::TranslationFull)),
    }
}

// The route's next hop, or the destination where it has none.
fn next_hop(way: &Way, packet: &Packet) -> Addr
    ensures { result ≡ unwrap_or way.now.next (destined_to packet.now.ends) }
{
    match way.next {
        Some(next) => next,
        None => packet.ends.destination(),
    }
}

// By a route, whose port is the way out.
fn routed_by<'r>(
    rows: &'r Rows,
    router: &RouterRow,
    uses: &[Use],
    port: &PortRow,
    destined: &Destined,
    way: &Way,
) -> Routed<'r>
    ensures { routed_of result
        ≡ way_by_view (router_view rows.now router.now) (map use_of uses.now) (leg_of port.now)
        (changed_of destined.now.by) (packet_of destined.now.packet) (Some (way_of way.now)) }
{
    match leg(rows, router, way.port) {
        Some(out) => {
            let source = find_source(rows, router, uses, port, out, destined);
            let hop = next_hop(way, &destined.packet);
            send_on(out, &hop, source)
        }
        None => Routed::Ends(Outcome::Dropped(DropCause::Unknown)),
    }
}

// By the best of the router's routes.
#[tactic(auto, unfolding(api_types::specs::RouterRows::router_view))]
fn routed_on<'r>(
    alloc: Global,
    rows: &'r Rows,
    router: &RouterRow,
    uses: &[Use],
    port: &PortRow,
    destined: &Destined,
) -> Result<Routed<'r>, OutOfMemory>
    ensures { IfOk result
        (λ r. routed_of r
        ≡ way_by_view (router_view rows.now router.now) (map use_of uses.now)
        (leg_of port.now) (changed_of destined.now.by) (packet_of destined.now.packet)
        (best_of_ways (destined_to destined.now.packet.ends)
        (ways_by_rows rows.now router.now))) }
{
    let ways = ways_of(alloc, rows, router)?;
    match best_way(&destined.packet.ends.destination(), ways) {
        Some(way) => Ok(routed_by(rows, router, uses, port, destined, &way)),
        None => Ok(Routed::Ends(Outcome::Dropped(DropCause::NoRoute))),
    }
}

// Whether a live port of the router has the packet's destination.
fn is_own(rows: &Rows, router: &RouterRow, packet: &Packet) -> bool
    ensures { result
        ≡ list_any (λ (p : ThePort). holds_address p (destined_to packet.now.ends))
        (legs_of rows.now router.now) }
{
    is_own_address(rows, router, &packet.ends.destination())
}

// What is the router's own ends, and what has lived; what goes on has one step less to live.
fn routed_to<'r>(
    alloc: Global,
    rows: &'r Rows,
    router: &RouterRow,
    uses: &[Use],
    port: &PortRow,
    destined: &Destined,
) -> Result<Routed<'r>, OutOfMemory>
    ensures { IfOk result
        (λ r. routed_of r
        ≡ to_by_view (router_view rows.now router.now) (map use_of uses.now) (leg_of port.now)
        (destined_of destined.now)) }
{
    if is_own(rows, router, &destined.packet) {
        return Ok(Routed::Ends(Outcome::Absorbed { router: router.id }));
    }
    if destined.packet.ttl <= 1 {
        return Ok(Routed::Ends(Outcome::Dropped(DropCause::Expired)));
    }
    let lowered = lower(destined);
    routed_on(alloc, rows, router, uses, port, &lowered)
}

/// What a router does with a packet that came by a port of it. Its cost grows with the entries and
/// the ports, and with what `plane_rows::ways_by` costs for the router's.
#[tactic(auto, unfolding(plane_types::specs::Routing::routing_of, api_types::specs::RouterRows::router_view))]
pub(crate) fn route<'r>(
    alloc: Global,
    rows: &'r Rows,
    entries: &[Entry],
    fresh: &[Entry],
    router: &RouterRow,
    port: &PortRow,
    packet: &Packet,
) -> Result<Routed<'r>, OutOfMemory>
    ensures { IfOk result
        (λ r. routed_of r
        ≡ routed_by_view (router_view rows.now router.now) (entries.now ++ fresh.now)
        (leg_of port.now) (packet_of packet.now)) }
{
    if !router.up {
        return Ok(Routed::Ends(Outcome::Dropped(DropCause::RouterDown)));
    }
    let uses = valid_uses(alloc, rows, router, entries, fresh)?;
    let uses = uses.as_slice();
    let destined = find_destination(rows, router, uses, packet);
    routed_to(alloc, rows, router, uses, port, &destined)
}
