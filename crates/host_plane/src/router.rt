//! What a router does with a packet: destination, own addresses, route, source.

ghost use Rattle.std.specs.Prelude.{◌≡◌, ◌++◌, Some, option_map};
ghost use Rattle.std.specs.List.{list_any};
ghost use Rattle.std.specs.Option.{unwrap_or};
ghost use Rattle.net_addr.specs.Addresses.{addr_eq};
ghost use Rattle.plane_types.specs.Ends.{destination as destined_for};
ghost use Rattle.plane_types.specs.Routing.{best_way as best_of_ways, new_destination as destined_by, is_own as is_own_by, routing_of as routed_by_view, routed_to as to_by_view, routed_way as way_by_view, sending_of as sent_by, uses_by};
ghost use Rattle.plane_types.specs.TableStep.{leg_at, plain, stops, table_routed as led_by, table_view, way_at, ways_at};
ghost use Rattle.plane_types.specs.declared.verdict.Outcome.TheVariants.{Absorbed};
ghost use Rattle.plane_types.specs.Parts.{changed_of, destined_of, packet_of, sourced_of};
ghost use Rattle.host_plane.specs.Views.{view_of_stepped};

use crate::ending::{Ending, FrameEnd, Step, Stepped, drop_frame};
use crate::outward::sent_at;
use crate::port::port_of;
use crate::source::{find_source, fixed_behind};
use crate::translation::answer;
use crate::ways::best_way;
use api_types::Id;
use net_addr::Addr;
use plane_types::{
    Changed, Destined, DropCause, Entry, HostTables, Packet, RouteRow, RouterPort, RouterTable,
    Sourced, answered_to, lower, with_ends,
};

// A floating address of this router becomes the fixed address; otherwise an entry that the packet
// answers gives it back the source that it keeps.
fn find_destination(
    tables: &HostTables,
    entries: &[Entry],
    fresh: &[Entry],
    router: &RouterTable,
    packet: &Packet,
) -> Destined
    ensures { destined_of result
        ≡ destined_by (table_view tables.now.lists router.now)
        (uses_by router.now.snat router.now.gateway router.now.router
        (entries.now ++ fresh.now)) (packet_of packet.now) }
{
    if let Some(to) = fixed_behind(tables, router.router, &packet.ends.destination()) {
        return Destined {
            packet: with_ends(packet, packet.ends.with_destination(to), packet.part),
            by: Changed::Floating,
        };
    }
    match answer(entries, fresh, router, packet) {
        Some(entry) => Destined {
            packet: answered_to(packet, &entry),
            by: Changed::Entry,
        },
        None => Destined {
            packet: *packet,
            by: Changed::Nothing,
        },
    }
}

fn holds(port: &RouterPort, address: &Addr) -> bool
    ensures { result ≡ list_any (λ a. addr_eq a address.now) port.now.addresses }
{
    port.addresses.iter().any(|held| *held == *address)
}

// Whether a live port of the router holds the address.
fn is_own(tables: &HostTables, router: &RouterTable, address: &Addr) -> bool
    ensures { result ≡ is_own_by (table_view tables.now.lists router.now) address.now }
{
    for port in router.ports.as_slice() {
        if holds(port, address) {
            return true;
        }
    }
    false
}

// The neighbour at the next hop gets it from the way out; the entry is the one of its source.
fn send_on<'t>(
    tables: &'t HostTables,
    router: &RouterTable,
    out: &RouterPort,
    hop: &Addr,
    sourced: Option<Sourced>,
) -> Stepped<'t>
    ensures { view_of_stepped result
        ≡ led_by tables.now.lists router.now
        (sent_by (leg_at out.now) hop.now (option_map sourced_of sourced)) }
{
    let Some(sourced) = sourced else {
        return drop_frame(DropCause::TranslationFull);
    };
    let packet = Packet {
        src: out.mac,
        ..sourced.packet
    };
    Stepped {
        step: sent_at(tables, router, out.port, hop, &packet),
        made: sourced.made,
    }
}

// The route's next hop, or the destination where it has none.
fn next_hop(row: &RouteRow, packet: &Packet) -> Addr
    ensures { result ≡ unwrap_or row.now.next (destined_for packet.now.ends) }
{
    match row.next {
        Some(next) => next,
        None => packet.ends.destination(),
    }
}

// By a route, whose port is the way out.
fn routed_by<'t>(
    tables: &'t HostTables,
    entries: &[Entry],
    fresh: &[Entry],
    router: &RouterTable,
    port: &RouterPort,
    destined: &Destined,
    row: &RouteRow,
) -> Stepped<'t>
    ensures { view_of_stepped result
        ≡ led_by tables.now.lists router.now
        (way_by_view (table_view tables.now.lists router.now)
        (uses_by router.now.snat router.now.gateway router.now.router
        (entries.now ++ fresh.now)) (leg_at port.now) (changed_of destined.now.by)
        (packet_of destined.now.packet) (Some (way_at row.now))) }
{
    match port_of(router, row.port) {
        Some(out) => {
            let source = find_source(tables, entries, fresh, router, port, out, destined);
            let hop = next_hop(row, &destined.packet);
            send_on(tables, router, out, &hop, source)
        }
        None => drop_frame(DropCause::Unknown),
    }
}

// By the best of the router's routes.
fn routed_on<'t>(
    tables: &'t HostTables,
    entries: &[Entry],
    fresh: &[Entry],
    router: &RouterTable,
    port: &RouterPort,
    destined: &Destined,
) -> Stepped<'t>
    ensures { view_of_stepped result
        ≡ led_by tables.now.lists router.now
        (way_by_view (table_view tables.now.lists router.now)
        (uses_by router.now.snat router.now.gateway router.now.router
        (entries.now ++ fresh.now)) (leg_at port.now) (changed_of destined.now.by)
        (packet_of destined.now.packet)
        (best_of_ways (destined_for destined.now.packet.ends)
        (ways_at router.now.router tables.now.lists.routes))) }
{
    let to = destined.packet.ends.destination();
    match best_way(tables, router.router, &to) {
        Some(row) => routed_by(tables, entries, fresh, router, port, destined, row),
        None => drop_frame(DropCause::NoRoute),
    }
}

fn absorb<'t>(router: Id) -> Stepped<'t>
    ensures { view_of_stepped result ≡ plain (stops (Absorbed router)) }
{
    Stepped {
        step: Step::End(Ending {
            ended: FrameEnd::Absorbed { router },
            way: None,
        }),
        made: None,
    }
}

// What is the router's own ends, and what has lived; what goes on has one step less to live.
fn routed_to<'t>(
    tables: &'t HostTables,
    entries: &[Entry],
    fresh: &[Entry],
    router: &RouterTable,
    port: &RouterPort,
    destined: &Destined,
) -> Stepped<'t>
    ensures { view_of_stepped result
        ≡ led_by tables.now.lists router.now
        (to_by_view (table_view tables.now.lists router.now)
        (uses_by router.now.snat router.now.gateway router.now.router
        (entries.now ++ fresh.now)) (leg_at port.now) (destined_of destined.now)) }
{
    if is_own(tables, router, &destined.packet.ends.destination()) {
        return absorb(router.router);
    }
    if destined.packet.ttl <= 1 {
        return drop_frame(DropCause::Expired);
    }
    let lowered = lower(destined);
    routed_on(tables, entries, fresh, router, port, &lowered)
}

/// What a router does with a packet that came by a port of it. Its cost grows with the entries,
/// with the router's ports, and with the routes and floating addresses.
#[tactic(auto, unfolding(plane_types::specs::Routing::routing_of))]
pub(crate) fn route<'t>(
    tables: &'t HostTables,
    entries: &[Entry],
    fresh: &[Entry],
    router: &RouterTable,
    port: &RouterPort,
    packet: &Packet,
) -> Stepped<'t>
    ensures { view_of_stepped result
        ≡ led_by tables.now.lists router.now
        (routed_by_view (table_view tables.now.lists router.now) (entries.now ++ fresh.now)
        (leg_at port.now) (packet_of packet.now)) }
{
    if !router.up {
        return drop_frame(DropCause::RouterDown);
    }
    let destined = find_destination(tables, entries, fresh, router, packet);
    routed_to(tables, entries, fresh, router, port, &destined)
}
