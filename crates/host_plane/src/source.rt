//! The source with which a packet leaves a router: floating, translated, or its own.

ghost use Rattle.std.specs.Prelude.{◌≡◌, ◌++◌, ◌&&◌, ◌||◌, find, not, option_map, true};
ghost use Rattle.std.specs.List.{list_any};
ghost use Rattle.net_addr.specs.Addresses.{addr_eq};
ghost use Rattle.net_addr.specs.declared.address.Addr.TheVariants.{V4};
ghost use Rattle.plane_types.specs.Ends.{source};
ghost use Rattle.plane_types.specs.Packets.{key_of};
ghost use Rattle.plane_types.specs.Routing.{by_float as changed_by_float, is_gateway_live, new_port as new_port_of, new_source as sourced_by, sourced_float as sourced_by_float, sourced_gateway as sourced_by_gateway, sourced_new as sourced_anew, uses_at, uses_by};
ghost use Rattle.api_types.specs.RouterViews.{Float};
ghost use Rattle.plane_types.specs.TableStep.{floats_at_router, leg_at, table_view};
ghost use Rattle.plane_types.specs.declared.table.RouterPort.{RouterPort as ThePort};
ghost use Rattle.plane_types.specs.Parts.{changed_of, packet_of, sourced_of};

use crate::translation::{new_port, with_key};
use api_types::Id;
use net_addr::{Addr, Addr4};
use plane_types::{
    Changed, Destined, Entry, FloatRow, HostTables, Packet, RouterPort, RouterTable, Sourced,
    kept_source, sourced_at, with_ends,
};

// The fixed address of the first of these rows that is of the router and has the floating address.
fn fixed_among(rows: &[FloatRow], router: Id, floating: &Addr) -> Option<Addr4>
    ensures { result
        ≡ option_map (λ (f : Float). f.fixed)
        (find (λ (f : Float). addr_eq (V4 f.floating) floating.now)
        (floats_at_router router rows.now)) }
{
    for row in rows {
        if router == row.router && Addr::V4(row.floating) == *floating {
            return Some(row.fixed);
        }
    }
    None
}

/// The fixed address for which a floating address of the router stands; for an address of version 6
/// there is none. Its cost grows with the router's floating addresses.
pub(crate) fn fixed_behind(tables: &HostTables, router: Id, floating: &Addr) -> Option<Addr4>
    ensures { result
        ≡ option_map (λ (f : Float). f.fixed)
        (find (λ (f : Float). addr_eq (V4 f.floating) floating.now)
        (floats_at_router router tables.now.lists.floats)) }
{
    fixed_among(tables.floats_near(router), router, floating)
}

// The floating address of the first of these rows that is of the router and has the fixed address.
fn floating_among(rows: &[FloatRow], router: Id, fixed: &Addr) -> Option<Addr4>
    ensures { result
        ≡ option_map (λ (f : Float). f.floating)
        (find (λ (f : Float). addr_eq (V4 f.fixed) fixed.now)
        (floats_at_router router rows.now)) }
{
    for row in rows {
        if router == row.router && Addr::V4(row.fixed) == *fixed {
            return Some(row.floating);
        }
    }
    None
}

// The floating address of the router that stands for a fixed address.
fn floating_for(tables: &HostTables, router: Id, fixed: &Addr) -> Option<Addr4>
    ensures { result
        ≡ option_map (λ (f : Float). f.floating)
        (find (λ (f : Float). addr_eq (V4 f.fixed) fixed.now)
        (floats_at_router router tables.now.lists.floats)) }
{
    floating_among(tables.floats_near(router), router, fixed)
}

// With a new entry, where a port is left.
fn sourced_new(
    entries: &[Entry],
    fresh: &[Entry],
    router: Id,
    outer: Addr4,
    packet: &Packet,
) -> Option<Sourced>
    ensures { option_map sourced_of result
        ≡ sourced_anew router (packet_of packet.now) outer
        (new_port_of (uses_at router outer (entries.now ++ fresh.now))
        (key_of (packet_of packet.now))) }
{
    let key = packet.key();
    match new_port(entries, fresh, router, outer, &key) {
        Some(port) => Some(Sourced {
            packet: sourced_at(packet, outer, port),
            made: Some(Entry::Snat {
                router,
                key,
                outer,
                outer_port: port,
            }),
        }),
        None => None,
    }
}

// The source becomes the gateway address, with the port of the entry that has the same key.
fn sourced_gateway(
    tables: &HostTables,
    entries: &[Entry],
    fresh: &[Entry],
    router: &RouterTable,
    packet: &Packet,
) -> Option<Sourced>
    requires { router.now.snat ≡ true }
    ensures { option_map sourced_of result
        ≡ sourced_by_gateway (table_view tables.now.lists router.now)
        (uses_by router.now.snat router.now.gateway router.now.router
        (entries.now ++ fresh.now)) (packet_of packet.now) router.now.gateway }
{
    let Some(outer) = router.gateway else {
        return kept_source(packet);
    };
    match with_key(entries, fresh, router.router, outer, &packet.key()) {
        Some(entry) => Some(Sourced {
            packet: sourced_at(packet, outer, entry.port),
            made: None,
        }),
        None => sourced_new(entries, fresh, router.router, outer, packet),
    }
}

fn has_live_gateway(router: &RouterTable) -> bool
    ensures { result ≡ list_any (λ (x : ThePort). not x.inside) router.now.ports }
{
    router.ports.iter().any(|port| !port.inside)
}

// Whether the source is translated: where the packet leaves by the gateway port, or a floating
// address changed its destination, and the router translates and its gateway port is live.
#[tactic(auto, using(crate::proofs::LegLists::gateway_among))]
fn is_translated(tables: &HostTables, router: &RouterTable, out: &RouterPort, by: Changed) -> bool
    ensures { result
        ≡ ((not out.now.inside || changed_by_float (changed_of by)) && router.now.snat
        && is_gateway_live (table_view tables.now.lists router.now)) }
{
    (!out.inside || by.is_floating()) && router.snat && has_live_gateway(router)
}

// A floating address of this router for the source replaces it; otherwise it may be translated.
fn sourced_float(
    tables: &HostTables,
    entries: &[Entry],
    fresh: &[Entry],
    router: &RouterTable,
    out: &RouterPort,
    destined: &Destined,
) -> Option<Sourced>
    ensures { option_map sourced_of result
        ≡ sourced_by_float (table_view tables.now.lists router.now)
        (uses_by router.now.snat router.now.gateway router.now.router
        (entries.now ++ fresh.now)) (leg_at out.now) (changed_of destined.now.by)
        (packet_of destined.now.packet)
        (find (λ (f : Float). addr_eq (V4 f.fixed) (source destined.now.packet.ends))
        (floats_at_router router.now.router tables.now.lists.floats)) }
{
    let packet = &destined.packet;
    if let Some(from) = floating_for(tables, router.router, &packet.ends.source()) {
        return Some(Sourced {
            packet: with_ends(packet, packet.ends.with_source(from), packet.part),
            made: None,
        });
    }
    if is_translated(tables, router, out, destined.by) {
        sourced_gateway(tables, entries, fresh, router, packet)
    } else {
        kept_source(packet)
    }
}

/// The packet with the source that it leaves with, or none where no port is left. Only a packet of
/// version 4 that came in by an interface, and leaves by the gateway port or had its destination
/// changed, is looked at.
pub(crate) fn find_source(
    tables: &HostTables,
    entries: &[Entry],
    fresh: &[Entry],
    router: &RouterTable,
    port: &RouterPort,
    out: &RouterPort,
    destined: &Destined,
) -> Option<Sourced>
    ensures { option_map sourced_of result
        ≡ sourced_by (table_view tables.now.lists router.now)
        (uses_by router.now.snat router.now.gateway router.now.router
        (entries.now ++ fresh.now)) (leg_at port.now) (leg_at out.now)
        (changed_of destined.now.by) (packet_of destined.now.packet) }
{
    let leaves = !out.inside || destined.by.is_any();
    if destined.packet.ends.are_four() && port.inside && leaves {
        sourced_float(tables, entries, fresh, router, out, destined)
    } else {
        kept_source(&destined.packet)
    }
}
