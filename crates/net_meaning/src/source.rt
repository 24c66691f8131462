//! The source with which a packet leaves a router, by the rows.

ghost use Rattle.std.specs.Prelude.{◌≡◌, ◌&&◌, ◌||◌, find, not, map, option_map};
ghost use Rattle.net_addr.specs.Addresses.{addr_eq};
ghost use Rattle.net_addr.specs.declared.address.Addr.TheVariants.{V4};
ghost use Rattle.plane_types.specs.Ends.{source as sent_from};
ghost use Rattle.plane_types.specs.Packets.{key_of};
ghost use Rattle.api_types.specs.RouterRows.{floats_of, gateway_address as gateway_by_rows, leg_of, router_view};
ghost use Rattle.plane_types.specs.Routing.{by_float as changed_by_float, is_gateway_live, new_port as new_port_of, new_source as sourced_by, sourced_float as sourced_by_float, sourced_gateway as sourced_by_gateway, sourced_new as sourced_anew};
ghost use Rattle.api_types.specs.RouterViews.{Float};
ghost use Rattle.plane_types.specs.Parts.{changed_of, packet_of, sourced_of, use_of};

use crate::uses::{new_port, translates, with_key};
use api_types::{Id, PortRow, RouterRow, Rows};
use net_addr::Addr4;
use plane_rows::{floating_for, gateway_address, has_live_gateway};
use plane_types::{
    Changed, Destined, Entry, Packet, Sourced, Use, kept_source, sourced_at, with_ends,
};

// With a new entry, where a port is left.
fn sourced_new(router: Id, uses: &[Use], packet: &Packet, outer: Addr4) -> Option<Sourced>
    ensures { option_map sourced_of result
        ≡ sourced_anew router (packet_of packet.now) outer
        (new_port_of (map use_of uses.now) (key_of (packet_of packet.now))) }
{
    let key = packet.key();
    match new_port(uses, &key) {
        Some(port) => Some(Sourced {
            packet: sourced_at(packet, outer, port),
            made: Some(Entry::Snat {
                router,
                key,
                outer,
                outer_port: port,
            }),
        }),
        None => None,
    }
}

// The source becomes the gateway address, with the port of the entry that has the same key.
#[tactic(auto, unfolding(api_types::specs::RouterRows::router_view))]
fn sourced_gateway(
    rows: &Rows,
    router: &RouterRow,
    uses: &[Use],
    packet: &Packet,
) -> Option<Sourced>
    ensures { option_map sourced_of result
        ≡ sourced_by_gateway (router_view rows.now router.now) (map use_of uses.now)
        (packet_of packet.now) (gateway_by_rows rows.now router.now) }
{
    let Some(outer) = gateway_address(rows, router) else {
        return kept_source(packet);
    };
    match with_key(uses, &packet.key()) {
        Some(entry) => Some(Sourced {
            packet: sourced_at(packet, outer, entry.port),
            made: None,
        }),
        None => sourced_new(router.id, uses, packet, outer),
    }
}

// Whether the source is translated: where the packet leaves by the gateway port, or a floating
// address changed its destination, and the router translates and its gateway port is live.
#[tactic(auto, using(crate::proofs::LegLemmas::gateway_among), unfolding(api_types::specs::RouterRows::router_view))]
fn is_translated(rows: &Rows, router: &RouterRow, out: &PortRow, by: Changed) -> bool
    ensures { result
        ≡ ((not (leg_of out.now).inside || changed_by_float (changed_of by))
        && (router_view rows.now router.now).snat
        && is_gateway_live (router_view rows.now router.now)) }
{
    (!out.is_interface() || by.is_floating())
        && translates(router)
        && has_live_gateway(rows, router)
}

// A floating address of this router for the source replaces it; otherwise it may be translated.
#[tactic(auto, unfolding(api_types::specs::RouterRows::router_view))]
fn sourced_float(
    rows: &Rows,
    router: &RouterRow,
    uses: &[Use],
    out: &PortRow,
    destined: &Destined,
) -> Option<Sourced>
    ensures { option_map sourced_of result
        ≡ sourced_by_float (router_view rows.now router.now) (map use_of uses.now)
        (leg_of out.now) (changed_of destined.now.by) (packet_of destined.now.packet)
        (find (λ (f : Float). addr_eq (V4 f.fixed) (sent_from destined.now.packet.ends))
        (floats_of rows.now router.now)) }
{
    let packet = &destined.packet;
    if let Some(floating) = floating_for(rows, router, &packet.ends.source()) {
        let ends = packet.ends.with_source(floating);
        return Some(Sourced {
            packet: with_ends(packet, ends, packet.part),
            made: None,
        });
    }
    if is_translated(rows, router, out, destined.by) {
        sourced_gateway(rows, router, uses, packet)
    } else {
        kept_source(packet)
    }
}

/// The packet with the source that it leaves with, or none where no port is left. Only a packet of
/// version 4 that came in by an interface, and leaves by the gateway port or had its destination
/// changed, is looked at.
#[tactic(auto, unfolding(api_types::specs::RouterRows::router_view))]
pub(crate) fn find_source(
    rows: &Rows,
    router: &RouterRow,
    uses: &[Use],
    port: &PortRow,
    out: &PortRow,
    destined: &Destined,
) -> Option<Sourced>
    ensures { option_map sourced_of result
        ≡ sourced_by (router_view rows.now router.now) (map use_of uses.now) (leg_of port.now)
        (leg_of out.now) (changed_of destined.now.by) (packet_of destined.now.packet) }
{
    let leaves = !out.is_interface() || destined.by.is_any();
    if destined.packet.ends.are_four() && port.is_interface() && leaves {
        sourced_float(rows, router, uses, out, destined)
    } else {
        kept_source(&destined.packet)
    }
}
