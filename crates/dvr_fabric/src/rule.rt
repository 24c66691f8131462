//! What a copy does with a packet that it doesn't translate.

ghost use Rattle.std.specs.Prelude.{◌≡◌, ◌<◌, Some, find, option_copied, option_map};
ghost use Rattle.std.specs.List.{list_any};
ghost use Rattle.std.specs.Option.{unwrap_or};
ghost use Rattle.api_types.specs.RouterViews.{Float};
ghost use Rattle.api_types.specs.Table.{ident_eq};
ghost use Rattle.dvr_fabric.specs.Steps as seen;
ghost use Rattle.dvr_types.specs.CopySteps.{copy_view, near_at as near_by_copies, step_toward as step_by_row};
ghost use Rattle.dvr_types.specs.Near as near;
ghost use Rattle.dvr_types.specs.declared.copies.CopyPort.{CopyPort as ThePort};
ghost use Rattle.net_addr.specs.Addresses.{addr_eq};
ghost use Rattle.net_addr.specs.declared.address.Addr.TheVariants.{V4};
ghost use Rattle.plane_types.specs.Ends.{destination as destination_of};
ghost use Rattle.plane_types.specs.Parts.{packet_of};
ghost use Rattle.plane_types.specs.Routing.{best_way as best_of_ways, is_own as is_own_address};
ghost use Rattle.plane_types.specs.TableStep.{floats_at_router, way_at, ways_at};

use crate::routes::{best_way, near_at};
use api_types::Id;
use dvr_types::{Copies, CopyPort, NearTo, RouterCopy};
use net_addr::{Addr, Addr4};
use plane_types::{DropCause, FloatRow, Packet, RouteRow};

/// What a copy does with a packet.
#[derive(Clone, Copy)]
pub(crate) enum CopyStep<'d> {
    /// The router is its destination.
    Absorbed {
        router: Id,
    },
    /// It is dropped; the network is the one to which the router had sent it on.
    Dropped {
        cause: DropCause,
        way: Option<Id>,
    },
    /// It is on a network, on its way to where an address leads.
    Sends {
        network: Id,
        to: &'d NearTo,
        packet: Packet,
    },
}

// The packet is dropped in the router.
fn drops<'d>(cause: DropCause) -> Option<CopyStep<'d>>
    ensures { option_map seen.view_of_copy_step result ≡ seen.copy_drop cause }
{
    Some(CopyStep::Dropped { cause, way: None })
}

fn is_gateway_address(gateway: Option<Addr4>, address: &Addr) -> bool
    ensures { result ≡ near.is_gateway_address gateway address.now }
{
    match gateway {
        Some(outer) => Addr::V4(outer) == *address,
        None => false,
    }
}

// Whether one of these rows is of the router and has the floating address.
fn is_floating(floats: &[FloatRow], router: Id, address: &Addr) -> bool
    ensures { result
        ≡ list_any (λ (f : Float). addr_eq (V4 f.floating) address.now)
        (floats_at_router router floats.now) }
{
    for row in floats {
        if router == row.router && Addr::V4(row.floating) == *address {
            return true;
        }
    }
    false
}

/// Whether a packet is for a floating address of a copied router or for its gateway address. Its
/// cost grows with the floating addresses of all copies.
pub(crate) fn is_for_outer_address(copies: &Copies, copy: &RouterCopy, packet: &Packet) -> bool
    ensures { result
        ≡ near.is_for_outer_address (copy_view copies.now copy.now) (packet_of packet.now) }
{
    let to = packet.ends.destination();
    is_floating(copies.copy_floats.as_slice(), copy.router, &to)
        || is_gateway_address(copy.gateway, &to)
}

fn holds(port: &CopyPort, address: &Addr) -> bool
    ensures { result ≡ list_any (λ a. addr_eq a address.now) port.now.addresses }
{
    port.addresses.iter().any(|held| *held == *address)
}

// Whether a live port of the router holds the address.
fn is_own(copies: &Copies, copy: &RouterCopy, address: &Addr) -> bool
    ensures { result ≡ is_own_address (copy_view copies.now copy.now) address.now }
{
    for port in copy.ports.as_slice() {
        if holds(port, address) {
            return true;
        }
    }
    false
}

fn port_of<'d>(copy: &'d RouterCopy, port: Id) -> Option<&'d CopyPort>
    ensures { option_copied result ≡ find (λ (x : ThePort). ident_eq port x.port) copy.now.ports }
{
    copy.ports.iter().find(|row| port == row.port)
}

// The route's next hop, or the destination where it has none.
fn next_hop(row: &RouteRow, packet: &Packet) -> Addr
    ensures { result ≡ unwrap_or row.now.next (destination_of packet.now.ends) }
{
    match row.next {
        Some(next) => next,
        None => packet.ends.destination(),
    }
}

// To whom the next hop leads on a network.
fn step_toward<'d>(copies: &'d Copies, network: Id, hop: &Addr, packet: &Packet) -> CopyStep<'d>
    ensures { seen.view_of_copy_step result
        ≡ step_by_row network (packet_of packet.now)
        (near_by_copies copies.now network hop.now) }
{
    match near_at(copies, network, hop) {
        Some(row) => CopyStep::Sends {
            network,
            to: &row.to,
            packet: Packet {
                dst: row.mac,
                ..*packet
            },
        },
        None => CopyStep::Dropped {
            cause: DropCause::NoHolder,
            way: Some(network),
        },
    }
}

// By this way out, if it is an interface on a vxlan network.
fn send_out<'d>(
    copies: &'d Copies,
    out: &CopyPort,
    row: &RouteRow,
    packet: &Packet,
) -> Option<CopyStep<'d>>
    requires { 1 < packet.now.ttl }
    ensures { option_map seen.view_of_copy_step result
        ≡ seen.plain_out copies.now (unwrap_or row.now.next (destination_of packet.now.ends))
        (packet_of packet.now) (Some out.now) }
{
    if !out.inside || out.number.is_none() {
        return None;
    }
    let hop = next_hop(row, packet);
    let sent = Packet {
        src: out.mac,
        ttl: packet.ttl - 1,
        ..*packet
    };
    Some(step_toward(copies, out.network, &hop, &sent))
}

// By a route.
fn send_by<'d>(
    copies: &'d Copies,
    copy: &RouterCopy,
    row: &RouteRow,
    packet: &Packet,
) -> Option<CopyStep<'d>>
    requires { 1 < packet.now.ttl }
    ensures { option_map seen.view_of_copy_step result
        ≡ seen.plain_way copies.now copy.now (packet_of packet.now) (Some (way_at row.now)) }
{
    match port_of(copy, row.port) {
        Some(out) => send_out(copies, out, row, packet),
        None => None,
    }
}

// By the best of the router's routes.
fn route_on<'d>(copies: &'d Copies, copy: &'d RouterCopy, packet: &Packet) -> Option<CopyStep<'d>>
    requires { 1 < packet.now.ttl }
    ensures { option_map seen.view_of_copy_step result
        ≡ seen.plain_way copies.now copy.now (packet_of packet.now)
        (best_of_ways (destination_of packet.now.ends)
        (ways_at copy.now.router copies.now.copy_routes)) }
{
    let to = packet.ends.destination();
    match best_way(copies.copy_routes.as_slice(), copy.router, &to) {
        Some(row) => send_by(copies, copy, row, packet),
        None => drops(DropCause::NoRoute),
    }
}

/// What a copy does with a packet for neither a floating address nor the gateway address of its
/// router: the router's rule without translation, or None if the packet would leave by another port
/// than an interface on a vxlan network. Its cost grows with the router's ports and their
/// addresses, and with the routes and near rows of all copies.
pub(crate) fn route<'d>(
    copies: &'d Copies,
    copy: &'d RouterCopy,
    packet: &Packet,
) -> Option<CopyStep<'d>>
    ensures { option_map seen.view_of_copy_step result
        ≡ seen.plain_rule copies.now copy.now (packet_of packet.now) }
{
    if !copy.up {
        return drops(DropCause::RouterDown);
    }
    let to = packet.ends.destination();
    if is_own(copies, copy, &to) {
        return Some(CopyStep::Absorbed {
            router: copy.router,
        });
    }
    if packet.ttl <= 1 {
        return drops(DropCause::Expired);
    }
    route_on(copies, copy, packet)
}
