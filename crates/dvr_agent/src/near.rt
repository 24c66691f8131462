//! Whom a host finds on vxlan networks.

ghost use Rattle.std.specs.Prelude.{◌≡◌, ◌++◌, IfOk, OnOk, flat_map, option_copied};
ghost use Rattle.std.specs.List.{filter_map};
ghost use Rattle.api_types.specs.declared.port.Fixed.{Fixed as TheFixed};
ghost use Rattle.dvr_types.specs.Copies as copies;
ghost use Rattle.dvr_types.specs.declared.copies.NearTo.TheVariants.{Tunnel as NearTunnel};

use crate::networks::NearNetworks;
use api_types::{Fixed, FloatingRow, PortRow, RouterRow};
use dvr_types::{NearRow, NearTo};
use net_addr::{Addr, Copies, OutOfMemory, Seq, Text};
use plane_rows::{floating_holder, is_at, is_live};
use std::alloc::Global;

fn tunnel_to(alloc: Global, port: &PortRow, number: u32) -> Result<NearTo, OutOfMemory>
    ensures { IfOk result (λ t. t ≡ NearTunnel port.now.host number) }
{
    Ok(NearTo::Tunnel {
        host: port.host.copy(alloc)?,
        number,
    })
}

fn to_interface(
    alloc: Global,
    port: &PortRow,
    number: u32,
    router: Option<&RouterRow>,
) -> Result<NearTo, OutOfMemory>
    ensures { IfOk result
        (λ t. t ≡ copies.to_interface port.now number (option_copied router.entry)) }
{
    match router {
        None => tunnel_to(alloc, port, number),
        Some(router) => Ok(NearTo::Router {
            router: router.id,
            host: port.host.copy(alloc)?,
            number,
        }),
    }
}

// Where a packet for a port goes, on a network with this number.
fn near_target(
    alloc: Global,
    networks: &NearNetworks,
    host: &Text,
    port: &PortRow,
    number: u32,
) -> Result<NearTo, OutOfMemory>
    ensures { IfOk result (λ t. t ≡ copies.near_target networks.now host.now port.now number) }
{
    if port.is_interface() {
        to_interface(alloc, port, number, networks.router_of(port))
    } else if !port.is_router_port() && is_at(host, port) {
        Ok(NearTo::Tap(port.id))
    } else {
        tunnel_to(alloc, port, number)
    }
}

// The row of an address that a port holds, if packets are near on its network.
fn near_row(
    alloc: Global,
    networks: &NearNetworks,
    host: &Text,
    address: &Addr,
    port: &PortRow,
) -> Result<Option<NearRow>, OutOfMemory>
    ensures { IfOk result (λ o. o ≡ copies.near_row networks.now host.now address.now port.now) }
{
    match networks.number_of(port.network) {
        None => Ok(None),
        Some(number) => Ok(Some(NearRow {
            network: port.network,
            address: *address,
            mac: port.mac,
            to: near_target(alloc, networks, host, port, number)?,
        })),
    }
}

// Adds the rows of a port's addresses.
fn add_fixed(
    alloc: Global,
    near: &mut Seq<NearRow>,
    networks: &NearNetworks,
    host: &Text,
    port: &PortRow,
) -> Result<(), OutOfMemory>
    ensures { OnOk result
        (near.new
        ≡ near.old
        ++ filter_map
        (λ (f : TheFixed). copies.near_row networks.now host.now f.address port.now)
        port.now.fixed) }
{
    for held in port.fixed.as_slice() {
        if let Some(row) = near_row(alloc, networks, host, &held.address, port)? {
            near.push(row)?;
        }
    }
    Ok(())
}

fn add_port(
    alloc: Global,
    near: &mut Seq<NearRow>,
    networks: &NearNetworks,
    host: &Text,
    port: &PortRow,
) -> Result<(), OutOfMemory>
    ensures { OnOk result
        (near.new ≡ near.old ++ copies.near_rows_of networks.now host.now port.now) }
{
    if !is_live(networks.rows(), port) {
        return Ok(());
    }
    add_fixed(alloc, near, networks, host, port)
}

// Adds the rows of the addresses of live ports.
fn add_ports(
    alloc: Global,
    near: &mut Seq<NearRow>,
    networks: &NearNetworks,
    host: &Text,
) -> Result<(), OutOfMemory>
    ensures { OnOk result
        (near.new
        ≡ near.old ++ flat_map (copies.near_rows_of networks.now host.now) networks.now.ports) }
{
    for port in networks.rows().ports().rows() {
        add_port(alloc, near, networks, host, port)?;
    }
    Ok(())
}

// The row of a floating address, if somebody holds it where packets are near.
fn floating_row(
    alloc: Global,
    networks: &NearNetworks,
    host: &Text,
    floating: &FloatingRow,
) -> Result<Option<NearRow>, OutOfMemory>
    ensures { IfOk result (λ o. o ≡ copies.near_floating networks.now host.now floating.now) }
{
    match floating_holder(networks.rows(), floating) {
        None => Ok(None),
        Some(port) => near_row(alloc, networks, host, &Addr::V4(floating.address), port),
    }
}

// Adds the rows of floating addresses.
fn add_floatings(
    alloc: Global,
    near: &mut Seq<NearRow>,
    networks: &NearNetworks,
    host: &Text,
) -> Result<(), OutOfMemory>
    ensures { OnOk result
        (near.new
        ≡ near.old
        ++ filter_map (copies.near_floating networks.now host.now) networks.now.floatings) }
{
    for floating in networks.rows().floatings().rows() {
        if let Some(row) = floating_row(alloc, networks, host, floating)? {
            near.push(row)?;
        }
    }
    Ok(())
}

/// Whom each address leads to on each vxlan network with a live interface. Its cost grows with the
/// ports, their addresses and the floating addresses.
#[tactic(auto, unfolding(dvr_types::specs::Copies::near_rows))]
pub(crate) fn near_rows(
    alloc: Global,
    networks: &NearNetworks,
    host: &Text,
) -> Result<Seq<NearRow>, OutOfMemory>
    ensures { IfOk result (λ n. n ≡ copies.near_rows networks.now host.now) }
{
    let mut near = Seq::new(alloc);
    add_ports(alloc, &mut near, networks, host)?;
    add_floatings(alloc, &mut near, networks, host)?;
    Ok(near)
}
