//! Copied routers.

ghost use Rattle.std.specs.Prelude.{◌≡◌, IfOk, map};
ghost use Rattle.std.specs.List.{list_any};
ghost use Rattle.api_types.specs.RouterRows.{has_snat as snat_of, legs_of};
ghost use Rattle.dvr_types.specs.Copies as copies;

use crate::networks::is_vxlan_interface;
use crate::ports::copy_ports;
use api_types::{Gateway, PortRow, RouterRow, Rows};
use dvr_types::{CopyPort, RouterCopy};
use net_addr::{OutOfMemory, Seq};
use plane_rows::{Legs, gateway_address};
use std::alloc::Global;

// Whether one of these live ports is an interface on a vxlan network.
fn has_vxlan_interface(rows: &Rows, legs: &[&PortRow]) -> bool
    ensures { result ≡ list_any (copies.is_vxlan_interface rows.now) (map (λ p. p.now) legs.now) }
{
    for port in legs {
        if is_vxlan_interface(rows, port) {
            return true;
        }
    }
    false
}

/// Whether a router has a live interface on a vxlan network. Its cost grows with its live ports.
pub(crate) fn is_copied(alloc: Global, legs: &Legs, router: &RouterRow) -> Result<bool, OutOfMemory>
    ensures { IfOk result (λ b. b ≡ copies.is_copied legs.now router.now) }
{
    let name = router.id.print(alloc)?;
    match legs.ports_of(name.as_str()) {
        Some(ports) => Ok(has_vxlan_interface(legs.rows(), ports.as_slice())),
        None => Ok(false),
    }
}

fn has_snat(gateway: Option<Gateway>) -> bool
    ensures { result ≡ snat_of gateway }
{
    match gateway {
        Some(gateway) => gateway.snat,
        None => false,
    }
}

// The live ports of a router.
fn ports_of(alloc: Global, legs: &Legs, router: &RouterRow) -> Result<Seq<CopyPort>, OutOfMemory>
    ensures { IfOk result
        (λ p. p ≡ map (copies.copy_port legs.now) (legs_of legs.now router.now)) }
{
    let name = router.id.print(alloc)?;
    match legs.ports_of(name.as_str()) {
        Some(ports) => copy_ports(alloc, legs.rows(), ports.as_slice()),
        None => Ok(Seq::new(alloc)),
    }
}

fn router_copy(alloc: Global, legs: &Legs, router: &RouterRow) -> Result<RouterCopy, OutOfMemory>
    ensures { IfOk result (λ c. c ≡ copies.router_copy legs.now router.now) }
{
    Ok(RouterCopy {
        router: router.id,
        up: router.up,
        snat: has_snat(router.gateway),
        gateway: gateway_address(legs.rows(), router),
        ports: ports_of(alloc, legs, router)?,
    })
}

/// A copy of each router with a live interface on a vxlan network. Its cost grows with the routers,
/// their live ports and the addresses of these.
#[tactic(auto, unfolding(dvr_types::specs::Copies::router_copies))]
pub(crate) fn router_copies(alloc: Global, legs: &Legs) -> Result<Seq<RouterCopy>, OutOfMemory>
    ensures { IfOk result (λ c. c ≡ copies.router_copies legs.now) }
{
    let mut copied = Seq::new(alloc);
    for router in legs.rows().routers().rows() {
        if is_copied(alloc, legs, router)? {
            copied.push(router_copy(alloc, legs, router)?)?;
        }
    }
    Ok(copied)
}
