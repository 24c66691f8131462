//! Clause 9: the ports of DHCP.

ghost use Rattle.std.specs.Prelude.{◌≡◌, ◌≤◌, ◌==◌, ◌&&◌, IfOk, count_by, true};
ghost use Rattle.std.specs.List.{list_all, list_any, filter_map};
ghost use Rattle.api_types.specs.Ident.{Ident};
ghost use Rattle.api_types.specs.Owners.{is_dhcp_of};
ghost use Rattle.api_types.specs.Consistent.Services as services;
ghost use Rattle.api_types.specs.Consistent.Services.{DhcpPortsServe};
ghost use Rattle.api_consistency.specs.Keys as keys;

use crate::known::Known;
use crate::numbers::{id_number, single};
use crate::stretch::{Stretch, are_apart};
use api_types::{Fixed, Id, PortRow, Rows, Shared, SubnetRow};
use net_addr::OutOfMemory;
use std::alloc::Global;

fn stretch_of(port: &PortRow) -> Option<Stretch>
    ensures { result ≡ keys.of_dhcp port.now }
{
    if port.is_dhcp() {
        Some(single(0, id_number(port.network)))
    } else {
        None
    }
}

fn dhcp_networks(alloc: Global, ports: &[Shared<PortRow>]) -> Result<Vec<Stretch>, OutOfMemory>
    ensures { IfOk result (λ v. v.items ≡ filter_map keys.of_dhcp ports.now) }
{
    let mut networks = Vec::new(alloc);
    for port in ports {
        if let Some(stretch) = stretch_of(port) {
            networks.push(stretch)?;
        }
    }
    Ok(networks)
}

// Whether a port is the DHCP port of the subnet's network and holds one address in the subnet.
fn leases(subnet: &SubnetRow, port: &PortRow) -> bool
    ensures { result ≡ keys.leases_in subnet.now port.now }
{
    (subnet.network == port.network && port.is_dhcp()) && holds_one(subnet.id, port)
}

fn holds_one(subnet: Id, port: &PortRow) -> bool
    ensures { result ≡ (services.holds_count subnet port.now == 1) }
{
    port.fixed
        .iter()
        .filter(|fixed| subnet == fixed.subnet)
        .count()
        == 1
}

#[tactic(auto, using(crate::proofs::FoundLemmas::place_any))]
fn is_leasing_at(ports: &[Shared<PortRow>], subnet: &SubnetRow, place: usize) -> bool
    ensures { result ≡ true → list_any (keys.leases_in subnet.now) ports.now ≡ true }
{
    match ports.get(place) {
        Some(port) => leases(subnet, port),
        None => false,
    }
}

fn is_known_leasing(known: &Known, subnet: &SubnetRow) -> bool
    ensures { result ≡ true → list_any (keys.leases_in subnet.now) known.now.ports ≡ true }
{
    match known.dhcp_place(subnet.network) {
        Some(place) => is_leasing_at(known.ports(), subnet, place),
        None => false,
    }
}

fn is_any_leasing(ports: &[Shared<PortRow>], subnet: &SubnetRow) -> bool
    ensures { result ≡ list_any (keys.leases_in subnet.now) ports.now }
{
    ports.iter().any(|port| leases(subnet, port))
}

#[tactic(auto, using(crate::proofs::FoundLemmas::first_or))]
fn has_leasing(known: &Known, subnet: &SubnetRow) -> bool
    ensures { result ≡ list_any (keys.leases_in subnet.now) known.now.ports }
{
    is_known_leasing(known, subnet) || is_any_leasing(known.ports(), subnet)
}

fn is_subnet_leased(known: &Known, subnet: &SubnetRow) -> bool
    ensures { result ≡ keys.is_subnet_leased known.now.ports subnet.now }
{
    !subnet.dhcp || has_leasing(known, subnet)
}

fn are_subnets_leased(known: &Known) -> bool
    ensures { result ≡ list_all (keys.is_subnet_leased known.now.ports) known.now.subnets }
{
    known
        .rows()
        .subnets()
        .rows()
        .iter()
        .all(|subnet| is_subnet_leased(known, subnet))
}

#[tactic(auto, using(crate::proofs::FoundLemmas::found_so, crate::proofs::FoundLemmas::not_found_so))]
fn is_leased(rows: &Rows, fixed: &Fixed) -> bool
    ensures { result ≡ services.is_leased rows.now.subnets fixed.now }
{
    let _own_ids = rows.subnets().rows();
    match rows.subnets().get(fixed.subnet) {
        Some(subnet) => subnet.dhcp,
        None => false,
    }
}

fn are_leased(rows: &Rows, port: &PortRow) -> bool
    ensures { result ≡ list_all (services.is_leased rows.now.subnets) port.now.fixed }
{
    port.fixed.iter().all(|fixed| is_leased(rows, fixed))
}

// Whether the subnet of the port's first address is of its network and leased by DHCP.
#[tactic(auto, using(crate::proofs::FoundLemmas::found_any))]
fn is_wanted_in(rows: &Rows, network: Id, subnet: Id) -> bool
    ensures { result ≡ true → services.wants_dhcp rows.now.subnets network ≡ true }
{
    match rows.subnets().get(subnet) {
        Some(subnet) => network == subnet.network && subnet.dhcp,
        None => false,
    }
}

fn is_first_wanted(rows: &Rows, port: &PortRow) -> bool
    ensures { result ≡ true → services.wants_dhcp rows.now.subnets port.now.network ≡ true }
{
    match port.fixed.as_slice().first() {
        Some(fixed) => is_wanted_in(rows, port.network, fixed.subnet),
        None => false,
    }
}

fn is_any_wanting(subnets: &[Shared<SubnetRow>], network: Id) -> bool
    ensures { result ≡ services.wants_dhcp subnets.now network }
{
    subnets
        .iter()
        .any(|subnet| network == subnet.network && subnet.dhcp)
}

#[tactic(auto, using(crate::proofs::FoundLemmas::first_or))]
fn is_wanted(rows: &Rows, port: &PortRow) -> bool
    ensures { result ≡ services.wants_dhcp rows.now.subnets port.now.network }
{
    is_first_wanted(rows, port) || is_any_wanting(rows.subnets().rows(), port.network)
}

fn serves_dhcp(rows: &Rows, port: &PortRow) -> bool
    ensures { result ≡ keys.serves_dhcp rows.now.subnets port.now }
{
    !port.is_dhcp() || (is_wanted(rows, port) && (are_leased(rows, port) && !port.secured))
}

fn serve_dhcp(rows: &Rows) -> bool
    ensures { result ≡ list_all (keys.serves_dhcp rows.now.subnets) rows.now.ports }
{
    rows.ports()
        .rows()
        .iter()
        .all(|port| serves_dhcp(rows, port))
}

fn are_dhcp_once(alloc: Global, known: &Known) -> Result<bool, OutOfMemory>
    ensures { IfOk result
        (λ b. b ≡ true → (network : Ident) → count_by (is_dhcp_of network) known.now.ports ≤ 1) }
{
    let networks = dhcp_networks(alloc, known.ports())?;
    Ok(are_apart(networks))
}

fn are_dhcp_served(known: &Known) -> bool
    ensures { result
        ≡ (list_all (keys.is_subnet_leased known.now.ports) known.now.subnets
        && list_all (keys.serves_dhcp known.now.subnets) known.now.ports) }
{
    are_subnets_leased(known) && serve_dhcp(known.rows())
}

/// Whether each network has its DHCP port, and no second one, exactly where one of its subnets is
/// leased by DHCP, and this port holds one address in each such subnet and no other. Its cost grows
/// with the ports, the subnets and the logarithm of their number.
pub(crate) fn are_dhcp_ports(alloc: Global, known: &Known) -> Result<bool, OutOfMemory>
    ensures { IfOk result
        (λ b. b ≡ true → DhcpPortsServe known.now.networks known.now.subnets known.now.ports) }
{
    if !are_dhcp_served(known) {
        return Ok(false);
    }
    are_dhcp_once(alloc, known)
}
