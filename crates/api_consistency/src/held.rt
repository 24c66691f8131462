//! Clauses 4 and 5: addresses and MACs held once, and host addresses.

ghost use Rattle.std.specs.Prelude.{◌≡◌, ◌≤◌, ◌++◌, ◌&&◌, ℕ, IfOk, OnOk, count_by, sum_by, map, flat_map, true};
ghost use Rattle.std.specs.List.{list_all};
ghost use Rattle.net_addr.specs.Addresses.{addr_eq};
ghost use Rattle.net_addr.specs.declared.address.Addr.{Addr as Address};
ghost use Rattle.api_types.specs.Ident.{Ident};
ghost use Rattle.net_addr.specs.Prefixes.{is_host_of};
ghost use Rattle.api_types.specs.Consistent.HeldOnce.{AreHeldOnce, has_mac, holds_times};
ghost use Rattle.api_types.specs.Consistent.Hosts as hosts;
ghost use Rattle.api_types.specs.Lists.{is_some_so};
ghost use Rattle.api_consistency.specs.Keys as keys;

use crate::known::Known;
use crate::numbers::{address_number, id_number, single, version_group};
use crate::stretch::{Stretch, are_apart};
use api_ipam::is_eui;
use api_types::{Fixed, Id, PortRow, Rows, Shared, SubnetRow};
use net_addr::{Addr, OutOfMemory};
use std::alloc::Global;

fn macs_of(alloc: Global, ports: &[Shared<PortRow>]) -> Result<Vec<Stretch>, OutOfMemory>
    ensures { IfOk result (λ v. v.items ≡ map keys.of_mac ports.now) }
{
    let mut macs = Vec::new(alloc);
    for port in ports {
        macs.push(single(id_number(port.network), u128::from(port.mac.0)))?;
    }
    Ok(macs)
}

fn add_addresses(held: &mut Vec<Stretch>, network: Id, fixed: &[Fixed]) -> Result<(), OutOfMemory>
    ensures { OnOk result
        (held.new.items ≡ held.old.items ++ map (keys.of_fixed network) fixed.now) }
{
    for one in fixed {
        let of_version = version_group(id_number(network), &one.address);
        held.push(single(of_version, address_number(&one.address)))?;
    }
    Ok(())
}

fn addresses_of(alloc: Global, ports: &[Shared<PortRow>]) -> Result<Vec<Stretch>, OutOfMemory>
    ensures { IfOk result
        (λ v. v.items ≡ flat_map (λ p. map (keys.of_fixed p.network) p.fixed) ports.now) }
{
    let mut held = Vec::new(alloc);
    for port in ports {
        add_addresses(&mut held, port.network, port.fixed.as_slice())?;
    }
    Ok(held)
}

fn are_macs_once(alloc: Global, known: &Known) -> Result<bool, OutOfMemory>
    ensures { IfOk result
        (λ b. b ≡ true
        → (network : Ident) (mac : ℕ) → count_by (has_mac network mac) known.now.ports ≤ 1) }
{
    let macs = macs_of(alloc, known.ports())?;
    Ok(are_apart(macs))
}

fn are_addresses_once(alloc: Global, known: &Known) -> Result<bool, OutOfMemory>
    ensures { IfOk result
        (λ b. b ≡ true
        → (network : Ident) (x : Address) → sum_by (holds_times network x) known.now.ports ≤ 1) }
{
    let addresses = addresses_of(alloc, known.ports())?;
    Ok(are_apart(addresses))
}

/// Whether no MAC and no address is held twice in a network. Its cost grows with what the ports
/// hold and the logarithm of its number.
pub(crate) fn are_held_once(alloc: Global, known: &Known) -> Result<bool, OutOfMemory>
    ensures { IfOk result (λ b. b ≡ true → AreHeldOnce known.now.ports) }
{
    if !are_macs_once(alloc, known)? {
        return Ok(false);
    }
    are_addresses_once(alloc, known)
}

fn is_gateway(subnet: &SubnetRow, address: &Addr) -> bool
    ensures { result ≡ is_some_so (addr_eq address.now) subnet.now.gateway }
{
    match subnet.gateway {
        Some(gateway) => *address == gateway,
        None => false,
    }
}

fn is_own_address(port: &PortRow, address: &Addr, subnet: &SubnetRow) -> bool
    ensures { result ≡ hosts.is_own_address port.now address.now subnet.now }
{
    !is_eui(subnet)
        || (subnet.prefix.is_eui(port.mac, *address)
            || (port.is_interface() && is_gateway(subnet, address)))
}

fn is_host_of_port(port: &PortRow, address: &Addr, subnet: &SubnetRow) -> bool
    ensures { result
        ≡ (is_host_of subnet.now.prefix address.now
        && hosts.is_own_address port.now address.now subnet.now) }
{
    subnet.prefix.is_host(*address) && is_own_address(port, address, subnet)
}

#[tactic(auto, using(crate::proofs::FoundLemmas::found_so, crate::proofs::FoundLemmas::not_found_so))]
fn is_host_in(rows: &Rows, port: &PortRow, fixed: &Fixed) -> bool
    ensures { result ≡ hosts.is_host_in rows.now.subnets port.now fixed.now }
{
    let _own_ids = rows.subnets().rows();
    match rows.subnets().get(fixed.subnet) {
        Some(subnet) => is_host_of_port(port, &fixed.address, subnet),
        None => false,
    }
}

fn has_host_addresses(rows: &Rows, port: &PortRow) -> bool
    ensures { result ≡ list_all (hosts.is_host_in rows.now.subnets port.now) port.now.fixed }
{
    port.fixed.iter().all(|fixed| is_host_in(rows, port, fixed))
}

/// Whether each fixed address is a host address of its subnet. Its cost grows with the ports and
/// their addresses.
pub(crate) fn are_hosts(rows: &Rows) -> bool
    ensures { result
        ≡ list_all (λ p. list_all (hosts.is_host_in rows.now.subnets p) p.fixed) rows.now.ports }
{
    rows.ports()
        .rows()
        .iter()
        .all(|port| has_host_addresses(rows, port))
}
