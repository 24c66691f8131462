//! The keys of the routes of a router, in the order of its routes.

ghost use Rattle.std.specs.Prelude.{◌≡◌, ◌++◌, ℕ, IfOk, List, OnOk, Some, flat_map, map, nat_lt, option_copied};
ghost use Rattle.std.specs.List.{list_any};
ghost use Rattle.api_types.specs.Ascending.{ascending as in_order};
ghost use Rattle.api_types.specs.Holders.{gateway_port as gateway_by_rows};
ghost use Rattle.api_types.specs.Owners.{holds_in};
ghost use Rattle.api_types.specs.RouterRows.{by_address, holds_next as holds_next_hop};
ghost use Rattle.api_types.specs.declared.port.PortRow.{PortRow as ThePort};
ghost use Rattle.plane_types.specs.Keyed.{row_at};
ghost use Rattle.l3_delta.specs.WayKeys.{StandIn, connected_keys, default_keys, defaults_of, extra_keys, has_default as has_default_by_rows, leads as leads_by_rows, ports_when, way_keys as keys_by_rows};

use crate::when::{When, number_of};
use api_types::{Fixed, Hop, Id, PortRow, RouterRow, Rows, ascending};
use net_addr::{Addr, OutOfMemory};
use plane_rows::{gateway_port, is_live, named_subnet};
use std::alloc::Global;
use touched_rows::Rewiring;

/// Connected routes (0) by the number of the port and its address, extra ones (1) by their place
/// and next hop, and default ones (2) by the address of the gateway port.
pub(crate) type WayKey = (usize, (usize, Addr));

// The addresses of a port, ascending.
fn held_by_address(alloc: Global, port: &PortRow) -> Result<Vec<Fixed>, OutOfMemory>
    ensures { IfOk result (λ v. v.items ≡ in_order by_address port.now.fixed) }
{
    let held = Vec::from_slice(alloc, port.fixed.as_slice())?;
    ascending(held)
}

// Adds the keys of the routes to the subnets of a port with a number.
fn add_connected_of(
    alloc: Global,
    rows: &Rows,
    port: &PortRow,
    number: usize,
    keys: &mut Vec<WayKey>,
) -> Result<(), OutOfMemory>
    ensures { OnOk result
        (keys.new.items ≡ keys.old.items ++ connected_keys rows.now (number, port.now)) }
{
    let held = held_by_address(alloc, port)?;
    for fixed in held.as_slice() {
        if named_subnet(rows, fixed.subnet).is_some() {
            keys.push((0, (number, fixed.address)))?;
        }
    }
    Ok(())
}

// The same of a port, by its number at that time.
fn add_numbered(
    alloc: Global,
    change: &Rewiring,
    when: When,
    rows: &Rows,
    port: &PortRow,
    keys: &mut Vec<WayKey>,
) -> Result<(), OutOfMemory>
    ensures { OnOk result
        ((k : ℕ) → row_at nat_lt k (ports_when when change.now.ports) ≡ Some port.now
        → keys.new.items ≡ keys.old.items ++ connected_keys rows.now (k, port.now)) }
{
    match number_of(change, when, port) {
        Some(number) => add_connected_of(alloc, rows, port, number, keys),
        None => Ok(()),
    }
}

// Adds those of all these ports of the router.
fn add_connected(
    alloc: Global,
    change: &Rewiring,
    when: When,
    rows: &Rows,
    legs: &[&PortRow],
    keys: &mut Vec<WayKey>,
) -> Result<(), OutOfMemory>
    ensures { OnOk result
        ((xs : List (ℕ × ThePort)) → StandIn (ports_when when change.now.ports) xs
        → map (λ (x : ℕ × ThePort). x.1) xs ≡ map (λ p. p.now) legs.now
        → keys.new.items ≡ keys.old.items ++ flat_map (connected_keys rows.now) xs) }
{
    for port in legs {
        add_numbered(alloc, change, when, rows, port, keys)?;
    }
    Ok(())
}

// Whether an address lies in the subnet of a held one.
fn holds_next(rows: &Rows, address: &Addr, fixed: Fixed) -> bool
    ensures { result ≡ holds_next_hop rows.now address.now fixed }
{
    let _own_ids = rows.subnets().rows(); // for the proof: no two subnets have one id
    match named_subnet(rows, fixed.subnet) {
        Some(subnet) => subnet.prefix.contains(*address),
        None => false,
    }
}

// Whether an address lies in the subnet of an address of a port.
fn reaches(rows: &Rows, port: &PortRow, address: &Addr) -> bool
    ensures { result ≡ list_any (holds_next_hop rows.now address.now) port.now.fixed }
{
    for fixed in port.fixed.as_slice() {
        if holds_next(rows, address, *fixed) {
            return true;
        }
    }
    false
}

// Whether the next hop of a route lies in the subnet of an address of one of these ports.
fn leads(rows: &Rows, legs: &[&PortRow], hop: &Hop) -> bool
    ensures { result ≡ leads_by_rows rows.now (map (λ p. p.now) legs.now) hop.now }
{
    for port in legs {
        if reaches(rows, port, &hop.next) {
            return true;
        }
    }
    false
}

// Adds the keys of the router's own routes that lead somewhere.
fn add_extra(
    rows: &Rows,
    legs: &[&PortRow],
    routes: &[Hop],
    keys: &mut Vec<WayKey>,
) -> Result<(), OutOfMemory>
    ensures { OnOk result
        (keys.new.items
        ≡ keys.old.items
        ++ extra_keys (leads_by_rows rows.now (map (λ p. p.now) legs.now)) 0 routes.now) }
{
    for place in 0..routes.len() {
        let hop = &routes[place];
        if leads(rows, legs, hop) {
            keys.push((1, (place, hop.next)))?;
        }
    }
    Ok(())
}

// Whether one of these ports holds an address in a subnet.
fn is_any_in(legs: &[&PortRow], subnet: Id) -> bool
    ensures { result ≡ list_any (holds_in subnet) (map (λ p. p.now) legs.now) }
{
    for port in legs {
        if port.holds_in(subnet) {
            return true;
        }
    }
    false
}

// Whether the subnet of an address has a gateway, and one of these ports is in it.
fn has_default(rows: &Rows, legs: &[&PortRow], fixed: Fixed) -> bool
    ensures { result ≡ has_default_by_rows rows.now (map (λ p. p.now) legs.now) fixed }
{
    match named_subnet(rows, fixed.subnet) {
        Some(subnet) => subnet.gateway.is_some() && is_any_in(legs, subnet.id),
        None => false,
    }
}

// Adds the keys of the default routes by a gateway port.
fn add_defaults_of(
    alloc: Global,
    rows: &Rows,
    legs: &[&PortRow],
    port: &PortRow,
    keys: &mut Vec<WayKey>,
) -> Result<(), OutOfMemory>
    ensures { OnOk result
        (keys.new.items
        ≡ keys.old.items ++ default_keys rows.now (map (λ p. p.now) legs.now) port.now) }
{
    let held = held_by_address(alloc, port)?;
    for fixed in held.as_slice() {
        if has_default(rows, legs, *fixed) {
            keys.push((2, (0, fixed.address)))?;
        }
    }
    Ok(())
}

// Adds the keys of the default routes, if the gateway port is live.
fn add_defaults(
    alloc: Global,
    rows: &Rows,
    legs: &[&PortRow],
    port: Option<&PortRow>,
    keys: &mut Vec<WayKey>,
) -> Result<(), OutOfMemory>
    ensures { OnOk result
        (keys.new.items
        ≡ keys.old.items
        ++ defaults_of rows.now (map (λ p. p.now) legs.now) (option_copied port.entry)) }
{
    match port {
        Some(port) => {
            if is_live(rows, port) {
                add_defaults_of(alloc, rows, legs, port, keys)
            } else {
                Ok(())
            }
        }
        None => Ok(()),
    }
}

/// The keys of the routes of a router whose live ports are these, before a change or after it, in
/// the order of `plane_rows::ways_by`. Its cost grows with the router's addresses, of each port
/// also with the logarithm of their number, and with its own routes times its addresses.
pub(crate) fn way_keys(
    alloc: Global,
    change: &Rewiring,
    when: When,
    rows: &Rows,
    legs: &[&PortRow],
    router: &RouterRow,
) -> Result<Vec<WayKey>, OutOfMemory>
    ensures { IfOk result
        (λ ks. (xs : List (ℕ × ThePort)) → StandIn (ports_when when change.now.ports) xs
        → map (λ (x : ℕ × ThePort). x.1) xs ≡ map (λ p. p.now) legs.now
        → ks.items ≡ keys_by_rows rows.now xs router.now) }
{
    let mut keys = Vec::new(alloc);
    add_connected(alloc, change, when, rows, legs, &mut keys)?;
    add_extra(rows, legs, router.routes.as_slice(), &mut keys)?;
    add_defaults(alloc, rows, legs, gateway_port(rows, router), &mut keys)?;
    Ok(keys)
}
