//! The routes of a router.

ghost use Rattle.std.specs.Prelude.{◌≡◌, ◌++◌, List, IfOk, OnOk, Some, find, flat_map, map, option_copied, option_map, option_to_list};
ghost use Rattle.std.specs.List.{filter_map};
ghost use Rattle.net_addr.specs.Addresses.{with_number};
ghost use Rattle.api_types.specs.declared.port.Fixed.{Fixed as TheFixed};
ghost use Rattle.api_types.specs.declared.port.PortRow.{PortRow as ThePort};
ghost use Rattle.api_types.specs.declared.subnet.SubnetRow.{SubnetRow as TheSubnet};
ghost use Rattle.api_types.specs.Ascending.{ascending as in_order};
ghost use Rattle.api_types.specs.Holders.{gateway_port as gateway_by_rows};
ghost use Rattle.api_types.specs.RouterRows.{by_address, connected_by, connected_ways as connected_by_rows, default_of as default_by_rows, extra_way as extra_by_rows, extra_ways as extras_by_rows, default_by, holds_next as holds_next_hop, legs_of, way_by as way_by_port, ways_of as ways_by_rows};
ghost use Rattle.api_types.specs.RowsWith.{subnet_with};
ghost use Rattle.plane_rows.specs.Ways.{defaults_of_port, way_of, ways_by as ways_by_legs};

use crate::exits::Exits;
use crate::holders::gateway_port;
use crate::live::is_live;
use crate::routers::is_leg;
use api_types::{Fixed, Hop, Id, PortRow, RouteRank, RouterRow, Rows, SubnetRow, ascending};
use net_addr::{Addr, Addr4, Addr6, OutOfMemory, Prefix};
use std::alloc::Global;

/// A route of a router: packets for its prefix go to the next hop, or where there is none to their
/// destination, by the port.
#[derive(Clone, Copy)]
pub struct Way {
    pub prefix: Prefix,
    pub rank: RouteRank,
    pub next: Option<Addr>,
    pub port: Id,
}

// The route that leaves by the first port in a subnet.
fn way_by(
    exits: &Exits,
    subnet: Id,
    prefix: Prefix,
    rank: RouteRank,
    next: Option<Addr>,
) -> Option<Way>
    ensures { option_map way_of result ≡ way_by_port exits.now subnet prefix rank next }
{
    match exits.port_in(subnet) {
        Some(port) => Some(Way {
            prefix,
            rank,
            next,
            port,
        }),
        None => None,
    }
}

/// The subnet with this id.
pub fn named_subnet(rows: &Rows, id: Id) -> Option<&SubnetRow>
    ensures { option_copied result ≡ subnet_with rows.now id }
{
    let subnets = rows.subnets();
    let _own_ids = subnets.rows(); // for the proof: no two subnets have one id
    subnets.get(id)
}

fn connected_way(rows: &Rows, exits: &Exits, fixed: Fixed) -> Option<Way>
    ensures { option_map way_of result
        ≡ connected_by exits.now (subnet_with rows.now fixed.subnet) }
{
    let subnet = named_subnet(rows, fixed.subnet)?;
    way_by(exits, subnet.id, subnet.prefix, RouteRank::Connected, None)
}

// The addresses of a port, ascending.
fn held_by_address(alloc: Global, port: &PortRow) -> Result<Vec<Fixed>, OutOfMemory>
    ensures { IfOk result (λ v. v.items ≡ in_order by_address port.now.fixed) }
{
    let held = Vec::from_slice(alloc, port.fixed.as_slice())?;
    ascending(held)
}

// Adds the routes to the subnets of a port of the router.
fn add_connected_of(
    alloc: Global,
    rows: &Rows,
    exits: &Exits,
    port: &PortRow,
    ways: &mut Vec<Way>,
) -> Result<(), OutOfMemory>
    ensures { OnOk result
        (map way_of ways.new.items
        ≡ map way_of ways.old.items
        ++ filter_map
        (λ (f : TheFixed). connected_by exits.now (subnet_with rows.now f.subnet))
        (in_order by_address port.now.fixed)) }
{
    let held = held_by_address(alloc, port)?;
    for fixed in held.as_slice() {
        if let Some(way) = connected_way(rows, exits, *fixed) {
            ways.push(way)?;
        }
    }
    Ok(())
}

// Adds the routes to the subnets of all these ports of the router.
#[tactic(auto, unfolding(api_types::specs::RouterRows::connected_ways))]
fn add_connected(
    alloc: Global,
    rows: &Rows,
    exits: &Exits,
    ways: &mut Vec<Way>,
) -> Result<(), OutOfMemory>
    ensures { OnOk result
        (map way_of ways.new.items
        ≡ map way_of ways.old.items ++ connected_by_rows rows.now exits.now) }
{
    let legs = exits.legs();
    for port in legs {
        add_connected_of(alloc, rows, exits, port, ways)?;
    }
    Ok(())
}

// Whether the address lies in the subnet of a held one.
fn holds_next(rows: &Rows, address: &Addr, fixed: Fixed) -> bool
    ensures { result ≡ holds_next_hop rows.now address.now fixed }
{
    let _own_ids = rows.subnets().rows(); // for the proof: no two subnets have one id
    match named_subnet(rows, fixed.subnet) {
        Some(subnet) => subnet.prefix.contains(*address),
        None => false,
    }
}

fn fixed_of_port(rows: &Rows, port: &PortRow, address: &Addr) -> Option<Fixed>
    ensures { result ≡ find (holds_next_hop rows.now address.now) port.now.fixed }
{
    for fixed in port.fixed.as_slice() {
        if holds_next(rows, address, *fixed) {
            return Some(*fixed);
        }
    }
    None
}

// The first address of these ports in whose subnet the address lies.
fn fixed_toward(rows: &Rows, legs: &[&PortRow], address: &Addr) -> Option<Fixed>
    ensures { result
        ≡ find (holds_next_hop rows.now address.now)
        (flat_map (λ (p : ThePort). p.fixed) (map (λ p. p.now) legs.now)) }
{
    for port in legs {
        if let Some(fixed) = fixed_of_port(rows, port, address) {
            return Some(fixed);
        }
    }
    None
}

fn extra_way(rows: &Rows, exits: &Exits, hop: Hop) -> Option<Way>
    ensures { option_map way_of result ≡ extra_by_rows rows.now exits.now hop }
{
    let fixed = fixed_toward(rows, exits.legs(), &hop.next)?;
    way_by(
        exits,
        fixed.subnet,
        hop.destination,
        RouteRank::Extra,
        Some(hop.next),
    )
}

// Adds the router's own routes that lead somewhere.
#[tactic(auto, unfolding(api_types::specs::RouterRows::extra_ways))]
fn add_extra(
    rows: &Rows,
    exits: &Exits,
    routes: &[Hop],
    ways: &mut Vec<Way>,
) -> Result<(), OutOfMemory>
    ensures { OnOk result
        (map way_of ways.new.items
        ≡ map way_of ways.old.items ++ extras_by_rows rows.now exits.now routes.now) }
{
    for hop in routes {
        if let Some(way) = extra_way(rows, exits, *hop) {
            ways.push(way)?;
        }
    }
    Ok(())
}

// 0.0.0.0/0, or ::/0 in version 6.
fn everything(gateway: &Addr) -> Prefix
    ensures { result ≡ record { base = with_number gateway.now 0; len = 0 } }
{
    match gateway {
        Addr::V4(_) => Prefix {
            base: Addr::V4(Addr4(0)),
            len: 0,
        },
        Addr::V6(_) => Prefix {
            base: Addr::V6(Addr6(0)),
            len: 0,
        },
    }
}

fn default_in(exits: &Exits, subnet: &SubnetRow) -> Option<Way>
    ensures { option_to_list (option_map way_of result)
        ≡ default_by exits.now (Some subnet.now) }
{
    let gateway = subnet.gateway?;
    way_by(
        exits,
        subnet.id,
        everything(&gateway),
        RouteRank::Default,
        Some(gateway),
    )
}

fn default_way(rows: &Rows, exits: &Exits, fixed: Fixed) -> Option<Way>
    ensures { option_to_list (option_map way_of result)
        ≡ default_by exits.now (subnet_with rows.now fixed.subnet) }
{
    let subnet = named_subnet(rows, fixed.subnet)?;
    default_in(exits, subnet)
}

fn live_gateway_port<'r>(rows: &'r Rows, router: &RouterRow) -> Option<&'r PortRow>
    ensures { (legs : List ThePort)
        → defaults_of_port rows.now legs (option_copied result)
        ≡ default_by_rows rows.now legs (gateway_by_rows rows.now router.now) }
{
    let port = gateway_port(rows, router)?;
    if is_live(rows, port) {
        Some(port)
    } else {
        None
    }
}

// Adds the routes by the gateways of the subnets of a gateway port, by ascending addresses.
fn add_defaults_of(
    alloc: Global,
    rows: &Rows,
    exits: &Exits,
    port: &PortRow,
    ways: &mut Vec<Way>,
) -> Result<(), OutOfMemory>
    ensures { OnOk result
        (map way_of ways.new.items
        ≡ map way_of ways.old.items ++ defaults_of_port rows.now exits.now (Some port.now)) }
{
    let held = held_by_address(alloc, port)?;
    for fixed in held.as_slice() {
        if let Some(way) = default_way(rows, exits, *fixed) {
            ways.push(way)?;
        }
    }
    Ok(())
}

// Adds the default routes, where the gateway port is live.
fn add_defaults(
    alloc: Global,
    rows: &Rows,
    exits: &Exits,
    router: &RouterRow,
    ways: &mut Vec<Way>,
) -> Result<(), OutOfMemory>
    ensures { OnOk result
        (map way_of ways.new.items
        ≡ map way_of ways.old.items
        ++ default_by_rows rows.now exits.now (gateway_by_rows rows.now router.now)) }
{
    match live_gateway_port(rows, router) {
        Some(port) => add_defaults_of(alloc, rows, exits, port, ways),
        None => Ok(()),
    }
}

// The live ports of a router, in order of creation.
#[tactic(auto, unfolding(api_types::specs::RouterRows::legs_of))]
fn legs<'r>(
    alloc: Global,
    rows: &'r Rows,
    router: &RouterRow,
) -> Result<Vec<&'r PortRow>, OutOfMemory>
    ensures { IfOk result (λ v. map (λ p. p.now) v.items ≡ legs_of rows.now router.now) }
{
    let mut legs = Vec::new(alloc);
    for port in rows.ports().rows() {
        if is_leg(rows, router, port) {
            legs.push(port.get())?;
        }
    }
    Ok(legs)
}

/// The routes of a router whose live ports are these: to their subnets, then its own ones, then the
/// default ones. Its cost grows with the router's addresses, of each port also with the logarithm
/// of their number, and with its own routes times its addresses.
pub fn ways_by(
    alloc: Global,
    rows: &Rows,
    legs: &[&PortRow],
    router: &RouterRow,
) -> Result<Vec<Way>, OutOfMemory>
    ensures { IfOk result
        (λ v. map way_of v.items
        ≡ ways_by_legs rows.now (map (λ p. p.now) legs.now) router.now) }
{
    let exits = Exits::of(alloc, legs)?;
    let mut ways = Vec::new(alloc);
    add_connected(alloc, rows, &exits, &mut ways)?;
    add_extra(rows, &exits, router.routes.as_slice(), &mut ways)?;
    add_defaults(alloc, rows, &exits, router, &mut ways)?;
    Ok(ways)
}

/// The routes of a router: to the subnets of its live ports, then its own ones, then the default
/// ones. Its cost grows with the ports, and with what `ways_by` costs for those of the router.
#[tactic(auto, unfolding(api_types::specs::RouterRows::ways_of))]
pub fn ways_of(alloc: Global, rows: &Rows, router: &RouterRow) -> Result<Vec<Way>, OutOfMemory>
    ensures { IfOk result (λ v. map way_of v.items ≡ ways_by_rows rows.now router.now) }
{
    let legs = legs(alloc, rows, router)?;
    ways_by(alloc, rows, legs.as_slice(), router)
}
