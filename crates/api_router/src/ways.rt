//! Questions of the ports that a router has: what they overlap, reach and hold.

ghost use Rattle.std.specs.Prelude.{◌≡◌, ◌&&◌, find, option_copied};
ghost use Rattle.std.specs.List.{list_any};
ghost use Rattle.api_types.specs.HeldAddresses.{is_own_address};
ghost use Rattle.api_types.specs.Lists as lists;
ghost use Rattle.api_types.specs.Owners as owners;
ghost use Rattle.api_types.specs.RouterWays.{interfaces_of, router_ports};
ghost use Rattle.api_types.specs.RouterWays as router_ways;
ghost use Rattle.api_types.specs.Table.{row_of};
ghost use Rattle.api_types.specs.declared.port.PortRow.{PortRow as ThePort};
ghost use Rattle.api_types.specs.declared.subnet.SubnetRow.{SubnetRow as TheSubnet};
ghost use Rattle.api_router.specs.RouterRules as router_rules;
ghost use Rattle.api_router.specs.Ways as ways;

use api_types::{Fixed, Hop, Id, NetworkRow, PortRow, RouterRow, Rows, Shared, SubnetRow};
use net_addr::{Addr, Prefix};

fn is_interface_of(router: &RouterRow, port: &PortRow) -> bool
    ensures { result
        ≡ (owners.is_interface port.now.owner && owners.is_port_of router.now port.now) }
{
    port.is_interface() && port.is_of(router)
}

/// The router's first interface that holds an address in the subnet. Its cost grows with the ports.
pub fn interface_in<'r>(
    ports: &'r [Shared<PortRow>],
    router: &RouterRow,
    subnet: Id,
) -> Option<&'r PortRow>
    ensures { option_copied result
        ≡ find (owners.holds_in subnet) (interfaces_of ports.now router.now) }
{
    for port in ports {
        if is_interface_of(router, port) && port.holds_in(subnet) {
            return Some(port);
        }
    }
    None
}

/// The router's interface with this id. Its cost grows with the ports.
pub fn interface_with<'r>(
    ports: &'r [Shared<PortRow>],
    router: &RouterRow,
    id: Id,
) -> Option<&'r PortRow>
    ensures { option_copied result
        ≡ row_of (λ (p : ThePort). p.id) id (interfaces_of ports.now router.now) }
{
    for port in ports {
        if is_interface_of(router, port) && id == port.id {
            return Some(port);
        }
    }
    None
}

fn meets_network(subnets: &[Shared<SubnetRow>], network: Id, port: &PortRow) -> bool
    ensures { result ≡ ways.meets_network subnets.now network port.now }
{
    for subnet in subnets {
        if network == subnet.network && port.touches(subnets, &subnet.prefix) {
            return true;
        }
    }
    false
}

fn meets_interface(
    subnets: &[Shared<SubnetRow>],
    ports: &[Shared<PortRow>],
    router: &RouterRow,
    network: Id,
) -> bool
    ensures { result
        ≡ list_any (ways.meets_network subnets.now network) (interfaces_of ports.now router.now) }
{
    for port in ports {
        if is_interface_of(router, port) && meets_network(subnets, network, port) {
            return true;
        }
    }
    false
}

/// Whether a subnet of the network overlaps one of the router's interfaces. Its cost grows with the
/// ports, and for each interface with the subnets, times those of the network.
pub fn overlaps_interface(rows: &Rows, router: &RouterRow, network: &NetworkRow) -> bool
    ensures { result
        ≡ router_rules.overlaps_interface rows.now
        (interfaces_of rows.now.ports router.now) network.now }
{
    meets_interface(
        rows.subnets().rows(),
        rows.ports().rows(),
        router,
        network.id,
    )
}

// Whether a port of the router holds an address in a subnet that overlaps the prefix.
fn touches_leg(
    subnets: &[Shared<SubnetRow>],
    ports: &[Shared<PortRow>],
    router: &RouterRow,
    prefix: &Prefix,
) -> bool
    ensures { result
        ≡ list_any (router_ways.touches subnets.now prefix.now)
        (router_ports ports.now router.now) }
{
    for port in ports {
        if port.is_of(router) && port.touches(subnets, prefix) {
            return true;
        }
    }
    false
}

/// Whether the subnet overlaps one of the router's ports. Its cost grows with the ports, and for
/// each port of the router with the subnets.
pub fn overlaps_leg(rows: &Rows, router: &RouterRow, subnet: &SubnetRow) -> bool
    ensures { result ≡ router_rules.overlaps_leg rows.now router.now subnet.now }
{
    touches_leg(
        rows.subnets().rows(),
        rows.ports().rows(),
        router,
        &subnet.prefix,
    )
}

fn is_one(fixed: &[Fixed]) -> bool
    ensures { result ≡ lists.is_one fixed.now }
{
    match fixed {
        [_] => true,
        _ => false,
    }
}

fn is_overlapping(rows: &Rows, router: &RouterRow, port: &PortRow, subnet: &SubnetRow) -> bool
    ensures { result
        ≡ (owners.holds_in subnet.now.id
        port.now && router_rules.overlaps_leg rows.now router.now subnet.now) }
{
    port.holds_in(subnet.id) && overlaps_leg(rows, router, subnet)
}

fn has_overlapping(
    rows: &Rows,
    subnets: &[Shared<SubnetRow>],
    router: &RouterRow,
    port: &PortRow,
) -> bool
    ensures { result
        ≡ list_any
        (λ (s : TheSubnet). owners.holds_in
        s.id port.now && router_rules.overlaps_leg rows.now router.now s)
        subnets.now }
{
    subnets
        .iter()
        .any(|subnet| is_overlapping(rows, router, port, subnet))
}

/// Whether the port can't be an interface of the router: it hasn't exactly one address, or its
/// subnet overlaps one of the router's ports. Its cost grows with the subnets and the ports.
pub fn is_bad_leg(rows: &Rows, router: &RouterRow, port: &PortRow) -> bool
    ensures { result ≡ router_rules.is_bad_leg rows.now router.now port.now }
{
    !is_one(port.fixed.as_slice()) || has_overlapping(rows, rows.subnets().rows(), router, port)
}

fn is_held(ports: &[Shared<PortRow>], router: &RouterRow, address: &Addr) -> bool
    ensures { result
        ≡ list_any (is_own_address address.now) (router_ports ports.now router.now) }
{
    for port in ports {
        if port.is_of(router) && port.holds(address) {
            return true;
        }
    }
    false
}

fn is_reached(
    subnets: &[Shared<SubnetRow>],
    ports: &[Shared<PortRow>],
    router: &RouterRow,
    address: &Addr,
) -> bool
    ensures { result
        ≡ list_any (router_ways.reaches subnets.now address.now)
        (router_ports ports.now router.now) }
{
    for port in ports {
        if port.is_of(router) && port.reaches(subnets, address) {
            return true;
        }
    }
    false
}

fn is_bad_hop(
    subnets: &[Shared<SubnetRow>],
    ports: &[Shared<PortRow>],
    router: &RouterRow,
    hop: &Hop,
) -> bool
    ensures { result ≡ router_ways.is_bad_hop subnets.now
        (router_ports ports.now router.now) hop.now }
{
    is_held(ports, router, &hop.next) || !is_reached(subnets, ports, router, &hop.next)
}

fn any_bad_hop(
    subnets: &[Shared<SubnetRow>],
    ports: &[Shared<PortRow>],
    router: &RouterRow,
    hops: &[Hop],
) -> bool
    ensures { result
        ≡ list_any (router_ways.is_bad_hop subnets.now
        (router_ports ports.now router.now)) hops.now }
{
    hops.iter()
        .any(|hop| is_bad_hop(subnets, ports, router, hop))
}

/// Whether a next hop lies in no subnet of the router's ports, or is one of their addresses. Its
/// cost grows with the routes, of which there are 30 at most, times the ports, and for each port of
/// the router with the subnets.
pub fn has_bad_hop(rows: &Rows, router: &RouterRow, hops: &[Hop]) -> bool
    ensures { result
        ≡ list_any (router_ways.is_bad_hop rows.now.subnets
        (router_ports rows.now.ports router.now)) hops.now }
{
    any_bad_hop(rows.subnets().rows(), rows.ports().rows(), router, hops)
}
