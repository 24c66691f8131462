//! Ports that networks, routers and floating addresses should have, and what these hold.

ghost use Rattle.std.specs.Prelude.{◌≡◌, nat_le, count_by};
ghost use Rattle.std.specs.List.{list_any, list_all};
ghost use Rattle.api_types.specs.Lists.{stands_so, if_some};
ghost use Rattle.api_types.specs.Table.{ident_eq};
ghost use Rattle.api_types.specs.Owners as owners;
ghost use Rattle.api_types.specs.Consistent.Services as services;
ghost use Rattle.api_clauses.specs.Services as served;

use crate::clause::Clause;
use api_types::{
    Fixed, FloatingRow, Gateway, Id, NetworkRow, PortRow, RouterRow, Rows, Shared, SubnetRow, Vif,
};
use net_addr::{Addr, Addr4};

fn is_dhcp_of(network: Id, port: &PortRow) -> bool
    ensures { result ≡ owners.is_dhcp_of network port.now }
{
    network == port.network && port.is_dhcp()
}

fn dhcp_ports(ports: &[Shared<PortRow>], network: Id) -> usize
    ensures { result ≡ count_by (owners.is_dhcp_of network) ports.now }
{
    ports
        .iter()
        .filter(|port| is_dhcp_of(network, port))
        .count()
}

fn wants_dhcp(subnets: &[Shared<SubnetRow>], network: Id) -> bool
    ensures { result ≡ services.wants_dhcp subnets.now network }
{
    subnets
        .iter()
        .any(|subnet| network == subnet.network && subnet.dhcp)
}

/// A network has as many DHCP ports as it should: one where a subnet of it has DHCP enabled, and
/// otherwise none. The cost grows with the ports and the subnets.
pub struct ServedNetwork;

impl Clause for ServedNetwork {
    type Row = NetworkRow;

    const RULE: u8 = 9;

    ghost RULE = { 9 };

    ghost test = { served.network_served };

    fn meets(rows: &Rows, network: &NetworkRow) -> bool {
        let wanted = if wants_dhcp(rows.subnets().rows(), network.id) {
            1
        } else {
            0
        };
        dhcp_ports(rows.ports().rows(), network.id) == wanted
    }
}

fn holds_count(subnet: Id, port: &PortRow) -> usize
    ensures { result ≡ services.holds_count subnet port.now }
{
    port.fixed
        .iter()
        .filter(|fixed| subnet == fixed.subnet)
        .count()
}

fn leases(port: &PortRow, subnet: &SubnetRow) -> bool
    ensures { result ≡ services.leases port.now subnet.now }
{
    !(port.network == subnet.network && subnet.dhcp) || holds_count(subnet.id, port) == 1
}

fn leases_all(subnets: &[Shared<SubnetRow>], port: &PortRow) -> bool
    ensures { result ≡ list_all (services.leases port.now) subnets.now }
{
    subnets.iter().all(|subnet| leases(port, subnet))
}

fn is_leased(subnets: &[Shared<SubnetRow>], fixed: &Fixed) -> bool
    ensures { result ≡ services.is_leased subnets.now fixed.now }
{
    subnets
        .iter()
        .any(|subnet| fixed.subnet == subnet.id && subnet.dhcp)
}

fn are_leased(subnets: &[Shared<SubnetRow>], port: &PortRow) -> bool
    ensures { result ≡ list_all (services.is_leased subnets.now) port.now.fixed }
{
    port.fixed.iter().all(|fixed| is_leased(subnets, fixed))
}

fn serves_dhcp(subnets: &[Shared<SubnetRow>], port: &PortRow) -> bool
    ensures { result ≡ served.dhcp_serves subnets.now port.now }
{
    !port.is_dhcp() || (leases_all(subnets, port) && (are_leased(subnets, port) && !port.secured))
}

fn names_router(routers: &[Shared<RouterRow>], port: &PortRow) -> bool
    ensures { result ≡ list_any (λ r. owners.is_port_of r port.now) routers.now }
{
    routers.iter().any(|router| port.is_of(router))
}

fn serves_router(routers: &[Shared<RouterRow>], port: &PortRow) -> bool
    ensures { result ≡ served.router_port_serves routers.now port.now }
{
    (!port.is_router_port() || (names_router(routers, port) && !port.secured))
        && ((!port.is_interface() || port.fixed.len() == 1)
            && (!port.is_gateway() || !port.fixed.is_empty()))
}

/// A port of a service is in order. A DHCP port holds one address in each subnet of its network
/// with DHCP enabled and no other; a router's port names a router that is there, an interface has
/// one address and a gateway at least one; none of these and no floating address's own port has
/// port security. The cost grows with the subnets, the routers and the floating addresses.
pub struct ServingPort;

impl Clause for ServingPort {
    type Row = PortRow;

    const RULE: u8 = 9;

    ghost RULE = { 9 };

    ghost test = { served.port_serves };

    fn meets(rows: &Rows, port: &PortRow) -> bool {
        serves_dhcp(rows.subnets().rows(), port)
            && (serves_router(rows.routers().rows(), port)
                && (!rows.is_own_port(port) || !port.secured))
    }
}

fn is_gateway_of(router: Id, port: &PortRow) -> bool
    ensures { result ≡ services.is_gateway_of router port.now }
{
    port.is_gateway() && port.has_device(router)
}

fn gateway_ports(ports: &[Shared<PortRow>], router: Id) -> usize
    ensures { result ≡ count_by (services.is_gateway_of router) ports.now }
{
    ports
        .iter()
        .filter(|port| is_gateway_of(router, port))
        .count()
}

fn wanted_gateways(gateway: &Option<Gateway>) -> usize
    ensures { result ≡ services.wanted_gateways gateway.now }
{
    match gateway {
        Some(_) => 1,
        None => 0,
    }
}

fn is_named_gateway(router: &RouterRow, gateway: Gateway, port: &PortRow) -> bool
    ensures { result ≡ services.is_named_gateway router.now gateway port.now }
{
    is_gateway_of(router.id, port) && (gateway.network == port.network && gateway.port == port.id)
}

fn has_named_gateway(ports: &[Shared<PortRow>], router: &RouterRow, gateway: Gateway) -> bool
    ensures { result ≡ list_any (services.is_named_gateway router.now gateway) ports.now }
{
    ports
        .iter()
        .any(|port| is_named_gateway(router, gateway, port))
}

fn has_gateway(ports: &[Shared<PortRow>], router: &RouterRow) -> bool
    ensures { result
        ≡ if_some (λ g. list_any (services.is_named_gateway router.now g) ports.now)
        router.now.gateway }
{
    match router.gateway {
        Some(gateway) => has_named_gateway(ports, router, gateway),
        None => true,
    }
}

/// A router with a gateway has exactly one gateway port, the one that it names, on that network,
/// and one without a gateway none. The cost grows with the ports.
pub struct ServedRouter;

impl Clause for ServedRouter {
    type Row = RouterRow;

    const RULE: u8 = 9;

    ghost RULE = { 9 };

    ghost test = { λ rows. served.router_served rows.ports };

    fn meets(rows: &Rows, router: &RouterRow) -> bool {
        let ports = rows.ports().rows();
        gateway_ports(ports, router.id) == wanted_gateways(&router.gateway)
            && has_gateway(ports, router)
    }
}

fn holds_just(address: Addr4, fixed: &[Fixed]) -> bool
    ensures { result ≡ services.holds_just address fixed.now }
{
    fixed.len() == 1 && fixed[0].address == Addr::V4(address)
}

fn is_port_for(floating: &FloatingRow, port: &PortRow) -> bool
    ensures { result ≡ services.is_port_for floating.now port.now }
{
    floating.network == port.network
        && port.is_floating()
        && holds_just(floating.address, port.fixed.as_slice())
        && port.vif == Vif::Unbound
}

fn has_port(ports: &[Shared<PortRow>], floating: &FloatingRow) -> bool
    ensures { result
        ≡ stands_so (λ p. p.id) floating.now.own_port (services.is_port_for floating.now)
        ports.now }
{
    ports.iter().any(|port| floating.own_port == port.id && is_port_for(floating, port))
}

fn owns_alone(floatings: &[Shared<FloatingRow>], floating: &FloatingRow) -> bool
    ensures { result
        ≡ nat_le (count_by (λ g. ident_eq floating.now.own_port g.own_port) floatings.now) 1 }
{
    floatings
        .iter()
        .filter(|other| floating.own_port == other.own_port)
        .count()
        <= 1
}

/// The own port of a floating address is no other's, is on its network, has that owner, holds just
/// its address and is unbound. The cost grows with the ports and the floating addresses.
pub struct ServedFloating;

impl Clause for ServedFloating {
    type Row = FloatingRow;

    const RULE: u8 = 9;

    ghost RULE = { 9 };

    ghost test = { served.floating_served };

    fn meets(rows: &Rows, floating: &FloatingRow) -> bool {
        owns_alone(rows.floatings().rows(), floating) && has_port(rows.ports().rows(), floating)
    }
}
