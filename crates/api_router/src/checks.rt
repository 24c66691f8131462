//! What forbids calls on a router by its rows alone, whoever asks.

ghost use Rattle.std.specs.Prelude.{◌≡◌, ◌||◌, Some, not, option_and_then, option_copied};
ghost use Rattle.std.specs.List.{list_any};
ghost use Rattle.api_types.specs.Lists.{is_some_so};
ghost use Rattle.api_types.specs.Lists as lists;
ghost use Rattle.api_types.specs.Owners as owners;
ghost use Rattle.api_types.specs.RouterWays.{router_ports};
ghost use Rattle.api_types.specs.RouterWays as router_ways;
ghost use Rattle.api_types.specs.Table.{ident_eq, row_of};
ghost use Rattle.api_types.specs.declared.call.InterfaceBy.TheVariants.{Port as ByPort, Subnet as BySubnet};
ghost use Rattle.api_types.specs.declared.port.PortRow.{PortRow as ThePort};
ghost use Rattle.api_router.specs.RouterChecks.{IsTold, gateway_told, interface_told, removal_told, routes_told, told_if};
ghost use Rattle.api_router.specs.RouterChecks as router_checks;
ghost use Rattle.api_router.specs.declared.checks.RouterRefusal.TheVariants.{BadGateway as GatewayBad, BadRoutes as RoutesBad, PortInUse as UsedPort};

use crate::ways::{
    has_bad_hop, interface_in, interface_with, is_bad_leg, overlaps_interface, overlaps_leg,
};
use api_policy::{floating_by, floating_through, is_empty, loses_route, named_by_device};
use api_types::{
    Gateway, Hop, Id, InterfaceBy, Kind, NetworkRow, PortRow, RouterRow, Routes, Rows, SubnetRow,
};

/// Why a call on a router is forbidden by its rows. A use tells the row that uses what would go.
#[derive(Drop)]
pub enum RouterRefusal {
    /// The network isn't external to the router's project, or one of its subnets overlaps one of an
    /// interface.
    BadGateway,
    /// A next hop lies in no subnet of the router's ports, or is one of their addresses.
    BadRoutes,
    /// The subnet has no gateway, or overlaps one of the router's ports.
    BadSubnet,
    /// The port hasn't exactly one address, or its subnet overlaps one of the router's ports.
    BadPort,
    /// The router has no such interface.
    NoInterface,
    /// The port has a device or is a service's.
    PortInUse { by: Option<(Kind, Id)> },
    /// A route needs the port that would go.
    RouteInUse { by: Option<(Kind, Id)> },
    /// A floating address leads through the interface that would go.
    FloatingInUse { by: Option<(Kind, Id)> },
    /// A floating address leads by the gateway that would go.
    GatewayInUse { by: Option<(Kind, Id)> },
}

fn check_subnet(rows: &Rows, router: &RouterRow, subnet: &SubnetRow) -> Result<(), RouterRefusal>
    ensures { IsTold (router_checks.bad_subnet rows.now router.now subnet.now) result }
{
    if subnet.gateway.is_none() || overlaps_leg(rows, router, subnet) {
        return Err(RouterRefusal::BadSubnet);
    }
    Ok(())
}

fn check_device(rows: &Rows, port: &PortRow) -> Result<(), RouterRefusal>
    ensures { IsTold
        (told_if (owners.is_service port.now.owner || not (lists.is_empty port.now.device))
        (UsedPort (router_checks.device_user rows.now port.now))) result }
{
    if port.is_service() {
        let by = named_by_device(rows, &port.device);
        return Err(RouterRefusal::PortInUse { by });
    }
    if !is_empty(&port.device) {
        return Err(RouterRefusal::PortInUse { by: None });
    }
    Ok(())
}

fn check_port(rows: &Rows, router: &RouterRow, port: &PortRow) -> Result<(), RouterRefusal>
    ensures { IsTold (router_checks.bad_port rows.now router.now port.now) result }
{
    if is_bad_leg(rows, router, port) {
        return Err(RouterRefusal::BadPort);
    }
    check_device(rows, port)
}

fn check_by_subnet(rows: &Rows, router: &RouterRow, id: Id) -> Result<(), RouterRefusal>
    ensures { IsTold (router_checks.bad_interface rows.now (BySubnet id) router.now) result }
{
    match rows.subnets().get(id) {
        Some(subnet) => check_subnet(rows, router, subnet),
        None => Ok(()),
    }
}

fn check_by_port(rows: &Rows, router: &RouterRow, id: Id) -> Result<(), RouterRefusal>
    ensures { IsTold (router_checks.bad_interface rows.now (ByPort id) router.now) result }
{
    match rows.ports().get(id) {
        Some(port) => check_port(rows, router, port),
        None => Ok(()),
    }
}

fn check_by(rows: &Rows, router: &RouterRow, by: &InterfaceBy) -> Result<(), RouterRefusal>
    ensures { IsTold (router_checks.bad_interface rows.now by.now router.now) result }
{
    match by {
        InterfaceBy::Subnet(id) => check_by_subnet(rows, router, *id),
        InterfaceBy::Port(id) => check_by_port(rows, router, *id),
    }
}

/// Whether an interface can be added to the router: by a subnet that has a gateway, or by a port
/// with one address and no device, where the subnet overlaps none of the router's ports. It
/// allocates nothing. Its cost grows with the subnets and the ports, and for a service's port with
/// the routers and the floating addresses.
pub fn check_interface(rows: &Rows, router: Id, by: &InterfaceBy) -> Result<(), RouterRefusal>
    ensures { IsTold (interface_told rows.now router by.now) result }
{
    match rows.routers().get(router) {
        Some(router) => check_by(rows, router, by),
        None => Ok(()),
    }
}

fn interface_named<'r>(rows: &'r Rows, router: &RouterRow, by: &InterfaceBy) -> Option<&'r PortRow>
    ensures { option_copied result ≡ router_checks.interface_named rows.now by.now router.now }
{
    match by {
        InterfaceBy::Subnet(id) => interface_in(rows.ports().rows(), router, *id),
        InterfaceBy::Port(id) => interface_with(rows.ports().rows(), router, *id),
    }
}

// Refuses that the port goes, where the next hop of one of these routes is reached by it alone.
fn check_routes_left(
    rows: &Rows,
    router: &RouterRow,
    routes: &[Hop],
    port: &PortRow,
) -> Result<(), RouterRefusal>
    ensures { IsTold (router_checks.route_user rows.now router.now routes.now port.now) result }
{
    if loses_route(
        rows.subnets().rows(),
        rows.ports().rows(),
        router,
        routes,
        port,
    ) {
        let by = Some((Kind::Router, router.id));
        return Err(RouterRefusal::RouteInUse { by });
    }
    Ok(())
}

fn check_through(rows: &Rows, router: &RouterRow, port: &PortRow) -> Result<(), RouterRefusal>
    ensures { IsTold (router_checks.through_user rows.now router.now port.now) result }
{
    let floatings = rows.floatings().rows();
    match floating_through(rows.subnets().rows(), floatings, router.id, port) {
        Some(floating) => Err(RouterRefusal::FloatingInUse {
            by: Some((Kind::Floating, floating.id)),
        }),
        None => Ok(()),
    }
}

fn check_port_left(rows: &Rows, router: &RouterRow, port: &PortRow) -> Result<Id, RouterRefusal>
    ensures { result ≡ router_checks.removed_port rows.now router.now (Some port.now) }
{
    let _kind = Kind::Router; // for the proof: refusals hold kinds
    check_routes_left(rows, router, router.routes.as_slice(), port)?;
    check_through(rows, router, port)?;
    Ok(port.id)
}

fn check_removal(rows: &Rows, router: &RouterRow, by: &InterfaceBy) -> Result<Id, RouterRefusal>
    ensures { result ≡ router_checks.removed_port rows.now router.now
        (router_checks.interface_named rows.now by.now router.now) }
{
    match interface_named(rows, router, by) {
        Some(port) => check_port_left(rows, router, port),
        None => Err(RouterRefusal::NoInterface),
    }
}

/// The port of the router's interface by this subnet or port, where no route and no floating
/// address needs it. It allocates nothing. Its cost grows with the ports times the routes, the
/// subnets and the floating addresses.
pub fn check_remove(rows: &Rows, router: Id, by: &InterfaceBy) -> Result<Id, RouterRefusal>
    ensures { result ≡ removal_told rows.now router by.now }
{
    match rows.routers().get(router) {
        Some(router) => check_removal(rows, router, by),
        None => Err(RouterRefusal::NoInterface),
    }
}

fn is_bad_gateway(rows: &Rows, router: &RouterRow, network: &NetworkRow) -> bool
    ensures { result ≡ router_checks.is_bad_gateway rows.now router.now network.now }
{
    !rows.is_external_to(network.id, &router.project) || overlaps_interface(rows, router, network)
}

fn check_on(rows: &Rows, router: &RouterRow, network: Id) -> Result<(), RouterRefusal>
    ensures { IsTold (router_checks.bad_gateway_on rows.now router.now (Some network)) result }
{
    match rows.networks().get(network) {
        Some(network) => check_network(rows, router, network),
        None => Ok(()),
    }
}

fn check_network(rows: &Rows, router: &RouterRow, network: &NetworkRow) -> Result<(), RouterRefusal>
    ensures { IsTold
        (told_if (router_checks.is_bad_gateway rows.now router.now network.now) GatewayBad) result }
{
    if is_bad_gateway(rows, router, network) {
        return Err(RouterRefusal::BadGateway);
    }
    Ok(())
}

fn check_new(rows: &Rows, router: &RouterRow, network: &Option<Id>) -> Result<(), RouterRefusal>
    ensures { IsTold (router_checks.bad_gateway_on rows.now router.now network.now) result }
{
    match network {
        Some(network) => check_on(rows, router, *network),
        None => Ok(()),
    }
}

fn check_port_routes(
    rows: &Rows,
    router: &RouterRow,
    routes: &[Hop],
    port: Id,
) -> Result<(), RouterRefusal>
    ensures { IsTold
        (option_and_then (router_checks.route_user rows.now router.now routes.now)
        (row_of (λ (p : ThePort). p.id) port rows.now.ports)) result }
{
    match rows.ports().get(port) {
        Some(port) => check_routes_left(rows, router, routes, port),
        None => Ok(()),
    }
}

fn check_floatings_left(rows: &Rows, router: &RouterRow) -> Result<(), RouterRefusal>
    ensures { IsTold (router_checks.gateway_user rows.now router.now) result }
{
    match floating_by(rows.floatings().rows(), router.id) {
        Some(floating) => Err(RouterRefusal::GatewayInUse {
            by: Some((Kind::Floating, floating.id)),
        }),
        None => Ok(()),
    }
}

fn is_on(network: &Option<Id>, gateway: &Gateway) -> bool
    ensures { result ≡ is_some_so (ident_eq gateway.now.network) network.now }
{
    match network {
        Some(network) => gateway.network == *network,
        None => false,
    }
}

fn check_lost(
    rows: &Rows,
    router: &RouterRow,
    routes: &[Hop],
    network: &Option<Id>,
    gateway: &Gateway,
) -> Result<(), RouterRefusal>
    ensures { IsTold
        (router_checks.lost_use rows.now router.now routes.now network.now gateway.now) result }
{
    let _kind = Kind::Router; // for the proof: refusals hold kinds
    if is_on(network, gateway) {
        return Ok(());
    }
    check_port_routes(rows, router, routes, gateway.port)?;
    check_floatings_left(rows, router)
}

fn check_old(
    rows: &Rows,
    router: &RouterRow,
    routes: &[Hop],
    network: &Option<Id>,
) -> Result<(), RouterRefusal>
    ensures { IsTold
        (option_and_then (router_checks.lost_use rows.now router.now routes.now network.now)
        router.now.gateway) result }
{
    match &router.gateway {
        Some(gateway) => check_lost(rows, router, routes, network, gateway),
        None => Ok(()),
    }
}

fn check_both(
    rows: &Rows,
    router: &RouterRow,
    routes: &[Hop],
    network: &Option<Id>,
) -> Result<(), RouterRefusal>
    ensures { IsTold (router_checks.bad_gateway rows.now network.now routes.now router.now) result }
{
    let _kind = Kind::Router; // for the proof: refusals hold kinds
    check_new(rows, router, network)?;
    check_old(rows, router, routes, network)
}

/// Whether the router's gateway can be set on the network, or be cleared where there is none, with
/// the extra routes as they would stand. It allocates nothing. Its cost grows with the policies,
/// the ports times the routes, the subnets and the floating addresses.
pub fn check_gateway(
    rows: &Rows,
    router: Id,
    network: Option<Id>,
    routes: &Routes,
) -> Result<(), RouterRefusal>
    ensures { IsTold (gateway_told rows.now router network routes.now) result }
{
    match rows.routers().get(router) {
        Some(router) => check_both(rows, router, routes.as_slice(), &network),
        None => Ok(()),
    }
}

fn check_hops(rows: &Rows, router: &RouterRow, routes: &[Hop]) -> Result<(), RouterRefusal>
    ensures { IsTold
        (told_if
        (list_any (router_ways.is_bad_hop rows.now.subnets (router_ports rows.now.ports router.now))
        routes.now) RoutesBad) result }
{
    if has_bad_hop(rows, router, routes) {
        return Err(RouterRefusal::BadRoutes);
    }
    Ok(())
}

/// Whether the router can have these routes: each next hop lies in a subnet of one of its ports,
/// and is none of their addresses. It allocates nothing. Its cost grows with the routes times the
/// ports, and the subnets.
pub fn check_routes(rows: &Rows, router: Id, routes: &Routes) -> Result<(), RouterRefusal>
    ensures { IsTold (routes_told rows.now router routes.now) result }
{
    match rows.routers().get(router) {
        Some(router) => check_hops(rows, router, routes.as_slice()),
        None => Ok(()),
    }
}
