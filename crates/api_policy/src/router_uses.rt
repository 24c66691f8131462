//! Ports and gateways of routers that routes and floating addresses use.

ghost use Rattle.std.specs.Prelude.{◌≡◌, find, option_and_then, option_copied, option_map};
ghost use Rattle.std.specs.List.{list_any};
ghost use Rattle.api_types.specs.Table.{row_of};
ghost use Rattle.api_types.specs.declared.port.PortRow.{PortRow as ThePort};
ghost use Rattle.api_types.specs.RouterWays.{other_ports, router_ports};
ghost use Rattle.api_types.specs.RouterWays as router_ways;
ghost use Rattle.api_policy.specs.Checks.{IsAnswerOf};
ghost use Rattle.api_policy.specs.Uses as uses;

use crate::told::told_user;
use api_types::{
    Caller, FloatingRow, Gateway, Hop, Id, Kind, PortRow, Refusal, RouterRow, Rows, Shared,
    SubnetRow, UseRule,
};
use net_addr::Addr;

// Whether another port of the router reaches the address.
fn is_reached(
    subnets: &[Shared<SubnetRow>],
    ports: &[Shared<PortRow>],
    router: &RouterRow,
    but: Id,
    address: &Addr,
) -> bool
    ensures { result
        ≡ list_any (router_ways.reaches subnets.now address.now)
        (other_ports but (router_ports ports.now router.now)) }
{
    for port in ports {
        if port.is_of(router) && but != port.id && port.reaches(subnets, address) {
            return true;
        }
    }
    false
}

// Whether the port's going leaves the next hop unreached.
fn is_lost_hop(
    subnets: &[Shared<SubnetRow>],
    ports: &[Shared<PortRow>],
    router: &RouterRow,
    port: &PortRow,
    hop: &Hop,
) -> bool
    ensures { result
        ≡ router_ways.is_lost_hop subnets.now
        (other_ports port.now.id (router_ports ports.now router.now))
        port.now hop.now }
{
    port.reaches(subnets, &hop.next) && !is_reached(subnets, ports, router, port.id, &hop.next)
}

/// Whether the port's going leaves the next hop of one of these routes unreached. Its cost grows
/// with the routes times the ports, and for each port of the router with the subnets.
pub fn loses_route(
    subnets: &[Shared<SubnetRow>],
    ports: &[Shared<PortRow>],
    router: &RouterRow,
    routes: &[Hop],
    port: &PortRow,
) -> bool
    ensures { result
        ≡ list_any
        (router_ways.is_lost_hop subnets.now
        (other_ports port.now.id (router_ports ports.now router.now))
        port.now) routes.now }
{
    routes
        .iter()
        .any(|hop| is_lost_hop(subnets, ports, router, port, hop))
}

/// Refuses that a port of the router goes, where the next hop of one of these routes is reached by
/// it alone. Its cost grows with the routes times the ports, and for each port of the router with
/// the subnets.
pub fn route_in_use(
    rows: &Rows,
    caller: &Caller,
    router: &RouterRow,
    routes: &[Hop],
    port: &PortRow,
) -> Result<(), Refusal>
    ensures { IsAnswerOf
        (uses.route_in_use rows.now caller.now router.now routes.now port.now) result }
{
    let subnets = rows.subnets().rows();
    if !loses_route(subnets, rows.ports().rows(), router, routes, port) {
        return Ok(());
    }
    Err(Refusal::InUse {
        rule: UseRule::RouterInterfaceInUseByRoute,
        kind: Kind::Router,
        id: router.id,
        by: told_user(rows, caller, Some((Kind::Router, router.id))),
    })
}

// The refusal for a router that the floating address uses.
fn used_by_floating(
    rows: &Rows,
    caller: &Caller,
    rule: UseRule,
    router: &RouterRow,
    floating: &FloatingRow,
) -> Refusal
    ensures { result ≡ uses.used_by_floating rows.now caller.now rule router.now floating.now }
{
    Refusal::InUse {
        rule,
        kind: Kind::Router,
        id: router.id,
        by: told_user(rows, caller, Some((Kind::Floating, floating.id))),
    }
}

fn ensure_unled(
    rows: &Rows,
    caller: &Caller,
    rule: UseRule,
    router: &RouterRow,
    floating: Option<&Shared<FloatingRow>>,
) -> Result<(), Refusal>
    ensures { IsAnswerOf
        (option_map (uses.used_by_floating rows.now caller.now rule router.now)
        (option_copied floating.entry)) result }
{
    match floating {
        Some(floating) => Err(used_by_floating(rows, caller, rule, router, floating)),
        None => Ok(()),
    }
}

// Whether a floating address leads by the router to an address in a subnet of the port.
fn leads_through(
    subnets: &[Shared<SubnetRow>],
    router: Id,
    port: &PortRow,
    floating: &FloatingRow,
) -> bool
    ensures { result ≡ uses.leads_through subnets.now router port.now floating.now }
{
    match &floating.target {
        Some(target) => {
            let address = Addr::V4(target.fixed);
            router == target.router && port.reaches(subnets, &address)
        }
        None => false,
    }
}

/// The first floating address that leads by the router to an address in a subnet of the port. Its
/// cost grows with the floating addresses, and for each of the router with the subnets.
pub fn floating_through<'r>(
    subnets: &[Shared<SubnetRow>],
    floatings: &'r [Shared<FloatingRow>],
    router: Id,
    port: &PortRow,
) -> Option<&'r Shared<FloatingRow>>
    ensures { option_copied result
        ≡ find (uses.leads_through subnets.now router port.now) floatings.now }
{
    floatings
        .iter()
        .find(|floating| leads_through(subnets, router, port, floating))
}

/// Refuses that a port of the router goes, where a floating address leads by the router to an
/// address in a subnet of the port. Its cost grows with the floating addresses, and for each of the
/// router with the subnets.
pub fn floating_in_use(
    rows: &Rows,
    caller: &Caller,
    router: &RouterRow,
    port: &PortRow,
) -> Result<(), Refusal>
    ensures { IsAnswerOf (uses.floating_in_use rows.now caller.now router.now port.now) result }
{
    let subnets = rows.subnets().rows();
    let floating = floating_through(subnets, rows.floatings().rows(), router.id, port);
    ensure_unled(
        rows,
        caller,
        UseRule::RouterInterfaceInUseByFloatingIp,
        router,
        floating,
    )
}

fn leads_by(router: Id, floating: &FloatingRow) -> bool
    ensures { result ≡ uses.leads_by router floating.now }
{
    match &floating.target {
        Some(target) => router == target.router,
        None => false,
    }
}

/// The first floating address that leads by the router. Its cost grows with the floating addresses.
pub fn floating_by(floatings: &[Shared<FloatingRow>], router: Id) -> Option<&Shared<FloatingRow>>
    ensures { option_copied result ≡ find (uses.leads_by router) floatings.now }
{
    floatings.iter().find(|floating| leads_by(router, floating))
}

/// Refuses that the router's gateway goes, where a floating address leads by the router. Its cost
/// grows with the floating addresses.
pub fn gateway_in_use(rows: &Rows, caller: &Caller, router: &RouterRow) -> Result<(), Refusal>
    ensures { IsAnswerOf (uses.gateway_in_use rows.now caller.now router.now) result }
{
    let floating = floating_by(rows.floatings().rows(), router.id);
    ensure_unled(
        rows,
        caller,
        UseRule::RouterExternalGatewayInUseByFloatingIp,
        router,
        floating,
    )
}

// The same as `route_in_use` of the port with this id, where it is there.
fn port_route_in_use(
    rows: &Rows,
    caller: &Caller,
    router: &RouterRow,
    routes: &[Hop],
    port: Id,
) -> Result<(), Refusal>
    ensures { IsAnswerOf
        (option_and_then (uses.route_in_use rows.now caller.now router.now routes.now)
        (row_of (λ (p : ThePort). p.id) port rows.now.ports)) result }
{
    match rows.ports().get(port) {
        Some(port) => route_in_use(rows, caller, router, routes, port),
        None => Ok(()),
    }
}

/// Refuses that this gateway of the router goes, by the uses of its port and of the gateway, with
/// the routes as they would stand. Its cost grows as those of `route_in_use` and `gateway_in_use`.
pub fn gateway_use(
    rows: &Rows,
    caller: &Caller,
    router: &RouterRow,
    routes: &[Hop],
    gateway: &Option<Gateway>,
) -> Result<(), Refusal>
    ensures { IsAnswerOf
        (uses.gateway_use rows.now caller.now router.now routes.now gateway.now) result }
{
    let Some(gateway) = gateway else {
        return Ok(());
    };
    port_route_in_use(rows, caller, router, routes, gateway.port)?;
    gateway_in_use(rows, caller, router)
}
