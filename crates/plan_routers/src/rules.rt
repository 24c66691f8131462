//! The rules of a router's attributes that speak of rows.

ghost use Rattle.std.specs.Prelude.{◌≡◌, [], Some, option_and_then};
ghost use Rattle.std.specs.List.{list_any};
ghost use Rattle.api_policy.specs.Seen as seen;
ghost use Rattle.api_types.specs.Given.{value_or};
ghost use Rattle.api_types.specs.RouterWays.{interfaces_of, is_bad_hop, router_ports};
ghost use Rattle.api_types.specs.declared.kind.Kind.TheVariants.{Network as NetworkKind};
ghost use Rattle.call_parts.specs.Answers.{Passes};
ghost use Rattle.call_parts.specs.BodyNames.{unless_found};
ghost use Rattle.plan_routers.specs.RouterCalls.{bad_first_gateway};
ghost use Rattle.plan_routers.specs.RouterCalls as router_calls;
ghost use Rattle.api_router.specs.RouterRules.{bad_gateway, bad_interface_port, bad_interface_subnet, bad_routes};

use crate::gateways::{gateway_name, gateway_network};
use api_policy::network_seen;
use api_router::{has_bad_hop, is_bad_leg, overlaps_interface, overlaps_leg};
use api_types::{
    Caller, Given, Id, Kind, NetworkRow, PortRow, Refusal, RouterForm, RouterRow, Routes, Rows,
    SubnetRow,
};
use call_parts::{invalid, is_for_other, none_with_id};
use net_addr::Text;
use std::alloc::Global;

// Refuses a network that isn't external to the project, as the gateway's of a router without
// interfaces.
fn ensure_external(
    alloc: Global,
    rows: &Rows,
    project: &Text,
    network: &NetworkRow,
) -> Result<(), Refusal>
    ensures { Passes (bad_gateway rows.now project.now [] network.now) result }
{
    if !rows.is_external_to(network.id, project) {
        return Err(invalid(alloc, "external_gateway_info"));
    }
    Ok(())
}

// The same of the network that the body names, where the caller sees it.
fn ensure_named_external(
    alloc: Global,
    rows: &Rows,
    caller: &Caller,
    form: &RouterForm,
    owner: &Text,
) -> Result<(), Refusal>
    ensures { Passes
        (option_and_then (bad_gateway rows.now owner.now [])
        (router_calls.gateway_network rows.now caller.now form.now)) result }
{
    match gateway_network(rows, caller, form) {
        Some(network) => ensure_external(alloc, rows, owner, network),
        None => Ok(()),
    }
}

/// Refuses the gateway of a new router on a network that isn't external to its project; a caller
/// who may not name the project isn't told. Its cost grows with the policies.
pub(crate) fn ensure_first_gateway_external(
    alloc: Global,
    rows: &Rows,
    caller: &Caller,
    form: &RouterForm,
    owner: &Text,
) -> Result<(), Refusal>
    ensures { Passes (bad_first_gateway rows.now caller.now form.now owner.now) result }
{
    if !caller.admin && is_for_other(caller, &form.project_id, &form.tenant_id) {
        return Ok(());
    }
    ensure_named_external(alloc, rows, caller, form, owner)
}

// Refuses a gateway of the router on the network.
fn ensure_gateway_fits(
    alloc: Global,
    rows: &Rows,
    router: &RouterRow,
    network: &NetworkRow,
) -> Result<(), Refusal>
    ensures { Passes
        (bad_gateway rows.now router.now.project (interfaces_of rows.now.ports router.now)
        network.now) result }
{
    let is_external = rows.is_external_to(network.id, &router.project);
    if !is_external || overlaps_interface(rows, router, network) {
        return Err(invalid(alloc, "external_gateway_info"));
    }
    Ok(())
}

/// Refuses the gateway that a body asks for, on a network that isn't external to the router's
/// project or has a subnet that overlaps one of its interfaces. Its cost grows with the policies
/// and the ports, and for each interface with the subnets, times those of the network.
pub(crate) fn ensure_named_gateway_fits(
    alloc: Global,
    rows: &Rows,
    caller: &Caller,
    form: &RouterForm,
    router: &RouterRow,
) -> Result<(), Refusal>
    ensures { Passes
        (option_and_then
        (bad_gateway rows.now router.now.project (interfaces_of rows.now.ports router.now))
        (router_calls.gateway_network rows.now caller.now form.now)) result }
{
    match gateway_network(rows, caller, form) {
        Some(network) => ensure_gateway_fits(alloc, rows, router, network),
        None => Ok(()),
    }
}

fn given_bad_hop(rows: &Rows, router: &RouterRow, given: &Given<Routes>) -> bool
    ensures { result
        ≡ list_any (is_bad_hop rows.now.subnets (router_ports rows.now.ports router.now))
        (value_or [] given.now) }
{
    match given {
        Given::Is(routes) => has_bad_hop(rows, router, routes.as_slice()),
        _ => false,
    }
}

/// Refuses routes of which a next hop lies in no subnet of the router's ports, or is one of their
/// addresses. Its cost grows with the routes, times the ports.
pub(crate) fn ensure_routes_reachable(
    alloc: Global,
    rows: &Rows,
    router: &RouterRow,
    given: &Given<Routes>,
) -> Result<(), Refusal>
    ensures { Passes (bad_routes rows.now router.now given.now) result }
{
    if given_bad_hop(rows, router, given) {
        return Err(invalid(alloc, "routes"));
    }
    Ok(())
}

fn ensure_seen(alloc: Global, rows: &Rows, caller: &Caller, id: Id) -> Result<(), Refusal>
    ensures { Passes
        (unless_found NetworkKind (Some id) (seen.network_seen rows.now caller.now (Some id)))
        result }
{
    match network_seen(rows, caller, Some(id)) {
        Some(_) => Ok(()),
        None => Err(none_with_id(alloc, Kind::Network, Some(id))),
    }
}

/// Refuses a gateway's network that isn't there or isn't seen. Its cost grows with the policies.
pub(crate) fn ensure_network_found(
    alloc: Global,
    rows: &Rows,
    caller: &Caller,
    form: &RouterForm,
) -> Result<(), Refusal>
    ensures { Passes
        (unless_found NetworkKind (router_calls.gateway_name form.now)
        (router_calls.gateway_network rows.now caller.now form.now)) result }
{
    match gateway_name(form) {
        Some(id) => ensure_seen(alloc, rows, caller, id),
        None => Ok(()),
    }
}

/// Refuses an interface on a subnet that overlaps one of the router's ports. Its cost grows with
/// the ports, and for each port of the router with the subnets.
pub(crate) fn ensure_subnet_fits(
    alloc: Global,
    rows: &Rows,
    router: &RouterRow,
    subnet: &SubnetRow,
) -> Result<(), Refusal>
    ensures { Passes (bad_interface_subnet rows.now router.now subnet.now) result }
{
    if overlaps_leg(rows, router, subnet) {
        return Err(invalid(alloc, "subnet_id"));
    }
    Ok(())
}

/// Refuses a port as an interface that hasn't exactly one address, or whose subnet overlaps one of
/// the router's ports. Its cost grows with the subnets and the ports.
pub(crate) fn ensure_port_fits(
    alloc: Global,
    rows: &Rows,
    router: &RouterRow,
    port: &PortRow,
) -> Result<(), Refusal>
    ensures { Passes (bad_interface_port rows.now router.now port.now) result }
{
    if is_bad_leg(rows, router, port) {
        return Err(invalid(alloc, "port_id"));
    }
    Ok(())
}
