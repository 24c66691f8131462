//! Removing an interface from a router. Its port goes.

ghost use Rattle.std.specs.Prelude.{◌≡◌, IfErr, IfOk, Option, true};
ghost use Rattle.api_policy.specs.Checks.{IsAnswerOf};
ghost use Rattle.api_policy.specs.Permits as permits;
ghost use Rattle.api_types.specs.Printed.{InterfaceRow, shown_row};
ghost use Rattle.api_types.specs.declared.call.InterfaceBy.TheVariants.{Port as ByPort, Subnet as BySubnet};
ghost use Rattle.call_parts.specs.Answers.{IsOrMemory, IsRefusalOf, Leads};
ghost use Rattle.call_parts.specs.Edits.{made};
ghost use Rattle.plan_routers.specs.InterfaceCalls.{interface_gone, interface_removed, port_removed, removal_refusal, removed_by};
ghost use Rattle.plan_routers.specs.InterfaceCalls as interface_calls;
ghost use Rattle.plan_routers.specs.Plans.{use_refusal};

use crate::adding::port_shown;
use crate::finding::{find_port, find_router, find_subnet};
use crate::shown::PlannedInterface;
use api_policy::{ensure_version_left, floating_in_use, network_owner, owner_only, route_in_use};
use api_router::{interface_in, interface_with};
use api_types::{Id, IdText, InterfaceBy, PortRow, Refusal, RouterRow, Rows};
use call_parts::{Asking, Draft, disassociate};
use net_addr::{OutOfMemory, Text};
use std::alloc::Global;

fn no_such(alloc: Global, id: Id) -> Result<Refusal, OutOfMemory>
    ensures { IfOk result (λ r. r ≡ interface_calls.no_interface id) }
{
    Ok(Refusal::NotFound {
        kind: Text::of(alloc, "RouterInterface")?,
        text: id.print(alloc)?,
    })
}

// The refusal for want of the router's interface by this subnet or port.
fn no_interface(alloc: Global, id: Id) -> Refusal
    ensures { IsOrMemory (interface_calls.no_interface id) result }
{
    match no_such(alloc, id) {
        Ok(refusal) => refusal,
        Err(_) => Refusal::OutOfMemory,
    }
}

// Refuses that the interface goes, where a route or a floating address needs it.
fn ensure_unneeded(asking: &Asking<'_>, router: &RouterRow, port: &PortRow) -> Result<(), Refusal>
    ensures { IsAnswerOf (use_refusal asking.now.state asking.now.caller router.now port.now)
        result }
{
    let (rows, caller) = (asking.rows(), asking.caller());
    route_in_use(rows, caller, router, router.routes.as_slice(), port)?;
    floating_in_use(rows, caller, router, port)?;
    ensure_version_left(asking.version())
}

// Refuses that the interface goes, which is named by a subnet of this network.
fn ensure_removable_by_subnet(
    asking: &Asking<'_>,
    router: &RouterRow,
    port: &PortRow,
    network: Id,
) -> Result<(), Refusal>
    ensures { IsAnswerOf
        (removal_refusal asking.now.state asking.now.caller router.now port.now
        (permits.network_owner asking.now.state.rows asking.now.caller true network)) result }
{
    owner_only(asking.caller(), &router.project)?;
    network_owner(asking.rows(), asking.caller(), true, network)?;
    ensure_unneeded(asking, router, port)
}

// Refuses that the interface goes, which is named by a port of this project.
fn ensure_removable_by_port(
    asking: &Asking<'_>,
    router: &RouterRow,
    port: &PortRow,
    project: &Text,
) -> Result<(), Refusal>
    ensures { IsAnswerOf
        (removal_refusal asking.now.state asking.now.caller router.now port.now
        (permits.owner_only asking.now.caller project.now)) result }
{
    owner_only(asking.caller(), &router.project)?;
    owner_only(asking.caller(), project)?;
    ensure_unneeded(asking, router, port)
}

// The rows without the port, of which floating addresses lose their target.
fn without_port(alloc: Global, rows: &Rows, port: &PortRow) -> Result<Draft, OutOfMemory>
    ensures start { IfOk result (λ d. d.start ≡ rows.now) }
    ensures rows { IfOk result
        (λ d. d.rows ≡ made rows.now (interface_gone rows.now.floatings port.now)) }
{
    let draft = Draft::begin(alloc, rows)?;
    let draft = disassociate(alloc, draft, port.id, &[])?;
    draft.drop_row::<PortRow>(alloc, port.id)
}

// The rows without the interface, and what is shown of it.
fn take_off(
    alloc: Global,
    rows: &Rows,
    router: &RouterRow,
    port: &PortRow,
) -> Result<PlannedInterface, OutOfMemory>
    ensures start { IfOk result (λ p. p.draft.start ≡ rows.now) }
    ensures rows { IfOk result
        (λ p. p.draft.rows ≡ made rows.now (interface_gone rows.now.floatings port.now)) }
    ensures shown { IfOk result
        (λ p. shown_row p.shown
        ≡ interface_calls.interface_shown router.now port.now
        (interface_calls.first_subnet port.now.fixed)) }
{
    Ok(PlannedInterface {
        draft: without_port(alloc, rows, port)?,
        shown: port_shown(alloc, router, port)?,
    })
}

// Where removing the interface leads, by a subnet of this network.
fn remove_on_network(
    alloc: Global,
    asking: &Asking<'_>,
    router: &RouterRow,
    port: &PortRow,
    network: Id,
) -> Result<PlannedInterface, Refusal>
    ensures ok { IfOk result
        (λ p. Leads asking.now.state.rows
        (port_removed asking.now.state asking.now.caller router.now
        (permits.network_owner asking.now.state.rows asking.now.caller true network) port.now)
        p.draft (λ after. InterfaceRow (shown_row p.shown))) }
    ensures err { IfErr result
        (IsRefusalOf
        (port_removed asking.now.state asking.now.caller router.now
        (permits.network_owner asking.now.state.rows asking.now.caller true network) port.now)) }
{
    ensure_removable_by_subnet(asking, router, port, network)?;
    Ok(take_off(alloc, asking.rows(), router, port)?)
}

// Where removing the interface leads, by a port of this project.
fn remove_of_project(
    alloc: Global,
    asking: &Asking<'_>,
    router: &RouterRow,
    port: &PortRow,
    project: &Text,
) -> Result<PlannedInterface, Refusal>
    ensures ok { IfOk result
        (λ p. Leads asking.now.state.rows
        (port_removed asking.now.state asking.now.caller router.now
        (permits.owner_only asking.now.caller project.now) port.now) p.draft
        (λ after. InterfaceRow (shown_row p.shown))) }
    ensures err { IfErr result
        (IsRefusalOf
        (port_removed asking.now.state asking.now.caller router.now
        (permits.owner_only asking.now.caller project.now) port.now)) }
{
    ensure_removable_by_port(asking, router, port, project)?;
    Ok(take_off(alloc, asking.rows(), router, port)?)
}

// Where removing an interface leads by a subnet that a body names.
fn remove_by_subnet(
    alloc: Global,
    asking: &Asking<'_>,
    router: &RouterRow,
    id: Id,
) -> Result<PlannedInterface, Refusal>
    ensures ok { IfOk result
        (λ p. Leads asking.now.state.rows
        (removed_by asking.now.state asking.now.caller router.now (BySubnet id)) p.draft
        (λ after. InterfaceRow (shown_row p.shown))) }
    ensures err { IfErr result
        (IsRefusalOf
        (removed_by asking.now.state asking.now.caller router.now (BySubnet id))) }
{
    let subnet = find_subnet(alloc, asking, id)?;
    let Some(port) = interface_in(asking.rows().ports().rows(), router, id) else {
        return Err(no_interface(alloc, id));
    };
    remove_on_network(alloc, asking, router, port, subnet.network)
}

// Where removing an interface leads by a port that a body names.
fn remove_by_port(
    alloc: Global,
    asking: &Asking<'_>,
    router: &RouterRow,
    id: Id,
) -> Result<PlannedInterface, Refusal>
    ensures ok { IfOk result
        (λ p. Leads asking.now.state.rows
        (removed_by asking.now.state asking.now.caller router.now (ByPort id)) p.draft
        (λ after. InterfaceRow (shown_row p.shown))) }
    ensures err { IfErr result
        (IsRefusalOf (removed_by asking.now.state asking.now.caller router.now (ByPort id))) }
{
    let named = find_port(alloc, asking, id)?;
    let Some(port) = interface_with(asking.rows().ports().rows(), router, id) else {
        return Err(no_interface(alloc, id));
    };
    remove_of_project(alloc, asking, router, port, &named.project)
}

fn remove_from_router(
    alloc: Global,
    asking: &Asking<'_>,
    router: &RouterRow,
    by: &InterfaceBy,
) -> Result<PlannedInterface, Refusal>
    ensures ok { IfOk result
        (λ p. Leads asking.now.state.rows
        (removed_by asking.now.state asking.now.caller router.now by.now) p.draft
        (λ after. InterfaceRow (shown_row p.shown))) }
    ensures err { IfErr result
        (IsRefusalOf (removed_by asking.now.state asking.now.caller router.now by.now)) }
{
    match by {
        InterfaceBy::Subnet(id) => remove_by_subnet(alloc, asking, router, *id),
        InterfaceBy::Port(id) => remove_by_port(alloc, asking, router, *id),
    }
}

/// The plan of removing an interface from a router, or why it is refused. Its cost grows with the
/// ports and their addresses, times the router's routes, with the subnets and the floating
/// addresses.
pub fn remove_interface(
    alloc: Global,
    asking: &Asking<'_>,
    name: &IdText,
    by: &InterfaceBy,
) -> Result<PlannedInterface, Refusal>
    ensures ok { IfOk result
        (λ p. Leads asking.now.state.rows
        (interface_removed asking.now.state asking.now.caller name.now by.now) p.draft
        (λ after. InterfaceRow (shown_row p.shown))) }
    ensures err { IfErr result
        (IsRefusalOf
        (interface_removed asking.now.state asking.now.caller name.now by.now)) }
{
    let router = find_router(alloc, asking, name)?;
    remove_from_router(alloc, asking, router, by)
}
