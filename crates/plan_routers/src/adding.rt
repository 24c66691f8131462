//! Adding an interface to a router.

ghost use Rattle.std.specs.Prelude.{◌≡◌, ◌+◌, ◌≤◌, ◌^◌, IfErr, IfOk, None, not, true};
ghost use Rattle.api_policy.specs.Checks.{IsAnswerOf};
ghost use Rattle.api_types.specs.HeldAddresses.{fixed_at, is_address_held};
ghost use Rattle.api_types.specs.Lists.{is_empty};
ghost use Rattle.api_types.specs.Printed.{InterfaceRow, shown_row};
ghost use Rattle.api_types.specs.Refusing.{when};
ghost use Rattle.api_types.specs.Registration.{ident};
ghost use Rattle.api_types.specs.Table.{row_of};
ghost use Rattle.api_types.specs.WithRows.{with_added, with_put};
ghost use Rattle.api_types.specs.declared.call.InterfaceBy.TheVariants.{Port as ByPort, Subnet as BySubnet};
ghost use Rattle.api_types.specs.declared.kind.Row.TheVariants.{Port as PortOf};
ghost use Rattle.api_types.specs.declared.port.PortRow.{PortRow as ThePort};
ghost use Rattle.api_types.specs.declared.refusal.Refusal.TheVariants.{Taken as TakenBy};
ghost use Rattle.api_types.specs.declared.refusal.Value.TheVariants.{Address as AddressValue};
ghost use Rattle.call_parts.specs.Answers.{IsRefusalOf, Leads, Passes};
ghost use Rattle.plan_routers.specs.InterfaceCalls as calls;
ghost use Rattle.plan_routers.specs.InterfaceCalls.{added_by_port, added_by_subnet, interface_added, interface_by, port_refusal, subnet_refusal};

use crate::drawing::draw_new;
use crate::finding::{find_port, find_router, find_subnet};
use crate::rules::{ensure_port_fits, ensure_subnet_fits};
use crate::service::{Leg, interface_port, taken_port};
use crate::shown::{PlannedInterface, interface_shown};
use api_ipam::choose_mac;
use api_policy::{ensure_version_left, network_owner, owner_only, port_in_use};
use api_types::{
    Caller, Fixed, Id, IdText, InterfaceBy, Kind, NetworkRow, PortRow, Refusal, RouterRow, Rows,
    Shared, Shown, SubnetRow, Value,
};
use call_parts::{Asking, Draft, Drawn, invalid, none_with_id};
use net_addr::{Addr, Mac, OutOfMemory};
use std::alloc::Global;

fn is_held(ports: &[Shared<PortRow>], network: Id, address: &Addr) -> bool
    ensures { result ≡ is_address_held ports.now network address.now }
{
    ports
        .iter()
        .any(|port| network == port.network && port.holds(address))
}

fn ensure_address_free(rows: &Rows, network: Id, address: &Addr) -> Result<(), Refusal>
    ensures { IsAnswerOf
        (when (is_address_held rows.now.ports network address.now)
        (TakenBy (AddressValue address.now) network)) result }
{
    if is_held(rows.ports().rows(), network, address) {
        let value = Value::Address(*address);
        return Err(Refusal::Taken { value, network });
    }
    Ok(())
}

// Refuses an interface on the subnet, with its gateway's address.
fn ensure_addable_by_subnet(
    alloc: Global,
    rows: &Rows,
    caller: &Caller,
    router: &RouterRow,
    subnet: &SubnetRow,
    gateway: &Addr,
) -> Result<(), Refusal>
    ensures { Passes (subnet_refusal rows.now caller.now router.now subnet.now gateway.now) result }
{
    ensure_subnet_fits(alloc, rows, router, subnet)?;
    owner_only(caller, &router.project)?;
    network_owner(rows, caller, true, subnet.network)?;
    ensure_address_free(rows, subnet.network, gateway)
}

// The draft with the new interface, which has the id that was drawn, and what is shown of it.
fn add_port(
    alloc: Global,
    asking: &Asking<'_>,
    drawn: Drawn,
    router: &RouterRow,
    network: &NetworkRow,
    mac: Mac,
    fixed: Fixed,
) -> Result<PlannedInterface, OutOfMemory>
    requires within { drawn.first + 1 ≤ 2 ^ 62 }
    requires new { row_of (λ (p : ThePort). p.id) (ident drawn.ordinal (drawn.first + 0))
        drawn.draft.rows.ports ≡ None }
    ensures start { IfOk result (λ p. p.draft.start ≡ drawn.draft.start) }
    ensures rows { IfOk result
        (λ p. p.draft.rows
        ≡ with_added drawn.draft.rows
        (PortOf
        (calls.interface_port asking.now.settings drawn.draft.rows asking.now.caller router.now
        network.now (ident drawn.ordinal (drawn.first + 0)) mac fixed))) }
    ensures shown { IfOk result
        (λ p. shown_row p.shown
        ≡ calls.interface_shown router.now
        (calls.interface_port asking.now.settings drawn.draft.rows asking.now.caller router.now
        network.now (ident drawn.ordinal (drawn.first + 0)) mac fixed) fixed.subnet) }
{
    let subnet = fixed.subnet;
    let id = drawn.id(0);
    let settled = drawn.draft.settle(alloc)?;
    let leg = Leg { id, mac, fixed };
    let port = interface_port(alloc, asking, settled.rows(), router, network, &leg)?;
    let shown = interface_shown(alloc, router, &port, subnet)?;
    Ok(PlannedInterface {
        draft: settled.add(alloc, port)?,
        shown,
    })
}

// Where adding an interface leads on a subnet with this gateway.
fn add_on_network(
    alloc: Global,
    asking: &Asking<'_>,
    router: &RouterRow,
    subnet: &SubnetRow,
    network: &NetworkRow,
    gateway: &Addr,
) -> Result<PlannedInterface, Refusal>
    requires { not (is_empty router.now.project) ≡ true }
    ensures ok { IfOk result
        (λ p. Leads asking.now.state.rows
        (added_by_subnet asking.now.settings asking.now.state asking.now.caller router.now
        subnet.now network.now gateway.now) p.draft
        (λ after. InterfaceRow (shown_row p.shown))) }
    ensures err { IfErr result
        (IsRefusalOf
        (added_by_subnet asking.now.settings asking.now.state asking.now.caller router.now
        subnet.now network.now gateway.now)) }
{
    let rows = asking.rows();
    ensure_addable_by_subnet(alloc, rows, asking.caller(), router, subnet, gateway)?;
    let Some(mac) = choose_mac(rows.ports().rows(), network.id) else {
        return Err(Refusal::CountersSpent);
    };
    let drawn = draw_new(alloc, asking, &router.project, 1)?;
    let fixed = Fixed {
        subnet: subnet.id,
        address: *gateway,
    };
    Ok(add_port(alloc, asking, drawn, router, network, mac, fixed)?)
}

// Where adding an interface leads on a subnet that a body names.
fn add_by_subnet(
    alloc: Global,
    asking: &Asking<'_>,
    router: &RouterRow,
    id: Id,
) -> Result<PlannedInterface, Refusal>
    requires { not (is_empty router.now.project) ≡ true }
    ensures ok { IfOk result
        (λ p. Leads asking.now.state.rows
        (interface_by asking.now.settings asking.now.state asking.now.caller router.now
        (BySubnet id)) p.draft (λ after. InterfaceRow (shown_row p.shown))) }
    ensures err { IfErr result
        (IsRefusalOf
        (interface_by asking.now.settings asking.now.state asking.now.caller router.now
        (BySubnet id))) }
{
    let subnet = find_subnet(alloc, asking, id)?;
    let Some(gateway) = &subnet.gateway else {
        return Err(invalid(alloc, "subnet_id"));
    };
    let Some(network) = asking.rows().networks().get(subnet.network) else {
        return Err(none_with_id(alloc, Kind::Subnet, Some(id)));
    };
    add_on_network(alloc, asking, router, subnet, network, gateway)
}

// Refuses the port as an interface of the router.
fn ensure_addable_by_port(
    alloc: Global,
    asking: &Asking<'_>,
    router: &RouterRow,
    port: &PortRow,
) -> Result<(), Refusal>
    ensures { Passes (port_refusal asking.now.state asking.now.caller router.now port.now) result }
{
    let (rows, caller) = (asking.rows(), asking.caller());
    ensure_port_fits(alloc, rows, router, port)?;
    owner_only(caller, &router.project)?;
    owner_only(caller, &port.project)?;
    port_in_use(rows, caller, router, port)?;
    ensure_version_left(asking.version())
}

// The subnet of the first address; an id that no row has, where there is none.
fn first_subnet(fixed: &[Fixed]) -> Id
    ensures { result ≡ calls.first_subnet fixed.now }
{
    match fixed {
        [first, ..] => first.subnet,
        [] => Id::make(0, 0),
    }
}

// What is shown of the router's interface, by the subnet of its first address.
pub(crate) fn port_shown(
    alloc: Global,
    router: &RouterRow,
    port: &PortRow,
) -> Result<Shown, OutOfMemory>
    ensures { IfOk result
        (λ s. shown_row s
        ≡ calls.interface_shown router.now port.now (calls.first_subnet port.now.fixed)) }
{
    interface_shown(alloc, router, port, first_subnet(port.fixed.as_slice()))
}

// The rows in which the port is the router's, and what is shown of it.
fn take_over(
    alloc: Global,
    asking: &Asking<'_>,
    router: &RouterRow,
    network: &NetworkRow,
    port: &PortRow,
) -> Result<PlannedInterface, OutOfMemory>
    ensures start { IfOk result (λ p. p.draft.start ≡ asking.now.state.rows) }
    ensures rows { IfOk result
        (λ p. p.draft.rows
        ≡ with_put asking.now.state.rows
        (PortOf (calls.taken_over asking.now.settings router.now network.now port.now))) }
    ensures shown { IfOk result
        (λ p. shown_row p.shown
        ≡ calls.interface_shown router.now port.now (calls.first_subnet port.now.fixed)) }
{
    let taken = taken_port(alloc, asking, router, network, port)?;
    Ok(PlannedInterface {
        draft: Draft::begin(alloc, asking.rows())?.put(alloc, taken)?,
        shown: port_shown(alloc, router, port)?,
    })
}

// Where adding an interface leads by a port that is found.
fn add_port_found(
    alloc: Global,
    asking: &Asking<'_>,
    router: &RouterRow,
    port: &PortRow,
    network: &NetworkRow,
) -> Result<PlannedInterface, Refusal>
    ensures ok { IfOk result
        (λ p. Leads asking.now.state.rows
        (added_by_port asking.now.settings asking.now.state asking.now.caller router.now port.now
        network.now) p.draft (λ after. InterfaceRow (shown_row p.shown))) }
    ensures err { IfErr result
        (IsRefusalOf
        (added_by_port asking.now.settings asking.now.state asking.now.caller router.now port.now
        network.now)) }
{
    ensure_addable_by_port(alloc, asking, router, port)?;
    Ok(take_over(alloc, asking, router, network, port)?)
}

// Where adding an interface leads by a port that a body names.
fn add_by_port(
    alloc: Global,
    asking: &Asking<'_>,
    router: &RouterRow,
    id: Id,
) -> Result<PlannedInterface, Refusal>
    ensures ok { IfOk result
        (λ p. Leads asking.now.state.rows
        (interface_by asking.now.settings asking.now.state asking.now.caller router.now (ByPort id))
        p.draft (λ after. InterfaceRow (shown_row p.shown))) }
    ensures err { IfErr result
        (IsRefusalOf
        (interface_by asking.now.settings asking.now.state asking.now.caller router.now
        (ByPort id))) }
{
    let port = find_port(alloc, asking, id)?;
    let Some(network) = asking.rows().networks().get(port.network) else {
        return Err(none_with_id(alloc, Kind::Port, Some(id)));
    };
    add_port_found(alloc, asking, router, port, network)
}

// Where adding an interface leads to a router that is found.
fn add_to_router(
    alloc: Global,
    asking: &Asking<'_>,
    router: &RouterRow,
    by: &InterfaceBy,
) -> Result<PlannedInterface, Refusal>
    requires { not (is_empty router.now.project) ≡ true }
    ensures ok { IfOk result
        (λ p. Leads asking.now.state.rows
        (interface_by asking.now.settings asking.now.state asking.now.caller router.now by.now)
        p.draft (λ after. InterfaceRow (shown_row p.shown))) }
    ensures err { IfErr result
        (IsRefusalOf
        (interface_by asking.now.settings asking.now.state asking.now.caller router.now by.now)) }
{
    match by {
        InterfaceBy::Subnet(id) => add_by_subnet(alloc, asking, router, *id),
        InterfaceBy::Port(id) => add_by_port(alloc, asking, router, *id),
    }
}

/// The plan of adding an interface to a router, or why it is refused. By a subnet a port is made
/// with the address of the subnet's gateway, by a port that one becomes the router's. Its cost
/// grows with the ports and their addresses, the policies, the projects and the hosts, and with the
/// subnets for each port of the router.
pub fn add_interface(
    alloc: Global,
    asking: &Asking<'_>,
    name: &IdText,
    by: &InterfaceBy,
) -> Result<PlannedInterface, Refusal>
    ensures ok { IfOk result
        (λ p. Leads asking.now.state.rows
        (interface_added asking.now.settings asking.now.state asking.now.caller name.now by.now)
        p.draft (λ after. InterfaceRow (shown_row p.shown))) }
    ensures err { IfErr result
        (IsRefusalOf
        (interface_added asking.now.settings asking.now.state asking.now.caller name.now
        by.now)) }
{
    let router = find_router(alloc, asking, name)?;
    add_to_router(alloc, asking, router, by)
}
