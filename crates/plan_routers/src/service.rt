//! The ports of routers.

ghost use Rattle.std.specs.Prelude.{◌≡◌, ◌∷◌, [], IfOk, codes};
ghost use Rattle.api_ml2.specs.Placement.{host_or_none};
ghost use Rattle.api_ml2.specs.ServicePorts as service_ports;
ghost use Rattle.api_types.specs.Ident.{ident_text};
ghost use Rattle.plan_routers.specs.InterfaceCalls as interface_calls;
ghost use Rattle.plan_routers.specs.RouterCalls as router_calls;

use api_ml2::bind;
use api_policy::is_marked;
use api_types::{Fixed, FixedList, Id, NetworkRow, PortRow, RouterRow, Rows};
use call_parts::{Asking, one_fixed};
use net_addr::{Copies, Mac, OutOfMemory, Seq, Text};
use net_settings::Settings;
use std::alloc::Global;

// The id of a new port of a router, its MAC address and its addresses.
#[derive(Drop)]
struct NewPort {
    id: Id,
    mac: Mac,
    fixed: FixedList,
}

/// The id of a new interface, its MAC address and its one address.
#[derive(Drop)]
pub(crate) struct Leg {
    pub id: Id,
    pub mac: Mac,
    pub fixed: Fixed,
}

// The name of the host on which the router stands, or the empty text.
fn host_of(alloc: Global, router: &RouterRow) -> Result<Text, OutOfMemory>
    ensures { IfOk result (λ host. host ≡ host_or_none router.now.host) }
{
    match &router.host {
        Some(host) => host.copy(alloc),
        None => Ok(Text::new(alloc)),
    }
}

// A port of the router, of this project.
fn router_port(
    alloc: Global,
    settings: &Settings,
    router: &RouterRow,
    network: &NetworkRow,
    project: &Text,
    owner: &str,
    new: NewPort,
) -> Result<PortRow, OutOfMemory>
    ensures { IfOk result
        (λ p. p
        ≡ service_ports.service_port settings.now network.now new.id project.now new.mac new.fixed
        owner.now (ident_text router.now.id) (host_or_none router.now.host)) }
{
    let NewPort { id, mac, fixed } = new;
    let host = host_of(alloc, router)?;
    Ok(PortRow {
        id,
        project: project.copy(alloc)?,
        network: network.id,
        name: Text::new(alloc),
        description: Text::new(alloc),
        up: true,
        mac,
        fixed,
        pairs: Seq::new(alloc),
        secured: false,
        groups: Seq::new(alloc),
        device: router.id.print(alloc)?,
        owner: Text::of(alloc, owner)?,
        vif: bind(settings, &network.segment, &host),
        host,
        by_admin: false,
    })
}

/// The router's port on its external network, which has no project. Its cost grows with the hosts.
pub(crate) fn gateway_port(
    alloc: Global,
    asking: &Asking<'_>,
    router: &RouterRow,
    network: &NetworkRow,
    id: Id,
    mac: Mac,
    fixed: FixedList,
) -> Result<PortRow, OutOfMemory>
    ensures { IfOk result
        (λ p. p
        ≡ router_calls.gateway_port asking.now.settings router.now network.now id mac fixed) }
{
    let nobody = Text::new(alloc);
    let new = NewPort { id, mac, fixed };
    router_port(
        alloc,
        asking.settings(),
        router,
        network,
        &nobody,
        "network:router_gateway",
        new,
    )
}

/// A new interface of the router. Its cost grows with the hosts and the policies.
pub(crate) fn interface_port(
    alloc: Global,
    asking: &Asking<'_>,
    rows: &Rows,
    router: &RouterRow,
    network: &NetworkRow,
    leg: &Leg,
) -> Result<PortRow, OutOfMemory>
    ensures { IfOk result
        (λ p. p
        ≡ interface_calls.interface_port asking.now.settings rows.now asking.now.caller router.now
        network.now leg.now.id leg.now.mac leg.now.fixed) }
{
    let new = NewPort {
        id: leg.id,
        mac: leg.mac,
        fixed: one_fixed(alloc, &leg.fixed)?,
    };
    let mut port = router_port(
        alloc,
        asking.settings(),
        router,
        network,
        &router.project,
        "network:router_interface",
        new,
    )?;
    port.by_admin = is_marked(rows, asking.caller(), &router.project, network);
    Ok(port)
}

/// The port as the router's interface. Its cost grows with the hosts.
pub(crate) fn taken_port(
    alloc: Global,
    asking: &Asking<'_>,
    router: &RouterRow,
    network: &NetworkRow,
    port: &PortRow,
) -> Result<PortRow, OutOfMemory>
    ensures { IfOk result
        (λ p. p
        ≡ interface_calls.taken_over asking.now.settings router.now network.now port.now) }
{
    let host = host_of(alloc, router)?;
    Ok(PortRow {
        id: port.id,
        project: port.project.copy(alloc)?,
        network: port.network,
        name: port.name.copy(alloc)?,
        description: port.description.copy(alloc)?,
        up: port.up,
        mac: port.mac,
        fixed: port.fixed.copy(alloc)?,
        pairs: Seq::new(alloc),
        secured: false,
        groups: Seq::new(alloc),
        device: router.id.print(alloc)?,
        owner: Text::of(alloc, "network:router_interface")?,
        vif: bind(asking.settings(), &network.segment, &host),
        host,
        by_admin: port.by_admin,
    })
}
