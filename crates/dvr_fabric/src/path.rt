//! What a step adds to the path: a router that sent the packet on, and the network.

ghost use Rattle.std.specs.Prelude.{◌≡◌, [], option_to_list};
ghost use Rattle.dvr_fabric.specs.Found.{view_of_host};
ghost use Rattle.dvr_fabric.specs.Positions.{ids_of};
ghost use Rattle.dvr_fabric.specs.Steps.{ids_after, view_of_copy_step};
ghost use Rattle.host_plane.specs.Views.{view_of_step};
ghost use Rattle.plane_types.specs.Fabric as fabric;
ghost use Rattle.plane_types.specs.Places.{view_of_place};
ghost use Rattle.plane_types.specs.TableStep.{inward_at, tap_at};
ghost use Rattle.plane_types.specs.declared.table.Carrier.TheVariants.{Wire as ByWire};

use crate::fleet::HostAt;
use crate::rule::CopyStep;
use api_types::Id;
use host_plane::Step;
use net_addr::Text;
use plane_types::Place;

/// What a step adds to the path.
#[derive(Clone, Copy)]
pub(crate) struct Passed {
    /// The router that sent the packet on.
    pub(crate) router: Option<Id>,
    /// The network on which it did.
    pub(crate) network: Option<Id>,
}

impl Passed {
    /// Nothing.
    pub(crate) fn none() -> Passed
        ensures { ids_of result ≡ [] }
    {
        Passed {
            router: None,
            network: None,
        }
    }
}

/// The network of a tag.
pub(crate) fn network_at(host: &HostAt<'_>, tag: u16) -> Option<Id>
    ensures { option_to_list result ≡ fabric.path_at (view_of_host host.now).host tag }
{
    match host.tables.tag_row(tag) {
        Some(row) => Some(row.network),
        None => None,
    }
}

/// The network of a tap.
pub(crate) fn network_of_tap(host: &HostAt<'_>, port: Id) -> Option<Id>
    ensures { option_to_list result
        ≡ fabric.at_tap (view_of_host host.now).host (tap_at host.now.tables.now.lists port) }
{
    match host.tables.tap_at(port) {
        Some(tap) => network_at(host, tap.tag),
        None => None,
    }
}

/// The network of what comes by a wire.
pub(crate) fn network_of_wire(host: &HostAt<'_>, physical: &Text, tag: Option<u16>) -> Option<Id>
    ensures { option_to_list result
        ≡ fabric.at_inward (view_of_host host.now).host
        (inward_at host.now.tables.now.lists
        (ByWire (record { physical = physical.now; tag = tag }))) }
{
    match host.tables.inward_wire(physical, tag) {
        Some(row) => network_at(host, row.tag),
        None => None,
    }
}

fn next_network(host: &HostAt<'_>, place: &Place<'_>) -> Option<Id>
    ensures { option_to_list result
        ≡ fabric.next_path (view_of_host host.now).host (view_of_place place.now) }
{
    match place {
        Place::Bridge { tag, .. } => network_at(host, *tag),
        Place::TapIn { .. }
        | Place::TunnelIn { .. }
        | Place::WireIn { .. }
        | Place::RouterIn { .. }
        | Place::DhcpIn { .. }
        | Place::TapOut { .. } => None,
    }
}

// What a router adds by a step: itself and the network of the way out, if it sent the packet on.
fn router_path(host: &HostAt<'_>, router: Id, step: &Step<'_>) -> Passed
    ensures { ids_of result
        ≡ fabric.sent_path (view_of_host host.now).host router (view_of_step step.now) }
{
    match step {
        Step::Next(next) => Passed {
            router: Some(router),
            network: next_network(host, next),
        },
        Step::End(ending) => match ending.way {
            Some(network) => Passed {
                router: Some(router),
                network: Some(network),
            },
            None => Passed::none(),
        },
        Step::ToTunnel { .. } | Step::ToWire { .. } => Passed::none(),
    }
}

/// What a look-up at a place of a host adds to the path.
pub(crate) fn path_added(host: &HostAt<'_>, place: &Place<'_>, step: &Step<'_>) -> Passed
    ensures { ids_of result
        ≡ fabric.step_path (view_of_host host.now).host (view_of_place place.now)
        (view_of_step step.now) }
{
    match place {
        Place::RouterIn { router, .. } => router_path(host, *router, step),
        Place::TapIn { .. }
        | Place::Bridge { .. }
        | Place::TunnelIn { .. }
        | Place::WireIn { .. }
        | Place::DhcpIn { .. }
        | Place::TapOut { .. } => Passed::none(),
    }
}

/// What a copy's step adds: its router and a network, if the router sent the packet on.
pub(crate) fn copy_path(router: Id, step: &CopyStep<'_>) -> Passed
    ensures { ids_of result ≡ ids_after router (view_of_copy_step step.now) }
{
    match step {
        CopyStep::Absorbed { .. } | CopyStep::Dropped { way: None, .. } => Passed::none(),
        CopyStep::Dropped {
            way: Some(network),
            ..
        }
        | CopyStep::Sends { network, .. } => Passed {
            router: Some(router),
            network: Some(*network),
        },
    }
}
