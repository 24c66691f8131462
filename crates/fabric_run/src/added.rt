//! What a look-up adds to a run: network, router and trail.

ghost use Rattle.std.specs.Prelude.{◌≡◌, ◌++◌, ℕ, map, option_copied, option_to_list};
ghost use Rattle.plane_types.specs.Fabric.{inward_trail, next_path, path_at, place_trail, sent_path, step_path};
ghost use Rattle.plane_types.specs.Places.{view_of_place};
ghost use Rattle.host_plane.specs.Views.{view_of_step};
ghost use Rattle.fabric_run.specs.Views.{view_of_host};

use crate::fleet::HostAt;
use crate::run::Added;
use api_types::Id;
use host_plane::Step;
use plane_types::{InwardRow, Place};

/// The network of a tag.
pub(crate) fn network_at(host: &HostAt<'_>, tag: u16) -> Option<Id>
    ensures { option_to_list result ≡ path_at (view_of_host host.now) tag }
{
    match host.tables.tag_row(tag) {
        Some(row) => Some(row.network),
        None => None,
    }
}

fn next_network(host: &HostAt<'_>, place: &Place<'_>) -> Option<Id>
    ensures { option_to_list result ≡ next_path (view_of_host host.now) (view_of_place place.now) }
{
    match place {
        Place::Bridge { tag, .. } => network_at(host, *tag),
        Place::TapIn { .. }
        | Place::TunnelIn { .. }
        | Place::WireIn { .. }
        | Place::RouterIn { .. }
        | Place::DhcpIn { .. }
        | Place::TapOut { .. } => None,
    }
}

fn inward_tag(host: &HostAt<'_>, found: Option<&InwardRow>) -> Option<u16>
    ensures { map (λ (tag : ℕ). (host.now.name.now, tag)) (option_to_list result)
        ≡ inward_trail (view_of_host host.now) (option_copied found.entry) }
{
    match found {
        Some(row) => Some(row.tag),
        None => None,
    }
}

// The tag under which a frame is at a bridge, or by which a tunnel or wire leads to one.
fn tag_at(host: &HostAt<'_>, place: &Place<'_>) -> Option<u16>
    ensures { map (λ (tag : ℕ). (host.now.name.now, tag)) (option_to_list result)
        ≡ place_trail (view_of_host host.now) (view_of_place place.now) }
{
    match place {
        Place::Bridge { tag, .. } => Some(*tag),
        Place::TunnelIn { number, .. } => inward_tag(host, host.tables.inward_tunnel(*number)),
        Place::WireIn { physical, tag, .. } => inward_tag(
            host,
            host.tables.inward_wire(physical, *tag),
        ),
        Place::TapIn { .. }
        | Place::RouterIn { .. }
        | Place::DhcpIn { .. }
        | Place::TapOut { .. } => None,
    }
}

// What a router adds by a step: itself and the network of the way out, where it sent the packet on.
fn router_path(host: &HostAt<'_>, router: Id, step: &Step<'_>) -> (Option<Id>, Option<Id>)
    ensures { option_to_list result.0 ++ option_to_list result.1
        ≡ sent_path (view_of_host host.now) router (view_of_step step.now) }
{
    match step {
        Step::Next(next) => (Some(router), next_network(host, next)),
        Step::End(ending) => match ending.way {
            Some(network) => (Some(router), Some(network)),
            None => (None, None),
        },
        Step::ToTunnel { .. } | Step::ToWire { .. } => (None, None),
    }
}

fn path_added(host: &HostAt<'_>, place: &Place<'_>, step: &Step<'_>) -> (Option<Id>, Option<Id>)
    ensures { option_to_list result.0 ++ option_to_list result.1
        ≡ step_path (view_of_host host.now) (view_of_place place.now) (view_of_step step.now) }
{
    match place {
        Place::RouterIn { router, .. } => router_path(host, *router, step),
        Place::TapIn { .. }
        | Place::Bridge { .. }
        | Place::TunnelIn { .. }
        | Place::WireIn { .. }
        | Place::DhcpIn { .. }
        | Place::TapOut { .. } => (None, None),
    }
}

/// What a look-up at a place of a host adds.
pub(crate) fn added_by(host: &HostAt<'_>, place: &Place<'_>, step: &Step<'_>) -> Added
    ensures path { option_to_list result.router ++ option_to_list result.network
        ≡ step_path (view_of_host host.now) (view_of_place place.now) (view_of_step step.now) }
    ensures trail { map (λ (tag : ℕ). (host.now.name.now, tag)) (option_to_list result.tag)
        ≡ place_trail (view_of_host host.now) (view_of_place place.now) }
{
    let (router, network) = path_added(host, place, step);
    Added {
        router,
        network,
        tag: tag_at(host, place),
    }
}
