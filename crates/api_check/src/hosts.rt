//! Clause 8: ports stand on hosts that can carry them.

ghost use Rattle.std.specs.Prelude.{◌≡◌, ◌||◌, find, not, option_copied};
ghost use Rattle.std.specs.List.{list_all};
ghost use Rattle.std.specs.Str.{bytes_eq};
ghost use Rattle.api_types.specs.Lists.{stands_so, is_some_so};
ghost use Rattle.api_types.specs.Owners as owners;
ghost use Rattle.api_types.specs.declared.kind.Kind.TheVariants.{Port};
ghost use Rattle.api_check.specs.Broken.{breaks};
ghost use Rattle.api_ml2.specs.Carrying as carrying;
ghost use Rattle.api_check.specs.Placing.{port_placed};

use crate::broken::{Inconsistent, tell};
use api_ml2::carries;
use api_types::{NetworkRow, PortRow, RouterRow, Rows, Shared, Vif};
use net_settings::{Host, Settings};

fn is_carried(hosts: &[Host], networks: &[Shared<NetworkRow>], port: &PortRow) -> bool
    ensures { result
        ≡ stands_so (λ n. n.id) port.now.network
        (λ n. carrying.carries hosts.now port.now.host n.segment) networks.now }
{
    networks.iter().any(|network| {
        port.network == network.id && carries(hosts, &port.host, &network.segment)
    })
}

fn is_on(port: &PortRow, router: &RouterRow) -> bool
    ensures { result
        ≡ not (owners.is_port_of router.now port.now) || is_some_so (bytes_eq port.now.host) router.now.host }
{
    let there = match &router.host {
        Some(host) => port.host == *host,
        None => false,
    };
    !port.is_of(router) || there
}

fn is_with_router(routers: &[Shared<RouterRow>], port: &PortRow) -> bool
    ensures { result
        ≡ list_all (λ r. not (owners.is_port_of r port.now) || is_some_so (bytes_eq port.now.host) r.host)
        routers.now }
{
    routers.iter().all(|router| is_on(port, router))
}

fn is_placed(hosts: &[Host], rows: &Rows, port: &PortRow) -> bool
    ensures { result ≡ port_placed (carrying.carries hosts.now) rows.now port.now }
{
    port.vif != Vif::Ovs
        || (is_carried(hosts, rows.networks().rows(), port)
            && is_with_router(rows.routers().rows(), port))
}

fn find_misplaced<'r>(
    hosts: &[Host],
    rows: &Rows,
    ports: &'r [Shared<PortRow>],
) -> Option<&'r Shared<PortRow>>
    ensures { option_copied result
        ≡ find (λ r. not (port_placed (carrying.carries hosts.now) rows.now r)) ports.now }
{
    ports.iter().find(|port| !is_placed(hosts, rows, port))
}

#[tactic(auto, unfolding(crate::specs::Broken::breaks))]
fn broken_port(hosts: &[Host], rows: &Rows) -> Option<Inconsistent>
    ensures { result
        ≡ breaks 8 Port (λ r. r.id) (port_placed (carrying.carries hosts.now) rows.now)
        rows.now.ports }
{
    tell(8, find_misplaced(hosts, rows, rows.ports().rows()))
}

/// Ports that are bound to hosts that can't carry them, or to another host than their router.
pub(crate) fn broken_placing(settings: &Settings, rows: &Rows) -> Option<Inconsistent>
    ensures { result
        ≡ breaks 8 Port (λ r. r.id) (port_placed (carrying.carries settings.now.hosts) rows.now)
        rows.now.ports }
{
    broken_port(settings.hosts(), rows)
}
