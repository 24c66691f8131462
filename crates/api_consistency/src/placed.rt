//! Clause 8: ports stand on hosts that can carry them, and on their routers' hosts.

ghost use Rattle.std.specs.Prelude.{◌≡◌, true};
ghost use Rattle.std.specs.List.{list_all, list_any};
ghost use Rattle.api_types.specs.Lists.{stands_so};
ghost use Rattle.api_ml2.specs.Carrying as carrying;
ghost use Rattle.api_consistency.specs.Keys as keys;

use crate::looked::device_id;
use api_ml2::carries;
use api_types::{Id, PortRow, RouterRow, Rows, Shared, Vif};
use net_settings::Host;

#[tactic(auto, using(crate::proofs::FoundLemmas::found_so, crate::proofs::FoundLemmas::not_found_so))]
fn is_carried(hosts: &[Host], rows: &Rows, port: &PortRow) -> bool
    ensures { result
        ≡ stands_so (λ n. n.id) port.now.network
        (λ n. carrying.carries hosts.now port.now.host n.segment) rows.now.networks }
{
    let _own_ids = rows.networks().rows();
    match rows.networks().get(port.network) {
        Some(network) => carries(hosts, &port.host, &network.segment),
        None => false,
    }
}

// Whether a port is of a router and on its host.
fn is_with(port: &PortRow, router: &RouterRow) -> bool
    ensures { result ≡ keys.is_with port.now router.now }
{
    let there = match &router.host {
        Some(host) => port.host == *host,
        None => false,
    };
    there && port.is_of(router)
}

#[tactic(auto, using(crate::proofs::FoundLemmas::found_any))]
fn is_with_its(rows: &Rows, port: &PortRow, router: Id) -> bool
    ensures { result ≡ true → list_any (keys.is_with port.now) rows.now.routers ≡ true }
{
    match rows.routers().get(router) {
        Some(router) => is_with(port, router),
        None => false,
    }
}

fn is_with_named(rows: &Rows, port: &PortRow) -> bool
    ensures { result ≡ true → list_any (keys.is_with port.now) rows.now.routers ≡ true }
{
    match device_id(port) {
        Some(router) => is_with_its(rows, port, router),
        None => false,
    }
}

fn is_with_any(routers: &[Shared<RouterRow>], port: &PortRow) -> bool
    ensures { result ≡ list_any (keys.is_with port.now) routers.now }
{
    routers.iter().any(|router| is_with(port, router))
}

#[tactic(auto, using(crate::proofs::FoundLemmas::first_or))]
fn is_with_router(rows: &Rows, port: &PortRow) -> bool
    ensures { result ≡ list_any (keys.is_with port.now) rows.now.routers }
{
    is_with_named(rows, port) || is_with_any(rows.routers().rows(), port)
}

fn is_placed(hosts: &[Host], rows: &Rows, port: &PortRow) -> bool
    ensures { result ≡ keys.is_placed (carrying.carries hosts.now) rows.now port.now }
{
    port.vif != Vif::Ovs
        || (is_carried(hosts, rows, port) && (!port.is_router_port() || is_with_router(rows, port)))
}

/// Whether bound ports stand on hosts that can carry their network, and a router's port on its
/// router's host. Its cost grows with the ports, and for each bound one with the hosts.
pub(crate) fn are_placed(hosts: &[Host], rows: &Rows) -> bool
    ensures { result
        ≡ list_all (keys.is_placed (carrying.carries hosts.now) rows.now) rows.now.ports }
{
    rows.ports()
        .rows()
        .iter()
        .all(|port| is_placed(hosts, rows, port))
}
