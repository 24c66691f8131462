//! Clause 9: the ports of routers.

ghost use Rattle.std.specs.Prelude.{◌≡◌, ◌&&◌, true};
ghost use Rattle.std.specs.List.{list_all, list_any};
ghost use Rattle.api_types.specs.Owners as owners;
ghost use Rattle.api_types.specs.Consistent.Services as services;
ghost use Rattle.api_consistency.specs.Keys as keys;

use crate::looked::device_id;
use api_types::{Gateway, Id, PortRow, RouterRow, Rows, Shared};

#[tactic(auto, using(crate::proofs::FoundLemmas::found_any))]
fn is_of_its(rows: &Rows, port: &PortRow, router: Id) -> bool
    ensures { result ≡ true
        → list_any (λ r. owners.is_port_of r port.now) rows.now.routers ≡ true }
{
    match rows.routers().get(router) {
        Some(router) => port.is_of(router),
        None => false,
    }
}

fn is_of_named(rows: &Rows, port: &PortRow) -> bool
    ensures { result ≡ true
        → list_any (λ r. owners.is_port_of r port.now) rows.now.routers ≡ true }
{
    match device_id(port) {
        Some(router) => is_of_its(rows, port, router),
        None => false,
    }
}

fn is_of_any(routers: &[Shared<RouterRow>], port: &PortRow) -> bool
    ensures { result ≡ list_any (λ r. owners.is_port_of r port.now) routers.now }
{
    routers.iter().any(|router| port.is_of(router))
}

#[tactic(auto, using(crate::proofs::FoundLemmas::first_or))]
fn is_of_router(rows: &Rows, port: &PortRow) -> bool
    ensures { result ≡ list_any (λ r. owners.is_port_of r port.now) rows.now.routers }
{
    is_of_named(rows, port) || is_of_any(rows.routers().rows(), port)
}

// Whether a port is by its `device_id` a router's, whose gateway names it.
fn is_its_gateway(port: &PortRow, router: &RouterRow) -> bool
    ensures { result ≡ keys.is_its_gateway port.now router.now }
{
    let named = match router.gateway {
        Some(gateway) => gateway.port == port.id,
        None => false,
    };
    named && port.has_device(router.id)
}

#[tactic(auto, using(crate::proofs::FoundLemmas::found_any))]
fn is_gateway_of(rows: &Rows, port: &PortRow, router: Id) -> bool
    ensures { result ≡ true → list_any (keys.is_its_gateway port.now) rows.now.routers ≡ true }
{
    match rows.routers().get(router) {
        Some(router) => is_its_gateway(port, router),
        None => false,
    }
}

fn is_named_gateway(rows: &Rows, port: &PortRow) -> bool
    ensures { result ≡ true → list_any (keys.is_its_gateway port.now) rows.now.routers ≡ true }
{
    match device_id(port) {
        Some(router) => is_gateway_of(rows, port, router),
        None => false,
    }
}

fn is_any_gateway(routers: &[Shared<RouterRow>], port: &PortRow) -> bool
    ensures { result ≡ list_any (keys.is_its_gateway port.now) routers.now }
{
    routers.iter().any(|router| is_its_gateway(port, router))
}

#[tactic(auto, using(crate::proofs::FoundLemmas::first_or))]
fn is_its_routers_gateway(rows: &Rows, port: &PortRow) -> bool
    ensures { result ≡ list_any (keys.is_its_gateway port.now) rows.now.routers }
{
    is_named_gateway(rows, port) || is_any_gateway(rows.routers().rows(), port)
}

fn serves_router(rows: &Rows, port: &PortRow) -> bool
    ensures { result ≡ keys.serves_router rows.now.routers port.now }
{
    !port.is_router_port()
        || ((is_of_router(rows, port) && !port.secured)
            && ((!port.is_interface() || port.fixed.len() == 1)
                && (!port.is_gateway()
                    || (!port.fixed.is_empty() && is_its_routers_gateway(rows, port)))))
}

fn serve_routers(rows: &Rows) -> bool
    ensures { result ≡ list_all (keys.serves_router rows.now.routers) rows.now.ports }
{
    rows.ports()
        .rows()
        .iter()
        .all(|port| serves_router(rows, port))
}

fn is_gateway_port(router: &RouterRow, gateway: &Gateway, port: &PortRow) -> bool
    ensures { result ≡ services.is_named_gateway router.now gateway.now port.now }
{
    (port.is_gateway() && port.has_device(router.id))
        && (gateway.network == port.network && gateway.port == port.id)
}

#[tactic(auto, using(crate::proofs::FoundLemmas::found_any))]
fn names_known_gateway(rows: &Rows, router: &RouterRow, gateway: &Gateway) -> bool
    ensures { result ≡ true
        → list_any (services.is_named_gateway router.now gateway.now) rows.now.ports ≡ true }
{
    match rows.ports().get(gateway.port) {
        Some(port) => is_gateway_port(router, gateway, port),
        None => false,
    }
}

fn names_any_gateway(ports: &[Shared<PortRow>], router: &RouterRow, gateway: &Gateway) -> bool
    ensures { result ≡ list_any (services.is_named_gateway router.now gateway.now) ports.now }
{
    ports
        .iter()
        .any(|port| is_gateway_port(router, gateway, port))
}

#[tactic(auto, using(crate::proofs::FoundLemmas::first_or))]
fn names_gateway(rows: &Rows, router: &RouterRow, gateway: &Gateway) -> bool
    ensures { result ≡ list_any (services.is_named_gateway router.now gateway.now) rows.now.ports }
{
    names_known_gateway(rows, router, gateway)
        || names_any_gateway(rows.ports().rows(), router, gateway)
}

fn has_gateway(rows: &Rows, router: &RouterRow) -> bool
    ensures { result ≡ keys.has_gateway rows.now.ports router.now }
{
    match &router.gateway {
        Some(gateway) => names_gateway(rows, router, gateway),
        None => true,
    }
}

fn have_gateways(rows: &Rows) -> bool
    ensures { result ≡ list_all (keys.has_gateway rows.now.ports) rows.now.routers }
{
    rows.routers()
        .rows()
        .iter()
        .all(|router| has_gateway(rows, router))
}

/// Whether routers' ports by their owner name a router that is there and have the addresses that
/// they should, gateway ports are those that their routers name, and each router with a gateway has
/// the port that it names. Its cost grows with the ports and the routers.
pub(crate) fn are_router_ports(rows: &Rows) -> bool
    ensures { result
        ≡ (list_all (keys.serves_router rows.now.routers) rows.now.ports
        && list_all (keys.has_gateway rows.now.ports) rows.now.routers) }
{
    serve_routers(rows) && have_gateways(rows)
}
