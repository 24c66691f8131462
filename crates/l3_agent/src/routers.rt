//! The table `routers`: the routers here.

ghost use Rattle.std.specs.Prelude.{◌≡◌, IfOk};
ghost use Rattle.api_types.specs.RouterRows.{has_snat as snat_of};
ghost use Rattle.plane_types.specs.TableRows.{is_on_host, router_row as router_row_of, router_rows as router_rows_of};

use crate::ports::router_ports;
use api_types::{Gateway, RouterRow};
use net_addr::{OutOfMemory, Seq, Text};
use plane_rows::{Legs, gateway_address};
use plane_types::{RouterTable, TagMap};
use std::alloc::Global;

/// Whether a router stands on the host.
pub(crate) fn is_hosted(host: &Text, router: &RouterRow) -> bool
    ensures { result ≡ is_on_host host.now router.now }
{
    match &router.host {
        Some(at) => *at == *host,
        None => false,
    }
}

fn has_snat(gateway: Option<Gateway>) -> bool
    ensures { result ≡ snat_of gateway }
{
    match gateway {
        Some(gateway) => gateway.snat,
        None => false,
    }
}

fn router_row(
    alloc: Global,
    legs: &Legs,
    tags: &TagMap,
    router: &RouterRow,
) -> Result<RouterTable, OutOfMemory>
    ensures { IfOk result (λ t. t ≡ router_row_of legs.now tags.now router.now) }
{
    Ok(RouterTable {
        router: router.id,
        up: router.up,
        snat: has_snat(router.gateway),
        gateway: gateway_address(legs.rows(), router),
        ports: router_ports(alloc, legs, tags, router)?,
    })
}

/// A row for each router of the host. Its cost grows with the routers, and for each of the host's
/// with its ports and their addresses.
#[tactic(auto, unfolding(plane_types::specs::TableRows::router_rows))]
pub(crate) fn router_rows(
    alloc: Global,
    legs: &Legs,
    host: &Text,
    tags: &TagMap,
) -> Result<Seq<RouterTable>, OutOfMemory>
    ensures { IfOk result (λ r. r ≡ router_rows_of legs.now host.now tags.now) }
{
    let mut routers = Seq::new(alloc);
    for router in legs.rows().routers().rows() {
        if is_hosted(host, router) {
            routers.push(router_row(alloc, legs, tags, router)?)?;
        }
    }
    Ok(routers)
}
