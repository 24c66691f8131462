//! The tables of routers, made in order. Begin here.

ghost use Rattle.std.specs.Prelude.{◌≡◌, IfOk};
ghost use Rattle.plane_types.specs.TableRows.{float_rows as float_rows_of, route_rows as route_rows_of, router_rows as router_rows_of};

use crate::floats::float_rows;
use crate::routers::router_rows;
use crate::routes::route_rows;
use api_types::Rows;
use net_addr::{OutOfMemory, Seq, Text};
use plane_rows::Legs;
use plane_types::{FloatRow, RouteRow, RouterTable, TagMap, Tags};
use std::alloc::Global;

/// The tables of a host by which its routers carry packets.
#[derive(Drop)]
pub struct L3Tables {
    pub routers: Seq<RouterTable>,
    pub routes: Seq<RouteRow>,
    pub floats: Seq<FloatRow>,
}

/// The tables of a host's routers, for the tags that it gave to networks: each is the list that the
/// rows and the tags give.
///
/// A router has a row where it names the host, whatever its administrative state, with those of its
/// live ports whose networks have a tag. Its routes lead to the subnets of its live ports, then
/// come its extra ones, then while its gateway port is live the default ones, for the addresses of
/// that port in ascending order; its floating addresses are the associated ones (`routers` and
/// `floatingips` of the Networking API). Rows are in the order of creation of what they come from.
/// The cost grows with the ports, the tags, the floating addresses and the routers, and for each
/// router of the host with what `plane_rows::ways_by` costs for its live ports.
pub fn wire_routers(
    alloc: Global,
    rows: &Rows,
    host: &Text,
    tags: &Tags,
) -> Result<L3Tables, OutOfMemory>
    ensures routers { IfOk result (λ t. t.routers ≡ router_rows_of rows.now host.now tags.now) }
    ensures routes { IfOk result (λ t. t.routes ≡ route_rows_of rows.now host.now) }
    ensures floats { IfOk result (λ t. t.floats ≡ float_rows_of rows.now host.now) }
{
    let legs = Legs::of(alloc, rows)?;
    let tags = TagMap::of(alloc, tags.as_slice())?;
    let routers = router_rows(alloc, &legs, host, &tags)?;
    let routes = route_rows(alloc, &legs, host)?;
    let floats = float_rows(alloc, rows, host)?;
    Ok(L3Tables {
        routers,
        routes,
        floats,
    })
}
