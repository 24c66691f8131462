//! The table `routes`: the routes of the routers here.

ghost use Rattle.std.specs.Prelude.{◌≡◌, ◌++◌, IfOk, OnOk, map};
ghost use Rattle.api_types.specs.RouterRows.{ways_of as ways_by_rows};
ghost use Rattle.plane_types.specs.TableRows.{route_row, route_rows as route_rows_of};
ghost use Rattle.plane_rows.specs.Ways.{way_of};

use crate::routers::is_hosted;
use api_types::RouterRow;
use net_addr::{OutOfMemory, Seq, Text};
use plane_rows::{Legs, Way, ways_by};
use plane_types::RouteRow;
use std::alloc::Global;

// The routes of a router.
fn ways(alloc: Global, legs: &Legs, router: &RouterRow) -> Result<Vec<Way>, OutOfMemory>
    ensures { IfOk result (λ v. map way_of v.items ≡ ways_by_rows legs.now router.now) }
{
    let name = router.id.print(alloc)?;
    match legs.ports_of(name.as_str()) {
        Some(ports) => ways_by(alloc, legs.rows(), ports.as_slice(), router),
        None => ways_by(alloc, legs.rows(), &[], router),
    }
}

// Adds the routes of a router.
fn add_router(
    alloc: Global,
    routes: &mut Seq<RouteRow>,
    legs: &Legs,
    router: &RouterRow,
) -> Result<(), OutOfMemory>
    ensures { OnOk result
        (routes.new
        ≡ routes.old ++ map (route_row router.now.id) (ways_by_rows legs.now router.now)) }
{
    let ways = ways(alloc, legs, router)?;
    for way in ways.as_slice() {
        routes.push(RouteRow {
            router: router.id,
            prefix: way.prefix,
            rank: way.rank,
            next: way.next,
            port: way.port,
        })?;
    }
    Ok(())
}

/// A row for each route of each router of the host. Its cost grows with the routers, and for each
/// of the host's with what `plane_rows::ways_by` costs.
#[tactic(auto, unfolding(plane_types::specs::TableRows::route_rows))]
pub(crate) fn route_rows(
    alloc: Global,
    legs: &Legs,
    host: &Text,
) -> Result<Seq<RouteRow>, OutOfMemory>
    ensures { IfOk result (λ r. r ≡ route_rows_of legs.now host.now) }
{
    let mut routes = Seq::new(alloc);
    for router in legs.rows().routers().rows() {
        if is_hosted(host, router) {
            add_router(alloc, &mut routes, legs, router)?;
        }
    }
    Ok(routes)
}
