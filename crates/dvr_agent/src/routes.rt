//! Routes of copied routers.

ghost use Rattle.std.specs.Prelude.{◌≡◌, ◌++◌, IfOk, OnOk, map};
ghost use Rattle.api_types.specs.RouterRows.{ways_of as ways_by_rows};
ghost use Rattle.plane_rows.specs.Ways.{way_of};
ghost use Rattle.plane_types.specs.TableRows.{route_row};
ghost use Rattle.dvr_types.specs.Copies as copies;

use crate::routers::is_copied;
use api_types::RouterRow;
use net_addr::{OutOfMemory, Seq};
use plane_rows::{Legs, Way, ways_by};
use plane_types::RouteRow;
use std::alloc::Global;

// The routes of a router.
fn ways(alloc: Global, legs: &Legs, router: &RouterRow) -> Result<Vec<Way>, OutOfMemory>
    ensures { IfOk result (λ v. map way_of v.items ≡ ways_by_rows legs.now router.now) }
{
    let name = router.id.print(alloc)?;
    match legs.ports_of(name.as_str()) {
        Some(ports) => ways_by(alloc, legs.rows(), ports.as_slice(), router),
        None => ways_by(alloc, legs.rows(), &[], router),
    }
}

// Adds the routes of a router.
fn add_router(
    alloc: Global,
    routes: &mut Seq<RouteRow>,
    legs: &Legs,
    router: &RouterRow,
) -> Result<(), OutOfMemory>
    ensures { OnOk result
        (routes.new
        ≡ routes.old ++ map (route_row router.now.id) (ways_by_rows legs.now router.now)) }
{
    let ways = ways(alloc, legs, router)?;
    for way in ways.as_slice() {
        routes.push(RouteRow {
            router: router.id,
            prefix: way.prefix,
            rank: way.rank,
            next: way.next,
            port: way.port,
        })?;
    }
    Ok(())
}

/// A row for each route of each copied router. Its cost grows with the routers, and for each of the
/// copied ones with what `plane_rows::ways_by` costs.
#[tactic(auto, unfolding(dvr_types::specs::Copies::routes_of_copies))]
pub(crate) fn copy_routes(alloc: Global, legs: &Legs) -> Result<Seq<RouteRow>, OutOfMemory>
    ensures { IfOk result (λ r. r ≡ copies.routes_of_copies legs.now) }
{
    let mut routes = Seq::new(alloc);
    for router in legs.rows().routers().rows() {
        if is_copied(alloc, legs, router)? {
            add_router(alloc, &mut routes, legs, router)?;
        }
    }
    Ok(routes)
}
