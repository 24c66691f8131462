//! Edits of the table `routes`.

ghost use Rattle.std.specs.Prelude.{◌≡◌, IfOk, List, false, length, map, nat_lt, option_map};
ghost use Rattle.api_types.specs.Parts.{router_of};
ghost use Rattle.api_types.specs.RouterViews.{Way as TheWay};
ghost use Rattle.api_types.specs.declared.kind.Kind.TheVariants.{Router as RouterKind};
ghost use Rattle.plane_types.specs.KeyedTables.{WayKey as TheKey, keyed_routes, keyed_ways, route_order};
ghost use Rattle.plane_types.specs.NumberedRows.{numbered_rows, numbered_rows_after, row_items};
ghost use Rattle.plane_types.specs.TableRows.{route_row, route_rows};
ghost use Rattle.plane_types.specs.declared.table.RouteRow.{RouteRow as TheRoute};
ghost use Rattle.plane_rows.specs.Ways.{way_of};
ghost use Rattle.api_types.specs.RouterRows.{ways_of as ways_by_rows};
ghost use Rattle.table_edits.specs.EditsAt.{KeysDescend, among};
ghost use Rattle.table_edits.specs.NumbersSeen.{at_after, at_before};
ghost use Rattle.table_edits.specs.Rewires.{Rewires};
ghost use Rattle.l3_delta.specs.RouterStays.{RoutersStay};
ghost use Rattle.l3_delta.specs.WayKeys.{numbered_when, rows_when};

use crate::hosted::is_hosted;
use crate::way_keys::{WayKey, way_keys};
use crate::when::When;
use api_types::{Id, RouterRow};
use net_addr::{Addr, OutOfMemory};
use plane_rows::{Legs, Way, ways_by};
use plane_types::{Edits, RouteRow};
use std::alloc::Global;
use table_edits::{ByChunk, KeyedRow, Numbers, edits_by_chunk};
use touched_rows::Rewiring;

// The routes by their routers, with the live ports of each before the change and after it.
#[derive(Drop)]
struct Routes<'t, 'r> {
    change: &'t Rewiring<'r>,
    before: &'t Legs<'r>,
    after: &'t Legs<'r>,
    ghost was: { before.now ≡ change.now.before.now },
    ghost is: { after.now ≡ change.now.after.now },
}

// The row of a route of a router.
fn route_of(router: Id, way: &Way) -> RouteRow
    ensures { result ≡ route_row router (way_of way.now) }
{
    RouteRow {
        router,
        prefix: way.prefix,
        rank: way.rank,
        next: way.next,
        port: way.port,
    }
}

// Routes of a router with their keys.
fn keyed(
    alloc: Global,
    router: Id,
    keys: &[WayKey],
    ways: &[Way],
) -> Result<Vec<KeyedRow<WayKey, RouteRow>>, OutOfMemory>
    requires { length keys.now ≡ length ways.now }
    ensures { IfOk result
        (λ rs. (xs : List (TheKey × TheRoute)) → map (λ (x : TheKey × TheRoute). x.0) xs ≡ keys.now
        → map (λ (x : TheKey × TheRoute). x.1) xs
        ≡ map (λ w. route_row router (way_of w)) ways.now
        → map (λ r. (r.key, r.row)) rs.items ≡ xs) }
{
    let mut rows = Vec::new(alloc);
    for place in 0..keys.len() {
        rows.push(KeyedRow {
            key: keys[place],
            row: route_of(router, &ways[place]),
        })?;
    }
    Ok(rows)
}

// The keys of the routes of a router, before the change or after it.
fn keys_of(
    alloc: Global,
    change: &Rewiring,
    when: When,
    legs: &Legs,
    router: &RouterRow,
) -> Result<Vec<WayKey>, OutOfMemory>
    requires { legs.now ≡ rows_when when change.now.before.now change.now.after.now }
    ensures { IfOk result
        (λ ks. ks.items
        ≡ map (λ (x : TheKey × TheWay). x.0)
        (keyed_ways (numbered_when when change.now.before.now change.now.items.now)
        router.now)) }
{
    let name = router.id.print(alloc)?;
    match legs.ports_of(name.as_str()) {
        Some(held) => way_keys(alloc, change, when, legs.rows(), held.as_slice(), router),
        None => way_keys(alloc, change, when, legs.rows(), &[], router),
    }
}

// The routes of a router.
fn ways_of(alloc: Global, legs: &Legs, router: &RouterRow) -> Result<Vec<Way>, OutOfMemory>
    ensures { IfOk result (λ v. map way_of v.items ≡ ways_by_rows legs.now router.now) }
{
    let name = router.id.print(alloc)?;
    match legs.ports_of(name.as_str()) {
        Some(ports) => ways_by(alloc, legs.rows(), ports.as_slice(), router),
        None => ways_by(alloc, legs.rows(), &[], router),
    }
}

impl<'t, 'r> ByChunk for Routes<'t, 'r> {
    ghost use Rattle.plane_types.specs.KeyedTables.{router_routes};
    ghost use Rattle.plane_types.specs.NumberedRows.{numbered_rows, numbered_rows_after};

    type Source = RouterRow;

    type Key = (usize, (usize, Addr));

    type Row = RouteRow;

    ghost came = { λ t.
        router_routes (numbered_rows t.change.now.before.now) t.change.now.host.now };

    ghost comes = { λ t.
        router_routes (numbered_rows_after t.change.now.before.now t.change.now.items.now)
        t.change.now.host.now };

    ghost source_of = { λ t r. r.router };

    fn source(&self, row: &RouteRow) -> Id {
        row.router
    }

    fn keys_before(&self, alloc: Global, router: &RouterRow) -> Result<Vec<WayKey>, OutOfMemory> {
        if !is_hosted(self.change.host, router) {
            return Ok(Vec::new(alloc));
        }
        keys_of(alloc, self.change, When::Before, self.before, router)
    }

    fn rows_after(
        &self,
        alloc: Global,
        router: &RouterRow,
    ) -> Result<Vec<KeyedRow<WayKey, RouteRow>>, OutOfMemory> {
        if !is_hosted(self.change.host, router) {
            return Ok(Vec::new(alloc));
        }
        let keys = keys_of(alloc, self.change, When::After, self.after, router)?;
        let ways = ways_of(alloc, self.after, router)?;
        keyed(alloc, router.id, keys.as_slice(), ways.as_slice())
    }
}

/// The edits of the routes of a host, at the routers that a change touches (`routers_touched`), by
/// the live ports of routers before it and after it. Its cost grows with these routers, their ports
/// and their routes, and for each with the logarithm of the table.
pub(crate) fn route_edits(
    alloc: Global,
    change: &Rewiring,
    before: &Legs,
    after: &Legs,
    routers: &Numbers<RouterRow>,
    touched: &[usize],
) -> Result<Edits<RouteRow>, OutOfMemory>
    requires before { before.now ≡ change.now.before.now }
    requires after { after.now ≡ change.now.after.now }
    requires routers { routers.now
        ≡ record {
          rows = change.now.before.now.routers;
          items = row_items RouterKind router_of change.now.items.now;
        } }
    requires down { KeysDescend nat_lt touched.now }
    requires named { (k : _) → among nat_lt k touched.now ≡ false
        → at_before routers.now k ≡ at_after routers.now k }
    requires stay { RoutersStay change.now.before.now change.now.after.now change.now.ports
        change.now.old change.now.new routers.now touched.now }
    ensures { IfOk result
        (λ es. Rewires route_order
        (keyed_routes (numbered_rows change.now.before.now) change.now.host.now)
        (keyed_routes (numbered_rows_after change.now.before.now change.now.items.now)
        change.now.host.now)
        change.now.tables.now.lists.routes
        (route_rows change.now.after.now change.now.host.now) es) }
{
    let table = Routes {
        change,
        before,
        after,
    };
    edits_by_chunk(alloc, &table, change.tables.routes(), routers, touched)
}
