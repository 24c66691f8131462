//! Edits of the tables of routers, in order. Begin here.

ghost use Rattle.std.specs.Prelude.{◌≡◌, IfOk, false, nat_lt};
ghost use Rattle.api_types.specs.Parts.{router_of};
ghost use Rattle.api_types.specs.declared.kind.Kind.TheVariants.{Router as RouterKind};
ghost use Rattle.plane_types.specs.KeyedTables.{keyed_floats, keyed_routers, keyed_routes, route_order};
ghost use Rattle.plane_types.specs.NewTags.{new_tags};
ghost use Rattle.plane_types.specs.NumberedRows.{numbered_rows, numbered_rows_after, row_items};
ghost use Rattle.plane_types.specs.Realises.{Realises};
ghost use Rattle.plane_types.specs.TableRows.{float_rows, route_rows, router_rows};
ghost use Rattle.table_edits.specs.EditsAt.{KeysDescend, among};
ghost use Rattle.table_edits.specs.NumbersSeen.{at_after, at_before};
ghost use Rattle.table_edits.specs.Rewires.{LeadsOn, Rewires};
ghost use Rattle.l3_delta.specs.RouterStays.{RoutersStay};

use crate::floats::float_edits;
use crate::routers::router_edits;
use crate::routes::route_edits;
use crate::touched::{is_any_here, routers_touched};
use api_types::{Change, RouterRow, Rows};
use net_addr::{OutOfMemory, Seq, Text};
use plane_rows::Legs;
use plane_types::{Edits, HostTables, L3Delta, RouteRow, RouterTable, Tags};
use std::alloc::Global;
use table_edits::Numbers;
use touched_rows::Rewiring;

// The edits of routers and of their routes.
#[derive(Drop)]
struct RoutedEdits {
    routers: Edits<RouterTable>,
    routes: Edits<RouteRow>,
}

// The edits of the routers and the routes of a host, at the routers that a change touches. The
// ports are looked at only if one of these stands on the host.
fn routed_edits(
    alloc: Global,
    change: &Rewiring,
    routers: &Numbers<RouterRow>,
    touched: &[usize],
) -> Result<RoutedEdits, OutOfMemory>
    requires routers { routers.now
        ≡ record {
          rows = change.now.before.now.routers;
          items = row_items RouterKind router_of change.now.items.now;
        } }
    requires down { KeysDescend nat_lt touched.now }
    requires named { (k : _) → among nat_lt k touched.now ≡ false
        → at_before routers.now k ≡ at_after routers.now k }
    requires stay { RoutersStay change.now.before.now change.now.after.now change.now.ports
        change.now.old change.now.new routers.now touched.now }
    ensures routers { IfOk result
        (λ e. Rewires nat_lt
        (keyed_routers (numbered_rows change.now.before.now) change.now.host.now change.now.old)
        (keyed_routers (numbered_rows_after change.now.before.now change.now.items.now)
        change.now.host.now change.now.new)
        change.now.tables.now.lists.routers
        (router_rows change.now.after.now change.now.host.now change.now.new) e.routers) }
    ensures routes { IfOk result
        (λ e. Rewires route_order
        (keyed_routes (numbered_rows change.now.before.now) change.now.host.now)
        (keyed_routes (numbered_rows_after change.now.before.now change.now.items.now)
        change.now.host.now)
        change.now.tables.now.lists.routes
        (route_rows change.now.after.now change.now.host.now) e.routes) }
{
    if !is_any_here(change.host, routers, touched) {
        return Ok(RoutedEdits {
            routers: Seq::new(alloc),
            routes: Seq::new(alloc),
        });
    }
    let before = Legs::of(alloc, change.before)?;
    let after = Legs::of(alloc, change.after)?;
    Ok(RoutedEdits {
        routers: router_edits(alloc, change, &after, routers, touched)?,
        routes: route_edits(alloc, change, &before, &after, routers, touched)?,
    })
}

// The edits of routers, routes and floating addresses, for a change as the host sees it.
fn delta_of(alloc: Global, change: &Rewiring, tags: &Tags) -> Result<L3Delta, OutOfMemory>
    requires { change.now.new ≡ tags.now }
    ensures routers { IfOk result
        (λ d. Rewires nat_lt
        (keyed_routers (numbered_rows change.now.before.now) change.now.host.now change.now.old)
        (keyed_routers (numbered_rows_after change.now.before.now change.now.items.now)
        change.now.host.now change.now.new)
        change.now.tables.now.lists.routers
        (router_rows change.now.after.now change.now.host.now change.now.new) d.routers) }
    ensures routes { IfOk result
        (λ d. Rewires route_order
        (keyed_routes (numbered_rows change.now.before.now) change.now.host.now)
        (keyed_routes (numbered_rows_after change.now.before.now change.now.items.now)
        change.now.host.now)
        change.now.tables.now.lists.routes
        (route_rows change.now.after.now change.now.host.now) d.routes) }
    ensures floats { IfOk result
        (λ d. Rewires nat_lt
        (keyed_floats (numbered_rows change.now.before.now) change.now.host.now)
        (keyed_floats (numbered_rows_after change.now.before.now change.now.items.now)
        change.now.host.now)
        change.now.tables.now.lists.floats
        (float_rows change.now.after.now change.now.host.now) d.floats) }
{
    let routers: Numbers<RouterRow> = Numbers::of(alloc, change.before, change.items)?;
    let numbers = routers_touched(alloc, change, &routers, tags)?;
    let touched = numbers.as_slice();
    let floats = float_edits(alloc, change, &routers, touched)?;
    let RoutedEdits { routers, routes } = routed_edits(alloc, change, &routers, touched)?;
    Ok(L3Delta {
        routers,
        routes,
        floats,
    })
}

/// The edits by which a change leads from the routers, routes and floating addresses of a host to
/// those after it, for the tags that the host gives from then on. Its cost grows with what the
/// change touches, for each of these with the logarithm of the tables, and with the ports if a
/// touched router stands on the host.
pub fn routers_delta(
    alloc: Global,
    tables: &HostTables,
    before: &Rows,
    after: &Rows,
    change: &Change,
    host: &Text,
    tags: &Tags,
) -> Result<L3Delta, OutOfMemory>
    requires realised { Realises before.now host.now tables.now.lists }
    requires leads_on { LeadsOn before.now change.now after.now }
    requires tags { tags.now ≡ new_tags after.now host.now tables.now.lists.tags }
    ensures routers { IfOk result
        (λ d. Rewires nat_lt
        (keyed_routers (numbered_rows before.now) host.now tables.now.lists.tags)
        (keyed_routers (numbered_rows_after before.now change.now) host.now tags.now)
        tables.now.lists.routers (router_rows after.now host.now tags.now) d.routers) }
    ensures routes { IfOk result
        (λ d. Rewires route_order
        (keyed_routes (numbered_rows before.now) host.now)
        (keyed_routes (numbered_rows_after before.now change.now) host.now)
        tables.now.lists.routes (route_rows after.now host.now) d.routes) }
    ensures floats { IfOk result
        (λ d. Rewires nat_lt
        (keyed_floats (numbered_rows before.now) host.now)
        (keyed_floats (numbered_rows_after before.now change.now) host.now)
        tables.now.lists.floats (float_rows after.now host.now) d.floats) }
{
    let change = Rewiring::of(alloc, tables, before, after, change, host, tags)?;
    delta_of(alloc, &change, tags)
}
