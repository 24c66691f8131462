//! Edits of the table `routers`.

ghost use Rattle.std.specs.Prelude.{◌≡◌, IfOk, false, nat_lt};
ghost use Rattle.api_types.specs.Parts.{router_of};
ghost use Rattle.api_types.specs.declared.kind.Kind.TheVariants.{Router as RouterKind};
ghost use Rattle.plane_types.specs.KeyedTables.{keyed_routers};
ghost use Rattle.plane_types.specs.NumberedRows.{numbered_rows, numbered_rows_after, row_items};
ghost use Rattle.api_types.specs.RouterRows.{has_snat as snat_of};
ghost use Rattle.plane_types.specs.TableRows.{router_row as router_row_of, router_rows};
ghost use Rattle.table_edits.specs.EditsAt.{KeysDescend, among};
ghost use Rattle.table_edits.specs.NumbersSeen.{at_after, at_before};
ghost use Rattle.table_edits.specs.Rewires.{Rewires};
ghost use Rattle.l3_delta.specs.RouterStays.{RoutersStay};

use crate::hosted::is_hosted;
use crate::ports::router_ports;
use api_types::{Gateway, Id, RouterRow};
use net_addr::OutOfMemory;
use plane_rows::{Legs, gateway_address};
use plane_types::{Edits, RouterTable, TagMap};
use std::alloc::Global;
use table_edits::{ByRow, Numbers, edits_by_row};
use touched_rows::Rewiring;

fn has_snat(gateway: Option<Gateway>) -> bool
    ensures { result ≡ snat_of gateway }
{
    match gateway {
        Some(gateway) => gateway.snat,
        None => false,
    }
}

// The row of a router that stands on the host.
fn router_row(
    alloc: Global,
    legs: &Legs,
    tags: &TagMap,
    router: &RouterRow,
) -> Result<RouterTable, OutOfMemory>
    ensures { IfOk result (λ t. t ≡ router_row_of legs.now tags.now router.now) }
{
    Ok(RouterTable {
        router: router.id,
        up: router.up,
        snat: has_snat(router.gateway),
        gateway: gateway_address(legs.rows(), router),
        ports: router_ports(alloc, legs, tags, router)?,
    })
}

// The routers, with the live ports of each after the change.
#[derive(Drop)]
struct Routers<'t, 'r> {
    change: &'t Rewiring<'r>,
    legs: &'t Legs<'r>,
}

impl<'t, 'r> ByRow for Routers<'t, 'r> {
    ghost use Rattle.std.specs.Prelude.{None, Some, if◌then◌else◌};
    ghost use Rattle.plane_types.specs.TableRows.{is_on_host, router_row as router_row_of};

    type Source = RouterRow;

    type Row = RouterTable;

    ghost came = { λ t r.
        if is_on_host t.change.now.host.now r
        then Some (router_row_of t.change.now.before.now t.change.now.old r)
        else None };

    ghost comes = { λ t r.
        if is_on_host t.change.now.host.now r
        then Some (router_row_of t.legs.now t.change.now.new r)
        else None };

    ghost source_of = { λ t r. Some r.router };

    fn source(&self, row: &RouterTable) -> Option<Id> {
        Some(row.router)
    }

    fn row_of(
        &self,
        alloc: Global,
        router: &RouterRow,
    ) -> Result<Option<RouterTable>, OutOfMemory> {
        if !is_hosted(self.change.host, router) {
            return Ok(None);
        }
        Ok(Some(router_row(alloc, self.legs, &self.change.new, router)?))
    }
}

/// The edits of the routers of a host, at those that a change touches, by the live ports of routers
/// after it. Its cost grows with these routers and their ports, and for each with the logarithm of
/// the table.
pub(crate) fn router_edits(
    alloc: Global,
    change: &Rewiring,
    legs: &Legs,
    routers: &Numbers<RouterRow>,
    touched: &[usize],
) -> Result<Edits<RouterTable>, OutOfMemory>
    requires legs { legs.now ≡ change.now.after.now }
    requires routers { routers.now
        ≡ record {
          rows = change.now.before.now.routers;
          items = row_items RouterKind router_of change.now.items.now;
        } }
    requires down { KeysDescend nat_lt touched.now }
    requires named { (k : _) → among nat_lt k touched.now ≡ false
        → at_before routers.now k ≡ at_after routers.now k }
    requires stay { RoutersStay change.now.before.now change.now.after.now change.now.ports
        change.now.old change.now.new routers.now touched.now }
    ensures { IfOk result
        (λ es. Rewires nat_lt
        (keyed_routers (numbered_rows change.now.before.now) change.now.host.now change.now.old)
        (keyed_routers (numbered_rows_after change.now.before.now change.now.items.now)
        change.now.host.now change.now.new)
        change.now.tables.now.lists.routers
        (router_rows change.now.after.now change.now.host.now change.now.new) es) }
{
    let table = Routers { change, legs };
    edits_by_row(alloc, &table, change.tables.routers(), routers, touched)
}
