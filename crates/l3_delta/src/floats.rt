//! Edits of the table `floats`.

ghost use Rattle.std.specs.Prelude.{◌≡◌, IfOk, false, nat_lt, option_and_then};
ghost use Rattle.api_types.specs.Parts.{floating_of, router_of};
ghost use Rattle.api_types.specs.declared.floating.FloatingRow.{FloatingRow as TheFloating};
ghost use Rattle.api_types.specs.declared.kind.Kind.TheVariants.{Floating as FloatingKind, Router as RouterKind};
ghost use Rattle.plane_types.specs.KeyedTables.{keyed_floats};
ghost use Rattle.plane_types.specs.NumberedRows.{numbered_rows, numbered_rows_after, row_items};
ghost use Rattle.plane_types.specs.TableRows.{float_row_by, float_rows};
ghost use Rattle.table_edits.specs.EditsAt.{KeysDescend, among};
ghost use Rattle.table_edits.specs.NumbersSeen.{at_after, at_before};
ghost use Rattle.table_edits.specs.Rewires.{Rewires};

use crate::hosted::is_hosted_here;
use api_types::{FloatingRow, Id, RouterRow, Rows};
use net_addr::{OutOfMemory, Text};
use plane_types::{Edits, FloatRow};
use std::alloc::Global;
use table_edits::{ByRow, Numbers, edits_by_row};
use touched_rows::{Rewiring, touched_floatings};

// The row of a floating address, if it is associated by a router of the host.
fn float_row(rows: &Rows, host: &Text, floating: &FloatingRow) -> Option<FloatRow>
    ensures { result ≡ float_row_by rows.now host.now floating.now floating.now.target }
{
    let target = floating.target?;
    if !is_hosted_here(rows, host, target.router) {
        return None;
    }
    Some(FloatRow {
        id: floating.id,
        router: target.router,
        floating: floating.address,
        fixed: target.fixed,
    })
}

// The floats by their floating addresses.
#[derive(Drop)]
struct FloatTable<'t, 'r> {
    change: &'t Rewiring<'r>,
}

impl<'t, 'r> ByRow for FloatTable<'t, 'r> {
    ghost use Rattle.std.specs.Prelude.{Some};
    ghost use Rattle.plane_types.specs.TableRows.{float_row_by};

    type Source = FloatingRow;

    type Row = FloatRow;

    ghost came = { λ t f.
        float_row_by t.change.now.before.now t.change.now.host.now f f.target };

    ghost comes = { λ t f. float_row_by t.change.now.after.now t.change.now.host.now f f.target };

    ghost source_of = { λ t r. Some r.id };

    fn source(&self, row: &FloatRow) -> Option<Id> {
        Some(row.id)
    }

    fn row_of(
        &self,
        _alloc: Global,
        floating: &FloatingRow,
    ) -> Result<Option<FloatRow>, OutOfMemory> {
        Ok(float_row(self.change.after, self.change.host, floating))
    }
}

// Edits of the floats at these floating addresses.
fn edits_at(
    alloc: Global,
    change: &Rewiring,
    numbers: &Numbers<FloatingRow>,
    floatings: &[usize],
) -> Result<Edits<FloatRow>, OutOfMemory>
    requires numbers { numbers.now
        ≡ record {
          rows = change.now.before.now.floatings;
          items = row_items FloatingKind floating_of change.now.items.now;
        } }
    requires down { KeysDescend nat_lt floatings.now }
    requires untouched { (k : _) → among nat_lt k floatings.now ≡ false
        → option_and_then
        (λ (f : TheFloating). float_row_by change.now.before.now change.now.host.now f f.target)
        (at_before numbers.now k)
        ≡ option_and_then
        (λ (f : TheFloating). float_row_by change.now.after.now change.now.host.now f f.target)
        (at_after numbers.now k) }
    ensures { IfOk result
        (λ es. Rewires nat_lt
        (keyed_floats (numbered_rows change.now.before.now) change.now.host.now)
        (keyed_floats (numbered_rows_after change.now.before.now change.now.items.now)
        change.now.host.now)
        change.now.tables.now.lists.floats
        (float_rows change.now.after.now change.now.host.now) es) }
{
    let table = FloatTable { change };
    edits_by_row(alloc, &table, change.tables.floats(), numbers, floatings)
}

/// The edits of the floats of a host, for the routers that a change touches (`routers_touched`).
/// Its cost grows with the items, with the floating addresses if a router is touched, and for
/// each touched one with the logarithm of the table.
pub(crate) fn float_edits(
    alloc: Global,
    change: &Rewiring,
    routers: &Numbers<RouterRow>,
    touched: &[usize],
) -> Result<Edits<FloatRow>, OutOfMemory>
    requires routers { routers.now
        ≡ record {
          rows = change.now.before.now.routers;
          items = row_items RouterKind router_of change.now.items.now;
        } }
    requires named { (k : _) → among nat_lt k touched.now ≡ false
        → at_before routers.now k ≡ at_after routers.now k }
    ensures { IfOk result
        (λ es. Rewires nat_lt
        (keyed_floats (numbered_rows change.now.before.now) change.now.host.now)
        (keyed_floats (numbered_rows_after change.now.before.now change.now.items.now)
        change.now.host.now)
        change.now.tables.now.lists.floats
        (float_rows change.now.after.now change.now.host.now) es) }
{
    let floatings: Numbers<FloatingRow> = Numbers::of(alloc, change.before, change.items)?;
    let numbers = touched_floatings(alloc, &floatings, routers, touched)?;
    edits_at(alloc, change, &floatings, numbers.as_slice())
}
