//! Rows that a change leaves alike in what tables ask of them.

ghost use Rattle.std.specs.Prelude.{◌≡◌, ◌↔◌, IfOk, IsTrue, OnOk, false, option_and_then, true};
ghost use Rattle.std.specs.HashSet.{contains};
ghost use Rattle.api_types.specs.Ident.{Ident};
ghost use Rattle.api_types.specs.Table.{ident_eq, row_of};
ghost use Rattle.plane_types.specs.Numbered.{rows_after};
ghost use Rattle.plane_types.specs.NumberedRows.{row_items};
ghost use Rattle.plane_types.proofs.UnnamedLemmas.{is_id};
ghost use Rattle.table_edits.specs.NumbersTold.{FitRows};
ghost use Rattle.touched_rows.specs.RowStays.{RowStays};

use api_types::{Id, Item, Row, RowKind, Table};
use net_addr::OutOfMemory;
use std::alloc::Global;
use std::collections::HashSet;

/// A kind of row of which tables ask some parts alone.
pub(crate) trait Alike: RowKind {
    ghost use Rattle.std.specs.Prelude.{◌↔◌, IsTrue};

    ghost alike: { Self → Self → Type 0 };

    ghost itself: { (r : Self) → alike r r };

    /// Whether the two are equal in these parts. Its cost grows with the smaller row.
    fn is_alike(&self, other: &Self) -> bool
        ensures { IsTrue result ↔ alike self.now other.now };
}

// Whether the row with an id is there before and after and alike, or isn't there.
fn stays<R: Alike>(before: &Table<R>, after: &Table<R>, id: Id) -> bool
    ensures { IsTrue result
        ↔ RowStays R.alike (row_of R.id_of id before.now) (row_of R.id_of id after.now) }
{
    match (before.get(id), after.get(id)) {
        (Some(old), Some(new)) => old.is_alike(new),
        (None, None) => true,
        (None, Some(_)) | (Some(_), None) => false,
    }
}

// Adds the id of a row, where the row with that id isn't alike before and after.
fn add_changed<R: Alike>(
    ids: &mut HashSet<Id>,
    before: &Table<R>,
    after: &Table<R>,
    row: &Option<Row>,
) -> Result<(), OutOfMemory>
    ensures keeps { OnOk result
        ((n : Ident) → contains ident_eq ids.new n ≡ false → contains ident_eq ids.old n ≡ false) }
    ensures tells { OnOk result
        ((n : Ident) → contains ident_eq ids.new n ≡ false
        → is_id R.id_of n (option_and_then R.part_of row.now) ≡ true
        → RowStays R.alike (row_of R.id_of n before.now) (row_of R.id_of n after.now)) }
{
    let Some(row) = row else {
        return Ok(());
    };
    let Some(row) = R::part(row) else {
        return Ok(());
    };
    let id = row.id();
    if !stays(before, after, id) {
        ids.insert(id)?;
    }
    Ok(())
}

/// The ids of the rows of a kind that a change makes, takes out, or doesn't leave alike. Its cost
/// grows with the items.
pub(crate) fn changed_ids<R: Alike>(
    alloc: Global,
    before: &Table<R>,
    after: &Table<R>,
    items: &[Item],
) -> Result<HashSet<Id>, OutOfMemory>
    requires fits { FitRows R.id_of before.now (row_items R.kind_is R.part_of items.now) }
    requires leads { after.now ≡ rows_after before.now (row_items R.kind_is R.part_of items.now) }
    ensures { IfOk result
        (λ s. (n : Ident) → contains ident_eq s n ≡ false
        → RowStays R.alike (row_of R.id_of n before.now) (row_of R.id_of n after.now)) }
{
    let mut ids = HashSet::new(alloc);
    for item in items {
        add_changed(&mut ids, before, after, &item.before)?;
        add_changed(&mut ids, before, after, &item.after)?;
    }
    Ok(ids)
}
