//! Edits of a table at the keys that a change touches.

ghost use Rattle.std.specs.Prelude.{◌≡◌, ◌↔◌, Bool, IfOk, IsTrue, List, Option, option_copied};
ghost use Rattle.plane_types.specs.Keyed.{below, row_at as row_in};
ghost use Rattle.table_edits.specs.EditsAt.{AreEditsAt, IsEditAt};

use crate::table_row::TableRow;
use net_addr::{OutOfMemory, Seq};
use plane_types::{Edit, Edits};
use std::alloc::Global;

/// A table of a host, by keys, with what a change makes of it.
pub trait Changed {
    type Key;

    type Row: TableRow;

    /// The rows as they are, with their keys.
    ghost entries: { Self → List (Self.Key × Self.Row) };

    /// The order of the keys.
    ghost before: { Self.Key → Self.Key → Bool };

    /// What is to stand at each key.
    ghost after: { Self → Self.Key → Option Self.Row };

    /// How many keys come before this one.
    fn place(&self, key: &Self::Key) -> usize
        ensures { result ≡ below before key.now (entries self.now) };

    /// The row at a key, of which this is the place.
    fn row_at(&self, place: usize, key: &Self::Key) -> Option<&Self::Row>
        requires { place ≡ below before key.now (entries self.now) }
        ensures { option_copied result ≡ row_in before key.now (entries self.now) };

    /// What is to stand at the key.
    fn row_after(&self, alloc: Global, key: &Self::Key) -> Result<Option<Self::Row>, OutOfMemory>
        ensures { IfOk result (λ o. o ≡ after self.now key.now) };
}

// Whether a row, if any, is what is to stand there.
fn is_same<R: TableRow>(old: Option<&R>, new: &Option<R>) -> bool
    ensures { IsTrue result ↔ (option_copied old.entry ≡ new.now) }
{
    match (old, new) {
        (None, None) => true,
        (Some(old), Some(new)) => old.is_row(new),
        (None, Some(_)) | (Some(_), None) => false,
    }
}

// The edit at a key, if one is needed.
fn edit_at<C: Changed>(
    alloc: Global,
    table: &C,
    key: &C::Key,
) -> Result<Option<Edit<C::Row>>, OutOfMemory>
    ensures { IfOk result
        (λ o. IsEditAt C.before (C.entries table.now) (C.after table.now) key.now o) }
{
    let place = table.place(key);
    let old = table.row_at(place, key);
    let new = table.row_after(alloc, key)?;
    if is_same(old, &new) {
        return Ok(None);
    }
    Ok(Some(Edit {
        place,
        out: old.is_some(),
        put: new,
    }))
}

/// The edits at these keys, each at its place in the table as it is; none where the row is the one
/// that is to stand there. For keys from the greatest to the least they can be put in one after
/// the other. Its cost is that of looking at each key.
pub fn edits_of<C: Changed>(
    alloc: Global,
    table: &C,
    keys: &[C::Key],
) -> Result<Edits<C::Row>, OutOfMemory>
    ensures { IfOk result
        (λ es. AreEditsAt C.before (C.entries table.now) (C.after table.now) keys.now es) }
{
    let mut edits = Seq::new(alloc);
    for key in keys {
        if let Some(edit) = edit_at(alloc, table, key)? {
            edits.push(edit)?;
        }
    }
    Ok(edits)
}
