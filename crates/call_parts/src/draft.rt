//! The rows that a call leads to, and the change that leads there, edit by edit.
ghost use Rattle.std.specs.Prelude.{◌≡◌, ◌++◌, None, Some, IfNone, IfOk, IfSome, false, map, position};
ghost use Rattle.std.specs.List.{list_any};
ghost use Rattle.api_types.specs.Rows.{FitsItem, after_item};
ghost use Rattle.api_types.specs.Table.{ident_eq, row_of};
ghost use Rattle.call_parts.specs.Drafts.{AreAlikeBut, DraftParts, IsFound, LeadsTo};
ghost use Rattle.call_parts.specs.Edits.{Add, Drop as DropRow, Put, edited, made};

use api_types::{Change, Id, Item, Keyed, Kind, RowKind, Rows, Shared};
use net_addr::{Copies, OutOfMemory, Seq};
use std::alloc::Global;
use std::marker::Model;

/// The rows that a call leads to so far, and the change that leads there from the current rows.
#[derive(Drop)]
pub struct Settled {
    start: Rows,
    change: Change,
    rows: Rows,
}

impl Model for Settled {
    ghost use Rattle.call_parts.specs.Drafts.{DraftParts, LeadsTo};

    ghost Value = { DraftParts };

    ghost view = { λ d. record { start = d.start; change = d.change; rows = d.rows } };

    ghost invariant = { λ d. LeadsTo d.start d.change d.rows };
}

/// The rows that a call leads to, and the change that leads there from the current rows. The last
/// edit is put into the rows only once they are settled, for the next one or to be read: so a call
/// of one edit copies no table.
#[derive(Drop)]
pub struct Draft {
    base: Settled,
    last: Change,
}

impl Model for Draft {
    ghost use Rattle.std.specs.Prelude.{◌++◌};
    ghost use Rattle.api_types.specs.Rows.{Fits, after};
    ghost use Rattle.call_parts.specs.Drafts.{DraftParts};

    ghost Value = { DraftParts };

    ghost view = { λ d.
        record {
          start = d.base.start;
          change = d.base.change ++ d.last;
          rows = after d.base.rows d.last;
        } };

    ghost invariant = { λ d. Fits d.base.rows d.last };
}

// The place of the row with this id.
fn place_of<R: Keyed>(rows: &[Shared<R>], id: Id) -> Option<usize>
    ensures { result ≡ position (λ r. ident_eq id (R.id_of r)) rows.now }
{
    rows.iter().position(|row| id == row.id())
}

// The row with this id, with its place.
fn found<R: RowKind>(rows: &Rows, id: Id) -> Option<(usize, &R)>
    ensures none { IfNone result
        (list_any (λ r. ident_eq id (R.id_of r)) (R.list_of rows.now) ≡ false) }
    ensures some { IfSome result
        (λ f. IsFound R.id_of id (R.list_of rows.now) f.0 f.1.now) }
{
    let rows = R::table(rows).rows();
    let Some(place) = place_of(rows, id) else {
        return None;
    };
    let row = rows[place].get();
    Some((place, row))
}

// A change with more items after its own.
fn joined(mut change: Change, more: Change) -> Result<Change, OutOfMemory>
    ensures { IfOk result (λ c. c ≡ change ++ more) }
{
    for item in more.into_vec() {
        change.push(item)?;
    }
    Ok(change)
}

impl Settled {
    // Nothing changed yet: the current rows. It takes counts of tables and no rows.
    fn begin(alloc: Global, rows: &Rows) -> Result<Settled, OutOfMemory>
        ensures start { IfOk result (λ d. d.start ≡ rows.now) }
        ensures rows { IfOk result (λ d. d.rows ≡ rows.now) }
    {
        Ok(Settled {
            start: rows.copy(alloc)?,
            change: Seq::new(alloc),
            rows: rows.copy(alloc)?,
        })
    }

    /// The rows as they stand after the edits so far.
    pub fn rows(&self) -> &Rows
        ensures { result.now ≡ self.now.rows }
    {
        &self.rows
    }

    /// The same as a draft.
    #[tactic(auto, using(crate::proofs::DraftLemmas::nothing_more))]
    pub fn into_draft(self, alloc: Global) -> Draft
        ensures { result ≡ self }
    {
        Draft {
            base: self,
            last: Seq::new(alloc),
        }
    }

    // One item more.
    fn take(self, alloc: Global, item: Item) -> Result<Draft, OutOfMemory>
        requires { FitsItem self.rows item }
        ensures start { IfOk result (λ d. d.start ≡ self.start) }
        ensures rows { IfOk result (λ d. d.rows ≡ after_item self.rows item) }
    {
        let mut last = Seq::new(alloc);
        last.push(item)?;
        Ok(Draft { base: self, last })
    }

    /// A new row, last of its kind, whose id no row of the kind has.
    pub fn add<R: RowKind>(self, alloc: Global, row: R) -> Result<Draft, OutOfMemory>
        requires new { row_of R.id_of (R.id_of row) (R.list_of self.rows) ≡ None }
        ensures start { IfOk result (λ d. d.start ≡ self.start) }
        ensures rows { IfOk result (λ d. d.rows ≡ edited self.rows (Add (R.into_of row))) }
    {
        let place = R::table(&self.rows).rows().len();
        let item = Item {
            kind: R::kind(),
            place,
            before: None,
            after: Some(row.into_row()),
        };
        self.take(alloc, item)
    }

    /// A row in place of the one with its id. Where that is equal, or there is none, nothing
    /// changes. Its cost grows with the rows of the kind.
    pub fn put<R: RowKind>(self, alloc: Global, row: R) -> Result<Draft, OutOfMemory>
        ensures start { IfOk result (λ d. d.start ≡ self.start) }
        ensures rows { IfOk result (λ d. d.rows ≡ edited self.rows (Put (R.into_of row))) }
    {
        let Some((place, old)) = found::<R>(self.rows(), row.id()) else {
            return Ok(self.into_draft(alloc));
        };
        if old.is_same(&row) {
            return Ok(self.into_draft(alloc));
        }
        let item = Item {
            kind: R::kind(),
            place,
            before: Some(old.copy(alloc)?.into_row()),
            after: Some(row.into_row()),
        };
        self.take(alloc, item)
    }

    /// The row with this id goes, where it is there, and the rest closes up. Its cost grows with
    /// the rows of the kind.
    pub fn drop_row<R: RowKind>(self, alloc: Global, id: Id) -> Result<Draft, OutOfMemory>
        ensures start { IfOk result (λ d. d.start ≡ self.start) }
        ensures rows { IfOk result (λ d. d.rows ≡ edited self.rows (DropRow R.kind_is id)) }
    {
        let Some((place, old)) = found::<R>(self.rows(), id) else {
            return Ok(self.into_draft(alloc));
        };
        let item = Item {
            kind: R::kind(),
            place,
            before: Some(old.copy(alloc)?.into_row()),
            after: None,
        };
        self.take(alloc, item)
    }
}

impl Draft {
    /// Nothing changed yet: the current rows. It takes counts of tables and no rows.
    pub fn begin(alloc: Global, rows: &Rows) -> Result<Draft, OutOfMemory>
        ensures start { IfOk result (λ d. d.start ≡ rows.now) }
        ensures rows { IfOk result (λ d. d.rows ≡ rows.now) }
    {
        Ok(Settled::begin(alloc, rows)?.into_draft(alloc))
    }

    /// The draft with the last edit in its rows. Its cost grows with the rows of the edit's kind.
    pub fn settle(self, alloc: Global) -> Result<Settled, OutOfMemory>
        ensures { IfOk result (λ d. d ≡ self) }
    {
        let Draft { base, last } = self;
        let Settled {
            start,
            change,
            mut rows,
        } = base;
        rows.apply_change(alloc, &last)?;
        let change = joined(change, last)?;
        Ok(Settled {
            start,
            change,
            rows,
        })
    }

    /// A new row, last of its kind, whose id no row of the kind has.
    pub fn add<R: RowKind>(self, alloc: Global, row: R) -> Result<Draft, OutOfMemory>
        requires new { row_of R.id_of (R.id_of row) (R.list_of self.rows) ≡ None }
        ensures start { IfOk result (λ d. d.start ≡ self.start) }
        ensures rows { IfOk result (λ d. d.rows ≡ edited self.rows (Add (R.into_of row))) }
    {
        self.settle(alloc)?.add(alloc, row)
    }

    /// A row in place of the one with its id. Where that is equal, or there is none, nothing
    /// changes. Its cost grows with the rows of the kind.
    pub fn put<R: RowKind>(self, alloc: Global, row: R) -> Result<Draft, OutOfMemory>
        ensures start { IfOk result (λ d. d.start ≡ self.start) }
        ensures rows { IfOk result (λ d. d.rows ≡ edited self.rows (Put (R.into_of row))) }
    {
        self.settle(alloc)?.put(alloc, row)
    }

    /// The row with this id goes, where it is there, and the rest closes up. Its cost grows with
    /// the rows of the kind.
    pub fn drop_row<R: RowKind>(self, alloc: Global, id: Id) -> Result<Draft, OutOfMemory>
        ensures start { IfOk result (λ d. d.start ≡ self.start) }
        ensures rows { IfOk result (λ d. d.rows ≡ edited self.rows (DropRow R.kind_is id)) }
    {
        self.settle(alloc)?.drop_row::<R>(alloc, id)
    }

    /// The rows with these ids go, one after the other. Its cost grows with their number, times the
    /// rows of the kind.
    pub fn drop_rows<R: RowKind>(self, alloc: Global, ids: &[Id]) -> Result<Draft, OutOfMemory>
        ensures start { IfOk result (λ d. d.start ≡ self.start) }
        ensures rows { IfOk result
            (λ d. d.rows ≡ made self.rows (map (λ i. DropRow R.kind_is i) ids.now)) }
    {
        let mut draft = self;
        for id in ids {
            draft = draft.drop_row::<R>(alloc, *id)?;
        }
        Ok(draft)
    }

    /// The rows without the last edit, where that is one of this kind: then they have the same rows
    /// of all other kinds.
    pub fn rows_but_of(&self, kind: Kind) -> Option<&Rows>
        ensures { IfSome result (λ rows. AreAlikeBut kind rows.now self.now.rows) }
    {
        match self.last.as_slice() {
            [item] if item.kind == kind => Some(&self.base.rows),
            _ => None,
        }
    }

    /// The change that leads from the current rows to those after the edits.
    pub fn into_change(self) -> Result<Change, OutOfMemory>
        ensures value { IfOk result (λ c. c ≡ self.change) }
        ensures leads { LeadsTo self.start self.change self.rows }
    {
        let Draft { base, last } = self;
        joined(base.change, last)
    }
}
