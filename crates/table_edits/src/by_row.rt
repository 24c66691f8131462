//! Tables with a row at most for each row of a kind.

ghost use Rattle.std.specs.Prelude.{◌≡◌, ◌==◌, IfOk, Option, None, Some, false, map, nat_lt, option_and_then};
ghost use Rattle.std.specs.List.{filter_map};
ghost use Rattle.std.proofs.lemmas.Map.Keys.{IsDistinct-prop};
ghost use Rattle.api_types.specs.Ident.{Ident};
ghost use Rattle.api_types.specs.Table.{HaveOwnIds, ident_eq};
ghost use Rattle.plane_types.specs.Keyed.{rows_by_key};
ghost use Rattle.plane_types.specs.Numbered.{numbered_after, rows_after, with_numbers};
ghost use Rattle.table_edits.specs.EditsAt.{KeysDescend, among};
ghost use Rattle.table_edits.specs.NumbersSeen.{at_after, at_before};
ghost use Rattle.table_edits.specs.Places.{number_in, passes};
ghost use Rattle.table_edits.specs.Rewires.{Rewires};

use crate::edits::{Changed, edits_of};
use crate::numbers::Numbers;
use crate::table_row::TableRow;
use api_types::{Id, RowKind};
use net_addr::OutOfMemory;
use plane_types::Edits;
use std::alloc::Global;

/// A table that has a row at most for each row of a kind, in the order of these.
pub trait ByRow {
    ghost use Rattle.std.specs.Prelude.{Option};
    ghost use Rattle.api_types.specs.Ident.{Ident};

    type Source: RowKind;

    type Row: TableRow;

    /// What came of a row before the change.
    ghost came: { Self → Self.Source → Option Self.Row };

    /// What is to come of a row.
    ghost comes: { Self → Self.Source → Option Self.Row };

    /// From which row a row of the table comes.
    ghost source_of: { Self → Self.Row → Option Ident };

    /// The id of the row from which a row of the table comes.
    fn source(&self, row: &Self::Row) -> Option<Id>
        ensures { result ≡ source_of self.now row.now };

    /// The row of the table that is to be, if any, which comes from this row.
    fn row_of(&self, alloc: Global, source: &Self::Source) -> Result<Option<Self::Row>, OutOfMemory>
        ensures { IfOk result (λ o. o ≡ comes self.now source.now) };
}

// Such a table as it is, with what is to be of it.
#[derive(Drop)]
struct Numbered<'t, 'r, T: ByRow> {
    table: &'t T,
    rows: &'t [T::Row],
    numbers: &'t Numbers<'r, T::Source>,
    ghost came: { rows.now ≡ filter_map (T.came table.now) numbers.now.rows },
    ghost own_ids: { HaveOwnIds T.Source.id_of numbers.now.rows } by { IsDistinct-prop ident_eq (map T.Source.id_of numbers.now.rows) },
    ghost sources: { (s : T.Source) (r : T.Row) → T.came table.now s ≡ Some r
        → T.source_of table.now r ≡ Some (T.Source.id_of s) },
}

impl<'t, 'r, T: ByRow> Numbered<'t, 'r, T> {
    // The number of the row from which a row of the table comes.
    fn number(&self, row: &T::Row) -> Option<usize>
        ensures { result
            ≡ number_in T.Source.id_of (T.source_of self.now.table.now) self.now.numbers.now.rows
            row.now }
    {
        match self.table.source(row) {
            Some(id) => self.numbers.number(id),
            None => None,
        }
    }

    // Whether a row comes from one with a lower number.
    fn is_before(&self, row: &T::Row, number: usize) -> bool
        ensures { result
            ≡ passes (λ k. nat_lt k number)
            (number_in T.Source.id_of (T.source_of self.now.table.now) self.now.numbers.now.rows
            row.now) }
    {
        match self.number(row) {
            Some(own) => own < number,
            None => false,
        }
    }

    // Whether a row comes from the one with this number.
    fn is_at(&self, row: &T::Row, number: usize) -> bool
        ensures { result
            ≡ passes (λ k. k == number)
            (number_in T.Source.id_of (T.source_of self.now.table.now) self.now.numbers.now.rows
            row.now) }
    {
        match self.number(row) {
            Some(own) => own == number,
            None => false,
        }
    }
}

impl<'t, 'r, T: ByRow> Changed for Numbered<'t, 'r, T> {
    ghost use Rattle.std.specs.Prelude.{nat_lt, option_and_then};
    ghost use Rattle.plane_types.specs.Keyed.{rows_by_key};
    ghost use Rattle.plane_types.specs.Numbered.{with_numbers};
    ghost use Rattle.table_edits.specs.NumbersSeen.{at_after};

    type Key = usize;

    type Row = T::Row;

    ghost entries = { λ t.
        rows_by_key nat_lt (T.came t.table.now) (with_numbers 0 t.numbers.now.rows) };

    ghost before = { nat_lt };

    ghost after = { λ t k. option_and_then (T.comes t.table.now) (at_after t.numbers.now k) };

    fn place(&self, key: &usize) -> usize {
        // what the change makes comes after all that is there
        if *key >= self.numbers.rows().len() {
            return self.rows.len();
        }
        self.rows.partition_point(|row| self.is_before(row, *key))
    }

    fn row_at(&self, place: usize, key: &usize) -> Option<&T::Row> {
        let row = self.rows.get(place)?;
        if self.is_at(row, *key) {
            Some(row)
        } else {
            None
        }
    }

    fn row_after(&self, alloc: Global, key: &usize) -> Result<Option<T::Row>, OutOfMemory> {
        match self.numbers.row_after(*key) {
            Some(source) => self.table.row_of(alloc, source),
            None => Ok(None),
        }
    }
}

/// The edits of such a table at the numbers that a change touches, from the greatest to the least.
/// Its cost is that of the rows at these, and for each grows with the logarithm of the table.
pub fn edits_by_row<'t, T: ByRow>(
    alloc: Global,
    table: &'t T,
    rows: &'t [T::Row],
    numbers: &'t Numbers<'t, T::Source>,
    touched: &[usize],
) -> Result<Edits<T::Row>, OutOfMemory>
    requires rows { rows.now ≡ filter_map (T.came table.now) numbers.now.rows }
    requires sources { (s : T.Source) (r : T.Row) → T.came table.now s ≡ Some r
        → T.source_of table.now r ≡ Some (T.Source.id_of s) }
    requires down { KeysDescend nat_lt touched.now }
    requires untouched { (k : _) → among nat_lt k touched.now ≡ false
        → option_and_then (T.came table.now) (at_before numbers.now k)
        ≡ option_and_then (T.comes table.now) (at_after numbers.now k) }
    ensures { IfOk result
        (λ es. Rewires nat_lt
        (rows_by_key nat_lt (T.came table.now) (with_numbers 0 numbers.now.rows))
        (rows_by_key nat_lt (T.comes table.now)
        (numbered_after numbers.now.rows numbers.now.items))
        rows.now
        (filter_map (T.comes table.now) (rows_after numbers.now.rows numbers.now.items))
        es) }
{
    let _own_ids = numbers.rows(); // for the proof: no two rows have one id
    let numbered = Numbered {
        table,
        rows,
        numbers,
    };
    edits_of(alloc, &numbered, touched)
}
