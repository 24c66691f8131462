//! Tables with a chunk of rows for each row of a kind.

ghost use Rattle.std.specs.Prelude.{◌≡◌, ◌++◌, ◌+◌, ◌^◌, ◌≤◌, ◌<◌, All, IfOk, OnOk, Option, Some, false, length, map, nat_lt, option_copied, option_map, slice_get};
ghost use Rattle.std.specs.Coded.{Π_prop};
ghost use Rattle.std.proofs.lemmas.Map.Keys.{IsDistinct-prop};
ghost use Rattle.api_types.specs.Table.{HaveOwnIds, ident_eq, place_of};
ghost use Rattle.plane_types.specs.Keyed.{Rises, below, chunks, pair_order, row_at as row_in, with_keys};
ghost use Rattle.plane_types.specs.Numbered.{numbered_after, rows_after, with_numbers};
ghost use Rattle.table_edits.specs.ChunksSeen.{IsMoreBy, chunk_at, chunk_rows, chunk_start, moved_edit};
ghost use Rattle.table_edits.specs.EditsAt.{KeysDescend, among};
ghost use Rattle.table_edits.specs.NumbersSeen.{at_after, at_before};
ghost use Rattle.table_edits.specs.Places.{passes};
ghost use Rattle.table_edits.specs.Rewires.{Rewires};
ghost use Rattle.table_edits.specs.RisesProp.{Rises-prop};

use crate::edits::{Changed, edits_of};
use crate::keys::{TableKey, descending};
use crate::numbers::Numbers;
use crate::table_row::TableRow;
use api_types::{Id, RowKind};
use net_addr::{Copies, OutOfMemory, Seq};
use plane_types::{Edit, Edits};
use std::alloc::Global;

/// A row with its key within its chunk.
#[derive(Drop)]
pub struct KeyedRow<K: Drop, R: Drop> {
    pub key: K,
    pub row: R,
}

/// A table that has a chunk of rows for each row of a kind, in the order of these, and in each chunk
/// ascends by a key.
pub trait ByChunk {
    ghost use Rattle.std.specs.Prelude.{List};
    ghost use Rattle.api_types.specs.Ident.{Ident};

    type Source: RowKind;

    type Key: TableKey;

    type Row: TableRow + Copies;

    /// What came of a row before the change, with its keys.
    ghost came: { Self → Self.Source → List (Self.Key × Self.Row) };

    /// What is to come of a row, with its keys.
    ghost comes: { Self → Self.Source → List (Self.Key × Self.Row) };

    /// From which row a row of the table comes.
    ghost source_of: { Self → Self.Row → Ident };

    /// The id of the row from which a row of the table comes.
    fn source(&self, row: &Self::Row) -> Id
        ensures { result ≡ source_of self.now row.now };

    /// The keys of the rows that came from this row before the change, in their order.
    fn keys_before(
        &self,
        alloc: Global,
        source: &Self::Source,
    ) -> Result<Vec<Self::Key>, OutOfMemory>
        ensures { IfOk result (λ ks. ks.items ≡ map (λ x. x.0) (came self.now source.now)) };

    /// The rows that are to come from this row, with their keys, in their order.
    fn rows_after(
        &self,
        alloc: Global,
        source: &Self::Source,
    ) -> Result<Vec<KeyedRow<Self::Key, Self::Row>>, OutOfMemory>
        ensures { IfOk result
            (λ rs. map (λ r. (r.key, r.row)) rs.items ≡ comes self.now source.now) };
}

// How many of these keys, which ascend, come before one.
fn count_before<K: TableKey>(keys: &[K], key: &K) -> usize
    requires { Rises K.before (with_keys (λ k. k) keys.now) }
    ensures { result ≡ below K.before key.now (with_keys (λ k. k) keys.now) }
{
    keys.partition_point(|own| own.is_before(key))
}

// The row with a key among some that ascend by their keys.
fn row_with<'c, K: TableKey, R: Drop>(rows: &'c [KeyedRow<K, R>], key: &K) -> Option<&'c R>
    requires { Rises K.before (map (λ r. (r.key, r.row)) rows.now) }
    ensures { option_copied result ≡ row_in K.before key.now (map (λ r. (r.key, r.row)) rows.now) }
{
    let place = rows.partition_point(|row| row.key.is_before(key));
    let row = rows.get(place)?;
    if key.is_before(&row.key) {
        None
    } else {
        Some(&row.row)
    }
}

// The rows of one source: as they stand in the table from a place on, with their keys, and as they
// are to be.
#[derive(Drop)]
struct Chunk<'t, T: ByChunk> {
    table: &'t T,
    old: Option<&'t T::Source>,
    new: Option<&'t T::Source>,
    rows: &'t [T::Row],
    start: usize,
    keys: Vec<T::Key>,
    after: Vec<KeyedRow<T::Key, T::Row>>,
    ghost keyed: { keys.items ≡ map (λ x. x.0) (chunk_at (T.came table.now) (option_copied old)) },
    ghost comes: { map (λ r. (r.key, r.row)) after.items
        ≡ chunk_at (T.comes table.now) (option_copied new) },
    ghost within: { start + length keys.items ≤ length rows.now },
    ghost stand: { (i : _) → i < length keys.items
        → slice_get rows.now (start + i)
        ≡ slice_get (map (λ x. x.1) (chunk_at (T.came table.now) (option_copied old))) i },
    ghost rise: { Rises T.Key.before (chunk_at (T.came table.now) (option_copied old)) } by { Rises-prop T.Key.before (chunk_at (T.came table.now) (option_copied old)) },
    ghost rise_after: { Rises T.Key.before (chunk_at (T.comes table.now) (option_copied new)) } by { Rises-prop T.Key.before (chunk_at (T.comes table.now) (option_copied new)) },
}

impl<'t, T: ByChunk> Changed for Chunk<'t, T> {
    ghost use Rattle.std.specs.Prelude.{option_copied};
    ghost use Rattle.plane_types.specs.Keyed.{row_at as row_in};
    ghost use Rattle.table_edits.specs.ChunksSeen.{chunk_at};

    type Key = T::Key;

    type Row = T::Row;

    ghost entries = { λ c. chunk_at (T.came c.table.now) (option_copied c.old) };

    ghost before = { T.Key.before };

    ghost after = { λ c k.
        row_in T.Key.before k (chunk_at (T.comes c.table.now) (option_copied c.new)) };

    fn place(&self, key: &T::Key) -> usize {
        count_before(self.keys.as_slice(), key)
    }

    fn row_at(&self, place: usize, key: &T::Key) -> Option<&T::Row> {
        let own = self.keys.as_slice().get(place)?;
        if key.is_before(own) {
            None
        } else {
            self.rows.get(self.start + place)
        }
    }

    fn row_after(&self, alloc: Global, key: &T::Key) -> Result<Option<T::Row>, OutOfMemory> {
        match row_with(self.after.as_slice(), key) {
            Some(row) => Ok(Some(row.copy(alloc)?)),
            None => Ok(None),
        }
    }
}

// The keys of a chunk, as it is and as it is to be, from the greatest to the least.
fn keys_of<T: ByChunk>(alloc: Global, chunk: &Chunk<T>) -> Result<Vec<T::Key>, OutOfMemory>
    ensures down { IfOk result (λ ks. KeysDescend T.Key.before ks.items) }
    ensures all { IfOk result
        (λ ks. (j : T.Key) → among T.Key.before j ks.items
        ≡ among T.Key.before j
        (chunk.now.keys.items ++ map (λ r. r.key) chunk.now.after.items)) }
{
    let mut keys = Vec::from_slice(alloc, chunk.keys.as_slice())?;
    for row in chunk.after.as_slice() {
        keys.push(row.key)?;
    }
    descending(alloc, keys)
}

// Such a table as it is, with the numbers of its sources.
#[derive(Drop)]
struct Chunked<'t, T: ByChunk> {
    table: &'t T,
    rows: &'t [T::Row],
    numbers: &'t Numbers<'t, T::Source>,
    ghost came: { rows.now ≡ chunk_rows (T.came table.now) numbers.now.rows },
    ghost own_ids: { HaveOwnIds T.Source.id_of numbers.now.rows } by { IsDistinct-prop ident_eq (map T.Source.id_of numbers.now.rows) },
    ghost sources: { (s : T.Source)
        → map (λ x. T.source_of table.now x.1) (T.came table.now s)
        ≡ map (λ x. T.Source.id_of s) (T.came table.now s) },
    ghost rise: { (s : T.Source) → Rises T.Key.before (T.came table.now s) } by { Π_prop (λ s. Rises-prop T.Key.before (T.came table.now s)) },
    ghost rise_after: { (s : T.Source) → Rises T.Key.before (T.comes table.now s) } by { Π_prop (λ s. Rises-prop T.Key.before (T.comes table.now s)) },
}

impl<'t, T: ByChunk> Chunked<'t, T> {
    // Whether a row comes from a source with a lower number.
    fn is_row_before(&self, row: &T::Row, number: usize) -> bool
        ensures { result
            ≡ passes (λ k. nat_lt k number)
            (place_of T.Source.id_of (T.source_of self.now.table.now row.now)
            self.now.numbers.now.rows) }
    {
        match self.numbers.number(self.table.source(row)) {
            Some(own) => own < number,
            None => false,
        }
    }

    // Where the rows of the source with a number begin, or would.
    fn start_of(&self, number: usize) -> usize
        ensures { result
            ≡ chunk_start (T.came self.now.table.now) self.now.numbers.now.rows number }
    {
        if number >= self.numbers.rows().len() {
            return self.rows.len();
        }
        self.rows
            .partition_point(|row| self.is_row_before(row, number))
    }

    // The keys of the rows that came of a source, if there is one.
    fn keys_before(
        &self,
        alloc: Global,
        old: Option<&T::Source>,
    ) -> Result<Vec<T::Key>, OutOfMemory>
        ensures { IfOk result
            (λ ks. ks.items
            ≡ map (λ x. x.0) (chunk_at (T.came self.now.table.now) (option_copied old.entry))) }
    {
        match old {
            Some(source) => self.table.keys_before(alloc, source),
            None => Ok(Vec::new(alloc)),
        }
    }

    // The rows that are to come of a source, if there is one, with their keys.
    fn rows_after(
        &self,
        alloc: Global,
        new: Option<&T::Source>,
    ) -> Result<Vec<KeyedRow<T::Key, T::Row>>, OutOfMemory>
        ensures { IfOk result
            (λ rs. map (λ r. (r.key, r.row)) rs.items
            ≡ chunk_at (T.comes self.now.table.now) (option_copied new.entry)) }
    {
        match new {
            Some(source) => self.table.rows_after(alloc, source),
            None => Ok(Vec::new(alloc)),
        }
    }

    // The chunk of the source with a number, in which these are the keys and the rows to be.
    fn chunk_of(
        &self,
        number: usize,
        keys: Vec<T::Key>,
        after: Vec<KeyedRow<T::Key, T::Row>>,
    ) -> Chunk<'t, T>
        requires keyed { keys.items
            ≡ map (λ x. x.0)
            (chunk_at (T.came self.now.table.now) (at_before self.now.numbers.now number)) }
        requires comes { map (λ r. (r.key, r.row)) after.items
            ≡ chunk_at (T.comes self.now.table.now) (at_after self.now.numbers.now number) }
        ensures table { result.table.now ≡ self.now.table.now }
        ensures old { option_copied result.old ≡ at_before self.now.numbers.now number }
        ensures new { option_copied result.new ≡ at_after self.now.numbers.now number }
        ensures start { result.start
            ≡ chunk_start (T.came self.now.table.now) self.now.numbers.now.rows number }
    {
        Chunk {
            table: self.table,
            old: self.numbers.row(number),
            new: self.numbers.row_after(number),
            rows: self.rows,
            start: self.start_of(number),
            keys,
            after,
        }
    }
}

// Adds edits of a chunk that begins at a place.
fn add_edits<R: Drop>(
    edits: &mut Edits<R>,
    found: Edits<R>,
    start: usize,
) -> Result<(), OutOfMemory>
    requires { All (λ e. start + e.place < 2 ^ 64) found }
    ensures { OnOk result (edits.new ≡ edits.old ++ map (moved_edit start) found) }
{
    for edit in found.into_vec() {
        edits.push(Edit {
            place: start + edit.place,
            out: edit.out,
            put: edit.put,
        })?;
    }
    Ok(())
}

// Adds the edits of the chunk of one source.
fn add_chunk<T: ByChunk>(
    alloc: Global,
    table: &Chunked<T>,
    number: usize,
    edits: &mut Edits<T::Row>,
) -> Result<(), OutOfMemory>
    ensures { OnOk result
        (IsMoreBy T.Key.before
        (chunk_at (T.came table.now.table.now) (at_before table.now.numbers.now number))
        (chunk_at (T.comes table.now.table.now) (at_after table.now.numbers.now number))
        (chunk_start (T.came table.now.table.now) table.now.numbers.now.rows number) edits.old
        edits.new) }
{
    let before = table.keys_before(alloc, table.numbers.row(number))?;
    let after = table.rows_after(alloc, table.numbers.row_after(number))?;
    if before.is_empty() && after.is_empty() {
        return Ok(());
    }
    let chunk = table.chunk_of(number, before, after);
    let keys = keys_of(alloc, &chunk)?;
    let found = edits_of(alloc, &chunk, keys.as_slice())?;
    add_edits(edits, found, chunk.start)
}

/// The edits of such a table at the sources that a change touches. Its cost is that of the rows of
/// these, and for each grows with the logarithm of the table.
pub fn edits_by_chunk<'t, T: ByChunk>(
    alloc: Global,
    table: &'t T,
    rows: &'t [T::Row],
    numbers: &'t Numbers<'t, T::Source>,
    touched: &[usize],
) -> Result<Edits<T::Row>, OutOfMemory>
    requires rows { rows.now ≡ chunk_rows (T.came table.now) numbers.now.rows }
    requires sources { (s : T.Source)
        → map (λ x. T.source_of table.now x.1) (T.came table.now s)
        ≡ map (λ x. T.Source.id_of s) (T.came table.now s) }
    requires rise { (s : T.Source) → Rises T.Key.before (T.came table.now s) }
    requires rise_after { (s : T.Source) → Rises T.Key.before (T.comes table.now s) }
    requires down { KeysDescend nat_lt touched.now }
    requires untouched { (k : _) → among nat_lt k touched.now ≡ false
        → option_map (T.came table.now) (at_before numbers.now k)
        ≡ option_map (T.comes table.now) (at_after numbers.now k) }
    ensures { IfOk result
        (λ es. Rewires (pair_order nat_lt T.Key.before)
        (chunks (T.came table.now) (with_numbers 0 numbers.now.rows))
        (chunks (T.comes table.now) (numbered_after numbers.now.rows numbers.now.items))
        rows.now
        (chunk_rows (T.comes table.now) (rows_after numbers.now.rows numbers.now.items)) es) }
{
    let _own_ids = numbers.rows(); // for the proof: no two rows have one id
    let chunked = Chunked {
        table,
        rows,
        numbers,
    };
    let mut edits = Seq::new(alloc);
    for number in touched {
        add_chunk(alloc, &chunked, *number, &mut edits)?;
    }
    Ok(edits)
}
