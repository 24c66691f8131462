//! Rows of a kind by numbers that they keep through a change.

ghost use Rattle.std.specs.Prelude.{◌≡◌, ◌↔◌, ◌∷◌, ◌++◌, ◌==◌, IfOk, IsSomeAnd, IsTrue, Some, [], if◌then◌else◌, nat_eq, option_and_then, option_copied, slice_get};
ghost use Rattle.std.specs.HashMap.{get};
ghost use Rattle.api_types.specs.Table.{HaveOwnIds, ident_eq, place_of, row_of};
ghost use Rattle.plane_types.specs.Numbered.{rows_after};
ghost use Rattle.plane_types.specs.NumberedRows.{row_items};
ghost use Rattle.table_edits.specs.NumbersSeen.{OthersStay, at_after};
ghost use Rattle.table_edits.specs.NumbersTold.{FitRows, Renumbers, item_number, left_by, number_by};

use api_types::{Id, Item, Kind, Row, RowKind, Rows, Shared, Table};
use net_addr::OutOfMemory;
use std::alloc::Global;
use std::collections::HashMap;
use std::marker::Model;

/// The rows of a kind before and after a change, by numbers: before it the number of a row is its
/// place, and a row that the change makes gets one that none had. A row that is taken out and put
/// in again so has two.
#[derive(Drop)]
pub struct Numbers<'r, R: RowKind> {
    table: &'r Table<R>,
    items: &'r [Item],
    told: Told,
}

// What items of a change tell of numbers.
#[derive(Drop)]
struct Told {
    // the last item of each number that they name
    last: HashMap<usize, usize>,
    // the numbers of the rows that they made
    made: HashMap<Id, usize>,
    named: Vec<usize>,
}

impl<'r, R: RowKind> Model for Numbers<'r, R> {
    ghost use Rattle.std.specs.Prelude.{nat_eq};
    ghost use Rattle.std.specs.HashMap.{get};
    ghost use Rattle.api_types.specs.Table.{ident_eq};
    ghost use Rattle.plane_types.specs.NumberedRows.{row_items};
    ghost use Rattle.table_edits.specs.NumbersSeen.{Renumbered, TellsOf};

    ghost Value = { Renumbered R };

    ghost view = { λ n.
        record { rows = n.table.now; items = row_items R.kind_is R.part_of n.items.now } };

    ghost invariant = { λ n.
        TellsOf R.id_of R.part_of n.items.now
        (record { rows = n.table.now; items = row_items R.kind_is R.part_of n.items.now })
        (get nat_eq n.told.last) (get ident_eq n.told.made) n.told.named.items };
}

fn is_of(item: &Item, kind: Kind) -> bool
    ensures { IsTrue result ↔ (item.now.kind ≡ kind) }
{
    item.kind == kind
}

fn part_of<R: RowKind>(row: &Option<Row>) -> Option<&R>
    ensures { option_copied result ≡ option_and_then R.part_of row.now }
{
    match row {
        Some(row) => R::part(row),
        None => None,
    }
}

// The row that the item at a place leaves.
fn row_by<R: RowKind>(items: &[Item], place: usize) -> Option<&R>
    ensures { option_copied result
        ≡ option_and_then (left_by R.part_of) (slice_get items.now place) }
{
    match items.get(place) {
        Some(item) => part_of(&item.after),
        None => None,
    }
}

// The number of the row with an id, as the items so far left it.
fn number_now<R: RowKind>(table: &Table<R>, made: &HashMap<Id, usize>, id: Id) -> Option<usize>
    ensures { result ≡ number_by R.id_of table.now (get ident_eq made.now) id }
{
    match made.get(&id) {
        Some(number) => Some(*number),
        None => table.place(id),
    }
}

// The number of the row of an item: a row that the item makes gets the next one.
fn number_of<R: RowKind>(
    table: &Table<R>,
    made: &HashMap<Id, usize>,
    old: Option<&R>,
    next: usize,
) -> usize
    ensures { result
        ≡ item_number R.id_of (number_by R.id_of table.now (get ident_eq made.now)) next
        (option_copied old.entry) }
{
    match old {
        Some(row) => number_now(table, made, row.id()).unwrap_or(next),
        None => next,
    }
}

// Takes in which row an item made, or took out.
fn tell_row<R: RowKind>(
    table: &Table<R>,
    old: Option<&R>,
    new: Option<&R>,
    next: usize,
    made: &mut HashMap<Id, usize>,
) -> Result<(), OutOfMemory>
    ensures { IfOk result
        (λ _. Renumbers R.id_of (number_by R.id_of table.now (get ident_eq made.old))
        (number_by R.id_of table.now (get ident_eq made.new)) next (option_copied old.entry)
        (option_copied new.entry)) }
{
    match (old, new) {
        (None, Some(row)) => {
            made.insert(row.id(), next)?;
        }
        (Some(row), None) => {
            let _ = made.remove(&row.id());
        }
        (None, None) | (Some(_), Some(_)) => {}
    }
    Ok(())
}

// Takes in the item at a place, which gives the next number to a row that it makes.
fn tell<R: RowKind>(
    table: &Table<R>,
    item: &Item,
    place: usize,
    next: usize,
    told: &mut Told,
) -> Result<(), OutOfMemory>
    ensures last { IfOk result
        (λ _. (k : _) → get nat_eq told.new.last k
        ≡ (if item_number R.id_of (number_by R.id_of table.now (get ident_eq told.old.made)) next
        (option_and_then R.part_of item.now.before) == k then Some place
        else get nat_eq told.old.last k)) }
    ensures made { IfOk result
        (λ _. Renumbers R.id_of (number_by R.id_of table.now (get ident_eq told.old.made))
        (number_by R.id_of table.now (get ident_eq told.new.made)) next
        (option_and_then R.part_of item.now.before)
        (option_and_then R.part_of item.now.after)) }
    ensures named { IfOk result
        (λ _. told.new.named.items
        ≡ told.old.named.items
        ++ item_number R.id_of (number_by R.id_of table.now (get ident_eq told.old.made)) next
        (option_and_then R.part_of item.now.before) ∷ []) }
{
    let old: Option<&R> = part_of(&item.before);
    let new: Option<&R> = part_of(&item.after);
    let number = number_of(table, &told.made, old, next);
    tell_row(table, old, new, next, &mut told.made)?;
    told.last.insert(number, place)?;
    told.named.push(number)?;
    Ok(())
}

impl<'r, R: RowKind> Numbers<'r, R> {
    /// The rows of the kind among these, and what a change makes of them. Its cost grows with the
    /// items of the change.
    pub fn of(
        alloc: Global,
        rows: &'r Rows,
        items: &'r [Item],
    ) -> Result<Numbers<'r, R>, OutOfMemory>
        requires { FitRows R.id_of (R.list_of rows.now)
            (row_items R.kind_is R.part_of items.now) }
        ensures { IfOk result
            (λ n. n
            ≡ record {
              rows = R.list_of rows.now;
              items = row_items R.kind_is R.part_of items.now;
            }) }
    {
        let table = R::table(rows);
        let mut told = Told {
            last: HashMap::new(alloc),
            made: HashMap::new(alloc),
            named: Vec::new(alloc),
        };
        let mut next = table.rows().len();
        let kind: Kind = R::kind();
        for place in 0..items.len() {
            let item = &items[place];
            if is_of(item, kind) {
                tell(table, item, place, next, &mut told)?;
                next += 1;
            }
        }
        Ok(Numbers { table, items, told })
    }

    /// The numbers of the rows that the change names.
    pub fn named(&self) -> &[usize]
        ensures { OthersStay self.now result.now }
    {
        self.told.named.as_slice()
    }

    /// The rows before the change. No two have one id.
    pub fn rows(&self) -> &'r [Shared<R>]
        ensures rows { result.now ≡ self.now.rows }
        ensures own_ids { HaveOwnIds R.id_of self.now.rows }
    {
        self.table.rows()
    }

    /// The number of the row with this id before the change. Its cost is the same however many
    /// there are.
    pub fn number(&self, id: Id) -> Option<usize>
        ensures { result ≡ place_of R.id_of id self.now.rows }
    {
        self.table.place(id)
    }

    /// The number of the row with this id after the change, where it is there.
    pub fn number_after(&self, id: Id) -> Option<usize>
        ensures { (r : R) → row_of R.id_of id (rows_after self.now.rows self.now.items) ≡ Some r
            → IsSomeAnd result (λ k. at_after self.now k ≡ Some r) }
    {
        number_now(self.table, &self.told.made, id)
    }

    /// The row with this number before the change.
    pub fn row(&self, number: usize) -> Option<&'r R>
        ensures { option_copied result ≡ slice_get self.now.rows number }
    {
        match self.table.rows().get(number) {
            Some(row) => Some(row.get()),
            None => None,
        }
    }

    /// The row with this number after the change.
    pub fn row_after(&self, number: usize) -> Option<&'r R>
        ensures { option_copied result ≡ at_after self.now number }
    {
        match self.told.last.get(&number) {
            Some(place) => row_by(self.items, *place),
            None => self.row(number),
        }
    }
}
