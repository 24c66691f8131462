//! Whether a change fits rows, without memory.
//!
//! Each item has to fit the rows as the earlier items leave them, and no copy of the rows is made:
//! what stands at a place after some items, and whether an id is there, is found by going back
//! from the last of these items to the first, and then in the rows themselves.
ghost use Rattle.std.specs.Prelude.{◌≡◌, ◌↔◌, ◌^◌, ◌<◌, ◌≤◌, ◌+◌, length, is_some, slice_get, option_copied, option_and_then, IfSome, IsTrue, List};
ghost use Rattle.api_types.specs.Table as table_specs;
ghost use Rattle.api_types.specs.Edits as edits;
ghost use Rattle.api_types.specs.TableItems as table_items;
ghost use Rattle.api_types.specs.Rows as row_specs;
ghost use Rattle.api_types.specs.declared.change.Item.{Item};

use crate::change::{Change, Item};
use crate::id::Id;
use crate::kind::{Kind, Row};
use crate::row_kind::RowKind;
use crate::rows::Rows;
use crate::table::{Keyed, Table};
use net_addr::Same;

/// Whether two kinds are the same.
pub(crate) fn is_kind(a: Kind, b: Kind) -> bool
    ensures { result ≡ table_items.same_kind a b }
{
    a == b
}

fn row_at<R: Keyed>(table: &Table<R>, at: u128) -> Option<&R>
    ensures { option_copied result ≡ slice_get table.now at }
{
    let rows = table.rows();
    if at < rows.len() as u128 {
        return Some(rows[at as usize].get());
    }
    None
}

/// The place, before an item, of the row that stands at a place after it. None where the item put
/// that row there.
fn go_back(item: &Item, kind: Kind, at: u128) -> Option<u128>
    requires { at < 2 ^ 127 }
    ensures before { result ≡ table_items.place_before kind item.now at }
    ensures near { IfSome result (λ before. before ≤ at + 1) }
{
    if !is_kind(item.kind, kind) {
        return Some(at);
    }
    let place = item.place as u128;
    if item.after.is_some() {
        if place == at {
            return None;
        }
        return Some(at);
    }
    if place <= at {
        return Some(at + 1);
    }
    Some(at)
}

/// The row of a kind, where there is a row and it is of this kind.
fn part<R: RowKind>(row: &Option<Row>) -> Option<&R>
    ensures { option_copied result ≡ option_and_then R.part_of row.now }
{
    match row {
        Some(row) => R::part(row),
        None => None,
    }
}

/// The row at a place after the items.
fn find_row<'a, R: RowKind>(
    table: &'a Table<R>,
    kind: Kind,
    items: &'a [Item],
    place: usize,
) -> Option<&'a R>
    requires { table_items.FitAll kind R.part_of R.id_of table.now items.now }
    ensures { option_copied result
        ≡ slice_get (table_items.after_all kind R.part_of table.now items.now) place }
{
    // A place may be the last number of its type, and each row that goes adds one to it.
    let mut at = place as u128;
    for i in 0..items.len() {
        let item = &items[items.len() - 1 - i];
        match go_back(item, kind, at) {
            Some(before) => at = before,
            None => return part(&item.after),
        }
    }
    row_at(table, at)
}

/// Whether as many rows as this stand there after the items.
fn is_end<R: RowKind>(table: &Table<R>, kind: Kind, items: &[Item], place: usize) -> bool
    requires { table_items.FitAll kind R.part_of R.id_of table.now items.now }
    ensures { IsTrue result
        ↔ (place ≡ length (table_items.after_all kind R.part_of table.now items.now)) }
{
    if find_row(table, kind, items, place).is_some() {
        return false;
    }
    place == 0 || find_row(table, kind, items, place - 1).is_some()
}

fn has_id<R: RowKind>(row: &Option<Row>, id: Id) -> bool
    ensures { result
        ≡ table_items.has_id R.id_of id (option_and_then R.part_of row.now) }
{
    match part::<R>(row) {
        Some(row) => id == row.id(),
        None => false,
    }
}

/// Whether a row with this id is there after an item, or none where the item doesn't say so.
fn ask_item<R: RowKind>(item: &Item, kind: Kind, id: Id) -> Option<bool>
    ensures { result ≡ table_items.said_by kind R.part_of R.id_of id item.now }
{
    if !is_kind(item.kind, kind) {
        return None;
    }
    if has_id::<R>(&item.after, id) {
        return Some(true);
    }
    if has_id::<R>(&item.before, id) {
        return Some(false);
    }
    None
}

/// Whether a row with this id is there after the items.
fn has_row<R: RowKind>(table: &Table<R>, kind: Kind, items: &[Item], id: Id) -> bool
    requires { table_items.FitAll kind R.part_of R.id_of table.now items.now }
    ensures { result ≡ is_some (table_specs.row_of R.id_of id
        (table_items.after_all kind R.part_of table.now items.now)) }
{
    let _own_ids = table.rows(); // for the proof: no two rows have one id
    for i in 0..items.len() {
        if let Some(there) = ask_item::<R>(&items[items.len() - 1 - i], kind, id) {
            return there;
        }
    }
    table.get(id).is_some()
}

/// Whether this row stands at a place after the items.
fn holds_row<R: RowKind>(
    table: &Table<R>,
    kind: Kind,
    items: &[Item],
    place: usize,
    row: &R,
) -> bool
    requires { table_items.FitAll kind R.part_of R.id_of table.now items.now }
    ensures { IsTrue result
        ↔ (slice_get (table_items.after_all kind R.part_of table.now items.now) place
        ≡ Some row.now) }
{
    match find_row(table, kind, items, place) {
        Some(found) => found.is_same(row),
        None => false,
    }
}

/// Whether the row before an item and the row after it, each of which may be none, fit the rows
/// after the items.
fn fits_at<R: RowKind>(
    table: &Table<R>,
    kind: Kind,
    items: &[Item],
    place: usize,
    before: Option<&R>,
    after: Option<&R>,
) -> bool
    requires { table_items.FitAll kind R.part_of R.id_of table.now items.now }
    ensures { IsTrue result ↔ edits.FitsAt R.id_of
        (table_items.after_all kind R.part_of table.now items.now)
        place (option_copied before.entry) (option_copied after.entry) }
{
    let Some(before) = before else {
        let Some(after) = after else {
            return false;
        };
        return is_end(table, kind, items, place) && !has_row(table, kind, items, after.id());
    };
    if !holds_row(table, kind, items, place, before) {
        return false;
    }
    match after {
        Some(after) => after.id() == before.id(),
        None => true,
    }
}

/// Whether there is no row, or one of this kind.
fn is_of_kind<R: RowKind>(row: &Option<Row>) -> bool
    ensures { IsTrue result ↔ edits.IsOfKind R.part_of row.now }
{
    match row {
        Some(row) => R::part(row).is_some(),
        None => true,
    }
}

/// Whether an item of a kind fits the rows of that kind after the items.
fn fits_table<R: RowKind>(table: &Table<R>, kind: Kind, items: &[Item], item: &Item) -> bool
    requires { table_items.FitAll kind R.part_of R.id_of table.now items.now }
    ensures { IsTrue result ↔ edits.FitsTable R.part_of R.id_of
        (table_items.after_all kind R.part_of table.now items.now) item.now }
{
    is_of_kind::<R>(&item.before)
        && is_of_kind::<R>(&item.after)
        && fits_at(
            table,
            kind,
            items,
            item.place,
            part(&item.before),
            part(&item.after),
        )
}

fn fits_item(rows: &Rows, earlier: &[Item], item: &Item) -> bool
    requires { row_specs.Fits rows.now earlier.now }
    ensures { IsTrue result
        ↔ row_specs.FitsItem (row_specs.after rows.now earlier.now) item.now }
{
    match item.kind {
        Kind::Project => fits_table(rows.projects(), Kind::Project, earlier, item),
        Kind::Network => fits_table(rows.networks(), Kind::Network, earlier, item),
        Kind::Subnet => fits_table(rows.subnets(), Kind::Subnet, earlier, item),
        Kind::Port => fits_table(rows.ports(), Kind::Port, earlier, item),
        Kind::Group => fits_table(rows.groups(), Kind::Group, earlier, item),
        Kind::Rule => fits_table(rows.rules(), Kind::Rule, earlier, item),
        Kind::Router => fits_table(rows.routers(), Kind::Router, earlier, item),
        Kind::Floating => fits_table(rows.floatings(), Kind::Floating, earlier, item),
        Kind::Policy => fits_table(rows.policies(), Kind::Policy, earlier, item),
    }
}

fn fit_rows(items: &[Item], rows: &Rows) -> bool
    ensures { IsTrue result ↔ row_specs.Fits rows.now items.now }
{
    for place in 0..items.len() {
        if !fits_item(rows, &items[..place], &items[place]) {
            return false;
        }
    }
    true
}

/// What can be asked of a change before it is put into rows.
pub trait FitsRows {
    ghost items_of: { Self → List Item };

    /// Whether each item fits the rows as the earlier ones leave them. It allocates nothing, and
    /// its cost grows with the square of the items.
    fn fits(&self, rows: &Rows) -> bool
        ensures { IsTrue result ↔ row_specs.Fits rows.now (items_of self.now) };
}

impl FitsRows for Change {
    ghost items_of = { λ items. items };

    fn fits(&self, rows: &Rows) -> bool {
        fit_rows(self.as_slice(), rows)
    }
}
