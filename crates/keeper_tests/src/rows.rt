//! Changes by rows, and whether a store gives rows.
use api_types::{Change, Item, Keyed, Kind, Row, Rows, Shared, Table};
use keeper_core::Keeper;
use keeper_sql::SqlKeeper;
use net_addr::{OutOfMemory, Same, Seq};
use sqlite::MemStore;
use std::alloc::Global;
use test_rows::add;

fn kind_of(row: &Row) -> Kind {
    match row {
        Row::Project(_) => Kind::Project,
        Row::Network(_) => Kind::Network,
        Row::Subnet(_) => Kind::Subnet,
        Row::Port(_) => Kind::Port,
        Row::Group(_) => Kind::Group,
        Row::Rule(_) => Kind::Rule,
        Row::Router(_) => Kind::Router,
        Row::Floating(_) => Kind::Floating,
        Row::Policy(_) => Kind::Policy,
    }
}

// The item by which a row is made, or taken out.
fn item(row: Row, is_made: bool) -> Item {
    let kind = kind_of(&row);
    let (before, after) = if is_made {
        (None, Some(row))
    } else {
        (Some(row), None)
    };
    Item {
        kind,
        place: 0,
        before,
        after,
    }
}

/// Puts one item for each row after a change.
pub(crate) fn push_items(
    change: &mut Change,
    rows: Seq<Row>,
    is_made: bool,
) -> Result<(), OutOfMemory> {
    for row in rows.into_vec() {
        change.push(item(row, is_made))?;
    }
    Ok(())
}

// The rows of a store to which these are added.
fn rows_of(alloc: Global, added: Seq<Row>) -> Result<Rows, OutOfMemory> {
    let mut rows = Rows::empty(alloc)?;
    for row in added.into_vec() {
        add(alloc, &mut rows, row)?;
    }
    Ok(rows)
}

fn same_list<R: Keyed + Same>(a: &[Shared<R>], b: &[Shared<R>]) -> bool {
    if a.len() != b.len() {
        return false;
    }
    for (place, row) in a.iter().enumerate() {
        if !row.is_same(&b[place]) {
            return false;
        }
    }
    true
}

fn same_table<R: Keyed + Same>(a: &Table<R>, b: &Table<R>) -> bool {
    same_list(a.rows(), b.rows())
}

// Whether both have the same rows, in the same order.
fn are_same(a: &Rows, b: &Rows) -> bool {
    same_table(a.projects(), b.projects())
        && same_table(a.networks(), b.networks())
        && same_table(a.subnets(), b.subnets())
        && same_table(a.ports(), b.ports())
        && same_table(a.groups(), b.groups())
        && same_table(a.rules(), b.rules())
        && same_table(a.routers(), b.routers())
        && same_table(a.floatings(), b.floatings())
        && same_table(a.policies(), b.policies())
}

/// Whether the store is loaded with these rows, in their order.
pub(crate) fn gives(
    alloc: Global,
    keeper: &mut SqlKeeper<MemStore>,
    rows: Seq<Row>,
) -> Result<bool, OutOfMemory> {
    let rows = rows_of(alloc, rows)?;
    match keeper.load(alloc) {
        Ok(kept) => Ok(are_same(&kept, &rows)),
        Err(_) => Ok(false),
    }
}
