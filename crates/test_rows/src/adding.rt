//! Rows added last, as tests make them.

ghost use Rattle.std.specs.Prelude.{◌≡◌, None, length, IfSome};
ghost use Rattle.api_types.specs.Table.{row_of};
ghost use Rattle.test_rows.specs.Added.{CanBeAdded};

use api_types::{Item, Keyed, Kind, Row, Rows, Table};
use net_addr::{OutOfMemory, Seq};
use std::alloc::Global;

// The place after a table's rows, or none where a row with this id stands there.
fn end_for<R: Keyed>(table: &Table<R>, row: &R) -> Option<usize>
    ensures { IfSome result
        (λ n. (n ≡ length table.now) × (row_of R.id_of (R.id_of row.now) table.now ≡ None)) }
{
    match table.get(row.id()) {
        Some(_) => None,
        None => Some(table.rows().len()),
    }
}

fn end_of_kind(rows: &Rows, row: &Row) -> Option<(Kind, usize)>
    ensures { IfSome result (λ p. CanBeAdded rows.now row.now p.0 p.1) }
{
    match row {
        Row::Project(row) => Some((Kind::Project, end_for(rows.projects(), row)?)),
        Row::Network(row) => Some((Kind::Network, end_for(rows.networks(), row)?)),
        Row::Subnet(row) => Some((Kind::Subnet, end_for(rows.subnets(), row)?)),
        Row::Port(row) => Some((Kind::Port, end_for(rows.ports(), row)?)),
        Row::Group(row) => Some((Kind::Group, end_for(rows.groups(), row)?)),
        Row::Rule(row) => Some((Kind::Rule, end_for(rows.rules(), row)?)),
        Row::Router(row) => Some((Kind::Router, end_for(rows.routers(), row)?)),
        Row::Floating(row) => Some((Kind::Floating, end_for(rows.floatings(), row)?)),
        Row::Policy(row) => Some((Kind::Policy, end_for(rows.policies(), row)?)),
    }
}

/// Adds a row last, where its id is new.
pub fn add(alloc: Global, rows: &mut Rows, row: Row) -> Result<(), OutOfMemory> {
    let Some((kind, place)) = end_of_kind(rows, &row) else {
        return Ok(());
    };
    let mut change = Seq::new(alloc);
    change.push(Item {
        kind,
        place,
        before: None,
        after: Some(row),
    })?;
    rows.apply_change(alloc, &change)
}
