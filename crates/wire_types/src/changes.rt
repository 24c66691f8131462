//! Copies of changes.
ghost use Rattle.std.specs.Prelude.{◌≡◌, IfOk};

use api_types::{Change, Item, Row};
use net_addr::{Copies, OutOfMemory, Seq};
use std::alloc::Global;

fn copy_row(alloc: Global, row: &Row) -> Result<Row, OutOfMemory>
    ensures { IfOk result (λ r. r ≡ row.now) }
{
    Ok(match row {
        Row::Project(row) => Row::Project(row.copy(alloc)?),
        Row::Network(row) => Row::Network(row.copy(alloc)?),
        Row::Subnet(row) => Row::Subnet(row.copy(alloc)?),
        Row::Port(row) => Row::Port(row.copy(alloc)?),
        Row::Group(row) => Row::Group(row.copy(alloc)?),
        Row::Rule(row) => Row::Rule(row.copy(alloc)?),
        Row::Router(row) => Row::Router(row.copy(alloc)?),
        Row::Floating(row) => Row::Floating(row.copy(alloc)?),
        Row::Policy(row) => Row::Policy(row.copy(alloc)?),
    })
}

fn copy_if(alloc: Global, row: &Option<Row>) -> Result<Option<Row>, OutOfMemory>
    ensures { IfOk result (λ r. r ≡ row.now) }
{
    match row {
        Some(row) => Ok(Some(copy_row(alloc, row)?)),
        None => Ok(None),
    }
}

/// An equal change. Its cost grows with the change.
pub fn copy_change(alloc: Global, change: &Change) -> Result<Change, OutOfMemory>
    ensures { IfOk result (λ c. c ≡ change.now) }
{
    let mut items = Seq::new(alloc);
    for item in change.as_slice() {
        items.push(Item {
            kind: item.kind,
            place: item.place,
            before: copy_if(alloc, &item.before)?,
            after: copy_if(alloc, &item.after)?,
        })?;
    }
    Ok(items)
}
