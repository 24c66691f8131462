//! The rows before the last change, which follow it only when the next one comes.

ghost use Rattle.std.specs.Prelude.{◌≡◌, IfOk};
ghost use Rattle.api_types.specs.Rows.{Fits, after};

use api_types::{Change, Item, Row, Rows};
use net_addr::{Copies, OutOfMemory, Seq};
use std::alloc::Global;
use std::marker::Model;

/// Rows before a change, and the change. Contracts see the rows after it. As no one else has the
/// tables of the rows before, the change is put into them with no copy.
#[derive(Drop)]
pub(crate) struct Shadow {
    rows: Rows,
    change: Change,
}

impl Model for Shadow {
    ghost use Rattle.api_types.specs.RowLists.{RowLists};
    ghost use Rattle.api_types.specs.Rows.{Fits, after};

    ghost Value = { RowLists };

    ghost view = { λ s. after s.rows s.change };

    ghost invariant = { λ s. Fits s.rows s.change };
}

fn copy_row(alloc: Global, row: &Row) -> Result<Row, OutOfMemory>
    ensures { IfOk result (λ r. r ≡ row.now) }
{
    Ok(match row {
        Row::Project(row) => Row::Project(row.copy(alloc)?),
        Row::Network(row) => Row::Network(row.copy(alloc)?),
        Row::Subnet(row) => Row::Subnet(row.copy(alloc)?),
        Row::Port(row) => Row::Port(row.copy(alloc)?),
        Row::Group(row) => Row::Group(row.copy(alloc)?),
        Row::Rule(row) => Row::Rule(row.copy(alloc)?),
        Row::Router(row) => Row::Router(row.copy(alloc)?),
        Row::Floating(row) => Row::Floating(row.copy(alloc)?),
        Row::Policy(row) => Row::Policy(row.copy(alloc)?),
    })
}

fn copy_part(alloc: Global, row: &Option<Row>) -> Result<Option<Row>, OutOfMemory>
    ensures { IfOk result (λ r. r ≡ row.now) }
{
    match row {
        Some(row) => Ok(Some(copy_row(alloc, row)?)),
        None => Ok(None),
    }
}

fn copy_item(alloc: Global, item: &Item) -> Result<Item, OutOfMemory>
    ensures { IfOk result (λ i. i ≡ item.now) }
{
    Ok(Item {
        kind: item.kind,
        place: item.place,
        before: copy_part(alloc, &item.before)?,
        after: copy_part(alloc, &item.after)?,
    })
}

fn copy_change(alloc: Global, items: &[Item]) -> Result<Change, OutOfMemory>
    ensures { IfOk result (λ c. c ≡ items.now) }
{
    let mut copied = Seq::new(alloc);
    for item in items {
        copied.push(copy_item(alloc, item)?)?;
    }
    Ok(copied)
}

impl Shadow {
    /// These rows, which the change is yet to be put into.
    pub(crate) fn of(alloc: Global, rows: Rows, change: &Change) -> Result<Shadow, OutOfMemory>
        requires { Fits rows change.now }
        ensures { IfOk result (λ s. s ≡ after rows change.now) }
    {
        let change = copy_change(alloc, change.as_slice())?;
        Ok(Shadow { rows, change })
    }

    /// The rows after the change. Its cost is that of the change, where nobody shares the tables.
    pub(crate) fn into_rows(self, alloc: Global) -> Result<Rows, OutOfMemory>
        ensures { IfOk result (λ rows. rows ≡ self) }
    {
        let Shadow { mut rows, change } = self;
        rows.apply_change(alloc, &change)?;
        Ok(rows)
    }
}
