//! Puts items of changes into tables, and takes them back.

ghost use Rattle.std.specs.Prelude.{◌≡◌, None, [], ◌∷◌, ◌++◌, if◌then◌else◌, Option, option_copied, IfOk, OnOk, OnErr};
ghost use Rattle.api_types.specs.declared.kind.Row.{Row};
ghost use Rattle.api_types.specs.Table.{is_new, row_of};
ghost use Rattle.api_types.specs.Parts.{project_of, network_of, subnet_of, port_of, group_of, rule_of, router_of, floating_of, policy_of};
ghost use Rattle.api_types.specs.Edits.{FitsTable, CameFrom, list_after, list_before};

use crate::change::Item;
use crate::row_kind::RowKind;
use crate::shared::Shared;
use crate::table::{Keyed, Table};
use net_addr::{Copies, OutOfMemory};
use std::alloc::Global;

/// Puts an item into the table of its kind, or leaves all as it is.
pub(crate) fn edit<R: RowKind>(
    alloc: Global,
    table: &mut Table<R>,
    item: &Item,
) -> Result<(), OutOfMemory>
    requires { FitsTable R.part_of R.id_of table.old item.now }
    ensures ok { OnOk result (table.new ≡ list_after R.part_of table.old item.now) }
    ensures err { OnErr result (table.new ≡ table.old) }
{
    let Some(row) = &item.after else {
        table.remove(item.place);
        return Ok(());
    };
    let Some(row) = R::part(row) else {
        return Ok(());
    };
    let row = Shared::new(alloc, row.copy(alloc)?)?;
    if item.before.is_some() {
        return table.replace(item.place, row);
    }
    table.push(row)
}

/// Takes an item back out of the table of its kind, into which it was put last, or leaves all as
/// it is.
pub(crate) fn unedit<R: RowKind>(
    alloc: Global,
    table: &mut Table<R>,
    item: &Item,
) -> Result<(), OutOfMemory>
    requires { CameFrom R.part_of R.id_of table.old item.now }
    ensures ok { OnOk result (table.new ≡ list_before R.part_of table.old item.now) }
    ensures err { OnErr result (table.new ≡ table.old) }
{
    let Some(row) = &item.before else {
        table.remove(item.place);
        return Ok(());
    };
    let Some(row) = R::part(row) else {
        return Ok(());
    };
    let row = Shared::new(alloc, row.copy(alloc)?)?;
    if item.after.is_some() {
        return table.replace(item.place, row);
    }
    table.insert(item.place, row)
}

/// Puts an item into the table of its kind, or leaves all as it is. Other owners of the table keep
/// it as it was.
pub(crate) fn edit_shared<R: RowKind>(
    alloc: Global,
    table: &mut Shared<Table<R>>,
    item: &Item,
) -> Result<(), OutOfMemory>
    requires { FitsTable R.part_of R.id_of table.old item.now }
    ensures ok { OnOk result (table.new ≡ list_after R.part_of table.old item.now) }
    ensures err { OnErr result (table.new ≡ table.old) }
{
    if let Some(table) = table.get_mut() {
        return edit(alloc, table, item);
    }
    let mut made = table.get().copy(alloc)?;
    edit(alloc, &mut made, item)?;
    *table = Shared::new(alloc, made)?;
    Ok(())
}

/// Takes an item back out of the table of its kind, into which it was put last, or leaves all as
/// it is. Other owners of the table keep it as it was.
pub(crate) fn unedit_shared<R: RowKind>(
    alloc: Global,
    table: &mut Shared<Table<R>>,
    item: &Item,
) -> Result<(), OutOfMemory>
    requires { CameFrom R.part_of R.id_of table.old item.now }
    ensures ok { OnOk result (table.new ≡ list_before R.part_of table.old item.now) }
    ensures err { OnErr result (table.new ≡ table.old) }
{
    if let Some(table) = table.get_mut() {
        return unedit(alloc, table, item);
    }
    let mut made = table.get().copy(alloc)?;
    unedit(alloc, &mut made, item)?;
    *table = Shared::new(alloc, made)?;
    Ok(())
}

fn push_shared<R: Keyed>(
    alloc: Global,
    table: &mut Shared<Table<R>>,
    row: Shared<R>,
) -> Result<(), OutOfMemory>
    requires { row_of R.id_of (R.id_of row) table.old ≡ None }
    ensures ok { OnOk result (table.new ≡ table.old ++ row ∷ []) }
    ensures err { OnErr result (table.new ≡ table.old) }
{
    if let Some(table) = table.get_mut() {
        return table.push(row);
    }
    let mut made = table.get().copy(alloc)?;
    made.push(row)?;
    *table = Shared::new(alloc, made)?;
    Ok(())
}

/// Adds a row last, where no row has its id, and answers whether it did. Otherwise, and because
/// memory ran out, nothing changes. Other owners of the table keep it as it was.
pub(crate) fn add_shared<R: Keyed>(
    alloc: Global,
    table: &mut Shared<Table<R>>,
    row: R,
) -> Result<bool, OutOfMemory>
    ensures added { IfOk result
        (λ added. (added ≡ is_new R.id_of row table.old)
        × (table.new ≡ (if added then table.old ++ row ∷ [] else table.old))) }
    ensures err { OnErr result (table.new ≡ table.old) }
{
    if table.get().get(row.id()).is_some() {
        return Ok(false);
    }
    let row = Shared::new(alloc, row)?;
    push_shared(alloc, table, row)?;
    Ok(true)
}
