//! A change as one transaction.

ghost use Rattle.std.specs.Prelude.{◌≡◌, OnOk, length};
ghost use Rattle.keeper_sql.specs.Whole.{CommitsNothing, IsWhole, Runs, RunsAll};

use crate::statement::delete_by_id;
use crate::trouble::Trouble;
use crate::{floating, group, network, policy, port, project, router, rule, subnet};
use api_types::{Item, Row};
use sqlite::{Alter, Connection, Transaction};
use std::alloc::Global;

fn write_row<S: Alter>(alloc: Global, to: &mut Transaction<'_, S>, row: &Row) -> Result<(), Trouble>
    ensures same_reference { to.new.conn.ghost_name ≡ to.old.conn.ghost_name }
    ensures inside { CommitsNothing S.Store to.old.conn.now to.new.conn.now }
    ensures ran { OnOk result (Runs S.Store to.old.conn.now to.new.conn.now) }
{
    match row {
        Row::Project(row) => project::write(to, row),
        Row::Network(row) => network::write(alloc, to, row),
        Row::Subnet(row) => subnet::write(alloc, to, row),
        Row::Port(row) => port::write(alloc, to, row),
        Row::Group(row) => group::write(alloc, to, row),
        Row::Rule(row) => rule::write(alloc, to, row),
        Row::Router(row) => router::write(alloc, to, row),
        Row::Floating(row) => floating::write(alloc, to, row),
        Row::Policy(row) => policy::write(alloc, to, row),
    }
}

fn delete_row<S: Alter>(
    alloc: Global,
    to: &mut Transaction<'_, S>,
    row: &Row,
) -> Result<(), Trouble>
    ensures same_reference { to.new.conn.ghost_name ≡ to.old.conn.ghost_name }
    ensures inside { CommitsNothing S.Store to.old.conn.now to.new.conn.now }
    ensures ran { OnOk result (Runs S.Store to.old.conn.now to.new.conn.now) }
{
    match row {
        Row::Project(row) => project::delete(to, row),
        Row::Network(row) => delete_by_id(alloc, to, network::DELETE, row.id),
        Row::Subnet(row) => delete_by_id(alloc, to, subnet::DELETE, row.id),
        Row::Port(row) => delete_by_id(alloc, to, port::DELETE, row.id),
        Row::Group(row) => delete_by_id(alloc, to, group::DELETE, row.id),
        Row::Rule(row) => delete_by_id(alloc, to, rule::DELETE, row.id),
        Row::Router(row) => delete_by_id(alloc, to, router::DELETE, row.id),
        Row::Floating(row) => delete_by_id(alloc, to, floating::DELETE, row.id),
        Row::Policy(row) => delete_by_id(alloc, to, policy::DELETE, row.id),
    }
}

// Each item that fits has a row.
#[tactic(auto, using(crate::proofs::WholeLemmas::nothing_yet))]
fn write_item<S: Alter>(
    alloc: Global,
    to: &mut Transaction<'_, S>,
    item: &Item,
) -> Result<(), Trouble>
    ensures same_reference { to.new.conn.ghost_name ≡ to.old.conn.ghost_name }
    ensures inside { CommitsNothing S.Store to.old.conn.now to.new.conn.now }
    ensures ran { OnOk result (Runs S.Store to.old.conn.now to.new.conn.now) }
{
    match (&item.before, &item.after) {
        (_, Some(row)) => write_row(alloc, to, row),
        (Some(row), None) => delete_row(alloc, to, row),
        (None, None) => Err(Trouble::Fault),
    }
}

// One after the other, up to the first that fails.
fn write_items<S: Alter>(
    alloc: Global,
    to: &mut Transaction<'_, S>,
    items: &[Item],
) -> Result<(), Trouble>
    ensures same_reference { to.new.conn.ghost_name ≡ to.old.conn.ghost_name }
    ensures inside { CommitsNothing S.Store to.old.conn.now to.new.conn.now }
    ensures ran { OnOk result
        (RunsAll S.Store (length items.now) to.old.conn.now to.new.conn.now) }
{
    for item in items {
        write_item(alloc, to, item)?;
    }
    Ok(())
}

/// Writes the items in one transaction, which is rolled back if one of them fails.
pub(crate) fn write_change<S: Alter>(
    alloc: Global,
    conn: &mut Connection<S>,
    items: &[Item],
) -> Result<(), Trouble>
    ensures whole { IsWhole S.Store (length items.now) conn.old conn.new result }
{
    if !conn.is_autocommit() {
        // (SQLite refuses a second BEGIN)
        return Err(Trouble::Fault);
    }
    let mut to = conn.transaction();
    write_items(alloc, &mut to, items)?;
    to.commit()?;
    Ok(())
}
