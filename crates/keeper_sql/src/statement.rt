//! Statements inside a transaction.

ghost use Rattle.std.specs.Prelude.{◌≡◌, OnOk};
ghost use Rattle.keeper_sql.specs.Whole.{CommitsNothing, Runs};

use crate::trouble::Trouble;
use api_types::Id;
use sqlite::types::ValueRef;
use sqlite::{Alter, Transaction, params};
use std::alloc::Global;

/// Runs a statement that returns no rows.
pub(crate) fn execute<S: Alter>(
    to: &mut Transaction<'_, S>,
    statement: &str,
    values: &[ValueRef<'_>],
) -> Result<(), Trouble>
    ensures same_reference { to.new.conn.ghost_name ≡ to.old.conn.ghost_name }
    ensures inside { CommitsNothing S.Store to.old.conn.now to.new.conn.now }
    ensures ran { OnOk result (Runs S.Store to.old.conn.now to.new.conn.now) }
{
    to.execute(statement, values)?;
    Ok(())
}

/// Deletes the row with this id, by the statement for its table.
#[tactic(auto, using(crate::proofs::WholeLemmas::nothing_yet))]
pub(crate) fn delete_by_id<S: Alter>(
    alloc: Global,
    to: &mut Transaction<'_, S>,
    statement: &str,
    id: Id,
) -> Result<(), Trouble>
    ensures same_reference { to.new.conn.ghost_name ≡ to.old.conn.ghost_name }
    ensures inside { CommitsNothing S.Store to.old.conn.now to.new.conn.now }
    ensures ran { OnOk result (Runs S.Store to.old.conn.now to.new.conn.now) }
{
    let id = id.print(alloc)?;
    execute(to, statement, params![id.as_str()])
}
