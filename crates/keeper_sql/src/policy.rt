//! RBAC policies in the store.

ghost use Rattle.std.specs.Prelude.{◌≡◌, OnOk};
ghost use Rattle.keeper_sql.specs.Whole.{CommitsNothing, Runs};

use crate::column::{bytes_at, id_at, text_at};
use crate::statement::execute;
use crate::stored::Stored;
use crate::trouble::Trouble;
use api_types::{Action, PolicyRow};
use sqlite::{Alter, Row, Transaction, params};
use std::alloc::Global;

const UPSERT: &str = "INSERT INTO rbac_policies (id, project_id, object_id, action, target_tenant)
    VALUES (?1, ?2, ?3, ?4, ?5)
    ON CONFLICT (id) DO UPDATE SET project_id = excluded.project_id,
    object_id = excluded.object_id, action = excluded.action,
    target_tenant = excluded.target_tenant";

/// Deletes the row with an id.
pub(crate) const DELETE: &str = "DELETE FROM rbac_policies WHERE id = ?1";

fn action_word(action: Action) -> &'static str {
    match action {
        Action::Shared => "access_as_shared",
        Action::External => "access_as_external",
    }
}

fn action_at(row: &Row, at: usize) -> Result<Action, Trouble> {
    let word = bytes_at(row, at)?;
    if word == b"access_as_shared".as_slice() {
        Ok(Action::Shared)
    } else if word == b"access_as_external".as_slice() {
        Ok(Action::External)
    } else {
        Err(Trouble::Fault)
    }
}

/// Replaces the row with its id, or adds it last.
pub(crate) fn write<S: Alter>(
    alloc: Global,
    to: &mut Transaction<'_, S>,
    row: &PolicyRow,
) -> Result<(), Trouble>
    ensures same_reference { to.new.conn.ghost_name ≡ to.old.conn.ghost_name }
    ensures inside { CommitsNothing S.Store to.old.conn.now to.new.conn.now }
    ensures ran { OnOk result (Runs S.Store to.old.conn.now to.new.conn.now) }
{
    let id = row.id.print(alloc)?;
    let object = row.object.print(alloc)?;
    execute(
        to,
        UPSERT,
        params![
            id.as_str(),
            row.project.as_str(),
            object.as_str(),
            action_word(row.action),
            row.target.as_str(),
        ],
    )
}

impl Stored for PolicyRow {
    fn select() -> &'static str {
        "SELECT id, project_id, object_id, action, target_tenant FROM rbac_policies ORDER BY place"
    }

    fn read(_alloc: Global, row: &Row) -> Result<PolicyRow, Trouble> {
        let id = id_at(row, 0)?;
        let object = id_at(row, 2)?;
        let action = action_at(row, 3)?;
        let project = text_at(row, 1)?;
        let target = text_at(row, 4)?;
        Ok(PolicyRow {
            id,
            project,
            object,
            action,
            target,
        })
    }
}
