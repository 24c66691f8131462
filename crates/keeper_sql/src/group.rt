//! Security groups in the store.

ghost use Rattle.std.specs.Prelude.{◌≡◌, OnOk};
ghost use Rattle.keeper_sql.specs.Whole.{CommitsNothing, Runs};

use crate::column::{flag_at, id_at};
use crate::names::{Names, names_at};
use crate::statement::execute;
use crate::stored::Stored;
use crate::trouble::Trouble;
use api_types::GroupRow;
use sqlite::{Alter, Row, Transaction, params};
use std::alloc::Global;

const UPSERT: &str = "INSERT INTO security_groups (id, project_id, name, description, is_default)
    VALUES (?1, ?2, ?3, ?4, ?5)
    ON CONFLICT (id) DO UPDATE SET project_id = excluded.project_id, name = excluded.name,
    description = excluded.description, is_default = excluded.is_default";

/// Deletes the row with an id.
pub(crate) const DELETE: &str = "DELETE FROM security_groups WHERE id = ?1";

/// Replaces the row with its id, or adds it last.
pub(crate) fn write<S: Alter>(
    alloc: Global,
    to: &mut Transaction<'_, S>,
    row: &GroupRow,
) -> Result<(), Trouble>
    ensures same_reference { to.new.conn.ghost_name ≡ to.old.conn.ghost_name }
    ensures inside { CommitsNothing S.Store to.old.conn.now to.new.conn.now }
    ensures ran { OnOk result (Runs S.Store to.old.conn.now to.new.conn.now) }
{
    let id = row.id.print(alloc)?;
    execute(
        to,
        UPSERT,
        params![
            id.as_str(),
            row.project.as_str(),
            row.name.as_str(),
            row.description.as_str(),
            row.is_default,
        ],
    )
}

impl Stored for GroupRow {
    fn select() -> &'static str {
        "SELECT id, project_id, name, description, is_default FROM security_groups ORDER BY place"
    }

    fn read(_alloc: Global, row: &Row) -> Result<GroupRow, Trouble> {
        let id = id_at(row, 0)?;
        let is_default = flag_at(row, 4)?;
        let Names {
            project,
            name,
            description,
        } = names_at(row, 2, 3)?;
        Ok(GroupRow {
            id,
            project,
            name,
            description,
            is_default,
        })
    }
}
