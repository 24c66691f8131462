//! Projects in the store.

ghost use Rattle.std.specs.Prelude.{◌≡◌, OnOk};
ghost use Rattle.keeper_sql.specs.Whole.{CommitsNothing, Runs};

use crate::column::text_at;
use crate::statement::execute;
use crate::stored::Stored;
use crate::trouble::Trouble;
use api_types::ProjectRow;
use sqlite::{Alter, Row, Transaction, params};
use std::alloc::Global;

// Numbers above the greatest of SQLite's integers fit no column.
fn signed(number: u64) -> Result<i64, Trouble> {
    match i64::try_from(number) {
        Ok(number) => Ok(number),
        Err(_) => Err(Trouble::Fault),
    }
}

/// Replaces the row with its id, or adds it last.
pub(crate) fn write<S: Alter>(to: &mut Transaction<'_, S>, row: &ProjectRow) -> Result<(), Trouble>
    ensures same_reference { to.new.conn.ghost_name ≡ to.old.conn.ghost_name }
    ensures inside { CommitsNothing S.Store to.old.conn.now to.new.conn.now }
    ensures ran { OnOk result (Runs S.Store to.old.conn.now to.new.conn.now) }
{
    let count = signed(row.count)?;
    execute(
        to,
        "INSERT INTO projects (ordinal, name, count) VALUES (?1, ?2, ?3)
        ON CONFLICT (ordinal) DO UPDATE SET name = excluded.name, count = excluded.count",
        params![row.ordinal, row.name.as_str(), count],
    )
}

pub(crate) fn delete<S: Alter>(to: &mut Transaction<'_, S>, row: &ProjectRow) -> Result<(), Trouble>
    ensures same_reference { to.new.conn.ghost_name ≡ to.old.conn.ghost_name }
    ensures inside { CommitsNothing S.Store to.old.conn.now to.new.conn.now }
    ensures ran { OnOk result (Runs S.Store to.old.conn.now to.new.conn.now) }
{
    execute(
        to,
        "DELETE FROM projects WHERE ordinal = ?1",
        params![row.ordinal],
    )
}

impl Stored for ProjectRow {
    fn select() -> &'static str {
        "SELECT ordinal, name, count FROM projects ORDER BY place"
    }

    fn read(_alloc: Global, row: &Row) -> Result<ProjectRow, Trouble> {
        let ordinal: u32 = row.get(0)?;
        let count: u64 = row.get(2)?;
        let name = text_at(row, 1)?;
        Ok(ProjectRow {
            name,
            ordinal,
            count,
        })
    }
}
