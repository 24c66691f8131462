//! The keeper over a database of SQLite.

ghost use Rattle.std.specs.Prelude.{◌≡◌, ◌≤◌, None, length};
ghost use Rattle.keeper_core.specs.Counts.{HasRefusalCause, RoseBy};
ghost use Rattle.keeper_core.specs.declared.refusal.OutsideRefusal.TheVariants.{Failed as HasFailed};
ghost use Rattle.keeper_sql.specs.Whole.{IsWhole};

use crate::change::write_change;
use crate::migration::migrate_store;
use crate::stored::read_all;
use crate::tables::{Format, make_tables};
use crate::trouble::Trouble;
use api_types::{
    Change, FloatingRow, GroupRow, NetworkRow, PolicyRow, PortRow, ProjectRow, RouterRow, Rows,
    RuleRow, SubnetRow,
};
use keeper_core::{Keeper, KeeperRefusal};
use sqlite::{Alter, Connection, Transaction};
use std::alloc::Global;
use std::marker::Model;

/// Rows in a database of SQLite. Contracts see it as its connection and its count of faults.
#[derive(Drop)]
pub struct SqlKeeper<S: Alter> {
    conn: Connection<S>,
    faults: u64,
}

impl<S: Alter> Model for SqlKeeper<S> {
    ghost use Rattle.keeper_sql.specs.Counting.{CountingConnection, counting_code};

    ghost Value = { CountingConnection S };

    ghost coded = { counting_code S.code };

    ghost view = { λ k. record { conn = k.conn; faults = k.faults } };
}

// Adds all rows, in the order of their kinds.
fn read_kinds<S: Alter>(
    alloc: Global,
    from: &mut Transaction<'_, S>,
    rows: &mut Rows,
) -> Result<(), Trouble> {
    read_all::<ProjectRow, Rows, S>(alloc, from, rows)?;
    read_all::<NetworkRow, Rows, S>(alloc, from, rows)?;
    read_all::<SubnetRow, Rows, S>(alloc, from, rows)?;
    read_all::<PortRow, Rows, S>(alloc, from, rows)?;
    read_all::<GroupRow, Rows, S>(alloc, from, rows)?;
    read_all::<RuleRow, Rows, S>(alloc, from, rows)?;
    read_all::<RouterRow, Rows, S>(alloc, from, rows)?;
    read_all::<FloatingRow, Rows, S>(alloc, from, rows)?;
    read_all::<PolicyRow, Rows, S>(alloc, from, rows)
}

// The rows of a store of the current format.
fn read_current<S: Alter>(alloc: Global, from: &mut Transaction<'_, S>) -> Result<Rows, Trouble> {
    let mut rows = Rows::empty(alloc)?;
    read_kinds(alloc, from, &mut rows)?;
    Ok(rows)
}

// The rows of a store, which is of the current format after it.
fn read_format<S: Alter>(alloc: Global, from: &mut Transaction<'_, S>) -> Result<Rows, Trouble> {
    match make_tables(from)? {
        Format::One => migrate_store(alloc, from),
        Format::Two => read_current(alloc, from),
    }
}

// The rows, and the end of the transaction in which they are read.
fn read_in<S: Alter>(alloc: Global, transaction: Transaction<'_, S>) -> Result<Rows, Trouble> {
    let mut from = transaction;
    let rows = read_format(alloc, &mut from)?;
    from.commit()?;
    Ok(rows)
}

// The rows, of one transaction, which makes the tables where there are none, and writes those of a
// store of format 1 as of format 2.
fn read_rows<S: Alter>(alloc: Global, conn: &mut Connection<S>) -> Result<Rows, Trouble> {
    if !conn.is_autocommit() {
        // (SQLite refuses a second BEGIN)
        return Err(Trouble::Fault);
    }
    read_in(alloc, conn.transaction())
}

// Counts a fault, but not running out of memory.
fn refuse(faults: &mut u64, trouble: Trouble) -> KeeperRefusal
    ensures later { faults.old ≤ faults.new }
    ensures cause { result ≡ HasFailed → RoseBy 1 faults.old faults.new }
{
    match trouble {
        Trouble::OutOfMemory => KeeperRefusal::OutOfMemory,
        Trouble::Fault => {
            *faults = faults.saturating_add(1);
            KeeperRefusal::Failed
        }
    }
}

impl<S: Alter> SqlKeeper<S> {
    /// A keeper of the rows in this database. Its first `load` makes the tables if there are none.
    pub fn make(conn: Connection<S>) -> SqlKeeper<S>
        ensures { result ≡ record { conn = conn; faults = 0 } }
    {
        SqlKeeper { conn, faults: 0 }
    }

    /// How many calls failed.
    pub fn faults(&self) -> u64
        ensures { result ≡ self.now.faults }
    {
        self.faults
    }

    /// The connection, for closing it.
    pub fn into_conn(self) -> Connection<S>
        ensures { result ≡ self.conn }
    {
        let SqlKeeper { conn, faults: _ } = self;
        conn
    }
}

impl<S: Alter> Keeper for SqlKeeper<S> {
    ghost told = { λ k. record { rows = None; faults = k.faults } };

    fn load(&mut self, alloc: Global) -> Result<Rows, KeeperRefusal> {
        match read_rows(alloc, &mut self.conn) {
            Ok(rows) => Ok(rows),
            Err(trouble) => Err(refuse(&mut self.faults, trouble)),
        }
    }

    fn apply(&mut self, alloc: Global, change: &Change) -> Result<(), KeeperRefusal>
        ensures whole { IsWhole S.Store (length change.now) self.old.conn self.new.conn result }
        ensures cause { HasRefusalCause self.old.faults self.new.faults result }
    {
        match write_change(alloc, &mut self.conn, change.as_slice()) {
            Ok(()) => Ok(()),
            Err(trouble) => Err(refuse(&mut self.faults, trouble)),
        }
    }
}
