//! Stores of format 1, in which all addresses are of version 4 and subnets have no modes.

use crate::stored::read_all;
use crate::tables::renew_tables;
use crate::trouble::Trouble;
use api_types::{FloatingRow, GroupRow, NetworkRow, PolicyRow, ProjectRow, Rows};
use old_rows::{OldPort, OldRouter, OldRows, OldRule, OldSubnet, migrate};
use sqlite::{Alter, Transaction};
use std::alloc::Global;

// Adds all rows, in the order of their kinds.
fn read_kinds<S: Alter>(
    alloc: Global,
    from: &mut Transaction<'_, S>,
    old: &mut OldRows,
) -> Result<(), Trouble> {
    read_all::<ProjectRow, OldRows, S>(alloc, from, old)?;
    read_all::<NetworkRow, OldRows, S>(alloc, from, old)?;
    read_all::<OldSubnet, OldRows, S>(alloc, from, old)?;
    read_all::<OldPort, OldRows, S>(alloc, from, old)?;
    read_all::<GroupRow, OldRows, S>(alloc, from, old)?;
    read_all::<OldRule, OldRows, S>(alloc, from, old)?;
    read_all::<OldRouter, OldRows, S>(alloc, from, old)?;
    read_all::<FloatingRow, OldRows, S>(alloc, from, old)?;
    read_all::<PolicyRow, OldRows, S>(alloc, from, old)
}

fn read_old<S: Alter>(alloc: Global, from: &mut Transaction<'_, S>) -> Result<OldRows, Trouble> {
    let mut old = OldRows::empty(alloc)?;
    read_kinds(alloc, from, &mut old)?;
    Ok(old)
}

// The rows as they are after the migration.
fn read_migrated<S: Alter>(alloc: Global, from: &mut Transaction<'_, S>) -> Result<Rows, Trouble> {
    let old = read_old(alloc, from)?;
    Ok(migrate(alloc, &old)?)
}

/// The rows of a store of format 1, which is of format 2 after it.
pub(crate) fn migrate_store<S: Alter>(
    alloc: Global,
    store: &mut Transaction<'_, S>,
) -> Result<Rows, Trouble> {
    let rows = read_migrated(alloc, store)?;
    renew_tables(store)?;
    Ok(rows)
}
