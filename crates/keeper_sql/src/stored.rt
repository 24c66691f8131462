//! A kind of rows in the store.

use crate::trouble::Trouble;
use net_addr::OutOfMemory;
use sqlite::{Alter, Row, Transaction};
use std::alloc::Global;

/// A row of a kind that has a table.
pub(crate) trait Stored: Sized + Drop {
    /// The query of all rows, in the order in which they were made.
    fn select() -> &'static str;

    /// The row that the columns of the query spell. Those that own no memory are read first: then
    /// less has to be dropped if a later one is refused.
    fn read(alloc: Global, row: &Row) -> Result<Self, Trouble>;
}

/// A row of a kind that is kept among others, of today or of a store of format 1.
pub(crate) trait AddedTo<K>: Stored {
    /// Adds it last, where none has its id, and tells whether it did.
    fn add_to(self, alloc: Global, kept: &mut K) -> Result<bool, OutOfMemory>;
}

// A row that was added, where its id was new.
fn ensure_once(is_new: bool) -> Result<(), Trouble> {
    if is_new { Ok(()) } else { Err(Trouble::Fault) }
}

/// Adds all rows of a kind, one at a time.
pub(crate) fn read_all<R: AddedTo<K>, K, S: Alter>(
    alloc: Global,
    from: &mut Transaction<'_, S>,
    kept: &mut K,
) -> Result<(), Trouble> {
    let mut found = from.query(R::select(), &[])?;
    for _ in 0..u64::MAX {
        match found.next()? {
            Some(row) => ensure_once(R::read(alloc, row)?.add_to(alloc, kept)?)?,
            None => return Ok(()),
        }
    }
    Err(Trouble::Fault)
}
