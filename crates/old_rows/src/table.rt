//! The old rows of one kind.

ghost use Rattle.std.specs.Prelude.{◌≡◌, [], ◌∷◌, ◌++◌, if◌then◌else◌, IfOk, OnErr, OnOk, None, option_copied};
ghost use Rattle.api_types.specs.Ident.{Ident};
ghost use Rattle.api_types.specs.Table.{row_of, is_new, HaveOwnIds};

use crate::migrates::Migrates;
use api_types::Id;
use indexmap::IndexMap;
use net_addr::OutOfMemory;
use std::alloc::Global;
use std::marker::Model;

/// An old row with an id of its own.
pub(crate) trait OldRow: Migrates {
    ghost id_of: { Self → Ident };

    /// The id by which the row is found.
    fn id(&self) -> Id
        ensures { result ≡ id_of self.now };
}

/// The old rows of one kind. Contracts see them as a list in order of creation.
#[derive(Drop)]
pub(crate) struct OldTable<R: OldRow> {
    by_id: IndexMap<Id, R>,
}

impl<R: OldRow> Model for OldTable<R> {
    ghost use Rattle.std.specs.Prelude.{◌≡◌, List};
    ghost use Rattle.indexmap.specs.IndexMap.{values};
    ghost use Rattle.api_types.specs.Table.{entries_of};

    ghost Value = { List R };

    ghost view = { λ t. values t.by_id };

    ghost invariant = { λ t. t.by_id.entries ≡ entries_of R.id_of (values t.by_id) };
}

impl<R: OldRow> OldTable<R> {
    /// A table without rows.
    pub(crate) fn new(alloc: Global) -> OldTable<R>
        ensures { result ≡ [] }
    {
        OldTable {
            by_id: IndexMap::new(alloc),
        }
    }

    /// The rows, in order of creation.
    pub(crate) fn rows(&self) -> &[R]
        ensures rows { result.now ≡ self.now }
        ensures own_ids { HaveOwnIds R.id_of self.now }
    {
        self.by_id.as_slice().values().as_slice()
    }

    // The row with this id.
    fn found(&self, id: Id) -> Option<&R>
        ensures { option_copied result ≡ row_of R.id_of id self.now }
    {
        self.by_id.get(&id)
    }

    // Adds a row with a new id, last, or leaves all as it is.
    fn push(&mut self, row: R) -> Result<(), OutOfMemory>
        requires { row_of R.id_of (R.id_of row) self.old ≡ None }
        ensures ok { OnOk result (self.new ≡ self.old ++ row ∷ []) }
        ensures err { OnErr result (self.new ≡ self.old) }
    {
        self.by_id.insert(row.id(), row)?;
        Ok(())
    }

    /// Adds a row last, where none has its id, and answers whether it did. Otherwise, and where
    /// memory runs out, nothing changes.
    pub(crate) fn add(&mut self, row: R) -> Result<bool, OutOfMemory>
        ensures added { IfOk result (λ added. (added ≡ is_new R.id_of row self.old)
            × (self.new ≡ (if added then self.old ++ row ∷ [] else self.old))) }
        ensures err { OnErr result (self.new ≡ self.old) }
    {
        if self.found(row.id()).is_some() {
            return Ok(false);
        }
        self.push(row)?;
        Ok(true)
    }
}
