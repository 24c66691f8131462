//! The rows of one kind, found by id and seen as a list in order of creation.

ghost use Rattle.std.specs.Prelude.{◌≡◌, ◌<◌, ◌≤◌, None, [], ◌∷◌, ◌++◌, length, slice_get, slice_set, insert, remove, is_some, option_and_then, option_copied, IfOk, IfSome, OnOk, OnErr};
ghost use Rattle.api_types.specs.Ident.{Ident};
ghost use Rattle.api_types.specs.Table.{row_of, place_of, owned_count, HaveOwnIds};

use crate::counts::{count_of, count_one, move_one, uncount_one};
use crate::id::Id;
use crate::shared::Shared;
use indexmap::IndexMap;
use net_addr::{Copies, OutOfMemory, Text};
use std::alloc::Global;
use std::collections::HashMap;
use std::marker::Model;

/// A row with an id of its own, and the name of a project.
pub trait Keyed: Copies {
    ghost use Rattle.std.specs.Prelude.{List, ℕ};

    ghost id_of: { Self → Ident };

    ghost project_of: { Self → List ℕ };

    /// The id by which the row is found.
    fn id(&self) -> Id
        ensures { result ≡ id_of self.now };

    /// The name of the project that owns the row, or of the project that it is.
    fn project(&self) -> &Text
        ensures { result.now ≡ project_of self.now };
}

/// The rows of one kind. Contracts see them as a list in order of creation.
#[derive(Drop)]
pub struct Table<R: Keyed> {
    by_id: IndexMap<Id, Shared<R>>,
    // how many rows each project owns
    counts: HashMap<Text, usize>,
}

impl<R: Keyed> Model for Table<R> {
    ghost use Rattle.std.specs.Prelude.{◌≡◌, List, ℕ};
    ghost use Rattle.indexmap.specs.IndexMap.{values};
    ghost use Rattle.api_types.specs.Counts.{count_in};
    ghost use Rattle.api_types.specs.Table.{entries_of, owned_count};

    ghost Value = { List R };

    ghost view = { λ t. values t.by_id };

    ghost invariant = { λ t. record {
      by_id : t.by_id.entries ≡ entries_of R.id_of (values t.by_id);
      counts : (project : List ℕ)
          → count_in t.counts project ≡ owned_count R.project_of project (values t.by_id);
    } };
}

impl<R: Keyed> Table<R> {
    /// A table without rows.
    pub fn new(alloc: Global) -> Table<R>
        ensures { result ≡ [] }
    {
        Table {
            by_id: IndexMap::new(alloc),
            counts: HashMap::new(alloc),
        }
    }

    /// The rows, in order of creation.
    pub fn rows(&self) -> &[Shared<R>]
        ensures rows { result.now ≡ self.now }
        ensures own_ids { HaveOwnIds R.id_of self.now }
    {
        self.by_id.as_slice().values().as_slice()
    }

    fn find_shared(&self, id: Id) -> Option<&Shared<R>>
        ensures { option_copied result ≡ row_of R.id_of id self.now }
    {
        self.by_id.get(&id)
    }

    /// The row with this id. Its cost doesn't grow with the rows.
    pub fn get(&self, id: Id) -> Option<&R>
        ensures { option_copied result ≡ row_of R.id_of id self.now }
    {
        match self.find_shared(id) {
            Some(row) => Some(row.get()),
            None => None,
        }
    }

    /// The place of the row with this id. Its cost doesn't grow with the rows.
    pub fn place(&self, id: Id) -> Option<usize>
        ensures place { result ≡ place_of R.id_of id self.now }
        ensures row { option_and_then (slice_get self.now) result ≡ row_of R.id_of id self.now }
        ensures found { is_some result ≡ is_some (row_of R.id_of id self.now) }
        ensures within { IfSome result (λ place. place < length self.now) }
    {
        self.by_id.get_index_of(&id)
    }

    /// How many rows a project owns. Its cost doesn't grow with the rows.
    pub fn owned_count(&self, project: &Text) -> usize
        ensures { result ≡ owned_count R.project_of project.now self.now }
    {
        count_of(&self.counts, project)
    }

    /// Adds a row with a new id, last, or leaves all as it is.
    pub(crate) fn push(&mut self, row: Shared<R>) -> Result<(), OutOfMemory>
        requires { row_of R.id_of (R.id_of row) self.old ≡ None }
        ensures ok { OnOk result (self.new ≡ self.old ++ row ∷ []) }
        ensures err { OnErr result (self.new ≡ self.old) }
    {
        let _rows = self.by_id.len(); // for the proof: a project owns less than 2^63 of them
        self.by_id.reserve(1)?;
        count_one(&mut self.counts, row.project())?;
        match self.by_id.insert(row.id(), row) {
            Ok(_) => Ok(()),
            Err(_) => unreachable!(),
        }
    }

    /// Adds a row with a new id at a place, or leaves all as it is. Its cost grows with the rows
    /// after it.
    pub(crate) fn insert(&mut self, place: usize, row: Shared<R>) -> Result<(), OutOfMemory>
        requires within { place ≤ length self.old }
        requires new_id { row_of R.id_of (R.id_of row) self.old ≡ None }
        ensures ok { OnOk result (self.new ≡ insert self.old place row) }
        ensures err { OnErr result (self.new ≡ self.old) }
    {
        let _rows = self.by_id.len(); // for the proof: a project owns less than 2^63 of them
        self.by_id.reserve(1)?;
        count_one(&mut self.counts, row.project())?;
        match self.by_id.shift_insert(place, row.id(), row) {
            Ok(_) => Ok(()),
            Err(_) => unreachable!(),
        }
    }

    /// Puts a row in place of one with the same id, or leaves all as it is.
    pub(crate) fn replace(&mut self, place: usize, row: Shared<R>) -> Result<(), OutOfMemory>
        requires within { place < length self.old }
        requires same_id { (r : R) → slice_get self.old place ≡ Some r → R.id_of row ≡ R.id_of r }
        ensures ok { OnOk result (self.new ≡ slice_set self.old place row) }
        ensures err { OnErr result (self.new ≡ self.old) }
    {
        let _rows = self.by_id.len(); // for the proof: a project owns less than 2^63 of them
        if let Some(value) = self.by_id.get_index_mut(place) {
            move_one(&mut self.counts, value.project(), row.project())?;
            *value = row;
        }
        Ok(())
    }

    /// Takes the row at a place out. The rest closes up, at a cost that grows with it.
    pub(crate) fn remove(&mut self, place: usize)
        requires { place < length self.old }
        ensures { self.new ≡ remove self.old place }
    {
        if let Some((_, row)) = self.by_id.shift_remove_index(place) {
            uncount_one(&mut self.counts, row.project());
        }
    }
}

impl<R: Keyed> Copies for Table<R> {
    fn copy(&self, _alloc: Global) -> Result<Table<R>, OutOfMemory> {
        Ok(Table {
            by_id: self.by_id.clone()?,
            counts: self.counts.clone()?,
        })
    }
}
