//! The stores of a desk in memory.

ghost use Rattle.std.specs.Prelude.{◌≡◌, None, IfOk, OnOk, OnErr, option_copied};
ghost use Rattle.keeper_core.specs.Desk.{opening_rows, opened_as, closed_as};

use crate::named::{Named, NamedRows, put_value, value_of};
use api_types::Rows;
use net_addr::{Copies, OutOfMemory, Text};
use std::alloc::Global;
use std::marker::Model;

/// The stores of a desk in memory.
#[derive(Drop)]
pub struct Shelf {
    named: Vec<Named<Rows>>,
    unnamed: Option<Rows>,
    opened: Option<Option<Text>>,
}

// While a store is open there is room for its rows, so that closing allocates nothing.
impl Model for Shelf {
    ghost use Rattle.std.specs.Prelude.{◌<◌, IfSome, vec_len, vec_capacity};
    ghost use Rattle.keeper_core.specs.Desk.{Stores};

    ghost Value = { Stores };

    ghost view = { λ s. record { named = s.named.items; unnamed = s.unnamed; opened = s.opened } };

    ghost invariant = { λ s. IfSome s.opened (λ _. vec_len s.named < vec_capacity s.named) };
}

/// A name of its own.
pub fn copied_name(alloc: Global, name: Option<&Text>) -> Result<Option<Text>, OutOfMemory>
    ensures { IfOk result (λ copy. copy ≡ option_copied name.entry) }
{
    match name {
        None => Ok(None),
        Some(name) => Ok(Some(name.copy(alloc)?)),
    }
}

impl Shelf {
    /// Stores with these rows, none of them open.
    pub fn make(named: NamedRows) -> Shelf
        ensures { result ≡ record { named = named; unnamed = None; opened = None } }
    {
        Shelf {
            named: named.into_vec(),
            unnamed: None,
            opened: None,
        }
    }

    /// The rows by name.
    pub fn named(&self) -> &[Named<Rows>]
        ensures { result.now ≡ self.now.named }
    {
        self.named.as_slice()
    }

    fn opening_rows(&self, alloc: Global, name: Option<&Text>) -> Result<Rows, OutOfMemory>
        ensures { IfOk result (λ rows. rows ≡ opening_rows (option_copied name.entry) self.now) }
    {
        let Some(name) = name else {
            return Rows::empty(alloc);
        };
        match value_of(self.named.as_slice(), name) {
            Some(rows) => rows.copy(alloc),
            None => Rows::empty(alloc),
        }
    }

    /// Opens a store and answers its rows, or leaves all as it is.
    pub fn open(&mut self, alloc: Global, name: Option<&Text>) -> Result<Rows, OutOfMemory>
        ensures rows { IfOk result
            (λ rows. rows ≡ opening_rows (option_copied name.entry) self.old) }
        ensures ok { OnOk result (self.new ≡ opened_as (option_copied name.entry) self.old) }
        ensures err { OnErr result (self.new ≡ self.old) }
    {
        let opened = copied_name(alloc, name)?;
        self.named.reserve(1)?;
        let rows = self.opening_rows(alloc, name)?;
        self.opened = Some(opened);
        Ok(rows)
    }

    /// Closes the store that is open with these rows. It allocates nothing.
    pub fn close(&mut self, rows: Rows)
        ensures { self.new ≡ closed_as self.old.opened rows self.old }
    {
        match self.opened.take() {
            None => {}
            Some(None) => self.unnamed = Some(rows),
            Some(Some(name)) => put_value(&mut self.named, name, rows),
        }
    }
}
