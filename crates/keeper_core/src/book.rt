//! What a desk in memory has and notes: asks, settings, stores and connections.

ghost use Rattle.std.specs.Prelude.{◌≡◌, ◌<◌, ◌++◌, [], ◌∷◌, Some, None, IsTrue, IfOk, IfSome, IfErr, OnOk, OnErr, vec_len, vec_capacity, option_map, option_copied};
ghost use Rattle.keeper_core.specs.Counts.{IsWant};
ghost use Rattle.keeper_core.specs.Desk.{AreFresh, Comes, IsReturned, are_fresh, asked, asked_in_vain, asks_after, closed_as, file_named, opened_as, opening_rows, out_after, with_returned, with_stores};

use crate::ask::DeskAsk;
use crate::connections::Connections;
use crate::named::{Named, NamedBytes, NamedRows, value_of};
use crate::refusal::DeskRefusal;
use crate::shelf::{Shelf, copied_name};
use crate::sink::Sink;
use crate::source::Source;
use api_types::Rows;
use net_addr::{Bytes, Copies, OutOfMemory, Seq, Text};
use std::alloc::Global;
use std::marker::Model;

/// What a desk in memory has and has noted.
#[derive(Drop)]
pub struct Book<I: Source, O: Sink> {
    asks: Vec<DeskAsk>,
    files: NamedBytes,
    shelf: Shelf,
    connections: Connections<I, O>,
}

impl<I: Source, O: Sink> Model for Book<I, O> {
    ghost use Rattle.keeper_core.specs.Desk.{DeskHeld};

    ghost Value = { DeskHeld (I × O) };

    ghost view = { λ b.
        record {
          asks = b.asks.items;
          files = b.files;
          stores = b.shelf;
          to_come = b.connections.0;
          returned = b.connections.1;
        } };
}

/// Notes an ask, for which there is room.
fn put_ask(asks: &mut Vec<DeskAsk>, ask: DeskAsk)
    requires { vec_len asks.old < vec_capacity asks.old }
    ensures { asks.new.items ≡ asks.old.items ++ ask ∷ [] }
{
    match asks.push(ask) {
        Ok(()) => {}
        Err(_) => unreachable!(),
    }
}

/// The bytes with a name, or none.
fn file_bytes(alloc: Global, files: &NamedBytes, name: &Text) -> Result<Bytes, OutOfMemory>
    ensures { IfOk result (λ bytes. bytes ≡ file_named name.now files.now) }
{
    match value_of(files.as_slice(), name) {
        Some(bytes) => Ok(Bytes::from_vec(Vec::from_slice(alloc, bytes.as_slice())?)),
        None => Ok(Bytes::from_vec(Vec::new(alloc))),
    }
}

impl<I: Source, O: Sink> Book<I, O> {
    /// Nothing is asked yet, no store is open, and no connection is out.
    pub fn make(
        alloc: Global,
        files: NamedBytes,
        stores: NamedRows,
        to_come: Seq<(I, O)>,
    ) -> Book<I, O>
        requires { IsTrue (are_fresh I.told O.told to_come) }
        ensures { result
            ≡ record {
              asks = [];
              files = files;
              stores = record { named = stores; unnamed = None; opened = None };
              to_come = to_come;
              returned = Some (record { ended = []; out = 0 });
            } }
    {
        Book {
            asks: Vec::new(alloc),
            files,
            shelf: Shelf::make(stores),
            connections: Connections::make(alloc, to_come),
        }
    }

    /// The asks so far.
    pub fn asks(&self) -> &[DeskAsk]
        ensures { result.now ≡ self.now.asks }
    {
        self.asks.as_slice()
    }

    /// The rows of stores by name.
    pub fn stores(&self) -> &[Named<Rows>]
        ensures { result.now ≡ self.now.stores.named }
    {
        self.shelf.named()
    }

    /// The connections that were handed back, where they are told.
    pub fn ended(&self) -> Option<&[(I, O)]>
        ensures { option_map (λ ended. ended.now) result
            ≡ option_map (λ returned. returned.ended) self.now.returned }
    {
        self.connections.ended()
    }

    /// Notes an ask that fails, and answers why it is refused.
    pub fn fail(&mut self, ask: DeskAsk) -> DeskRefusal
        ensures { self.new ≡ asked_in_vain result ask self.old }
    {
        match self.asks.push(ask) {
            Ok(()) => DeskRefusal::Failed,
            Err(_) => DeskRefusal::OutOfMemory,
        }
    }

    /// The settings with a name, or nothing changes.
    pub fn settings(&mut self, alloc: Global, name: &Text) -> Result<Bytes, OutOfMemory>
        ensures bytes { IfOk result (λ bytes. bytes ≡ file_named name.now self.old.files) }
        ensures ok { OnOk result (self.new ≡ asked (DeskAsk.Settings name.now) self.old) }
        ensures err { OnErr result (self.new ≡ self.old) }
    {
        let ask = DeskAsk::Settings(name.copy(alloc)?);
        self.asks.reserve(1)?;
        let bytes = file_bytes(alloc, &self.files, name)?;
        put_ask(&mut self.asks, ask);
        Ok(bytes)
    }

    /// Opens a store and answers its rows, or leaves all as it is.
    pub fn open(&mut self, alloc: Global, name: Option<&Text>) -> Result<Rows, OutOfMemory>
        ensures rows { IfOk result
            (λ rows. rows ≡ opening_rows (option_copied name.entry) self.old.stores) }
        ensures ok { OnOk result
            (self.new
            ≡ asked (DeskAsk.Store (option_copied name.entry))
            (with_stores (opened_as (option_copied name.entry) self.old.stores) self.old)) }
        ensures err { OnErr result (self.new ≡ self.old) }
    {
        let ask = DeskAsk::Store(copied_name(alloc, name)?);
        self.asks.reserve(1)?;
        let rows = self.shelf.open(alloc, name)?;
        put_ask(&mut self.asks, ask);
        Ok(rows)
    }

    /// Closes the store that is open with these rows. It allocates nothing.
    pub fn close(&mut self, rows: Rows)
        ensures { self.new
            ≡ with_stores (closed_as self.old.stores.opened rows self.old.stores) self.old }
    {
        self.shelf.close(rows);
    }

    /// Notes that someone listens, or nothing changes.
    pub fn listen(&mut self, alloc: Global, address: &Text) -> Result<(), OutOfMemory>
        ensures ok { OnOk result (self.new ≡ asked (DeskAsk.Listen address.now) self.old) }
        ensures err { OnErr result (self.new ≡ self.old) }
    {
        self.asks.push(DeskAsk::Listen(address.copy(alloc)?))?;
        Ok(())
    }

    /// The next connection, or nothing changes.
    pub fn next(&mut self) -> Result<Option<(I, O)>, DeskRefusal>
        ensures fresh { IfOk result (λ next. IfSome next (λ pair.
            AreFresh (I.told pair.0) (O.told pair.1))) }
        ensures to_come { Comes result (Some self.old.to_come) (Some self.new.to_come) }
        ensures returned { self.new.returned ≡ out_after result self.old.returned }
        ensures asks { Some self.new.asks ≡ asks_after result DeskAsk.Next (Some self.old.asks) }
        ensures files { self.new.files ≡ self.old.files }
        ensures stores { self.new.stores ≡ self.old.stores }
        ensures sure { IfErr result IsWant }
    {
        self.asks.reserve(1)?;
        let pair = self.connections.next()?;
        put_ask(&mut self.asks, DeskAsk::Next);
        Ok(pair)
    }

    /// Takes back a connection. It allocates nothing.
    pub fn take_back(&mut self, input: I, output: O)
    where
        I: Drop,
        O: Drop,
        ensures returned { IsReturned self.old.returned (input, output) self.new.returned }
        ensures others { self.new ≡ with_returned self.new.returned self.old }
    {
        self.connections.take_back(input, output);
    }
}
