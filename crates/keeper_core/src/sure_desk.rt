//! A desk in memory that never fails.

ghost use Rattle.std.specs.Prelude.{◌≡◌, Some, None, [], IfOk, IfErr, OnOk, OnErr, option_map, option_copied};
ghost use Rattle.keeper_core.specs.Counts.{IsWant};
ghost use Rattle.keeper_core.specs.Desk.{asked, file_named, opened_as, opening_rows, sure_told, with_stores};

use crate::ask::DeskAsk;
use crate::book::Book;
use crate::desk::Desk;
use crate::memory_keeper::SureKeeper;
use crate::memory_sink::SureSink;
use crate::memory_source::SureSource;
use crate::named::{Named, NamedBytes, NamedRows};
use crate::refusal::DeskRefusal;
use api_types::Rows;
use net_addr::{Bytes, OutOfMemory, Seq, Text};
use std::alloc::Global;
use std::marker::Model;

/// Connections whose ends never fail.
pub type SureEnds = Seq<(SureSource, SureSink)>;

/// A desk in memory that never fails. It tells everything, and contracts see it as all that.
#[derive(Drop)]
pub struct SureDesk {
    book: Book<SureSource, SureSink>,
}

impl Model for SureDesk {
    ghost use Rattle.keeper_core.specs.Ends.{Unread, Written};
    ghost use Rattle.keeper_core.specs.Desk.{DeskHeld};

    ghost Value = { DeskHeld (Unread × Written) };

    ghost view = { λ d. d.book };
}

impl SureDesk {
    /// A desk with these settings by name, these rows of stores by name, and these connections to
    /// come.
    pub fn make(
        alloc: Global,
        files: NamedBytes,
        stores: NamedRows,
        connections: SureEnds,
    ) -> Result<SureDesk, OutOfMemory>
        ensures { IfOk result
            (λ desk. desk
            ≡ record {
              asks = [];
              files = files;
              stores = record { named = stores; unnamed = None; opened = None };
              to_come = connections;
              returned = Some (record { ended = []; out = 0 });
            }) }
    {
        Ok(SureDesk {
            book: Book::make(alloc, files, stores, connections),
        })
    }

    /// The asks so far, in order.
    pub fn asks(&self) -> &[DeskAsk]
        ensures { result.now ≡ self.now.asks }
    {
        self.book.asks()
    }

    /// The rows of stores by name.
    pub fn stores(&self) -> &[Named<Rows>]
        ensures { result.now ≡ self.now.stores.named }
    {
        self.book.stores()
    }

    /// The connections that were handed back, in order, where they are told. They are until one is
    /// handed back that never was handed out, and for which there is no room.
    pub fn ended(&self) -> Option<&[(SureSource, SureSink)]>
        ensures { option_map (λ ended. ended.now) result
            ≡ option_map (λ returned. returned.ended) self.now.returned }
    {
        self.book.ended()
    }
}

impl Desk for SureDesk {
    type In = SureSource;

    type Out = SureSink;

    type Store = SureKeeper;

    ghost told = { sure_told };

    fn settings(&mut self, alloc: Global, name: &Text) -> Result<Bytes, DeskRefusal>
        ensures bytes { IfOk result (λ bytes. bytes ≡ file_named name.now self.old.files) }
        ensures ok { OnOk result (self.new ≡ asked (DeskAsk.Settings name.now) self.old) }
        ensures err { OnErr result (self.new ≡ self.old) }
        ensures sure { IfErr result IsWant }
    {
        Ok(self.book.settings(alloc, name)?)
    }

    fn store(&mut self, alloc: Global, name: Option<&Text>) -> Result<SureKeeper, DeskRefusal>
        ensures rows { IfOk result
            (λ store. store ≡ opening_rows (option_copied name.entry) self.old.stores) }
        ensures ok { OnOk result
            (self.new
            ≡ asked (DeskAsk.Store (option_copied name.entry))
            (with_stores (opened_as (option_copied name.entry) self.old.stores) self.old)) }
        ensures err { OnErr result (self.new ≡ self.old) }
        ensures sure { IfErr result IsWant }
    {
        Ok(SureKeeper::make(self.book.open(alloc, name)?))
    }

    fn close(&mut self, store: SureKeeper) {
        self.book.close(store.into_rows());
    }

    fn listen(&mut self, alloc: Global, address: &Text) -> Result<(), DeskRefusal>
        ensures ok { OnOk result (self.new ≡ asked (DeskAsk.Listen address.now) self.old) }
        ensures err { OnErr result (self.new ≡ self.old) }
        ensures sure { IfErr result IsWant }
    {
        Ok(self.book.listen(alloc, address)?)
    }

    fn next(&mut self, _alloc: Global) -> Result<Option<(SureSource, SureSink)>, DeskRefusal> {
        self.book.next()
    }

    fn done(&mut self, input: SureSource, output: SureSink) {
        self.book.take_back(input, output);
    }
}
