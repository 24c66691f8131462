//! A desk in memory that fails in listed calls.

ghost use Rattle.std.specs.Prelude.{◌≡◌, Some, None, [], IsOk, IsTrue, IfOk, IfSome, IfErr, OnOk, OnErr, false, option_map, option_copied};
ghost use Rattle.keeper_core.specs.Calls.{counted, fails_next};
ghost use Rattle.keeper_core.specs.Counts.{HasRefusalCause, IsFailure};
ghost use Rattle.keeper_core.specs.Desk.{AreFresh, Comes, asked, asked_in_vain, asks_after, failing_told, file_named, fresh_ends, opened_as, opening_rows, out_after, with_stores};
ghost use Rattle.keeper_core.specs.Ends.{failing_unread, failing_written};

use crate::ask::DeskAsk;
use crate::book::Book;
use crate::calls::Calls;
use crate::desk::Desk;
use crate::memory_keeper::MemoryKeeper;
use crate::memory_sink::MemorySink;
use crate::memory_source::MemorySource;
use crate::named::{Named, NamedBytes, NamedRows};
use crate::refusal::DeskRefusal;
use crate::shelf::copied_name;
use api_types::Rows;
use net_addr::{Bytes, Copies, Numbers, OutOfMemory, Seq, Text};
use std::alloc::Global;
use std::marker::Model;

/// Connections whose ends fail in listed calls.
pub type EndsList = Seq<(MemorySource, MemorySink)>;

/// A desk in memory that fails in listed calls. It tells everything.
#[derive(Drop)]
pub struct MemoryDesk {
    book: Book<MemorySource, MemorySink>,
    calls: Calls,
    store_failing: Numbers,
    store_faults: u64,
}

impl Model for MemoryDesk {
    ghost use Rattle.keeper_core.specs.Ends.{FailingUnread, FailingWritten};
    ghost use Rattle.keeper_core.specs.Desk.{FailingDesk};

    ghost Value = { FailingDesk (FailingUnread × FailingWritten) };

    ghost view = { λ d.
        record {
          held = d.book;
          calls = d.calls;
          store_failing = d.store_failing;
          store_faults = d.store_faults;
        } };
}

impl MemoryDesk {
    /// A desk with these settings by name, these rows of stores by name, and these connections to
    /// come, none of whose ends has failed. It fails in the calls with the listed numbers, counted
    /// from 1 over `settings`, `store`, `listen` and `next`. Each store that it opens fails in its
    /// calls that `store_failing` lists.
    pub fn make(
        alloc: Global,
        files: NamedBytes,
        stores: NamedRows,
        connections: EndsList,
        failing: Numbers,
        store_failing: Numbers,
    ) -> Result<MemoryDesk, OutOfMemory>
        requires { IsTrue (fresh_ends connections) }
        ensures { IfOk result
            (λ desk. desk
            ≡ record {
              held = record {
                asks = [];
                files = files;
                stores = record { named = stores; unnamed = None; opened = None };
                to_come = connections;
                returned = Some (record { ended = []; out = 0 });
              };
              calls = record { made = 0; failing = failing; faults = 0 };
              store_failing = store_failing;
              store_faults = 0;
            }) }
    {
        Ok(MemoryDesk {
            book: Book::make(alloc, files, stores, connections),
            calls: Calls::make(failing),
            store_failing,
            store_faults: 0,
        })
    }

    /// The asks so far, in order.
    pub fn asks(&self) -> &[DeskAsk]
        ensures { result.now ≡ self.now.held.asks }
    {
        self.book.asks()
    }

    /// The rows of stores by name.
    pub fn stores(&self) -> &[Named<Rows>]
        ensures { result.now ≡ self.now.held.stores.named }
    {
        self.book.stores()
    }

    /// The connections that were handed back, in order, where they are told. They are until one is
    /// handed back that never was handed out, and for which there is no room.
    pub fn ended(&self) -> Option<&[(MemorySource, MemorySink)]>
        ensures { option_map (λ ended. ended.now) result
            ≡ option_map (λ returned. returned.ended) self.now.held.returned }
    {
        self.book.ended()
    }

    fn open(&mut self, alloc: Global, name: Option<&Text>) -> Result<MemoryKeeper, OutOfMemory>
        ensures store { IfOk result
            (λ store. store
            ≡ record {
              rows = opening_rows (option_copied name.entry) self.old.held.stores;
              calls = record { made = 0; failing = self.old.store_failing; faults = 0 };
            }) }
        ensures ok { OnOk result
            (self.new.held
            ≡ asked (DeskAsk.Store (option_copied name.entry))
            (with_stores (opened_as (option_copied name.entry) self.old.held.stores)
            self.old.held)) }
        ensures err { OnErr result (self.new.held ≡ self.old.held) }
        ensures calls { self.new.calls ≡ self.old.calls }
        ensures store_failing { self.new.store_failing ≡ self.old.store_failing }
        ensures store_faults { self.new.store_faults ≡ self.old.store_faults }
    {
        let failing = self.store_failing.copy(alloc)?;
        let rows = self.book.open(alloc, name)?;
        Ok(MemoryKeeper::of(rows, failing))
    }
}

impl Desk for MemoryDesk {
    type In = MemorySource;

    type Out = MemorySink;

    type Store = MemoryKeeper;

    ghost told = { failing_told };

    fn settings(&mut self, alloc: Global, name: &Text) -> Result<Bytes, DeskRefusal>
        ensures bytes { IfOk result (λ bytes. bytes ≡ file_named name.now self.old.held.files) }
        ensures ok { IfOk result
            (λ _. self.new.held ≡ asked (DeskAsk.Settings name.now) self.old.held) }
        ensures err { IfErr result
            (λ refusal. self.new.held
            ≡ asked_in_vain refusal (DeskAsk.Settings name.now) self.old.held) }
        ensures store_failing { self.new.store_failing ≡ self.old.store_failing }
        ensures store_faults { self.new.store_faults ≡ self.old.store_faults }
        ensures calls { self.new.calls ≡ counted self.old.calls }
        ensures fails { IsFailure result → IsTrue (fails_next self.old.calls) }
        ensures works { IsOk result → fails_next self.old.calls ≡ false }
        ensures cause { HasRefusalCause self.old.calls.faults self.new.calls.faults result }
    {
        if self.calls.count().is_err() {
            return Err(self.book.fail(DeskAsk::Settings(name.copy(alloc)?)));
        }
        Ok(self.book.settings(alloc, name)?)
    }

    fn store(&mut self, alloc: Global, name: Option<&Text>) -> Result<MemoryKeeper, DeskRefusal>
        ensures store { IfOk result
            (λ store. store
            ≡ record {
              rows = opening_rows (option_copied name.entry) self.old.held.stores;
              calls = record { made = 0; failing = self.old.store_failing; faults = 0 };
            }) }
        ensures ok { IfOk result
            (λ _. self.new.held
            ≡ asked (DeskAsk.Store (option_copied name.entry))
            (with_stores (opened_as (option_copied name.entry) self.old.held.stores)
            self.old.held)) }
        ensures err { IfErr result
            (λ refusal. self.new.held
            ≡ asked_in_vain refusal (DeskAsk.Store (option_copied name.entry)) self.old.held) }
        ensures store_failing { self.new.store_failing ≡ self.old.store_failing }
        ensures store_faults { self.new.store_faults ≡ self.old.store_faults }
        ensures calls { self.new.calls ≡ counted self.old.calls }
        ensures fails { IsFailure result → IsTrue (fails_next self.old.calls) }
        ensures works { IsOk result → fails_next self.old.calls ≡ false }
        ensures cause { HasRefusalCause self.old.calls.faults self.new.calls.faults result }
    {
        if self.calls.count().is_err() {
            return Err(self.book.fail(DeskAsk::Store(copied_name(alloc, name)?)));
        }
        Ok(self.open(alloc, name)?)
    }

    fn close(&mut self, store: MemoryKeeper) {
        let (rows, faults) = store.into_rows();
        self.store_faults = self.store_faults.saturating_add(faults);
        self.book.close(rows);
    }

    fn listen(&mut self, alloc: Global, address: &Text) -> Result<(), DeskRefusal>
        ensures ok { IfOk result
            (λ _. self.new.held ≡ asked (DeskAsk.Listen address.now) self.old.held) }
        ensures err { IfErr result
            (λ refusal. self.new.held
            ≡ asked_in_vain refusal (DeskAsk.Listen address.now) self.old.held) }
        ensures store_failing { self.new.store_failing ≡ self.old.store_failing }
        ensures store_faults { self.new.store_faults ≡ self.old.store_faults }
        ensures calls { self.new.calls ≡ counted self.old.calls }
        ensures fails { IsFailure result → IsTrue (fails_next self.old.calls) }
        ensures works { IsOk result → fails_next self.old.calls ≡ false }
        ensures cause { HasRefusalCause self.old.calls.faults self.new.calls.faults result }
    {
        if self.calls.count().is_err() {
            return Err(self.book.fail(DeskAsk::Listen(address.copy(alloc)?)));
        }
        Ok(self.book.listen(alloc, address)?)
    }

    fn next(&mut self, _alloc: Global) -> Result<Option<(MemorySource, MemorySink)>, DeskRefusal>
        ensures fresh { IfOk result (λ next. IfSome next (λ pair.
            AreFresh (failing_unread pair.0) (failing_written pair.1))) }
        ensures to_come { Comes result (Some self.old.held.to_come)
            (Some self.new.held.to_come) }
        ensures returned { self.new.held.returned
            ≡ out_after result self.old.held.returned }
        ensures asks { Some self.new.held.asks
            ≡ asks_after result DeskAsk.Next (Some self.old.held.asks) }
        ensures files { self.new.held.files ≡ self.old.held.files }
        ensures stores { self.new.held.stores ≡ self.old.held.stores }
        ensures store_failing { self.new.store_failing ≡ self.old.store_failing }
        ensures store_faults { self.new.store_faults ≡ self.old.store_faults }
        ensures calls { self.new.calls ≡ counted self.old.calls }
        ensures fails { IsFailure result → IsTrue (fails_next self.old.calls) }
        ensures works { IsOk result → fails_next self.old.calls ≡ false }
        ensures cause { HasRefusalCause self.old.calls.faults self.new.calls.faults result }
    {
        if self.calls.count().is_err() {
            return Err(self.book.fail(DeskAsk::Next));
        }
        self.book.next()
    }

    fn done(&mut self, input: MemorySource, output: MemorySink) {
        self.book.take_back(input, output);
    }
}
