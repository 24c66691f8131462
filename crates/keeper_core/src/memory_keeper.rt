//! Keepers in memory: one that never fails, and one that fails in listed calls.

ghost use Rattle.std.specs.Prelude.{◌≡◌, ◌↔◌, Some, IfOk, IfErr, OnOk, OnErr, IsTrue};
ghost use Rattle.api_types.specs.Rows.{Fits, after};
ghost use Rattle.keeper_core.specs.Calls.{counted, fails_next};
ghost use Rattle.keeper_core.specs.Counts.{HasRefusalCause, IsFailure, IsWant};
ghost use Rattle.keeper_core.specs.Kept.{failing_rows, sure_rows};

use crate::calls::Calls;
use crate::keeper::Keeper;
use crate::refusal::KeeperRefusal;
use api_types::{Change, Rows};
use net_addr::{Numbers, OutOfMemory};
use std::alloc::Global;
use std::marker::Model;

/// Rows that are stored in memory, by a keeper that never fails. Contracts see it as its rows.
#[derive(Drop)]
pub struct SureKeeper {
    rows: Rows,
}

impl Model for SureKeeper {
    ghost use Rattle.api_types.specs.RowLists.{RowLists};

    ghost Value = { RowLists };

    ghost view = { λ k. k.rows };
}

/// Rows that are stored in memory, by a keeper that fails in listed calls.
#[derive(Drop)]
pub struct MemoryKeeper {
    inner: SureKeeper,
    calls: Calls,
}

impl Model for MemoryKeeper {
    ghost use Rattle.keeper_core.specs.Kept.{FailingRows};

    ghost Value = { FailingRows };

    ghost view = { λ k. record { rows = k.inner; calls = k.calls } };
}

impl SureKeeper {
    /// A keeper of these rows.
    pub fn make(rows: Rows) -> SureKeeper
        ensures { result ≡ rows }
    {
        SureKeeper { rows }
    }

    /// The kept rows.
    pub fn rows(&self) -> &Rows
        ensures { result.now ≡ self.now }
    {
        &self.rows
    }

    pub(crate) fn into_rows(self) -> Rows
        ensures { result ≡ self }
    {
        self.rows
    }
}

impl Keeper for SureKeeper {
    ghost told = { sure_rows };

    fn load(&mut self, alloc: Global) -> Result<Rows, KeeperRefusal>
        ensures rows { IfOk result (λ r. r ≡ self.old) }
        ensures kept { self.new ≡ self.old }
        ensures sure { IfErr result IsWant }
    {
        Ok(self.rows.copy(alloc)?)
    }

    fn apply(&mut self, alloc: Global, change: &Change) -> Result<(), KeeperRefusal>
        requires { Fits self.old change.now }
        ensures applied { OnOk result (self.new ≡ after self.old change.now) }
        ensures unchanged { OnErr result (self.new ≡ self.old) }
        ensures sure { IfErr result IsWant }
    {
        self.rows.apply_change(alloc, change)?;
        Ok(())
    }
}

impl MemoryKeeper {
    /// A keeper of these rows that fails in the calls with the listed numbers, counted from 1 over
    /// `load` and `apply`.
    pub fn make(_alloc: Global, rows: Rows, failing: Numbers) -> Result<MemoryKeeper, OutOfMemory>
        ensures { IfOk result
            (λ k. k
            ≡ record
            { rows = rows; calls = record { made = 0; failing = failing; faults = 0 } }) }
    {
        Ok(MemoryKeeper::of(rows, failing))
    }

    pub(crate) fn of(rows: Rows, failing: Numbers) -> MemoryKeeper
        ensures { result
            ≡ record { rows = rows; calls = record { made = 0; failing = failing; faults = 0 } } }
    {
        MemoryKeeper {
            inner: SureKeeper::make(rows),
            calls: Calls::make(failing),
        }
    }

    // What the keeper tells at the end: its rows, and how many of its calls failed.
    pub(crate) fn into_rows(self) -> (Rows, u64)
        ensures { result ≡ (self.rows, self.calls.faults) }
    {
        (self.inner.into_rows(), self.calls.faults)
    }

    /// The kept rows.
    pub fn rows(&self) -> &Rows
        ensures { result.now ≡ self.now.rows }
    {
        self.inner.rows()
    }
}

impl Keeper for MemoryKeeper {
    ghost told = { failing_rows };

    fn load(&mut self, alloc: Global) -> Result<Rows, KeeperRefusal>
        ensures rows { IfOk result (λ r. r ≡ self.old.rows) }
        ensures kept { self.new.rows ≡ self.old.rows }
        ensures cause { HasRefusalCause self.old.calls.faults self.new.calls.faults result }
        ensures calls { self.new.calls ≡ counted self.old.calls }
        ensures fails { IsFailure result ↔ IsTrue (fails_next self.old.calls) }
    {
        self.calls.count()?;
        self.inner.load(alloc)
    }

    fn apply(&mut self, alloc: Global, change: &Change) -> Result<(), KeeperRefusal>
        requires { Fits self.old.rows change.now }
        ensures applied { OnOk result (self.new.rows ≡ after self.old.rows change.now) }
        ensures unchanged { OnErr result (self.new.rows ≡ self.old.rows) }
        ensures cause { HasRefusalCause self.old.calls.faults self.new.calls.faults result }
        ensures calls { self.new.calls ≡ counted self.old.calls }
        ensures fails { IsFailure result ↔ IsTrue (fails_next self.old.calls) }
    {
        self.calls.count()?;
        self.inner.apply(alloc, change)
    }
}
