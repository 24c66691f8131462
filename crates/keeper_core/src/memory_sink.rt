//! Sinks in memory: one that never fails, and one that fails in listed calls.

ghost use Rattle.std.specs.Prelude.{◌≡◌, ◌↔◌, ◌<◌, ◌≤◌, [], Ok, Some, IsErr, IsTrue, IfOk, IfErr, OnOk, OnErr, length};
ghost use Rattle.std.specs.Io.KnownBytes.{WriteAppends};
ghost use Rattle.keeper_core.specs.Calls.{counted, fails_next};
ghost use Rattle.keeper_core.specs.Counts.{HasCause, HasRefusalCause, IsFailure, IsWant};
ghost use Rattle.keeper_core.specs.Ends.{failing_written, sure_written};

use crate::calls::Calls;
use crate::refusal::{Failed, SinkRefusal};
use crate::sink::Sink;
use net_addr::Numbers;
use std::alloc::Global;
use std::marker::Model;

/// A sink in memory, which never fails.
#[derive(Drop)]
pub struct SureSink {
    bytes: Vec<u8>,
    flushed: usize,
}

impl Model for SureSink {
    ghost use Rattle.keeper_core.specs.Ends.{Written};

    ghost Value = { Written };

    ghost view = { λ s. record { written = s.bytes.items; flushed = s.flushed } };
}

/// A sink in memory, which fails in listed calls.
#[derive(Drop)]
pub struct MemorySink {
    inner: SureSink,
    calls: Calls,
}

impl Model for MemorySink {
    ghost use Rattle.keeper_core.specs.Ends.{FailingWritten};

    ghost Value = { FailingWritten };

    ghost view = { λ s.
        record { written = s.inner.written; flushed = s.inner.flushed; calls = s.calls } };
}

impl SureSink {
    /// A sink without bytes.
    pub fn make(alloc: Global) -> SureSink
        ensures { result ≡ record { written = []; flushed = 0 } }
    {
        SureSink {
            bytes: Vec::new(alloc),
            flushed: 0,
        }
    }

    /// The bytes that were written.
    pub fn as_slice(&self) -> &[u8]
        ensures { result.now ≡ self.now.written }
    {
        self.bytes.as_slice()
    }
}

impl Sink for SureSink {
    ghost told = { sure_written };

    fn write(&mut self, piece: &[u8]) -> Result<usize, SinkRefusal>
        requires { 0 < length piece.now }
        ensures count { IfOk result (λ n. n ≡ length piece.now) }
        ensures bytes { WriteAppends (Some self.old.written) (Some self.new.written) result
            piece.now }
        ensures flushed { self.new.flushed ≡ self.old.flushed }
        ensures sure { IfErr result IsWant }
    {
        match self.bytes.extend_from_slice(piece) {
            Ok(()) => Ok(piece.len()),
            Err(_) => Err(SinkRefusal::OutOfMemory),
        }
    }

    fn flush(&mut self) -> Result<(), Failed>
        ensures bytes { self.new.written ≡ self.old.written }
        ensures flushed { self.new.flushed ≡ length self.new.written }
        ensures sure { result ≡ Ok tt }
    {
        self.flushed = self.bytes.len();
        Ok(())
    }
}

impl MemorySink {
    /// A sink without bytes that fails in the calls with the listed numbers, counted from 1 over
    /// writes and flushes.
    pub fn make(alloc: Global, failing: Numbers) -> MemorySink
        ensures { result
            ≡ record {
              written = [];
              flushed = 0;
              calls = record { made = 0; failing = failing; faults = 0 };
            } }
    {
        MemorySink {
            inner: SureSink::make(alloc),
            calls: Calls::make(failing),
        }
    }

    /// The bytes that were written.
    pub fn as_slice(&self) -> &[u8]
        ensures { result.now ≡ self.now.written }
    {
        self.inner.as_slice()
    }

    /// How many calls failed.
    pub fn faults(&self) -> u64
        ensures { result ≡ self.now.calls.faults }
    {
        self.calls.faults
    }
}

impl Sink for MemorySink {
    ghost told = { failing_written };

    fn write(&mut self, piece: &[u8]) -> Result<usize, SinkRefusal>
        requires { 0 < length piece.now }
        ensures count { IfOk result (λ n. n ≡ length piece.now) }
        ensures bytes { WriteAppends (Some self.old.written) (Some self.new.written) result
            piece.now }
        ensures flushed { self.new.flushed ≡ self.old.flushed }
        ensures cause { HasRefusalCause self.old.calls.faults self.new.calls.faults result }
        ensures calls { self.new.calls ≡ counted self.old.calls }
        ensures fails { IsFailure result ↔ IsTrue (fails_next self.old.calls) }
    {
        self.calls.count()?;
        self.inner.write(piece)
    }

    fn flush(&mut self) -> Result<(), Failed>
        ensures bytes { self.new.written ≡ self.old.written }
        ensures flushed { OnOk result (self.new.flushed ≡ length self.new.written) }
        ensures kept { OnErr result (self.new.flushed ≡ self.old.flushed) }
        ensures cause { HasCause self.old.calls.faults self.new.calls.faults result }
        ensures calls { self.new.calls ≡ counted self.old.calls }
        ensures fails { IsErr result ↔ IsTrue (fails_next self.old.calls) }
    {
        self.calls.count()?;
        self.inner.flush()
    }
}
