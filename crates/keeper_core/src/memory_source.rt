//! Sources in memory: one that never fails, and one that fails in listed calls.

ghost use Rattle.std.specs.Prelude.{◌≡◌, ◌↔◌, ◌<◌, ◌≤◌, Ok, Some, IsErr, IsTrue, IfOk, length, min, take};
ghost use Rattle.std.specs.Io.{ReadsAtMost};
ghost use Rattle.std.specs.Io.KnownBytes.{ReadConsumes};
ghost use Rattle.keeper_core.specs.Calls.{counted, fails_next};
ghost use Rattle.keeper_core.specs.Counts.{HasCause};
ghost use Rattle.keeper_core.specs.Ends.{failing_unread, last_read, sure_unread};

use crate::calls::Calls;
use crate::last_read::LastRead;
use crate::refusal::Failed;
use crate::source::Source;
use net_addr::{Bytes, Numbers};
use std::marker::Model;

/// A source over bytes in memory, which never fails.
#[derive(Drop)]
pub struct SureSource {
    bytes: Bytes,
    at: usize,
    piece: usize,
    last: LastRead,
}

impl Model for SureSource {
    ghost use Rattle.std.specs.Prelude.{◌<◌, ◌≤◌, length, drop};
    ghost use Rattle.keeper_core.specs.Ends.{Unread};

    ghost Value = { Unread };

    ghost view = { λ s.
        record { left = drop s.at s.bytes; piece = s.piece; last = s.last } };

    ghost invariant = { λ s. (s.at ≤ length s.bytes) × (0 < s.piece) };
}

/// A source over bytes in memory, which fails in listed calls.
#[derive(Drop)]
pub struct MemorySource {
    inner: SureSource,
    last: LastRead,
    calls: Calls,
}

impl Model for MemorySource {
    ghost use Rattle.keeper_core.specs.Ends.{FailingUnread};

    ghost Value = { FailingUnread };

    ghost view = { λ s.
        record {
          left = s.inner.left;
          piece = s.inner.piece;
          last = s.last;
          calls = s.calls;
        } };
}

/// Copies as many bytes as fit to the front of a buffer, and answers how many.
fn copy_front(bytes: &[u8], buf: &mut [u8]) -> usize
    ensures count { result ≡ min (length buf.old) (length bytes.now) }
    ensures copied { take result buf.new ≡ take result bytes.now }
{
    let count = buf.len().min(bytes.len());
    buf[..count].copy_from_slice(&bytes[..count]);
    count
}

impl SureSource {
    /// A source that gives these bytes, at most `piece` of them in one read.
    pub fn make(bytes: Bytes, piece: usize) -> SureSource
        requires { 0 < piece }
        ensures { result ≡ record { left = bytes; piece = piece; last = LastRead.Unread } }
    {
        SureSource {
            bytes,
            at: 0,
            piece,
            last: LastRead::Unread,
        }
    }
}

impl Source for SureSource {
    ghost told = { sure_unread };

    fn read(&mut self, buf: &mut [u8]) -> Result<usize, Failed>
        requires { 0 < length buf.old }
        ensures bound { ReadsAtMost result buf.new }
        ensures bytes { ReadConsumes (Some self.old.left) (Some self.new.left) result buf.new }
        ensures last { self.new.last ≡ last_read result }
        ensures cause { HasCause 0 0 result }
        ensures piece { self.new.piece ≡ self.old.piece }
        ensures count { result
            ≡ Ok (min (min self.old.piece (length buf.old)) (length self.old.left)) }
    {
        let limit = self.piece.min(buf.len());
        let (_, rest) = self.bytes.as_slice().split_at(self.at);
        let count = copy_front(rest, &mut buf[..limit]);
        self.at += count;
        let answer = Ok(count);
        self.last = LastRead::of(&answer);
        answer
    }
}

impl MemorySource {
    /// A source that gives these bytes, at most `piece` of them in one read, and fails in the calls
    /// with the listed numbers, counted from 1.
    pub fn make(bytes: Bytes, piece: usize, failing: Numbers) -> MemorySource
        requires { 0 < piece }
        ensures { result
            ≡ record {
              left = bytes;
              piece = piece;
              last = LastRead.Unread;
              calls = record { made = 0; failing = failing; faults = 0 };
            } }
    {
        MemorySource {
            inner: SureSource::make(bytes, piece),
            last: LastRead::Unread,
            calls: Calls::make(failing),
        }
    }

    /// How many calls failed.
    pub fn faults(&self) -> u64
        ensures { result ≡ self.now.calls.faults }
    {
        self.calls.faults
    }

    // A read that is counted, and fails where its number is listed.
    fn read_counted(&mut self, buf: &mut [u8]) -> Result<usize, Failed>
        requires { 0 < length buf.old }
        ensures bound { ReadsAtMost result buf.new }
        ensures bytes { ReadConsumes (Some self.old.left) (Some self.new.left) result buf.new }
        ensures cause { HasCause self.old.calls.faults self.new.calls.faults result }
        ensures piece { self.new.piece ≡ self.old.piece }
        ensures count { IfOk result
            (λ n. n ≡ min (min self.old.piece (length buf.old)) (length self.old.left)) }
        ensures calls { self.new.calls ≡ counted self.old.calls }
        ensures fails { IsErr result ↔ IsTrue (fails_next self.old.calls) }
    {
        self.calls.count()?;
        self.inner.read(buf)
    }
}

impl Source for MemorySource {
    ghost told = { failing_unread };

    fn read(&mut self, buf: &mut [u8]) -> Result<usize, Failed>
        requires { 0 < length buf.old }
        ensures bound { ReadsAtMost result buf.new }
        ensures bytes { ReadConsumes (Some self.old.left) (Some self.new.left) result buf.new }
        ensures last { self.new.last ≡ last_read result }
        ensures cause { HasCause self.old.calls.faults self.new.calls.faults result }
        ensures piece { self.new.piece ≡ self.old.piece }
        ensures count { IfOk result
            (λ n. n ≡ min (min self.old.piece (length buf.old)) (length self.old.left)) }
        ensures calls { self.new.calls ≡ counted self.old.calls }
        ensures fails { IsErr result ↔ IsTrue (fails_next self.old.calls) }
    {
        let answer = self.read_counted(buf);
        self.last = LastRead::of(&answer);
        answer
    }
}
