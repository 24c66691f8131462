//! Readers and writers of std as sources and sinks.

ghost use Rattle.std.specs.Prelude.{◌≡◌, ◌<◌, ◌≤◌, None, IfOk, length};
ghost use Rattle.std.specs.Io.{ReadsAtMost};
ghost use Rattle.std.specs.Io.KnownBytes.{ReadConsumes, WriteAppends, Keeps};
ghost use Rattle.keeper_core.specs.Counts.{HasCause, HasRefusalCause};

use crate::last_read::LastRead;
use crate::refusal::{Failed, SinkRefusal};
use crate::sink::Sink;
use crate::source::Source;
use std::io::{Read, Write};
use std::marker::Model;

/// A reader of std as a source. It tells the bytes that its reader tells, so none of a file, a
/// socket or standard input.
#[derive(Drop)]
pub struct ReaderSource<R> {
    inner: R,
    last: LastRead,
    faults: u64,
}

impl<R> Model for ReaderSource<R> {
    ghost use Rattle.keeper_core.specs.Ends.{CountingReader};

    ghost Value = { CountingReader R };

    ghost view = { λ s. record { inner = s.inner; last = s.last; faults = s.faults } };
}

impl<R> ReaderSource<R> {
    /// A source over this reader, of which nothing is read yet.
    pub fn make(inner: R) -> ReaderSource<R>
        ensures { result ≡ record { inner = inner; last = LastRead.Unread; faults = 0 } }
    {
        ReaderSource {
            inner,
            last: LastRead::Unread,
            faults: 0,
        }
    }

    /// How many reads failed.
    pub fn faults(&self) -> u64
        ensures { result ≡ self.now.faults }
    {
        self.faults
    }

    // A read, counted where it fails.
    fn read_counted(&mut self, buf: &mut [u8]) -> Result<usize, Failed>
    where
        R: Read,
        requires { 0 < length buf.old }
        ensures bound { ReadsAtMost result buf.new }
        ensures bytes { ReadConsumes (R.remaining self.old.inner) (R.remaining self.new.inner)
            result buf.new }
        ensures cause { HasCause self.old.faults self.new.faults result }
    {
        match self.inner.read(buf) {
            Ok(count) => Ok(count),
            Err(_) => {
                self.faults = self.faults.saturating_add(1);
                Err(Failed)
            }
        }
    }
}

impl<R: Read> Source for ReaderSource<R> {
    ghost told = { λ s. record { left = R.remaining s.inner; last = s.last; faults = s.faults } };

    fn read(&mut self, buf: &mut [u8]) -> Result<usize, Failed> {
        let answer = self.read_counted(buf);
        self.last = LastRead::of(&answer);
        answer
    }
}

/// A writer of std as a sink. It tells nothing, and hands its pieces on to the writer as they are.
#[derive(Drop)]
pub struct WriterSink<W> {
    inner: W,
    faults: u64,
}

impl<W> Model for WriterSink<W> {
    ghost use Rattle.keeper_core.specs.Ends.{CountingWriter};

    ghost Value = { CountingWriter W };

    ghost view = { λ s. record { inner = s.inner; faults = s.faults } };
}

impl<W> WriterSink<W> {
    /// A sink over this writer, without faults yet.
    pub fn make(inner: W) -> WriterSink<W>
        ensures { result ≡ record { inner = inner; faults = 0 } }
    {
        WriterSink { inner, faults: 0 }
    }

    /// How many writes and flushes failed.
    pub fn faults(&self) -> u64
        ensures { result ≡ self.now.faults }
    {
        self.faults
    }

    /// The writer.
    pub fn into_inner(self) -> W
        ensures { result ≡ self.inner }
    {
        self.inner
    }
}

impl<W: Write> Sink for WriterSink<W> {
    ghost told = { λ s. record { written = None; flushed = None; faults = s.faults } };

    /// A write that takes nothing of the piece counts as a fault.
    fn write(&mut self, piece: &[u8]) -> Result<usize, SinkRefusal>
        requires { 0 < length piece.now }
        ensures count { IfOk result (λ n. (0 < n) × (n ≤ length piece.now)) }
        ensures passes { WriteAppends (W.contents self.old.inner) (W.contents self.new.inner)
            result piece.now }
        ensures cause { HasRefusalCause self.old.faults self.new.faults result }
    {
        match self.inner.write(piece) {
            Ok(count) if count > 0 => Ok(count),
            _ => {
                self.faults = self.faults.saturating_add(1);
                Err(SinkRefusal::Failed)
            }
        }
    }

    fn flush(&mut self) -> Result<(), Failed>
        ensures passes { Keeps (W.contents self.old.inner) (W.contents self.new.inner) }
        ensures cause { HasCause self.old.faults self.new.faults result }
    {
        match self.inner.flush() {
            Ok(()) => Ok(()),
            Err(_) => {
                self.faults = self.faults.saturating_add(1);
                Err(Failed)
            }
        }
    }
}
