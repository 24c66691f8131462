//! Bytes that are read and not answered yet.

ghost use Rattle.std.specs.Prelude.{◌≡◌, ℕ, ◌+◌, ◌-◌, ◌<◌, ◌≤◌, List, [], ◌++◌, false, true, length, take, drop, IfOk, OnErr};
ghost use Rattle.std.specs.Io.KnownBytes.{Consumes, Keeps};
ghost use Rattle.http_session.specs.Serves.{HasEnded};
ghost use Rattle.keeper_core.specs.Counts.{HasCause};
ghost use Rattle.keeper_core.specs.Ends.{has_failed};

use keeper_core::{Failed, Source};
use net_addr::OutOfMemory;
use std::alloc::Global;
use std::marker::Model;

/// The most bytes of a line, without its line feed.
pub(crate) const LINE_LIMIT: usize = 65_536;

/// Room for a whole line. The bytes stand from `start` on, `len` of them. What was answered before
/// them stays until the next read, so each is moved to the front once at most.
#[derive(Drop)]
pub(crate) struct Pending {
    bytes: Vec<u8>,
    start: usize,
    len: usize,
}

impl Model for Pending {
    ghost Value = { List ℕ };

    ghost view = { λ b. take b.len (drop b.start b.bytes.items) };

    ghost invariant = { λ b. (length b.bytes.items ≡ 65537) × (b.start + b.len ≤ 65537) };
}

// Where a read of at most `at_most` bytes ends.
fn end_of(from: usize, to: usize, at_most: u64) -> usize
    requires room { from < to }
    requires some { 0 < at_most }
    ensures above { from < result }
    ensures within { result ≤ to }
    ensures few { result ≤ from + at_most }
{
    if at_most < (to - from) as u64 {
        from + at_most as usize
    } else {
        to
    }
}

// Reads after the first `len` bytes, at most `at_most` of them.
fn read_after<I: Source>(
    input: &mut I,
    bytes: &mut [u8],
    len: usize,
    at_most: u64,
) -> Result<usize, Failed>
    requires room { len < length bytes.old }
    requires some { 0 < at_most }
    ensures ok { IfOk result (λ n.
        (piece : List ℕ) × (take (len + n) bytes.new ≡ take len bytes.old ++ piece)
        × (length piece ≡ n) × (len + n ≤ length bytes.old) × (n ≤ at_most)
        × Consumes (I.told input.old).left (I.told input.new).left piece
        × (n ≡ 0 → HasEnded (I.told input.new)) × (has_failed (I.told input.new) ≡ false)) }
    ensures err { OnErr result
        ((take len bytes.new ≡ take len bytes.old)
        × Keeps (I.told input.old).left (I.told input.new).left
        × (has_failed (I.told input.new) ≡ true)) }
    ensures cause { HasCause (I.told input.old).faults (I.told input.new).faults result }
{
    let end = end_of(len, bytes.len(), at_most);
    input.read(&mut bytes[len..end])
}

// Moves `len` bytes that begin at `start` to the front.
fn close_up(bytes: &mut [u8], start: usize, len: usize)
    requires { start + len ≤ length bytes.old }
    ensures { take len bytes.new ≡ take len (drop start bytes.old) }
{
    if start > 0 {
        bytes.copy_within(start..start + len, 0);
    }
}

impl Pending {
    // No bytes yet.
    pub(crate) fn make(alloc: Global) -> Result<Pending, OutOfMemory>
        ensures { IfOk result (λ b. b ≡ []) }
    {
        let bytes = vec![in alloc; 0u8; LINE_LIMIT + 1]?;
        Ok(Pending {
            bytes,
            start: 0,
            len: 0,
        })
    }

    pub(crate) fn as_slice(&self) -> &[u8]
        ensures value { result.now ≡ self.now }
        ensures room { length self.now ≤ 65537 }
    {
        &self.bytes.as_slice()[self.start..self.start + self.len]
    }

    // Reads at most `at_most` more bytes, and answers how many.
    pub(crate) fn read_from<I: Source>(
        &mut self,
        input: &mut I,
        at_most: u64,
    ) -> Result<usize, Failed>
        requires room { length self.old < 65537 }
        requires some { 0 < at_most }
        ensures ok { IfOk result (λ n. (piece : List ℕ) × (self.new ≡ self.old ++ piece)
            × (length piece ≡ n) × (n ≤ at_most)
            × Consumes (I.told input.old).left (I.told input.new).left piece
            × (n ≡ 0 → HasEnded (I.told input.new)) × (has_failed (I.told input.new) ≡ false)) }
        ensures err { OnErr result
            ((self.new ≡ self.old) × Keeps (I.told input.old).left (I.told input.new).left
            × (has_failed (I.told input.new) ≡ true)) }
        ensures cause { HasCause (I.told input.old).faults (I.told input.new).faults result }
    {
        close_up(self.bytes.as_mut_slice(), self.start, self.len);
        self.start = 0;
        let count = read_after(input, self.bytes.as_mut_slice(), self.len, at_most)?;
        self.len += count;
        Ok(count)
    }

    // Leaves out the first bytes.
    pub(crate) fn drop_front(&mut self, count: usize)
        requires { count ≤ length self.old }
        ensures { self.new ≡ drop count self.old }
    {
        self.start += count;
        self.len -= count;
    }
}
