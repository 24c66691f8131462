//! The last changes, each under its number.

ghost use Rattle.std.specs.Prelude.{◌≡◌, ◌+◌, ◌-◌, ◌^◌, ◌<◌, ◌≤◌, [], IfErr, IfOk, Some};
ghost use Rattle.bus_core.specs.Kept.{IsGone, change_of, first_of, with_newest};

use api_types::Change;
use circular_buffer::HeapCircularBuffer;
use net_addr::OutOfMemory;
use std::alloc::Global;
use std::marker::Model;

// This many changes are kept.
const MOST_KEPT: usize = 1024;

/// The last 1,024 changes, each under its number. Contracts see the number of the last one, and the
/// changes from the oldest on.
#[derive(Drop)]
pub struct Bus {
    changes: HeapCircularBuffer<Change>,
    last: u64,
}

impl Model for Bus {
    ghost use Rattle.std.specs.Prelude.{◌≡◌};
    ghost use Rattle.bus_core.specs.Kept.{AreLast, Kept, most_kept};

    ghost Value = { Kept };

    ghost view = { λ b. record { last = b.last; changes = b.changes.items } };

    ghost invariant = { λ b.
        (b.changes.capacity ≡ most_kept)
        × AreLast (record { last = b.last; changes = b.changes.items }) };
}

/// No change is kept under this number. Where none is kept at all, `first` is one above `last`.
#[derive(Clone, Copy, Debug, PartialEq, Eq)]
pub struct Gone {
    /// The number of the first change that is kept.
    pub first: u64,
    /// The number of the last change, or 0 where there was none.
    pub last: u64,
    /// The number that was asked for.
    pub asked: u64,
}

impl Bus {
    /// No changes. The first will have the number 1. It takes the room for all that will be kept.
    pub fn make(alloc: Global) -> Result<Bus, OutOfMemory>
        ensures { IfOk result (λ b. b ≡ record { last = 0; changes = [] }) }
    {
        Ok(Bus {
            changes: HeapCircularBuffer::with_capacity(alloc, MOST_KEPT)?,
            last: 0,
        })
    }

    /// Keeps a change under the next number, which is the answer. Of more than 1,024 the oldest
    /// goes. It allocates nothing.
    pub fn push(&mut self, change: Change) -> u64
        requires { self.old.last < 2 ^ 64 - 1 }
        ensures number { result ≡ self.old.last + 1 }
        ensures bus { self.new
            ≡ record {
              last = self.old.last + 1;
              changes = with_newest self.old.changes change;
            } }
    {
        let _oldest = self.changes.push_back(change);
        self.last += 1;
        self.last
    }

    /// The number of the last change, or 0 where there was none.
    pub fn last(&self) -> u64
        ensures { result ≡ self.now.last }
    {
        self.last
    }

    /// The number of the first change that is kept. Where none is kept, it is one above the last.
    pub fn first(&self) -> u64
        ensures { result ≡ first_of self.now.last self.now.changes }
    {
        self.last - self.changes.len() as u64 + 1
    }

    /// The change under this number, or that none is kept under it.
    pub fn get(&self, number: u64) -> Result<&Change, Gone>
        ensures ok { IfOk result
            (λ c. change_of self.now.last self.now.changes number ≡ Some c.now) }
        ensures err { IfErr result
            (λ g. g
            ≡ record {
              first = first_of self.now.last self.now.changes;
              last = self.now.last;
              asked = number;
            }) }
        ensures gone { IfErr result (λ g. IsGone self.now number) }
    {
        let gone = self.last - self.changes.len() as u64;
        if number > gone {
            if let Some(change) = self.changes.get((number - gone - 1) as usize) {
                return Ok(change);
            }
        }
        Err(Gone {
            first: gone + 1,
            last: self.last,
            asked: number,
        })
    }
}
