//! Equal copies, where memory may run out, and equality.

ghost use Rattle.std.specs.Prelude.{◌≡◌, ◌↔◌, IfOk, IsTrue};

use crate::memory::OutOfMemory;
use std::alloc::Global;

/// A value that can be made a second time.
pub trait Copies: Drop {
    /// An equal value. Its cost grows with the value.
    fn copy(&self, alloc: Global) -> Result<Self, OutOfMemory>
        ensures { IfOk result (λ r. r ≡ self.now) };
}

/// A value that can be compared with another of its type.
pub trait Same {
    /// Whether the two are equal. Its cost grows with the smaller value.
    fn is_same(&self, other: &Self) -> bool
        ensures { IsTrue result ↔ (self.now ≡ other.now) };
}

impl<T: Copies> Copies for Option<T> {
    fn copy(&self, alloc: Global) -> Result<Option<T>, OutOfMemory> {
        match self {
            None => Ok(None),
            Some(value) => Ok(Some(value.copy(alloc)?)),
        }
    }
}

impl<T: Same> Same for Option<T> {
    fn is_same(&self, other: &Option<T>) -> bool {
        match (self, other) {
            (None, None) => true,
            (Some(a), Some(b)) => a.is_same(b),
            _ => false,
        }
    }
}

impl Same for bool {
    fn is_same(&self, other: &bool) -> bool {
        *self == *other
    }
}

impl Same for u8 {
    fn is_same(&self, other: &u8) -> bool {
        *self == *other
    }
}

impl Same for u16 {
    fn is_same(&self, other: &u16) -> bool {
        *self == *other
    }
}

impl Same for u32 {
    fn is_same(&self, other: &u32) -> bool {
        *self == *other
    }
}

impl Same for u64 {
    fn is_same(&self, other: &u64) -> bool {
        *self == *other
    }
}

impl Copies for u64 {
    fn copy(&self, _alloc: Global) -> Result<u64, OutOfMemory> {
        Ok(*self)
    }
}
