//! A value with several owners, seen as the value.

ghost use Rattle.std.specs.Prelude.{◌≡◌, IfOk, IfSome};

use crate::id::Id;
use crate::table::Keyed;
use net_addr::{Copies, OutOfMemory, Same, Text};
use std::alloc::{AllocError, Global};
use std::marker::Model;
use std::ops::Deref;
use std::rc::Rc;

/// A value with several owners, each of which only reads it. Contracts see the value, so that a
/// copy is equal, whatever it costs.
#[derive(Drop)]
pub struct Shared<T: Drop> {
    counted: Rc<T>,
}

impl<T: Drop> Model for Shared<T> {
    ghost Value = { T };

    ghost view = { λ s. s.counted.value };
}

impl<T: Drop> Shared<T> {
    ghost use Rattle.std.specs.Borrow.{LendsIf, sem};
    ghost use Rattle.api_types.specs.contracts.shared.Shared.{the_row};

    /// The first owner of a value.
    pub fn new(alloc: Global, value: T) -> Result<Shared<T>, OutOfMemory>
        ensures { IfOk result (λ s. s ≡ value) }
    {
        match Rc::new(alloc, value) {
            Ok(counted) => Ok(Shared { counted }),
            Err(_) => Err(OutOfMemory),
        }
    }

    /// The value.
    pub fn get(&self) -> &T
        ensures { result.now ≡ self.now }
    {
        &self.counted
    }

    /// The value, to write to, where it has no other owner.
    pub(crate) fn get_mut(&mut self) -> Option<&mut T>
        ensures* writes_back { sem 𝓛
            (LendsIf (the_row T.row) T.row self.entry result (λ w. w) self.old) }
        ensures value { IfSome result (λ x. x.now ≡ self.old) }
    {
        Rc::get_mut(&mut self.counted)
    }
}

impl<T: Drop> Deref for Shared<T> {
    type Target = T;

    ghost deref_gives = { λ s x. x ≡ s };

    fn deref(&self) -> &T
        ensures { result.now ≡ self.now }
    {
        &self.counted
    }
}

impl<T: Drop> Clone for Shared<T> {
    ghost is_clone = { λ s copied. copied ≡ s };

    fn clone(&self) -> Result<Shared<T>, AllocError> {
        Ok(Shared {
            counted: self.counted.clone()?,
        })
    }
}

impl<T: Drop> Copies for Shared<T> {
    fn copy(&self, _alloc: Global) -> Result<Shared<T>, OutOfMemory> {
        Ok(Shared {
            counted: self.counted.clone()?,
        })
    }
}

impl<T: Drop + Same> Same for Shared<T> {
    fn is_same(&self, other: &Shared<T>) -> bool {
        self.get().is_same(other.get())
    }
}

impl<R: Keyed> Keyed for Shared<R> {
    ghost id_of = { R.id_of };

    ghost project_of = { R.project_of };

    fn id(&self) -> Id {
        self.get().id()
    }

    fn project(&self) -> &Text {
        self.get().project()
    }
}
