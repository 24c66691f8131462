//! Rows that are kept in ascending order.

ghost use Rattle.std.specs.Prelude.{◌≡◌, ◌↔◌, [], length, IfOk, IsTrue, OnErr, OnOk};
ghost use Rattle.std.specs.List.Sorted.{IsSortedBy};
ghost use Rattle.api_types.specs.Ascending.{ascending as in_order, put_in};

use api_types::{Ordered, ascending};
use net_addr::{Copies, OutOfMemory};
use std::alloc::Global;
use std::marker::Model;

/// Items in ascending order. Contracts see their list.
#[derive(Drop)]
pub struct Ascending<T: Ordered> {
    items: Vec<T>,
}

impl<T: Ordered> Model for Ascending<T> {
    ghost use Rattle.std.specs.Prelude.{List};
    ghost use Rattle.std.specs.List.Sorted.{IsSortedBy};

    ghost Value = { List T };

    ghost view = { λ a. a.items.items };

    ghost invariant = { λ a. IsSortedBy T.before a.items.items };
}

impl<T: Ordered> Ascending<T> {
    /// No items.
    pub fn new(alloc: Global) -> Ascending<T>
        ensures { result ≡ [] }
    {
        Ascending {
            items: Vec::new(alloc),
        }
    }

    /// The items in order; of two of which neither comes before the other, the first stays first.
    /// Its cost grows with their number times its logarithm.
    pub fn of(items: Vec<T>) -> Result<Ascending<T>, OutOfMemory>
        ensures { IfOk result (λ a. a ≡ in_order T.before items.items) }
    {
        Ok(Ascending {
            items: ascending(items)?,
        })
    }

    /// The items of a `Vec` that ascend.
    pub(crate) fn of_ascending(items: Vec<T>) -> Ascending<T>
        requires { IsSortedBy T.before items.items }
        ensures { result ≡ items.items }
    {
        Ascending { items }
    }

    /// The items as a `Vec`.
    pub(crate) fn into_vec(self) -> Vec<T>
        ensures items { result.items ≡ self }
        ensures ascend { IsSortedBy T.before result.items }
    {
        self.items
    }

    /// Puts an item in its place, in front of those that it doesn't come after, or leaves all as it
    /// is. Its cost grows with the items after that place.
    pub fn insert(&mut self, item: T) -> Result<(), OutOfMemory>
        ensures ok { OnOk result (self.new ≡ put_in T.before item self.old) }
        ensures err { OnErr result (self.new ≡ self.old) }
    {
        let place = self.items.partition_point(|other| other.is_before(&item));
        self.items.insert(place, item)?;
        Ok(())
    }

    /// The items.
    pub fn as_slice(&self) -> &[T]
        ensures items { result.now ≡ self.now }
        ensures ascend { IsSortedBy T.before result.now }
    {
        self.items.as_slice()
    }

    /// How many items there are.
    pub fn len(&self) -> usize
        ensures { result ≡ length self.now }
    {
        self.items.len()
    }

    /// Whether there are none.
    pub fn is_empty(&self) -> bool
        ensures { IsTrue result ↔ (self.now ≡ []) }
    {
        self.items.is_empty()
    }
}

/// Equal items.
pub(crate) fn copies<T: Copies>(items: &[T], alloc: Global) -> Result<Vec<T>, OutOfMemory>
    ensures { IfOk result (λ v. v.items ≡ items.now) }
{
    let mut copied = Vec::new(alloc);
    for item in items {
        copied.push(item.copy(alloc)?)?;
    }
    Ok(copied)
}

impl<T: Ordered + Copies> Copies for Ascending<T> {
    fn copy(&self, alloc: Global) -> Result<Ascending<T>, OutOfMemory> {
        Ok(Ascending {
            items: copies(&self.items, alloc)?,
        })
    }
}
