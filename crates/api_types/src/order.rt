//! Values that have an order, and lists put into it.

ghost use Rattle.std.specs.Prelude.{◌≡◌, IfOk};
ghost use Rattle.std.specs.Ordering.{is_lt};
ghost use Rattle.api_types.specs.Ascending.{ascending as in_order};

use crate::port::Fixed;
use net_addr::{OutOfMemory, Prefix};
use std::cmp::Ordering;

/// A value that has its place among others of its type.
pub trait Ordered: Drop {
    ghost use Rattle.std.specs.Prelude.{Bool};
    ghost use Rattle.std.specs.Cmp.{IsStrictWeakOrder};

    ghost before: { Self → Self → Bool };

    /// Whether this one comes before the other.
    fn is_before(&self, other: &Self) -> bool
        ensures { result ≡ before self.now other.now };

    ghost order: { IsStrictWeakOrder before };
}

impl Ordered for Prefix {
    ghost use Rattle.std.proofs.Common.{arith};
    ghost use Rattle.std.proofs.lemmas.Bool.Decides.{nat_tests};
    ghost use Rattle.api_types.specs.Ascending.{prefix_before};

    ghost before = { prefix_before };

    ghost order = { record {
      one_way = λ x y h. Prim.grind (arith, nat_tests);
      chain = λ x y z h k. Prim.grind (arith, nat_tests);
    } };

    fn is_before(&self, other: &Prefix) -> bool {
        self.base < other.base || (self.base == other.base && self.len < other.len)
    }
}

impl Ordered for Fixed {
    ghost use Rattle.std.proofs.Common.{arith};
    ghost use Rattle.std.proofs.lemmas.Bool.Decides.{nat_tests};
    ghost use Rattle.api_types.specs.RouterRows.{by_address};

    ghost before = { by_address };

    ghost order = { record {
      one_way = λ x y h. Prim.grind (arith, nat_tests);
      chain = λ x y z h k. Prim.grind (arith, nat_tests);
    } };

    fn is_before(&self, other: &Fixed) -> bool {
        self.address < other.address
    }
}

// Which of two comes first.
fn compare<T: Ordered>(left: &T, right: &T) -> Ordering
    ensures { is_lt result ≡ T.before left.now right.now }
{
    if left.is_before(right) {
        Ordering::Less
    } else if right.is_before(left) {
        Ordering::Greater
    } else {
        Ordering::Equal
    }
}

/// The items in order; of two of which neither comes before the other, the first stays first. Its
/// cost grows with their number and its logarithm.
pub fn ascending<T: Ordered>(mut items: Vec<T>) -> Result<Vec<T>, OutOfMemory>
    ensures { IfOk result (λ v. v.items ≡ in_order T.before items.items) }
{
    items.sort_by(|left, right| compare(left, right))?;
    Ok(items)
}
