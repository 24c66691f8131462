//! Keys of tables, and keys from the greatest to the least.

ghost use Rattle.std.specs.Prelude.{◌≡◌, ◌-◌, IfOk, length, slice_get};
ghost use Rattle.std.specs.List.Sorted.{IsSortedBy};
ghost use Rattle.std.specs.Ordering.{is_lt};
ghost use Rattle.table_edits.specs.EditsAt.{KeysDescend, among};
ghost use Rattle.table_edits.specs.Places.{is_below};

use net_addr::{Addr, OutOfMemory, Prefix};
use std::alloc::Global;
use std::cmp::Ordering;

/// A key of a table. Of two keys one comes before the other, or they are one.
pub trait TableKey: Copy + Drop {
    ghost use Rattle.std.specs.Prelude.{Bool};
    ghost use Rattle.plane_types.specs.Keyed.{IsTotal};

    ghost before: { Self → Self → Bool };

    /// Whether this one comes before the other.
    fn is_before(&self, other: &Self) -> bool
        ensures { result ≡ before self.now other.now };

    ghost total: { IsTotal before };
}

impl TableKey for usize {
    ghost use Rattle.std.specs.Prelude.{nat_lt};
    ghost use Rattle.plane_types.proofs.NumberedLemmas.{number_order};

    ghost before = { nat_lt };

    ghost total = { number_order };

    fn is_before(&self, other: &usize) -> bool {
        *self < *other
    }
}

impl TableKey for u64 {
    ghost use Rattle.std.specs.Prelude.{nat_lt};
    ghost use Rattle.plane_types.proofs.NumberedLemmas.{number_order};

    ghost before = { nat_lt };

    ghost total = { number_order };

    fn is_before(&self, other: &u64) -> bool {
        *self < *other
    }
}

impl TableKey for u16 {
    ghost use Rattle.std.specs.Prelude.{nat_lt};
    ghost use Rattle.plane_types.proofs.NumberedLemmas.{number_order};

    ghost before = { nat_lt };

    ghost total = { number_order };

    fn is_before(&self, other: &u16) -> bool {
        *self < *other
    }
}

impl TableKey for Addr {
    ghost use Rattle.net_addr.specs.Ordered.{addr_before};
    ghost use Rattle.table_edits.specs.KeyOrders.{addr_order};

    ghost before = { addr_before };

    ghost total = { addr_order };

    fn is_before(&self, other: &Addr) -> bool {
        *self < *other
    }
}

impl TableKey for Prefix {
    ghost use Rattle.api_types.specs.Ascending.{prefix_before};
    ghost use Rattle.table_edits.specs.KeyOrders.{prefix_order};

    ghost before = { prefix_before };

    ghost total = { prefix_order };

    fn is_before(&self, other: &Prefix) -> bool {
        self.base < other.base || (self.base == other.base && self.len < other.len)
    }
}

/// By the first part, and then by the second.
impl<A: TableKey, B: TableKey> TableKey for (A, B) {
    ghost use Rattle.plane_types.specs.Keyed.{pair_order};
    ghost use Rattle.plane_types.proofs.PairLemmas.{pair_total};

    ghost before = { pair_order A.before B.before };

    ghost total = { pair_total A.before B.before A.total B.total };

    fn is_before(&self, other: &(A, B)) -> bool {
        if self.0.is_before(&other.0) {
            true
        } else if other.0.is_before(&self.0) {
            false
        } else {
            self.1.is_before(&other.1)
        }
    }
}

fn compare<K: TableKey>(left: &K, right: &K) -> Ordering
    ensures { is_lt result ≡ K.before left.now right.now }
{
    if left.is_before(right) {
        Ordering::Less
    } else if right.is_before(left) {
        Ordering::Greater
    } else {
        Ordering::Equal
    }
}

/// These keys from the greatest to the least, each once. Its cost grows with their number and its
/// logarithm.
pub fn descending<K: TableKey>(alloc: Global, mut keys: Vec<K>) -> Result<Vec<K>, OutOfMemory>
    ensures down { IfOk result (λ ks. KeysDescend K.before ks.items) }
    ensures same { IfOk result
        (λ ks. (q : K) → among K.before q ks.items ≡ among K.before q keys.items) }
{
    keys.sort_by(|left, right| compare(left, right))?;
    turn_once(alloc, keys)
}

// Keys that ascend, from the back, each once.
fn turn_once<K: TableKey>(alloc: Global, mut keys: Vec<K>) -> Result<Vec<K>, OutOfMemory>
    requires { IsSortedBy K.before keys.items }
    ensures down { IfOk result (λ ks. KeysDescend K.before ks.items) }
    ensures same { IfOk result
        (λ ks. (q : K) → among K.before q ks.items ≡ among K.before q keys.items) }
{
    let mut once: Vec<K> = Vec::new(alloc);
    while let Some(key) = keys.pop() {
        if is_new(&once, &key) {
            once.push(key)?;
        }
    }
    Ok(once)
}

// Whether a key comes before the last of these, if there is one.
fn is_new<K: TableKey>(once: &[K], key: &K) -> bool
    ensures { result ≡ is_below K.before key.now (slice_get once.now (length once.now - 1)) }
{
    match once.last() {
        Some(last) => key.is_before(last),
        None => true,
    }
}

/// Whether a key is among some from the greatest to the least. Its cost grows with the logarithm of
/// their number.
pub fn is_among<K: TableKey>(keys: &[K], key: &K) -> bool
    requires { KeysDescend K.before keys.now }
    ensures { result ≡ among K.before key.now keys.now }
{
    let place = keys.partition_point(|other| key.is_before(other));
    match keys.get(place) {
        Some(other) => !other.is_before(key),
        None => false,
    }
}
