//! The least address that isn't held.

ghost use Rattle.std.specs.Prelude.{◌≡◌, ◌+◌, ◌<◌, ◌≤◌, ◌||◌, ◌^◌, ℕ, IfSome, None, Some, false, if◌then◌else◌, length, nat_le, not, slice_index_or, true};
ghost use Rattle.net_addr.specs.Addresses.{addr_eq, number, width, with_number};
ghost use Rattle.net_addr.specs.declared.address.Addr.TheVariants.{V4 as FourOf};
ghost use Rattle.api_ipam.specs.Addresses as addresses;
ghost use Rattle.api_ipam.specs.FixedChoice.{is_in};

use crate::held::HeldAddresses;
use crate::marks::{count_marked, mark};
use net_addr::{Addr, Addr4, Addr6, Same, Span};

/// The number of the bits of an address.
pub(crate) fn number_of(address: &Addr) -> u128
    ensures word { result ≡ number address.now }
    ensures bound { result < 2 ^ width address.now }
{
    match address {
        Addr::V4(address) => u128::from(address.0),
        Addr::V6(address) => address.0,
    }
}

// The address of the same version with another number.
fn numbered(address: &Addr, n: u128) -> Addr
    requires { n < 2 ^ width address.now }
    ensures { result ≡ with_number address.now n }
{
    match *address {
        Addr::V4(_) => Addr::V4(Addr4(n as u32)),
        Addr::V6(_) => Addr::V6(Addr6(n)),
    }
}

// Marks an address, where it is among those from the first on.
fn mark_address(marks: &mut [bool], first: &Addr, address: &Addr)
    ensures length { length marks.new ≡ length marks.old }
    ensures marked { (k : ℕ) → k < length marks.old
        → slice_index_or marks.new k false
        ≡ (slice_index_or marks.old k false
        || addr_eq address.now (with_number first.now (number first.now + k))) }
{
    if address.is_same_version(first) {
        mark(marks, number_of(first), number_of(address));
    }
}

// Marks those of these addresses that are among those from the first on.
fn mark_all(marks: &mut [bool], first: &Addr, held: &[Addr])
    ensures length { length marks.new ≡ length marks.old }
    ensures marked { (k : ℕ) → k < length marks.old
        → slice_index_or marks.new k false
        ≡ (slice_index_or marks.old k false
        || is_in held.now (with_number first.now (number first.now + k))) }
{
    for address in held {
        mark_address(marks, first, address);
    }
}

// The number after this one, if it is that of the address; otherwise this one.
fn after_four(address: &Addr, next: u64) -> u64
    requires { next ≤ 2 ^ 32 }
    ensures moved { result ≡ (if addr_eq address.now (FourOf next) then next + 1 else next) }
    ensures to { result ≤ 2 ^ 32 }
{
    match address {
        Addr::V4(address) => {
            if u64::from(address.0) == next {
                next + 1
            } else {
                next
            }
        }
        Addr::V6(_) => next,
    }
}

// The greater of this number and that of an address of version 4.
fn greatest_four(address: &Addr, greatest: u64) -> u64
    ensures most { greatest ≤ result }
    ensures passed { (m : ℕ) → result < m → addr_eq address.now (FourOf m) ≡ false }
{
    match address {
        Addr::V4(address) => greatest.max(u64::from(address.0)),
        Addr::V6(_) => greatest,
    }
}

// The number after the addresses of version 4 that are held from the first on, if they stand in
// their order, and the greatest that is held.
fn behind_fours(held: &[Addr], first: u32) -> (u64, u64)
    ensures from { first ≤ result.0 }
    ensures to { result.0 ≤ 2 ^ 32 }
    ensures held { (k : ℕ) → first + k < result.0 → is_in held.now (FourOf (first + k)) ≡ true }
    ensures greatest { (m : ℕ) → result.1 < m → is_in held.now (FourOf m) ≡ false }
{
    let mut next = u64::from(first);
    let mut greatest = 0;
    for address in held {
        next = after_four(address, next);
        greatest = greatest_four(address, greatest);
    }
    (next, greatest)
}

// How many addresses of version 4 from the first on are held, one after the other, before one that
// isn't, if they stand in their order and none is after them.
fn count_ordered(held: &[Addr], first: &Addr) -> Option<usize>
    ensures held { IfSome result
        (λ n. (k : ℕ) → k < n
        → is_in held.now (with_number first.now (number first.now + k)) ≡ true) }
    ensures free { IfSome result
        (λ n. is_in held.now (with_number first.now (number first.now + n)) ≡ false) }
{
    let Addr::V4(first) = first else {
        return None;
    };
    let (next, greatest) = behind_fours(held, first.0);
    if greatest < next {
        return Some((next - u64::from(first.0)) as usize);
    }
    None
}

// How many addresses from the first on are held, one after the other, before one that isn't. Unless
// they stand in their order it makes a mark for each held address, and one more. It doesn't tell if
// there is no memory for them.
fn count_held(held: &HeldAddresses, first: &Addr) -> Option<usize>
    ensures held { IfSome result
        (λ n. (k : ℕ) → k < n
        → is_in held.now (with_number first.now (number first.now + k)) ≡ true) }
    ensures free { IfSome result
        (λ n. is_in held.now (with_number first.now (number first.now + n)) ≡ false) }
{
    let addresses = held.as_slice();
    if let Some(many) = count_ordered(addresses, first) {
        return Some(many);
    }
    let Ok(mut marks) = vec![in held.alloc(); false; addresses.len() + 1] else {
        return None;
    };
    mark_all(marks.as_mut_slice(), first, addresses);
    let many = count_marked(marks.as_slice());
    if many < marks.len() {
        return Some(many);
    }
    None
}

// The address of a span after so many, if the span has it.
fn address_after(span: &Span, many: usize) -> Option<Addr>
    ensures { result
        ≡ (if nat_le (number span.now.first + many) (number span.now.last)
        then Some (with_number span.now.first (number span.now.first + many)) else None) }
{
    let first = number_of(&span.first);
    let last = number_of(&span.last);
    let many = many as u128;
    if last - first < many {
        return None;
    }
    Some(numbered(&span.first, first + many))
}

// The least address of a span that isn't held, found address by address. No address is looked at
// but the held ones in front of it.
fn search_within(held: &HeldAddresses, span: &Span) -> Option<Addr>
    ensures { result ≡ addresses.least_within (λ x. not (is_in held.now x)) span.now }
{
    let _last = number_of(&span.last); // for the proof: it fits its version
    let mut address = span.first;
    while held.has(&address) {
        if address.is_same(&span.last) {
            return None;
        }
        address = address.next()?;
    }
    Some(address)
}

// The least address of a span that isn't held.
fn least_within(held: &HeldAddresses, span: &Span) -> Option<Addr>
    ensures { result ≡ addresses.least_within (λ x. not (is_in held.now x)) span.now }
{
    let Some(many) = count_held(held, &span.first) else {
        return search_within(held, span);
    };
    address_after(span, many)
}

fn lesser(one: Option<Addr>, other: Option<Addr>) -> Option<Addr>
    ensures { result ≡ addresses.lesser one other }
{
    match (one, other) {
        (Some(one), Some(other)) => Some(if other < one { other } else { one }),
        (Some(one), None) => Some(one),
        (None, other) => other,
    }
}

/// The least address of the pools that isn't held, where one isn't. Its cost grows with the pools,
/// of which a subnet has 20 at most, times the held addresses, and not with the pools' size. Unless
/// the held addresses of version 4 stand in their order, and none is after those of the pool, it has
/// a mark for each held address for the time of a pass; where there is no memory for them, it passes
/// over the held addresses once for each one that stands first in a pool.
pub fn least_free_address(held: &HeldAddresses, pools: &[Span]) -> Option<Addr>
    ensures { result ≡ addresses.least_free_address (λ x. not (is_in held.now x)) pools.now }
{
    let mut least = None;
    for pool in pools {
        least = lesser(least, least_within(held, pool));
    }
    least
}
