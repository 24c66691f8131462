//! Ids, addresses and texts as numbers, by which they are sorted.

ghost use Rattle.std.specs.Prelude.{◌≡◌, ◌<◌, ◌^◌};
ghost use Rattle.net_addr.specs.Addresses as addresses;
ghost use Rattle.api_consistency.specs.Numbers as numbers;

use crate::stretch::Stretch;
use api_types::Id;
use net_addr::{Addr, Text};

/// The number of an id; two ids have different ones.
pub(crate) fn id_number(id: Id) -> u128
    ensures word { result ≡ numbers.id_number id }
    ensures bound { result < 2 ^ 96 }
{
    u128::from(id.ordinal()) * 0x1_0000_0000_0000_0000 + u128::from(id.count())
}

/// The number of an address within its version.
pub(crate) fn address_number(address: &Addr) -> u128
    ensures { result ≡ addresses.number address.now }
{
    match *address {
        Addr::V4(x) => u128::from(x.0),
        Addr::V6(x) => x.0,
    }
}

// The multiplier of PCG with 128 bits (O'Neill, 2014).
const MULTIPLIER: u128 = 0x2360_ed05_1fc6_5da4_4385_df64_9fcc_f645;

/// What has been mixed so far, with one part more.
#[tactic(auto, unfolding(crate::specs::Numbers::mix))]
pub(crate) fn mix(all: u128, part: u128) -> u128
    ensures { result ≡ numbers.mix all part }
{
    all.wrapping_mul(MULTIPLIER).wrapping_add(part)
}

/// A number that equal texts have alike, and different ones hardly ever.
pub(crate) fn text_number(text: &Text) -> u128
    ensures { result ≡ numbers.mixed 0 text.now }
{
    let mut all: u128 = 0;
    for byte in text.as_str().as_bytes() {
        all = mix(all, u128::from(*byte));
    }
    all
}

/// The number of a group of addresses of one version, in a network or at a router of this number.
pub(crate) fn version_group(group: u128, address: &Addr) -> u128
    requires { group < 2 ^ 96 }
    ensures { result ≡ numbers.version_group group address.now }
{
    if address.is_v4() {
        group * 2
    } else {
        group * 2 + 1
    }
}

/// One number of a group.
pub(crate) fn single(group: u128, number: u128) -> Stretch
    ensures { result ≡ numbers.single group number }
{
    Stretch {
        group,
        first: number,
        last: number,
        holder: 0,
    }
}
