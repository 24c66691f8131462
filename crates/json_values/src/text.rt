//! Ids, addresses, MACs, prefixes and numbers in texts.
ghost use Rattle.std.specs.Prelude.{◌≡◌};
ghost use Rattle.json_values.specs.Numbers.{number_in, four_in, mac_in};
ghost use Rattle.json_values.specs.Six.{six_in};
ghost use Rattle.json_values.specs.Texts.{address_in, written_in, id_in};

use api_types::Id;
use net_addr::{Addr, Addr4, Addr6, Cidr, Mac};

/// The id that a text spells in the hyphenated form (RFC 9562), in either case, or None where it
/// spells none that a project can have drawn.
#[tactic(auto, using(crate::proofs::IdLemmas::id_read, crate::proofs::IdLemmas::no_id))]
pub fn read_id(text: &[u8]) -> Option<Id>
    ensures { result ≡ id_in text.now }
{
    Id::read(text)
}

/// The address of version 4 that a text spells.
#[tactic(auto, using(crate::proofs::AddressLemmas::four_read, crate::proofs::AddressLemmas::no_four))]
pub(crate) fn read_four(text: &[u8]) -> Option<Addr4>
    ensures { result ≡ four_in text.now }
{
    match Addr4::read(text) {
        Ok(address) => Some(address),
        Err(_) => None,
    }
}

/// The address of version 6 that a text spells.
#[tactic(auto, using(crate::proofs::AddrLemmas::six_read, crate::proofs::AddrLemmas::no_six))]
pub(crate) fn read_six(text: &[u8]) -> Option<Addr6>
    ensures { result ≡ six_in text.now }
{
    match Addr6::read(text) {
        Ok(address) => Some(address),
        Err(_) => None,
    }
}

/// The address of either version that a text spells.
#[tactic(auto, using(crate::proofs::AddrLemmas::address_read, crate::proofs::AddrLemmas::no_address))]
pub(crate) fn read_address(text: &[u8]) -> Option<Addr>
    ensures { result ≡ address_in text.now }
{
    match Addr::read(text) {
        Ok(address) => Some(address),
        Err(_) => None,
    }
}

/// The MAC that a text spells.
#[tactic(auto, using(crate::proofs::AddressLemmas::mac_read, crate::proofs::AddressLemmas::no_mac))]
pub(crate) fn read_mac(text: &[u8]) -> Option<Mac>
    ensures { result ≡ mac_in text.now }
{
    match Mac::read(text) {
        Ok(mac) => Some(mac),
        Err(_) => None,
    }
}

/// The number to 255 that a text writes in decimal, without leading zeros.
pub(crate) fn read_byte(text: &str) -> Option<u8>
    ensures { result ≡ number_in 256 text.now }
{
    let Ok(number) = text.parse::<u8>() else {
        return None;
    };
    let mut buffer = itoa::Buffer::new();
    if buffer.format(number) == text {
        Some(number)
    } else {
        None
    }
}

/// The address and the length that a text spells, with `/` between them.
#[tactic(auto, using(crate::proofs::AddrLemmas::cidr_read, crate::proofs::AddrLemmas::no_cidr))]
pub(crate) fn read_cidr(text: &[u8]) -> Option<Cidr>
    ensures { result ≡ written_in text.now }
{
    match Cidr::read(text) {
        Ok(cidr) => Some(cidr),
        Err(_) => None,
    }
}
