//! Texts of addresses, MACs and prefixes.
ghost use Rattle.std.specs.Prelude.{◌≡◌, ◌↔◌, ℕ, ◌<◌, ◌≤◌, [], ◌∷◌, length, slice_index, IfOk, IfErr, OnErr};
ghost use Rattle.net_addr.specs.Addresses.{width};
ghost use Rattle.net_addr.specs.Prefixes.{Written};
ghost use Rattle.net_addr.specs.Spelling.{Spells, SpellsAddr, SpellsAddress, SpellsCidr, SpellsMac, IsAddrText, IsAddressText, IsCidrText, IsLongestStart, IsMacText, IsTextOf};
ghost use Rattle.net_addr.specs.declared.address.Addr.{Addr};
ghost use Rattle.net_addr.specs.declared.spelling.Part.TheVariants.{Number};

use crate::address::{Addr, Addr4, Addr6, Cidr, Mac};
use crate::spelling::{BadAddress, Part, read_parts};

pub(crate) const ADDRESS: [Part; 7] = [
    Part::Number(255),
    Part::Mark(b'.'),
    Part::Number(255),
    Part::Mark(b'.'),
    Part::Number(255),
    Part::Mark(b'.'),
    Part::Number(255),
];

const MAC: [Part; 17] = [
    Part::Digit,
    Part::Digit,
    Part::Mark(b':'),
    Part::Digit,
    Part::Digit,
    Part::Mark(b':'),
    Part::Digit,
    Part::Digit,
    Part::Mark(b':'),
    Part::Digit,
    Part::Digit,
    Part::Mark(b':'),
    Part::Digit,
    Part::Digit,
    Part::Mark(b':'),
    Part::Digit,
    Part::Digit,
];

impl Addr4 {
    /// Reads four decimal numbers to 255 without leading zeros, with dots between them (RFC 3986,
    /// 3.2.2). Takes no memory; its cost grows with the text up to the first bad byte.
    #[tactic(auto, unfolding(crate::specs::Spelling::SpellsAddress))]
    pub fn read(text: &[u8]) -> Result<Addr4, BadAddress>
        ensures ok { IfOk result (λ a. SpellsAddress text.now a) }
        ensures only { IfOk result (λ a. (n : ℕ) → SpellsAddress text.now n → n ≡ a) }
        ensures refused { OnErr result (¬ (IsAddressText text.now)) }
        ensures at { IfErr result (λ e. IsLongestStart IsAddressText text.now e.at) }
    {
        let value = read_parts(&ADDRESS, text)?;
        Ok(Addr4(value as u32))
    }
}

impl Mac {
    /// Reads six pairs of hexadecimal digits, in either case, with colons between them (IEEE 802).
    /// Takes no memory; its cost grows with the text up to the first bad byte.
    #[tactic(auto, unfolding(crate::specs::Spelling::SpellsMac))]
    pub fn read(text: &[u8]) -> Result<Mac, BadAddress>
        ensures ok { IfOk result (λ m. SpellsMac text.now m) }
        ensures only { IfOk result (λ m. (n : ℕ) → SpellsMac text.now n → n ≡ m) }
        ensures refused { OnErr result (¬ (IsMacText text.now)) }
        ensures at { IfErr result (λ e. IsLongestStart IsMacText text.now e.at) }
    {
        let value = read_parts(&MAC, text)?;
        Ok(Mac(value as u64))
    }
}

impl Addr {
    /// Reads an address of either version, as `Addr4::read` and `Addr6::read` do: no text is of
    /// both. Takes no memory; its cost grows with the text up to the first bad byte.
    pub fn read(text: &[u8]) -> Result<Addr, BadAddress>
        ensures ok { IfOk result (λ a. SpellsAddr text.now a) }
        ensures only { IfOk result (λ a. (n : Addr) → SpellsAddr text.now n → n ≡ a) }
        ensures refused { OnErr result (¬ (IsAddrText text.now)) }
        ensures at { IfErr result (λ e. IsLongestStart IsAddrText text.now e.at) }
    {
        let four = match Addr4::read(text) {
            Ok(address) => return Ok(Addr::V4(address)),
            Err(bad) => bad.at,
        };
        match Addr6::read(text) {
            Ok(address) => Ok(Addr::V6(address)),
            Err(bad) => Err(BadAddress {
                at: four.max(bad.at),
            }),
        }
    }
}

// The place of the first slash, or the length of a text without one.
fn slash_in(text: &[u8]) -> usize
    ensures within { result ≤ length text.now }
    ensures before { (k : ℕ) → k < result → ¬ (slice_index text.now k ≡ 47) }
    ensures found { result < length text.now → slice_index text.now result ≡ 47 }
{
    for (place, c) in text.iter().enumerate() {
        if *c == b'/' {
            return place;
        }
    }
    text.len()
}

// A decimal number to a bound.
fn read_number(top: u8, text: &[u8]) -> Result<u8, BadAddress>
    ensures ok { IfOk result (λ v. (n : ℕ) → Spells (Number top ∷ []) 0 text.now n ↔ (n ≡ v)) }
    ensures refused { OnErr result (¬ (IsTextOf (Number top ∷ []) text.now)) }
    ensures at { IfErr result (λ e. IsLongestStart (IsTextOf (Number top ∷ [])) text.now e.at) }
{
    let value = read_parts(&[Part::Number(top)], text)?;
    Ok(value as u8)
}

impl Cidr {
    /// Reads an address, `/` and a number to 32 or 128 without leading zeros (RFC 4632, 3.1). Takes
    /// no memory; its cost grows with the text up to the first bad byte.
    pub fn read(text: &[u8]) -> Result<Cidr, BadAddress>
        ensures ok { IfOk result (λ c. SpellsCidr text.now c) }
        ensures only { IfOk result (λ c. (w : Written) → SpellsCidr text.now w → w ≡ c) }
        ensures refused { OnErr result (¬ (IsCidrText text.now)) }
        ensures at { IfErr result (λ e. IsLongestStart IsCidrText text.now e.at) }
    {
        let slash = slash_in(text);
        let addr = Addr::read(&text[..slash])?;
        if slash == text.len() {
            return Err(BadAddress { at: slash });
        }
        let behind = slash + 1;
        match read_number(addr.width(), &text[behind..]) {
            Ok(len) => Ok(Cidr { addr, len }),
            Err(bad) => Err(BadAddress {
                at: behind + bad.at,
            }),
        }
    }
}
