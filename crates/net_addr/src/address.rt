//! Addresses of both versions of IP, MACs, prefixes and spans.

ghost use Rattle.std.specs.Prelude.{◌≡◌};

use crate::equal::{Copies, Same};
use crate::memory::OutOfMemory;
use std::alloc::Global;
use std::marker::Model;

/// An IPv4 address (RFC 791), the number of its 32 bits. Contracts see it as that number.
#[derive(Clone, Copy, Debug, PartialEq, Eq, PartialOrd, Ord, Hash)]
pub struct Addr4(pub u32);

impl Model for Addr4 {
    ghost use Rattle.std.specs.Prelude.{ℕ, ◌<◌, ◌^◌};

    ghost Value = { ℕ };

    ghost view = { λ a. a.0 };

    ghost invariant = { λ a. a.0 < 2 ^ 32 };

    ghost inverse = { λ n. record { 0 = n } };
}

/// An IPv6 address (RFC 4291), the number of its 128 bits. Contracts see it as that number.
#[derive(Clone, Copy, Debug, PartialEq, Eq, PartialOrd, Ord, Hash)]
pub struct Addr6(pub u128);

impl Model for Addr6 {
    ghost use Rattle.std.specs.Prelude.{ℕ, ◌<◌, ◌^◌};

    ghost Value = { ℕ };

    ghost view = { λ a. a.0 };

    ghost invariant = { λ a. a.0 < 2 ^ 128 };

    ghost inverse = { λ n. record { 0 = n } };
}

/// An address of either version. Contracts see the version and the number.
#[derive(Clone, Copy, Debug, PartialEq, Eq, PartialOrd, Ord, Hash)]
pub enum Addr {
    V4(Addr4),
    V6(Addr6),
}

/// A MAC address (EUI-48), the number of its 48 bits. Contracts see it as that number.
#[derive(Clone, Copy, Debug, PartialEq, Eq, PartialOrd, Ord, Hash)]
pub struct Mac(pub u64);

impl Model for Mac {
    ghost use Rattle.std.specs.Prelude.{ℕ, ◌<◌, ◌^◌};

    ghost Value = { ℕ };

    ghost view = { λ m. m.0 };

    ghost invariant = { λ m. m.0 < 2 ^ 48 };

    ghost inverse = { λ n. record { 0 = n } };
}

/// An address with the length of a prefix, as it was written (RFC 4632): 10.0.0.5/24.
#[derive(Clone, Copy, Debug, PartialEq, Eq)]
pub struct Cidr {
    pub addr: Addr,
    /// In bits, at most 32 or 128, by the version.
    pub len: u8,
}

impl Model for Cidr {
    ghost use Rattle.net_addr.specs.Prefixes.{Written, IsWritten};

    ghost Value = { Written };

    ghost view = { λ c. record { addr = c.addr; len = c.len } };

    ghost invariant = { λ c. IsWritten (record { addr = c.addr; len = c.len }) };

    ghost inverse = { λ w. record { addr = w.addr; len = w.len } };
}

/// A prefix: the addresses that agree with its base in their first bits. The other bits of the
/// base are zero.
#[derive(Clone, Copy, Debug, PartialEq, Eq)]
pub struct Prefix {
    pub base: Addr,
    /// In bits, at most 32 or 128, by the version.
    pub len: u8,
}

impl Model for Prefix {
    ghost use Rattle.net_addr.specs.Prefixes as prefixes;
    ghost use Rattle.net_addr.specs.Prefixes.{IsPrefix};

    ghost Value = { prefixes.Prefix };

    ghost view = { λ p. record { base = p.base; len = p.len } };

    ghost invariant = { λ p. IsPrefix (record { base = p.base; len = p.len }) };

    ghost inverse = { λ v. record { base = v.base; len = v.len } };
}

/// The addresses of one version from the first to the last, which isn't below the first.
#[derive(Clone, Copy, Debug, PartialEq, Eq)]
pub struct Span {
    pub first: Addr,
    pub last: Addr,
}

impl Model for Span {
    ghost use Rattle.net_addr.specs.Prefixes as prefixes;
    ghost use Rattle.net_addr.specs.Prefixes.{IsSpan};

    ghost Value = { prefixes.Span };

    ghost view = { λ s. record { first = s.first; last = s.last } };

    ghost invariant = { λ s. IsSpan (record { first = s.first; last = s.last }) };

    ghost inverse = { λ v. record { first = v.first; last = v.last } };
}

impl Copies for Addr4 {
    fn copy(&self, _alloc: Global) -> Result<Addr4, OutOfMemory> {
        Ok(*self)
    }
}

impl Copies for Addr {
    fn copy(&self, _alloc: Global) -> Result<Addr, OutOfMemory> {
        Ok(*self)
    }
}

impl Copies for Prefix {
    fn copy(&self, _alloc: Global) -> Result<Prefix, OutOfMemory> {
        Ok(*self)
    }
}

impl Copies for Span {
    fn copy(&self, _alloc: Global) -> Result<Span, OutOfMemory> {
        Ok(*self)
    }
}

impl Same for Addr4 {
    fn is_same(&self, other: &Addr4) -> bool {
        *self == *other
    }
}

impl Same for Addr {
    fn is_same(&self, other: &Addr) -> bool {
        *self == *other
    }
}

impl Same for Mac {
    fn is_same(&self, other: &Mac) -> bool {
        *self == *other
    }
}

impl Same for Prefix {
    fn is_same(&self, other: &Prefix) -> bool {
        *self == *other
    }
}

impl Same for Span {
    fn is_same(&self, other: &Span) -> bool {
        *self == *other
    }
}
