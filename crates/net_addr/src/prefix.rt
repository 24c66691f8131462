//! What prefixes and spans contain, and which addresses are hosts'.

ghost use Rattle.std.specs.Prelude.{◌≡◌, ◌↔◌, ℕ, ◌+◌, ◌-◌, ◌*◌, ◌/◌, ◌%◌, ◌^◌, ◌<◌, ◌≤◌, IsTrue, MatchOption, false, true};
ghost use Rattle.net_addr.specs.Addresses.{IsAddr, addr_eq, number, width, with_number, same_version, is_v4};
ghost use Rattle.net_addr.specs.declared.address.Addr.{Addr as Address};
ghost use Rattle.net_addr.specs.Macs.{is_unicast};
ghost use Rattle.net_addr.specs.Ordered.{whole_prefix};
ghost use Rattle.net_addr.specs.Prefixes.{Contains, contains, eui, eui_number, first_address, last_address, last_number, host_addresses, is_host_of, overlaps, prefix_of, is_exact};
ghost use Rattle.net_addr.specs.Spans.{is_within, are_apart};

use crate::address::{Addr, Addr4, Addr6, Cidr, Mac, Prefix, Span};

// The bits of a number of 128 but the last `behind`.
#[tactic(auto, using(crate::proofs::PrefixLemmas::no_quotient))]
fn leading_bits(x: u128, behind: u8) -> u128
    requires { behind ≤ 128 }
    ensures { result ≡ x / 2 ^ behind }
{
    if behind == 128 {
        return 0;
    }
    x >> behind
}

// The last `behind` bits of a number of 128.
fn trailing_bits(x: u128, behind: u8) -> u128
    requires { behind ≤ 128 }
    ensures { result ≡ x % 2 ^ behind }
{
    if behind == 128 {
        return x;
    }
    x % (1 << behind)
}

// The greatest number of this many bits.
fn ones(bits: u8) -> u128
    requires { bits ≤ 128 }
    ensures { result ≡ 2 ^ bits - 1 }
{
    if bits == 128 {
        return u128::MAX;
    }
    (1 << bits) - 1
}

impl Addr {
    /// How many bits an address of this version has: 32 or 128.
    pub fn width(&self) -> u8
        ensures { result ≡ width self.now }
    {
        match *self {
            Addr::V4(_) => 32,
            Addr::V6(_) => 128,
        }
    }

    // The number of its bits.
    fn number(&self) -> u128
        ensures word { result ≡ number self.now }
        ensures bound { result < 2 ^ width self.now }
    {
        match *self {
            Addr::V4(x) => u128::from(x.0),
            Addr::V6(x) => x.0,
        }
    }

    // The address of the same version with another number.
    fn with_number(&self, n: u128) -> Addr
        requires { n < 2 ^ width self.now }
        ensures { result ≡ with_number self.now n }
    {
        match *self {
            Addr::V4(_) => Addr::V4(Addr4(n as u32)),
            Addr::V6(_) => Addr::V6(Addr6(n)),
        }
    }

    // The addresses of the same version with these numbers and those between them.
    fn span_of(&self, first: u128, last: u128) -> Span
        requires order { first ≤ last }
        requires bound { last < 2 ^ width self.now }
        ensures { result
            ≡ record { first = with_number self.now first; last = with_number self.now last } }
    {
        Span {
            first: self.with_number(first),
            last: self.with_number(last),
        }
    }

    /// Whether it is of version 4.
    pub fn is_v4(&self) -> bool
        ensures { result ≡ is_v4 self.now }
    {
        match *self {
            Addr::V4(_) => true,
            Addr::V6(_) => false,
        }
    }

    /// Whether both are of one version.
    pub fn is_same_version(&self, other: &Addr) -> bool
        ensures { result ≡ same_version self.now other.now }
    {
        match (*self, *other) {
            (Addr::V4(_), Addr::V4(_)) | (Addr::V6(_), Addr::V6(_)) => true,
            _ => false,
        }
    }

    /// The prefix that contains this address alone.
    #[tactic(auto, using(crate::proofs::AddrLemmas::whole_clear))]
    pub fn whole_prefix(&self) -> Prefix
        ensures { result ≡ whole_prefix self.now }
    {
        Prefix {
            base: *self,
            len: self.width(),
        }
    }

    /// The next address of the version, or None at the greatest.
    pub fn next(&self) -> Option<Addr>
        ensures { MatchOption result (number self.now + 1 ≡ 2 ^ width self.now)
            (λ x. x ≡ with_number self.now (number self.now + 1)) }
    {
        if self.number() == ones(self.width()) {
            return None;
        }
        Some(self.with_number(self.number() + 1))
    }

    /// The address of the version before, or None at the least.
    pub fn previous(&self) -> Option<Addr>
        ensures { MatchOption result (number self.now ≡ 0)
            (λ x. x ≡ with_number self.now (number self.now - 1)) }
    {
        if self.number() == 0 {
            return None;
        }
        Some(self.with_number(self.number() - 1))
    }
}

impl Mac {
    /// Whether it can be the address of one interface: it isn't zero, and its first byte is even
    /// (IEEE 802).
    #[tactic(auto, unfolding(crate::specs::Macs::is_unicast))]
    pub fn is_unicast(self) -> bool
        ensures { result ≡ is_unicast self }
    {
        self.0 > 0 && (self.0 >> 40) % 2 == 0
    }

    // The identifier of 64 bits that a port with this MAC has in a prefix (RFC 4291, appendix A).
    #[tactic(auto, unfolding(crate::specs::Prefixes::eui_number))]
    fn eui_number(self) -> u64
        ensures word { result ≡ eui_number self }
        ensures bound { result < 2 ^ 64 }
    {
        let first = self.0 >> 40;
        let flipped = if first / 2 % 2 == 0 {
            first + 2
        } else {
            first - 2
        };
        let company = (self.0 >> 24) % 0x1_0000;
        (flipped << 56) + (company << 40) + 0xff_fe00_0000 + self.0 % 0x100_0000
    }
}

impl Cidr {
    /// The prefix, with the address's bits after the length cleared.
    #[tactic(auto, using(crate::proofs::PrefixLemmas::cleared_away, crate::proofs::PrefixLemmas::cleared_at), unfolding(crate::specs::Prefixes::prefix_of))]
    pub fn prefix(self) -> Prefix
        ensures { result ≡ prefix_of self }
    {
        let behind = self.addr.width() - self.len;
        let number = self.addr.number();
        let base = number - trailing_bits(number, behind);
        Prefix {
            base: self.addr.with_number(base),
            len: self.len,
        }
    }

    /// Whether the address's bits after the length are zero.
    #[tactic(auto, unfolding(crate::specs::Prefixes::is_exact, crate::specs::Prefixes::prefix_of))]
    pub fn is_exact(self) -> bool
        ensures { result ≡ is_exact self }
    {
        let behind = self.addr.width() - self.len;
        trailing_bits(self.addr.number(), behind) == 0
    }
}

impl Prefix {
    // How many bits there are after the length.
    fn bits_behind(self) -> u8
        ensures word { result ≡ width self.base - self.len }
        ensures bound { result ≤ 128 }
    {
        self.base.width() - self.len
    }

    // The number of the greatest address.
    #[tactic(auto, using(crate::proofs::PrefixLemmas::last_fits_width), unfolding(crate::specs::Prefixes::last_number))]
    fn last_number(self) -> u128
        ensures word { result ≡ last_number self }
        ensures bound { result < 2 ^ width self.base }
    {
        self.base.number() + ones(self.bits_behind())
    }

    /// Whether an address is of the base's version and agrees with it in the first `len` bits.
    #[tactic(auto, unfolding(crate::specs::Prefixes::contains))]
    pub fn contains(self, x: Addr) -> bool
        ensures word { result ≡ contains self x }
        ensures meaning { IsTrue result ↔ Contains self x }
    {
        let behind = self.bits_behind();
        self.base.is_same_version(&x)
            && leading_bits(x.number(), behind) == leading_bits(self.base.number(), behind)
    }

    /// The least address.
    pub fn first(self) -> Addr
        ensures word { result ≡ first_address self }
        ensures inside { Contains self result }
        ensures least { (x : Address) → Contains self x → number result ≤ number x }
    {
        self.base
    }

    /// The greatest address.
    #[tactic(auto, using(crate::proofs::PrefixLemmas::last_contained, crate::proofs::PrefixLemmas::last_above), unfolding(crate::specs::Prefixes::last_address))]
    pub fn last(self) -> Addr
        ensures word { result ≡ last_address self }
        ensures inside { Contains self result }
        ensures greatest { (x : Address) → Contains self x → number x ≤ number result }
    {
        let last = self.last_number();
        self.base.with_number(last)
    }

    /// Whether an address is a host address: the prefix contains it, and it is neither the least
    /// nor, of version 4, the greatest.
    #[tactic(auto, unfolding(crate::specs::Prefixes::is_host_of))]
    pub fn is_host(self, x: Addr) -> bool
        ensures { result ≡ is_host_of self x }
    {
        self.contains(x)
            && x.number() != self.base.number()
            && !(self.base.is_v4() && x.number() == self.last_number())
    }

    /// The host addresses, or None where there are none, which is at lengths 31 and 32 of version
    /// 4 and 128 of version 6.
    #[tactic(auto, using(crate::proofs::PrefixLemmas::hosts_room, crate::proofs::PrefixLemmas::fits_128, crate::proofs::PrefixLemmas::no_hosts, crate::proofs::PrefixLemmas::hosts_within), unfolding(crate::specs::Prefixes::host_addresses))]
    pub fn hosts(self) -> Option<Span>
        ensures word { result ≡ host_addresses self }
        ensures meaning { MatchOption result ((x : Address) → is_host_of self x ≡ false)
            (λ s. (x : Address) → is_host_of self x ≡ is_within s x) }
    {
        let kept_back = u8::from(self.base.is_v4());
        if self.len > self.base.width() - (1 + kept_back) {
            return None;
        }
        let last = self.last_number() - u128::from(kept_back);
        let first = self.base.number() + 1;
        Some(self.base.span_of(first, last))
    }

    // Whether it contains another's base.
    fn has_base(self, other: Prefix) -> bool
        ensures word { result ≡ contains self other.base }
        ensures meaning { IsTrue result ↔ Contains self other.base }
        ensures bound { IsAddr other.base }
    {
        let base = other.base;
        let _number = base.number(); // for the proof: the number fits the version
        self.contains(base)
    }

    /// Whether some address is in both.
    #[tactic(auto, unfolding(crate::specs::Prefixes::overlaps))]
    pub fn overlaps(self, other: Prefix) -> bool
        ensures word { result ≡ overlaps self other }
        ensures meaning { IsTrue result ↔
            ((x : Address) × IsAddr x × Contains self x × Contains other x) }
    {
        self.has_base(other) || other.has_base(self)
    }

    /// The address that a port with this MAC takes in the prefix (RFC 4291, appendix A).
    #[tactic(auto, using(crate::proofs::PrefixLemmas::eui_room_of, crate::proofs::PrefixLemmas::eui_contained), unfolding(crate::specs::Prefixes::eui))]
    pub fn eui(self, mac: Mac) -> Addr
        requires six { is_v4 self.base ≡ false }
        requires half { self.len ≡ 64 }
        ensures word { result ≡ eui self mac }
        ensures inside { Contains self result }
    {
        let number = self.base.number() + u128::from(mac.eui_number());
        self.base.with_number(number)
    }

    /// Whether an address is the one that a port with this MAC takes in the prefix.
    #[tactic(auto, using(crate::proofs::PrefixLemmas::eui_is), unfolding(crate::specs::Prefixes::eui))]
    pub fn is_eui(self, mac: Mac, x: Addr) -> bool
        ensures { result ≡ addr_eq x (eui self mac) }
    {
        let base = self.base.number();
        let number = x.number();
        self.base.is_same_version(&x)
            && base <= number
            && number - base == u128::from(mac.eui_number())
    }
}

impl Span {
    /// Whether an address is one of these.
    #[tactic(auto, unfolding(crate::specs::Spans::is_within))]
    pub fn contains(self, x: Addr) -> bool
        ensures { result ≡ is_within self x }
    {
        self.first.is_same_version(&x)
            && self.first.number() <= x.number()
            && x.number() <= self.last.number()
    }

    /// Whether no address is in both.
    #[tactic(auto, unfolding(crate::specs::Spans::are_apart, crate::specs::Spans::is_within))]
    pub fn is_apart(self, other: Span) -> bool
        ensures word { result ≡ are_apart self other }
        ensures meaning { IsTrue result ↔
            ((x : Address) → is_within self x ≡ true → is_within other x ≡ true → ⊥) }
    {
        !self.first.is_same_version(&other.first)
            || self.last.number() < other.first.number()
            || other.last.number() < self.first.number()
    }
}
