//! Prefixes and spans of addresses of version 4.

ghost use Rattle.std.specs.Prelude.{◌≡◌};
ghost use Rattle.old_rows.specs.Migrated.{migrated_address, migrated_prefix, migrated_span, prefix_in, span_in};

use crate::migrates::Migrates;
use net_addr::{Addr, Addr4, OutOfMemory, Prefix, Span};
use std::alloc::Global;
use std::marker::Model;

/// A prefix: the addresses that agree with its base in their first bits. The other bits of the
/// base are zero.
#[derive(Clone, Copy, Debug, PartialEq, Eq)]
pub struct Prefix4 {
    pub base: Addr4,
    /// In bits, at most 32.
    pub len: u8,
}

impl Model for Prefix4 {
    ghost use Rattle.old_rows.specs.Prefixes4 as prefixes;
    ghost use Rattle.old_rows.specs.Prefixes4.{IsPrefix};

    ghost Value = { prefixes.Prefix };

    ghost view = { λ p. record { base = p.base; len = p.len } };

    ghost invariant = { λ p. IsPrefix (record { base = p.base; len = p.len }) };

    ghost inverse = { λ v. record { base = v.base; len = v.len } };
}

impl Prefix4 {
    /// The prefix, where it is of version 4.
    pub fn of(prefix: &Prefix) -> Option<Prefix4>
        ensures { result ≡ prefix_in prefix.now }
    {
        match &prefix.base {
            Addr::V4(base) => Some(Prefix4 {
                base: *base,
                len: prefix.len,
            }),
            Addr::V6(_) => None,
        }
    }
}

/// The addresses from the first to the last, which isn't below the first.
#[derive(Clone, Copy, Debug, PartialEq, Eq)]
pub struct Span4 {
    pub first: Addr4,
    pub last: Addr4,
}

impl Model for Span4 {
    ghost use Rattle.std.specs.Prelude.{◌≤◌};
    ghost use Rattle.old_rows.specs.Prefixes4 as prefixes;

    ghost Value = { prefixes.Span };

    ghost view = { λ s. record { first = s.first; last = s.last } };

    ghost invariant = { λ s. s.first ≤ s.last };

    ghost inverse = { λ v. record { first = v.first; last = v.last } };
}

impl Span4 {
    /// The span, where it is of version 4.
    pub fn of(span: &Span) -> Option<Span4>
        ensures { result ≡ span_in span.now }
    {
        match (&span.first, &span.last) {
            (Addr::V4(first), Addr::V4(last)) => Some(Span4 {
                first: *first,
                last: *last,
            }),
            _ => None,
        }
    }
}

impl Migrates for Addr4 {
    type Now = Addr;

    ghost migrated = { migrated_address };

    fn migrate(&self, _alloc: Global) -> Result<Addr, OutOfMemory> {
        Ok(Addr::V4(*self))
    }
}

impl Migrates for Prefix4 {
    type Now = Prefix;

    ghost migrated = { migrated_prefix };

    fn migrate(&self, _alloc: Global) -> Result<Prefix, OutOfMemory> {
        Ok(Prefix {
            base: Addr::V4(self.base),
            len: self.len,
        })
    }
}

impl Migrates for Span4 {
    type Now = Span;

    ghost migrated = { migrated_span };

    fn migrate(&self, _alloc: Global) -> Result<Span, OutOfMemory> {
        Ok(Span {
            first: Addr::V4(self.first),
            last: Addr::V4(self.last),
        })
    }
}
