//! The two ends of a packet, always of one version.

ghost use Rattle.std.specs.Prelude.{◌≡◌, true};
ghost use Rattle.net_addr.specs.Addresses.{same_version};
ghost use Rattle.plane_types.specs.Ends.{Ends4, Ends6, are_four, destination, ends_of, ethertype_of, source, turned_round, with_destination, with_source};

use api_types::Ethertype;
use net_addr::{Addr, Addr4, Addr6};
use std::marker::Model;

/// The two ends of a packet, or of an ask for an address: both are of one version of IP. Contracts
/// see the version and two numbers.
#[derive(Clone, Copy, PartialEq, Eq)]
pub struct Ends {
    from: Addr,
    to: Addr,
}

impl Model for Ends {
    ghost use Rattle.std.specs.Prelude.{◌≡◌, true};
    ghost use Rattle.net_addr.specs.Addresses.{same_version};
    ghost use Rattle.plane_types.specs.Ends as ends;

    ghost Value = { ends.Ends };

    ghost view = { λ e. ends.ends_of e.from e.to };

    ghost invariant = { λ e. same_version e.from e.to ≡ true };

    ghost inverse = { λ v. record { from = ends.source v; to = ends.destination v } };
}

impl Ends {
    /// Ends of version 4 (RFC 791).
    pub fn four(from: Addr4, to: Addr4) -> Ends
        ensures { result ≡ Ends4 from to }
    {
        Ends {
            from: Addr::V4(from),
            to: Addr::V4(to),
        }
    }

    /// Ends of version 6 (RFC 8200).
    pub fn six(from: Addr6, to: Addr6) -> Ends
        ensures { result ≡ Ends6 from to }
    {
        Ends {
            from: Addr::V6(from),
            to: Addr::V6(to),
        }
    }

    /// From where.
    pub fn source(&self) -> Addr
        ensures { result ≡ source self.now }
    {
        self.from
    }

    /// To where.
    pub fn destination(&self) -> Addr
        ensures { result ≡ destination self.now }
    {
        self.to
    }

    /// Whether they are of version 4.
    pub fn are_four(&self) -> bool
        ensures { result ≡ are_four self.now }
    {
        self.from.is_v4()
    }

    /// The ethertype of their frames.
    pub fn ethertype(&self) -> Ethertype
        ensures { result ≡ ethertype_of self.now }
    {
        match self.from {
            Addr::V4(_) => Ethertype::Ipv4,
            Addr::V6(_) => Ethertype::Ipv6,
        }
    }

    /// The ends of an answer.
    pub fn turned_round(&self) -> Ends
        ensures { result ≡ turned_round self.now }
    {
        Ends {
            from: self.to,
            to: self.from,
        }
    }

    /// Ends of version 4 from another source; those of version 6 stay.
    pub fn with_source(&self, address: Addr4) -> Ends
        ensures { result ≡ with_source self.now address }
    {
        match self.to {
            Addr::V4(to) => Ends::four(address, to),
            Addr::V6(_) => *self,
        }
    }

    /// Ends of version 4 to another destination; those of version 6 stay.
    pub fn with_destination(&self, address: Addr4) -> Ends
        ensures { result ≡ with_destination self.now address }
    {
        match self.from {
            Addr::V4(from) => Ends::four(from, address),
            Addr::V6(_) => *self,
        }
    }
}
