//! Allowed pairs of a tap or a port: a MAC with a prefix.

ghost use Rattle.std.specs.Prelude.{◌≡◌, ◌&&◌, ◌==◌};
ghost use Rattle.std.specs.List.{list_any};
ghost use Rattle.net_addr.specs.Prefixes.{contains};
ghost use Rattle.api_types.specs.declared.port.Pair.{Pair as ThePair};
ghost use Rattle.plane_types.specs.Guard.{has_pair_mac as pair_has_mac};

use api_types::Pair;
use net_addr::{Addr, Mac};

/// Whether a pair has the MAC. Its cost grows with the pairs.
pub fn has_pair_mac(pairs: &[Pair], mac: Mac) -> bool
    ensures { result ≡ pair_has_mac pairs.now mac }
{
    pairs.iter().any(|pair| pair.mac == mac)
}

/// Whether a pair has the MAC, and a prefix with the address. Its cost grows with the pairs.
pub fn is_allowed(pairs: &[Pair], mac: Mac, from: Addr) -> bool
    ensures { result
        ≡ list_any (λ (x : ThePair). (x.mac == mac) && contains x.prefix from) pairs.now }
{
    pairs
        .iter()
        .any(|pair| pair.mac == mac && pair.prefix.contains(from))
}
