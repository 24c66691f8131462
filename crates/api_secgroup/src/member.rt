//! Whether an address is a member's.

ghost use Rattle.std.specs.Prelude.{◌≡◌};
ghost use Rattle.api_types.specs.Members as members;

use api_types::{Id, Pair, PortRow, Rows};
use net_addr::Addr;

fn in_pairs(pairs: &[Pair], address: &Addr) -> bool
    ensures { result ≡ members.in_pairs pairs.now address.now }
{
    pairs.iter().any(|pair| pair.prefix.contains(*address))
}

// Whether a port makes the address a member's.
fn gives_member(port: &PortRow, group: Id, address: &Addr) -> bool
    ensures { result ≡ members.gives_member group address.now port.now }
{
    port.names_group(group) && (port.holds(address) || in_pairs(port.pairs.as_slice(), address))
}

/// Whether a port that names the group holds the address as a fixed one, or has an allowed pair
/// whose prefix contains it. It allocates nothing. Its cost grows with the ports and what they
/// name, hold and are allowed.
#[tactic(auto, unfolding(api_types::specs::Members::is_member))]
pub fn is_member(rows: &Rows, group: Id, address: &Addr) -> bool
    ensures { result ≡ members.is_member rows.now group address.now }
{
    rows.ports()
        .rows()
        .iter()
        .any(|port| gives_member(port, group, address))
}
