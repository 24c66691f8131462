//! The order of the rows of the two maps, bridge and neighbours.

ghost use Rattle.std.specs.Prelude.{◌≡◌};
ghost use Rattle.plane_types.specs.Hosts.{key_number as place_of_key};

use crate::table::{BridgeKey, BridgeRow, NeighbourRow};
use api_types::Ordered;

// Where a key stands among those of a tag.
fn key_number(key: BridgeKey) -> u64
    ensures { result ≡ place_of_key key }
{
    match key {
        BridgeKey::Dhcp => 0,
        BridgeKey::Mac(mac) => mac.0 + 1,
    }
}

impl Ordered for BridgeRow {
    ghost use Rattle.std.proofs.Common.{arith};
    ghost use Rattle.std.proofs.lemmas.Bool.Decides.{nat_tests};
    ghost use Rattle.plane_types.specs.Hosts.{bridge_before};

    ghost before = { bridge_before };

    ghost order = { record {
      one_way = λ x y h. Prim.grind (arith, nat_tests);
      chain = λ x y z h k. Prim.grind (arith, nat_tests);
    } };

    fn is_before(&self, other: &BridgeRow) -> bool {
        self.tag < other.tag
            || (self.tag == other.tag && key_number(self.key) < key_number(other.key))
    }
}

impl Ordered for NeighbourRow {
    ghost use Rattle.std.proofs.Common.{arith};
    ghost use Rattle.std.proofs.lemmas.Bool.Decides.{nat_tests};
    ghost use Rattle.plane_types.specs.Hosts.{neighbour_before};

    ghost before = { neighbour_before };

    ghost order = { record {
      one_way = λ x y h. Prim.grind (arith, nat_tests);
      chain = λ x y z h k. Prim.grind (arith, nat_tests);
    } };

    fn is_before(&self, other: &NeighbourRow) -> bool {
        self.tag < other.tag || (self.tag == other.tag && self.address < other.address)
    }
}
