//! Segments that no other network has.

ghost use Rattle.std.specs.Prelude.{◌≡◌};
ghost use Rattle.api_types.specs.Consistent.Segments as segments;
ghost use Rattle.api_clauses.specs.Held as held;

use crate::clause::Clause;
use api_types::{NetworkRow, Rows, Segment, Shared};

fn same_segment(a: &Segment, b: &Segment) -> bool
    ensures { result ≡ segments.same_segment a.now b.now }
{
    match (a, b) {
        (Segment::Flat { physical: a }, Segment::Flat { physical: b }) => a == b,
        (
            Segment::Vlan {
                physical: a,
                tag: s,
            },
            Segment::Vlan {
                physical: b,
                tag: t,
            },
        ) => a == b && *s == *t,
        (Segment::Vxlan { number: a }, Segment::Vxlan { number: b }) => *a == *b,
        _ => false,
    }
}

fn is_segment_once(networks: &[Shared<NetworkRow>], network: &NetworkRow) -> bool
    ensures { result ≡ held.segment_alone networks.now network.now }
{
    networks
        .iter()
        .filter(|other| same_segment(&network.segment, &other.segment))
        .count()
        <= 1
}

/// No other network has the same segment, local ones left out. The cost grows with the networks.
pub struct OwnSegment;

impl Clause for OwnSegment {
    type Row = NetworkRow;

    const RULE: u8 = 7;

    ghost RULE = { 7 };

    ghost test = { λ rows. held.segment_alone rows.networks };

    fn meets(rows: &Rows, network: &NetworkRow) -> bool {
        is_segment_once(rows.networks().rows(), network)
    }
}
