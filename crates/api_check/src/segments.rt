//! Clause 7: segments differ, and there are at most 4,000 networks.

ghost use Rattle.std.specs.Prelude.{◌≡◌, not, position};
ghost use Rattle.api_check.specs.Broken as told;
ghost use Rattle.api_check.specs.FirstBroken as breaking;
ghost use Rattle.api_clauses.specs.Held as held;

use crate::broken::{Inconsistent, tell_at};
use api_clauses::{Clause, OwnSegment};
use api_types::{NetworkRow, Rows, Shared};

fn first_double(rows: &Rows, networks: &[Shared<NetworkRow>]) -> Option<usize>
    ensures { result ≡ position (λ r. not (held.segment_alone rows.now.networks r)) networks.now }
{
    networks
        .iter()
        .position(|network| !OwnSegment::meets(rows, network))
}

#[tactic(auto, unfolding(crate::specs::FirstBroken::too_many))]
fn too_many(networks: &[Shared<NetworkRow>]) -> Option<usize>
    ensures { result ≡ breaking.too_many networks.now }
{
    if networks.len() > 4000 {
        return Some(4000);
    }
    None
}

#[tactic(auto, unfolding(crate::specs::Broken::earlier))]
fn earlier(a: Option<usize>, b: Option<usize>) -> Option<usize>
    ensures { result ≡ told.earlier a b }
{
    match (a, b) {
        (None, b) => b,
        (Some(a), None) => Some(a),
        (Some(a), Some(b)) => { if a <= b { Some(a) } else { Some(b) } }
    }
}

/// Equal segments, and networks that are too many.
#[tactic(auto, unfolding(crate::specs::FirstBroken::segments_broken))]
pub(crate) fn broken_segment(rows: &Rows) -> Option<Inconsistent>
    ensures { result ≡ breaking.segments_broken rows.now }
{
    let networks = rows.networks().rows();
    let place = earlier(first_double(rows, networks), too_many(networks));
    tell_at(OwnSegment::RULE, networks, place)
}
