//! Clause 7: segments differ, and there are at most 4,000 networks.

ghost use Rattle.std.specs.Prelude.{◌≡◌, IfOk, true};
ghost use Rattle.std.specs.List.{filter_map};
ghost use Rattle.api_types.specs.Consistent.Segments.{SegmentsDiffer};
ghost use Rattle.api_consistency.specs.Keys as keys;

use crate::known::Known;
use crate::numbers::{single, text_number};
use crate::stretch::{Stretch, are_apart};
use api_types::{NetworkRow, Segment, Shared};
use net_addr::OutOfMemory;
use std::alloc::Global;

// What a network has that no other may have, where it isn't local.
fn stretch_of(segment: &Segment) -> Option<Stretch>
    ensures { result ≡ keys.of_segment segment.now }
{
    match segment {
        Segment::Local => None,
        Segment::Flat { physical } => Some(single(0, text_number(physical))),
        Segment::Vlan { physical, tag } => {
            Some(single(2 + u128::from(*tag), text_number(physical)))
        }
        Segment::Vxlan { number } => Some(single(1, u128::from(*number))),
    }
}

fn segments_of(alloc: Global, networks: &[Shared<NetworkRow>]) -> Result<Vec<Stretch>, OutOfMemory>
    ensures { IfOk result
        (λ v. v.items ≡ filter_map (λ n. keys.of_segment n.segment) networks.now) }
{
    let mut segments = Vec::new(alloc);
    for network in networks {
        if let Some(stretch) = stretch_of(&network.segment) {
            segments.push(stretch)?;
        }
    }
    Ok(segments)
}

/// Whether no two networks have the same segment, and there are at most 4,000. Its cost grows with
/// the networks and the logarithm of their number.
pub(crate) fn are_segments_apart(alloc: Global, known: &Known) -> Result<bool, OutOfMemory>
    ensures { IfOk result (λ b. b ≡ true → SegmentsDiffer known.now.networks) }
{
    if known.networks().len() > 4000 {
        return Ok(false);
    }
    let segments = segments_of(alloc, known.networks())?;
    Ok(are_apart(segments))
}
