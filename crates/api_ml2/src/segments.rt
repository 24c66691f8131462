//! The segment of a new network.

ghost use Rattle.std.specs.Prelude.{◌≡◌, IfOk, IfErr, Ok, option_copied};
ghost use Rattle.api_types.specs.Consistent.Segments.{same_segment};
ghost use Rattle.api_ml2.specs.Picking.{IsRefusalOf, picked};
ghost use Rattle.api_ml2.specs.Segments.{network_with};
ghost use Rattle.api_ml2.specs.Segments as segments;
ghost use Rattle.api_ml2.specs.declared.segments.SegmentRefusal.TheVariants.{OutOfMemory as MemoryRefusal};

use crate::asked::AskedSegment;
use crate::numbers::least_number;
use api_types::{Id, NetworkRow, Refusal, Rows, Segment, Shared};
use net_addr::{Copies, OutOfMemory};
use net_settings::Settings;
use std::alloc::Global;

/// How many networks may stand.
const MOST_NETWORKS: usize = 4000;

/// Why a new network gets no segment.
#[derive(Drop)]
pub enum SegmentRefusal {
    /// This network has the segment that is asked for.
    SegmentInUse(Id),
    /// All numbers of the settings' range are taken, or 4,000 networks stand.
    SegmentsSpent,
    OutOfMemory,
}

impl From<OutOfMemory> for SegmentRefusal {
    ghost from_gives = { λ _ e. e ≡ MemoryRefusal };

    fn from(_e: OutOfMemory) -> SegmentRefusal {
        SegmentRefusal::OutOfMemory
    }
}

// Whether frames of the two would meet.
fn is_same_segment(a: &Segment, b: &Segment) -> bool
    ensures { result ≡ same_segment a.now b.now }
{
    match (a, b) {
        (Segment::Flat { physical: a }, Segment::Flat { physical: b }) => *a == *b,
        (
            Segment::Vlan {
                physical: a,
                tag: s,
            },
            Segment::Vlan {
                physical: b,
                tag: t,
            },
        ) => *a == *b && *s == *t,
        (Segment::Vxlan { number: a }, Segment::Vxlan { number: b }) => *a == *b,
        _ => false,
    }
}

// The first network with the segment.
fn holder<'n>(networks: &'n [Shared<NetworkRow>], segment: &Segment) -> Option<&'n NetworkRow>
    ensures { option_copied result ≡ network_with networks.now segment.now }
{
    for network in networks {
        if is_same_segment(segment, &network.segment) {
            return Some(network);
        }
    }
    None
}

/// The refusal where a network has the segment that is asked for, with the first such network. Its
/// cost grows with the networks.
pub fn segment_in_use(
    alloc: Global,
    networks: &[Shared<NetworkRow>],
    asked: &AskedSegment,
) -> Result<Option<Refusal>, OutOfMemory>
    ensures { IfOk result (λ refusal. refusal ≡ segments.segment_in_use networks.now asked.now) }
{
    let Some(segment) = asked else {
        return Ok(None);
    };
    let Some(network) = holder(networks, segment) else {
        return Ok(None);
    };
    Ok(Some(Refusal::SegmentInUse {
        segment: segment.copy(alloc)?,
        network: network.id,
    }))
}

/// The segment of a new network: the one that is asked for, or else the least number of the
/// settings' range that no network has. There is none where all are taken, or 4,000 networks stand.
/// Its cost and memory grow with the networks, whatever the range.
pub fn chosen_segment(
    alloc: Global,
    networks: &[Shared<NetworkRow>],
    settings: &Settings,
    asked: &AskedSegment,
) -> Result<Option<Segment>, OutOfMemory>
    ensures { IfOk result
        (λ segment. segment ≡ segments.chosen_segment settings.now networks.now asked.now) }
{
    if networks.len() >= MOST_NETWORKS {
        return Ok(None);
    }
    if let Some(segment) = asked {
        return Ok(Some(segment.copy(alloc)?));
    }
    match least_number(alloc, networks, settings)? {
        Some(number) => Ok(Some(Segment::Vxlan { number })),
        None => Ok(None),
    }
}

/// The segment of a new network, where no network has the one that is asked for. Its cost and
/// memory grow with the networks, whatever the settings' range.
pub fn pick_segment(
    alloc: Global,
    rows: &Rows,
    settings: &Settings,
    asked: &AskedSegment,
) -> Result<Segment, SegmentRefusal>
    ensures ok { IfOk result
        (λ segment. picked settings.now rows.now.networks asked.now ≡ Ok segment) }
    ensures err { IfErr result
        (IsRefusalOf (picked settings.now rows.now.networks asked.now)) }
{
    let networks = rows.networks().rows();
    if let Some(segment) = asked {
        if let Some(network) = holder(networks, segment) {
            return Err(SegmentRefusal::SegmentInUse(network.id));
        }
    }
    match chosen_segment(alloc, networks, settings, asked)? {
        Some(segment) => Ok(segment),
        None => Err(SegmentRefusal::SegmentsSpent),
    }
}
