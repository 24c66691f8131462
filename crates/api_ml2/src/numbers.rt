//! The vxlan number that a new network takes.

ghost use Rattle.std.specs.Prelude.{◌≡◌, ◌+◌, ◌<◌, ◌≤◌, ◌||◌, ℕ, false, not, Some, IfOk, length, slice_get, slice_index_or};
ghost use Rattle.api_types.specs.Consistent.Segments.{is_vxlan};
ghost use Rattle.api_types.specs.Least.{least_from};
ghost use Rattle.api_ml2.specs.Marks.{AreMarked};
ghost use Rattle.api_ml2.specs.Numbers.{is_taken};
ghost use Rattle.api_ml2.specs.Segments as segments;

use api_types::{NetworkRow, Segment, Shared};
use net_addr::OutOfMemory;
use net_settings::Settings;
use std::alloc::Global;

// Marks the number of a segment, where it is among those from the first on.
fn mark(marks: &mut Vec<bool>, first: u32, segment: &Segment)
    ensures length { length marks.new.items ≡ length marks.old.items }
    ensures marked { (k : ℕ) → k < length marks.old.items
        → slice_get marks.new.items k
        ≡ Some (slice_index_or marks.old.items k false || is_vxlan (first + k) segment.now) }
{
    let Segment::Vxlan { number } = segment else {
        return;
    };
    if *number < first {
        return;
    }
    let place = (*number - first) as usize;
    if place < marks.len() {
        marks[place] = true;
    }
}

// Which of this many numbers from the first on the networks have.
fn taken_numbers(
    alloc: Global,
    networks: &[Shared<NetworkRow>],
    first: u32,
    many: usize,
) -> Result<Vec<bool>, OutOfMemory>
    ensures many { IfOk result (λ marks. length marks.items ≡ many) }
    ensures marked { IfOk result (λ marks. AreMarked networks.now first marks.items) }
{
    let mut marks = vec![in alloc; false; many]?;
    for network in networks {
        mark(&mut marks, first, &network.segment);
    }
    Ok(marks)
}

// The least number from the first on that isn't marked.
fn least_unmarked(networks: &[Shared<NetworkRow>], first: u32, marks: &[bool]) -> Option<u32>
    requires many { first + length marks.now ≤ 16777216 }
    requires marked { AreMarked networks.now first marks.now }
    ensures { result ≡ least_from (λ n. not (is_taken networks.now n)) first (length marks.now) }
{
    for i in 0..marks.len() {
        if !marks[i] {
            return Some(first + i as u32);
        }
    }
    None
}

/// The least number of the settings' range that no network has. There is none where all are taken.
/// Its cost and memory grow with the networks, whatever the range: of one number more than there
/// are networks, one is free.
pub(crate) fn least_number(
    alloc: Global,
    networks: &[Shared<NetworkRow>],
    settings: &Settings,
) -> Result<Option<u32>, OutOfMemory>
    ensures { IfOk result (λ n. n ≡ segments.least_number settings.now networks.now) }
{
    let first = settings.vxlan_first();
    let last = settings.vxlan_last();
    let many = ((last - first) as usize).min(networks.len()) + 1;
    let marks = taken_numbers(alloc, networks, first, many)?;
    Ok(least_unmarked(networks, first, marks.as_slice()))
}
