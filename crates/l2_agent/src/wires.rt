//! The wire that carries a network.

ghost use Rattle.std.specs.Prelude.{◌≡◌, IfOk};
ghost use Rattle.api_types.specs.Live.{segment};
ghost use Rattle.api_types.specs.Wires.{wire_of as wire_by_segment};

use api_types::{Id, Rows, Segment, Wire};
use net_addr::{Copies, OutOfMemory};
use plane_rows::segment_of;
use std::alloc::Global;

/// The wire that carries a network, where it is flat or vlan.
#[tactic(auto, unfolding(api_types::specs::Live::segment))]
pub(crate) fn wire_of(alloc: Global, rows: &Rows, network: Id) -> Result<Option<Wire>, OutOfMemory>
    ensures { IfOk result (λ w. w ≡ wire_by_segment (segment rows.now network)) }
{
    match segment_of(rows, network) {
        Some(Segment::Flat { physical }) => Ok(Some(Wire {
            physical: physical.copy(alloc)?,
            tag: None,
        })),
        Some(Segment::Vlan { physical, tag }) => Ok(Some(Wire {
            physical: physical.copy(alloc)?,
            tag: Some(*tag),
        })),
        Some(Segment::Local | Segment::Vxlan { .. }) | None => Ok(None),
    }
}
