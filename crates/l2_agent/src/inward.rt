//! The table `inward`: the tag for each tunnel number and wire.

ghost use Rattle.std.specs.Prelude.{◌≡◌, IfOk};
ghost use Rattle.api_types.specs.Live.{segment};
ghost use Rattle.plane_types.specs.TableRows.{carrier_of as carrier_by_segment, inward_row as inward_row_of, inward_rows as inward_rows_of};

use crate::wires::wire_of;
use api_types::{Id, Rows, Segment};
use net_addr::{OutOfMemory, Seq};
use plane_rows::segment_of;
use plane_types::{Carrier, InwardRow, TagRow};
use std::alloc::Global;

// By what frames of a network come to a host, unless it is local.
#[tactic(auto, unfolding(api_types::specs::Live::segment))]
fn carrier_of(alloc: Global, rows: &Rows, network: Id) -> Result<Option<Carrier>, OutOfMemory>
    ensures { IfOk result (λ c. c ≡ carrier_by_segment (segment rows.now network)) }
{
    if let Some(Segment::Vxlan { number }) = segment_of(rows, network) {
        return Ok(Some(Carrier::Tunnel(*number)));
    }
    match wire_of(alloc, rows, network)? {
        None => Ok(None),
        Some(wire) => Ok(Some(Carrier::Wire(wire))),
    }
}

fn inward_row(alloc: Global, rows: &Rows, row: &TagRow) -> Result<Option<InwardRow>, OutOfMemory>
    ensures { IfOk result (λ o. o ≡ inward_row_of rows.now row.now) }
{
    match carrier_of(alloc, rows, row.network)? {
        None => Ok(None),
        Some(carrier) => Ok(Some(InwardRow {
            carrier,
            tag: row.tag,
        })),
    }
}

/// The tag for what comes by the tunnel or the wire of each tagged network. Its cost grows with the
/// tags.
#[tactic(auto, unfolding(plane_types::specs::TableRows::inward_rows))]
pub(crate) fn inward_rows(
    alloc: Global,
    rows: &Rows,
    tags: &[TagRow],
) -> Result<Seq<InwardRow>, OutOfMemory>
    ensures { IfOk result (λ i. i ≡ inward_rows_of rows.now tags.now) }
{
    let mut inward = Seq::new(alloc);
    for row in tags {
        if let Some(row) = inward_row(alloc, rows, row)? {
            inward.push(row)?;
        }
    }
    Ok(inward)
}
