//! The tables of ports, made in order. Begin here.

ghost use Rattle.std.specs.Prelude.{◌≡◌, IfOk};
ghost use Rattle.api_types.specs.Consistent.{IsConsistent};
ghost use Rattle.plane_types.specs.TableRows.{bridge_rows as bridge_rows_of, filter_rows as filter_rows_of, inward_rows as inward_rows_of, neighbour_rows as neighbour_rows_of, set_rows as set_rows_of, tap_rows as tap_rows_of};
ghost use Rattle.plane_types.specs.Realises.{RealisesTags};
ghost use Rattle.plane_types.specs.NewTags.{AreTags, new_tags as retagged_by_rows};

use crate::bridge::bridge_rows;
use crate::filters::filter_rows;
use crate::inward::inward_rows;
use crate::neighbours::neighbour_rows;
use crate::sets::set_rows;
use crate::tags::assign_tags;
use crate::taps::tap_rows;
use api_types::Rows;
use net_addr::{OutOfMemory, Seq, Text};
use plane_types::{Ascending, BridgeRow, FilterRow, InwardRow, NeighbourRow, SetRow, Tags, TapRow};
use std::alloc::Global;

/// The tables of a host by which its ports send and receive.
#[derive(Drop)]
pub struct L2Tables {
    pub tags: Tags,
    pub taps: Seq<TapRow>,
    pub filters: Seq<FilterRow>,
    pub sets: Seq<SetRow>,
    pub bridge: Ascending<BridgeRow>,
    pub inward: Seq<InwardRow>,
    pub neighbours: Ascending<NeighbourRow>,
}

/// The tables of a host whose tags were these: each is the list that the rows and the new tags
/// give.
///
/// A network keeps its tag while a live port of it is on the host, and the others take the least
/// free ones, in order of creation. Where the old tags were different ones from 1 to 4,094 and the
/// rows are consistent, each of these networks has a tag of its own. The cost grows with the
/// networks, the ports and the groups that they name, the groups, the rules, the routers, the
/// floating addresses and the old tags, and with what is written and the logarithm of its length.
pub fn wire_ports(
    alloc: Global,
    rows: &Rows,
    host: &Text,
    old: &Tags,
) -> Result<L2Tables, OutOfMemory>
    ensures tags { IfOk result (λ t. t.tags ≡ retagged_by_rows rows.now host.now old.now) }
    ensures realised { AreTags old.now → IsConsistent rows.now
        → IfOk result (λ t. RealisesTags rows.now host.now t.tags) }
    ensures taps { IfOk result (λ t. t.taps ≡ tap_rows_of rows.now host.now t.tags) }
    ensures filters { IfOk result (λ t. t.filters ≡ filter_rows_of rows.now host.now) }
    ensures sets { IfOk result (λ t. t.sets ≡ set_rows_of rows.now t.filters) }
    ensures bridge { IfOk result (λ t. t.bridge ≡ bridge_rows_of rows.now host.now t.tags) }
    ensures inward { IfOk result (λ t. t.inward ≡ inward_rows_of rows.now t.tags) }
    ensures neighbours { IfOk result
        (λ t. t.neighbours ≡ neighbour_rows_of rows.now host.now t.tags) }
{
    let tags = assign_tags(alloc, rows, host, old.as_slice())?;
    let taps = tap_rows(alloc, rows, host, tags.as_slice())?;
    let filters = filter_rows(alloc, rows, host)?;
    let sets = set_rows(alloc, rows, filters.as_slice())?;
    let bridge = bridge_rows(alloc, rows, host, tags.as_slice())?;
    let inward = inward_rows(alloc, rows, tags.as_slice())?;
    let neighbours = neighbour_rows(alloc, rows, host, tags.as_slice())?;
    Ok(L2Tables {
        tags,
        taps,
        filters,
        sets,
        bridge,
        inward,
        neighbours,
    })
}
