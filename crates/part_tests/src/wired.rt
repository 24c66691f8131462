//! Networks, and the tags that a host gave before.
use api_types::{Row, Rows, Segment};
use net_addr::{OutOfMemory, Seq};
use plane_types::{TagRow, Tags};
use std::alloc::Global;
use test_rows::{add, id, network};

/// 10.0.0.0.
pub(crate) const INNER: u32 = 0x0a00_0000;

/// Adds a network with a number of VXLAN.
pub(crate) fn add_vxlan(
    alloc: Global,
    rows: &mut Rows,
    n: u8,
    number: u32,
) -> Result<(), OutOfMemory> {
    let row = network(alloc, n, Segment::Vxlan { number })?;
    add(alloc, rows, Row::Network(row))
}

/// Tags that a host has given: to each network its own.
pub(crate) fn tags(alloc: Global, given: &[(u8, u16)]) -> Result<Tags, OutOfMemory> {
    let mut tags = Seq::new(alloc);
    for (network, tag) in given {
        tags.push(TagRow {
            network: id(*network),
            tag: *tag,
            wire: None,
        })?;
    }
    Ok(tags)
}
