//! The table `neighbours`: who has each address.

ghost use Rattle.std.specs.Prelude.{◌≡◌, ◌++◌, IfOk, OnOk, flat_map, map};
ghost use Rattle.std.specs.List.{filter_map};
ghost use Rattle.api_types.specs.declared.port.Fixed.{Fixed as TheFixed};
ghost use Rattle.plane_types.specs.TableRows.{floating_neighbour, neighbour_rows as neighbour_rows_of, neighbours_of};

use api_types::{Fixed, FloatingRow, PortRow, Rows};
use net_addr::{Addr, Mac, OutOfMemory, Text};
use plane_rows::{floating_holder, is_joined, is_live};
use plane_types::{Ascending, NeighbourRow, TagMap, TagRow};
use std::alloc::Global;

// Adds an entry for each address.
fn add_addresses(
    neighbours: &mut Vec<NeighbourRow>,
    tag: u16,
    mac: Mac,
    fixed: &[Fixed],
) -> Result<(), OutOfMemory>
    ensures { OnOk result
        (neighbours.new.items
        ≡ neighbours.old.items
        ++ map (λ (f : TheFixed). record { tag = tag; address = f.address; mac = mac })
        fixed.now) }
{
    for held in fixed {
        neighbours.push(NeighbourRow {
            tag,
            address: held.address,
            mac,
        })?;
    }
    Ok(())
}

// Adds the entries of a port, where it is live and joined with the host.
fn add_port(
    neighbours: &mut Vec<NeighbourRow>,
    rows: &Rows,
    host: &Text,
    tags: &TagMap,
    port: &PortRow,
) -> Result<(), OutOfMemory>
    ensures { OnOk result
        (neighbours.new.items
        ≡ neighbours.old.items ++ neighbours_of rows.now host.now tags.now port.now) }
{
    if !(is_live(rows, port) && is_joined(rows, port, host)) {
        return Ok(());
    }
    match tags.tag_of(port.network) {
        None => Ok(()),
        Some(tag) => add_addresses(neighbours, tag, port.mac, port.fixed.as_slice()),
    }
}

fn add_ports(
    neighbours: &mut Vec<NeighbourRow>,
    rows: &Rows,
    host: &Text,
    tags: &TagMap,
) -> Result<(), OutOfMemory>
    ensures { OnOk result
        (neighbours.new.items
        ≡ neighbours.old.items
        ++ flat_map (neighbours_of rows.now host.now tags.now) rows.now.ports) }
{
    for port in rows.ports().rows() {
        add_port(neighbours, rows, host, tags, port)?;
    }
    Ok(())
}

// The entry of a floating address, where its holder is joined with the host.
fn floating_row(
    rows: &Rows,
    host: &Text,
    tags: &TagMap,
    floating: &FloatingRow,
) -> Option<NeighbourRow>
    ensures { result ≡ floating_neighbour rows.now host.now tags.now floating.now }
{
    let port = floating_holder(rows, floating)?;
    if !is_joined(rows, port, host) {
        return None;
    }
    let tag = tags.tag_of(floating.network)?;
    Some(NeighbourRow {
        tag,
        address: Addr::V4(floating.address),
        mac: port.mac,
    })
}

fn add_floatings(
    neighbours: &mut Vec<NeighbourRow>,
    rows: &Rows,
    host: &Text,
    tags: &TagMap,
) -> Result<(), OutOfMemory>
    ensures { OnOk result
        (neighbours.new.items
        ≡ neighbours.old.items
        ++ filter_map (floating_neighbour rows.now host.now tags.now) rows.now.floatings) }
{
    for floating in rows.floatings().rows() {
        // for the proof: a value of `Addr` is at hand before a row with an address is pushed
        let _address = Addr::V4(floating.address);
        if let Some(row) = floating_row(rows, host, tags, floating) {
            neighbours.push(row)?;
        }
    }
    Ok(())
}

/// The MAC for each address on the networks with a tag, whose holder is joined with the host, in
/// ascending order of tag and address. Its cost grows with the tags, the ports and the floating
/// addresses, and with the entries and the logarithm of their number.
#[tactic(auto, unfolding(plane_types::specs::TableRows::neighbour_rows))]
pub(crate) fn neighbour_rows(
    alloc: Global,
    rows: &Rows,
    host: &Text,
    tags: &[TagRow],
) -> Result<Ascending<NeighbourRow>, OutOfMemory>
    ensures { IfOk result (λ n. n ≡ neighbour_rows_of rows.now host.now tags.now) }
{
    let tags = TagMap::of(alloc, tags)?;
    let mut neighbours = Vec::new(alloc);
    add_ports(&mut neighbours, rows, host, &tags)?;
    add_floatings(&mut neighbours, rows, host, &tags)?;
    Ascending::of(neighbours)
}
