//! Edits of the table `neighbours`.

ghost use Rattle.std.specs.Prelude.{◌≡◌, ◌++◌, IfOk, OnOk, Some, false, flat_map, map, nat_lt, option_and_then, slice_get};
ghost use Rattle.std.specs.List.{filter_map};
ghost use Rattle.api_types.specs.Ascending.{ascending};
ghost use Rattle.api_types.specs.Parts.{floating_of};
ghost use Rattle.api_types.specs.declared.kind.Kind.TheVariants.{Floating as FloatingKind};
ghost use Rattle.api_types.specs.declared.port.Fixed.{Fixed as TheFixed};
ghost use Rattle.api_types.specs.declared.port.PortRow.{PortRow as ThePort};
ghost use Rattle.plane_types.specs.Hosts.{neighbour_before};
ghost use Rattle.plane_types.specs.KeyedTables.{keyed_neighbours, neighbour_key, neighbour_order};
ghost use Rattle.plane_types.specs.NumberedRows.{numbered_rows, numbered_rows_after, row_items};
ghost use Rattle.plane_types.specs.TableRows.{floating_neighbour, neighbour_rows, neighbours_of};
ghost use Rattle.table_edits.specs.EditsAt.{KeysDescend, among};
ghost use Rattle.table_edits.specs.NumbersSeen.{at_after, at_before};
ghost use Rattle.table_edits.specs.Rewires.{Rewires};
ghost use Rattle.touched_rows.specs.SeesAlike.{SeesAlike};

use crate::touched::{rows_after, rows_before};
use api_types::{Fixed, FloatingRow, PortRow, Rows};
use net_addr::{Addr, Mac, OutOfMemory, Text};
use plane_rows::{floating_holder, is_joined, is_live};
use plane_types::{Ascending, Edits, NeighbourRow, TagMap};
use std::alloc::Global;
use table_edits::{Numbers, OwnKey, edits_by_own_key};
use touched_rows::Rewiring;

// Adds an entry for each address.
fn add_addresses(
    neighbours: &mut Vec<NeighbourRow>,
    tag: u16,
    mac: Mac,
    fixed: &[Fixed],
) -> Result<(), OutOfMemory>
    ensures { OnOk result
        (neighbours.new.items
        ≡ neighbours.old.items
        ++ map (λ (f : TheFixed). record { tag = tag; address = f.address; mac = mac })
        fixed.now) }
{
    for held in fixed {
        neighbours.push(NeighbourRow {
            tag,
            address: held.address,
            mac,
        })?;
    }
    Ok(())
}

// Adds the entries of a port, if it is live and joined with the host.
fn add_port(
    neighbours: &mut Vec<NeighbourRow>,
    rows: &Rows,
    host: &Text,
    tags: &TagMap,
    port: &PortRow,
) -> Result<(), OutOfMemory>
    ensures { OnOk result
        (neighbours.new.items
        ≡ neighbours.old.items ++ neighbours_of rows.now host.now tags.now port.now) }
{
    if !(is_live(rows, port) && is_joined(rows, port, host)) {
        return Ok(());
    }
    match tags.tag_of(port.network) {
        None => Ok(()),
        Some(tag) => add_addresses(neighbours, tag, port.mac, port.fixed.as_slice()),
    }
}

// Adds the entries of these ports.
fn add_ports(
    neighbours: &mut Vec<NeighbourRow>,
    rows: &Rows,
    host: &Text,
    tags: &TagMap,
    ports: &[&PortRow],
) -> Result<(), OutOfMemory>
    ensures { OnOk result
        (neighbours.new.items
        ≡ neighbours.old.items
        ++ flat_map (neighbours_of rows.now host.now tags.now) (map (λ p. p.now) ports.now)) }
{
    for port in ports {
        add_port(neighbours, rows, host, tags, port)?;
    }
    Ok(())
}

// The entry of a floating address, if its holder is joined with the host.
fn floating_row(
    rows: &Rows,
    host: &Text,
    tags: &TagMap,
    floating: &FloatingRow,
) -> Option<NeighbourRow>
    ensures { result ≡ floating_neighbour rows.now host.now tags.now floating.now }
{
    let port = floating_holder(rows, floating)?;
    if !is_joined(rows, port, host) {
        return None;
    }
    let tag = tags.tag_of(floating.network)?;
    Some(NeighbourRow {
        tag,
        address: Addr::V4(floating.address),
        mac: port.mac,
    })
}

// Adds the entries of these floating addresses.
fn add_floatings(
    neighbours: &mut Vec<NeighbourRow>,
    rows: &Rows,
    host: &Text,
    tags: &TagMap,
    floatings: &[&FloatingRow],
) -> Result<(), OutOfMemory>
    ensures { OnOk result
        (neighbours.new.items
        ≡ neighbours.old.items
        ++ filter_map (floating_neighbour rows.now host.now tags.now)
        (map (λ f. f.now) floatings.now)) }
{
    for floating in floatings {
        // for the proof: a value of `Addr` is at hand before a row with an address is pushed
        let _address = Addr::V4(floating.address);
        if let Some(row) = floating_row(rows, host, tags, floating) {
            neighbours.push(row)?;
        }
    }
    Ok(())
}

// The entries that these ports and floating addresses give.
fn entries(
    alloc: Global,
    rows: &Rows,
    host: &Text,
    tags: &TagMap,
    ports: &[&PortRow],
    floatings: &[&FloatingRow],
) -> Result<Vec<NeighbourRow>, OutOfMemory>
    ensures { IfOk result
        (λ v. v.items
        ≡ flat_map (neighbours_of rows.now host.now tags.now) (map (λ p. p.now) ports.now)
        ++ filter_map (floating_neighbour rows.now host.now tags.now)
        (map (λ f. f.now) floatings.now)) }
{
    let mut neighbours = Vec::new(alloc);
    add_ports(&mut neighbours, rows, host, tags, ports)?;
    add_floatings(&mut neighbours, rows, host, tags, floatings)?;
    Ok(neighbours)
}

// The keys of the entries that the touched ports and floating addresses gave.
fn keys_before(
    alloc: Global,
    change: &Rewiring,
    ports: &[usize],
    numbers: &Numbers<FloatingRow>,
    floatings: &[usize],
) -> Result<Vec<(u16, Addr)>, OutOfMemory>
    ensures { IfOk result
        (λ ks. ks.items
        ≡ map neighbour_key
        (flat_map
        (neighbours_of change.now.before.now change.now.host.now change.now.old)
        (filter_map (λ k. slice_get change.now.ports.rows k) ports.now)
        ++ filter_map
        (floating_neighbour change.now.before.now change.now.host.now change.now.old)
        (filter_map (λ k. slice_get numbers.now.rows k) floatings.now))) }
{
    let ports = rows_before(alloc, &change.ports, ports)?;
    let floatings = rows_before(alloc, numbers, floatings)?;
    let (before, host, tags) = (change.before, change.host, &change.old);
    let rows = entries(
        alloc,
        before,
        host,
        tags,
        ports.as_slice(),
        floatings.as_slice(),
    )?;
    let mut keys = Vec::new(alloc);
    for row in rows.as_slice() {
        keys.push(row.own_key())?;
    }
    Ok(keys)
}

// The entries that the touched ports and floating addresses give, in order.
fn entries_after(
    alloc: Global,
    change: &Rewiring,
    ports: &[usize],
    numbers: &Numbers<FloatingRow>,
    floatings: &[usize],
) -> Result<Ascending<NeighbourRow>, OutOfMemory>
    ensures { IfOk result
        (λ a. a
        ≡ ascending neighbour_before
        (flat_map
        (neighbours_of change.now.after.now change.now.host.now change.now.new)
        (filter_map (at_after change.now.ports) ports.now)
        ++ filter_map
        (floating_neighbour change.now.after.now change.now.host.now change.now.new)
        (filter_map (at_after numbers.now) floatings.now))) }
{
    let ports = rows_after(alloc, &change.ports, ports)?;
    let floatings = rows_after(alloc, numbers, floatings)?;
    let (after, host, tags) = (change.after, change.host, &change.new);
    let rows = entries(
        alloc,
        after,
        host,
        tags,
        ports.as_slice(),
        floatings.as_slice(),
    )?;
    Ascending::of(rows)
}

/// Edits of the neighbours at the addresses of the ports and the floating addresses that a change
/// touches. Its cost is that of their addresses, and for each grows with the logarithm of the table.
pub(crate) fn neighbour_edits(
    alloc: Global,
    change: &Rewiring,
    ports: &[usize],
    numbers: &Numbers<FloatingRow>,
    floatings: &[usize],
) -> Result<Edits<NeighbourRow>, OutOfMemory>
    requires numbers { numbers.now
        ≡ record {
          rows = change.now.before.now.floatings;
          items = row_items FloatingKind floating_of change.now.items.now;
        } }
    requires down { KeysDescend nat_lt ports.now }
    requires stay { (k : _) → among nat_lt k ports.now ≡ false
        → at_before change.now.ports k ≡ at_after change.now.ports k }
    requires networks { (k : _) (p : ThePort) → among nat_lt k ports.now ≡ false
        → at_before change.now.ports k ≡ Some p
        → SeesAlike change.now.before.now change.now.after.now change.now.old change.now.new p }
    requires floatings_down { KeysDescend nat_lt floatings.now }
    requires floatings_stay { (k : _) → among nat_lt k floatings.now ≡ false
        → option_and_then
        (floating_neighbour change.now.before.now change.now.host.now change.now.old)
        (at_before numbers.now k)
        ≡ option_and_then
        (floating_neighbour change.now.after.now change.now.host.now change.now.new)
        (at_after numbers.now k) }
    ensures { IfOk result
        (λ es. Rewires neighbour_order
        (keyed_neighbours (numbered_rows change.now.before.now) change.now.host.now
        change.now.old)
        (keyed_neighbours (numbered_rows_after change.now.before.now change.now.items.now)
        change.now.host.now change.now.new)
        change.now.tables.now.lists.neighbours
        (neighbour_rows change.now.after.now change.now.host.now change.now.new) es) }
{
    let keys = keys_before(alloc, change, ports, numbers, floatings)?;
    let given = entries_after(alloc, change, ports, numbers, floatings)?;
    edits_by_own_key(alloc, change.tables.neighbours(), given.as_slice(), keys)
}
