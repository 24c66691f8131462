//! Edits of the table `bridge`.

ghost use Rattle.std.specs.Prelude.{◌≡◌, ◌++◌, IfOk, OnOk, Some, false, map, nat_lt, slice_get};
ghost use Rattle.std.specs.List.{filter_map};
ghost use Rattle.api_types.specs.Ascending.{ascending};
ghost use Rattle.api_types.specs.Consistent.{IsConsistent};
ghost use Rattle.api_types.specs.Live.{segment};
ghost use Rattle.api_types.specs.declared.port.PortRow.{PortRow as ThePort};
ghost use Rattle.plane_types.specs.Hosts.{bridge_before};
ghost use Rattle.plane_types.specs.KeyedTables.{bridge_key, bridge_order, keyed_bridge};
ghost use Rattle.plane_types.specs.NumberedRows.{numbered_rows, numbered_rows_after};
ghost use Rattle.plane_types.specs.TableRows.{bridge_row as bridge_row_of, bridge_rows, dhcp_row as dhcp_row_of, end_of as end_for, mac_row, to_here as to_tap_or_router, to_there as to_tunnel};
ghost use Rattle.table_edits.specs.EditsAt.{KeysDescend, among};
ghost use Rattle.table_edits.specs.NumbersSeen.{at_after, at_before};
ghost use Rattle.table_edits.specs.Rewires.{Rewires};
ghost use Rattle.touched_rows.specs.SeesAlike.{SeesAlike};

use crate::touched::{rows_after, rows_before};
use api_types::{PortRow, Rows, Segment};
use net_addr::{Copies, OutOfMemory, Text};
use plane_rows::{is_at, is_live, segment_of};
use plane_types::{Ascending, BridgeKey, BridgeRow, BridgeTo, Edits, TagMap};
use std::alloc::Global;
use table_edits::{OwnKey, edits_by_own_key};
use touched_rows::{Rewiring, device_router};

// To a port of this host.
fn to_here(rows: &Rows, port: &PortRow) -> Option<BridgeTo>
    requires { IsConsistent rows.now }
    ensures { result ≡ to_tap_or_router rows.now port.now }
{
    if !port.is_router_port() {
        return Some(BridgeTo::Tap(port.id));
    }
    let router = device_router(rows, port)?;
    Some(BridgeTo::Router {
        router: router.id,
        port: port.id,
    })
}

// To a port of another host.
#[tactic(auto, unfolding(api_types::specs::Live::segment))]
fn to_there(alloc: Global, rows: &Rows, port: &PortRow) -> Result<Option<BridgeTo>, OutOfMemory>
    ensures { IfOk result (λ o. o ≡ to_tunnel (segment rows.now port.now.network) port.now) }
{
    match segment_of(rows, port.network) {
        Some(Segment::Vxlan { number }) => Ok(Some(BridgeTo::Tunnel {
            host: port.host.copy(alloc)?,
            number: *number,
        })),
        Some(Segment::Local | Segment::Flat { .. } | Segment::Vlan { .. }) | None => Ok(None),
    }
}

fn end_of(
    alloc: Global,
    rows: &Rows,
    host: &Text,
    port: &PortRow,
) -> Result<Option<BridgeTo>, OutOfMemory>
    requires { IsConsistent rows.now }
    ensures { IfOk result (λ o. o ≡ end_for rows.now host.now port.now) }
{
    if is_at(host, port) {
        Ok(to_here(rows, port))
    } else {
        to_there(alloc, rows, port)
    }
}

// The entry of a key that leads to a port, if it is live and can be reached.
fn bridge_row(
    alloc: Global,
    rows: &Rows,
    host: &Text,
    tags: &TagMap,
    key: BridgeKey,
    port: &PortRow,
) -> Result<Option<BridgeRow>, OutOfMemory>
    requires { IsConsistent rows.now }
    ensures { IfOk result (λ o. o ≡ bridge_row_of rows.now host.now tags.now key port.now) }
{
    if !is_live(rows, port) {
        return Ok(None);
    }
    let Some(to) = end_of(alloc, rows, host, port)? else {
        return Ok(None);
    };
    match tags.tag_of(port.network) {
        None => Ok(None),
        Some(tag) => Ok(Some(BridgeRow { tag, key, to })),
    }
}

// Adds the entries of the MACs of these ports.
fn add_macs(
    alloc: Global,
    bridge: &mut Vec<BridgeRow>,
    rows: &Rows,
    host: &Text,
    tags: &TagMap,
    ports: &[&PortRow],
) -> Result<(), OutOfMemory>
    requires { IsConsistent rows.now }
    ensures { OnOk result
        (bridge.new.items
        ≡ bridge.old.items
        ++ filter_map (mac_row rows.now host.now tags.now) (map (λ p. p.now) ports.now)) }
{
    for port in ports {
        let key = BridgeKey::Mac(port.mac);
        if let Some(row) = bridge_row(alloc, rows, host, tags, key, port)? {
            bridge.push(row)?;
        }
    }
    Ok(())
}

fn dhcp_row(
    alloc: Global,
    rows: &Rows,
    host: &Text,
    tags: &TagMap,
    port: &PortRow,
) -> Result<Option<BridgeRow>, OutOfMemory>
    requires { IsConsistent rows.now }
    ensures { IfOk result (λ o. o ≡ dhcp_row_of rows.now host.now tags.now port.now) }
{
    if !port.is_dhcp() {
        return Ok(None);
    }
    bridge_row(alloc, rows, host, tags, BridgeKey::Dhcp, port)
}

// Adds the entries of DHCP at these ports.
fn add_dhcp(
    alloc: Global,
    bridge: &mut Vec<BridgeRow>,
    rows: &Rows,
    host: &Text,
    tags: &TagMap,
    ports: &[&PortRow],
) -> Result<(), OutOfMemory>
    requires { IsConsistent rows.now }
    ensures { OnOk result
        (bridge.new.items
        ≡ bridge.old.items
        ++ filter_map (dhcp_row_of rows.now host.now tags.now) (map (λ p. p.now) ports.now)) }
{
    for port in ports {
        if let Some(row) = dhcp_row(alloc, rows, host, tags, port)? {
            bridge.push(row)?;
        }
    }
    Ok(())
}

// The entries that lead to these ports.
fn entries(
    alloc: Global,
    rows: &Rows,
    host: &Text,
    tags: &TagMap,
    ports: &[&PortRow],
) -> Result<Vec<BridgeRow>, OutOfMemory>
    requires { IsConsistent rows.now }
    ensures { IfOk result
        (λ v. v.items
        ≡ filter_map (mac_row rows.now host.now tags.now) (map (λ p. p.now) ports.now)
        ++ filter_map (dhcp_row_of rows.now host.now tags.now) (map (λ p. p.now) ports.now)) }
{
    let mut bridge = Vec::new(alloc);
    add_macs(alloc, &mut bridge, rows, host, tags, ports)?;
    add_dhcp(alloc, &mut bridge, rows, host, tags, ports)?;
    Ok(bridge)
}

// The keys of the entries that led to the touched ports.
fn keys_before(
    alloc: Global,
    change: &Rewiring,
    ports: &[usize],
) -> Result<Vec<(u16, u64)>, OutOfMemory>
    ensures { IfOk result
        (λ ks. ks.items
        ≡ map bridge_key
        (filter_map (mac_row change.now.before.now change.now.host.now change.now.old)
        (filter_map (λ k. slice_get change.now.ports.rows k) ports.now)
        ++ filter_map (dhcp_row_of change.now.before.now change.now.host.now change.now.old)
        (filter_map (λ k. slice_get change.now.ports.rows k) ports.now))) }
{
    let ports = rows_before(alloc, &change.ports, ports)?;
    let (before, host, tags) = (change.before, change.host, &change.old);
    let rows = entries(alloc, before, host, tags, ports.as_slice())?;
    let mut keys = Vec::new(alloc);
    for row in rows.as_slice() {
        keys.push(row.own_key())?;
    }
    Ok(keys)
}

// The entries that lead to the touched ports, in order.
fn entries_after(
    alloc: Global,
    change: &Rewiring,
    ports: &[usize],
) -> Result<Ascending<BridgeRow>, OutOfMemory>
    ensures { IfOk result
        (λ a. a
        ≡ ascending bridge_before
        (filter_map (mac_row change.now.after.now change.now.host.now change.now.new)
        (filter_map (at_after change.now.ports) ports.now)
        ++ filter_map (dhcp_row_of change.now.after.now change.now.host.now change.now.new)
        (filter_map (at_after change.now.ports) ports.now))) }
{
    let ports = rows_after(alloc, &change.ports, ports)?;
    let (after, host, tags) = (change.after, change.host, &change.new);
    let rows = entries(alloc, after, host, tags, ports.as_slice())?;
    Ascending::of(rows)
}

/// Edits of the bridge at the MACs of the ports that a change touches, and for DHCP. Its cost is
/// that of these ports, and for each grows with the logarithm of the table.
pub(crate) fn bridge_edits(
    alloc: Global,
    change: &Rewiring,
    ports: &[usize],
) -> Result<Edits<BridgeRow>, OutOfMemory>
    requires down { KeysDescend nat_lt ports.now }
    requires stay { (k : _) → among nat_lt k ports.now ≡ false
        → at_before change.now.ports k ≡ at_after change.now.ports k }
    requires networks { (k : _) (p : ThePort) → among nat_lt k ports.now ≡ false
        → at_before change.now.ports k ≡ Some p
        → SeesAlike change.now.before.now change.now.after.now change.now.old change.now.new p }
    ensures { IfOk result
        (λ es. Rewires bridge_order
        (keyed_bridge (numbered_rows change.now.before.now) change.now.host.now change.now.old)
        (keyed_bridge (numbered_rows_after change.now.before.now change.now.items.now)
        change.now.host.now change.now.new)
        change.now.tables.now.lists.bridge
        (bridge_rows change.now.after.now change.now.host.now change.now.new) es) }
{
    let keys = keys_before(alloc, change, ports)?;
    let given = entries_after(alloc, change, ports)?;
    edits_by_own_key(alloc, change.tables.bridge(), given.as_slice(), keys)
}
