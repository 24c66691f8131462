//! The table `bridge`: where each MAC, and DHCP, is reached.

ghost use Rattle.std.specs.Prelude.{◌≡◌, ◌++◌, IfOk, OnOk};
ghost use Rattle.std.specs.List.{filter_map};
ghost use Rattle.api_types.specs.Live.{segment};
ghost use Rattle.plane_types.specs.TableRows.{bridge_row as bridge_row_of, bridge_rows as bridge_rows_of, dhcp_row as dhcp_row_of, end_of as end_for, mac_row, to_here as to_tap_or_router, to_there as to_tunnel};

use api_types::{PortRow, Rows, Segment};
use net_addr::{Copies, OutOfMemory, Text};
use plane_rows::{NamedRouters, is_at, is_live, segment_of};
use plane_types::{Ascending, BridgeKey, BridgeRow, BridgeTo, TagMap, TagRow};
use std::alloc::Global;

// To a port of this host.
fn to_here(routers: &NamedRouters, port: &PortRow) -> Option<BridgeTo>
    ensures { result ≡ to_tap_or_router routers.now port.now }
{
    if !port.is_router_port() {
        return Some(BridgeTo::Tap(port.id));
    }
    let router = routers.router_of(port)?;
    Some(BridgeTo::Router {
        router: router.id,
        port: port.id,
    })
}

// To a port of another host.
#[tactic(auto, unfolding(api_types::specs::Live::segment))]
fn to_there(alloc: Global, rows: &Rows, port: &PortRow) -> Result<Option<BridgeTo>, OutOfMemory>
    ensures { IfOk result (λ o. o ≡ to_tunnel (segment rows.now port.now.network) port.now) }
{
    match segment_of(rows, port.network) {
        Some(Segment::Vxlan { number }) => Ok(Some(BridgeTo::Tunnel {
            host: port.host.copy(alloc)?,
            number: *number,
        })),
        Some(Segment::Local | Segment::Flat { .. } | Segment::Vlan { .. }) | None => Ok(None),
    }
}

fn end_of(
    alloc: Global,
    routers: &NamedRouters,
    host: &Text,
    port: &PortRow,
) -> Result<Option<BridgeTo>, OutOfMemory>
    ensures { IfOk result (λ o. o ≡ end_for routers.now host.now port.now) }
{
    if is_at(host, port) {
        Ok(to_here(routers, port))
    } else {
        to_there(alloc, routers.rows(), port)
    }
}

// The entry of a key that leads to a port, where it is live and can be reached.
fn bridge_row(
    alloc: Global,
    routers: &NamedRouters,
    host: &Text,
    tags: &TagMap,
    key: BridgeKey,
    port: &PortRow,
) -> Result<Option<BridgeRow>, OutOfMemory>
    ensures { IfOk result (λ o. o ≡ bridge_row_of routers.now host.now tags.now key port.now) }
{
    if !is_live(routers.rows(), port) {
        return Ok(None);
    }
    let Some(to) = end_of(alloc, routers, host, port)? else {
        return Ok(None);
    };
    match tags.tag_of(port.network) {
        None => Ok(None),
        Some(tag) => Ok(Some(BridgeRow { tag, key, to })),
    }
}

// Adds the entries of MACs.
fn add_macs(
    alloc: Global,
    bridge: &mut Vec<BridgeRow>,
    routers: &NamedRouters,
    host: &Text,
    tags: &TagMap,
) -> Result<(), OutOfMemory>
    ensures { OnOk result
        (bridge.new.items
        ≡ bridge.old.items ++ filter_map (mac_row routers.now host.now tags.now) routers.now.ports) }
{
    for port in routers.rows().ports().rows() {
        let key = BridgeKey::Mac(port.mac);
        if let Some(row) = bridge_row(alloc, routers, host, tags, key, port)? {
            bridge.push(row)?;
        }
    }
    Ok(())
}

fn dhcp_row(
    alloc: Global,
    routers: &NamedRouters,
    host: &Text,
    tags: &TagMap,
    port: &PortRow,
) -> Result<Option<BridgeRow>, OutOfMemory>
    ensures { IfOk result (λ o. o ≡ dhcp_row_of routers.now host.now tags.now port.now) }
{
    if !port.is_dhcp() {
        return Ok(None);
    }
    bridge_row(alloc, routers, host, tags, BridgeKey::Dhcp, port)
}

// Adds the entries of DHCP.
fn add_dhcp(
    alloc: Global,
    bridge: &mut Vec<BridgeRow>,
    routers: &NamedRouters,
    host: &Text,
    tags: &TagMap,
) -> Result<(), OutOfMemory>
    ensures { OnOk result
        (bridge.new.items
        ≡ bridge.old.items
        ++ filter_map (dhcp_row_of routers.now host.now tags.now) routers.now.ports) }
{
    for port in routers.rows().ports().rows() {
        if let Some(row) = dhcp_row(alloc, routers, host, tags, port)? {
            bridge.push(row)?;
        }
    }
    Ok(())
}

/// The entries by which frames of each tag go to ports, here and on other hosts, in ascending order
/// of tag and key. Its cost grows with the tags, the ports and the routers, and with the entries
/// and the logarithm of their number.
#[tactic(auto, unfolding(plane_types::specs::TableRows::bridge_rows))]
pub(crate) fn bridge_rows(
    alloc: Global,
    rows: &Rows,
    host: &Text,
    tags: &[TagRow],
) -> Result<Ascending<BridgeRow>, OutOfMemory>
    ensures { IfOk result (λ b. b ≡ bridge_rows_of rows.now host.now tags.now) }
{
    let routers = NamedRouters::of(alloc, rows)?;
    let tags = TagMap::of(alloc, tags)?;
    let mut bridge = Vec::new(alloc);
    add_macs(alloc, &mut bridge, &routers, host, &tags)?;
    add_dhcp(alloc, &mut bridge, &routers, host, &tags)?;
    Ascending::of(bridge)
}
