//! The table of leases of a host.

ghost use Rattle.std.specs.Prelude.{◌≡◌, IfOk, Some};
ghost use Rattle.plane_types.specs.TableRows.{lease_row as lease_row_of, lease_row_by as lease_row_from, lease_rows as lease_rows_of};

use crate::served::Served;
use api_types::{PortRow, Rows};
use net_addr::{OutOfMemory, Seq, Text};
use plane_rows::{is_at, is_live, lease_for};
use plane_types::{LeaseRow, Leases, TagMap, Tags};
use std::alloc::Global;

// The row by which a DHCP port serves a port, where it is bound to this host.
fn lease_row_by(
    alloc: Global,
    rows: &Rows,
    host: &Text,
    tags: &TagMap,
    port: &PortRow,
    dhcp: &PortRow,
) -> Result<Option<LeaseRow>, OutOfMemory>
    ensures { IfOk result
        (λ o. o ≡ lease_row_from rows.now host.now tags.now port.now (Some dhcp.now)) }
{
    if !is_at(host, dhcp) {
        return Ok(None);
    }
    let Some(lease) = lease_for(alloc, rows, dhcp, port)? else {
        return Ok(None);
    };
    match tags.tag_of(port.network) {
        None => Ok(None),
        Some(tag) => Ok(Some(LeaseRow {
            port: port.id,
            tag,
            mac: port.mac,
            lease,
        })),
    }
}

// The row of a port, where it is live and this host serves its network.
fn lease_row(
    alloc: Global,
    served: &Served,
    host: &Text,
    tags: &TagMap,
    port: &PortRow,
) -> Result<Option<LeaseRow>, OutOfMemory>
    ensures { IfOk result (λ o. o ≡ lease_row_of served.now host.now tags.now port.now) }
{
    if !is_live(served.rows(), port) {
        return Ok(None);
    }
    match served.dhcp_port(port.network) {
        None => Ok(None),
        Some(dhcp) => lease_row_by(alloc, served.rows(), host, tags, port, dhcp),
    }
}

// The rows of all ports, in order of creation.
#[tactic(auto, unfolding(plane_types::specs::TableRows::lease_rows))]
fn rows_of_leases(
    alloc: Global,
    served: &Served,
    host: &Text,
    tags: &TagMap,
) -> Result<Leases, OutOfMemory>
    ensures { IfOk result (λ l. l ≡ lease_rows_of served.now host.now tags.now) }
{
    let mut leases = Seq::new(alloc);
    for port in served.rows().ports().rows() {
        if let Some(row) = lease_row(alloc, served, host, tags, port)? {
            leases.push(row)?;
        }
    }
    Ok(leases)
}

/// What a host answers to DHCP (RFC 2131): a row for each live port on a network whose live DHCP
/// port is bound to the host, of the network's tag, the port's MAC, and what is leased to it.
///
/// A port without an address in a subnet of the DHCP port has none. The cost grows with the ports
/// and the tags, and for each port that is served with its addresses times those of the DHCP port,
/// and with what its subnet lists.
pub fn wire_leases(
    alloc: Global,
    rows: &Rows,
    host: &Text,
    tags: &Tags,
) -> Result<Leases, OutOfMemory>
    ensures { IfOk result (λ l. l ≡ lease_rows_of rows.now host.now tags.now) }
{
    let served = Served::of(alloc, rows)?;
    let tags = TagMap::of(alloc, tags.as_slice())?;
    rows_of_leases(alloc, &served, host, &tags)
}
