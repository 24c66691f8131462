//! The ports of a router, as its table has them.

ghost use Rattle.std.specs.Prelude.{◌≡◌, IfOk, map};
ghost use Rattle.std.specs.List.{filter_map};
ghost use Rattle.api_types.specs.declared.port.Fixed.{Fixed as TheFixed};
ghost use Rattle.api_types.specs.RouterRows.{legs_of};
ghost use Rattle.plane_types.specs.TableRows.{prefixes_for as prefixes_by_rows, router_port as router_port_of, tagged_by};

use api_types::{PortRow, RouterRow, Rows};
use net_addr::{Addr, OutOfMemory, Prefixes, Seq};
use plane_rows::{Legs, named_subnet};
use plane_types::{RouterPort, TagMap};
use std::alloc::Global;

// The addresses of a port.
fn addresses_of(alloc: Global, port: &PortRow) -> Result<Seq<Addr>, OutOfMemory>
    ensures { IfOk result (λ a. a ≡ map (λ (f : TheFixed). f.address) port.now.fixed) }
{
    let mut addresses = Seq::new(alloc);
    for fixed in port.fixed.as_slice() {
        addresses.push(fixed.address)?;
    }
    Ok(addresses)
}

// The prefix of the subnet of each address of a port.
fn prefixes_for(alloc: Global, rows: &Rows, port: &PortRow) -> Result<Prefixes, OutOfMemory>
    ensures { IfOk result (λ p. p ≡ prefixes_by_rows rows.now port.now) }
{
    let mut prefixes = Seq::new(alloc);
    for fixed in port.fixed.as_slice() {
        if let Some(subnet) = named_subnet(rows, fixed.subnet) {
            prefixes.push(subnet.prefix)?;
        }
    }
    Ok(prefixes)
}

fn router_port(
    alloc: Global,
    rows: &Rows,
    port: &PortRow,
    tag: u16,
) -> Result<RouterPort, OutOfMemory>
    ensures { IfOk result (λ p. p ≡ router_port_of rows.now port.now tag) }
{
    Ok(RouterPort {
        port: port.id,
        tag,
        mac: port.mac,
        addresses: addresses_of(alloc, port)?,
        prefixes: prefixes_for(alloc, rows, port)?,
        inside: port.is_interface(),
    })
}

// The row of a port, if the host has a tag for its network.
fn row_of_port(
    alloc: Global,
    rows: &Rows,
    tags: &TagMap,
    port: &PortRow,
) -> Result<Option<RouterPort>, OutOfMemory>
    ensures { IfOk result (λ o. o ≡ tagged_by rows.now tags.now port.now) }
{
    match tags.tag_of(port.network) {
        Some(tag) => Ok(Some(router_port(alloc, rows, port, tag)?)),
        None => Ok(None),
    }
}

// A row for each of these ports whose network has a tag.
fn rows_of_ports(
    alloc: Global,
    rows: &Rows,
    tags: &TagMap,
    legs: &[&PortRow],
) -> Result<Seq<RouterPort>, OutOfMemory>
    ensures { IfOk result
        (λ p. p ≡ filter_map (tagged_by rows.now tags.now) (map (λ p. p.now) legs.now)) }
{
    let mut ports = Seq::new(alloc);
    for port in legs {
        if let Some(row) = row_of_port(alloc, rows, tags, port)? {
            ports.push(row)?;
        }
    }
    Ok(ports)
}

/// A row for each live port of a router on a network that has a tag. Its cost grows with the
/// router's ports and their addresses.
pub(crate) fn router_ports(
    alloc: Global,
    legs: &Legs,
    tags: &TagMap,
    router: &RouterRow,
) -> Result<Seq<RouterPort>, OutOfMemory>
    ensures { IfOk result
        (λ p. p ≡ filter_map (tagged_by legs.now tags.now) (legs_of legs.now router.now)) }
{
    let name = router.id.print(alloc)?;
    match legs.ports_of(name.as_str()) {
        Some(ports) => rows_of_ports(alloc, legs.rows(), tags, ports.as_slice()),
        None => Ok(Seq::new(alloc)),
    }
}
