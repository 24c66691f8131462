//! Ports of copied routers.

ghost use Rattle.std.specs.Prelude.{◌≡◌, IfOk, map};
ghost use Rattle.api_types.specs.declared.port.Fixed.{Fixed as TheFixed};
ghost use Rattle.plane_types.specs.TableRows.{prefixes_for as prefixes_by_rows};
ghost use Rattle.dvr_types.specs.Copies as copies;

use crate::networks::number_of;
use api_types::{PortRow, Rows};
use dvr_types::CopyPort;
use net_addr::{Addr, OutOfMemory, Prefixes, Seq};
use plane_rows::named_subnet;
use std::alloc::Global;

// The addresses of a port.
fn addresses_of(alloc: Global, port: &PortRow) -> Result<Seq<Addr>, OutOfMemory>
    ensures { IfOk result (λ a. a ≡ map (λ (f : TheFixed). f.address) port.now.fixed) }
{
    let mut addresses = Seq::new(alloc);
    for fixed in port.fixed.as_slice() {
        addresses.push(fixed.address)?;
    }
    Ok(addresses)
}

// The prefix of the subnet of each address of a port.
fn prefixes_for(alloc: Global, rows: &Rows, port: &PortRow) -> Result<Prefixes, OutOfMemory>
    ensures { IfOk result (λ p. p ≡ prefixes_by_rows rows.now port.now) }
{
    let mut prefixes = Seq::new(alloc);
    for fixed in port.fixed.as_slice() {
        if let Some(subnet) = named_subnet(rows, fixed.subnet) {
            prefixes.push(subnet.prefix)?;
        }
    }
    Ok(prefixes)
}

fn copy_port(alloc: Global, rows: &Rows, port: &PortRow) -> Result<CopyPort, OutOfMemory>
    ensures { IfOk result (λ p. p ≡ copies.copy_port rows.now port.now) }
{
    Ok(CopyPort {
        port: port.id,
        network: port.network,
        number: number_of(rows, port.network),
        mac: port.mac,
        addresses: addresses_of(alloc, port)?,
        prefixes: prefixes_for(alloc, rows, port)?,
        inside: port.is_interface(),
    })
}

/// A row for each of these live ports of a router. Its cost grows with their addresses.
pub(crate) fn copy_ports(
    alloc: Global,
    rows: &Rows,
    legs: &[&PortRow],
) -> Result<Seq<CopyPort>, OutOfMemory>
    ensures { IfOk result (λ p. p ≡ map (copies.copy_port rows.now) (map (λ p. p.now) legs.now)) }
{
    let mut ports = Seq::new(alloc);
    for port in legs {
        ports.push(copy_port(alloc, rows, port)?)?;
    }
    Ok(ports)
}
