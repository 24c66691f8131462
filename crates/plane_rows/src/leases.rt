//! What is leased to a port.

ghost use Rattle.std.specs.Prelude.{◌≡◌, ◌&&◌, IfOk, find};
ghost use Rattle.net_addr.specs.Addresses.{is_v4};
ghost use Rattle.api_types.specs.Owners.{holds_in as held_in};
ghost use Rattle.api_types.specs.declared.port.Fixed.{Fixed as TheFixed};
ghost use Rattle.api_types.specs.Leases.{lease_for as lease_of_port, lease_in as lease_by, lease_of as lease_from};

use crate::ways::named_subnet;
use api_types::{Fixed, Lease, PortRow, Rows, SubnetRow};
use net_addr::{Copies, OutOfMemory};
use std::alloc::Global;

// What a subnet gives beside the address.
fn lease_of(alloc: Global, fixed: Fixed, subnet: &SubnetRow) -> Result<Lease, OutOfMemory>
    ensures { IfOk result (λ l. l ≡ lease_from fixed subnet.now) }
{
    Ok(Lease {
        address: fixed.address,
        length: subnet.prefix.len,
        gateway: subnet.gateway,
        name_servers: subnet.dns.copy(alloc)?,
        host_routes: subnet.host_routes.copy(alloc)?,
    })
}

fn lease_in(alloc: Global, rows: &Rows, fixed: Fixed) -> Result<Option<Lease>, OutOfMemory>
    ensures { IfOk result (λ l. l ≡ lease_by rows.now fixed) }
{
    match named_subnet(rows, fixed.subnet) {
        Some(subnet) => Ok(Some(lease_of(alloc, fixed, subnet)?)),
        None => Ok(None),
    }
}

// The first address of version 4 of a port in a subnet in which the DHCP port holds one.
fn fixed_leased(dhcp: &PortRow, port: &PortRow) -> Option<Fixed>
    ensures { result
        ≡ find (λ (f : TheFixed). is_v4 f.address && held_in f.subnet dhcp.now) port.now.fixed }
{
    for fixed in port.fixed.as_slice() {
        if fixed.address.is_v4() && dhcp.holds_in(fixed.subnet) {
            return Some(*fixed);
        }
    }
    None
}

/// What a DHCP port leases to a port: the first address of version 4 of the port in a subnet in
/// which the DHCP port holds one, with what that subnet gives (RFC 2131, RFC 2132). Its cost grows
/// with the addresses of the two ports.
pub fn lease_for(
    alloc: Global,
    rows: &Rows,
    dhcp: &PortRow,
    port: &PortRow,
) -> Result<Option<Lease>, OutOfMemory>
    ensures { IfOk result (λ l. l ≡ lease_of_port rows.now dhcp.now port.now) }
{
    match fixed_leased(dhcp, port) {
        Some(fixed) => lease_in(alloc, rows, fixed),
        None => Ok(None),
    }
}
