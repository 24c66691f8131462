//! The rows of leases by ports, for the DHCP ports after a change.

ghost use Rattle.std.specs.Prelude.{◌≡◌, IfOk};
ghost use Rattle.dhcp_delta.specs.Serving.{served_row};

use crate::servers::Servers;
use api_types::{Id, PortRow};
use net_addr::OutOfMemory;
use plane_rows::{is_live, lease_for};
use plane_types::LeaseRow;
use std::alloc::Global;
use table_edits::ByRow;
use touched_rows::Rewiring;

// The row by which a DHCP port of the host serves a port after a change.
fn row_by(
    alloc: Global,
    change: &Rewiring,
    port: &PortRow,
    dhcp: &PortRow,
) -> Result<Option<LeaseRow>, OutOfMemory>
    ensures { IfOk result
        (λ o. o ≡ served_row change.now.after.now change.now.new port.now dhcp.now) }
{
    let Some(lease) = lease_for(alloc, change.after, dhcp, port)? else {
        return Ok(None);
    };
    match change.new_tag(port.network) {
        None => Ok(None),
        Some(tag) => Ok(Some(LeaseRow {
            port: port.id,
            tag,
            mac: port.mac,
            lease,
        })),
    }
}

impl<'t, 'r> ByRow for Servers<'t, 'r> {
    ghost use Rattle.std.specs.Prelude.{Some};
    ghost use Rattle.plane_types.specs.TableRows.{lease_row};

    type Source = PortRow;

    type Row = LeaseRow;

    ghost came = { λ t. lease_row t.change.now.before.now t.change.now.host.now t.change.now.old };

    ghost comes = { λ t. lease_row t.change.now.after.now t.change.now.host.now t.change.now.new };

    ghost source_of = { λ t r. Some r.port };

    fn source(&self, row: &LeaseRow) -> Option<Id> {
        Some(row.port)
    }

    fn row_of(&self, alloc: Global, port: &PortRow) -> Result<Option<LeaseRow>, OutOfMemory> {
        let change = self.change;
        if !is_live(change.after, port) {
            return Ok(None);
        }
        match self.after(port.network) {
            None => Ok(None),
            Some(dhcp) => row_by(alloc, change, port, dhcp),
        }
    }
}
