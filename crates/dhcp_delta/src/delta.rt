//! Edits of the leases. Begin here.

ghost use Rattle.std.specs.Prelude.{◌≡◌, IfOk, Some, false, nat_lt};
ghost use Rattle.api_types.specs.declared.port.PortRow.{PortRow as ThePort};
ghost use Rattle.plane_types.specs.KeyedTables.{keyed_leases};
ghost use Rattle.plane_types.specs.NewTags.{new_tags};
ghost use Rattle.plane_types.specs.NumberedRows.{numbered_rows, numbered_rows_after};
ghost use Rattle.plane_types.specs.Realises.{Realises};
ghost use Rattle.plane_types.specs.TableRows.{lease_rows, tag_of};
ghost use Rattle.table_edits.specs.EditsAt.{KeysDescend, among};
ghost use Rattle.table_edits.specs.NumbersSeen.{at_after, at_before};
ghost use Rattle.table_edits.specs.Rewires.{LeadsOn, Rewires};
ghost use Rattle.touched_rows.specs.SeesAlike.{SeesAlike};

use crate::leased::leased_ports;
use crate::servers::Servers;
use api_types::{Change, Rows};
use net_addr::{OutOfMemory, Text};
use plane_types::{Edits, HostTables, LeaseDelta, LeaseRow, TagRow, Tags};
use std::alloc::Global;
use table_edits::edits_by_row;
use touched_rows::{Rewiring, touched_networks, touched_ports};

// The edits of the leases at the ports whose leases may change.
fn edits_by(alloc: Global, servers: &Servers) -> Result<Edits<LeaseRow>, OutOfMemory>
    ensures { IfOk result
        (λ es. Rewires nat_lt
        (keyed_leases (numbered_rows servers.now.change.now.before.now)
        servers.now.change.now.host.now servers.now.change.now.old)
        (keyed_leases
        (numbered_rows_after servers.now.change.now.before.now servers.now.change.now.items.now)
        servers.now.change.now.host.now servers.now.change.now.new)
        servers.now.change.now.tables.now.lists.leases
        (lease_rows servers.now.change.now.after.now servers.now.change.now.host.now
        servers.now.change.now.new) es) }
{
    let change = servers.change;
    let ports = leased_ports(alloc, servers)?;
    edits_by_row(
        alloc,
        servers,
        change.tables.leases(),
        &change.ports,
        ports.as_slice(),
    )
}

// The same, for the ports that a change touches.
fn lease_edits(
    alloc: Global,
    change: &Rewiring,
    touched: &[usize],
) -> Result<Edits<LeaseRow>, OutOfMemory>
    requires down { KeysDescend nat_lt touched.now }
    requires stay { (k : _) → among nat_lt k touched.now ≡ false
        → at_before change.now.ports k ≡ at_after change.now.ports k }
    requires networks { (k : _) (p : ThePort) → among nat_lt k touched.now ≡ false
        → at_before change.now.ports k ≡ Some p
        → SeesAlike change.now.before.now change.now.after.now change.now.old change.now.new p }
    ensures { IfOk result
        (λ es. Rewires nat_lt
        (keyed_leases (numbered_rows change.now.before.now) change.now.host.now change.now.old)
        (keyed_leases (numbered_rows_after change.now.before.now change.now.items.now)
        change.now.host.now change.now.new)
        change.now.tables.now.lists.leases
        (lease_rows change.now.after.now change.now.host.now change.now.new) es) }
{
    let servers = Servers::of(alloc, change, touched)?;
    edits_by(alloc, &servers)
}

// The same, for a change as the host sees it.
fn delta_of(alloc: Global, change: &Rewiring, tags: &[TagRow]) -> Result<LeaseDelta, OutOfMemory>
    requires { change.now.new ≡ tags.now }
    ensures { IfOk result
        (λ d. Rewires nat_lt
        (keyed_leases (numbered_rows change.now.before.now) change.now.host.now change.now.old)
        (keyed_leases (numbered_rows_after change.now.before.now change.now.items.now)
        change.now.host.now change.now.new)
        change.now.tables.now.lists.leases
        (lease_rows change.now.after.now change.now.host.now change.now.new) d.leases) }
{
    let networks = touched_networks(alloc, change, tags)?;
    let ports = touched_ports(alloc, &change.ports, &networks)?;
    let leases = lease_edits(alloc, change, ports.as_slice())?;
    Ok(LeaseDelta { leases })
}

/// The edits by which a change leads from the leases of a host to those after it, for the tags that
/// the host gives from then on. Its cost grows with what the change touches, for each touched port
/// with the logarithm of the tables, and with the ports if a subnet or a DHCP port is touched.
pub fn leases_delta(
    alloc: Global,
    tables: &HostTables,
    before: &Rows,
    after: &Rows,
    change: &Change,
    host: &Text,
    tags: &Tags,
) -> Result<LeaseDelta, OutOfMemory>
    requires realised { Realises before.now host.now tables.now.lists }
    requires leads_on { LeadsOn before.now change.now after.now }
    requires tags { tags.now ≡ new_tags after.now host.now tables.now.lists.tags }
    ensures { IfOk result
        (λ d. Rewires nat_lt
        (keyed_leases (numbered_rows before.now) host.now tables.now.lists.tags)
        (keyed_leases (numbered_rows_after before.now change.now) host.now tags.now)
        tables.now.lists.leases (lease_rows after.now host.now tags.now) d.leases) }
{
    let change = Rewiring::of(alloc, tables, before, after, change, host, tags)?;
    delta_of(alloc, &change, tags.as_slice())
}
