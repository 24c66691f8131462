//! The upkeep of a network's DHCP port, which holds an address of each subnet that is leased.

ghost use Rattle.std.specs.Prelude.{◌≡◌, ◌∷◌, ◌++◌, ◌<◌, ◌^◌, [], IfOk, None, option_map, true};
ghost use Rattle.api_ml2.specs.Placement.{host_or_none};
ghost use Rattle.api_ml2.specs.Placement as placement;
ghost use Rattle.api_types.specs.Registration.{ident};
ghost use Rattle.api_types.specs.Table.{row_of};
ghost use Rattle.api_types.specs.declared.port.PortRow.{PortRow as ThePort};
ghost use Rattle.call_parts.specs.Edits.{edited, made};
ghost use Rattle.plan_subnets.specs.DhcpUpkeep as upkeep;
ghost use Rattle.plan_subnets.specs.DhcpUpkeep.{giving_back, makes_dhcp_port, port_left};
ghost use Rattle.row_laws.specs.Leased.{outside};

use crate::lease::dhcp_port_on;
use api_ml2::{bind, place_dhcp};
use api_types::{Fixed, FixedList, Id, NetworkRow, PortRow, Rows};
use call_parts::{Draft, disassociate, one_fixed};
use net_addr::{Copies, Mac, OutOfMemory, Seq, Text};
use net_settings::Settings;
use std::alloc::Global;

/// The id and the MAC address that the DHCP port gets if it is made.
#[derive(Clone, Copy)]
pub(crate) struct NextPort {
    pub ordinal: u32,
    pub count: u64,
    pub mac: Mac,
}

// The name of the host on which the network's DHCP port stands, or the empty text.
fn dhcp_host(alloc: Global, settings: &Settings, network: &NetworkRow) -> Result<Text, OutOfMemory>
    ensures { IfOk result
        (λ host. host
        ≡ host_or_none (placement.dhcp_host settings.now network.now.segment)) }
{
    match place_dhcp(settings, &network.segment) {
        Some(host) => host.copy(alloc),
        None => Ok(Text::new(alloc)),
    }
}

fn new_dhcp_port(
    alloc: Global,
    settings: &Settings,
    network: &NetworkRow,
    id: Id,
    mac: Mac,
    fixed: Fixed,
) -> Result<PortRow, OutOfMemory>
    ensures { IfOk result
        (λ p. p ≡ upkeep.new_dhcp_port settings.now network.now id mac fixed) }
{
    let host = dhcp_host(alloc, settings, network)?;
    Ok(PortRow {
        id,
        project: network.project.copy(alloc)?,
        network: network.id,
        name: Text::new(alloc),
        description: Text::new(alloc),
        up: true,
        mac,
        fixed: one_fixed(alloc, &fixed)?,
        pairs: Seq::new(alloc),
        secured: false,
        groups: Seq::new(alloc),
        device: Text::new(alloc),
        owner: Text::of(alloc, "network:dhcp")?,
        vif: bind(settings, &network.segment, &host),
        host,
        by_admin: false,
    })
}

fn with_one_more(alloc: Global, port: &PortRow, fixed: Fixed) -> Result<PortRow, OutOfMemory>
    ensures { IfOk result (λ p. p ≡ record port.now { fixed = port.now.fixed ++ fixed ∷ [] }) }
{
    let Fixed { subnet, address } = fixed;
    let mut changed = port.copy(alloc)?;
    changed.fixed.push(Fixed { subnet, address })?;
    Ok(changed)
}

// The network's DHCP port with one address more, where the port is there.
fn dhcp_port_with(
    alloc: Global,
    rows: &Rows,
    network: Id,
    fixed: Fixed,
) -> Result<Option<PortRow>, OutOfMemory>
    ensures { IfOk result
        (λ o. o
        ≡ option_map (λ (p : ThePort). record p { fixed = p.fixed ++ fixed ∷ [] })
        (upkeep.dhcp_port_on rows.now.ports network)) }
{
    match dhcp_port_on(rows.ports().rows(), network) {
        Some(port) => Ok(Some(with_one_more(alloc, port, fixed)?)),
        None => Ok(None),
    }
}

/// The draft in which the DHCP port holds one address more, where a subnet begins to be leased. The
/// port is made where there is none. Its cost grows with the ports.
pub(crate) fn begin_serving(
    alloc: Global,
    draft: Draft,
    settings: &Settings,
    network: &NetworkRow,
    begins: bool,
    next: NextPort,
    fixed: Fixed,
) -> Result<Draft, OutOfMemory>
    requires small { makes_dhcp_port draft.rows.ports network.now.id begins ≡ true
        → next.count < 2 ^ 62 }
    requires new { makes_dhcp_port draft.rows.ports network.now.id begins ≡ true
        → row_of (λ (p : ThePort). p.id) (ident next.ordinal next.count) draft.rows.ports
        ≡ None }
    ensures start { IfOk result (λ d. d.start ≡ draft.start) }
    ensures rows { IfOk result
        (λ d. d.rows
        ≡ made draft.rows
        (upkeep.begin_serving settings.now draft.rows network.now begins
        (ident next.ordinal next.count) next.mac fixed)) }
{
    if !begins {
        return Ok(draft);
    }
    let settled = draft.settle(alloc)?;
    match dhcp_port_with(alloc, settled.rows(), network.id, fixed)? {
        Some(port) => settled.put(alloc, port),
        None => {
            let id = Id::make(next.ordinal, next.count);
            settled.add(
                alloc,
                new_dhcp_port(alloc, settings, network, id, next.mac, fixed)?,
            )
        }
    }
}

fn outside_subnet(alloc: Global, subnet: Id, fixed: &[Fixed]) -> Result<FixedList, OutOfMemory>
    ensures { IfOk result (λ left. left ≡ outside subnet fixed.now) }
{
    let mut left = Seq::new(alloc);
    for one in fixed {
        if subnet != one.subnet {
            left.push(*one)?;
        }
    }
    Ok(left)
}

// The draft in which the port holds these addresses, and is gone where there are none.
fn leave_port(
    alloc: Global,
    draft: Draft,
    port: PortRow,
    left: FixedList,
) -> Result<Draft, OutOfMemory>
    ensures start { IfOk result (λ d. d.start ≡ draft.start) }
    ensures rows { IfOk result (λ d. d.rows ≡ edited draft.rows (port_left port left)) }
{
    if left.len() == 0 {
        return draft.drop_row::<PortRow>(alloc, port.id);
    }
    let mut port = port;
    port.fixed = left;
    draft.put(alloc, port)
}

// The same, where floating addresses of what is given back lose their target first.
fn keep_only(
    alloc: Global,
    draft: Draft,
    port: PortRow,
    left: FixedList,
) -> Result<Draft, OutOfMemory>
    ensures start { IfOk result (λ d. d.start ≡ draft.start) }
    ensures rows { IfOk result
        (λ d. d.rows ≡ made draft.rows (giving_back draft.rows.floatings port left)) }
{
    let draft = disassociate(alloc, draft, port.id, left.as_slice())?;
    leave_port(alloc, draft, port, left)
}

// A copy of the network's DHCP port.
fn dhcp_port_copied(alloc: Global, rows: &Rows, network: Id) -> Result<Option<PortRow>, OutOfMemory>
    ensures { IfOk result (λ o. o ≡ upkeep.dhcp_port_on rows.now.ports network) }
{
    match dhcp_port_on(rows.ports().rows(), network) {
        Some(port) => Ok(Some(port.get().copy(alloc)?)),
        None => Ok(None),
    }
}

/// The draft in which the DHCP port holds no address of the subnet, where that is leased no more.
/// Its cost grows with the ports and the floating addresses.
pub(crate) fn end_serving(
    alloc: Global,
    draft: Draft,
    network: Id,
    ends: bool,
    subnet: Id,
) -> Result<Draft, OutOfMemory>
    ensures start { IfOk result (λ d. d.start ≡ draft.start) }
    ensures rows { IfOk result
        (λ d. d.rows ≡ made draft.rows (upkeep.end_serving draft.rows network ends subnet)) }
{
    if !ends {
        return Ok(draft);
    }
    let settled = draft.settle(alloc)?;
    match dhcp_port_copied(alloc, settled.rows(), network)? {
        Some(port) => {
            let left = outside_subnet(alloc, subnet, port.fixed.as_slice())?;
            keep_only(alloc, settled.into_draft(alloc), port, left)
        }
        None => Ok(settled.into_draft(alloc)),
    }
}
