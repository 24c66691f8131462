//! The ports whose leases a change may alter.

ghost use Rattle.std.specs.Prelude.{◌≡◌, ◌||◌, ◌++◌, IfOk, OnOk, false, nat_lt, option_and_then, option_copied, slice_get};
ghost use Rattle.std.specs.HashSet.{contains};
ghost use Rattle.std.specs.List.{list_any};
ghost use Rattle.api_types.specs.Ident.{Ident};
ghost use Rattle.api_types.specs.Table.{ident_eq};
ghost use Rattle.plane_types.specs.TableRows.{lease_row};
ghost use Rattle.table_edits.specs.EditsAt.{KeysDescend, among};
ghost use Rattle.table_edits.specs.NumbersSeen.{at_after, at_before};
ghost use Rattle.touched_rows.specs.TouchedNumbers.{holds_in_any as holds_in_any_by_rows, numbers_from};
ghost use Rattle.dhcp_delta.specs.Serving.{is_dhcp_on, is_led as is_led_by_rows, is_served};

use crate::servers::Servers;
use api_types::{Id, PortRow};
use net_addr::OutOfMemory;
use std::alloc::Global;
use std::collections::HashSet;
use table_edits::{Numbers, descending};
use touched_rows::touched_subnets;

// Adds the network of a port, if it is one of DHCP.
fn add_network_of(networks: &mut HashSet<Id>, port: Option<&PortRow>) -> Result<(), OutOfMemory>
    ensures { OnOk result
        ((n : Ident)
        → contains ident_eq networks.new n
        ≡ (contains ident_eq networks.old n || is_dhcp_on n (option_copied port.entry))) }
{
    if let Some(port) = port {
        if port.is_dhcp() {
            networks.insert(port.network)?;
        }
    }
    Ok(())
}

// The networks of which a DHCP port is touched.
fn networks_of(
    alloc: Global,
    ports: &Numbers<PortRow>,
    touched: &[usize],
) -> Result<HashSet<Id>, OutOfMemory>
    ensures { IfOk result
        (λ s. (n : Ident)
        → contains ident_eq s n
        ≡ list_any
        (λ k. is_dhcp_on n (slice_get ports.now.rows k) || is_dhcp_on n (at_after ports.now k))
        touched.now) }
{
    let mut networks = HashSet::new(alloc);
    for number in touched {
        add_network_of(&mut networks, ports.row(*number))?;
        add_network_of(&mut networks, ports.row_after(*number))?;
    }
    Ok(networks)
}

// Whether a port holds an address in one of these subnets.
fn holds_in_any(port: &PortRow, subnets: &HashSet<Id>) -> bool
    ensures { result ≡ holds_in_any_by_rows (contains ident_eq subnets.now) port.now }
{
    port.fixed
        .iter()
        .any(|fixed| subnets.contains(&fixed.subnet))
}

// Whether a port is served here, on one of these networks or with an address in one of the subnets.
fn is_led(servers: &Servers, networks: &HashSet<Id>, subnets: &HashSet<Id>, port: &PortRow) -> bool
    ensures { result
        ≡ is_led_by_rows
        (is_served servers.now.change.now.before.now servers.now.change.now.after.now
        servers.now.change.now.host.now)
        (contains ident_eq networks.now) (contains ident_eq subnets.now) port.now }
{
    (networks.contains(&port.network) || holds_in_any(port, subnets))
        && servers.is_served(port.network)
}

// Adds the numbers of such ports.
fn add_led(
    numbers: &mut Vec<usize>,
    servers: &Servers,
    networks: &HashSet<Id>,
    subnets: &HashSet<Id>,
) -> Result<(), OutOfMemory>
    ensures { OnOk result
        (numbers.new.items
        ≡ numbers.old.items
        ++ numbers_from
        (is_led_by_rows
        (is_served servers.now.change.now.before.now servers.now.change.now.after.now
        servers.now.change.now.host.now)
        (contains ident_eq networks.now) (contains ident_eq subnets.now))
        0 servers.now.change.now.ports.rows) }
{
    if networks.is_empty() && subnets.is_empty() {
        return Ok(());
    }
    let ports = servers.change.ports.rows();
    for number in 0..ports.len() {
        if is_led(servers, networks, subnets, ports[number].get()) {
            numbers.push(number)?;
        }
    }
    Ok(())
}

/// The numbers of the ports whose leases may change, from the greatest to the least: the touched
/// ones, and those that are served here on a network whose DHCP port is touched, or with an address
/// in a touched subnet. Its cost grows with the touched ports and the items, and with the ports
/// if a DHCP port or a subnet is touched.
pub(crate) fn leased_ports(alloc: Global, servers: &Servers) -> Result<Vec<usize>, OutOfMemory>
    ensures down { IfOk result (λ ks. KeysDescend nat_lt ks.items) }
    ensures untouched { IfOk result
        (λ ks. (k : _) → among nat_lt k ks.items ≡ false
        → option_and_then
        (lease_row servers.now.change.now.before.now servers.now.change.now.host.now
        servers.now.change.now.old)
        (at_before servers.now.change.now.ports k)
        ≡ option_and_then
        (lease_row servers.now.change.now.after.now servers.now.change.now.host.now
        servers.now.change.now.new)
        (at_after servers.now.change.now.ports k)) }
{
    let change = servers.change;
    let _own_ids = change.ports.rows(); // for the proof: no two ports have one id
    let mut numbers = Vec::from_slice(alloc, servers.touched)?;
    let networks = networks_of(alloc, &change.ports, servers.touched)?;
    let subnets = touched_subnets(alloc, change.before, change.after, change.items)?;
    add_led(&mut numbers, servers, &networks, &subnets)?;
    descending(alloc, numbers)
}
