//! MACs and addresses that nobody else holds, and that are host addresses.

ghost use Rattle.std.specs.Prelude.{◌≡◌, ◌&&◌, count_by, nat_le};
ghost use Rattle.std.specs.List.{list_all};
ghost use Rattle.net_addr.specs.Addresses.{addr_eq};
ghost use Rattle.net_addr.specs.Prefixes.{is_host_of};
ghost use Rattle.api_types.specs.Lists.{is_some_so};
ghost use Rattle.api_types.specs.Consistent.HeldOnce as held_once;
ghost use Rattle.api_types.specs.Consistent.Hosts as own_hosts;
ghost use Rattle.api_clauses.specs.Held as held;

use crate::clause::Clause;
use crate::modes::is_eui;
use api_types::{Fixed, Id, PortRow, Rows, Shared, SubnetRow};
use net_addr::{Addr, Mac};

fn has_mac(network: Id, mac: Mac, port: &PortRow) -> bool
    ensures { result ≡ held_once.has_mac network mac port.now }
{
    network == port.network && port.mac == mac
}

fn is_mac_once(ports: &[Shared<PortRow>], port: &PortRow) -> bool
    ensures { result
        ≡ nat_le (count_by (held_once.has_mac port.now.network port.now.mac) ports.now) 1 }
{
    ports
        .iter()
        .filter(|other| has_mac(port.network, port.mac, other))
        .count()
        <= 1
}

fn holds_times(network: Id, address: &Addr, port: &PortRow) -> usize
    ensures { result ≡ held_once.holds_times network address.now port.now }
{
    if network == port.network {
        port.fixed
            .iter()
            .filter(|fixed| fixed.address == *address)
            .count()
    } else {
        0
    }
}

fn is_held_once(ports: &[Shared<PortRow>], network: Id, fixed: &Fixed) -> bool
    ensures { result ≡ held.is_held_once ports.now network fixed.now }
{
    let mut times: usize = 0;
    for port in ports {
        times = times.saturating_add(holds_times(network, &fixed.address, port));
    }
    times <= 1
}

fn are_held_once(ports: &[Shared<PortRow>], port: &PortRow) -> bool
    ensures { result ≡ list_all (held.is_held_once ports.now port.now.network) port.now.fixed }
{
    port.fixed
        .iter()
        .all(|fixed| is_held_once(ports, port.network, fixed))
}

/// No other port of a network has the same MAC address or holds one of the same addresses, and none
/// holds one twice. The cost grows with the port's addresses times the ports.
pub struct OnlyHolder;

impl Clause for OnlyHolder {
    type Row = PortRow;

    const RULE: u8 = 4;

    ghost RULE = { 4 };

    ghost test = { λ rows. held.port_alone rows.ports };

    fn meets(rows: &Rows, port: &PortRow) -> bool {
        let ports = rows.ports().rows();
        is_mac_once(ports, port) && are_held_once(ports, port)
    }
}

fn is_gateway(subnet: &SubnetRow, address: &Addr) -> bool
    ensures { result ≡ is_some_so (addr_eq address.now) subnet.now.gateway }
{
    match subnet.gateway {
        Some(gateway) => *address == gateway,
        None => false,
    }
}

fn is_own_address(port: &PortRow, address: &Addr, subnet: &SubnetRow) -> bool
    ensures { result ≡ own_hosts.is_own_address port.now address.now subnet.now }
{
    !is_eui(subnet)
        || (subnet.prefix.is_eui(port.mac, *address)
            || (port.is_interface() && is_gateway(subnet, address)))
}

fn is_host_of_port(port: &PortRow, address: &Addr, subnet: &SubnetRow) -> bool
    ensures { result
        ≡ (is_host_of subnet.now.prefix address.now
        && own_hosts.is_own_address port.now address.now subnet.now) }
{
    subnet.prefix.is_host(*address) && is_own_address(port, address, subnet)
}

fn is_host_in(subnets: &[Shared<SubnetRow>], port: &PortRow, fixed: &Fixed) -> bool
    ensures { result ≡ own_hosts.is_host_in subnets.now port.now fixed.now }
{
    subnets.iter().any(|subnet| fixed.subnet == subnet.id
        && is_host_of_port(port, &fixed.address, subnet))
}

fn are_hosts(subnets: &[Shared<SubnetRow>], port: &PortRow) -> bool
    ensures { result ≡ list_all (own_hosts.is_host_in subnets.now port.now) port.now.fixed }
{
    port.fixed
        .iter()
        .all(|fixed| is_host_in(subnets, port, fixed))
}

/// Each address of a port is a host address of its subnet, and in a subnet whose ports make their
/// addresses of their MACs the port's own, or the gateway's at a router's interface. The cost grows
/// with the port's addresses times the subnets.
pub struct HostAddresses;

impl Clause for HostAddresses {
    type Row = PortRow;

    const RULE: u8 = 5;

    ghost RULE = { 5 };

    ghost test = { λ rows r. list_all (own_hosts.is_host_in rows.subnets r) r.fixed };

    fn meets(rows: &Rows, port: &PortRow) -> bool {
        are_hosts(rows.subnets().rows(), port)
    }
}
