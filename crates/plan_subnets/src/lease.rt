//! What a network's DHCP port takes for a subnet that begins to be leased.

ghost use Rattle.std.specs.Prelude.{◌≡◌, IfErr, IfOk, Some, false, option_copied, true};
ghost use Rattle.api_ipam.specs.Euis.{fits_eui};
ghost use Rattle.api_ipam.specs.MacChoice as mac_choice;
ghost use Rattle.call_parts.specs.Answers.{IsRefusalIn};
ghost use Rattle.plan_subnets.specs.DhcpUpkeep as dhcp_upkeep;
ghost use Rattle.plan_subnets.specs.Plans.{lease_refusal};
ghost use Rattle.api_types.specs.Consistent.InForm as in_form;

use api_ipam::{HeldAddresses, choose_mac, eui_of, is_eui, least_free_address};
use api_types::{Id, PortRow, Refusal, Rows, Shared, SubnetRow};
use net_addr::{Addr, Mac, OutOfMemory};
use std::alloc::Global;

/// The address that the DHCP port is to hold, whether the port is to be made, and its MAC address
/// then.
#[derive(Drop)]
pub(crate) struct Lease {
    pub address: Addr,
    pub makes: bool,
    pub mac: Mac,
}

/// The network's DHCP port. Its cost grows with the ports.
pub(crate) fn dhcp_port_on(ports: &[Shared<PortRow>], network: Id) -> Option<&Shared<PortRow>>
    ensures { option_copied result ≡ dhcp_upkeep.dhcp_port_on ports.now network }
{
    ports
        .iter()
        .find(|port| network == port.network && port.is_dhcp())
}

fn makes_dhcp_port(ports: &[Shared<PortRow>], network: Id, begins: bool) -> bool
    ensures { result ≡ dhcp_upkeep.makes_dhcp_port ports.now network begins }
{
    begins && dhcp_port_on(ports, network).is_none()
}

// The MAC address that the DHCP port has or will have.
fn dhcp_mac(ports: &[Shared<PortRow>], network: Id) -> Mac
    ensures { result ≡ dhcp_upkeep.dhcp_mac ports.now network
        (dhcp_upkeep.dhcp_port_on ports.now network) }
{
    match dhcp_port_on(ports, network) {
        Some(port) => port.mac,
        None => choose_mac(ports, network).unwrap_or(Mac(0)),
    }
}

// The least address of the subnet's pools that no port of the network holds.
fn pool_address(
    alloc: Global,
    ports: &[Shared<PortRow>],
    network: Id,
    subnet: &SubnetRow,
) -> Result<Option<Addr>, OutOfMemory>
    ensures { IfOk result
        (λ x. x ≡ dhcp_upkeep.served_address ports.now network subnet.now false) }
{
    let held = HeldAddresses::on(alloc, ports, network)?;
    Ok(least_free_address(&held, subnet.pools.as_slice()))
}

// The address that the DHCP port is to hold.
fn served_address(
    alloc: Global,
    ports: &[Shared<PortRow>],
    network: Id,
    subnet: &SubnetRow,
) -> Result<Option<Addr>, OutOfMemory>
    requires { fits_eui subnet.now ≡ true }
    ensures { IfOk result
        (λ x. x ≡ dhcp_upkeep.served_address ports.now network subnet.now
        (in_form.is_eui subnet.now)) }
{
    if is_eui(subnet) {
        return Ok(Some(eui_of(subnet, dhcp_mac(ports, network))));
    }
    pool_address(alloc, ports, network, subnet)
}

fn dhcp_address(
    alloc: Global,
    ports: &[Shared<PortRow>],
    network: Id,
    begins: bool,
    subnet: &SubnetRow,
) -> Result<Option<Addr>, OutOfMemory>
    requires { fits_eui subnet.now ≡ true }
    ensures { IfOk result
        (λ x. x ≡ dhcp_upkeep.dhcp_address ports.now network begins subnet.now) }
{
    if begins {
        served_address(alloc, ports, network, subnet)
    } else {
        Ok(Some(subnet.prefix.first()))
    }
}

// The MAC address of a port that is made, where one is.
fn mac_if(makes: bool, ports: &[Shared<PortRow>], network: Id) -> Option<Mac>
    ensures { result ≡ mac_choice.mac_if makes ports.now network }
{
    if makes {
        choose_mac(ports, network)
    } else {
        Some(Mac(0))
    }
}

/// What the network's DHCP port takes for the subnet, where that begins to be leased: there has to
/// be an address, and a MAC address where the port is made. Its cost and memory grow with the ports
/// and their addresses, and not with the pools' size.
pub(crate) fn lease_for(
    alloc: Global,
    rows: &Rows,
    network: Id,
    begins: bool,
    subnet: &SubnetRow,
) -> Result<Lease, Refusal>
    requires { fits_eui subnet.now ≡ true }
    ensures address { IfOk result
        (λ l. dhcp_upkeep.dhcp_address rows.now.ports network begins subnet.now ≡ Some l.address) }
    ensures makes { IfOk result
        (λ l. l.makes ≡ dhcp_upkeep.makes_dhcp_port rows.now.ports network begins) }
    ensures mac { IfOk result
        (λ l. mac_choice.mac_if
        (dhcp_upkeep.makes_dhcp_port rows.now.ports network begins) rows.now.ports network
        ≡ Some l.mac) }
    ensures refused { IfErr result
        (IsRefusalIn (lease_refusal rows.now.ports network begins subnet.now)) }
{
    let ports = rows.ports().rows();
    let Some(address) = dhcp_address(alloc, ports, network, begins, subnet)? else {
        return Err(Refusal::PoolsSpent { network });
    };
    let makes = makes_dhcp_port(ports, network, begins);
    let Some(mac) = mac_if(makes, ports, network) else {
        return Err(Refusal::CountersSpent);
    };
    Ok(Lease {
        address,
        makes,
        mac,
    })
}
