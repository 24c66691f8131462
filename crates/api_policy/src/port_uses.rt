//! Networks, subnets, security groups and routers that ports use.

ghost use Rattle.std.specs.Prelude.{◌≡◌, ◌&&◌, find, option_copied};
ghost use Rattle.std.specs.List.{list_any};
ghost use Rattle.net_addr.specs.Addresses.{addr_eq};
ghost use Rattle.api_types.specs.Lists.{is_some_so};
ghost use Rattle.api_types.specs.Table.{ident_eq};
ghost use Rattle.api_types.specs.declared.port.Fixed.{Fixed as TheFixed};
ghost use Rattle.api_policy.specs.Checks.{IsAnswerOf};
ghost use Rattle.api_policy.specs.Uses as uses;

use crate::told::ensure_unused;
use api_types::{
    Caller, GroupRow, Id, Kind, PortRow, Refusal, RouterRow, Rows, Shared, SubnetRow, UseRule,
};
use net_addr::Addr;

fn network_user(ports: &[Shared<PortRow>], network: Id) -> Option<&Shared<PortRow>>
    ensures { option_copied result ≡ find (uses.is_network_user network) ports.now }
{
    ports
        .iter()
        .find(|port| network == port.network && !port.is_dhcp())
}

/// Refuses a network that a port other than its DHCP port is on. Its cost grows with the ports.
pub fn network_in_use(rows: &Rows, caller: &Caller, network: Id) -> Result<(), Refusal>
    ensures { IsAnswerOf (uses.network_in_use rows.now caller.now network) result }
{
    let user = network_user(rows.ports().rows(), network);
    ensure_unused(
        rows,
        caller,
        UseRule::NetworkInUse,
        Kind::Network,
        network,
        user,
    )
}

fn subnet_user(ports: &[Shared<PortRow>], subnet: Id) -> Option<&Shared<PortRow>>
    ensures { option_copied result ≡ find (uses.is_subnet_user subnet) ports.now }
{
    ports
        .iter()
        .find(|port| !port.is_dhcp() && port.holds_in(subnet))
}

/// Refuses a subnet of which a port other than the DHCP port has an address. Its cost grows with
/// the ports and their addresses.
pub fn subnet_in_use(rows: &Rows, caller: &Caller, subnet: Id) -> Result<(), Refusal>
    ensures { IsAnswerOf (uses.subnet_in_use rows.now caller.now subnet) result }
{
    let user = subnet_user(rows.ports().rows(), subnet);
    ensure_unused(
        rows,
        caller,
        UseRule::SubnetInUse,
        Kind::Subnet,
        subnet,
        user,
    )
}

fn holds_address(port: &PortRow, subnet: Id, address: &Addr) -> bool
    ensures { result
        ≡ list_any (λ (f : TheFixed). ident_eq subnet f.subnet && addr_eq f.address address.now)
        port.now.fixed }
{
    port.fixed.iter().any(|fixed| subnet == fixed.subnet && fixed.address == *address)
}

fn holds_gateway(subnet: &SubnetRow, gateway: &Addr, port: &PortRow) -> bool
    ensures { result ≡ uses.holds_gateway subnet.now gateway.now port.now }
{
    port.is_interface() && holds_address(port, subnet.id, gateway)
}

fn gateway_holder<'r>(
    ports: &'r [Shared<PortRow>],
    subnet: &SubnetRow,
    gateway: &Addr,
) -> Option<&'r Shared<PortRow>>
    ensures { option_copied result ≡ find (uses.holds_gateway subnet.now gateway.now) ports.now }
{
    ports
        .iter()
        .find(|port| holds_gateway(subnet, gateway, port))
}

fn is_address(address: &Addr, there: &Option<Addr>) -> bool
    ensures { result ≡ is_some_so (λ x. addr_eq x address.now) there.now }
{
    match there {
        Some(there) => *there == *address,
        None => false,
    }
}

// The interface that holds the gateway of the subnet, where another one is set.
fn gateway_user<'r>(
    ports: &'r [Shared<PortRow>],
    subnet: &SubnetRow,
    gateway: &Option<Addr>,
) -> Option<&'r Shared<PortRow>>
    ensures { option_copied result
        ≡ uses.gateway_user ports.now subnet.now subnet.now.gateway gateway.now }
{
    let Some(old) = &subnet.gateway else {
        return None;
    };
    if is_address(old, gateway) {
        None
    } else {
        gateway_holder(ports, subnet, old)
    }
}

/// Refuses another gateway of a subnet, where a router's interface holds the old one. Its cost
/// grows with the ports and their addresses.
pub fn old_gateway_in_use(
    rows: &Rows,
    caller: &Caller,
    old: &SubnetRow,
    new: &SubnetRow,
) -> Result<(), Refusal>
    ensures { IsAnswerOf (uses.old_gateway_in_use rows.now caller.now old.now new.now) result }
{
    let user = gateway_user(rows.ports().rows(), old, &new.gateway);
    ensure_unused(
        rows,
        caller,
        UseRule::GatewayIpInUse,
        Kind::Subnet,
        old.id,
        user,
    )
}

/// Refuses a default group, which always is in use.
pub fn default_in_use(group: &GroupRow) -> Result<(), Refusal>
    ensures { IsAnswerOf (uses.default_in_use group.now) result }
{
    if !group.is_default {
        return Ok(());
    }
    Err(Refusal::InUse {
        rule: UseRule::SecurityGroupCannotRemoveDefault,
        kind: Kind::Group,
        id: group.id,
        by: None,
    })
}

fn group_user(ports: &[Shared<PortRow>], group: Id) -> Option<&Shared<PortRow>>
    ensures { option_copied result ≡ find (uses.is_group_user group) ports.now }
{
    ports.iter().find(|port| port.names_group(group))
}

/// Refuses a group that a port names. Its cost grows with the ports and their groups.
pub fn group_in_use(rows: &Rows, caller: &Caller, group: Id) -> Result<(), Refusal>
    ensures { IsAnswerOf (uses.group_in_use rows.now caller.now group) result }
{
    let user = group_user(rows.ports().rows(), group);
    ensure_unused(
        rows,
        caller,
        UseRule::SecurityGroupInUse,
        Kind::Group,
        group,
        user,
    )
}

fn interface_on<'r>(ports: &'r [Shared<PortRow>], router: &RouterRow) -> Option<&'r Shared<PortRow>>
    ensures { option_copied result ≡ find (uses.is_interface_of router.now) ports.now }
{
    ports
        .iter()
        .find(|port| port.is_interface() && port.is_of(router))
}

/// Refuses a router that has an interface. Its cost grows with the ports.
pub fn router_in_use(rows: &Rows, caller: &Caller, router: &RouterRow) -> Result<(), Refusal>
    ensures { IsAnswerOf (uses.router_in_use rows.now caller.now router.now) result }
{
    let user = interface_on(rows.ports().rows(), router);
    ensure_unused(
        rows,
        caller,
        UseRule::RouterInUse,
        Kind::Router,
        router.id,
        user,
    )
}
