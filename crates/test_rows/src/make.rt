//! Rows of each kind with plain values, for tests.

ghost use Rattle.std.specs.Prelude.{◌≡◌, ◌≤◌};
ghost use Rattle.net_addr.specs.declared.address.Addr.TheVariants.{V4, V6};

use api_types::{
    Action, Direction, Ethertype, Fixed, FloatingRow, GroupRow, Id, NetworkRow, PolicyRow, PortRow,
    ProjectRow, RouterRow, RuleRow, Segment, SubnetRow, Vif,
};
use net_addr::{Addr, Addr4, Addr6, Cidr, Mac, OutOfMemory, Prefix, Seq, Text};
use std::alloc::Global;

/// The n-th id that was drawn for the first project.
pub fn id(n: u8) -> Id {
    Id::make(1, u64::from(n))
}

/// 02:00:00:00:00 and the number.
pub fn mac(n: u8) -> Mac {
    Mac(0x0200_0000_0000 + u64::from(n))
}

/// An address of version 4.
pub fn four(address: u32) -> Addr
    ensures { result ≡ V4 address }
{
    Addr::V4(Addr4(address))
}

/// An address of version 6.
pub fn six(address: u128) -> Addr
    ensures { result ≡ V6 address }
{
    Addr::V6(Addr6(address))
}

/// A prefix of version 4, whose base has the bits after the length cleared.
pub fn prefix(base: u32, len: u8) -> Prefix
    requires { len ≤ 32 }
{
    let addr = four(base);
    Cidr { addr, len }.prefix()
}

/// A prefix of version 6, whose base has the bits after the length cleared.
pub fn prefix_six(base: u128, len: u8) -> Prefix
    requires { len ≤ 128 }
{
    let addr = six(base);
    Cidr { addr, len }.prefix()
}

/// An address of version 4 in a subnet.
pub fn held(subnet: u8, address: u32) -> Fixed {
    Fixed {
        subnet: id(subnet),
        address: four(address),
    }
}

/// An address of version 6 in a subnet.
pub fn held_six(subnet: u8, address: u128) -> Fixed {
    Fixed {
        subnet: id(subnet),
        address: six(address),
    }
}

/// A project that drew 99 ids.
pub fn project(alloc: Global, ordinal: u32, name: &str) -> Result<ProjectRow, OutOfMemory> {
    Ok(ProjectRow {
        name: Text::of(alloc, name)?,
        ordinal,
        count: 99,
    })
}

/// A security group of the project a.
pub fn group(alloc: Global, n: u8, name: &str) -> Result<GroupRow, OutOfMemory> {
    Ok(GroupRow {
        id: id(n),
        project: Text::of(alloc, "a")?,
        name: Text::of(alloc, name)?,
        description: Text::new(alloc),
        is_default: false,
    })
}

/// A rule for IPv4 of a group of the project a, that lets everything pass in its direction.
pub fn rule(alloc: Global, n: u8, group: u8, direction: Direction) -> Result<RuleRow, OutOfMemory> {
    Ok(RuleRow {
        id: id(n),
        project: Text::of(alloc, "a")?,
        group: id(group),
        description: Text::new(alloc),
        direction,
        ethertype: Ethertype::Ipv4,
        protocol: None,
        low: None,
        high: None,
        remote_prefix: None,
        remote_group: None,
    })
}

/// A network of the project a.
pub fn network(alloc: Global, n: u8, segment: Segment) -> Result<NetworkRow, OutOfMemory> {
    Ok(NetworkRow {
        id: id(n),
        project: Text::of(alloc, "a")?,
        name: Text::new(alloc),
        description: Text::new(alloc),
        up: true,
        segment,
    })
}

/// A subnet of the project a without gateway, pools and DHCP.
pub fn subnet(alloc: Global, n: u8, network: u8, prefix: Prefix) -> Result<SubnetRow, OutOfMemory> {
    Ok(SubnetRow {
        id: id(n),
        project: Text::of(alloc, "a")?,
        network: id(network),
        name: Text::new(alloc),
        description: Text::new(alloc),
        prefix,
        gateway: None,
        pools: Seq::new(alloc),
        dhcp: false,
        address_mode: None,
        ra_mode: None,
        dns: Seq::new(alloc),
        host_routes: Seq::new(alloc),
    })
}

/// An unbound port of the project a, with port security and without addresses.
pub fn port(alloc: Global, n: u8, network: u8) -> Result<PortRow, OutOfMemory> {
    Ok(PortRow {
        id: id(n),
        project: Text::of(alloc, "a")?,
        network: id(network),
        name: Text::new(alloc),
        description: Text::new(alloc),
        up: true,
        mac: mac(n),
        fixed: Seq::new(alloc),
        pairs: Seq::new(alloc),
        secured: true,
        groups: Seq::new(alloc),
        device: Text::new(alloc),
        owner: Text::new(alloc),
        host: Text::new(alloc),
        vif: Vif::Unbound,
        by_admin: false,
    })
}

/// Gives a port one address more.
pub fn hold(port: &mut PortRow, held: Fixed) -> Result<(), OutOfMemory> {
    let _address = held.address;
    port.fixed.push(held)
}

/// A port that Open vSwitch carries on a host, with an address.
pub fn bound_port(
    alloc: Global,
    n: u8,
    network: u8,
    host: &str,
    held: Fixed,
) -> Result<PortRow, OutOfMemory> {
    let mut port = port(alloc, n, network)?;
    hold(&mut port, held)?;
    port.host = Text::of(alloc, host)?;
    port.vif = Vif::Ovs;
    Ok(port)
}

/// A port on the host c1 for a service with this owner and device, without port security.
pub fn service_port(
    alloc: Global,
    n: u8,
    network: u8,
    held: Fixed,
    owner: &str,
    device: &str,
) -> Result<PortRow, OutOfMemory> {
    let mut port = bound_port(alloc, n, network, "c1", held)?;
    port.owner = Text::of(alloc, owner)?;
    port.device = Text::of(alloc, device)?;
    port.secured = false;
    Ok(port)
}

/// A router of the project a on the host c1, without gateway and routes.
pub fn router(alloc: Global, n: u8) -> Result<RouterRow, OutOfMemory> {
    Ok(RouterRow {
        id: id(n),
        project: Text::of(alloc, "a")?,
        name: Text::new(alloc),
        description: Text::new(alloc),
        up: true,
        host: Some(Text::of(alloc, "c1")?),
        gateway: None,
        routes: Seq::new(alloc),
    })
}

/// A floating address of the project a that leads nowhere.
pub fn floating(
    alloc: Global,
    n: u8,
    network: u8,
    own_port: u8,
    address: Addr4,
) -> Result<FloatingRow, OutOfMemory> {
    Ok(FloatingRow {
        id: id(n),
        project: Text::of(alloc, "a")?,
        description: Text::new(alloc),
        network: id(network),
        own_port: id(own_port),
        address,
        target: None,
    })
}

/// A policy of the project a on a network.
pub fn policy(
    alloc: Global,
    n: u8,
    network: u8,
    action: Action,
    target: &str,
) -> Result<PolicyRow, OutOfMemory> {
    Ok(PolicyRow {
        id: id(n),
        project: Text::of(alloc, "a")?,
        object: id(network),
        action,
        target: Text::of(alloc, target)?,
    })
}
