//! A consistent store, row by row.
use crate::store_rows::{default_group, external};
use api_types::{Direction, Gateway, Row, Rows, Segment, Target};
use net_addr::{Addr4, OutOfMemory, Text};
use std::alloc::Global;
use test_rows::{
    add, bound_port, floating, held, hold, id, network, port, prefix, project, router, rule,
    service_port, subnet,
};

// 10.0.0.0/24, and 203.0.113.0/24.
const INNER: u32 = 0x0a00_0000;

const OUTER: u32 = 0xcb00_7100;

/// The printed id of the router, 40.
const ROUTER: &str = "00000001-0000-8000-8000-000000000028";

fn add_projects(alloc: Global, rows: &mut Rows) -> Result<(), OutOfMemory> {
    let mut first = project(alloc, 1, "a")?;
    first.count = 99;
    add(alloc, rows, Row::Project(first))?;
    add(alloc, rows, Row::Project(project(alloc, 2, "b")?))?;
    add(alloc, rows, Row::Group(default_group(alloc, 1, "a")?))?;
    add(alloc, rows, Row::Group(default_group(alloc, 2, "b")?))?;
    add(
        alloc,
        rows,
        Row::Rule(rule(alloc, 3, 1, Direction::Egress)?),
    )
}

// An own network with DHCP, and one that is external to all.
fn add_networks(alloc: Global, rows: &mut Rows) -> Result<(), OutOfMemory> {
    let inner = network(alloc, 10, Segment::Vxlan { number: 1 })?;
    add(alloc, rows, Row::Network(inner))?;
    let physical = Text::of(alloc, "physnet1")?;
    let outer = network(alloc, 11, Segment::Flat { physical })?;
    add(alloc, rows, Row::Network(outer))?;
    add(alloc, rows, Row::Policy(external(alloc, 20, 11)?))?;
    let mut inner = subnet(alloc, 12, 10, prefix(INNER, 24))?;
    inner.dhcp = true;
    add(alloc, rows, Row::Subnet(inner))?;
    add(
        alloc,
        rows,
        Row::Subnet(subnet(alloc, 13, 11, prefix(OUTER, 24))?),
    )
}

// The DHCP port and an instance's port.
fn add_inner_ports(alloc: Global, rows: &mut Rows) -> Result<(), OutOfMemory> {
    let dhcp = service_port(alloc, 30, 10, held(12, INNER + 2), "network:dhcp", "")?;
    add(alloc, rows, Row::Port(dhcp))?;
    let mut instance = bound_port(alloc, 31, 10, "c1", held(12, INNER + 9))?;
    instance.groups.push(id(1))?;
    add(alloc, rows, Row::Port(instance))
}

// The ports of the router.
fn add_router_ports(alloc: Global, rows: &mut Rows) -> Result<(), OutOfMemory> {
    let owner = "network:router_interface";
    let inside = service_port(alloc, 32, 10, held(12, INNER + 1), owner, ROUTER)?;
    add(alloc, rows, Row::Port(inside))?;
    let owner = "network:router_gateway";
    let mut outside = service_port(alloc, 33, 11, held(13, OUTER + 5), owner, ROUTER)?;
    outside.project = Text::new(alloc);
    add(alloc, rows, Row::Port(outside))
}

// The floating address's own port, on no host.
fn add_own_port(alloc: Global, rows: &mut Rows) -> Result<(), OutOfMemory> {
    let mut own = port(alloc, 34, 11)?;
    hold(&mut own, held(13, OUTER + 7))?;
    own.project = Text::new(alloc);
    own.owner = Text::of(alloc, "network:floatingip")?;
    own.secured = false;
    add(alloc, rows, Row::Port(own))
}

fn add_router(alloc: Global, rows: &mut Rows) -> Result<(), OutOfMemory> {
    let mut router = router(alloc, 40)?;
    router.gateway = Some(Gateway {
        network: id(11),
        port: id(33),
        snat: true,
    });
    add(alloc, rows, Row::Router(router))
}

fn add_floating(alloc: Global, rows: &mut Rows) -> Result<(), OutOfMemory> {
    let mut floating = floating(alloc, 50, 11, 34, Addr4(OUTER + 7))?;
    floating.target = Some(Target {
        port: id(31),
        fixed: Addr4(INNER + 9),
        router: id(40),
    });
    add(alloc, rows, Row::Floating(floating))
}

/// A consistent store: two projects, of which a has a network with DHCP, an instance, a router to
/// an external network, and a floating address that leads to the instance.
pub(crate) fn store(alloc: Global) -> Result<Rows, OutOfMemory> {
    let mut rows = Rows::empty(alloc)?;
    add_projects(alloc, &mut rows)?;
    add_networks(alloc, &mut rows)?;
    add_inner_ports(alloc, &mut rows)?;
    add_router_ports(alloc, &mut rows)?;
    add_own_port(alloc, &mut rows)?;
    add_router(alloc, &mut rows)?;
    add_floating(alloc, &mut rows)?;
    Ok(rows)
}
