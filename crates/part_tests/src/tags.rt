//! Tags that a host gave before: the last one, which more networks would take than there may be,
//! and none for a network with a live port.
use crate::wired::{INNER, add_vxlan, tags};
use api_types::{Row, Rows};
use dhcp_agent::wire_leases;
use l2_agent::wire_ports;
use l3_agent::{L3Tables, wire_routers};
use net_addr::{OutOfMemory, Text};
use plane_types::{TagRow, Tags};
use std::alloc::Global;
use std::test::Fail;
use test_rows::{add, bound_port, held, id, prefix, router, service_port, subnet};

// Two networks with a port each on c1.
fn two_networks(alloc: Global) -> Result<Rows, OutOfMemory> {
    let mut rows = Rows::empty(alloc)?;
    for (n, port) in [(10, 20), (13, 23)] {
        add_vxlan(alloc, &mut rows, n, u32::from(n))?;
        let address = held(90, INNER + u32::from(n));
        let mut port = bound_port(alloc, port, n, "c1", address)?;
        port.secured = false;
        add(alloc, &mut rows, Row::Port(port))?;
    }
    Ok(rows)
}

// The tags that c1 gives networks, whose tags were these.
fn tags_at(alloc: Global, rows: &Rows, given: &[(u8, u16)]) -> Result<Tags, OutOfMemory> {
    let host = Text::of(alloc, "c1")?;
    let given = tags(alloc, given)?;
    Ok(wire_ports(alloc, rows, &host, &given)?.tags)
}

fn is_tag(row: &TagRow, network: u8, tag: u16) -> bool {
    row.network == id(network) && row.tag == tag
}

// Whether the first network has the first tag, and the other the last one.
fn are_first_and_last(tags: &Tags) -> bool {
    match tags.as_slice() {
        [first, last] => is_tag(first, 10, 1) && is_tag(last, 13, 4094),
        _ => false,
    }
}

// A network keeps the last tag, and a new one takes the first.
#[test]
fn the_last_tag(rt: HostRuntime) -> Result<(), Fail> {
    let alloc = rt.alloc();
    let rows = two_networks(alloc)?;
    let tags = tags_at(alloc, &rows, &[(13, 4094)])?;
    assert!(rt; are_first_and_last(&tags));
    Ok(())
}

// A network with a subnet, its DHCP port and a client on c1.
fn leased(alloc: Global) -> Result<Rows, OutOfMemory> {
    let mut rows = Rows::empty(alloc)?;
    add_vxlan(alloc, &mut rows, 10, 1)?;
    let inner = subnet(alloc, 90, 10, prefix(INNER, 24))?;
    add(alloc, &mut rows, Row::Subnet(inner))?;
    let server = service_port(alloc, 2, 10, held(90, INNER + 2), "network:dhcp", "")?;
    add(alloc, &mut rows, Row::Port(server))?;
    let client = bound_port(alloc, 7, 10, "c1", held(90, INNER + 7))?;
    add(alloc, &mut rows, Row::Port(client))?;
    Ok(rows)
}

fn count_leases(alloc: Global, rows: &Rows, given: &[(u8, u16)]) -> Result<usize, OutOfMemory> {
    let host = Text::of(alloc, "c1")?;
    let given = tags(alloc, given)?;
    Ok(wire_leases(alloc, rows, &host, &given)?.len())
}

// A network without a tag has no leases, though its DHCP port is there.
#[test]
fn untagged_leases(rt: HostRuntime) -> Result<(), Fail> {
    let alloc = rt.alloc();
    let rows = leased(alloc)?;
    assert_eq!(rt; count_leases(alloc, &rows, &[(11, 2)])?, 0);
    assert_eq!(rt; count_leases(alloc, &rows, &[(10, 1)])?, 2);
    Ok(())
}

// A network with a subnet, and a router on c1 with an interface there.
fn routed(alloc: Global) -> Result<Rows, OutOfMemory> {
    let mut rows = Rows::empty(alloc)?;
    add_vxlan(alloc, &mut rows, 10, 1)?;
    let inner = subnet(alloc, 90, 10, prefix(INNER, 24))?;
    add(alloc, &mut rows, Row::Subnet(inner))?;
    add(alloc, &mut rows, Row::Router(router(alloc, 30)?))?;
    let address = held(90, INNER + 1);
    let device = "00000001-0000-8000-8000-00000000001e";
    let inside = service_port(alloc, 31, 10, address, "network:router_interface", device)?;
    add(alloc, &mut rows, Row::Port(inside))?;
    Ok(rows)
}

// How many ports and routes the one router has.
fn count_router(tables: &L3Tables) -> Option<(usize, usize)> {
    match tables.routers.as_slice() {
        [row] => Some((row.ports.len(), tables.routes.len())),
        _ => None,
    }
}

fn router_at(
    alloc: Global,
    rows: &Rows,
    given: &[(u8, u16)],
) -> Result<Option<(usize, usize)>, OutOfMemory> {
    let host = Text::of(alloc, "c1")?;
    let given = tags(alloc, given)?;
    let tables = wire_routers(alloc, rows, &host, &given)?;
    Ok(count_router(&tables))
}

// A router's port without a tag has no row, and its routes have.
#[test]
fn untagged_router(rt: HostRuntime) -> Result<(), Fail> {
    let alloc = rt.alloc();
    let rows = routed(alloc)?;
    assert!(rt; router_at(alloc, &rows, &[(11, 2)])? == Some((0, 1)));
    assert!(rt; router_at(alloc, &rows, &[(10, 1)])? == Some((1, 1)));
    Ok(())
}
