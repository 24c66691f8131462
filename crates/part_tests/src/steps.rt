//! How many rows the edits of a change write: a port more in a group, at its host and at another,
//! and another name of the network.
use crate::wired::{INNER, add_vxlan};
use agent_node::{AgentNode, Rewire};
use api_check::first_broken;
use api_types::{Change, Direction, Ethertype, FitsRows, Item, Kind, PortRow, Row, Rows, RuleRow};
use net_addr::{Copies, OutOfMemory, Seq, Text};
use net_settings::default_settings;
use plane_types::{Delta, Edits};
use std::alloc::Global;
use std::test::Fail;
use test_rows::{add, bound_port, group, held, id, prefix, project, rule, subnet};

const GROUP: u8 = 40;

// A rule as Neutron makes it with each default group.
fn default_rule(
    alloc: Global,
    n: u8,
    direction: Direction,
    ethertype: Ethertype,
) -> Result<RuleRow, OutOfMemory> {
    let mut row = rule(alloc, n, GROUP, direction)?;
    row.ethertype = ethertype;
    if direction == Direction::Ingress {
        row.remote_group = Some(id(GROUP));
    }
    Ok(row)
}

// A port of the default group on c1.
fn member(alloc: Global, n: u8) -> Result<PortRow, OutOfMemory> {
    let mut row = bound_port(alloc, n, 10, "c1", held(90, INNER + u32::from(n)))?;
    row.groups.push(id(GROUP))?;
    Ok(row)
}

// A network with a subnet without DHCP, and three ports of the default group, all on c1.
fn three_members(alloc: Global) -> Result<Rows, OutOfMemory> {
    let mut rows = Rows::empty(alloc)?;
    add(alloc, &mut rows, Row::Project(project(alloc, 1, "a")?))?;
    add_vxlan(alloc, &mut rows, 10, 1)?;
    let inner = subnet(alloc, 90, 10, prefix(INNER, 24))?;
    add(alloc, &mut rows, Row::Subnet(inner))?;
    let mut default = group(alloc, GROUP, "default")?;
    default.is_default = true;
    add(alloc, &mut rows, Row::Group(default))?;
    let kinds = [
        (50, Direction::Egress, Ethertype::Ipv4),
        (51, Direction::Egress, Ethertype::Ipv6),
        (52, Direction::Ingress, Ethertype::Ipv4),
        (53, Direction::Ingress, Ethertype::Ipv6),
    ];
    for (n, direction, ethertype) in kinds {
        let row = default_rule(alloc, n, direction, ethertype)?;
        add(alloc, &mut rows, Row::Rule(row))?;
    }
    for n in 20..23 {
        add(alloc, &mut rows, Row::Port(member(alloc, n)?))?;
    }
    Ok(rows)
}

// How many edits of each table take a row out, and how many put one in, in the order of the rows of
// `TableLists`.
type Counts = [(usize, usize); 11];

// The same of one table.
fn count<T>(edits: &Edits<T>) -> (usize, usize) {
    let out = edits.as_slice().iter().filter(|edit| edit.out).count();
    let put = edits
        .as_slice()
        .iter()
        .filter(|edit| edit.put.is_some())
        .count();
    (out, put)
}

fn count_all(delta: &Delta) -> Counts {
    let l2 = &delta.l2;
    let l3 = &delta.l3;
    [
        count(&l2.tag_edits),
        count(&l2.taps),
        count(&l2.filters),
        count(&l2.sets),
        count(&l2.bridge),
        count(&l2.inward),
        count(&l2.neighbours),
        count(&l3.routers),
        count(&l3.routes),
        count(&l3.floats),
        count(&delta.dhcp.leases),
    ]
}

// What a change makes ready at a host.
fn prepare(alloc: Global, node: &mut AgentNode, change: &Change) -> Result<Rewire, Fail> {
    let settings = default_settings(alloc)?;
    if !change.fits(node.rows()) {
        return Err(Fail::new("the change doesn't fit"));
    }
    let mut after = node.rows().copy(alloc)?;
    after.apply_change(alloc, change)?;
    if let Some(_) = first_broken(&after, &settings) {
        return Err(Fail::new("rows are inconsistent"));
    }
    Ok(node.prepare_rewire(alloc, change)?)
}

// The agents of a host with the three ports.
fn node_of(alloc: Global, host: &str) -> Result<AgentNode, Fail> {
    let settings = default_settings(alloc)?;
    let rows = three_members(alloc)?;
    if let Some(_) = first_broken(&rows, &settings) {
        return Err(Fail::new("rows are inconsistent"));
    }
    Ok(AgentNode::make(alloc, Text::of(alloc, host)?, &rows, 0)?)
}

// A fourth port like these.
fn fourth_member(alloc: Global) -> Result<Change, OutOfMemory> {
    let mut change = Seq::new(alloc);
    change.push(Item {
        kind: Kind::Port,
        place: 3,
        before: None,
        after: Some(Row::Port(member(alloc, 23)?)),
    })?;
    Ok(change)
}

// What a change writes in each table of a host with the three ports.
fn written(alloc: Global, host: &str, change: &Change) -> Result<Counts, Fail> {
    let mut node = node_of(alloc, host)?;
    let rewire = prepare(alloc, &mut node, change)?;
    Ok(count_all(&rewire.delta))
}

const NONE: (usize, usize) = (0, 0);

const ONE: (usize, usize) = (0, 1);

const FOUR: (usize, usize) = (0, 4);

// The port in the taps, the sets, the bridge and the neighbours, and each rule of it in the
// filters.
const PORT_MORE: Counts = [NONE, ONE, FOUR, ONE, ONE, NONE, ONE, NONE, NONE, NONE, NONE];

// Another host has no port of the network, and writes nothing.
#[test]
fn port_more(rt: HostRuntime) -> Result<(), Fail> {
    let alloc = rt.alloc();
    let change = fourth_member(alloc)?;
    assert!(rt; written(alloc, "c1", &change)? == PORT_MORE);
    assert!(rt; written(alloc, "c2", &change)? == [NONE; 11]);
    Ok(())
}

// The network with another name.
fn renaming(alloc: Global) -> Result<Change, Fail> {
    let rows = three_members(alloc)?;
    let Some(old) = rows.networks().get(id(10)) else {
        return Err(Fail::new("a network"));
    };
    let mut new = old.copy(alloc)?;
    new.name = Text::of(alloc, "other")?;
    let mut change = Seq::new(alloc);
    change.push(Item {
        kind: Kind::Network,
        place: 0,
        before: Some(Row::Network(old.copy(alloc)?)),
        after: Some(Row::Network(new)),
    })?;
    Ok(change)
}

// No table has a network's name.
#[test]
fn network_renamed(rt: HostRuntime) -> Result<(), Fail> {
    let alloc = rt.alloc();
    let change = renaming(alloc)?;
    assert!(rt; written(alloc, "c1", &change)? == [NONE; 11]);
    Ok(())
}
