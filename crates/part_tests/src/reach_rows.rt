//! The rows: a client and a server on one network, and the rules of the server.

use api_types::{Direction, PortRow, Row, Rows, RuleRow, Segment};
use net_addr::OutOfMemory;
use std::alloc::Global;
use test_rows::{add, bound_port, group, held, id, network, prefix, project, rule, subnet};

/// 10.0.0.0.
pub(crate) const NET: u32 = 0x0a00_0000;

/// The client is at 10.0.0.5, the server at 10.0.0.6.
pub(crate) const CLIENT: u8 = 5;

pub(crate) const SERVER: u8 = 6;

// The network and its subnet.
const NETWORK: u8 = 10;

const SUBNET: u8 = 11;

// The group of the client lets all out. That of the server has the rules of a case, whose ids begin
// with this one.
const CLIENTS: u8 = 20;

const SERVERS: u8 = 21;

const FIRST_RULE: u8 = 60;

/// What a rule of the server lets in from all.
#[derive(Clone, Copy)]
pub(crate) struct Inward {
    pub(crate) protocol: Option<u8>,
    pub(crate) low: Option<u16>,
    pub(crate) high: Option<u16>,
}

/// Ports 22, and 80 to 90, of TCP.
pub(crate) const SHELL_AND_WEB: &[Inward] = &[
    Inward {
        protocol: Some(6),
        low: Some(22),
        high: Some(22),
    },
    Inward {
        protocol: Some(6),
        low: Some(80),
        high: Some(90),
    },
];

/// A range for any protocol, which no call makes.
pub(crate) const RANGE_OF_ANY: &[Inward] = &[Inward {
    protocol: None,
    low: Some(0),
    high: Some(20),
}];

fn inward_rule(alloc: Global, n: u8, inward: &Inward) -> Result<RuleRow, OutOfMemory> {
    let mut row = rule(alloc, n, SERVERS, Direction::Ingress)?;
    row.protocol = inward.protocol;
    row.low = inward.low;
    row.high = inward.high;
    Ok(row)
}

fn add_groups(alloc: Global, rows: &mut Rows) -> Result<(), OutOfMemory> {
    let mut default = group(alloc, 1, "default")?;
    default.is_default = true;
    add(alloc, rows, Row::Group(default))?;
    add(alloc, rows, Row::Group(group(alloc, CLIENTS, "clients")?))?;
    add(alloc, rows, Row::Group(group(alloc, SERVERS, "servers")?))?;
    let outward = rule(alloc, 22, CLIENTS, Direction::Egress)?;
    add(alloc, rows, Row::Rule(outward))
}

fn add_rules(alloc: Global, rows: &mut Rows, rules: &[Inward]) -> Result<(), OutOfMemory> {
    for (inward, n) in rules.iter().zip(FIRST_RULE..u8::MAX) {
        add(alloc, rows, Row::Rule(inward_rule(alloc, n, inward)?))?;
    }
    Ok(())
}

fn instance(alloc: Global, n: u8, group: u8) -> Result<PortRow, OutOfMemory> {
    let held = held(SUBNET, NET + u32::from(n));
    let mut port = bound_port(alloc, n, NETWORK, "c1", held)?;
    port.groups.push(id(group))?;
    Ok(port)
}

/// The client, and the server with these rules.
pub(crate) fn rows_with(alloc: Global, rules: &[Inward]) -> Result<Rows, OutOfMemory> {
    let mut rows = Rows::empty(alloc)?;
    add(alloc, &mut rows, Row::Project(project(alloc, 1, "a")?))?;
    add_groups(alloc, &mut rows)?;
    add_rules(alloc, &mut rows, rules)?;
    let network = network(alloc, NETWORK, Segment::Vxlan { number: 1 })?;
    add(alloc, &mut rows, Row::Network(network))?;
    let subnet = subnet(alloc, SUBNET, NETWORK, prefix(NET, 24))?;
    add(alloc, &mut rows, Row::Subnet(subnet))?;
    add(
        alloc,
        &mut rows,
        Row::Port(instance(alloc, CLIENT, CLIENTS)?),
    )?;
    add(
        alloc,
        &mut rows,
        Row::Port(instance(alloc, SERVER, SERVERS)?),
    )?;
    Ok(rows)
}
