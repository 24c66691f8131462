//! Whether two rows of a table of a host are equal.

ghost use Rattle.std.specs.Prelude.{◌≡◌, ◌↔◌, IsTrue};

use api_types::Wire;
use net_addr::Same;
use plane_types::{
    BridgeRow, BridgeTo, Carrier, FilterRow, FloatRow, InwardRow, LeaseRow, NeighbourRow, RouteRow,
    RouterPort, RouterTable, SetRow, TagRow, TapRow,
};

/// A row of a table of a host.
pub trait TableRow: Drop {
    /// Whether the two are equal. Its cost grows with the smaller row.
    fn is_row(&self, other: &Self) -> bool
        ensures { IsTrue result ↔ (self.now ≡ other.now) };
}

fn is_wire(wire: &Wire, other: &Wire) -> bool
    ensures { IsTrue result ↔ (wire.now ≡ other.now) }
{
    wire.physical.is_same(&other.physical) && wire.tag.is_same(&other.tag)
}

// Whether both are none, or equal.
fn are_wires(wire: &Option<Wire>, other: &Option<Wire>) -> bool
    ensures { IsTrue result ↔ (wire.now ≡ other.now) }
{
    match (wire, other) {
        (None, None) => true,
        (Some(wire), Some(other)) => is_wire(wire, other),
        (None, Some(_)) | (Some(_), None) => false,
    }
}

impl TableRow for TagRow {
    fn is_row(&self, other: &TagRow) -> bool {
        self.network == other.network && self.tag == other.tag && are_wires(&self.wire, &other.wire)
    }
}

impl TableRow for TapRow {
    fn is_row(&self, other: &TapRow) -> bool {
        self.port == other.port
            && self.tag == other.tag
            && self.mac == other.mac
            && self.secured == other.secured
            && self.allowed.is_same(&other.allowed)
    }
}

impl TableRow for FilterRow {
    fn is_row(&self, other: &FilterRow) -> bool {
        self.port == other.port
            && self.direction == other.direction
            && self.ethertype == other.ethertype
            && self.protocol.is_same(&other.protocol)
            && self.low.is_same(&other.low)
            && self.high.is_same(&other.high)
            && self.remote_prefix.is_same(&other.remote_prefix)
            && self.remote_group.is_same(&other.remote_group)
    }
}

impl TableRow for SetRow {
    fn is_row(&self, other: &SetRow) -> bool {
        *self == *other
    }
}

fn is_end(end: &BridgeTo, other: &BridgeTo) -> bool
    ensures { IsTrue result ↔ (end.now ≡ other.now) }
{
    match (end, other) {
        (BridgeTo::Tap(a), BridgeTo::Tap(b)) => *a == *b,
        (BridgeTo::Router { router: a, port: p }, BridgeTo::Router { router: b, port: q }) => {
            *a == *b && *p == *q
        }
        (BridgeTo::Tunnel { host: a, number: m }, BridgeTo::Tunnel { host: b, number: n }) =>
            a.is_same(b) && *m == *n,
        _ => false,
    }
}

impl TableRow for BridgeRow {
    fn is_row(&self, other: &BridgeRow) -> bool {
        self.tag == other.tag && self.key == other.key && is_end(&self.to, &other.to)
    }
}

fn is_carrier(carrier: &Carrier, other: &Carrier) -> bool
    ensures { IsTrue result ↔ (carrier.now ≡ other.now) }
{
    match (carrier, other) {
        (Carrier::Tunnel(m), Carrier::Tunnel(n)) => *m == *n,
        (Carrier::Wire(a), Carrier::Wire(b)) => is_wire(a, b),
        _ => false,
    }
}

impl TableRow for InwardRow {
    fn is_row(&self, other: &InwardRow) -> bool {
        is_carrier(&self.carrier, &other.carrier) && self.tag == other.tag
    }
}

impl TableRow for NeighbourRow {
    fn is_row(&self, other: &NeighbourRow) -> bool {
        *self == *other
    }
}

fn is_port(port: &RouterPort, other: &RouterPort) -> bool
    ensures { IsTrue result ↔ (port.now ≡ other.now) }
{
    port.port == other.port
        && port.tag == other.tag
        && port.mac == other.mac
        && port.addresses.is_same(&other.addresses)
        && port.prefixes.is_same(&other.prefixes)
        && port.inside == other.inside
}

// Whether these are equal ports in one order.
fn are_ports(ports: &[RouterPort], others: &[RouterPort]) -> bool
    ensures { IsTrue result ↔ (ports.now ≡ others.now) }
{
    if ports.len() != others.len() {
        return false;
    }
    for place in 0..ports.len() {
        if !is_port(&ports[place], &others[place]) {
            return false;
        }
    }
    true
}

impl TableRow for RouterTable {
    fn is_row(&self, other: &RouterTable) -> bool {
        self.router == other.router
            && self.up == other.up
            && self.snat == other.snat
            && self.gateway.is_same(&other.gateway)
            && are_ports(self.ports.as_slice(), other.ports.as_slice())
    }
}

impl TableRow for RouteRow {
    fn is_row(&self, other: &RouteRow) -> bool {
        *self == *other
    }
}

impl TableRow for FloatRow {
    fn is_row(&self, other: &FloatRow) -> bool {
        *self == *other
    }
}

impl TableRow for LeaseRow {
    fn is_row(&self, other: &LeaseRow) -> bool {
        self.port == other.port
            && self.tag == other.tag
            && self.mac == other.mac
            && self.lease.address == other.lease.address
            && self.lease.length == other.lease.length
            && self.lease.gateway.is_same(&other.lease.gateway)
            && self.lease.name_servers.is_same(&other.lease.name_servers)
            && self.lease.host_routes.is_same(&other.lease.host_routes)
    }
}
