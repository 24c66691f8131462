//! The tables of a host as JSON.
ghost use Rattle.std.specs.Prelude.{◌≡◌, IfOk};
ghost use Rattle.json_trees.specs.Printed.{or_null};
ghost use Rattle.api_types.specs.Printed.{word, number};
ghost use Rattle.json_replies.specs.Tables.{physical_tree, number_tree, tag_row_tree, pair_tree, tap_tree, filter_tree, set_tree, bridge_key_text, bridge_to_tree, bridge_tree, inward_number_tree, wire_of, inward_tree, neighbour_tree, router_port_tree, router_tree, rank_word, route_tree, float_tree, lease_row_tree, tables_tree};

use crate::frame::put;
use crate::printed::Prints;
use api_types::{Pair, RouteRank, Wire};
use net_addr::{OutOfMemory, Text};
use plane_types::{
    BridgeKey, BridgeRow, BridgeTo, Carrier, FilterRow, FloatRow, InwardRow, LeaseRow,
    NeighbourRow, RouteRow, RouterPort, RouterTable, SetRow, TableLists, TagRow, TapRow,
};
use serde_json::{Map, Value};
use std::alloc::Global;

// The name of a wire's physical network.
fn physical(wire: &Option<Wire>) -> Option<&str>
    ensures { or_null (λ s. word s.now) result ≡ physical_tree wire.now }
{
    match wire {
        None => None,
        Some(wire) => Some(wire.physical.as_str()),
    }
}

// The tag of a wire.
fn number(wire: &Option<Wire>) -> Option<u16>
    ensures { or_null number result ≡ number_tree wire.now }
{
    match wire {
        None => None,
        Some(wire) => wire.tag,
    }
}

impl Prints for TagRow {
    ghost tree = { tag_row_tree };

    fn value(&self, alloc: Global) -> Result<Value, OutOfMemory> {
        let mut map = Map::new(alloc);
        put(&mut map, alloc, "network", &self.network)?;
        put(&mut map, alloc, "number", &number(&self.wire))?;
        put(&mut map, alloc, "physical", &physical(&self.wire))?;
        put(&mut map, alloc, "tag", &self.tag)?;
        Ok(Value::Object(map))
    }
}

impl Prints for Pair {
    ghost tree = { pair_tree };

    fn value(&self, alloc: Global) -> Result<Value, OutOfMemory> {
        let mut map = Map::new(alloc);
        put(&mut map, alloc, "mac", &self.mac)?;
        put(&mut map, alloc, "prefix", &self.prefix)?;
        Ok(Value::Object(map))
    }
}

impl Prints for TapRow {
    ghost tree = { tap_tree };

    fn value(&self, alloc: Global) -> Result<Value, OutOfMemory> {
        let mut map = Map::new(alloc);
        put(&mut map, alloc, "allowed", &self.allowed)?;
        put(&mut map, alloc, "mac", &self.mac)?;
        put(&mut map, alloc, "port", &self.port)?;
        put(&mut map, alloc, "secured", &self.secured)?;
        put(&mut map, alloc, "tag", &self.tag)?;
        Ok(Value::Object(map))
    }
}

impl Prints for FilterRow {
    ghost tree = { filter_tree };

    fn value(&self, alloc: Global) -> Result<Value, OutOfMemory> {
        let mut map = Map::new(alloc);
        put(&mut map, alloc, "direction", &self.direction)?;
        put(&mut map, alloc, "ethertype", &self.ethertype)?;
        put(&mut map, alloc, "high", &self.high)?;
        put(&mut map, alloc, "low", &self.low)?;
        put(&mut map, alloc, "port", &self.port)?;
        put(&mut map, alloc, "protocol", &self.protocol)?;
        put(&mut map, alloc, "remote_group", &self.remote_group)?;
        put(&mut map, alloc, "remote_prefix", &self.remote_prefix)?;
        Ok(Value::Object(map))
    }
}

impl Prints for SetRow {
    ghost tree = { set_tree };

    fn value(&self, alloc: Global) -> Result<Value, OutOfMemory> {
        let mut map = Map::new(alloc);
        put(&mut map, alloc, "group", &self.group)?;
        put(&mut map, alloc, "prefix", &self.prefix)?;
        Ok(Value::Object(map))
    }
}

// What is sought in a bridge.
fn key_text(alloc: Global, key: BridgeKey) -> Result<Text, OutOfMemory>
    ensures { IfOk result (λ t. t ≡ bridge_key_text key) }
{
    match key {
        BridgeKey::Dhcp => Text::of(alloc, "dhcp"),
        BridgeKey::Mac(mac) => mac.print(alloc),
    }
}

impl Prints for BridgeTo {
    ghost tree = { bridge_to_tree };

    fn value(&self, alloc: Global) -> Result<Value, OutOfMemory> {
        match self {
            BridgeTo::Tap(port) => {
                let mut map = Map::new(alloc);
                put(&mut map, alloc, "kind", &"tap")?;
                put(&mut map, alloc, "port", port)?;
                Ok(Value::Object(map))
            }
            BridgeTo::Router { router: _, port } => {
                let mut map = Map::new(alloc);
                put(&mut map, alloc, "kind", &"router")?;
                put(&mut map, alloc, "port", port)?;
                Ok(Value::Object(map))
            }
            BridgeTo::Tunnel { host, number } => {
                let mut map = Map::new(alloc);
                put(&mut map, alloc, "host", host)?;
                put(&mut map, alloc, "kind", &"tunnel")?;
                put(&mut map, alloc, "number", number)?;
                Ok(Value::Object(map))
            }
        }
    }
}

impl Prints for BridgeRow {
    ghost tree = { bridge_tree };

    fn value(&self, alloc: Global) -> Result<Value, OutOfMemory> {
        let mut map = Map::new(alloc);
        put(&mut map, alloc, "mac", &key_text(alloc, self.key)?)?;
        put(&mut map, alloc, "tag", &self.tag)?;
        put(&mut map, alloc, "to", &self.to)?;
        Ok(Value::Object(map))
    }
}

// The physical network by which frames come.
fn inward_physical(carrier: &Carrier) -> Option<&str>
    ensures { or_null (λ s. word s.now) result ≡ physical_tree (wire_of carrier.now) }
{
    match carrier {
        Carrier::Tunnel(_) => None,
        Carrier::Wire(wire) => Some(wire.physical.as_str()),
    }
}

// The number with which frames come: that of their tunnel, or that on their wire.
fn inward_number(carrier: &Carrier) -> Option<u32>
    ensures { or_null number result ≡ inward_number_tree carrier.now }
{
    match carrier {
        Carrier::Tunnel(number) => Some(*number),
        Carrier::Wire(wire) => match wire.tag {
            Some(tag) => Some(u32::from(tag)),
            None => None,
        },
    }
}

impl Prints for InwardRow {
    ghost tree = { inward_tree };

    fn value(&self, alloc: Global) -> Result<Value, OutOfMemory> {
        let mut map = Map::new(alloc);
        put(&mut map, alloc, "number", &inward_number(&self.carrier))?;
        put(&mut map, alloc, "physical", &inward_physical(&self.carrier))?;
        put(&mut map, alloc, "tag", &self.tag)?;
        Ok(Value::Object(map))
    }
}

impl Prints for NeighbourRow {
    ghost tree = { neighbour_tree };

    fn value(&self, alloc: Global) -> Result<Value, OutOfMemory> {
        let mut map = Map::new(alloc);
        put(&mut map, alloc, "address", &self.address)?;
        put(&mut map, alloc, "mac", &self.mac)?;
        put(&mut map, alloc, "tag", &self.tag)?;
        Ok(Value::Object(map))
    }
}

impl Prints for RouterPort {
    ghost tree = { router_port_tree };

    fn value(&self, alloc: Global) -> Result<Value, OutOfMemory> {
        let mut map = Map::new(alloc);
        put(&mut map, alloc, "addresses", &self.addresses)?;
        put(&mut map, alloc, "inside", &self.inside)?;
        put(&mut map, alloc, "mac", &self.mac)?;
        put(&mut map, alloc, "port", &self.port)?;
        put(&mut map, alloc, "prefixes", &self.prefixes)?;
        put(&mut map, alloc, "tag", &self.tag)?;
        Ok(Value::Object(map))
    }
}

impl Prints for RouterTable {
    ghost tree = { router_tree };

    fn value(&self, alloc: Global) -> Result<Value, OutOfMemory> {
        let mut map = Map::new(alloc);
        put(&mut map, alloc, "gateway_address", &self.gateway)?;
        put(&mut map, alloc, "ports", &self.ports)?;
        put(&mut map, alloc, "router", &self.router)?;
        put(&mut map, alloc, "snat", &self.snat)?;
        put(&mut map, alloc, "up", &self.up)?;
        Ok(Value::Object(map))
    }
}

// The word of a rank.
fn rank_of(rank: RouteRank) -> &'static str
    ensures { result.now ≡ rank_word rank }
{
    match rank {
        RouteRank::Connected => "connected",
        RouteRank::Extra => "extra",
        RouteRank::Default => "default",
    }
}

impl Prints for RouteRow {
    ghost tree = { route_tree };

    fn value(&self, alloc: Global) -> Result<Value, OutOfMemory> {
        let mut map = Map::new(alloc);
        put(&mut map, alloc, "next_hop", &self.next)?;
        put(&mut map, alloc, "port", &self.port)?;
        put(&mut map, alloc, "prefix", &self.prefix)?;
        put(&mut map, alloc, "rank", &rank_of(self.rank))?;
        put(&mut map, alloc, "router", &self.router)?;
        Ok(Value::Object(map))
    }
}

impl Prints for FloatRow {
    ghost tree = { float_tree };

    fn value(&self, alloc: Global) -> Result<Value, OutOfMemory> {
        let mut map = Map::new(alloc);
        put(&mut map, alloc, "fixed", &self.fixed)?;
        put(&mut map, alloc, "floating", &self.floating)?;
        put(&mut map, alloc, "router", &self.router)?;
        Ok(Value::Object(map))
    }
}

impl Prints for LeaseRow {
    ghost tree = { lease_row_tree };

    fn value(&self, alloc: Global) -> Result<Value, OutOfMemory> {
        let lease = &self.lease;
        let mut map = Map::new(alloc);
        put(&mut map, alloc, "address", &lease.address)?;
        put(&mut map, alloc, "gateway", &lease.gateway)?;
        put(&mut map, alloc, "host_routes", &lease.host_routes)?;
        put(&mut map, alloc, "length", &lease.length)?;
        put(&mut map, alloc, "mac", &self.mac)?;
        put(&mut map, alloc, "name_servers", &lease.name_servers)?;
        put(&mut map, alloc, "tag", &self.tag)?;
        Ok(Value::Object(map))
    }
}

impl Prints for TableLists {
    ghost tree = { tables_tree };

    fn value(&self, alloc: Global) -> Result<Value, OutOfMemory> {
        let mut map = Map::new(alloc);
        put(&mut map, alloc, "bridge", &self.bridge)?;
        put(&mut map, alloc, "filters", &self.filters)?;
        put(&mut map, alloc, "floats", &self.floats)?;
        put(&mut map, alloc, "inward", &self.inward)?;
        put(&mut map, alloc, "leases", &self.leases)?;
        put(&mut map, alloc, "neighbours", &self.neighbours)?;
        put(&mut map, alloc, "routers", &self.routers)?;
        put(&mut map, alloc, "routes", &self.routes)?;
        put(&mut map, alloc, "sets", &self.sets)?;
        put(&mut map, alloc, "tags", &self.tags)?;
        put(&mut map, alloc, "taps", &self.taps)?;
        Ok(Value::Object(map))
    }
}
