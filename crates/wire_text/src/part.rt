//! The parts of rows.
ghost use Rattle.std.specs.Prelude.{◌↔◌, IsTrue};
ghost use Rattle.net_addr.specs.Prefixes.{IsSpan};
ghost use Rattle.wire_text.specs.Parts.{fixed_tree, gateway_tree, hop_tree, pair_tree, span_tree, target_tree};
ghost use Rattle.wire_text.specs.Typed.{IsFixed, IsGateway, IsHop, IsPair, IsPool, IsTarget};

use crate::refusal::TextRefusal;
use crate::value::{FromJson, NotNull, ToJson, put, read_member};
use api_types::{Fixed, Gateway, Hop, Pair, Target};
use net_addr::{Addr, OutOfMemory, Span};
use serde_json::{Map, Value};
use std::alloc::Global;

impl ToJson for Span {
    ghost tree = { span_tree };

    fn to_json(&self, alloc: Global) -> Result<Value, OutOfMemory> {
        let mut map = Map::new(alloc);
        put(&mut map, alloc, "end", &self.last)?;
        put(&mut map, alloc, "start", &self.first)?;
        Ok(Value::Object(map))
    }
}

/// Whether both are of one version and the first isn't above the last.
fn is_in_order(first: &Addr, last: &Addr) -> bool
    ensures { IsTrue result ↔ IsSpan (record { first = first.now; last = last.now }) }
{
    match (first, last) {
        (Addr::V4(a), Addr::V4(b)) => a.0 <= b.0,
        (Addr::V6(a), Addr::V6(b)) => a.0 <= b.0,
        _ => false,
    }
}

impl FromJson for Span {
    ghost fits = { IsPool };

    fn from_json(alloc: Global, value: &Value) -> Result<Span, TextRefusal> {
        let last = read_member(alloc, value, "end")?;
        let first = read_member(alloc, value, "start")?;
        if is_in_order(&first, &last) {
            return Ok(Span { first, last });
        }
        Err(TextRefusal::BadText)
    }
}

impl ToJson for Hop {
    ghost tree = { hop_tree };

    fn to_json(&self, alloc: Global) -> Result<Value, OutOfMemory> {
        let mut map = Map::new(alloc);
        put(&mut map, alloc, "destination", &self.destination)?;
        put(&mut map, alloc, "nexthop", &self.next)?;
        Ok(Value::Object(map))
    }
}

impl FromJson for Hop {
    ghost fits = { IsHop };

    fn from_json(alloc: Global, value: &Value) -> Result<Hop, TextRefusal> {
        let destination = read_member(alloc, value, "destination")?;
        let next = read_member(alloc, value, "nexthop")?;
        Ok(Hop { destination, next })
    }
}

impl ToJson for Fixed {
    ghost tree = { fixed_tree };

    fn to_json(&self, alloc: Global) -> Result<Value, OutOfMemory> {
        let mut map = Map::new(alloc);
        put(&mut map, alloc, "address", &self.address)?;
        put(&mut map, alloc, "subnet", &self.subnet)?;
        Ok(Value::Object(map))
    }
}

impl FromJson for Fixed {
    ghost fits = { IsFixed };

    fn from_json(alloc: Global, value: &Value) -> Result<Fixed, TextRefusal> {
        let address = read_member(alloc, value, "address")?;
        let subnet = read_member(alloc, value, "subnet")?;
        Ok(Fixed { address, subnet })
    }
}

impl ToJson for Pair {
    ghost tree = { pair_tree };

    fn to_json(&self, alloc: Global) -> Result<Value, OutOfMemory> {
        let mut map = Map::new(alloc);
        put(&mut map, alloc, "mac", &self.mac)?;
        put(&mut map, alloc, "prefix", &self.prefix)?;
        Ok(Value::Object(map))
    }
}

impl FromJson for Pair {
    ghost fits = { IsPair };

    fn from_json(alloc: Global, value: &Value) -> Result<Pair, TextRefusal> {
        let mac = read_member(alloc, value, "mac")?;
        let prefix = read_member(alloc, value, "prefix")?;
        Ok(Pair { mac, prefix })
    }
}

impl ToJson for Gateway {
    ghost tree = { gateway_tree };

    fn to_json(&self, alloc: Global) -> Result<Value, OutOfMemory> {
        let mut map = Map::new(alloc);
        put(&mut map, alloc, "network", &self.network)?;
        put(&mut map, alloc, "port", &self.port)?;
        put(&mut map, alloc, "snat", &self.snat)?;
        Ok(Value::Object(map))
    }
}

impl FromJson for Gateway {
    ghost fits = { IsGateway };

    fn from_json(alloc: Global, value: &Value) -> Result<Gateway, TextRefusal> {
        let network = read_member(alloc, value, "network")?;
        let port = read_member(alloc, value, "port")?;
        let snat = read_member(alloc, value, "snat")?;
        Ok(Gateway {
            network,
            port,
            snat,
        })
    }
}

impl NotNull for Gateway {
    ghost not_null = { λ x. tt };
}

impl ToJson for Target {
    ghost tree = { target_tree };

    fn to_json(&self, alloc: Global) -> Result<Value, OutOfMemory> {
        let mut map = Map::new(alloc);
        put(&mut map, alloc, "fixed", &self.fixed)?;
        put(&mut map, alloc, "port", &self.port)?;
        put(&mut map, alloc, "router", &self.router)?;
        Ok(Value::Object(map))
    }
}

impl FromJson for Target {
    ghost fits = { IsTarget };

    fn from_json(alloc: Global, value: &Value) -> Result<Target, TextRefusal> {
        let fixed = read_member(alloc, value, "fixed")?;
        let port = read_member(alloc, value, "port")?;
        let router = read_member(alloc, value, "router")?;
        Ok(Target {
            fixed,
            port,
            router,
        })
    }
}

impl NotNull for Target {
    ghost not_null = { λ x. tt };
}
