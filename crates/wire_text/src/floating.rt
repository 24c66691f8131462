//! Floating addresses.
ghost use Rattle.wire_text.specs.RowTrees.{floating_tree};
ghost use Rattle.wire_text.specs.Typed.{IsFloating};

use crate::refusal::TextRefusal;
use crate::value::{FromJson, ToJson, put, read_member};
use api_types::FloatingRow;
use net_addr::OutOfMemory;
use serde_json::{Map, Value};
use std::alloc::Global;

impl ToJson for FloatingRow {
    ghost tree = { floating_tree };

    fn to_json(&self, alloc: Global) -> Result<Value, OutOfMemory> {
        let mut map = Map::new(alloc);
        put(&mut map, alloc, "address", &self.address)?;
        put(&mut map, alloc, "description", &self.description)?;
        put(&mut map, alloc, "id", &self.id)?;
        put(&mut map, alloc, "network", &self.network)?;
        put(&mut map, alloc, "own_port", &self.own_port)?;
        put(&mut map, alloc, "project", &self.project)?;
        put(&mut map, alloc, "target", &self.target)?;
        Ok(Value::Object(map))
    }
}

impl FromJson for FloatingRow {
    ghost fits = { IsFloating };

    fn from_json(alloc: Global, value: &Value) -> Result<FloatingRow, TextRefusal> {
        let address = read_member(alloc, value, "address")?;
        let description = read_member(alloc, value, "description")?;
        let id = read_member(alloc, value, "id")?;
        let network = read_member(alloc, value, "network")?;
        let own_port = read_member(alloc, value, "own_port")?;
        let project = read_member(alloc, value, "project")?;
        let target = read_member(alloc, value, "target")?;
        Ok(FloatingRow {
            address,
            description,
            id,
            network,
            own_port,
            project,
            target,
        })
    }
}
