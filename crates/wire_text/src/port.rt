//! Ports.
ghost use Rattle.wire_text.specs.RowTrees.{port_tree};
ghost use Rattle.wire_text.specs.Typed.{IsPort};

use crate::refusal::TextRefusal;
use crate::value::{FromJson, ToJson, put, read_member};
use api_types::PortRow;
use net_addr::OutOfMemory;
use serde_json::{Map, Value};
use std::alloc::Global;

impl ToJson for PortRow {
    ghost tree = { port_tree };

    fn to_json(&self, alloc: Global) -> Result<Value, OutOfMemory> {
        let mut map = Map::new(alloc);
        put(&mut map, alloc, "by_admin", &self.by_admin)?;
        put(&mut map, alloc, "description", &self.description)?;
        put(&mut map, alloc, "device", &self.device)?;
        put(&mut map, alloc, "fixed", &self.fixed)?;
        put(&mut map, alloc, "groups", &self.groups)?;
        put(&mut map, alloc, "host", &self.host)?;
        put(&mut map, alloc, "id", &self.id)?;
        put(&mut map, alloc, "mac", &self.mac)?;
        put(&mut map, alloc, "name", &self.name)?;
        put(&mut map, alloc, "network", &self.network)?;
        put(&mut map, alloc, "owner", &self.owner)?;
        put(&mut map, alloc, "pairs", &self.pairs)?;
        put(&mut map, alloc, "project", &self.project)?;
        put(&mut map, alloc, "secured", &self.secured)?;
        put(&mut map, alloc, "up", &self.up)?;
        put(&mut map, alloc, "vif", &self.vif)?;
        Ok(Value::Object(map))
    }
}

impl FromJson for PortRow {
    ghost fits = { IsPort };

    fn from_json(alloc: Global, value: &Value) -> Result<PortRow, TextRefusal> {
        let by_admin = read_member(alloc, value, "by_admin")?;
        let description = read_member(alloc, value, "description")?;
        let device = read_member(alloc, value, "device")?;
        let fixed = read_member(alloc, value, "fixed")?;
        let groups = read_member(alloc, value, "groups")?;
        let host = read_member(alloc, value, "host")?;
        let id = read_member(alloc, value, "id")?;
        let mac = read_member(alloc, value, "mac")?;
        let name = read_member(alloc, value, "name")?;
        let network = read_member(alloc, value, "network")?;
        let owner = read_member(alloc, value, "owner")?;
        let pairs = read_member(alloc, value, "pairs")?;
        let project = read_member(alloc, value, "project")?;
        let secured = read_member(alloc, value, "secured")?;
        let up = read_member(alloc, value, "up")?;
        let vif = read_member(alloc, value, "vif")?;
        Ok(PortRow {
            by_admin,
            description,
            device,
            fixed,
            groups,
            host,
            id,
            mac,
            name,
            network,
            owner,
            pairs,
            project,
            secured,
            up,
            vif,
        })
    }
}
