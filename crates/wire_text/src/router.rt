//! Routers.
ghost use Rattle.wire_text.specs.RowTrees.{router_tree};
ghost use Rattle.wire_text.specs.Typed.{IsRouter};

use crate::refusal::TextRefusal;
use crate::value::{FromJson, ToJson, put, read_member};
use api_types::RouterRow;
use net_addr::OutOfMemory;
use serde_json::{Map, Value};
use std::alloc::Global;

impl ToJson for RouterRow {
    ghost tree = { router_tree };

    fn to_json(&self, alloc: Global) -> Result<Value, OutOfMemory> {
        let mut map = Map::new(alloc);
        put(&mut map, alloc, "description", &self.description)?;
        put(&mut map, alloc, "gateway", &self.gateway)?;
        put(&mut map, alloc, "host", &self.host)?;
        put(&mut map, alloc, "id", &self.id)?;
        put(&mut map, alloc, "name", &self.name)?;
        put(&mut map, alloc, "project", &self.project)?;
        put(&mut map, alloc, "routes", &self.routes)?;
        put(&mut map, alloc, "up", &self.up)?;
        Ok(Value::Object(map))
    }
}

impl FromJson for RouterRow {
    ghost fits = { IsRouter };

    fn from_json(alloc: Global, value: &Value) -> Result<RouterRow, TextRefusal> {
        let description = read_member(alloc, value, "description")?;
        let gateway = read_member(alloc, value, "gateway")?;
        let host = read_member(alloc, value, "host")?;
        let id = read_member(alloc, value, "id")?;
        let name = read_member(alloc, value, "name")?;
        let project = read_member(alloc, value, "project")?;
        let routes = read_member(alloc, value, "routes")?;
        let up = read_member(alloc, value, "up")?;
        Ok(RouterRow {
            description,
            gateway,
            host,
            id,
            name,
            project,
            routes,
            up,
        })
    }
}
