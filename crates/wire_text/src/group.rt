//! Security groups and their rules.
ghost use Rattle.wire_text.specs.RowTrees.{group_tree, rule_tree};
ghost use Rattle.wire_text.specs.Typed.{IsGroup, IsRule};

use crate::refusal::TextRefusal;
use crate::value::{FromJson, ToJson, put, read_member};
use api_types::{GroupRow, RuleRow};
use net_addr::OutOfMemory;
use serde_json::{Map, Value};
use std::alloc::Global;

impl ToJson for GroupRow {
    ghost tree = { group_tree };

    fn to_json(&self, alloc: Global) -> Result<Value, OutOfMemory> {
        let mut map = Map::new(alloc);
        put(&mut map, alloc, "description", &self.description)?;
        put(&mut map, alloc, "id", &self.id)?;
        put(&mut map, alloc, "is_default", &self.is_default)?;
        put(&mut map, alloc, "name", &self.name)?;
        put(&mut map, alloc, "project", &self.project)?;
        Ok(Value::Object(map))
    }
}

impl FromJson for GroupRow {
    ghost fits = { IsGroup };

    fn from_json(alloc: Global, value: &Value) -> Result<GroupRow, TextRefusal> {
        let description = read_member(alloc, value, "description")?;
        let id = read_member(alloc, value, "id")?;
        let is_default = read_member(alloc, value, "is_default")?;
        let name = read_member(alloc, value, "name")?;
        let project = read_member(alloc, value, "project")?;
        Ok(GroupRow {
            description,
            id,
            is_default,
            name,
            project,
        })
    }
}

impl ToJson for RuleRow {
    ghost tree = { rule_tree };

    fn to_json(&self, alloc: Global) -> Result<Value, OutOfMemory> {
        let mut map = Map::new(alloc);
        put(&mut map, alloc, "description", &self.description)?;
        put(&mut map, alloc, "direction", &self.direction)?;
        put(&mut map, alloc, "ethertype", &self.ethertype)?;
        put(&mut map, alloc, "group", &self.group)?;
        put(&mut map, alloc, "high", &self.high)?;
        put(&mut map, alloc, "id", &self.id)?;
        put(&mut map, alloc, "low", &self.low)?;
        put(&mut map, alloc, "project", &self.project)?;
        put(&mut map, alloc, "protocol", &self.protocol)?;
        put(&mut map, alloc, "remote_group", &self.remote_group)?;
        put(&mut map, alloc, "remote_prefix", &self.remote_prefix)?;
        Ok(Value::Object(map))
    }
}

impl FromJson for RuleRow {
    ghost fits = { IsRule };

    fn from_json(alloc: Global, value: &Value) -> Result<RuleRow, TextRefusal> {
        let description = read_member(alloc, value, "description")?;
        let direction = read_member(alloc, value, "direction")?;
        let ethertype = read_member(alloc, value, "ethertype")?;
        let group = read_member(alloc, value, "group")?;
        let high = read_member(alloc, value, "high")?;
        let id = read_member(alloc, value, "id")?;
        let low = read_member(alloc, value, "low")?;
        let project = read_member(alloc, value, "project")?;
        let protocol = read_member(alloc, value, "protocol")?;
        let remote_group = read_member(alloc, value, "remote_group")?;
        let remote_prefix = read_member(alloc, value, "remote_prefix")?;
        Ok(RuleRow {
            description,
            direction,
            ethertype,
            group,
            high,
            id,
            low,
            project,
            protocol,
            remote_group,
            remote_prefix,
        })
    }
}
