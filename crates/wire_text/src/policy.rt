//! RBAC policies.
ghost use Rattle.wire_text.specs.RowTrees.{policy_tree};
ghost use Rattle.wire_text.specs.Typed.{IsPolicy};

use crate::refusal::TextRefusal;
use crate::value::{FromJson, ToJson, put, read_member};
use api_types::PolicyRow;
use net_addr::OutOfMemory;
use serde_json::{Map, Value};
use std::alloc::Global;

impl ToJson for PolicyRow {
    ghost tree = { policy_tree };

    fn to_json(&self, alloc: Global) -> Result<Value, OutOfMemory> {
        let mut map = Map::new(alloc);
        put(&mut map, alloc, "action", &self.action)?;
        put(&mut map, alloc, "id", &self.id)?;
        put(&mut map, alloc, "object", &self.object)?;
        put(&mut map, alloc, "project", &self.project)?;
        put(&mut map, alloc, "target", &self.target)?;
        Ok(Value::Object(map))
    }
}

impl FromJson for PolicyRow {
    ghost fits = { IsPolicy };

    fn from_json(alloc: Global, value: &Value) -> Result<PolicyRow, TextRefusal> {
        let action = read_member(alloc, value, "action")?;
        let id = read_member(alloc, value, "id")?;
        let object = read_member(alloc, value, "object")?;
        let project = read_member(alloc, value, "project")?;
        let target = read_member(alloc, value, "target")?;
        Ok(PolicyRow {
            action,
            id,
            object,
            project,
            target,
        })
    }
}
