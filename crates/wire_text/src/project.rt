//! Projects.
ghost use Rattle.wire_text.specs.RowTrees.{project_tree};
ghost use Rattle.wire_text.specs.Typed.{IsProject};

use crate::refusal::TextRefusal;
use crate::value::{FromJson, ToJson, put, read_member};
use api_types::ProjectRow;
use net_addr::OutOfMemory;
use serde_json::{Map, Value};
use std::alloc::Global;

impl ToJson for ProjectRow {
    ghost tree = { project_tree };

    fn to_json(&self, alloc: Global) -> Result<Value, OutOfMemory> {
        let mut map = Map::new(alloc);
        put(&mut map, alloc, "count", &self.count)?;
        put(&mut map, alloc, "name", &self.name)?;
        put(&mut map, alloc, "ordinal", &self.ordinal)?;
        Ok(Value::Object(map))
    }
}

impl FromJson for ProjectRow {
    ghost fits = { IsProject };

    fn from_json(alloc: Global, value: &Value) -> Result<ProjectRow, TextRefusal> {
        let count = read_member(alloc, value, "count")?;
        let name = read_member(alloc, value, "name")?;
        let ordinal = read_member(alloc, value, "ordinal")?;
        Ok(ProjectRow {
            count,
            name,
            ordinal,
        })
    }
}
