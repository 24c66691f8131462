//! Networks and their segments.
ghost use Rattle.std.specs.Prelude.{◌≡◌, ◌<◌, ◌^◌, ℕ, IfOk, IsUtf8};
ghost use Rattle.serde_json.specs.View.{view};
ghost use Rattle.net_addr.specs.Words.{Text};
ghost use Rattle.api_types.specs.Printed.{Tree};
ghost use Rattle.api_types.specs.declared.network.Segment.TheVariants.{Flat, Vlan, Vxlan};
ghost use Rattle.json_trees.specs.Printed.{tree_data};
ghost use Rattle.wire_text.specs.Parts.{segment_parts, segment_tree};
ghost use Rattle.wire_text.specs.Reading.{Reads};
ghost use Rattle.wire_text.specs.RowTrees.{network_tree};
ghost use Rattle.wire_text.specs.Typed.{IsNetwork, IsSegment};

use crate::refusal::TextRefusal;
use crate::value::{FromJson, ToJson, put, read_member};
use crate::word::read_word;
use api_types::{NetworkRow, Segment};
use net_addr::OutOfMemory;
use serde_json::{Map, Value};
use std::alloc::Global;

/// A segment's value out of those of its parts.
fn write_parts(
    alloc: Global,
    number: Value,
    physical: Value,
    name: &str,
) -> Result<Value, OutOfMemory>
    ensures { (n p : Tree) → view number ≡ tree_data n → view physical ≡ tree_data p
        → IfOk result (λ v. view v ≡ tree_data (segment_parts n p name.now)) }
{
    let mut map = Map::new(alloc);
    serde_json::put(&mut map, alloc, "number", number)?;
    serde_json::put(&mut map, alloc, "physical", physical)?;
    serde_json::put(&mut map, alloc, "type", Value::try_from_str(alloc, name)?)?;
    Ok(Value::Object(map))
}

impl ToJson for Segment {
    ghost tree = { segment_tree };

    fn to_json(&self, alloc: Global) -> Result<Value, OutOfMemory> {
        match self {
            Segment::Local => write_parts(alloc, Value::Null, Value::Null, "Local"),
            Segment::Flat { physical } => {
                write_parts(alloc, Value::Null, physical.to_json(alloc)?, "Flat")
            }
            Segment::Vlan { physical, tag } => {
                let number = tag.to_json(alloc)?;
                write_parts(alloc, number, physical.to_json(alloc)?, "Vlan")
            }
            Segment::Vxlan { number } => {
                write_parts(alloc, number.to_json(alloc)?, Value::Null, "Vxlan")
            }
        }
    }
}

fn read_flat(alloc: Global, value: &Value) -> Result<Segment, TextRefusal>
    ensures reads { (p : Text) → IsUtf8 p → view value.now ≡ tree_data (segment_tree (Flat p))
        → Reads (Flat p) result }
    ensures fits { IfOk result IsSegment }
{
    Ok(Segment::Flat {
        physical: read_member(alloc, value, "physical")?,
    })
}

fn read_vlan(alloc: Global, value: &Value) -> Result<Segment, TextRefusal>
    ensures reads { (p : Text) (t : ℕ) → IsUtf8 p → t < 2 ^ 16
        → view value.now ≡ tree_data (segment_tree (Vlan p t)) → Reads (Vlan p t) result }
    ensures fits { IfOk result IsSegment }
{
    Ok(Segment::Vlan {
        physical: read_member(alloc, value, "physical")?,
        tag: read_member(alloc, value, "number")?,
    })
}

fn read_vxlan(alloc: Global, value: &Value) -> Result<Segment, TextRefusal>
    ensures reads { (n : ℕ) → n < 2 ^ 32 → view value.now ≡ tree_data (segment_tree (Vxlan n))
        → Reads (Vxlan n) result }
    ensures fits { IfOk result IsSegment }
{
    Ok(Segment::Vxlan {
        number: read_member(alloc, value, "number")?,
    })
}

impl FromJson for Segment {
    ghost fits = { IsSegment };

    fn from_json(alloc: Global, value: &Value) -> Result<Segment, TextRefusal> {
        let Some(type_name) = value.get("type") else {
            return Err(TextRefusal::BadText);
        };
        match read_word(type_name)? {
            "Local" => Ok(Segment::Local),
            "Flat" => read_flat(alloc, value),
            "Vlan" => read_vlan(alloc, value),
            "Vxlan" => read_vxlan(alloc, value),
            _ => Err(TextRefusal::BadText),
        }
    }
}

impl ToJson for NetworkRow {
    ghost tree = { network_tree };

    fn to_json(&self, alloc: Global) -> Result<Value, OutOfMemory> {
        let mut map = Map::new(alloc);
        put(&mut map, alloc, "description", &self.description)?;
        put(&mut map, alloc, "id", &self.id)?;
        put(&mut map, alloc, "name", &self.name)?;
        put(&mut map, alloc, "project", &self.project)?;
        put(&mut map, alloc, "segment", &self.segment)?;
        put(&mut map, alloc, "up", &self.up)?;
        Ok(Value::Object(map))
    }
}

impl FromJson for NetworkRow {
    ghost fits = { IsNetwork };

    fn from_json(alloc: Global, value: &Value) -> Result<NetworkRow, TextRefusal> {
        let description = read_member(alloc, value, "description")?;
        let id = read_member(alloc, value, "id")?;
        let name = read_member(alloc, value, "name")?;
        let project = read_member(alloc, value, "project")?;
        let segment = read_member(alloc, value, "segment")?;
        let up = read_member(alloc, value, "up")?;
        Ok(NetworkRow {
            description,
            id,
            name,
            project,
            segment,
            up,
        })
    }
}
