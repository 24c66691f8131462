//! Rows of any kind, items of changes and rows of pages.
ghost use Rattle.std.specs.Prelude.{◌≡◌, IfOk, Option, Some};
ghost use Rattle.serde_json.specs.Find.{get};
ghost use Rattle.serde_json.specs.View.{view};
ghost use Rattle.api_types.specs.declared.kind.Row.{Row};
ghost use Rattle.json_trees.specs.Printed.{or_null, tree_data};
ghost use Rattle.wire_text.specs.Reading.{Reads};
ghost use Rattle.wire_text.specs.RowTrees.{row_tree};
ghost use Rattle.wire_text.specs.Texts.{IsItem, IsPageRow, IsRowOf, MayBeRowOf, item_tree, page_row_tree};

use crate::refusal::TextRefusal;
use crate::value::{FromJson, ToJson, put, read_member};
use api_types::{
    FloatingRow, GroupRow, Item, Kind, NetworkRow, PageRow, PolicyRow, PortRow, ProjectRow,
    RouterRow, Row, RuleRow, SubnetRow,
};
use net_addr::OutOfMemory;
use serde_json::{Map, Value};
use std::alloc::Global;

impl ToJson for Row {
    ghost tree = { row_tree };

    fn to_json(&self, alloc: Global) -> Result<Value, OutOfMemory> {
        match self {
            Row::Project(row) => row.to_json(alloc),
            Row::Network(row) => row.to_json(alloc),
            Row::Subnet(row) => row.to_json(alloc),
            Row::Port(row) => row.to_json(alloc),
            Row::Group(row) => row.to_json(alloc),
            Row::Rule(row) => row.to_json(alloc),
            Row::Router(row) => row.to_json(alloc),
            Row::Floating(row) => row.to_json(alloc),
            Row::Policy(row) => row.to_json(alloc),
        }
    }
}

/// The row of a kind that has this value. The kind says which members it has.
fn read_row(alloc: Global, kind: Kind, value: &Value) -> Result<Row, TextRefusal>
    ensures reads { (x : Row) → IsRowOf kind x → view value.now ≡ tree_data (row_tree x) → Reads x result }
    ensures fits { IfOk result (IsRowOf kind) }
{
    match kind {
        Kind::Project => Ok(Row::Project(ProjectRow::from_json(alloc, value)?)),
        Kind::Network => Ok(Row::Network(NetworkRow::from_json(alloc, value)?)),
        Kind::Subnet => Ok(Row::Subnet(SubnetRow::from_json(alloc, value)?)),
        Kind::Port => Ok(Row::Port(PortRow::from_json(alloc, value)?)),
        Kind::Group => Ok(Row::Group(GroupRow::from_json(alloc, value)?)),
        Kind::Rule => Ok(Row::Rule(RuleRow::from_json(alloc, value)?)),
        Kind::Router => Ok(Row::Router(RouterRow::from_json(alloc, value)?)),
        Kind::Floating => Ok(Row::Floating(FloatingRow::from_json(alloc, value)?)),
        Kind::Policy => Ok(Row::Policy(PolicyRow::from_json(alloc, value)?)),
    }
}

/// The row of a kind under a name, or none where the member is null.
fn read_row_if(
    alloc: Global,
    kind: Kind,
    object: &Value,
    name: &str,
) -> Result<Option<Row>, TextRefusal>
    ensures reads { (x : Option Row) → MayBeRowOf kind x →
        get name.now (view object.now) ≡ Some (tree_data (or_null row_tree x)) → Reads x result }
    ensures fits { IfOk result (MayBeRowOf kind) }
{
    let Some(value) = object.get(name) else {
        return Err(TextRefusal::BadText);
    };
    if value.is_null() {
        return Ok(None);
    }
    Ok(Some(read_row(alloc, kind, value)?))
}

impl ToJson for Item {
    ghost tree = { item_tree };

    fn to_json(&self, alloc: Global) -> Result<Value, OutOfMemory> {
        let mut map = Map::new(alloc);
        put(&mut map, alloc, "after", &self.after)?;
        put(&mut map, alloc, "before", &self.before)?;
        put(&mut map, alloc, "kind", &self.kind)?;
        put(&mut map, alloc, "place", &self.place)?;
        Ok(Value::Object(map))
    }
}

impl FromJson for Item {
    ghost fits = { IsItem };

    fn from_json(alloc: Global, value: &Value) -> Result<Item, TextRefusal> {
        let kind = read_member(alloc, value, "kind")?;
        Ok(Item {
            kind,
            place: read_member(alloc, value, "place")?,
            before: read_row_if(alloc, kind, value, "before")?,
            after: read_row_if(alloc, kind, value, "after")?,
        })
    }
}

impl ToJson for PageRow {
    ghost tree = { page_row_tree };

    fn to_json(&self, alloc: Global) -> Result<Value, OutOfMemory> {
        let mut map = Map::new(alloc);
        put(&mut map, alloc, "kind", &self.kind)?;
        put(&mut map, alloc, "row", &self.row)?;
        Ok(Value::Object(map))
    }
}

fn read_row_at(alloc: Global, kind: Kind, object: &Value, name: &str) -> Result<Row, TextRefusal>
    ensures reads { (x : Row) → IsRowOf kind x →
        get name.now (view object.now) ≡ Some (tree_data (row_tree x)) → Reads x result }
    ensures fits { IfOk result (IsRowOf kind) }
{
    match object.get(name) {
        Some(value) => read_row(alloc, kind, value),
        None => Err(TextRefusal::BadText),
    }
}

impl FromJson for PageRow {
    ghost fits = { IsPageRow };

    fn from_json(alloc: Global, value: &Value) -> Result<PageRow, TextRefusal> {
        let kind = read_member(alloc, value, "kind")?;
        let row = read_row_at(alloc, kind, value, "row")?;
        Ok(PageRow { kind, row })
    }
}
