//! The bodies of a server's replies, as JSON.
ghost use Rattle.std.specs.Prelude.{◌≡◌, ◌^◌, ◌<◌, IfOk, IsUtf8, List, None, OnErr, Some, codes};
ghost use Rattle.serde_json.specs.Data.{no_members};
ghost use Rattle.serde_json.specs.Find.{get};
ghost use Rattle.serde_json.specs.View.{members_view, view};
ghost use Rattle.api_types.specs.Lists.{Each};
ghost use Rattle.api_types.specs.Printed.{NamedTree};
ghost use Rattle.json_trees.specs.Printed.{fields, members_data, only, tree_data};
ghost use Rattle.wire_text.specs.Texts.{IsItem, IsPageRow};
ghost use Rattle.wire_text.specs.Told.{version_tree};
ghost use Rattle.wire_replies.specs.ReplyTexts.{change_body_tree, fault_tree, page_body_tree};

use api_types::{Change, PageRows};
use net_addr::{OutOfMemory, Text};
use serde_json::{Map, Value};
use std::alloc::Global;
use wire_text::{FromJson, TextRefusal, ToJson, put, read_member};

/// The value of an object with one member, which is an object with these.
fn one_member(alloc: Global, name: &str, members: Map<String, Value>) -> Result<Value, OutOfMemory>
    ensures { (ms : List NamedTree) → members_view members.entries ≡ members_data ms no_members
        → IfOk result (λ v. view v ≡ tree_data (only name.now (fields ms))) }
{
    let mut map = Map::new(alloc);
    serde_json::put(&mut map, alloc, name, Value::Object(members))?;
    Ok(Value::Object(map))
}

/// The member with this name.
fn member<'v>(value: &'v Value, name: &str) -> Result<&'v Value, TextRefusal>
    ensures ok { IfOk result (λ v. get name.now (view value.now) ≡ Some (view v.now)) }
    ensures err { OnErr result (get name.now (view value.now) ≡ None) }
{
    match value.get(name) {
        Some(value) => Ok(value),
        None => Err(TextRefusal::BadText),
    }
}

#[derive(Drop)]
pub(crate) struct VersionBody {
    pub(crate) first: u64,
    pub(crate) last: u64,
}

impl ToJson for VersionBody {
    ghost tree = { λ b. only (codes "version") (version_tree b.first b.last) };

    fn to_json(&self, alloc: Global) -> Result<Value, OutOfMemory> {
        let mut map = Map::new(alloc);
        put(&mut map, alloc, "first", &self.first)?;
        put(&mut map, alloc, "last", &self.last)?;
        one_member(alloc, "version", map)
    }
}

impl FromJson for VersionBody {
    ghost fits = { λ b. (b.first < 2 ^ 64) × (b.last < 2 ^ 64) };

    fn from_json(alloc: Global, value: &Value) -> Result<VersionBody, TextRefusal> {
        let version = member(value, "version")?;
        let first = read_member(alloc, version, "first")?;
        let last = read_member(alloc, version, "last")?;
        Ok(VersionBody { first, last })
    }
}

#[derive(Drop)]
pub(crate) struct ChangeBody {
    pub(crate) items: Change,
    pub(crate) number: u64,
}

impl ToJson for ChangeBody {
    ghost tree = { λ b. change_body_tree b.number b.items };

    fn to_json(&self, alloc: Global) -> Result<Value, OutOfMemory> {
        let mut map = Map::new(alloc);
        put(&mut map, alloc, "items", &self.items)?;
        put(&mut map, alloc, "number", &self.number)?;
        one_member(alloc, "change", map)
    }
}

impl FromJson for ChangeBody {
    ghost fits = { λ b. (b.number < 2 ^ 64) × Each IsItem b.items };

    fn from_json(alloc: Global, value: &Value) -> Result<ChangeBody, TextRefusal> {
        let change = member(value, "change")?;
        let items = read_member(alloc, change, "items")?;
        let number = read_member(alloc, change, "number")?;
        Ok(ChangeBody { items, number })
    }
}

#[derive(Drop)]
pub(crate) struct PageBody {
    pub(crate) last: bool,
    pub(crate) number: u64,
    pub(crate) rows: PageRows,
    pub(crate) version: u64,
}

impl ToJson for PageBody {
    ghost tree = { λ b. page_body_tree b.version b.number b.last b.rows };

    fn to_json(&self, alloc: Global) -> Result<Value, OutOfMemory> {
        let mut map = Map::new(alloc);
        put(&mut map, alloc, "last", &self.last)?;
        put(&mut map, alloc, "number", &self.number)?;
        put(&mut map, alloc, "rows", &self.rows)?;
        put(&mut map, alloc, "version", &self.version)?;
        one_member(alloc, "page", map)
    }
}

impl FromJson for PageBody {
    ghost fits = { λ b. (b.version < 2 ^ 64) × (b.number < 2 ^ 64) × Each IsPageRow b.rows };

    fn from_json(alloc: Global, value: &Value) -> Result<PageBody, TextRefusal> {
        let page = member(value, "page")?;
        let last = read_member(alloc, page, "last")?;
        let number = read_member(alloc, page, "number")?;
        let rows = read_member(alloc, page, "rows")?;
        let version = read_member(alloc, page, "version")?;
        Ok(PageBody {
            last,
            number,
            rows,
            version,
        })
    }
}

#[derive(Drop)]
pub(crate) struct FaultBody {
    pub(crate) detail: Text,
    pub(crate) message: Text,
    pub(crate) kind: Text,
}

impl ToJson for FaultBody {
    ghost tree = { λ b. fault_tree b.detail b.message b.kind };

    fn to_json(&self, alloc: Global) -> Result<Value, OutOfMemory> {
        let mut map = Map::new(alloc);
        put(&mut map, alloc, "detail", &self.detail)?;
        put(&mut map, alloc, "message", &self.message)?;
        put(&mut map, alloc, "type", &self.kind)?;
        one_member(alloc, "NeutronError", map)
    }
}

impl FromJson for FaultBody {
    ghost fits = { λ b. IsUtf8 b.detail × IsUtf8 b.message × IsUtf8 b.kind };

    fn from_json(alloc: Global, value: &Value) -> Result<FaultBody, TextRefusal> {
        let fault = member(value, "NeutronError")?;
        let detail = read_member(alloc, fault, "detail")?;
        let message = read_member(alloc, fault, "message")?;
        let kind = read_member(alloc, fault, "type")?;
        Ok(FaultBody {
            detail,
            message,
            kind,
        })
    }
}
