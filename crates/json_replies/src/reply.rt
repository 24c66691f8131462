//! The body of each reply.
ghost use Rattle.std.specs.Prelude.{◌≡◌, IfOk, codes};
ghost use Rattle.serde_json.specs.Written.{compact_text};
ghost use Rattle.api_types.specs.Printed.{shown_row, reply_of};
ghost use Rattle.api_types.specs.Titles.{resource_of, collection_of};
ghost use Rattle.json_trees.specs.Printed.{only, tree_data, body_text};
ghost use Rattle.wire_text.specs.Told.{numbered_change_tree, page_tree, version_tree};
ghost use Rattle.json_replies.specs.Bodies.{row_tree, answer_tree, host_tree, lab_tree, words_tree, fault_tree, handled_tree, body_of};

use crate::frame::put;
use crate::printed::{Prints, members_of};
use crate::sending::{Sends, write_shown};
use api_types::{Answer, Change, PageRows, Refusal, Shown};
use net_addr::{Bytes, Names, OutOfMemory};
use neutron_http::{Fault, fault_of};
use plane_types::{HostState, LabAnswer, Reply, Verdict};
use serde_json::{Map, Value};
use std::alloc::Global;

impl Prints for Shown {
    ghost tree = { λ s. row_tree (shown_row s) };

    fn value(&self, alloc: Global) -> Result<Value, OutOfMemory> {
        Ok(Value::Object(members_of(alloc, self.members.as_slice())?))
    }
}

impl Prints for HostState {
    ghost tree = { host_tree };

    fn value(&self, alloc: Global) -> Result<Value, OutOfMemory> {
        let mut map = Map::new(alloc);
        put(&mut map, alloc, "held", &self.held)?;
        put(&mut map, alloc, "name", &self.name)?;
        Ok(Value::Object(map))
    }
}

/// A value as the text of a body.
pub(crate) fn text<T: Prints>(alloc: Global, value: &T) -> Result<Bytes, OutOfMemory>
    ensures { IfOk result (λ b. b ≡ compact_text (tree_data (T.tree value.now))) }
{
    Ok(Bytes::from_vec(value.value(alloc)?.to_vec(alloc)?))
}

/// A body with one member.
#[derive(Drop)]
pub(crate) struct OneMember<'a, T> {
    pub(crate) name: &'static str,
    pub(crate) value: &'a T,
}

impl<'a, T: Prints> Prints for OneMember<'a, T> {
    ghost tree = { λ o. only o.name.now (T.tree o.value.now) };

    fn value(&self, alloc: Global) -> Result<Value, OutOfMemory> {
        let mut map = Map::new(alloc);
        put(&mut map, alloc, self.name, self.value)?;
        Ok(Value::Object(map))
    }
}

// The text of a body with one member.
fn only<T: Prints>(alloc: Global, name: &'static str, value: &T) -> Result<Bytes, OutOfMemory>
    ensures { IfOk result (λ b. b ≡ compact_text (tree_data (only name.now (T.tree value.now)))) }
{
    text(alloc, &OneMember { name, value })
}

// The text of a body whose one member is shown.
fn show<T: Sends>(alloc: Global, name: &'static str, value: &T) -> Result<Bytes, OutOfMemory>
    ensures { IfOk result (λ b. b ≡ compact_text (tree_data (only name.now (T.tree value.now)))) }
{
    write_shown(alloc, &OneMember { name, value })
}

// The body of an answer.
fn answered(alloc: Global, answer: &Answer) -> Result<Bytes, OutOfMemory>
    ensures { IfOk result (λ b. b ≡ body_text (answer_tree (reply_of answer.now))) }
{
    match answer {
        Answer::One(row) => show(alloc, row.kind.resource(), row),
        Answer::Many { kind, rows } => show(alloc, kind.collection(), rows),
        Answer::Created(row) => show(alloc, row.kind.resource(), row),
        Answer::Gone => Ok(Bytes::from_vec(Vec::new(alloc))),
        Answer::Interface(row) => write_shown(alloc, row),
    }
}

// The numbers of the kept changes.
#[derive(Drop)]
struct KeptNumbers {
    first: u64,
    last: u64,
}

impl Prints for KeptNumbers {
    ghost tree = { λ k. version_tree k.first k.last };

    fn value(&self, alloc: Global) -> Result<Value, OutOfMemory> {
        let mut map = Map::new(alloc);
        put(&mut map, alloc, "first", &self.first)?;
        put(&mut map, alloc, "last", &self.last)?;
        Ok(Value::Object(map))
    }
}

// A kept change under its number.
#[derive(Drop)]
struct NumberedChange<'a> {
    number: u64,
    items: &'a Change,
}

impl<'a> Prints for NumberedChange<'a> {
    ghost tree = { λ c. numbered_change_tree c.number c.items.now };

    fn value(&self, alloc: Global) -> Result<Value, OutOfMemory> {
        let mut map = Map::new(alloc);
        wire_text::put(&mut map, alloc, "items", self.items)?;
        put(&mut map, alloc, "number", &self.number)?;
        Ok(Value::Object(map))
    }
}

// A page of the rows at a version.
#[derive(Drop)]
struct NumberedPage<'a> {
    version: u64,
    number: u64,
    last: bool,
    rows: &'a PageRows,
}

impl<'a> Prints for NumberedPage<'a> {
    ghost tree = { λ p. page_tree p.version p.number p.last p.rows.now };

    fn value(&self, alloc: Global) -> Result<Value, OutOfMemory> {
        let mut map = Map::new(alloc);
        put(&mut map, alloc, "last", &self.last)?;
        put(&mut map, alloc, "number", &self.number)?;
        wire_text::put(&mut map, alloc, "rows", self.rows)?;
        put(&mut map, alloc, "version", &self.version)?;
        Ok(Value::Object(map))
    }
}

fn print_version(alloc: Global, first: u64, last: u64) -> Result<Bytes, OutOfMemory>
    ensures { IfOk result
        (λ b. b ≡ compact_text (tree_data (only (codes "version") (version_tree first last)))) }
{
    only(alloc, "version", &KeptNumbers { first, last })
}

// The body of an answer of the lab.
fn seen(alloc: Global, answer: &LabAnswer) -> Result<Bytes, OutOfMemory>
    ensures { IfOk result (λ b. b ≡ compact_text (tree_data (lab_tree answer.now))) }
{
    match answer {
        LabAnswer::Seen(verdict) => only(alloc, "verdict", verdict),
        LabAnswer::Told(heard) => only(alloc, "heard", heard),
        LabAnswer::Hosts(hosts) => only(alloc, "hosts", hosts),
        LabAnswer::Tables(tables) => only(alloc, "tables", tables),
        LabAnswer::Version { first, last } => print_version(alloc, *first, *last),
        LabAnswer::Change { number, items } => {
            let number = *number;
            only(alloc, "change", &NumberedChange { number, items })
        }
        LabAnswer::Page {
            version,
            number,
            last,
            rows,
        } => {
            let page = NumberedPage {
                version: *version,
                number: *number,
                last: *last,
                rows,
            };
            only(alloc, "page", &page)
        }
    }
}

impl Prints for Fault {
    ghost tree = { λ f. words_tree f.kind f.message };

    fn value(&self, alloc: Global) -> Result<Value, OutOfMemory> {
        let mut map = Map::new(alloc);
        put(&mut map, alloc, "detail", &"")?;
        put(&mut map, alloc, "message", &self.message)?;
        put(&mut map, alloc, "type", &self.kind)?;
        Ok(Value::Object(map))
    }
}

// The body of a refusal.
fn refused(alloc: Global, refusal: &Refusal) -> Result<Bytes, OutOfMemory>
    ensures { IfOk result (λ b. b ≡ compact_text (tree_data (fault_tree refusal.now))) }
{
    let fault = fault_of(alloc, refusal)?;
    only(alloc, "NeutronError", &fault)
}

/// The body of a reply: JSON without spaces (RFC 8259), the members of each object in byte order of
/// their names. A deletion has none. The cost grows with what is printed.
pub fn write_reply(alloc: Global, reply: &Reply) -> Result<Bytes, OutOfMemory>
    ensures { IfOk result (λ b. b ≡ body_of reply.now) }
{
    match reply {
        Reply::Done(answer) => answered(alloc, answer),
        Reply::LabDone(answer) => seen(alloc, answer),
        Reply::Refused(refusal) => refused(alloc, refusal),
    }
}

// A verdict, and the hosts that handled its event.
#[derive(Drop)]
struct HandledVerdict<'a> {
    hosts: &'a Names,
    verdict: &'a Verdict,
}

impl<'a> Prints for HandledVerdict<'a> {
    ghost tree = { λ h. handled_tree h.hosts.now h.verdict.now };

    fn value(&self, alloc: Global) -> Result<Value, OutOfMemory> {
        let mut map = Map::new(alloc);
        put(&mut map, alloc, "hosts", self.hosts)?;
        put(&mut map, alloc, "verdict", self.verdict)?;
        Ok(Value::Object(map))
    }
}

/// A verdict with the names of the hosts that handled its event, as one object. Its cost grows with
/// what is printed.
pub fn write_handled(alloc: Global, hosts: &Names, verdict: &Verdict) -> Result<Bytes, OutOfMemory>
    ensures { IfOk result (λ b. b ≡ compact_text (tree_data (handled_tree hosts.now verdict.now))) }
{
    text(alloc, &HandledVerdict { hosts, verdict })
}
