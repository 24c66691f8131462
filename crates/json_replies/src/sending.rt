//! Shown rows as serde's data: members as they stand, with no tree of JSON's values between.
ghost use Rattle.std.specs.Prelude.{◌≡◌, ℕ, List, IfOk, Ok, OnOk, map};
ghost use Rattle.serde_json.specs.Data.{array, object, string};
ghost use Rattle.serde_json.specs.Events.{SendsValue};
ghost use Rattle.serde_json.specs.Written.{compact_text};
ghost use Rattle.api_types.specs.Ident.{ident_text};
ghost use Rattle.api_types.specs.Printed.{tree_of, trees_of, branches_of, member_of};
ghost use Rattle.json_trees.specs.Printed.{tree_data};
ghost use Rattle.json_replies.specs.Straight.{ascends, straight, straight_items, straight_members, trees_ascend};

use crate::ascending::members_ascend;
use crate::printed::Prints;
use crate::reply::{OneMember, text};
use api_types::{Id, MemberName, Printed, Shown};
use net_addr::{Bytes, OutOfMemory, Seq, Text};
use serde::{Described, Serialize, Serializer};
use std::alloc::Global;
use uuid::Uuid;

/// What is sent as it stands. The cost of both calls grows with what is printed.
pub(crate) trait Sends: Prints {
    /// Whether the names of each object in it ascend.
    fn ascends(&self) -> bool
        ensures { result ≡ ascends (Self.tree self.now) };

    /// Sends it, with the members of each object as they stand.
    fn send<S: Serializer>(&self, alloc: Global, out: &mut S) -> Result<(), S::Error>
        ensures { OnOk result
            (SendsValue (straight (Self.tree self.now)) (S.written out.old) (S.written out.new)) };
}

/// A value that is written as it stands.
#[derive(Drop)]
pub(crate) struct AsItStands<'a, T> {
    pub(crate) alloc: Global,
    pub(crate) value: &'a T,
}

impl<'a, T: Sends> Described for AsItStands<'a, T> {
    ghost writes = { λ a. SendsValue (straight (T.tree a.value.now)) };
}

impl<'a, T: Sends> Serialize for AsItStands<'a, T> {
    fn serialize<S: Serializer>(&self, out: &mut S) -> Result<(), S::Error> {
        self.value.send(self.alloc, out)
    }
}

// Sends an id from a buffer, so that it takes no memory.
#[tactic(auto, unfolding(api_types::specs::Ident::ident_text))]
fn send_id<S: Serializer>(id: Id, out: &mut S) -> Result<(), S::Error>
    ensures { OnOk result
        (SendsValue (string (ident_text id)) (S.written out.old) (S.written out.new)) }
{
    let mut buffer = Uuid::encode_buffer();
    out.str(id.uuid().hyphenated().encode_lower(&mut buffer))
}

// Sends a text that was just made.
fn send_text<S: Serializer>(text: Result<Text, OutOfMemory>, out: &mut S) -> Result<(), S::Error>
    ensures { OnOk result
        ((t : List ℕ) × (text ≡ Ok t)
        × SendsValue (string t) (S.written out.old) (S.written out.new)) }
{
    match text {
        Ok(text) => out.str(text.as_str()),
        Err(_) => Err(out.custom("out of memory")),
    }
}

#[cycle(send)]
fn send<S: Serializer>(alloc: Global, printed: &Printed, out: &mut S) -> Result<(), S::Error>
    ensures { OnOk result (SendsValue (straight (tree_of printed.now))
        (S.written out.old) (S.written out.new)) }
{
    match printed {
        Printed::Null => out.unit(),
        Printed::Truth(b) => out.bool(*b),
        Printed::Number(n) => out.u64(*n),
        Printed::Constant(word) => out.str(*word),
        Printed::Word(text) => out.str(text.as_str()),
        Printed::Id(id) => send_id(*id, out),
        Printed::Mac(mac) => send_text(mac.print(alloc), out),
        Printed::Address(address) => send_text(address.print(alloc), out),
        Printed::Prefix(prefix) => send_text(prefix.print(alloc), out),
        Printed::Items(items) => send_items(alloc, items.as_slice(), out),
        Printed::Object(members) => send_members(alloc, members.as_slice(), out),
    }
}

#[cycle(send)]
fn send_items<S: Serializer>(alloc: Global, items: &[Printed], out: &mut S) -> Result<(), S::Error>
    ensures { OnOk result
        (SendsValue (array (straight_items (trees_of (map tree_of items.now))))
        (S.written out.old) (S.written out.new)) }
{
    out.begin_seq(Some(items.len()))?;
    for item in items {
        send(alloc, item, out)?;
    }
    out.end_seq()
}

#[cycle(send)]
fn send_members<S: Serializer>(
    alloc: Global,
    members: &[(MemberName, Printed)],
    out: &mut S,
) -> Result<(), S::Error>
    ensures { OnOk result
        (SendsValue (object (straight_members (branches_of (map member_of members.now))))
        (S.written out.old) (S.written out.new)) }
{
    out.begin_map(Some(members.len()))?;
    for (name, member) in members {
        out.key(name.as_str())?;
        send(alloc, member, out)?;
    }
    out.end_map()
}

impl Sends for Shown {
    fn ascends(&self) -> bool {
        members_ascend(self.members.as_slice())
    }

    fn send<S: Serializer>(&self, alloc: Global, out: &mut S) -> Result<(), S::Error> {
        send_members(alloc, self.members.as_slice(), out)
    }
}

fn all_ascend<T: Sends>(values: &[T]) -> bool
    ensures { result ≡ trees_ascend (trees_of (map T.tree values.now)) }
{
    for value in values {
        if !value.ascends() {
            return false;
        }
    }
    true
}

fn send_all<T: Sends, S: Serializer>(
    alloc: Global,
    values: &[T],
    out: &mut S,
) -> Result<(), S::Error>
    ensures { OnOk result
        (SendsValue (array (straight_items (trees_of (map T.tree values.now))))
        (S.written out.old) (S.written out.new)) }
{
    out.begin_seq(Some(values.len()))?;
    for value in values {
        value.send(alloc, out)?;
    }
    out.end_seq()
}

impl<T: Sends> Sends for Seq<T> {
    fn ascends(&self) -> bool {
        all_ascend(self.as_slice())
    }

    fn send<S: Serializer>(&self, alloc: Global, out: &mut S) -> Result<(), S::Error> {
        send_all(alloc, self.as_slice(), out)
    }
}

impl<'a, T: Sends> Sends for OneMember<'a, T> {
    fn ascends(&self) -> bool {
        self.value.ascends()
    }

    fn send<S: Serializer>(&self, alloc: Global, out: &mut S) -> Result<(), S::Error> {
        out.begin_map(Some(1))?;
        out.key(self.name)?;
        self.value.send(alloc, out)?;
        out.end_map()
    }
}

/// A shown value as the text of a body: as it stands, if the names of each object ascend, as they
/// do in all rows.
pub(crate) fn write_shown<T: Sends>(alloc: Global, value: &T) -> Result<Bytes, OutOfMemory>
    ensures { IfOk result (λ b. b ≡ compact_text (tree_data (T.tree value.now))) }
{
    if !value.ascends() {
        return text(alloc, value);
    }
    match serde_json::to_vec(alloc, &AsItStands { alloc, value }) {
        Ok(bytes) => Ok(Bytes::from_vec(bytes)),
        Err(_) => Err(OutOfMemory),
    }
}
