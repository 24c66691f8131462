//! Values as printed values.

ghost use Rattle.std.specs.Prelude.{◌≡◌, ◌++◌, ◌∷◌, [], IfOk, OnOk, map};
ghost use Rattle.api_types.specs.Printed.{branches_of, items, member_of, object, tree_of, trees_of, word};

use api_types::{Fixed, Hop, Id, MemberName, Members, Pair, Printed};
use net_addr::{Addr, Addr4, Copies, Mac, OutOfMemory, Prefix, Seq, Span, Text};
use std::alloc::Global;

/// A value that is printed.
pub(crate) trait Printable {
    ghost use Rattle.api_types.specs.Printed.{Tree};

    ghost tree: { Self → Tree };

    fn printed(&self, alloc: Global) -> Result<Printed, OutOfMemory>
        ensures { IfOk result (λ p. tree_of p ≡ tree self.now) };
}

impl Printable for bool {
    ghost use Rattle.api_types.specs.Printed.{truth};

    ghost tree = { truth };

    fn printed(&self, _alloc: Global) -> Result<Printed, OutOfMemory> {
        Ok(Printed::Truth(*self))
    }
}

impl Printable for u16 {
    ghost use Rattle.api_types.specs.Printed.{number};

    ghost tree = { number };

    fn printed(&self, _alloc: Global) -> Result<Printed, OutOfMemory> {
        Ok(Printed::Number(u64::from(*self)))
    }
}

impl Printable for Text {
    ghost tree = { word };

    fn printed(&self, alloc: Global) -> Result<Printed, OutOfMemory> {
        Ok(Printed::Word(self.copy(alloc)?))
    }
}

impl Printable for Id {
    ghost use Rattle.api_policy.specs.Trees.{id_word};

    ghost tree = { id_word };

    fn printed(&self, _alloc: Global) -> Result<Printed, OutOfMemory> {
        Ok(Printed::Id(*self))
    }
}

impl Printable for Addr {
    ghost use Rattle.api_policy.specs.Trees.{address_word};

    ghost tree = { address_word };

    fn printed(&self, _alloc: Global) -> Result<Printed, OutOfMemory> {
        Ok(Printed::Address(*self))
    }
}

impl Printable for Addr4 {
    ghost use Rattle.api_policy.specs.Trees.{four_word};

    ghost tree = { four_word };

    fn printed(&self, _alloc: Global) -> Result<Printed, OutOfMemory> {
        Ok(Printed::Address(Addr::V4(*self)))
    }
}

impl Printable for Mac {
    ghost use Rattle.api_policy.specs.Trees.{mac_word};

    ghost tree = { mac_word };

    fn printed(&self, _alloc: Global) -> Result<Printed, OutOfMemory> {
        Ok(Printed::Mac(*self))
    }
}

impl Printable for Prefix {
    ghost use Rattle.api_policy.specs.Trees.{prefix_word};

    ghost tree = { prefix_word };

    fn printed(&self, _alloc: Global) -> Result<Printed, OutOfMemory> {
        Ok(Printed::Prefix(*self))
    }
}

impl<T: Printable> Printable for Option<T> {
    ghost use Rattle.api_policy.specs.Trees.{null_or};

    ghost tree = { null_or T.tree };

    fn printed(&self, alloc: Global) -> Result<Printed, OutOfMemory> {
        match self {
            None => Ok(Printed::Null),
            Some(value) => value.printed(alloc),
        }
    }
}

impl<T: Printable> Printable for Seq<T> {
    ghost use Rattle.api_policy.specs.Trees.{list_of};

    ghost tree = { list_of T.tree };

    fn printed(&self, alloc: Global) -> Result<Printed, OutOfMemory> {
        Ok(Printed::Items(printed_items(alloc, self.as_slice())?))
    }
}

fn printed_items<T: Printable>(alloc: Global, values: &[T]) -> Result<Vec<Printed>, OutOfMemory>
    ensures { IfOk result (λ v. map tree_of v.items ≡ map T.tree values.now) }
{
    let mut items = Vec::new(alloc);
    for value in values {
        items.push(value.printed(alloc)?)?;
    }
    Ok(items)
}

/// How many members a row has at most: those of a port.
const MOST: usize = 18;

/// No members yet, with room for those of a row.
pub(crate) fn no_members(alloc: Global) -> Result<Members, OutOfMemory>
    ensures { IfOk result (λ members. members ≡ []) }
{
    Ok(Seq::from_vec(Vec::with_capacity(alloc, MOST)?))
}

/// An object of members.
pub(crate) fn object_of(members: Members) -> Printed
    ensures { tree_of result ≡ object (branches_of (map member_of members)) }
{
    Printed::Object(members.into_vec())
}

// An object of two members.
fn printed_two<A: Printable, B: Printable>(
    alloc: Global,
    first: &'static str,
    a: &A,
    second: &'static str,
    b: &B,
) -> Result<Printed, OutOfMemory>
    ensures { IfOk result
        (λ p. tree_of p
        ≡ object (branches_of ((first.now, A.tree a.now) ∷ (second.now, B.tree b.now) ∷ []))) }
{
    let mut members = Seq::new(alloc);
    push(alloc, &mut members, first, a)?;
    push(alloc, &mut members, second, b)?;
    Ok(object_of(members))
}

impl Printable for Fixed {
    ghost use Rattle.api_policy.specs.Trees.{fixed_object};

    ghost tree = { fixed_object };

    fn printed(&self, alloc: Global) -> Result<Printed, OutOfMemory> {
        printed_two(
            alloc,
            "ip_address",
            &self.address,
            "subnet_id",
            &self.subnet,
        )
    }
}

impl Printable for Pair {
    ghost use Rattle.api_policy.specs.Trees.{pair_object};

    ghost tree = { pair_object };

    fn printed(&self, alloc: Global) -> Result<Printed, OutOfMemory> {
        printed_two(alloc, "ip_address", &self.prefix, "mac_address", &self.mac)
    }
}

impl Printable for Hop {
    ghost use Rattle.api_policy.specs.Trees.{route_object};

    ghost tree = { route_object };

    fn printed(&self, alloc: Global) -> Result<Printed, OutOfMemory> {
        printed_two(
            alloc,
            "destination",
            &self.destination,
            "nexthop",
            &self.next,
        )
    }
}

impl Printable for Span {
    ghost use Rattle.api_policy.specs.Trees.{span_object};

    ghost tree = { span_object };

    fn printed(&self, alloc: Global) -> Result<Printed, OutOfMemory> {
        printed_two(alloc, "end", &self.last, "start", &self.first)
    }
}

/// Adds a member with a printed value.
pub(crate) fn push_value(
    members: &mut Members,
    name: &'static str,
    value: Printed,
) -> Result<(), OutOfMemory>
    ensures { OnOk result
        (map member_of members.new ≡ map member_of members.old ++ (name.now, tree_of value) ∷ []) }
{
    members.push((MemberName::of(name), value))
}

/// Adds a member.
pub(crate) fn push<T: Printable>(
    alloc: Global,
    members: &mut Members,
    name: &'static str,
    value: &T,
) -> Result<(), OutOfMemory>
    ensures { OnOk result
        (map member_of members.new
        ≡ map member_of members.old ++ (name.now, T.tree value.now) ∷ []) }
{
    push_value(members, name, value.printed(alloc)?)
}

/// Adds a member that is one of a few words.
pub(crate) fn push_word(
    members: &mut Members,
    name: &'static str,
    value: &'static str,
) -> Result<(), OutOfMemory>
    ensures { OnOk result
        (map member_of members.new ≡ map member_of members.old ++ (name.now, word value.now) ∷ []) }
{
    push_value(members, name, Printed::Constant(value))
}
