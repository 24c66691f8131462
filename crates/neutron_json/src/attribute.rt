//! What is wrong with the members of an object.
ghost use Rattle.std.specs.Prelude.{◌≡◌, IfOk, map, option_map};
ghost use Rattle.serde_json.specs.Find.{as_object};
ghost use Rattle.serde_json.specs.View.{view, members_view};
ghost use Rattle.neutron_json.specs.Attributes.{attribute_of, is_read, takes_null, is_required, takes, attribute_named, is_good, first_bad, first_missing, bad_among, missing_in, first_wrong};

use json_values::{GrammarName, allows};
use net_addr::{OutOfMemory, Text};
use serde_json::{Map, Value};
use std::alloc::Global;

/// Which bodies read an attribute.
#[derive(Clone, Copy, Debug, PartialEq, Eq)]
pub(crate) enum ReadIn {
    Creation,
    Update,
    Both,
}

/// What may stand in an attribute's place.
#[derive(Clone, Copy, Debug, PartialEq, Eq)]
pub(crate) enum Needs {
    /// A value or nothing.
    Value,
    /// A value, null or nothing.
    ValueOrNull,
    /// A value at creation.
    Required,
    /// A value or null at creation.
    RequiredOrNull,
}

/// What a body is for.
#[derive(Clone, Copy, Debug, PartialEq, Eq)]
pub(crate) enum Edit {
    Create,
    Update,
}

/// An attribute: its name, how its value is written, which bodies read it and what it needs.
pub(crate) type Attribute = (&'static str, GrammarName, ReadIn, Needs);

fn is_read(edit: Edit, read_in: ReadIn) -> bool
    ensures { result ≡ is_read edit read_in }
{
    match (edit, read_in) {
        (Edit::Create, ReadIn::Creation | ReadIn::Both) => true,
        (Edit::Update, ReadIn::Update | ReadIn::Both) => true,
        _ => false,
    }
}

fn takes_null(needs: Needs) -> bool
    ensures { result ≡ takes_null needs }
{
    needs == Needs::ValueOrNull || needs == Needs::RequiredOrNull
}

fn is_required(needs: Needs) -> bool
    ensures { result ≡ is_required needs }
{
    needs == Needs::Required || needs == Needs::RequiredOrNull
}

// Whether a value is allowed by itself.
fn takes(alloc: Global, attribute: &Attribute, value: &Value) -> Result<bool, OutOfMemory>
    ensures { IfOk result (λ b. b ≡ takes (attribute_of attribute.now) (view value.now)) }
{
    if takes_null(attribute.3) && value.is_null() {
        return Ok(true);
    }
    allows(alloc, attribute.1, value)
}

// The attribute of a name.
fn attribute_named<'a>(attributes: &'a [Attribute], name: &str) -> Option<&'a Attribute>
    ensures { option_map (λ a. attribute_of a.now) result
        ≡ attribute_named name.now (map attribute_of attributes.now) }
{
    for attribute in attributes {
        if attribute.0 == name {
            return Some(attribute);
        }
    }
    None
}

// Whether a member is an attribute that is read, with a value that is allowed by itself.
fn is_good(
    alloc: Global,
    edit: Edit,
    attributes: &[Attribute],
    name: &str,
    value: &Value,
) -> Result<bool, OutOfMemory>
    ensures { IfOk result
        (λ b. b ≡ is_good edit (map attribute_of attributes.now) name.now (view value.now)) }
{
    match attribute_named(attributes, name) {
        Some(attribute) if is_read(edit, attribute.2) => takes(alloc, attribute, value),
        _ => Ok(false),
    }
}

// The name of the first bad member, in byte order.
fn first_bad(
    alloc: Global,
    edit: Edit,
    attributes: &[Attribute],
    object: &Map<String, Value>,
) -> Result<Option<Text>, OutOfMemory>
    ensures { IfOk result
        (λ o. o
        ≡ first_bad edit (map attribute_of attributes.now) (members_view object.now.entries)) }
{
    for (name, value) in object {
        if !is_good(alloc, edit, attributes, name.as_str(), value)? {
            return Ok(Some(Text::of(alloc, name.as_str())?));
        }
    }
    Ok(None)
}

// The name of the first attribute that has to be there and is missing.
fn first_missing(attributes: &[Attribute], object: &Value) -> Option<&'static str>
    ensures { option_map (λ s. s.now) result
        ≡ first_missing (map attribute_of attributes.now) (view object.now) }
{
    for attribute in attributes {
        if is_required(attribute.3) && object.get(attribute.0).is_none() {
            return Some(attribute.0);
        }
    }
    None
}

// The same of a body: an update may leave all out.
fn missing_in(
    alloc: Global,
    edit: Edit,
    attributes: &[Attribute],
    object: &Value,
) -> Result<Option<Text>, OutOfMemory>
    ensures { IfOk result
        (λ o. o ≡ missing_in edit (map attribute_of attributes.now) (view object.now)) }
{
    if edit == Edit::Update {
        return Ok(None);
    }
    match first_missing(attributes, object) {
        None => Ok(None),
        Some(name) => Ok(Some(Text::of(alloc, name)?)),
    }
}

// The name of the first bad member of an object.
fn bad_among(
    alloc: Global,
    edit: Edit,
    attributes: &[Attribute],
    object: &Value,
) -> Result<Option<Text>, OutOfMemory>
    ensures { IfOk result
        (λ o. o ≡ bad_among edit (map attribute_of attributes.now) (as_object (view object.now))) }
{
    match object.as_object() {
        None => Ok(None),
        Some(members) => first_bad(alloc, edit, attributes, members),
    }
}

/// The attribute that is wrong: the first in byte order that is unknown, isn't read or isn't
/// allowed, otherwise, at creation, the first that is missing. The cost grows with the object.
pub(crate) fn first_wrong(
    alloc: Global,
    edit: Edit,
    attributes: &[Attribute],
    object: &Value,
) -> Result<Option<Text>, OutOfMemory>
    ensures { IfOk result
        (λ o. o ≡ first_wrong edit (map attribute_of attributes.now) (view object.now)) }
{
    match bad_among(alloc, edit, attributes, object)? {
        Some(name) => Ok(Some(name)),
        None => missing_in(alloc, edit, attributes, object),
    }
}
