//! How bodies are read: the frame first, then the attributes.
ghost use Rattle.std.specs.Prelude.{◌≡◌, IfOk, Some};
ghost use Rattle.serde_json.specs.View.{view};
ghost use Rattle.neutron_http.specs.declared.query.BodyRefusal.TheVariants.{BadBody};
ghost use Rattle.json_values.specs.Values.{member_of};
ghost use Rattle.json_values.specs.Items.{id_of};
ghost use Rattle.neutron_json.specs.Attributes.{first_wrong};
ghost use Rattle.neutron_json.specs.Tables.{interface_attributes};
ghost use Rattle.neutron_json.specs.declared.attribute.Edit.TheVariants.{Create};
ghost use Rattle.neutron_json.specs.Bodies.{checked, member_read, interface_by, interface_read, one_of, Answers};

use crate::attribute::{Attribute, Edit, first_wrong};
use crate::event::member;
use crate::frame::{as_whole, framed, json_of};
use crate::table::interface_attributes;
use api_types::{Id, InterfaceBy};
use json_values::RowId;
use net_addr::{OutOfMemory, Text};
use neutron_http::BodyRefusal;
use plane_types::Ask;
use serde_json::Value;
use std::alloc::Global;

/// What the object of a body asks.
pub(crate) trait Body {
    ghost use Rattle.std.specs.Prelude.{◌≡◌, IfOk, List, Option, map};
    ghost use Rattle.serde_json.specs.Data.{Data};
    ghost use Rattle.serde_json.specs.View.{view};
    ghost use Rattle.plane_types.specs.declared.ask.Ask.{Ask as TheAsk};
    ghost use Rattle.neutron_json.specs.Attributes.{Attribute as TheAttribute, attribute_of};

    ghost attributes: { Self → Data → List TheAttribute };

    ghost says: { Self → Data → Option TheAsk };

    /// The attributes that the object may have, in byte order of their names.
    fn attributes(&self, object: &Value) -> &'static [Attribute]
        ensures { map attribute_of result.now ≡ attributes self.now (view object.now) };

    /// What the object asks, where nothing is wrong with its attributes. The cost grows with it.
    fn ask(&self, alloc: Global, object: &Value) -> Result<Option<Ask>, OutOfMemory>
        ensures { IfOk result (λ o. o ≡ says self.now (view object.now)) };
}

// The refusal of a body that has another frame.
fn no_frame(alloc: Global, name: &str) -> Result<BodyRefusal, OutOfMemory>
    ensures { IfOk result (λ e. e ≡ BadBody (Some name.now)) }
{
    Ok(BodyRefusal::BadBody {
        member: Some(Text::of(alloc, name)?),
    })
}

// What the object of a body asks, if nothing is wrong with it.
fn checked<B: Body>(
    alloc: Global,
    body: &B,
    edit: Edit,
    name: &str,
    object: &Value,
) -> Result<Ask, BodyRefusal>
    ensures { Answers result
        (checked (Some name.now) (B.says body.now (view object.now))
        (first_wrong edit (B.attributes body.now (view object.now)) (view object.now))) }
{
    if let Some(name) = first_wrong(alloc, edit, body.attributes(object), object)? {
        return Err(BodyRefusal::BadAttribute { name });
    }
    match body.ask(alloc, object)? {
        Some(ask) => Ok(ask),
        None => Err(no_frame(alloc, name)?),
    }
}

/// What a body asks that is an object with the one member of this name. The cost grows with the
/// text.
pub(crate) fn read_member<B: Body>(
    alloc: Global,
    body: &B,
    edit: Edit,
    name: &str,
    text: &[u8],
) -> Result<Ask, BodyRefusal>
    ensures { Answers result
        (member_read edit name.now (B.attributes body.now) (B.says body.now) text.now) }
{
    let Some(json) = json_of(alloc, text)? else {
        return Err(no_frame(alloc, name)?);
    };
    match framed(&json, name) {
        Some(object) => checked(alloc, body, edit, name, object),
        None => Err(no_frame(alloc, name)?),
    }
}

// Exactly one of the two names the interface.
fn one_of(alloc: Global, subnet: Option<Id>, port: Option<Id>) -> Result<InterfaceBy, BodyRefusal>
    ensures { Answers result (one_of subnet port) }
{
    match (subnet, port) {
        (None, Some(port)) => Ok(InterfaceBy::Port(port)),
        (Some(subnet), None) => Ok(InterfaceBy::Subnet(subnet)),
        _ => Err(BodyRefusal::BadAttribute {
            name: Text::of(alloc, "port_id")?,
        }),
    }
}

// The interface that an object names.
fn interface_by(alloc: Global, object: &Value) -> Result<InterfaceBy, BodyRefusal>
    ensures { Answers result
        (interface_by (view object.now)
        (first_wrong Create interface_attributes (view object.now))) }
{
    let attributes = interface_attributes();
    if let Some(name) = first_wrong(alloc, Edit::Create, attributes, object)? {
        return Err(BodyRefusal::BadAttribute { name });
    }
    let subnet = member::<RowId>(alloc, object, "subnet_id")?;
    let port = member::<RowId>(alloc, object, "port_id")?;
    one_of(alloc, subnet, port)
}

/// The interface that a body names, a plain object. The cost grows with the text.
pub(crate) fn read_interface(alloc: Global, text: &[u8]) -> Result<InterfaceBy, BodyRefusal>
    ensures { Answers result (interface_read text.now) }
{
    let Some(json) = json_of(alloc, text)? else {
        return Err(BodyRefusal::BadBody { member: None });
    };
    match as_whole(&json) {
        Some(object) => interface_by(alloc, object),
        None => Err(BodyRefusal::BadBody { member: None }),
    }
}
