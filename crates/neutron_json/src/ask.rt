//! What a request asks.
ghost use Rattle.std.specs.Prelude.{◌≡◌, IfOk, List, [], Option, Some, option_map, codes};
ghost use Rattle.serde_json.specs.View.{view};
ghost use Rattle.plane_types.specs.declared.ask.Ask.TheVariants.{Lab};
ghost use Rattle.plane_types.specs.declared.ask.LabCall.TheVariants.{Settle};
ghost use Rattle.api_types.specs.Titles.{resource_of};
ghost use Rattle.neutron_json.specs.Tables.{attributes_of, host_attributes, deliver_attributes};
ghost use Rattle.neutron_json.specs.Forms.{form_of};
ghost use Rattle.neutron_json.specs.Events.{event_attributes, event_of, host_of, deliver_of};
ghost use Rattle.neutron_json.specs.Bodies.{Answers, interface_read};
ghost use Rattle.neutron_json.specs.Calls.{event_call, host_call, host_word};
ghost use Rattle.neutron_json.specs.Asks.{row_named, creation, update, on_event, on_host, mapped, adding, removing, creation_read, update_read, event_read, host_read, deliver_read, settle_read, rows_read, row_read, ask_of};

use crate::attribute::{Attribute, Edit};
use crate::body::{Body, read_interface, read_member};
use crate::copy::{first_text, query_copy, row_named};
use crate::event::{deliver_of, event_of, host_of};
use crate::form::form_of;
use crate::number::{ask_change, ask_page};
use crate::table::{
    attributes, deliver_attributes, host_attributes, port_event_attributes, wire_event_attributes,
};
use api_types::{Call, Kind, Query};
use net_addr::{Copies, OutOfMemory};
use neutron_http::{BodyRefusal, Method, Route, RoutePath};
use plane_types::{Ask, LabCall};
use serde_json::Value;
use std::alloc::Global;

// The creation of a row of a kind.
#[derive(Clone, Copy)]
struct Creation {
    kind: Kind,
}

impl Body for Creation {
    ghost attributes = { λ c d. attributes_of c.kind };

    ghost says = { λ c d. option_map creation (form_of c.kind d) };

    fn attributes(&self, _object: &Value) -> &'static [Attribute] {
        attributes(self.kind)
    }

    fn ask(&self, alloc: Global, object: &Value) -> Result<Option<Ask>, OutOfMemory> {
        match form_of(alloc, self.kind, object)? {
            None => Ok(None),
            Some(form) => Ok(Some(Ask::Api(Call::Create { form }))),
        }
    }
}

// The update of the row of a kind that a path names.
#[derive(Clone, Copy)]
struct Update<'r> {
    kind: Kind,
    route: &'r Route,
}

impl<'r> Body for Update<'r> {
    ghost attributes = { λ u d. attributes_of u.kind };

    ghost says = { λ u d. option_map (update (row_named u.route.now)) (form_of u.kind d) };

    fn attributes(&self, _object: &Value) -> &'static [Attribute] {
        attributes(self.kind)
    }

    fn ask(&self, alloc: Global, object: &Value) -> Result<Option<Ask>, OutOfMemory> {
        let name = row_named(alloc, self.route)?;
        match form_of(alloc, self.kind, object)? {
            None => Ok(None),
            Some(form) => Ok(Some(Ask::Api(Call::Update { name, form }))),
        }
    }
}

/// What is asked of an event.
#[derive(Clone, Copy)]
enum EventCall {
    Frames,
    Explain,
}

impl Body for EventCall {
    ghost attributes = { λ c d. event_attributes d };

    ghost says = { λ c d. option_map (on_event (event_call c)) (event_of d) };

    fn attributes(&self, object: &Value) -> &'static [Attribute] {
        if object.get("port").is_some() {
            port_event_attributes()
        } else {
            wire_event_attributes()
        }
    }

    fn ask(&self, alloc: Global, object: &Value) -> Result<Option<Ask>, OutOfMemory> {
        let Some(event) = event_of(alloc, object)? else {
            return Ok(None);
        };
        match self {
            EventCall::Frames => Ok(Some(Ask::Lab(LabCall::Frames(event)))),
            EventCall::Explain => Ok(Some(Ask::Lab(LabCall::Explain(event)))),
        }
    }
}

/// What is asked of a host.
#[derive(Clone, Copy)]
enum HostCall {
    Resync,
    Restart,
    Forget,
}

impl HostCall {
    // The member that names the host.
    fn word(self) -> &'static str
        ensures { result.now ≡ host_word self }
    {
        match self {
            HostCall::Resync => "resync",
            HostCall::Restart => "restart",
            HostCall::Forget => "forget",
        }
    }
}

impl Body for HostCall {
    ghost attributes = { λ c d. host_attributes };

    ghost says = { λ c d. option_map (on_host (host_call c)) (host_of d) };

    fn attributes(&self, _object: &Value) -> &'static [Attribute] {
        host_attributes()
    }

    fn ask(&self, alloc: Global, object: &Value) -> Result<Option<Ask>, OutOfMemory> {
        let Some(host) = host_of(alloc, object)? else {
            return Ok(None);
        };
        match self {
            HostCall::Resync => Ok(Some(Ask::Lab(LabCall::Resync(host)))),
            HostCall::Restart => Ok(Some(Ask::Lab(LabCall::Restart(host)))),
            HostCall::Forget => Ok(Some(Ask::Lab(LabCall::Forget(host)))),
        }
    }
}

// The delivery of a change to a host.
#[derive(Clone, Copy)]
struct Delivery;

impl Body for Delivery {
    ghost attributes = { λ c d. deliver_attributes };

    ghost says = { λ c d. option_map Lab (deliver_of d) };

    fn attributes(&self, _object: &Value) -> &'static [Attribute] {
        deliver_attributes()
    }

    fn ask(&self, alloc: Global, object: &Value) -> Result<Option<Ask>, OutOfMemory> {
        match deliver_of(alloc, object)? {
            None => Ok(None),
            Some(call) => Ok(Some(Ask::Lab(call))),
        }
    }
}

// The current rows for each host that lacks them.
#[derive(Clone, Copy)]
struct Settling;

impl Body for Settling {
    ghost attributes = { λ c d. [] };

    ghost says = { λ c d. Some (Lab Settle) };

    fn attributes(&self, _object: &Value) -> &'static [Attribute] {
        &[]
    }

    fn ask(&self, _alloc: Global, _object: &Value) -> Result<Option<Ask>, OutOfMemory> {
        Ok(Some(Ask::Lab(LabCall::Settle)))
    }
}

// What is asked of all rows of a kind.
fn ask_rows(
    alloc: Global,
    kind: Kind,
    route: &Route,
    query: &Query,
    body: &[u8],
) -> Result<Ask, BodyRefusal>
    ensures { Answers result (rows_read kind route.now.method query.now body.now) }
{
    match route.method {
        Method::Get => Ok(Ask::Api(Call::List {
            kind,
            query: query_copy(alloc, query)?,
        })),
        _ => read_member(
            alloc,
            &Creation { kind },
            Edit::Create,
            kind.resource(),
            body,
        ),
    }
}

// What is asked of one row of a kind.
fn ask_row(
    alloc: Global,
    kind: Kind,
    route: &Route,
    query: &Query,
    body: &[u8],
) -> Result<Ask, BodyRefusal>
    ensures { Answers result
        (row_read kind route.now.method (row_named route.now) query.now body.now) }
{
    match route.method {
        Method::Get => {
            let name = row_named(alloc, route)?;
            let fields = query.fields.copy(alloc)?;
            Ok(Ask::Api(Call::Show { kind, name, fields }))
        }
        Method::Delete => {
            let name = row_named(alloc, route)?;
            Ok(Ask::Api(Call::Delete { kind, name }))
        }
        _ => read_member(
            alloc,
            &Update { kind, route },
            Edit::Update,
            kind.resource(),
            body,
        ),
    }
}

// What is asked of an interface of a router.
fn ask_adding(alloc: Global, route: &Route, body: &[u8]) -> Result<Ask, BodyRefusal>
    ensures { Answers result (mapped (adding (row_named route.now)) (interface_read body.now)) }
{
    let by = read_interface(alloc, body)?;
    let router = row_named(alloc, route)?;
    Ok(Ask::Api(Call::AddInterface { router, by }))
}

fn ask_removing(alloc: Global, route: &Route, body: &[u8]) -> Result<Ask, BodyRefusal>
    ensures { Answers result (mapped (removing (row_named route.now)) (interface_read body.now)) }
{
    let by = read_interface(alloc, body)?;
    let router = row_named(alloc, route)?;
    Ok(Ask::Api(Call::RemoveInterface { router, by }))
}

// What is asked of an event.
fn ask_event(alloc: Global, call: EventCall, body: &[u8]) -> Result<Ask, BodyRefusal>
    ensures { Answers result (event_read (event_call call) body.now) }
{
    read_member(alloc, &call, Edit::Create, "event", body)
}

// What is asked of a host.
fn ask_host(alloc: Global, call: HostCall, body: &[u8]) -> Result<Ask, BodyRefusal>
    ensures { Answers result (host_read (host_word call) (host_call call) body.now) }
{
    read_member(alloc, &call, Edit::Create, call.word(), body)
}

/// What a request asks, by its route, its query and its body.
///
/// A list, a row that is shown and a deletion look at no body. Any other body has to be JSON
/// (RFC 8259) in UTF-8 with the frame of its call: an object with the one member of the route,
/// whose value is an object, or for an interface of a router a plain object. Otherwise it is
/// refused with `BadBody` and the name of that member, if any. Then `BadAttribute` names the first
/// attribute in byte order that is unknown, isn't read by this call or has no allowed value;
/// otherwise, at creation and in the lab, the first one in byte order that has to be there and is
/// missing; else `port_id`, where an interface has not exactly one of `port_id` and `subnet_id`.
/// The cost grows with query and body, and with the square of the length of a list whose items have
/// to differ. A number in a path that isn't one of 1 to 20 digits below 2^64 is `BadAttribute` with its
/// name, `version` before `page`.
pub fn read_ask(
    alloc: Global,
    route: &Route,
    query: &Query,
    body: &[u8],
) -> Result<Ask, BodyRefusal>
    ensures { Answers result (ask_of route.now query.now body.now) }
{
    match route.path {
        RoutePath::Rows(kind) => ask_rows(alloc, kind, route, query, body),
        RoutePath::Row(kind) => ask_row(alloc, kind, route, query, body),
        RoutePath::AddInterface => ask_adding(alloc, route, body),
        RoutePath::RemoveInterface => ask_removing(alloc, route, body),
        RoutePath::Frames => ask_event(alloc, EventCall::Frames, body),
        RoutePath::Explain => ask_event(alloc, EventCall::Explain, body),
        RoutePath::Deliver => read_member(alloc, &Delivery, Edit::Create, "deliver", body),
        RoutePath::Resync => ask_host(alloc, HostCall::Resync, body),
        RoutePath::Restart => ask_host(alloc, HostCall::Restart, body),
        RoutePath::Forget => ask_host(alloc, HostCall::Forget, body),
        RoutePath::Settle => read_member(alloc, &Settling, Edit::Create, "settle", body),
        RoutePath::Hosts => Ok(Ask::Lab(LabCall::Hosts)),
        RoutePath::Tables => Ok(Ask::Lab(LabCall::Tables(first_text(alloc, route)?))),
        RoutePath::Version => Ok(Ask::Lab(LabCall::Version)),
        RoutePath::Change => ask_change(alloc, route),
        RoutePath::Page => ask_page(alloc, route),
    }
}
