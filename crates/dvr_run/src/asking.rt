//! The event that a line asks for.

ghost use Rattle.std.specs.Prelude.{◌≡◌, IfOk, option_copied};
ghost use Rattle.api_types.specs.RowsWith.{port_with};
ghost use Rattle.dvr_run.specs.Events as events;
ghost use Rattle.neutron_json.specs.Asks.{event_read};
ghost use Rattle.neutron_http.specs.declared.route.RoutePath.TheVariants as path;
ghost use Rattle.plane_types.specs.declared.ask.LabCall.TheVariants.{Explain};

use api_types::{Id, PortRow, Query, Rows};
use net_addr::{OutOfMemory, Seq};
use neutron_http::{BodyRefusal, Method, Route, RoutePath};
use neutron_json::read_ask;
use plane_rows::network_on;
use plane_types::{Ask, Event, LabCall};
use std::alloc::Global;

// The route of the lab's `explain`.
fn explain_route(alloc: Global) -> Route
    ensures { result.path ≡ path.Explain }
{
    Route {
        path: RoutePath::Explain,
        method: Method::Post,
        parameters: Seq::new(alloc),
    }
}

fn no_query(alloc: Global) -> Query {
    Query {
        filters: Seq::new(alloc),
        limit: None,
        marker: None,
        fields: Seq::new(alloc),
    }
}

/// What a body asks, if it is one of the lab's `explain`. The cost grows with the body.
pub(crate) fn read_body(alloc: Global, body: &[u8]) -> Result<Option<Ask>, OutOfMemory>
    ensures { IfOk result (λ o. o ≡ events.said (event_read Explain body.now)) }
{
    let route = explain_route(alloc);
    let query = no_query(alloc);
    match read_ask(alloc, &route, &query, body) {
        Ok(ask) => Ok(Some(ask)),
        Err(BodyRefusal::OutOfMemory) => Err(OutOfMemory),
        Err(BodyRefusal::BadBody { .. } | BodyRefusal::BadAttribute { .. }) => Ok(None),
    }
}

// The event of a call that explains one.
fn explained(call: &LabCall) -> Option<&Event>
    ensures { option_copied result ≡ events.explained call.now }
{
    match call {
        LabCall::Explain(event) => Some(event),
        LabCall::Frames(_)
        | LabCall::Deliver { .. }
        | LabCall::Resync(_)
        | LabCall::Restart(_)
        | LabCall::Forget(_)
        | LabCall::Settle
        | LabCall::Hosts
        | LabCall::Tables(_)
        | LabCall::Version
        | LabCall::Change { .. }
        | LabCall::Page { .. } => None,
    }
}

fn event_asked(ask: &Ask) -> Option<&Event>
    ensures { option_copied result ≡ events.event_asked ask.now }
{
    match ask {
        Ask::Lab(call) => explained(call),
        Ask::Api(_) => None,
    }
}

fn known_port(rows: &Rows, id: Id) -> Option<&PortRow>
    ensures { option_copied result ≡ port_with rows.now id }
{
    let ports = rows.ports();
    let _own_ids = ports.rows(); // for the proof: no two ports have one id
    ports.get(id)
}

// Whether the port, or a network with the wire, is among the rows.
fn is_known(rows: &Rows, event: &Event) -> bool
    ensures { result ≡ events.is_known rows.now event.now }
{
    match event {
        Event::FromPort { port, .. } => known_port(rows, *port).is_some(),
        Event::FromWire { physical, tag, .. } => network_on(rows, physical, *tag).is_some(),
    }
}

/// The event that is asked about, if the rows have its port or its wire. The cost grows with the
/// networks.
pub(crate) fn known_event<'a>(rows: &Rows, ask: &'a Ask) -> Option<&'a Event>
    ensures { option_copied result ≡ events.known_asked rows.now ask.now }
{
    let event = event_asked(ask)?;
    if is_known(rows, event) {
        Some(event)
    } else {
        None
    }
}
