//! What bodies of the lab say.
ghost use Rattle.std.specs.Prelude.{◌≡◌, IfOk};
ghost use Rattle.serde_json.specs.View.{view};
ghost use Rattle.json_values.specs.Values.{member_of};
ghost use Rattle.neutron_json.specs.Events.{port_event, wire_event, event_of, host_of, deliver_of};

use json_values::{ChangeNumber, EventFrame, Grammar, RowId, ShortText, WireTag};
use net_addr::{OutOfMemory, Text};
use plane_types::{Event, LabCall};
use serde_json::Value;
use std::alloc::Global;

/// What a member says, which must be there.
pub(crate) fn member<G: Grammar>(
    alloc: Global,
    object: &Value,
    name: &str,
) -> Result<Option<G::Read>, OutOfMemory>
    ensures { IfOk result (λ o. o ≡ member_of G.says name.now (view object.now)) }
{
    match object.get(name) {
        None => Ok(None),
        Some(value) => G::read(alloc, value),
    }
}

// A frame that a port sends.
fn port_event(alloc: Global, object: &Value) -> Result<Option<Event>, OutOfMemory>
    ensures { IfOk result (λ o. o ≡ port_event (view object.now)) }
{
    let Some(port) = member::<RowId>(alloc, object, "port")? else {
        return Ok(None);
    };
    let Some(frame) = member::<EventFrame>(alloc, object, "frame")? else {
        return Ok(None);
    };
    Ok(Some(Event::FromPort { port, frame }))
}

// A frame from a physical network.
fn wire_event(alloc: Global, object: &Value) -> Result<Option<Event>, OutOfMemory>
    ensures { IfOk result (λ o. o ≡ wire_event (view object.now)) }
{
    let tag = member::<WireTag>(alloc, object, "segmentation_id")?;
    let Some(frame) = member::<EventFrame>(alloc, object, "frame")? else {
        return Ok(None);
    };
    let Some(physical) = member::<ShortText>(alloc, object, "physical_network")? else {
        return Ok(None);
    };
    Ok(Some(Event::FromWire {
        physical,
        tag,
        frame,
    }))
}

/// The event that an object gives. The cost grows with the object.
pub(crate) fn event_of(alloc: Global, object: &Value) -> Result<Option<Event>, OutOfMemory>
    ensures { IfOk result (λ o. o ≡ event_of (view object.now)) }
{
    if object.get("port").is_some() {
        port_event(alloc, object)
    } else {
        wire_event(alloc, object)
    }
}

/// The host that an object names.
pub(crate) fn host_of(alloc: Global, object: &Value) -> Result<Option<Text>, OutOfMemory>
    ensures { IfOk result (λ o. o ≡ host_of (view object.now)) }
{
    member::<ShortText>(alloc, object, "host")
}

/// The delivery that an object asks for.
pub(crate) fn deliver_of(alloc: Global, object: &Value) -> Result<Option<LabCall>, OutOfMemory>
    ensures { IfOk result (λ o. o ≡ deliver_of (view object.now)) }
{
    let Some(number) = member::<ChangeNumber>(alloc, object, "number")? else {
        return Ok(None);
    };
    match host_of(alloc, object)? {
        None => Ok(None),
        Some(host) => Ok(Some(LabCall::Deliver { host, number })),
    }
}
