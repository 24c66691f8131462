//! What forbids the creation of a network.

ghost use Rattle.std.specs.Prelude.{◌≡◌, IfErr, IfOk, None, OnOk};
ghost use Rattle.api_ml2.specs.Segments as segments;
ghost use Rattle.plan_networks.specs.NetworkCalls.{creation_refusal};
ghost use Rattle.call_parts.specs.Answers.{IsRefusalIn, Passes};
ghost use Rattle.plan_networks.specs.Plans.{body_refusal, rows_refusal};

use crate::rules::is_bare_wire;
use api_ml2::{AskedSegment, asked_segment, is_bad_number, is_bad_physical, segment_in_use};
use api_policy::{admin_only, network_for_admin, over_quota};
use api_types::{Caller, Kind, NetworkForm, Refusal};
use call_parts::{Asking, are_unlike, invalid};
use net_addr::Text;
use net_settings::Settings;
use std::alloc::Global;

// The segment that the body asks for, where the body alone forbids nothing.
fn read_asked(
    alloc: Global,
    settings: &Settings,
    caller: &Caller,
    form: &NetworkForm,
) -> Result<AskedSegment, Refusal>
    ensures asked { IfOk result (λ asked. asked ≡ segments.asked_segment form.now) }
    ensures passes { OnOk result (body_refusal settings.now caller.now form.now ≡ None) }
    ensures refused { IfErr result
        (IsRefusalIn (body_refusal settings.now caller.now form.now)) }
{
    if is_bad_physical(form) {
        return Err(invalid(alloc, "provider:physical_network"));
    }
    if is_bad_number(form) {
        return Err(invalid(alloc, "provider:segmentation_id"));
    }
    if are_unlike(&form.project_id, &form.tenant_id) {
        return Err(invalid(alloc, "tenant_id"));
    }
    if is_bare_wire(alloc, settings, form) {
        return Err(invalid(alloc, "provider:physical_network"));
    }
    admin_only(caller, network_for_admin(caller, form))?;
    Ok(asked_segment(alloc, form)?)
}

// Refuses a segment that a network has, and one network more than the quota.
fn ensure_room(
    alloc: Global,
    asking: &Asking<'_>,
    asked: &AskedSegment,
    owner: &Text,
    form: &NetworkForm,
) -> Result<(), Refusal>
    requires { asked.now ≡ segments.asked_segment form.now }
    ensures { Passes
        (rows_refusal asking.now.settings asking.now.state.rows form.now owner.now) result }
{
    let rows = asking.rows();
    if let Some(refusal) = segment_in_use(alloc, rows.networks().rows(), asked)? {
        return Err(refusal);
    }
    over_quota(rows, asking.settings(), owner, Kind::Network)
}

/// The segment that the body asks for, where nothing forbids the creation. Its cost grows with the
/// networks and the hosts.
pub(crate) fn choose_asked(
    alloc: Global,
    asking: &Asking<'_>,
    form: &NetworkForm,
    owner: &Text,
) -> Result<AskedSegment, Refusal>
    ensures asked { IfOk result (λ asked. asked ≡ segments.asked_segment form.now) }
    ensures passes { OnOk result
        (creation_refusal asking.now.settings asking.now.state.rows asking.now.caller form.now
        owner.now ≡ None) }
    ensures refused { IfErr result
        (IsRefusalIn
        (creation_refusal asking.now.settings asking.now.state.rows asking.now.caller form.now
        owner.now)) }
{
    let asked = read_asked(alloc, asking.settings(), asking.caller(), form)?;
    ensure_room(alloc, asking, &asked, owner, form)?;
    Ok(asked)
}
