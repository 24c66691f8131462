//! The port that a body names, and the address of it that the body means.

ghost use Rattle.std.specs.Prelude.{◌≡◌, IfErr, IfOk, None, Some, option_and_then, option_copied};
ghost use Rattle.api_policy.specs.Checks.{IsAnswerOf};
ghost use Rattle.api_policy.specs.OtherFloatings.{other_floatings};
ghost use Rattle.api_policy.specs.Uses as uses;
ghost use Rattle.api_types.specs.Association.{aim_at};
ghost use Rattle.api_types.specs.Given as given;
ghost use Rattle.api_types.specs.declared.kind.Kind.TheVariants.{Port as PortKind};
ghost use Rattle.call_parts.specs.Answers.{Passes};
ghost use Rattle.call_parts.specs.BodyNames as body_names;
ghost use Rattle.plan_floatings.specs.FloatingCalls.{aim_asked};
ghost use Rattle.plan_floatings.specs.FloatingCalls as floating_calls;
ghost use Rattle.plan_floatings.specs.FloatingRules.{bad_aim};
ghost use Rattle.plan_floatings.specs.Plans.{target_of, unjoined};

use crate::rules::ensure_aim_fits;
use api_floating::{fixed_for, target_by};
use api_policy::{aim_in_use, port_seen};
use api_types::{Caller, Fixed, FloatingForm, Given, Id, Kind, PortRow, Refusal, Rows, Target};
use call_parts::{none_with_id, value_of};
use net_addr::{Addr4, Text};
use std::alloc::Global;

fn port_asked<'r>(rows: &'r Rows, caller: &Caller, form: &FloatingForm) -> Option<&'r PortRow>
    ensures { option_copied result ≡ floating_calls.port_asked rows.now caller.now form.now }
{
    port_seen(rows, caller, value_of(&form.port_id))
}

/// Refuses a port to which no floating address of the project may lead, where the caller sees it.
pub(crate) fn ensure_asked_fits(
    alloc: Global,
    rows: &Rows,
    caller: &Caller,
    form: &FloatingForm,
    project: &Text,
) -> Result<(), Refusal>
    ensures { Passes
        (option_and_then (bad_aim project.now (given.value_of form.now.fixed_ip_address))
        (floating_calls.port_asked rows.now caller.now form.now)) result }
{
    match port_asked(rows, caller, form) {
        Some(port) => ensure_aim_fits(alloc, project, value_of(&form.fixed_ip_address), port),
        None => Ok(()),
    }
}

/// Refuses a port that is named, and that the caller doesn't see.
pub(crate) fn ensure_port_found(
    alloc: Global,
    rows: &Rows,
    caller: &Caller,
    form: &FloatingForm,
) -> Result<(), Refusal>
    ensures { Passes
        (body_names.unless_found PortKind (given.value_of form.now.port_id)
        (floating_calls.port_asked rows.now caller.now form.now)) result }
{
    let Given::Is(id) = &form.port_id else {
        return Ok(());
    };
    match port_seen(rows, caller, Some(*id)) {
        Some(_) => Ok(()),
        None => Err(none_with_id(alloc, Kind::Port, Some(*id))),
    }
}

fn ensure_port_unused(
    rows: &Rows,
    caller: &Caller,
    own: Option<Id>,
    network: Id,
    address: Option<Addr4>,
    port: &PortRow,
) -> Result<(), Refusal>
    ensures { IsAnswerOf
        (option_and_then
        (uses.aim_in_use rows.now caller.now (other_floatings own rows.now.floatings) network)
        (aim_at address port.now)) result }
{
    match fixed_for(address, port.fixed.as_slice()) {
        Some(fixed) => aim_in_use(rows, caller, own, network, port, fixed),
        None => Ok(()),
    }
}

/// Refuses an address of a port to which another floating address of the network leads than the one
/// that is changed. Its cost grows with the floating addresses.
pub(crate) fn ensure_aim_unused(
    rows: &Rows,
    caller: &Caller,
    form: &FloatingForm,
    own: Option<Id>,
    network: Id,
) -> Result<(), Refusal>
    ensures { IsAnswerOf
        (option_and_then
        (uses.aim_in_use rows.now caller.now (other_floatings own rows.now.floatings) network)
        (aim_asked rows.now caller.now form.now)) result }
{
    match port_asked(rows, caller, form) {
        Some(port) => {
            let address = value_of(&form.fixed_ip_address);
            ensure_port_unused(rows, caller, own, network, address, port)
        }
        None => Ok(()),
    }
}

/// The same for a new floating address, which leads nowhere yet.
pub(crate) fn ensure_aim_unused_by_any(
    rows: &Rows,
    caller: &Caller,
    form: &FloatingForm,
    network: Id,
) -> Result<(), Refusal>
    ensures { IsAnswerOf
        (option_and_then (uses.aim_in_use rows.now caller.now rows.now.floatings network)
        (aim_asked rows.now caller.now form.now)) result }
{
    ensure_aim_unused(rows, caller, form, None, network)
}

fn target_at(
    rows: &Rows,
    project: &Text,
    network: Id,
    address: Option<Addr4>,
    port: &PortRow,
) -> Result<Option<Target>, Refusal>
    ensures ok { IfOk result
        (λ t. t ≡ target_of rows.now project.now network (aim_at address port.now)) }
    ensures passes { IfOk result
        (λ t. unjoined rows.now project.now network (aim_at address port.now) ≡ None) }
    ensures err { IfErr result
        (λ e. unjoined rows.now project.now network (aim_at address port.now) ≡ Some e) }
{
    let Some(fixed) = fixed_for(address, port.fixed.as_slice()) else {
        return Ok(None);
    };
    match target_by(rows, network, project, port, fixed) {
        Some(target) => Ok(Some(target)),
        None => Err(Refusal::NoGateway {
            network,
            subnet: fixed.subnet,
        }),
    }
}

/// What a floating address of the project and the network is to lead to, where a port is asked for
/// that the caller sees. Its cost grows with the routers, and with the ports for each router of the
/// project with its gateway on the network.
pub(crate) fn target_asked(
    rows: &Rows,
    caller: &Caller,
    form: &FloatingForm,
    project: &Text,
    network: Id,
) -> Result<Option<Target>, Refusal>
    ensures ok { IfOk result
        (λ t. t
        ≡ target_of rows.now project.now network (aim_asked rows.now caller.now form.now)) }
    ensures passes { IfOk result
        (λ t. unjoined rows.now project.now network (aim_asked rows.now caller.now form.now)
        ≡ None) }
    ensures err { IfErr result
        (λ e. unjoined rows.now project.now network (aim_asked rows.now caller.now form.now)
        ≡ Some e) }
{
    match port_asked(rows, caller, form) {
        Some(port) => {
            let address = value_of(&form.fixed_ip_address);
            target_at(rows, project, network, address, port)
        }
        None => Ok(None),
    }
}
