//! Changing a router: its attributes, its routes and its gateway.

ghost use Rattle.std.specs.Prelude.{◌≡◌, ◌∷◌, [], IfErr, IfOk, None, Some, not, option_and_then, true};
ghost use Rattle.api_types.specs.Consistent.{IsConsistent};
ghost use Rattle.api_types.specs.Lists.{is_empty};
ghost use Rattle.api_types.specs.Printed.{OneRow};
ghost use Rattle.api_types.specs.declared.kind.Row.TheVariants.{Router as RouterOf};
ghost use Rattle.api_policy.specs.Checks.{IsAnswerOf};
ghost use Rattle.api_policy.specs.Uses as uses;
ghost use Rattle.call_parts.specs.Answers.{IsRefusalOf, Leads, Passes};
ghost use Rattle.call_parts.specs.Edits.{Put, made};
ghost use Rattle.plan_routers.specs.Plans.{body_refusal, standing_refusal};
ghost use Rattle.plan_routers.specs.RouterCalls as calls;
ghost use Rattle.plan_routers.specs.RouterCalls.{gateway_gone, outer_taken, router_changed, router_moved, router_shown, router_updated, update_refusal};

use crate::creation::{GatewayBy, set_gateway};
use crate::deletion::drop_gateway;
use crate::drawing::draw_new;
use crate::finding::find_router;
use crate::gateways::{lost_gateway, new_gateway, old_snat, snat_asked};
use crate::outer::{choose_outer, ensure_outer_free};
use crate::rows::changed_router;
use crate::rules::{ensure_named_gateway_fits, ensure_network_found, ensure_routes_reachable};
use api_policy::{admin_only, ensure_version_left, gateway_use, is_snat_asked, owner_only};
use api_types::{Caller, IdText, NetworkRow, Refusal, RouterForm, RouterRow, Rows};
use call_parts::{Asking, Draft, PlannedRow};
use net_addr::{Copies, OutOfMemory};
use std::alloc::Global;

// Refuses what the body asks for that breaks a rule.
fn ensure_body_valid(
    alloc: Global,
    rows: &Rows,
    caller: &Caller,
    form: &RouterForm,
    old: &RouterRow,
) -> Result<(), Refusal>
    ensures { Passes (body_refusal rows.now caller.now form.now old.now) result }
{
    ensure_named_gateway_fits(alloc, rows, caller, form, old)?;
    ensure_routes_reachable(alloc, rows, old, &form.routes)?;
    ensure_network_found(alloc, rows, caller, form)
}

// Refuses that the gateway goes that doesn't stay, where a route or a floating address needs it.
fn ensure_lost_unneeded(
    rows: &Rows,
    caller: &Caller,
    old: &RouterRow,
    new: &RouterRow,
) -> Result<(), Refusal>
    ensures { IsAnswerOf
        (uses.gateway_use rows.now caller.now old.now new.now.routes
        (calls.lost_gateway old.now.gateway new.now.gateway)) result }
{
    let lost = lost_gateway(&old.gateway, &new.gateway);
    gateway_use(rows, caller, old, new.routes.as_slice(), &lost)
}

// Refuses a new gateway, where the address of its port is held.
fn ensure_new_outer_free(
    alloc: Global,
    rows: &Rows,
    caller: &Caller,
    form: &RouterForm,
    new: &RouterRow,
) -> Result<(), Refusal>
    requires { IsConsistent rows.now }
    ensures { Passes
        (option_and_then (outer_taken rows.now)
        (calls.new_gateway (calls.gateway_network rows.now caller.now form.now) new.now.gateway))
        result }
{
    match new_gateway(rows, caller, form, &new.gateway) {
        Some(network) => ensure_outer_free(alloc, rows, network),
        None => Ok(()),
    }
}

// Refuses what the policy, the uses of a gateway that goes or the addresses that are held forbid.
fn ensure_allowed(
    alloc: Global,
    rows: &Rows,
    caller: &Caller,
    form: &RouterForm,
    old: &RouterRow,
    new: &RouterRow,
) -> Result<(), Refusal>
    requires { IsConsistent rows.now }
    ensures { Passes (standing_refusal rows.now caller.now form.now old.now new.now) result }
{
    admin_only(caller, is_snat_asked(form))?;
    owner_only(caller, &old.project)?;
    ensure_lost_unneeded(rows, caller, old, new)?;
    ensure_new_outer_free(alloc, rows, caller, form, new)
}

fn ensure_changeable(
    alloc: Global,
    rows: &Rows,
    caller: &Caller,
    form: &RouterForm,
    old: &RouterRow,
    new: &RouterRow,
) -> Result<(), Refusal>
    requires { IsConsistent rows.now }
    ensures { Passes (update_refusal rows.now caller.now form.now old.now new.now) result }
{
    ensure_body_valid(alloc, rows, caller, form, old)?;
    ensure_allowed(alloc, rows, caller, form, old, new)
}

// The draft with the changed router, and without the port of a gateway that doesn't stay.
fn put_router(
    alloc: Global,
    draft: Draft,
    old: &RouterRow,
    new: &RouterRow,
) -> Result<Draft, OutOfMemory>
    ensures start { IfOk result (λ d. d.start ≡ draft.start) }
    ensures rows { IfOk result
        (λ d. d.rows
        ≡ made draft.rows
        (Put (RouterOf new.now)
        ∷ gateway_gone (calls.lost_gateway old.now.gateway new.now.gateway))) }
{
    let draft = draft.put(alloc, new.copy(alloc)?)?;
    drop_gateway(alloc, draft, &lost_gateway(&old.gateway, &new.gateway))
}

// The changed router in the current rows.
fn put_alone(
    alloc: Global,
    rows: &Rows,
    old: &RouterRow,
    new: RouterRow,
) -> Result<PlannedRow<RouterRow>, OutOfMemory>
    ensures start { IfOk result (λ p. p.draft.start ≡ rows.now) }
    ensures row { IfOk result (λ p. p.row ≡ new) }
    ensures rows { IfOk result
        (λ p. p.draft.rows
        ≡ made rows.now
        (Put (RouterOf new)
        ∷ gateway_gone (calls.lost_gateway old.now.gateway new.gateway))) }
{
    let draft = put_router(alloc, Draft::begin(alloc, rows)?, old, &new)?;
    Ok(PlannedRow { draft, row: new })
}

// Where the change leads of a router that gets no new gateway.
fn move_bare(
    alloc: Global,
    asking: &Asking<'_>,
    form: &RouterForm,
    old: &RouterRow,
    new: RouterRow,
) -> Result<PlannedRow<RouterRow>, Refusal>
    ensures ok { IfOk result
        (λ p. Leads asking.now.state.rows
        (router_moved asking.now.settings asking.now.state asking.now.caller form.now old.now new
        None) p.draft (λ after. OneRow (router_shown after asking.now.caller p.row []))) }
    ensures err { IfErr result
        (IsRefusalOf
        (router_moved asking.now.settings asking.now.state asking.now.caller form.now old.now new
        None)) }
{
    ensure_version_left(asking.version())?;
    Ok(put_alone(alloc, asking.rows(), old, new)?)
}

// Where the change leads of a router that gets a new gateway on the network.
fn move_to(
    alloc: Global,
    asking: &Asking<'_>,
    form: &RouterForm,
    old: &RouterRow,
    new: RouterRow,
    network: &NetworkRow,
) -> Result<PlannedRow<RouterRow>, Refusal>
    requires named { not (is_empty old.now.project) ≡ true }
    requires changed { new ≡ calls.changed_router form.now old.now }
    ensures ok { IfOk result
        (λ p. Leads asking.now.state.rows
        (router_moved asking.now.settings asking.now.state asking.now.caller form.now old.now new
        (Some network.now)) p.draft
        (λ after. OneRow (router_shown after asking.now.caller p.row []))) }
    ensures err { IfErr result
        (IsRefusalOf
        (router_moved asking.now.settings asking.now.state asking.now.caller form.now old.now new
        (Some network.now))) }
{
    let outer = choose_outer(alloc, asking.rows(), network)?;
    let drawn = draw_new(alloc, asking, &old.project, 1)?;
    let id = drawn.id(0);
    let draft = put_router(alloc, drawn.draft, old, &new)?;
    let snat = snat_asked(form).unwrap_or(old_snat(&old.gateway));
    let by = GatewayBy { id, snat };
    Ok(set_gateway(alloc, asking, draft, new, network, by, outer)?)
}

// Where the change leads of a router.
fn change_router(
    alloc: Global,
    asking: &Asking<'_>,
    form: &RouterForm,
    old: &RouterRow,
) -> Result<PlannedRow<RouterRow>, Refusal>
    requires { not (is_empty old.now.project) ≡ true }
    ensures ok { IfOk result
        (λ p. Leads asking.now.state.rows
        (router_changed asking.now.settings asking.now.state asking.now.caller form.now old.now
        (calls.changed_router form.now old.now)) p.draft
        (λ after. OneRow (router_shown after asking.now.caller p.row []))) }
    ensures err { IfErr result
        (IsRefusalOf
        (router_changed asking.now.settings asking.now.state asking.now.caller form.now old.now
        (calls.changed_router form.now old.now))) }
{
    let rows = asking.rows();
    let caller = asking.caller();
    let new = changed_router(alloc, form, old)?;
    ensure_changeable(alloc, rows, caller, form, old, &new)?;
    match new_gateway(rows, caller, form, &new.gateway) {
        Some(network) => move_to(alloc, asking, form, old, new, network),
        None => move_bare(alloc, asking, form, old, new),
    }
}

/// The plan of a router's change, or why it is refused. Its cost and memory grow as those of its
/// creation, with the ports times the routes that are given, and with the floating addresses.
pub fn update_router(
    alloc: Global,
    asking: &Asking<'_>,
    name: &IdText,
    form: &RouterForm,
) -> Result<PlannedRow<RouterRow>, Refusal>
    ensures ok { IfOk result
        (λ p. Leads asking.now.state.rows
        (router_updated asking.now.settings asking.now.state asking.now.caller name.now form.now)
        p.draft (λ after. OneRow (router_shown after asking.now.caller p.row []))) }
    ensures err { IfErr result
        (IsRefusalOf
        (router_updated asking.now.settings asking.now.state asking.now.caller name.now
        form.now)) }
{
    let router = find_router(alloc, asking, name)?;
    change_router(alloc, asking, form, router)
}
