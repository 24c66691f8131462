//! Making a router, with or without a gateway.

ghost use Rattle.std.specs.Prelude.{◌≡◌, ◌+◌, ◌≤◌, ◌^◌, ◌∷◌, [], IfErr, IfOk, None, Some, not, option_and_then, true, unwrap_or};
ghost use Rattle.api_types.specs.Consistent.{IsConsistent};
ghost use Rattle.api_types.specs.Lists.{is_empty};
ghost use Rattle.api_types.specs.Printed.{NewRow};
ghost use Rattle.api_types.specs.Registration.{ident};
ghost use Rattle.api_types.specs.Table.{row_of};
ghost use Rattle.api_types.specs.WithRows.{with_added};
ghost use Rattle.api_types.specs.declared.kind.Row.TheVariants.{Router as RouterOf};
ghost use Rattle.api_types.specs.declared.port.PortRow.{PortRow as ThePort};
ghost use Rattle.api_types.specs.declared.router.RouterRow.{RouterRow as TheRouter};
ghost use Rattle.api_policy.specs.Reserved as reserved;
ghost use Rattle.call_parts.specs.Answers.{IsRefusalOf, Leads, Passes};
ghost use Rattle.call_parts.specs.Edits.{Add, made};
ghost use Rattle.call_parts.specs.InForm.{are_owners};
ghost use Rattle.plan_routers.specs.Plans.{first_body_refusal, first_standing_refusal};
ghost use Rattle.plan_routers.specs.RouterCalls as calls;
ghost use Rattle.plan_routers.specs.RouterCalls.{creation_refusal, gateway_edits, outer_taken, router_created, router_made, router_shown, router_with, with_gateway};

use crate::drawing::draw_new;
use crate::gateways::{gateway_network, snat_asked};
use crate::outer::{Outer, choose_outer, ensure_outer_free};
use crate::rows::new_router;
use crate::rules::{ensure_first_gateway_external, ensure_network_found};
use crate::service::gateway_port;
use api_policy::{admin_only, over_quota, router_for_admin};
use api_types::{Caller, Gateway, Id, Kind, NetworkRow, Refusal, RouterForm, RouterRow, Rows};
use call_parts::{Asking, Draft, Drawn, PlannedRow, are_unlike, invalid, owner};
use net_addr::{Copies, OutOfMemory, Text};
use std::alloc::Global;

/// What a gateway that is set has beside its network: the id that its port gets, and whether
/// sources are translated.
#[derive(Drop)]
pub(crate) struct GatewayBy {
    pub id: Id,
    pub snat: bool,
}

// Refuses what the body asks for that breaks a rule.
fn ensure_body_valid(
    alloc: Global,
    rows: &Rows,
    caller: &Caller,
    form: &RouterForm,
    owner: &Text,
) -> Result<(), Refusal>
    ensures { Passes (first_body_refusal rows.now caller.now form.now owner.now) result }
{
    if are_unlike(&form.project_id, &form.tenant_id) {
        return Err(invalid(alloc, "tenant_id"));
    }
    ensure_first_gateway_external(alloc, rows, caller, form, owner)?;
    ensure_network_found(alloc, rows, caller, form)
}

// Refuses the gateway that is asked for, where the address of its port is held.
fn ensure_named_outer_free(
    alloc: Global,
    rows: &Rows,
    caller: &Caller,
    form: &RouterForm,
) -> Result<(), Refusal>
    requires { IsConsistent rows.now }
    ensures { Passes
        (option_and_then (outer_taken rows.now)
        (calls.gateway_network rows.now caller.now form.now))
        result }
{
    match gateway_network(rows, caller, form) {
        Some(network) => ensure_outer_free(alloc, rows, network),
        None => Ok(()),
    }
}

// Refuses what the policy, the addresses that are held or the quota forbid.
fn ensure_allowed(
    alloc: Global,
    asking: &Asking<'_>,
    form: &RouterForm,
    owner: &Text,
) -> Result<(), Refusal>
    ensures { Passes
        (first_standing_refusal asking.now.settings asking.now.state.rows asking.now.caller form.now
        owner.now) result }
{
    let (rows, caller) = (asking.rows(), asking.caller());
    admin_only(caller, router_for_admin(caller, form))?;
    ensure_named_outer_free(alloc, rows, caller, form)?;
    over_quota(rows, asking.settings(), owner, Kind::Router)
}

fn ensure_creatable(
    alloc: Global,
    asking: &Asking<'_>,
    form: &RouterForm,
    owner: &Text,
) -> Result<(), Refusal>
    ensures { Passes
        (creation_refusal asking.now.settings asking.now.state.rows asking.now.caller form.now
        owner.now) result }
{
    ensure_body_valid(alloc, asking.rows(), asking.caller(), form, owner)?;
    ensure_allowed(alloc, asking, form, owner)
}

// The draft with the new router, which has the first id that was drawn.
fn add_bare(
    alloc: Global,
    asking: &Asking<'_>,
    drawn: Drawn,
    form: &RouterForm,
    owner: &Text,
) -> Result<PlannedRow<RouterRow>, OutOfMemory>
    requires within { drawn.first + 1 ≤ 2 ^ 62 }
    requires new { row_of (λ (r : TheRouter). r.id) (ident drawn.ordinal (drawn.first + 0))
        drawn.draft.rows.routers ≡ None }
    ensures start { IfOk result (λ p. p.draft.start ≡ drawn.draft.start) }
    ensures row { IfOk result
        (λ p. p.row
        ≡ calls.new_router asking.now.settings form.now owner.now
        (ident drawn.ordinal (drawn.first + 0))) }
    ensures rows { IfOk result (λ p. p.draft.rows ≡ with_added drawn.draft.rows (RouterOf p.row)) }
{
    let router = new_router(alloc, asking.settings(), form, owner, drawn.id(0))?;
    let kept = router.copy(alloc)?;
    Ok(PlannedRow {
        draft: drawn.draft.add(alloc, router)?,
        row: kept,
    })
}

// Where the creation leads of a router without a gateway.
fn make_bare(
    alloc: Global,
    asking: &Asking<'_>,
    form: &RouterForm,
    owner: &Text,
) -> Result<PlannedRow<RouterRow>, Refusal>
    requires { not (is_empty owner.now) ≡ true }
    ensures ok { IfOk result
        (λ p. Leads asking.now.state.rows
        (router_with asking.now.settings asking.now.state asking.now.caller form.now owner.now None)
        p.draft (λ after. NewRow (router_shown after asking.now.caller p.row []))) }
    ensures err { IfErr result
        (IsRefusalOf
        (router_with asking.now.settings asking.now.state asking.now.caller form.now owner.now
        None)) }
{
    let drawn = draw_new(alloc, asking, owner, 1)?;
    Ok(add_bare(alloc, asking, drawn, form, owner)?)
}

/// The draft with the port of a gateway that is set, and with the router that has it. Its cost
/// grows with the routers and the hosts.
pub(crate) fn set_gateway(
    alloc: Global,
    asking: &Asking<'_>,
    draft: Draft,
    router: RouterRow,
    network: &NetworkRow,
    by: GatewayBy,
    outer: Outer,
) -> Result<PlannedRow<RouterRow>, OutOfMemory>
    requires { row_of (λ (p : ThePort). p.id) by.id draft.rows.ports ≡ None }
    ensures start { IfOk result (λ p. p.draft.start ≡ draft.start) }
    ensures row { IfOk result (λ p. p.row ≡ with_gateway router network.now.id by.id by.snat) }
    ensures rows { IfOk result
        (λ p. p.draft.rows
        ≡ made draft.rows
        (gateway_edits router
        (calls.gateway_port asking.now.settings router network.now by.id outer.mac outer.fixed)
        by.snat)) }
{
    let GatewayBy { id, snat } = by;
    let Outer { fixed, mac } = outer;
    let port = gateway_port(alloc, asking, &router, network, id, mac, fixed)?;
    let mut router = router;
    router.gateway = Some(Gateway {
        network: network.id,
        port: id,
        snat,
    });
    let draft = draft.add(alloc, port)?;
    let draft = draft.put(alloc, router.copy(alloc)?)?;
    Ok(PlannedRow { draft, row: router })
}

// The draft with the new router.
fn add_row(alloc: Global, draft: Draft, router: &RouterRow) -> Result<Draft, OutOfMemory>
    requires { row_of (λ (r : TheRouter). r.id) router.now.id draft.rows.routers ≡ None }
    ensures start { IfOk result (λ d. d.start ≡ draft.start) }
    ensures rows { IfOk result (λ d. d.rows ≡ with_added draft.rows (RouterOf router.now)) }
{
    draft.add(alloc, router.copy(alloc)?)
}

// The draft with the new router and its gateway, by the two ids that were drawn.
fn add_with_gateway(
    alloc: Global,
    asking: &Asking<'_>,
    drawn: Drawn,
    form: &RouterForm,
    owner: &Text,
    network: &NetworkRow,
    outer: Outer,
) -> Result<PlannedRow<RouterRow>, OutOfMemory>
    requires within { drawn.first + 2 ≤ 2 ^ 62 }
    requires new_router { row_of (λ (r : TheRouter). r.id)
        (ident drawn.ordinal (drawn.first + 0)) drawn.draft.rows.routers ≡ None }
    requires new_port { row_of (λ (p : ThePort). p.id) (ident drawn.ordinal (drawn.first + 1))
        drawn.draft.rows.ports ≡ None }
    ensures start { IfOk result (λ p. p.draft.start ≡ drawn.draft.start) }
    ensures row { let router : TheRouter = calls.new_router asking.now.settings form.now owner.now
        (ident drawn.ordinal (drawn.first + 0)) in
        IfOk result
        (λ p. p.row
        ≡ with_gateway router network.now.id (ident drawn.ordinal (drawn.first + 1))
        (unwrap_or (reserved.snat_asked form.now) true)) }
    ensures rows { let router : TheRouter = calls.new_router asking.now.settings form.now owner.now
        (ident drawn.ordinal (drawn.first + 0)) in
        IfOk result
        (λ p. p.draft.rows
        ≡ made drawn.draft.rows
        (Add (RouterOf router)
        ∷ gateway_edits router
        (calls.gateway_port asking.now.settings router network.now
        (ident drawn.ordinal (drawn.first + 1)) outer.mac outer.fixed)
        (unwrap_or (reserved.snat_asked form.now) true))) }
{
    let Drawn {
        draft,
        ordinal,
        first,
    } = drawn;
    let router = new_router(
        alloc,
        asking.settings(),
        form,
        owner,
        Id::make(ordinal, first),
    )?;
    let draft = add_row(alloc, draft, &router)?;
    let id = Id::make(ordinal, first + 1);
    let snat = snat_asked(form).unwrap_or(true);
    let by = GatewayBy { id, snat };
    set_gateway(alloc, asking, draft, router, network, by, outer)
}

// Where the creation leads of a router with a gateway on the network.
fn make_with_gateway(
    alloc: Global,
    asking: &Asking<'_>,
    form: &RouterForm,
    owner: &Text,
    network: &NetworkRow,
) -> Result<PlannedRow<RouterRow>, Refusal>
    requires { not (is_empty owner.now) ≡ true }
    ensures ok { IfOk result
        (λ p. Leads asking.now.state.rows
        (router_with asking.now.settings asking.now.state asking.now.caller form.now owner.now
        (Some network.now)) p.draft
        (λ after. NewRow (router_shown after asking.now.caller p.row []))) }
    ensures err { IfErr result
        (IsRefusalOf
        (router_with asking.now.settings asking.now.state asking.now.caller form.now owner.now
        (Some network.now))) }
{
    let outer = choose_outer(alloc, asking.rows(), network)?;
    let drawn = draw_new(alloc, asking, owner, 2)?;
    Ok(add_with_gateway(alloc, asking, drawn, form, owner, network, outer)?)
}

// The plan of the creation of a router that the project is to own.
fn make_router(
    alloc: Global,
    asking: &Asking<'_>,
    form: &RouterForm,
    owner: &Text,
) -> Result<PlannedRow<RouterRow>, Refusal>
    requires { not (is_empty owner.now) ≡ true }
    ensures ok { IfOk result
        (λ p. Leads asking.now.state.rows
        (router_made asking.now.settings asking.now.state asking.now.caller form.now owner.now)
        p.draft (λ after. NewRow (router_shown after asking.now.caller p.row []))) }
    ensures err { IfErr result
        (IsRefusalOf
        (router_made asking.now.settings asking.now.state asking.now.caller form.now owner.now)) }
{
    ensure_creatable(alloc, asking, form, owner)?;
    match gateway_network(asking.rows(), asking.caller(), form) {
        Some(network) => make_with_gateway(alloc, asking, form, owner, network),
        None => make_bare(alloc, asking, form, owner),
    }
}

/// The plan of a router's creation, or why it is refused. Its cost and memory grow with the
/// routers, the policies, the projects and the hosts, and with a gateway with the subnets, and with
/// the ports and their addresses.
pub fn create_router(
    alloc: Global,
    asking: &Asking<'_>,
    form: &RouterForm,
) -> Result<PlannedRow<RouterRow>, Refusal>
    requires named { not (is_empty asking.now.caller.project) ≡ true }
    requires owners { are_owners form.now.project_id form.now.tenant_id ≡ true }
    ensures ok { IfOk result
        (λ p. Leads asking.now.state.rows
        (router_created asking.now.settings asking.now.state asking.now.caller form.now) p.draft
        (λ after. NewRow (router_shown after asking.now.caller p.row []))) }
    ensures err { IfErr result
        (IsRefusalOf
        (router_created asking.now.settings asking.now.state asking.now.caller form.now)) }
{
    let owner = owner(asking.caller(), &form.project_id, &form.tenant_id);
    make_router(alloc, asking, form, owner)
}
