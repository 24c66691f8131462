//! Taking a router out, with its gateway's port.

ghost use Rattle.std.specs.Prelude.{◌≡◌, ◌∷◌, ◌++◌, [], IfErr, IfOk};
ghost use Rattle.api_policy.specs.Checks.{IsAnswerOf};
ghost use Rattle.api_types.specs.Printed.{NoRow};
ghost use Rattle.api_types.specs.declared.kind.Kind.TheVariants.{Router as RouterKind};
ghost use Rattle.call_parts.specs.Answers.{IsRefusalOf, Leads};
ghost use Rattle.call_parts.specs.Edits.{Drop as DropRow, made};
ghost use Rattle.plan_routers.specs.RouterCalls.{deletion_refusal, gateway_gone, router_deleted};

use crate::finding::find_router;
use api_policy::{ensure_version_left, owner_only, router_in_use};
use api_types::{Gateway, IdText, PortRow, Refusal, RouterRow, Rows};
use call_parts::{Asking, Draft};
use net_addr::OutOfMemory;
use std::alloc::Global;

/// The draft without a gateway's port, where there is one. Its cost grows with the ports.
pub(crate) fn drop_gateway(
    alloc: Global,
    draft: Draft,
    gateway: &Option<Gateway>,
) -> Result<Draft, OutOfMemory>
    ensures start { IfOk result (λ d. d.start ≡ draft.start) }
    ensures rows { IfOk result (λ d. d.rows ≡ made draft.rows (gateway_gone gateway.now)) }
{
    match gateway {
        Some(gateway) => draft.drop_row::<PortRow>(alloc, gateway.port),
        None => Ok(draft),
    }
}

fn without_router(alloc: Global, rows: &Rows, router: &RouterRow) -> Result<Draft, OutOfMemory>
    ensures start { IfOk result (λ d. d.start ≡ rows.now) }
    ensures rows { IfOk result
        (λ d. d.rows
        ≡ made rows.now
        (gateway_gone router.now.gateway ++ DropRow RouterKind router.now.id ∷ [])) }
{
    let draft = Draft::begin(alloc, rows)?;
    let draft = drop_gateway(alloc, draft, &router.gateway)?;
    draft.drop_row::<RouterRow>(alloc, router.id)
}

fn ensure_deletable(asking: &Asking<'_>, router: &RouterRow) -> Result<(), Refusal>
    ensures { IsAnswerOf (deletion_refusal asking.now.state asking.now.caller router.now) result }
{
    owner_only(asking.caller(), &router.project)?;
    router_in_use(asking.rows(), asking.caller(), router)?;
    ensure_version_left(asking.version())
}

/// The plan of a router's deletion, or why it is refused. Its cost grows with the routers and the
/// ports.
pub fn delete_router(alloc: Global, asking: &Asking<'_>, name: &IdText) -> Result<Draft, Refusal>
    ensures ok { IfOk result
        (λ d. Leads asking.now.state.rows
        (router_deleted asking.now.state asking.now.caller name.now) d (λ after. NoRow)) }
    ensures err { IfErr result
        (IsRefusalOf (router_deleted asking.now.state asking.now.caller name.now)) }
{
    let router = find_router(alloc, asking, name)?;
    ensure_deletable(asking, router)?;
    Ok(without_router(alloc, asking.rows(), router)?)
}
