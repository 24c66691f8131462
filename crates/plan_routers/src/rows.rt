//! The row of a router, as a body asks for it.

ghost use Rattle.std.specs.Prelude.{◌≡◌, IfOk};
ghost use Rattle.api_ml2.specs.Placement as placement;
ghost use Rattle.api_types.specs.Given as given_specs;
ghost use Rattle.plan_routers.specs.RouterCalls as router_calls;

use crate::gateways::kept_gateway;
use api_ml2::place_router;
use api_types::{Given, Id, RouterForm, RouterRow, Routes};
use call_parts::{text_or, value_or};
use net_addr::{Copies, OutOfMemory, Seq, Text};
use net_settings::Settings;
use std::alloc::Global;

fn router_host(alloc: Global, settings: &Settings) -> Result<Option<Text>, OutOfMemory>
    ensures { IfOk result (λ host. host ≡ placement.router_host settings.now) }
{
    match place_router(settings) {
        Some(host) => Ok(Some(host.copy(alloc)?)),
        None => Ok(None),
    }
}

/// The row of a new router of this project, without gateway and routes. Its cost grows with the
/// hosts.
pub(crate) fn new_router(
    alloc: Global,
    settings: &Settings,
    form: &RouterForm,
    owner: &Text,
    id: Id,
) -> Result<RouterRow, OutOfMemory>
    ensures { IfOk result (λ r. r ≡ router_calls.new_router settings.now form.now owner.now id) }
{
    let empty = Text::new(alloc);
    Ok(RouterRow {
        id,
        project: owner.copy(alloc)?,
        name: text_or(alloc, &empty, &form.name)?,
        description: text_or(alloc, &empty, &form.description)?,
        up: value_or(true, &form.admin_state_up),
        host: router_host(alloc, settings)?,
        gateway: None,
        routes: Seq::new(alloc),
    })
}

// The routes that are given, or a copy of these.
fn routes_or(alloc: Global, routes: &Routes, given: &Given<Routes>) -> Result<Routes, OutOfMemory>
    ensures { IfOk result (λ r. r ≡ given_specs.value_or routes.now given.now) }
{
    match given {
        Given::Is(given) => given.copy(alloc),
        _ => routes.copy(alloc),
    }
}

/// The row of a router as a body changes it, with what stays of its gateway.
pub(crate) fn changed_router(
    alloc: Global,
    form: &RouterForm,
    router: &RouterRow,
) -> Result<RouterRow, OutOfMemory>
    ensures { IfOk result (λ r. r ≡ router_calls.changed_router form.now router.now) }
{
    Ok(RouterRow {
        id: router.id,
        project: router.project.copy(alloc)?,
        name: text_or(alloc, &router.name, &form.name)?,
        description: text_or(alloc, &router.description, &form.description)?,
        up: value_or(router.up, &form.admin_state_up),
        host: router.host.copy(alloc)?,
        gateway: kept_gateway(&router.gateway, &form.external_gateway_info),
        routes: routes_or(alloc, &router.routes, &form.routes)?,
    })
}
