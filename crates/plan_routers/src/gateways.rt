//! The gateway that a body asks for, and the one that a router has.

ghost use Rattle.std.specs.Prelude.{◌≡◌, option_copied};
ghost use Rattle.plan_routers.specs.RouterCalls as router_calls;
ghost use Rattle.std.specs.Prelude.{option_and_then};
ghost use Rattle.api_types.specs.declared.router.Gateway.{Gateway as TheGateway};
ghost use Rattle.api_policy.specs.Reserved as reserved;

use api_policy::network_seen;
use api_types::{Caller, Gateway, GatewayAsked, Given, Id, NetworkRow, RouterForm, Rows};

/// The network of the gateway that is asked for.
pub(crate) fn gateway_name(form: &RouterForm) -> Option<Id>
    ensures { result ≡ router_calls.gateway_name form.now }
{
    match &form.external_gateway_info {
        Given::Is(asked) => Some(asked.network),
        _ => None,
    }
}

/// That network, where the caller sees it. Its cost grows with the policies.
pub(crate) fn gateway_network<'r>(
    rows: &'r Rows,
    caller: &Caller,
    form: &RouterForm,
) -> Option<&'r NetworkRow>
    ensures { option_copied result ≡ router_calls.gateway_network rows.now caller.now form.now }
{
    network_seen(rows, caller, gateway_name(form))
}

/// Whether sources are to be translated, where the body says so.
pub(crate) fn snat_asked(form: &RouterForm) -> Option<bool>
    ensures { result ≡ reserved.snat_asked form.now }
{
    match &form.external_gateway_info {
        Given::Is(asked) => asked.snat,
        _ => None,
    }
}

fn gateway_on(gateway: &Gateway, asked: &GatewayAsked) -> Option<Gateway>
    ensures { result ≡ router_calls.gateway_on gateway.now asked.now }
{
    if gateway.network != asked.network {
        return None;
    }
    Some(Gateway {
        network: gateway.network,
        port: gateway.port,
        snat: asked.snat.unwrap_or(gateway.snat),
    })
}

fn gateway_if_on(old: &Option<Gateway>, asked: &GatewayAsked) -> Option<Gateway>
    ensures { result
        ≡ option_and_then (λ (g : TheGateway). router_calls.gateway_on g asked.now) old.now }
{
    match old {
        Some(gateway) => gateway_on(gateway, asked),
        None => None,
    }
}

/// The gateway that stays: the old one, where none is asked for or one on the same network.
pub(crate) fn kept_gateway(old: &Option<Gateway>, asked: &Given<GatewayAsked>) -> Option<Gateway>
    ensures { result ≡ router_calls.kept_gateway old.now asked.now }
{
    match asked {
        Given::Absent => *old,
        Given::Null => None,
        Given::Is(asked) => gateway_if_on(old, asked),
    }
}

/// The gateway that goes, where none stays.
pub(crate) fn lost_gateway(old: &Option<Gateway>, kept: &Option<Gateway>) -> Option<Gateway>
    ensures { result ≡ router_calls.lost_gateway old.now kept.now }
{
    match kept {
        None => *old,
        Some(_) => None,
    }
}

/// The network of a new gateway, where none stays and one is asked for. Its cost grows with the
/// policies.
pub(crate) fn new_gateway<'r>(
    rows: &'r Rows,
    caller: &Caller,
    form: &RouterForm,
    kept: &Option<Gateway>,
) -> Option<&'r NetworkRow>
    ensures { option_copied result
        ≡ router_calls.new_gateway
        (router_calls.gateway_network rows.now caller.now form.now) kept.now }
{
    match kept {
        None => gateway_network(rows, caller, form),
        Some(_) => None,
    }
}

/// Whether the sources of the old gateway are translated; those of a router without one are to be.
pub(crate) fn old_snat(old: &Option<Gateway>) -> bool
    ensures { result ≡ router_calls.old_snat old.now }
{
    match old {
        Some(gateway) => gateway.snat,
        None => true,
    }
}
