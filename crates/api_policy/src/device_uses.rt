//! Ports of services, which the row that their device names uses.

ghost use Rattle.std.specs.Prelude.{◌≡◌, find, if◌then◌else◌, None, option_copied};
ghost use Rattle.api_types.specs.Owners as owners;
ghost use Rattle.api_types.specs.declared.floating.FloatingRow.{FloatingRow as TheFloating};
ghost use Rattle.api_types.specs.declared.router.RouterRow.{RouterRow as TheRouter};
ghost use Rattle.api_policy.specs.Checks.{IsAnswerOf};
ghost use Rattle.api_policy.specs.Uses as uses;

use crate::empty::is_empty;
use crate::told::told_user;
use api_types::{
    Caller, FloatingRow, Id, Kind, PortRow, Refusal, RouterRow, Rows, Shared, UseRule,
};
use net_addr::Text;

fn router_named<'r>(
    routers: &'r [Shared<RouterRow>],
    device: &Text,
) -> Option<&'r Shared<RouterRow>>
    ensures { option_copied result
        ≡ find (λ (r : TheRouter). owners.device_is device.now r.id) routers.now }
{
    routers.iter().find(|router| router.id.is_printed(device))
}

fn floating_named<'r>(
    floatings: &'r [Shared<FloatingRow>],
    device: &Text,
) -> Option<&'r Shared<FloatingRow>>
    ensures { option_copied result
        ≡ find (λ (f : TheFloating). owners.device_is device.now f.id) floatings.now }
{
    floatings
        .iter()
        .find(|floating| floating.id.is_printed(device))
}

/// The router, or else the floating address, that a device names. Its cost grows with the routers
/// and the floating addresses.
pub fn named_by_device(rows: &Rows, device: &Text) -> Option<(Kind, Id)>
    ensures { result ≡ uses.named_by_device rows.now device.now }
{
    if let Some(router) = router_named(rows.routers().rows(), device) {
        return Some((Kind::Router, router.id));
    }
    match floating_named(rows.floatings().rows(), device) {
        Some(floating) => Some((Kind::Floating, floating.id)),
        None => None,
    }
}

/// Refuses a service's port that the call touches in more than name and description. Its cost grows
/// with the routers and the floating addresses.
pub fn service_in_use(
    rows: &Rows,
    caller: &Caller,
    touched: bool,
    port: &PortRow,
) -> Result<(), Refusal>
    ensures { IsAnswerOf (uses.service_in_use rows.now caller.now touched port.now) result }
{
    if !(touched && port.is_service()) {
        return Ok(());
    }
    Err(Refusal::InUse {
        rule: UseRule::ServicePortInUse,
        kind: Kind::Port,
        id: port.id,
        by: told_user(rows, caller, named_by_device(rows, &port.device)),
    })
}

// Of a service's port the row that it names, where the caller sees it.
fn service_told(rows: &Rows, caller: &Caller, port: &PortRow) -> Option<(Kind, Id)>
    ensures { result
        ≡ (if owners.is_service port.now.owner
        then uses.told_user rows.now caller.now (uses.named_by_device rows.now port.now.device)
        else None) }
{
    if port.is_service() {
        told_user(rows, caller, named_by_device(rows, &port.device))
    } else {
        None
    }
}

/// Refuses a port as the router's, where it has a device already. Its cost grows with the routers
/// and the floating addresses.
pub fn port_in_use(
    rows: &Rows,
    caller: &Caller,
    router: &RouterRow,
    port: &PortRow,
) -> Result<(), Refusal>
    ensures { IsAnswerOf (uses.port_in_use rows.now caller.now router.now port.now) result }
{
    if !(port.is_service() || !is_empty(&port.device)) {
        return Ok(());
    }
    Err(Refusal::InUse {
        rule: UseRule::PortInUse,
        kind: Kind::Router,
        id: router.id,
        by: service_told(rows, caller, port),
    })
}
