//! The rows that calls name.

ghost use Rattle.std.specs.Prelude.{◌≡◌, IfErr, IfOk, None, Some};
ghost use Rattle.api_types.specs.Consistent.{IsConsistent};
ghost use Rattle.api_types.specs.Ident.{ident_text};
ghost use Rattle.api_types.specs.Refusing as refusing;
ghost use Rattle.api_types.specs.declared.kind.Kind.TheVariants.{Port as PortKind, Router as RouterKind, Subnet as SubnetKind};
ghost use Rattle.api_policy.specs.Seen as seen;
ghost use Rattle.call_parts.specs.Answers.{IsOrMemory};

use api_policy::{port_seen, router_seen, subnet_seen};
use api_types::{Id, IdText, Kind, PortRow, Refusal, RouterRow, SubnetRow};
use call_parts::{Asking, none_with_id, not_found};
use std::alloc::Global;

/// The router with this id that the caller sees. Constant time.
pub(crate) fn find_router<'r>(
    alloc: Global,
    asking: &Asking<'r>,
    name: &IdText,
) -> Result<&'r RouterRow, Refusal>
    ensures found { IfOk result
        (λ router. seen.router_seen asking.now.state.rows asking.now.caller name.now.id
        ≡ Some router.now) }
    ensures missing { IfErr result
        (λ e. seen.router_seen asking.now.state.rows asking.now.caller name.now.id ≡ None) }
    ensures refusal { IfErr result (IsOrMemory (refusing.not_found RouterKind name.now.text)) }
    ensures consistent { IsConsistent asking.now.state.rows }
{
    match router_seen(asking.rows(), asking.caller(), name.id) {
        Some(router) => Ok(router),
        None => Err(not_found(alloc, Kind::Router, &name.text)),
    }
}

/// The subnet with this id that the caller sees. Its cost grows with the policies.
pub(crate) fn find_subnet<'r>(
    alloc: Global,
    asking: &Asking<'r>,
    id: Id,
) -> Result<&'r SubnetRow, Refusal>
    ensures found { IfOk result
        (λ subnet. seen.subnet_seen asking.now.state.rows asking.now.caller (Some id)
        ≡ Some subnet.now) }
    ensures missing { IfErr result
        (λ e. seen.subnet_seen asking.now.state.rows asking.now.caller (Some id) ≡ None) }
    ensures refusal { IfErr result (IsOrMemory (refusing.not_found SubnetKind (ident_text id))) }
{
    match subnet_seen(asking.rows(), asking.caller(), Some(id)) {
        Some(subnet) => Ok(subnet),
        None => Err(none_with_id(alloc, Kind::Subnet, Some(id))),
    }
}

/// The port with this id that the caller sees. Constant time.
pub(crate) fn find_port<'r>(
    alloc: Global,
    asking: &Asking<'r>,
    id: Id,
) -> Result<&'r PortRow, Refusal>
    ensures found { IfOk result
        (λ port. seen.port_seen asking.now.state.rows asking.now.caller (Some id)
        ≡ Some port.now) }
    ensures missing { IfErr result
        (λ e. seen.port_seen asking.now.state.rows asking.now.caller (Some id) ≡ None) }
    ensures refusal { IfErr result (IsOrMemory (refusing.not_found PortKind (ident_text id))) }
{
    match port_seen(asking.rows(), asking.caller(), Some(id)) {
        Some(port) => Ok(port),
        None => Err(none_with_id(alloc, Kind::Port, Some(id))),
    }
}
