//! The port that a call names.

ghost use Rattle.std.specs.Prelude.{◌≡◌, IfErr, IfOk, None, Some};
ghost use Rattle.api_types.specs.Refusing as refusing;
ghost use Rattle.api_types.specs.declared.kind.Kind.TheVariants.{Port as PortKind};
ghost use Rattle.api_policy.specs.Seen as seen;
ghost use Rattle.call_parts.specs.Answers.{IsOrMemory};

use api_policy::port_seen;
use api_types::{IdText, Kind, PortRow, Refusal};
use call_parts::{Asking, not_found};
use std::alloc::Global;

/// The port with this id that the caller sees. Constant time.
pub(crate) fn find_port<'r>(
    alloc: Global,
    asking: &Asking<'r>,
    name: &IdText,
) -> Result<&'r PortRow, Refusal>
    ensures found { IfOk result
        (λ port. seen.port_seen asking.now.state.rows asking.now.caller name.now.id
        ≡ Some port.now) }
    ensures missing { IfErr result
        (λ e. seen.port_seen asking.now.state.rows asking.now.caller name.now.id ≡ None) }
    ensures refusal { IfErr result (IsOrMemory (refusing.not_found PortKind name.now.text)) }
{
    match port_seen(asking.rows(), asking.caller(), name.id) {
        Some(port) => Ok(port),
        None => Err(not_found(alloc, Kind::Port, &name.text)),
    }
}
