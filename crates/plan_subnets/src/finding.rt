//! The subnet that a call names.

ghost use Rattle.std.specs.Prelude.{◌≡◌, IfErr, IfOk, None, Some};
ghost use Rattle.api_types.specs.Refusing as refusing;
ghost use Rattle.api_types.specs.declared.kind.Kind.TheVariants.{Subnet as SubnetKind};
ghost use Rattle.api_policy.specs.Seen as seen;
ghost use Rattle.call_parts.specs.Answers.{IsOrMemory};

use api_policy::subnet_seen;
use api_types::{IdText, Kind, Refusal, SubnetRow};
use call_parts::{Asking, not_found};
use std::alloc::Global;

/// The subnet with this id that the caller sees. Its cost grows with the policies.
pub(crate) fn find_subnet<'r>(
    alloc: Global,
    asking: &Asking<'r>,
    name: &IdText,
) -> Result<&'r SubnetRow, Refusal>
    ensures found { IfOk result
        (λ subnet. seen.subnet_seen asking.now.state.rows asking.now.caller name.now.id
        ≡ Some subnet.now) }
    ensures missing { IfErr result
        (λ e. seen.subnet_seen asking.now.state.rows asking.now.caller name.now.id ≡ None) }
    ensures refusal { IfErr result (IsOrMemory (refusing.not_found SubnetKind name.now.text)) }
{
    match subnet_seen(asking.rows(), asking.caller(), name.id) {
        Some(subnet) => Ok(subnet),
        None => Err(not_found(alloc, Kind::Subnet, &name.text)),
    }
}
