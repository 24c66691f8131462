//! The floating address that a call names.

ghost use Rattle.std.specs.Prelude.{◌≡◌, IfErr, IfOk, None, Some};
ghost use Rattle.api_types.specs.Refusing as refusing;
ghost use Rattle.api_types.specs.declared.kind.Kind.TheVariants.{Floating as FloatingKind};
ghost use Rattle.api_policy.specs.Seen as seen;
ghost use Rattle.call_parts.specs.Answers.{IsOrMemory};

use api_policy::floating_seen;
use api_types::{FloatingRow, IdText, Kind, Refusal};
use call_parts::{Asking, not_found};
use std::alloc::Global;

/// The floating address with this id that the caller sees. Constant time.
pub(crate) fn find_floating<'r>(
    alloc: Global,
    asking: &Asking<'r>,
    name: &IdText,
) -> Result<&'r FloatingRow, Refusal>
    ensures found { IfOk result
        (λ floating. seen.floating_seen asking.now.state.rows asking.now.caller name.now.id
        ≡ Some floating.now) }
    ensures missing { IfErr result
        (λ e. seen.floating_seen asking.now.state.rows asking.now.caller name.now.id ≡ None) }
    ensures refusal { IfErr result (IsOrMemory (refusing.not_found FloatingKind name.now.text)) }
{
    match floating_seen(asking.rows(), asking.caller(), name.id) {
        Some(floating) => Ok(floating),
        None => Err(not_found(alloc, Kind::Floating, &name.text)),
    }
}
