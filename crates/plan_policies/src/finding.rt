//! The policy that a call names.

ghost use Rattle.std.specs.Prelude.{◌≡◌, IfErr, IfOk, None, Some};
ghost use Rattle.api_types.specs.Refusing as refusing;
ghost use Rattle.api_types.specs.declared.kind.Kind.TheVariants.{Policy as PolicyKind};
ghost use Rattle.api_policy.specs.Seen as seen;
ghost use Rattle.call_parts.specs.Answers.{IsOrMemory};

use api_policy::policy_seen;
use api_types::{IdText, Kind, PolicyRow, Refusal};
use call_parts::{Asking, not_found};
use std::alloc::Global;

/// The policy with this id that the caller sees. Constant time.
pub(crate) fn find_policy<'r>(
    alloc: Global,
    asking: &Asking<'r>,
    name: &IdText,
) -> Result<&'r PolicyRow, Refusal>
    ensures found { IfOk result
        (λ policy. seen.policy_seen asking.now.state.rows asking.now.caller name.now.id
        ≡ Some policy.now) }
    ensures missing { IfErr result
        (λ e. seen.policy_seen asking.now.state.rows asking.now.caller name.now.id ≡ None) }
    ensures refusal { IfErr result (IsOrMemory (refusing.not_found PolicyKind name.now.text)) }
{
    match policy_seen(asking.rows(), asking.caller(), name.id) {
        Some(policy) => Ok(policy),
        None => Err(not_found(alloc, Kind::Policy, &name.text)),
    }
}
