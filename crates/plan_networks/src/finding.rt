//! The network that a call names.

ghost use Rattle.std.specs.Prelude.{◌≡◌, IfErr, IfOk, None, Some};
ghost use Rattle.api_types.specs.Refusing as refusing;
ghost use Rattle.api_types.specs.declared.kind.Kind.TheVariants.{Network as NetworkKind};
ghost use Rattle.api_policy.specs.Seen as seen;
ghost use Rattle.call_parts.specs.Answers.{IsOrMemory};

use api_policy::network_seen;
use api_types::{IdText, Kind, NetworkRow, Refusal};
use call_parts::{Asking, not_found};
use std::alloc::Global;

/// The network with this id that the caller sees. Its cost grows with the policies.
pub(crate) fn find_network<'r>(
    alloc: Global,
    asking: &Asking<'r>,
    name: &IdText,
) -> Result<&'r NetworkRow, Refusal>
    ensures found { IfOk result
        (λ network. seen.network_seen asking.now.state.rows asking.now.caller name.now.id
        ≡ Some network.now) }
    ensures missing { IfErr result
        (λ e. seen.network_seen asking.now.state.rows asking.now.caller name.now.id ≡ None) }
    ensures refusal { IfErr result
        (IsOrMemory (refusing.not_found NetworkKind name.now.text)) }
{
    match network_seen(asking.rows(), asking.caller(), name.id) {
        Some(network) => Ok(network),
        None => Err(not_found(alloc, Kind::Network, &name.text)),
    }
}
