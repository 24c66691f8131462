//! The policies that a network's `shared` and `router:external` are.

ghost use Rattle.std.specs.Prelude.{◌≡◌, ◌≤◌, ◌<◌, ◌^◌, IfOk, None, find, option_copied, true};
ghost use Rattle.api_types.specs.Table.{row_of};
ghost use Rattle.api_types.specs.Registration.{ident};
ghost use Rattle.api_policy.specs.Networks as networks;
ghost use Rattle.api_policy.specs.Uses as uses;
ghost use Rattle.call_parts.specs.Edits.{made};
ghost use Rattle.plan_networks.specs.NetworkCalls.{closing};
ghost use Rattle.plan_networks.specs.NetworkCalls as network_calls;

use api_types::{Action, Given, Id, NetworkRow, PolicyRow, Shared};
use call_parts::{Draft, value_or};
use net_addr::{Copies, OutOfMemory, Text};
use std::alloc::Global;

fn permits_all(policy: &PolicyRow, network: Id, action: Action) -> bool
    ensures { result ≡ networks.permits_all network action policy.now }
{
    network == policy.object && (action == policy.action && policy.target.as_str() == "*")
}

// The first policy that permits the action on the network to all.
fn open_policy(
    policies: &[Shared<PolicyRow>],
    network: Id,
    action: Action,
) -> Option<&Shared<PolicyRow>>
    ensures { option_copied result ≡ uses.open_policy policies.now network action }
{
    policies
        .iter()
        .find(|policy| permits_all(policy, network, action))
}

/// As the next id, after this many.
pub(crate) fn one_if(holds: bool) -> u64
    ensures few { result ≤ 1 }
    ensures value { result ≡ network_calls.one_if holds }
{
    if holds { 1 } else { 0 }
}

/// Whether a form clears the attribute.
pub(crate) fn is_cleared(asked: &Given<bool>) -> bool
    ensures { result ≡ network_calls.is_cleared asked.now }
{
    !value_or(true, asked)
}

/// Whether a form sets the attribute and no policy does so yet. Its cost grows with the policies.
pub(crate) fn is_opened(
    policies: &[Shared<PolicyRow>],
    network: Id,
    action: Action,
    asked: &Given<bool>,
) -> bool
    ensures { result ≡ network_calls.is_opened asked.now
        (uses.open_policy policies.now network action) }
{
    value_or(false, asked) && open_policy(policies, network, action).is_none()
}

fn new_open_policy(
    alloc: Global,
    network: &NetworkRow,
    action: Action,
    id: Id,
) -> Result<PolicyRow, OutOfMemory>
    ensures { IfOk result (λ l. l ≡ network_calls.new_open_policy network.now action id) }
{
    Ok(PolicyRow {
        id,
        project: network.project.copy(alloc)?,
        object: network.id,
        action,
        target: Text::of(alloc, "*")?,
    })
}

/// The draft with a policy that permits the action to all, where one is to be made.
pub(crate) fn open(
    alloc: Global,
    draft: Draft,
    network: &NetworkRow,
    action: Action,
    ordinal: u32,
    count: u64,
    opens: bool,
) -> Result<Draft, OutOfMemory>
    requires small { opens ≡ true → count < 2 ^ 62 }
    requires new { opens ≡ true
        → row_of (λ l. l.id) (ident ordinal count) draft.rows.policies ≡ None }
    ensures start { IfOk result (λ d. d.start ≡ draft.start) }
    ensures rows { IfOk result
        (λ d. d.rows
        ≡ made draft.rows (network_calls.opening network.now action (ident ordinal count) opens)) }
{
    if !opens {
        return Ok(draft);
    }
    let id = Id::make(ordinal, count);
    draft.add(alloc, new_open_policy(alloc, network, action, id)?)
}

/// The draft without the policy that permits the action to all, where it is to go.
pub(crate) fn close(
    alloc: Global,
    draft: Draft,
    policies: &[Shared<PolicyRow>],
    network: Id,
    action: Action,
    cleared: bool,
) -> Result<Draft, OutOfMemory>
    ensures start { IfOk result (λ d. d.start ≡ draft.start) }
    ensures rows { IfOk result
        (λ d. d.rows
        ≡ made draft.rows (closing (uses.open_policy policies.now network action) cleared)) }
{
    if !cleared {
        return Ok(draft);
    }
    match open_policy(policies, network, action) {
        Some(policy) => draft.drop_row::<PolicyRow>(alloc, policy.id),
        None => Ok(draft),
    }
}
