//! Policies that say the same.

ghost use Rattle.std.specs.Prelude.{◌≡◌, ◌&&◌, find, option_copied, option_map};
ghost use Rattle.std.specs.Str.{bytes_eq};
ghost use Rattle.api_types.specs.Sharing.{is_action};
ghost use Rattle.api_types.specs.Table.{ident_eq};
ghost use Rattle.api_policy.specs.Checks.{IsAnswerOf};
ghost use Rattle.api_types.specs.WithRows.{gone_from};
ghost use Rattle.api_types.specs.declared.policy.PolicyRow.{PolicyRow as ThePolicy};
ghost use Rattle.api_policy.specs.Standing.{aimed};
ghost use Rattle.plan_policies.specs.PolicyCalls.{equal_policy};
ghost use Rattle.plan_policies.specs.PolicyCalls as policy_calls;

use api_types::{Action, Id, Kind, PolicyRow, Refusal, Shared};
use net_addr::Text;

fn says(policy: &PolicyRow, object: Id, action: Action, target: &Text) -> bool
    ensures { result
        ≡ (ident_eq policy.now.object object
        && (is_action policy.now.action action && bytes_eq policy.now.target target.now)) }
{
    policy.object == object && (policy.action == action && policy.target == *target)
}

// The first policy that says what the new one would.
pub(crate) fn equal_new<'r>(
    policies: &'r [Shared<PolicyRow>],
    object: Id,
    action: Action,
    target: &Text,
) -> Option<&'r Shared<PolicyRow>>
    ensures { option_copied result ≡ find (λ (q : ThePolicy). ident_eq q.object object
        && (is_action q.action action && bytes_eq q.target target.now)) policies.now }
{
    policies
        .iter()
        .find(|policy| says(policy, object, action, target))
}

// The first other policy that says what the changed one would.
pub(crate) fn equal_other<'r>(
    policies: &'r [Shared<PolicyRow>],
    old: &PolicyRow,
    target: &Text,
) -> Option<&'r Shared<PolicyRow>>
    ensures { option_copied result
        ≡ equal_policy (gone_from (λ (q : ThePolicy). q.id) old.now.id policies.now)
        (aimed old.now target.now) }
{
    for policy in policies {
        if old.id != policy.id && says(policy, old.object, old.action, target) {
            return Some(policy);
        }
    }
    None
}

// Refuses where a policy says the same.
pub(crate) fn ensure_none(equal: Option<&Shared<PolicyRow>>) -> Result<(), Refusal>
    ensures { IsAnswerOf (option_map policy_calls.policy_exists
        (option_copied equal.entry)) result }
{
    match equal {
        Some(policy) => Err(Refusal::Exists {
            kind: Kind::Policy,
            id: policy.id,
        }),
        None => Ok(()),
    }
}
