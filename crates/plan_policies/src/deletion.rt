//! The deletion of a policy.

ghost use Rattle.std.specs.Prelude.{◌≡◌, IfErr, IfOk};
ghost use Rattle.api_types.specs.Printed.{NoRow};
ghost use Rattle.api_types.specs.declared.policy.PolicyRow.{PolicyRow as ThePolicy};
ghost use Rattle.api_policy.specs.Checks.{IsAnswerOf};
ghost use Rattle.api_policy.specs.Uses as uses;
ghost use Rattle.api_types.specs.WithRows.{gone_from};
ghost use Rattle.call_parts.specs.Answers.{IsRefusalOf, Leads};
ghost use Rattle.plan_policies.specs.PolicyCalls.{deletion_refusal, policy_deleted};

use crate::finding::find_policy;
use api_policy::{Standing, ensure_version_left, owner_only, policy_in_use};
use api_types::{Caller, IdText, PolicyRow, Refusal, Rows};
use call_parts::{Asking, Draft};
use std::alloc::Global;

// Refuses where a port needs the policy.
fn ensure_unneeded(rows: &Rows, caller: &Caller, policy: &PolicyRow) -> Result<(), Refusal>
    ensures { IsAnswerOf
        (uses.policy_in_use rows.now caller.now
        (gone_from (λ (q : ThePolicy). q.id) policy.now.id rows.now.policies) policy.now) result }
{
    let standing = Standing::Without { policy: policy.id };
    policy_in_use(rows, caller, &standing, policy)
}

fn ensure_deletable(asking: &Asking<'_>, policy: &PolicyRow) -> Result<(), Refusal>
    ensures { IsAnswerOf (deletion_refusal asking.now.state asking.now.caller policy.now) result }
{
    owner_only(asking.caller(), &policy.project)?;
    ensure_unneeded(asking.rows(), asking.caller(), policy)?;
    ensure_version_left(asking.version())
}

/// The plan of a policy's deletion, or why it is refused. Its cost grows as that of
/// `policy_in_use`.
pub fn delete_policy(alloc: Global, asking: &Asking<'_>, name: &IdText) -> Result<Draft, Refusal>
    ensures ok { IfOk result
        (λ d. Leads asking.now.state.rows
        (policy_deleted asking.now.state asking.now.caller name.now) d (λ after. NoRow)) }
    ensures err { IfErr result
        (IsRefusalOf (policy_deleted asking.now.state asking.now.caller name.now)) }
{
    let policy = find_policy(alloc, asking, name)?;
    ensure_deletable(asking, policy)?;
    let draft = Draft::begin(alloc, asking.rows())?;
    Ok(draft.drop_row::<PolicyRow>(alloc, policy.id)?)
}
