//! The change of a policy.

ghost use Rattle.std.specs.Prelude.{◌≡◌, [], IfErr, IfOk, option_map};
ghost use Rattle.api_types.specs.Given as given;
ghost use Rattle.api_types.specs.Printed.{OneRow};
ghost use Rattle.api_types.specs.declared.policy.PolicyRow.{PolicyRow as ThePolicy};
ghost use Rattle.api_policy.specs.Checks.{IsAnswerOf};
ghost use Rattle.api_policy.specs.Uses as uses;
ghost use Rattle.api_types.specs.WithRows.{gone_from, put_in};
ghost use Rattle.call_parts.specs.Answers.{IsRefusalOf, Leads};
ghost use Rattle.plan_policies.specs.PolicyCalls.{equal_policy, policy_shown, policy_updated, update_refusal};
ghost use Rattle.plan_policies.specs.PolicyCalls as policy_calls;

use crate::equal::{ensure_none, equal_other};
use crate::finding::find_policy;
use api_policy::{
    Standing, admin_only, ensure_version_left, owner_only, policy_for_admin, policy_in_use,
};
use api_types::{Caller, Given, IdText, PolicyForm, PolicyRow, Refusal, Rows};
use call_parts::{Asking, Draft, PlannedRow};
use net_addr::{Copies, OutOfMemory, Text};
use std::alloc::Global;

// The target that the policy would have.
fn target_after<'f>(form: &'f PolicyForm, policy: &'f PolicyRow) -> &'f Text
    ensures { result.now ≡ given.value_or policy.now.target form.now.target_tenant }
{
    match &form.target_tenant {
        Given::Is(target) => target,
        _ => &policy.target,
    }
}

fn changed_policy(
    alloc: Global,
    form: &PolicyForm,
    policy: &PolicyRow,
) -> Result<PolicyRow, OutOfMemory>
    ensures { IfOk result (λ l. l ≡ policy_calls.changed_policy form.now policy.now) }
{
    Ok(PolicyRow {
        id: policy.id,
        project: policy.project.copy(alloc)?,
        object: policy.object,
        action: policy.action,
        target: target_after(form, policy).copy(alloc)?,
    })
}

// Refuses where a port needs the policy with the target that it has.
fn ensure_unneeded(
    rows: &Rows,
    caller: &Caller,
    form: &PolicyForm,
    policy: &PolicyRow,
) -> Result<(), Refusal>
    ensures { IsAnswerOf
        (uses.policy_in_use rows.now caller.now
        (put_in (λ (q : ThePolicy). q.id)
        (policy_calls.changed_policy form.now policy.now) rows.now.policies)
        policy.now) result }
{
    let target = target_after(form, policy);
    let standing = Standing::Aimed { policy, target };
    policy_in_use(rows, caller, &standing, policy)
}

// Refuses where another policy says what the changed one would.
fn ensure_unsaid(rows: &Rows, form: &PolicyForm, policy: &PolicyRow) -> Result<(), Refusal>
    ensures { IsAnswerOf
        (option_map policy_calls.policy_exists
        (equal_policy (gone_from (λ (q : ThePolicy). q.id) policy.now.id rows.now.policies)
        (policy_calls.changed_policy form.now policy.now))) result }
{
    let target = target_after(form, policy);
    ensure_none(equal_other(rows.policies().rows(), policy, target))
}

fn ensure_changeable(
    asking: &Asking<'_>,
    form: &PolicyForm,
    policy: &PolicyRow,
) -> Result<(), Refusal>
    ensures { IsAnswerOf
        (update_refusal asking.now.state asking.now.caller form.now policy.now
        (policy_calls.changed_policy form.now policy.now)) result }
{
    let (rows, caller) = (asking.rows(), asking.caller());
    admin_only(caller, policy_for_admin(caller, form))?;
    owner_only(caller, &policy.project)?;
    ensure_unneeded(rows, caller, form, policy)?;
    ensure_unsaid(rows, form, policy)?;
    ensure_version_left(asking.version())
}

/// The plan of a policy's change, or why it is refused. Its cost grows with the policies, and as
/// that of `policy_in_use`.
pub fn update_policy(
    alloc: Global,
    asking: &Asking<'_>,
    name: &IdText,
    form: &PolicyForm,
) -> Result<PlannedRow<PolicyRow>, Refusal>
    ensures ok { IfOk result
        (λ p. Leads asking.now.state.rows
        (policy_updated asking.now.state asking.now.caller name.now form.now) p.draft
        (λ after. OneRow (policy_shown after asking.now.caller p.row []))) }
    ensures err { IfErr result
        (IsRefusalOf (policy_updated asking.now.state asking.now.caller name.now form.now)) }
{
    let policy = find_policy(alloc, asking, name)?;
    ensure_changeable(asking, form, policy)?;
    let changed = changed_policy(alloc, form, policy)?;
    let kept = changed.copy(alloc)?;
    Ok(PlannedRow {
        draft: Draft::begin(alloc, asking.rows())?.put(alloc, changed)?,
        row: kept,
    })
}
