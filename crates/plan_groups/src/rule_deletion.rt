//! Taking a rule out.

ghost use Rattle.std.specs.Prelude.{◌≡◌, IfErr, IfOk};
ghost use Rattle.api_types.specs.Printed.{NoRow};
ghost use Rattle.api_policy.specs.Checks.{IsAnswerOf};
ghost use Rattle.call_parts.specs.Answers.{IsRefusalOf, Leads};
ghost use Rattle.plan_groups.specs.GroupCalls.{rule_deleted, rule_deletion_refusal};

use crate::finding::find_rule;
use api_policy::{ensure_version_left, owner_only};
use api_types::{IdText, Refusal, RuleRow};
use call_parts::{Asking, Draft};
use std::alloc::Global;

fn ensure_deletable(asking: &Asking<'_>, rule: &RuleRow) -> Result<(), Refusal>
    ensures { IsAnswerOf
        (rule_deletion_refusal asking.now.state asking.now.caller rule.now) result }
{
    let caller = asking.caller();
    owner_only(caller, &rule.project)?;
    ensure_version_left(asking.version())
}

/// The plan of a rule's deletion, or why it is refused. Its cost grows with the rules.
pub fn delete_rule(alloc: Global, asking: &Asking<'_>, name: &IdText) -> Result<Draft, Refusal>
    ensures ok { IfOk result
        (λ d. Leads asking.now.state.rows
        (rule_deleted asking.now.state asking.now.caller name.now) d (λ after. NoRow)) }
    ensures err { IfErr result
        (IsRefusalOf (rule_deleted asking.now.state asking.now.caller name.now)) }
{
    let rule = find_rule(alloc, asking, name)?;
    ensure_deletable(asking, rule)?;
    let draft = Draft::begin(alloc, asking.rows())?;
    Ok(draft.drop_row::<RuleRow>(alloc, rule.id)?)
}
