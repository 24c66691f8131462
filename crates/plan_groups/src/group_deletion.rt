//! Taking a group out, with its rules and those that name it as their remote group.

ghost use Rattle.std.specs.Prelude.{◌≡◌, ◌||◌, IfErr, IfOk, filter, map};
ghost use Rattle.api_types.specs.Printed.{NoRow};
ghost use Rattle.api_types.specs.declared.group.RuleRow.{RuleRow as TheRule};
ghost use Rattle.call_parts.specs.Edits.{made};
ghost use Rattle.call_parts.specs.Answers.{IsRefusalOf, Leads, Passes};
ghost use Rattle.plan_groups.specs.GroupCalls.{group_deleted, group_deletion_refusal, group_gone};
ghost use Rattle.row_laws.specs.Gone as gone;

use crate::finding::find_group;
use api_policy::{default_in_use, ensure_version_left, group_in_use, owner_only};
use api_types::{GroupRow, Id, IdText, Refusal, Rows, RuleRow, Shared};
use call_parts::{Asking, Draft};
use net_addr::{OutOfMemory, Seq};
use std::alloc::Global;

// Whether the rule is of the group or has it as its remote group.
fn names_group(rule: &RuleRow, group: Id) -> bool
    ensures { result ≡ gone.names_group group rule.now }
{
    if group == rule.group {
        return true;
    }
    match rule.remote_group {
        Some(remote) => group == remote,
        None => false,
    }
}

fn rules_naming(alloc: Global, rules: &[Shared<RuleRow>], group: Id) -> Result<Seq<Id>, OutOfMemory>
    ensures { IfOk result
        (λ ids. ids ≡ map (λ (r : TheRule). r.id) (filter (gone.names_group group) rules.now)) }
{
    let mut ids = Seq::new(alloc);
    for rule in rules {
        if names_group(rule, group) {
            ids.push(rule.id)?;
        }
    }
    Ok(ids)
}

// The rows without the group and the rules that name it.
fn without_group(alloc: Global, rows: &Rows, group: Id) -> Result<Draft, OutOfMemory>
    ensures start { IfOk result (λ d. d.start ≡ rows.now) }
    ensures rows { IfOk result (λ d. d.rows ≡ made rows.now (group_gone rows.now group)) }
{
    let rules = rules_naming(alloc, rows.rules().rows(), group)?;
    let draft = Draft::begin(alloc, rows)?;
    let draft = draft.drop_rows::<RuleRow>(alloc, rules.as_slice())?;
    draft.drop_row::<GroupRow>(alloc, group)
}

fn ensure_deletable(asking: &Asking<'_>, group: &GroupRow) -> Result<(), Refusal>
    ensures { Passes
        (group_deletion_refusal asking.now.state asking.now.caller group.now) result }
{
    let (rows, caller) = (asking.rows(), asking.caller());
    owner_only(caller, &group.project)?;
    default_in_use(group)?;
    group_in_use(rows, caller, group.id)?;
    ensure_version_left(asking.version())
}

/// The plan of a group's deletion, or why it is refused. Its cost grows with the ports and the
/// groups that they name, and with the rules times those that go.
pub fn delete_group(alloc: Global, asking: &Asking<'_>, name: &IdText) -> Result<Draft, Refusal>
    ensures ok { IfOk result
        (λ d. Leads asking.now.state.rows
        (group_deleted asking.now.state asking.now.caller name.now) d (λ after. NoRow)) }
    ensures err { IfErr result
        (IsRefusalOf (group_deleted asking.now.state asking.now.caller name.now)) }
{
    let group = find_group(alloc, asking, name)?;
    ensure_deletable(asking, group)?;
    Ok(without_group(alloc, asking.rows(), group.id)?)
}
