//! The change of a group.

ghost use Rattle.std.specs.Prelude.{◌≡◌, [], IfErr, IfOk};
ghost use Rattle.api_types.specs.Printed.{OneRow};
ghost use Rattle.call_parts.specs.Answers.{IsRefusalOf, Leads, Passes};
ghost use Rattle.plan_groups.specs.GroupCalls.{group_shown, group_update_refusal, group_updated};
ghost use Rattle.plan_groups.specs.GroupCalls as group_calls;

use crate::finding::find_group;
use api_policy::{ensure_version_left, owner_only};
use api_types::{GroupForm, GroupRow, IdText, Refusal};
use call_parts::{Asking, Draft, PlannedRow, invalid, is_given, text_or};
use net_addr::{Copies, OutOfMemory};
use std::alloc::Global;

fn changed_group(alloc: Global, form: &GroupForm, group: &GroupRow) -> Result<GroupRow, OutOfMemory>
    ensures { IfOk result (λ g. g ≡ group_calls.changed_group form.now group.now) }
{
    Ok(GroupRow {
        id: group.id,
        project: group.project.copy(alloc)?,
        name: text_or(alloc, &group.name, &form.name)?,
        description: text_or(alloc, &group.description, &form.description)?,
        is_default: group.is_default,
    })
}

// A default group keeps its name.
fn ensure_changeable(
    alloc: Global,
    asking: &Asking<'_>,
    form: &GroupForm,
    group: &GroupRow,
) -> Result<(), Refusal>
    ensures { Passes
        (group_update_refusal asking.now.state asking.now.caller form.now group.now) result }
{
    if group.is_default && is_given(&form.name) {
        return Err(invalid(alloc, "name"));
    }
    owner_only(asking.caller(), &group.project)?;
    ensure_version_left(asking.version())
}

/// The plan of a group's change, or why it is refused. Its cost grows with the groups.
pub fn update_group(
    alloc: Global,
    asking: &Asking<'_>,
    name: &IdText,
    form: &GroupForm,
) -> Result<PlannedRow<GroupRow>, Refusal>
    ensures ok { IfOk result
        (λ p. Leads asking.now.state.rows
        (group_updated asking.now.state asking.now.caller name.now form.now) p.draft
        (λ after. OneRow (group_shown after asking.now.caller p.row []))) }
    ensures err { IfErr result
        (IsRefusalOf (group_updated asking.now.state asking.now.caller name.now form.now)) }
{
    let group = find_group(alloc, asking, name)?;
    ensure_changeable(alloc, asking, form, group)?;
    let changed = changed_group(alloc, form, group)?;
    let kept = changed.copy(alloc)?;
    Ok(PlannedRow {
        draft: Draft::begin(alloc, asking.rows())?.put(alloc, changed)?,
        row: kept,
    })
}
