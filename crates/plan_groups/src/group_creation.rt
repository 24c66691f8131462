//! Making a group, with its two rules: all may go out.

ghost use Rattle.std.specs.Prelude.{◌≡◌, ◌+◌, ◌<◌, ◌≤◌, ◌^◌, ◌∷◌, ℕ, [], IfErr, IfOk, None, not, true};
ghost use Rattle.api_types.specs.Lists.{is_empty};
ghost use Rattle.api_types.specs.Printed.{NewRow};
ghost use Rattle.api_types.specs.Registration.{ident};
ghost use Rattle.api_types.specs.Table.{row_of};
ghost use Rattle.api_types.specs.declared.group.GroupRow.{GroupRow as TheGroup};
ghost use Rattle.api_types.specs.declared.group.RuleRow.{RuleRow as TheRule};
ghost use Rattle.api_types.specs.declared.kind.Row.TheVariants.{Group as GroupOf};
ghost use Rattle.call_parts.specs.Edits.{Add, made};
ghost use Rattle.call_parts.specs.InForm.{are_owners};
ghost use Rattle.call_parts.specs.Answers.{IsRefusalOf, Leads, Passes, drawing_of};
ghost use Rattle.plan_groups.specs.GroupCalls as calls;
ghost use Rattle.plan_groups.specs.GroupCalls.{group_created, group_creation_refusal, group_made, group_shown};
ghost use Rattle.plan_groups.specs.NewGroup.{group_edits, rule_edits};
ghost use Rattle.row_laws.specs.Drawn.{IsAbsent};

use crate::drawing::draw_new;
use api_policy::{admin_only, over_quota};
use api_types::{Direction, Ethertype, GroupForm, GroupRow, Id, Kind, Refusal, RuleRow};
use call_parts::{
    Asking, Draft, Drawn, PlannedRow, are_unlike, invalid, is_for_other, owner, text_or,
};
use net_addr::{Copies, OutOfMemory, Text};
use std::alloc::Global;

fn new_group(alloc: Global, form: &GroupForm, owner: &Text, id: Id) -> Result<GroupRow, OutOfMemory>
    ensures { IfOk result (λ g. g ≡ calls.new_group form.now owner.now id) }
{
    let empty = Text::new(alloc);
    Ok(GroupRow {
        id,
        project: owner.copy(alloc)?,
        name: text_or(alloc, &empty, &form.name)?,
        description: text_or(alloc, &empty, &form.description)?,
        is_default: false,
    })
}

fn egress_rule(
    alloc: Global,
    group: &GroupRow,
    ethertype: Ethertype,
    id: Id,
) -> Result<RuleRow, OutOfMemory>
    ensures { IfOk result (λ r. r ≡ calls.egress_rule group.now ethertype id) }
{
    Ok(RuleRow {
        id,
        project: group.project.copy(alloc)?,
        group: group.id,
        description: Text::new(alloc),
        direction: Direction::Egress,
        ethertype,
        protocol: None,
        low: None,
        high: None,
        remote_prefix: None,
        remote_group: None,
    })
}

fn ensure_creatable(
    alloc: Global,
    asking: &Asking<'_>,
    form: &GroupForm,
    owner: &Text,
) -> Result<(), Refusal>
    ensures { Passes
        (group_creation_refusal asking.now.settings asking.now.state.rows asking.now.caller
        form.now owner.now) result }
{
    let caller = asking.caller();
    if are_unlike(&form.project_id, &form.tenant_id) {
        return Err(invalid(alloc, "tenant_id"));
    }
    let for_other = is_for_other(caller, &form.project_id, &form.tenant_id);
    admin_only(caller, for_other)?;
    over_quota(asking.rows(), asking.settings(), owner, Kind::Group)
}

// The draft with the two rules of a new group, of which the first has this count.
fn add_rules(
    alloc: Global,
    draft: Draft,
    group: &GroupRow,
    ordinal: u32,
    first: u64,
) -> Result<Draft, OutOfMemory>
    requires within { first + 2 ≤ 2 ^ 62 }
    requires new { (k : ℕ) → k < 2
        → row_of (λ (r : TheRule). r.id) (ident ordinal (first + k)) draft.rows.rules ≡ None }
    ensures start { IfOk result (λ d. d.start ≡ draft.start) }
    ensures rows { IfOk result
        (λ d. d.rows
        ≡ made draft.rows
        (rule_edits group.now (ident ordinal first) (ident ordinal (first + 1)))) }
{
    let rule = egress_rule(alloc, group, Ethertype::Ipv4, Id::make(ordinal, first))?;
    let draft = draft.add(alloc, rule)?;
    let rule = egress_rule(alloc, group, Ethertype::Ipv6, Id::make(ordinal, first + 1))?;
    draft.add(alloc, rule)
}

// The draft with the new group and its two rules, of which the first has this count.
fn add_with_rules(
    alloc: Global,
    draft: Draft,
    group: GroupRow,
    ordinal: u32,
    first: u64,
) -> Result<PlannedRow<GroupRow>, OutOfMemory>
    requires within { first + 2 ≤ 2 ^ 62 }
    requires new_group { row_of (λ (g : TheGroup). g.id) group.id draft.rows.groups ≡ None }
    requires new_rules { (k : ℕ) → k < 2
        → row_of (λ (r : TheRule). r.id) (ident ordinal (first + k)) draft.rows.rules ≡ None }
    ensures start { IfOk result (λ p. p.draft.start ≡ draft.start) }
    ensures row { IfOk result (λ p. p.row ≡ group) }
    ensures rows { IfOk result
        (λ p. p.draft.rows
        ≡ made draft.rows
        (Add (GroupOf group)
        ∷ rule_edits group (ident ordinal first) (ident ordinal (first + 1)))) }
{
    let draft = draft.add(alloc, group.copy(alloc)?)?;
    let draft = add_rules(alloc, draft, &group, ordinal, first)?;
    Ok(PlannedRow { draft, row: group })
}

// The draft with the new group and its rules, by the ids that were drawn.
fn add_group(
    alloc: Global,
    drawn: Drawn,
    form: &GroupForm,
    owner: &Text,
) -> Result<PlannedRow<GroupRow>, OutOfMemory>
    requires within { drawn.first + 3 ≤ 2 ^ 62 }
    requires new { (k : ℕ) → k < 3
        → IsAbsent drawn.draft.rows (ident drawn.ordinal (drawn.first + k)) }
    ensures start { IfOk result (λ p. p.draft.start ≡ drawn.draft.start) }
    ensures row { IfOk result
        (λ p. p.row
        ≡ calls.new_group form.now owner.now (ident drawn.ordinal (drawn.first + 0))) }
    ensures rows { IfOk result
        (λ p. p.draft.rows ≡ made drawn.draft.rows (group_edits p.row (drawing_of drawn))) }
{
    let Drawn {
        draft,
        ordinal,
        first,
    } = drawn;
    let group = new_group(alloc, form, owner, Id::make(ordinal, first))?;
    add_with_rules(alloc, draft, group, ordinal, first + 1)
}

// The plan of the creation of a group that the project is to own.
fn make_group(
    alloc: Global,
    asking: &Asking<'_>,
    form: &GroupForm,
    owner: &Text,
) -> Result<PlannedRow<GroupRow>, Refusal>
    requires { not (is_empty owner.now) ≡ true }
    ensures ok { IfOk result
        (λ p. Leads asking.now.state.rows
        (group_made asking.now.settings asking.now.state asking.now.caller form.now owner.now)
        p.draft (λ after. NewRow (group_shown after asking.now.caller p.row []))) }
    ensures err { IfErr result
        (IsRefusalOf
        (group_made asking.now.settings asking.now.state asking.now.caller form.now
        owner.now)) }
{
    ensure_creatable(alloc, asking, form, owner)?;
    let drawn = draw_new(alloc, asking, owner, 3)?;
    Ok(add_group(alloc, drawn, form, owner)?)
}

/// The plan of a group's creation, or why it is refused. Its cost grows with the groups and the
/// projects.
pub fn create_group(
    alloc: Global,
    asking: &Asking<'_>,
    form: &GroupForm,
) -> Result<PlannedRow<GroupRow>, Refusal>
    requires named { not (is_empty asking.now.caller.project) ≡ true }
    requires owners { are_owners form.now.project_id form.now.tenant_id ≡ true }
    ensures ok { IfOk result
        (λ p. Leads asking.now.state.rows
        (group_created asking.now.settings asking.now.state asking.now.caller form.now) p.draft
        (λ after. NewRow (group_shown after asking.now.caller p.row []))) }
    ensures err { IfErr result
        (IsRefusalOf
        (group_created asking.now.settings asking.now.state asking.now.caller form.now)) }
{
    let owner = owner(asking.caller(), &form.project_id, &form.tenant_id);
    make_group(alloc, asking, form, owner)
}
