//! Making a rule, of its group's project.

ghost use Rattle.std.specs.Prelude.{◌≡◌, ◌+◌, ◌<◌, ◌^◌, [], IfErr, IfOk, None, OnOk, not, option_copied, option_map, option_to_list, true};
ghost use Rattle.api_types.specs.Lists.{is_empty};
ghost use Rattle.api_types.specs.Printed.{NewRow};
ghost use Rattle.api_types.specs.Registration.{ident};
ghost use Rattle.api_types.specs.Table.{row_of};
ghost use Rattle.api_types.specs.declared.call.Caller.{Caller as TheCaller};
ghost use Rattle.api_types.specs.declared.group.RuleRow.{RuleRow as TheRule};
ghost use Rattle.api_types.specs.declared.kind.Kind.TheVariants.{Group as GroupKind};
ghost use Rattle.api_types.specs.declared.kind.Row.TheVariants.{Rule as RuleOf};
ghost use Rattle.api_policy.specs.Checks.{IsAnswerOf};
ghost use Rattle.call_parts.specs.BodyNames.{unless_all};
ghost use Rattle.api_types.specs.WithRows.{with_added};
ghost use Rattle.call_parts.specs.Answers.{IsRefusalIn, IsRefusalOf, Leads, Passes};
ghost use Rattle.plan_groups.specs.GroupCalls as calls;
ghost use Rattle.plan_groups.specs.GroupCalls.{rule_created, rule_creation_refusal, rule_shown};
ghost use Rattle.plan_groups.specs.Open.{IsOpen};
ghost use Rattle.api_secgroup.specs.RuleOf.{bare_rule, parts_asked};
ghost use Rattle.api_secgroup.specs.RuleParts as rule_parts;
ghost use Rattle.api_secgroup.specs.RuleParts.{bad_part};

use crate::drawing::draw_new;
use api_policy::{group_seen, over_quota, owner_only};
use api_secgroup::{BadPart, RuleParts, equal_rule, rule_of};
use api_types::{Caller, GroupRow, Id, Kind, Refusal, Rows, RuleForm, RuleRow, Shared};
use call_parts::{Asking, Drawn, PlannedRow, invalid, none_with_id, text_or, value_of};
use net_addr::{Copies, OutOfMemory, Text};
use std::alloc::Global;

fn new_rule(
    alloc: Global,
    form: &RuleForm,
    parts: &RuleParts,
    group: &GroupRow,
    id: Id,
) -> Result<RuleRow, OutOfMemory>
    requires { parts.now ≡ parts_asked form.now }
    ensures { IfOk result (λ r. r ≡ rule_parts.new_rule form.now group.now id) }
{
    let empty = Text::new(alloc);
    Ok(RuleRow {
        id,
        project: group.project.copy(alloc)?,
        group: group.id,
        description: text_or(alloc, &empty, &form.description)?,
        direction: parts.direction,
        ethertype: parts.ethertype,
        protocol: parts.protocol,
        low: parts.low,
        high: parts.high,
        remote_prefix: parts.remote_prefix,
        remote_group: parts.remote_group,
    })
}

// What the rule is asked to say, where no attribute forbids another.
fn asked_parts(alloc: Global, form: &RuleForm) -> Result<RuleParts, Refusal>
    ensures parts { IfOk result (λ p. p ≡ parts_asked form.now) }
    ensures ok { OnOk result (bad_part form.now ≡ None) }
    ensures err { IfErr result (IsRefusalIn (bad_part form.now)) }
{
    match rule_of(form) {
        Ok(parts) => Ok(parts),
        Err(BadPart { name }) => Err(invalid(alloc, name.as_str())),
    }
}

// Whether the remote group is of the project of the rule's group, where that is found.
fn is_remote_for(group: Option<&GroupRow>, remote: &GroupRow) -> bool
    ensures { (caller : TheCaller)
        → result ≡ calls.is_remote_for caller (option_copied group.entry) remote.now }
{
    match group {
        Some(group) => remote.project == group.project,
        None => true,
    }
}

fn is_remote_seen(rows: &Rows, caller: &Caller, group: Option<&GroupRow>, id: Id) -> bool
    ensures { result ≡ calls.is_remote_seen rows.now caller.now (option_copied group.entry) id }
{
    match group_seen(rows, caller, Some(id)) {
        Some(remote) => is_remote_for(group, remote),
        None => false,
    }
}

// Refuses a remote group that isn't seen.
fn ensure_remote_seen(
    alloc: Global,
    rows: &Rows,
    caller: &Caller,
    group: Option<&GroupRow>,
    remote: Option<Id>,
) -> Result<(), Refusal>
    ensures { Passes
        (unless_all GroupKind
        (calls.is_remote_seen rows.now caller.now (option_copied group.entry))
        (option_to_list remote)) result }
{
    let Some(id) = remote else {
        return Ok(());
    };
    if is_remote_seen(rows, caller, group, id) {
        return Ok(());
    }
    Err(none_with_id(alloc, Kind::Group, remote))
}

// Refuses where a rule says the same.
fn ensure_none(equal: Option<&Shared<RuleRow>>) -> Result<(), Refusal>
    ensures { IsAnswerOf (option_map calls.rule_exists (option_copied equal.entry)) result }
{
    match equal {
        Some(rule) => Err(Refusal::Exists {
            kind: Kind::Rule,
            id: rule.id,
        }),
        None => Ok(()),
    }
}

// Refuses where a rule of the group says the same.
fn ensure_absent(rows: &Rows, group: &GroupRow, parts: &RuleParts) -> Result<(), Refusal>
    ensures { IsAnswerOf
        (option_map calls.rule_exists
        (rule_parts.equal_rule rows.now.rules (bare_rule group.now.id group.now.project parts.now)))
        result }
{
    ensure_none(equal_rule(rows.rules().rows(), group.id, &group.project, parts))
}

fn ensure_creatable(asking: &Asking<'_>, group: &GroupRow, parts: &RuleParts) -> Result<(), Refusal>
    ensures { IsAnswerOf
        (rule_creation_refusal asking.now.settings asking.now.state.rows asking.now.caller
        group.now (bare_rule group.now.id group.now.project parts.now)) result }
{
    let rows = asking.rows();
    owner_only(asking.caller(), &group.project)?;
    ensure_absent(rows, group, parts)?;
    over_quota(rows, asking.settings(), &group.project, Kind::Rule)
}

// The group in which the rule may be made.
fn open_group<'r>(
    alloc: Global,
    asking: &Asking<'r>,
    form: &RuleForm,
    parts: &RuleParts,
) -> Result<&'r GroupRow, Refusal>
    requires parts { parts.now ≡ parts_asked form.now }
    requires good { bad_part form.now ≡ None }
    ensures ok { IfOk result
        (λ g. IsOpen asking.now.settings asking.now.state.rows asking.now.caller form.now
        g.now) }
    ensures named { IfOk result (λ g. not (is_empty g.now.project) ≡ true) }
    ensures err { IfErr result
        (IsRefusalOf
        (rule_created asking.now.settings asking.now.state asking.now.caller form.now)) }
{
    let rows = asking.rows();
    let caller = asking.caller();
    let group = group_seen(rows, caller, value_of(&form.security_group_id));
    ensure_remote_seen(alloc, rows, caller, group, parts.remote_group)?;
    let Some(group) = group else {
        let id = value_of(&form.security_group_id);
        return Err(none_with_id(alloc, Kind::Group, id));
    };
    ensure_creatable(asking, group, parts)?;
    Ok(group)
}

// The draft with the new rule, which has the first id that was drawn.
fn add_rule(
    alloc: Global,
    drawn: Drawn,
    form: &RuleForm,
    parts: &RuleParts,
    group: &GroupRow,
) -> Result<PlannedRow<RuleRow>, OutOfMemory>
    requires parts { parts.now ≡ parts_asked form.now }
    requires within { drawn.first < 2 ^ 62 }
    requires new { row_of (λ (r : TheRule). r.id) (ident drawn.ordinal (drawn.first + 0))
        drawn.draft.rows.rules ≡ None }
    ensures start { IfOk result (λ p. p.draft.start ≡ drawn.draft.start) }
    ensures row { IfOk result
        (λ p. p.row
        ≡ rule_parts.new_rule form.now group.now (ident drawn.ordinal (drawn.first + 0))) }
    ensures rows { IfOk result
        (λ p. p.draft.rows ≡ with_added drawn.draft.rows (RuleOf p.row)) }
{
    let id = drawn.id(0);
    let rule = new_rule(alloc, form, parts, group, id)?;
    let kept = rule.copy(alloc)?;
    Ok(PlannedRow {
        draft: drawn.draft.add(alloc, rule)?,
        row: kept,
    })
}

/// The plan of a rule's creation, or why it is refused. Its cost grows with the rules and the
/// projects.
pub fn create_rule(
    alloc: Global,
    asking: &Asking<'_>,
    form: &RuleForm,
) -> Result<PlannedRow<RuleRow>, Refusal>
    ensures ok { IfOk result
        (λ p. Leads asking.now.state.rows
        (rule_created asking.now.settings asking.now.state asking.now.caller form.now) p.draft
        (λ after. NewRow (rule_shown after asking.now.caller p.row []))) }
    ensures err { IfErr result
        (IsRefusalOf
        (rule_created asking.now.settings asking.now.state asking.now.caller form.now)) }
{
    let parts = asked_parts(alloc, form)?;
    let group = open_group(alloc, asking, form, &parts)?;
    let drawn = draw_new(alloc, asking, &group.project, 1)?;
    Ok(add_rule(alloc, drawn, form, &parts, group)?)
}
