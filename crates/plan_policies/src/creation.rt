//! The creation of a policy.

ghost use Rattle.std.specs.Prelude.{◌≡◌, ◌+◌, ◌<◌, ◌^◌, [], IfErr, IfOk, None, not, option_map, true};
ghost use Rattle.api_types.specs.Given as given_specs;
ghost use Rattle.api_types.specs.Lists.{is_empty};
ghost use Rattle.api_types.specs.Printed.{NewRow};
ghost use Rattle.api_types.specs.Registration.{ident};
ghost use Rattle.api_types.specs.Table.{row_of};
ghost use Rattle.api_types.specs.declared.kind.Row.TheVariants.{Policy as PolicyOf};
ghost use Rattle.api_types.specs.declared.policy.PolicyRow.{PolicyRow as ThePolicy};
ghost use Rattle.api_policy.specs.Checks.{IsAnswerOf};
ghost use Rattle.call_parts.specs.BodyNames.{no_id};
ghost use Rattle.api_types.specs.WithRows.{with_added};
ghost use Rattle.call_parts.specs.InForm.{are_owners};
ghost use Rattle.plan_policies.specs.Open.{IsOpen};
ghost use Rattle.call_parts.specs.Answers.{IsRefusalOf, Leads};
ghost use Rattle.plan_policies.specs.PolicyCalls.{creation_refusal, equal_policy, policy_created, policy_shown};
ghost use Rattle.plan_policies.specs.PolicyCalls as policy_calls;

use crate::equal::{ensure_none, equal_new};
use api_policy::{admin_only, network_owner, network_seen, over_quota, policy_for_admin};
use api_types::{Action, Given, Id, Kind, NetworkRow, PolicyForm, PolicyRow, Refusal, Rows};
use call_parts::{
    Asking, Drawn, PlannedRow, are_unlike, invalid, none_with_id, owner, text_or, value_of,
    value_or,
};
use net_addr::{Copies, OutOfMemory, Text};
use std::alloc::Global;

fn new_policy(
    alloc: Global,
    form: &PolicyForm,
    owner: &Text,
    network: Id,
    id: Id,
) -> Result<PolicyRow, OutOfMemory>
    ensures { IfOk result (λ l. l ≡ policy_calls.new_policy form.now owner.now network id) }
{
    let empty = Text::new(alloc);
    Ok(PolicyRow {
        id,
        project: owner.copy(alloc)?,
        object: network,
        action: value_or(Action::Shared, &form.action),
        target: text_or(alloc, &empty, &form.target_tenant)?,
    })
}

// The text that is given, or this one.
fn text_given<'f>(text: &'f Text, given: &'f Given<Text>) -> &'f Text
    ensures { result.now ≡ given_specs.value_or text.now given.now }
{
    match given {
        Given::Is(given) => given,
        _ => text,
    }
}

// Refuses where a policy stands that says the same.
fn ensure_absent(
    alloc: Global,
    rows: &Rows,
    form: &PolicyForm,
    owner: &Text,
    network: Id,
) -> Result<(), Refusal>
    ensures { IsAnswerOf
        (option_map policy_calls.policy_exists
        (equal_policy rows.now.policies
        (policy_calls.new_policy form.now owner.now network no_id))) result }
{
    let empty = Text::new(alloc);
    let action = value_or(Action::Shared, &form.action);
    let target = text_given(&empty, &form.target_tenant);
    ensure_none(equal_new(rows.policies().rows(), network, action, target))
}

fn ensure_creatable(
    alloc: Global,
    asking: &Asking<'_>,
    form: &PolicyForm,
    owner: &Text,
    network: &NetworkRow,
) -> Result<(), Refusal>
    ensures { IsAnswerOf
        (creation_refusal asking.now.settings asking.now.state.rows asking.now.caller form.now
        owner.now network.now) result }
{
    let (rows, caller) = (asking.rows(), asking.caller());
    admin_only(caller, policy_for_admin(caller, form))?;
    network_owner(rows, caller, true, network.id)?;
    ensure_absent(alloc, rows, form, owner, network.id)?;
    over_quota(rows, asking.settings(), owner, Kind::Policy)
}

// The network on which the policy may be made.
fn open_network<'r>(
    alloc: Global,
    asking: &Asking<'r>,
    form: &PolicyForm,
) -> Result<&'r NetworkRow, Refusal>
    ensures ok { IfOk result (λ n. IsOpen asking.now.settings asking.now.state.rows
        asking.now.caller form.now n.now) }
    ensures err { IfErr result
        (IsRefusalOf
        (policy_created asking.now.settings asking.now.state asking.now.caller form.now)) }
{
    let caller = asking.caller();
    if are_unlike(&form.project_id, &form.tenant_id) {
        return Err(invalid(alloc, "tenant_id"));
    }
    let Some(network) = network_seen(asking.rows(), caller, value_of(&form.object_id)) else {
        let id = value_of(&form.object_id);
        return Err(none_with_id(alloc, Kind::Network, id));
    };
    let owner = owner(caller, &form.project_id, &form.tenant_id);
    ensure_creatable(alloc, asking, form, owner, network)?;
    Ok(network)
}

// The draft with the new policy, which has the first id that was drawn.
fn added(
    alloc: Global,
    drawn: Drawn,
    form: &PolicyForm,
    owner: &Text,
    network: Id,
) -> Result<PlannedRow<PolicyRow>, OutOfMemory>
    requires within { drawn.first < 2 ^ 62 }
    requires new { row_of (λ (l : ThePolicy). l.id) (ident drawn.ordinal (drawn.first + 0))
        drawn.draft.rows.policies ≡ None }
    ensures start { IfOk result (λ p. p.draft.start ≡ drawn.draft.start) }
    ensures row { IfOk result
        (λ p. p.row
        ≡ policy_calls.new_policy form.now owner.now network
        (ident drawn.ordinal (drawn.first + 0))) }
    ensures rows { IfOk result
        (λ p. p.draft.rows ≡ with_added drawn.draft.rows (PolicyOf p.row)) }
{
    let id = drawn.id(0);
    let policy = new_policy(alloc, form, owner, network, id)?;
    let kept = policy.copy(alloc)?;
    Ok(PlannedRow {
        draft: drawn.draft.add(alloc, policy)?,
        row: kept,
    })
}

/// The plan of a policy's creation, or why it is refused. Its cost grows with the policies and the
/// projects.
pub fn create_policy(
    alloc: Global,
    asking: &Asking<'_>,
    form: &PolicyForm,
) -> Result<PlannedRow<PolicyRow>, Refusal>
    requires named { not (is_empty asking.now.caller.project) ≡ true }
    requires owners { are_owners form.now.project_id form.now.tenant_id ≡ true }
    ensures ok { IfOk result
        (λ p. Leads asking.now.state.rows
        (policy_created asking.now.settings asking.now.state asking.now.caller form.now) p.draft
        (λ after. NewRow (policy_shown after asking.now.caller p.row []))) }
    ensures err { IfErr result
        (IsRefusalOf
        (policy_created asking.now.settings asking.now.state asking.now.caller form.now)) }
{
    let network = open_network(alloc, asking, form)?;
    let owner = owner(asking.caller(), &form.project_id, &form.tenant_id);
    let drawn = asking.draw(alloc, owner, 1)?;
    Ok(added(alloc, drawn, form, owner, network.id)?)
}
