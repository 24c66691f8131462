//! Changing a network.

ghost use Rattle.std.specs.Prelude.{◌≡◌, ◌+◌, ◌≤◌, ◌<◌, ◌^◌, ◌||◌, ◌++◌, [], if◌then◌else◌, ℕ, IfErr, IfOk, None, true};
ghost use Rattle.api_policy.specs.Standing.{without_closed};
ghost use Rattle.api_policy.specs.Uses.{open_policy};
ghost use Rattle.api_policy.specs.Uses as uses;
ghost use Rattle.api_types.specs.Printed.{OneRow};
ghost use Rattle.api_types.specs.Registration.{ident};
ghost use Rattle.api_types.specs.Table.{row_of};
ghost use Rattle.api_types.specs.declared.policy.Action.TheVariants.{External as ExternalOf, Shared as SharedOf};
ghost use Rattle.call_parts.specs.Edits.{made};
ghost use Rattle.plan_networks.specs.NetworkCalls as calls;
ghost use Rattle.plan_networks.specs.NetworkCalls.{network_edits, network_shown, network_updated, reopening, update_refusal};
ghost use Rattle.call_parts.specs.Answers.{IsRefusalOf, Leads, Passes, drawing_of};
ghost use Rattle.row_laws.specs.Drawn.{IsAbsent};

use crate::drawing::draw_new;
use crate::finding::find_network;
use crate::opening::{close, is_cleared, is_opened, one_if, open};
use api_policy::{Standing, admin_only, network_for_admin, open_in_use, owner_only};
use api_types::{
    Action, Caller, Given, IdText, NetworkForm, NetworkRow, PolicyRow, Refusal, Rows, Shared,
};
use call_parts::{Asking, Draft, Drawn, PlannedRow, text_or, value_or};
use net_addr::{Copies, OutOfMemory};
use std::alloc::Global;

/// The id that a policy gets if it is made.
#[derive(Clone, Copy)]
struct NextId {
    ordinal: u32,
    count: u64,
}

fn changed_network(
    alloc: Global,
    form: &NetworkForm,
    network: &NetworkRow,
) -> Result<NetworkRow, OutOfMemory>
    ensures { IfOk result (λ n. n ≡ calls.changed_network form.now network.now) }
{
    Ok(NetworkRow {
        id: network.id,
        project: network.project.copy(alloc)?,
        name: text_or(alloc, &network.name, &form.name)?,
        description: text_or(alloc, &network.description, &form.description)?,
        up: value_or(network.up, &form.admin_state_up),
        segment: network.segment.copy(alloc)?,
    })
}

// Refuses to take these policies from the network where a port needs one.
fn ensure_closable(
    rows: &Rows,
    caller: &Caller,
    network: &NetworkRow,
    shared: bool,
    external: bool,
) -> Result<(), Refusal>
    ensures { Passes
        (if shared || external
        then uses.open_in_use rows.now caller.now
        (without_closed network.now.id shared external rows.now.policies) network.now
        else None) result }
{
    if !(shared || external) {
        return Ok(());
    }
    let _policies = rows.policies().rows(); // for the proof: the type of policies
    let standing = Standing::Closed {
        network: network.id,
        shared,
        external,
    };
    open_in_use(rows, caller, &standing, network)
}

// Refuses the change, whatever the version.
fn ensure_changeable(
    asking: &Asking<'_>,
    form: &NetworkForm,
    network: &NetworkRow,
) -> Result<(), Refusal>
    ensures { Passes
        (update_refusal asking.now.state asking.now.caller form.now network.now) result }
{
    let rows = asking.rows();
    let caller = asking.caller();
    admin_only(caller, network_for_admin(caller, form))?;
    owner_only(caller, &network.project)?;
    let shared = is_cleared(&form.shared);
    let external = is_cleared(&form.router_external);
    ensure_closable(rows, caller, network, shared, external)
}

// How many ids the action's policy takes.
fn opens(rows: &Rows, network: &NetworkRow, action: Action, asked: &Given<bool>) -> u64
    ensures few { result ≤ 1 }
    ensures count { result ≡ calls.opens rows.now network.now action asked.now }
{
    one_if(is_opened(rows.policies().rows(), network.id, action, asked))
}

// The draft with what the form does to the policy of one action.
fn reopen(
    alloc: Global,
    draft: Draft,
    policies: &[Shared<PolicyRow>],
    network: &NetworkRow,
    action: Action,
    asked: &Given<bool>,
    next: NextId,
) -> Result<Draft, OutOfMemory>
    requires small { calls.is_opened asked.now
        (open_policy policies.now network.now.id action) ≡ true
        → next.count < 2 ^ 62 }
    requires new { calls.is_opened asked.now
        (open_policy policies.now network.now.id action) ≡ true
        → row_of (λ l. l.id) (ident next.ordinal next.count) draft.rows.policies ≡ None }
    ensures start { IfOk result (λ d. d.start ≡ draft.start) }
    ensures rows { IfOk result
        (λ d. d.rows
        ≡ made draft.rows
        (reopening network.now policies.now action asked.now (ident next.ordinal next.count))) }
{
    let opens = is_opened(policies, network.id, action, asked);
    let draft = open(
        alloc,
        draft,
        network,
        action,
        next.ordinal,
        next.count,
        opens,
    )?;
    close(
        alloc,
        draft,
        policies,
        network.id,
        action,
        is_cleared(asked),
    )
}

// The draft with what the form does to both policies.
fn reopen_both(
    alloc: Global,
    draft: Draft,
    rows: &Rows,
    form: &NetworkForm,
    network: &NetworkRow,
    ordinal: u32,
    first: u64,
) -> Result<Draft, OutOfMemory>
    requires within { first
        + (calls.opens rows.now network.now SharedOf form.now.shared
        + calls.opens rows.now network.now ExternalOf form.now.router_external)
        ≤ 2 ^ 62 }
    requires new { (k : ℕ)
        → k < calls.opens rows.now network.now SharedOf form.now.shared
        + calls.opens rows.now network.now ExternalOf form.now.router_external
        → row_of (λ l. l.id) (ident ordinal (first + k)) draft.rows.policies ≡ None }
    ensures start { IfOk result (λ d. d.start ≡ draft.start) }
    ensures rows { IfOk result
        (λ d. d.rows
        ≡ made draft.rows
        (reopening network.now rows.now.policies SharedOf form.now.shared (ident ordinal first)
        ++ reopening network.now rows.now.policies ExternalOf form.now.router_external
        (ident ordinal (first + calls.opens rows.now network.now SharedOf form.now.shared)))) }
{
    let policies = rows.policies().rows();
    let asked = &form.shared;
    let next = NextId {
        ordinal,
        count: first,
    };
    let draft = reopen(alloc, draft, policies, network, Action::Shared, asked, next)?;
    let second = first + opens(rows, network, Action::Shared, asked);
    let asked = &form.router_external;
    let next = NextId {
        ordinal,
        count: second,
    };
    reopen(
        alloc,
        draft,
        policies,
        network,
        Action::External,
        asked,
        next,
    )
}

// The draft with the changed network and what the form does to its policies.
fn change_network(
    alloc: Global,
    drawn: Drawn,
    rows: &Rows,
    form: &NetworkForm,
    network: &NetworkRow,
) -> Result<PlannedRow<NetworkRow>, OutOfMemory>
    requires within { drawn.first
        + (calls.opens rows.now network.now SharedOf form.now.shared
        + calls.opens rows.now network.now ExternalOf form.now.router_external)
        ≤ 2 ^ 62 }
    requires new { (k : ℕ)
        → k < calls.opens rows.now network.now SharedOf form.now.shared
        + calls.opens rows.now network.now ExternalOf form.now.router_external
        → IsAbsent drawn.draft.rows (ident drawn.ordinal (drawn.first + k)) }
    ensures start { IfOk result (λ p. p.draft.start ≡ drawn.draft.start) }
    ensures row { IfOk result (λ p. p.row ≡ calls.changed_network form.now network.now) }
    ensures rows { IfOk result
        (λ p. p.draft.rows
        ≡ made drawn.draft.rows (network_edits rows.now form.now network.now (drawing_of drawn))) }
{
    let Drawn {
        draft,
        ordinal,
        first,
    } = drawn;
    let changed = changed_network(alloc, form, network)?;
    let draft = draft.put(alloc, changed.copy(alloc)?)?;
    let draft = reopen_both(alloc, draft, rows, form, network, ordinal, first)?;
    Ok(PlannedRow {
        draft,
        row: changed,
    })
}

/// Where a network's change leads. Its cost grows with the networks, the policies and the projects,
/// and where it closes the network, with the ports times the policies.
pub fn update_network(
    alloc: Global,
    asking: &Asking<'_>,
    name: &IdText,
    form: &NetworkForm,
) -> Result<PlannedRow<NetworkRow>, Refusal>
    ensures ok { IfOk result
        (λ p. Leads asking.now.state.rows
        (network_updated asking.now.state asking.now.caller name.now form.now) p.draft
        (λ after. OneRow (network_shown after asking.now.caller p.row []))) }
    ensures err { IfErr result
        (IsRefusalOf (network_updated asking.now.state asking.now.caller name.now form.now)) }
{
    let network = find_network(alloc, asking, name)?;
    ensure_changeable(asking, form, network)?;
    let rows = asking.rows();
    let many = opens(rows, network, Action::Shared, &form.shared)
        + opens(rows, network, Action::External, &form.router_external);
    let drawn = draw_new(alloc, asking, &network.project, many)?;
    Ok(change_network(alloc, drawn, rows, form, network)?)
}
