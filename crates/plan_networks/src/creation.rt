//! Making a network.

ghost use Rattle.std.specs.Prelude.{◌≡◌, ◌+◌, ◌≤◌, ◌<◌, ◌^◌, ◌∷◌, ◌++◌, [], ℕ, IfErr, IfOk, None, OnOk, Some, false, not, true};
ghost use Rattle.api_ml2.specs.Segments as segments;
ghost use Rattle.api_types.specs.Given as given;
ghost use Rattle.api_types.specs.Lists.{is_empty};
ghost use Rattle.api_types.specs.Printed.{NewRow};
ghost use Rattle.api_types.specs.Registration.{ident};
ghost use Rattle.api_types.specs.Table.{row_of};
ghost use Rattle.api_types.specs.declared.kind.Row.TheVariants.{Network as NetworkOf};
ghost use Rattle.api_types.specs.declared.policy.Action.TheVariants.{External as ExternalOf, Shared as SharedOf};
ghost use Rattle.call_parts.specs.Edits.{Add, made};
ghost use Rattle.call_parts.specs.InForm.{are_owners};
ghost use Rattle.plan_networks.specs.NetworkCalls as calls;
ghost use Rattle.plan_networks.specs.NetworkCalls.{creation_refusal, network_created, network_made, network_shown, opening, openings};
ghost use Rattle.call_parts.specs.Answers.{IsRefusalIn, IsRefusalOf, Leads, drawing_of};
ghost use Rattle.plan_networks.specs.Plans.{segment_refusal};
ghost use Rattle.row_laws.specs.Drawn.{IsAbsent};

use crate::checks::choose_asked;
use crate::drawing::draw_new;
use crate::opening::{one_if, open};
use api_ml2::chosen_segment;
use api_types::{Action, Id, NetworkForm, NetworkRow, Refusal, Segment};
use call_parts::{Asking, Draft, Drawn, PlannedRow, owner, text_or, value_or};
use net_addr::{Copies, OutOfMemory, Text};
use std::alloc::Global;

fn new_network(
    alloc: Global,
    owner: &Text,
    form: &NetworkForm,
    id: Id,
    segment: Segment,
) -> Result<NetworkRow, OutOfMemory>
    ensures { IfOk result (λ n. n ≡ calls.new_network owner.now form.now id segment) }
{
    let empty = Text::new(alloc);
    Ok(NetworkRow {
        id,
        project: owner.copy(alloc)?,
        name: text_or(alloc, &empty, &form.name)?,
        description: text_or(alloc, &empty, &form.description)?,
        up: value_or(true, &form.admin_state_up),
        segment,
    })
}

fn openings_count(form: &NetworkForm) -> u64
    ensures few { result ≤ 2 }
    ensures count { result ≡ calls.openings_count form.now }
{
    one_if(value_or(false, &form.shared)) + one_if(value_or(false, &form.router_external))
}

// The segment of the new network, where nothing forbids it and one is left.
fn new_segment(
    alloc: Global,
    asking: &Asking<'_>,
    form: &NetworkForm,
    owner: &Text,
) -> Result<Segment, Refusal>
    ensures passes { OnOk result
        (creation_refusal asking.now.settings asking.now.state.rows asking.now.caller form.now
        owner.now ≡ None) }
    ensures chosen { IfOk result
        (λ segment.
        segments.chosen_segment asking.now.settings asking.now.state.rows.networks
        (segments.asked_segment form.now)
        ≡ Some segment) }
    ensures refused { IfErr result
        (IsRefusalIn
        (segment_refusal asking.now.settings asking.now.state.rows asking.now.caller form.now
        owner.now)) }
{
    let asked = choose_asked(alloc, asking, form, owner)?;
    let (settings, rows) = (asking.settings(), asking.rows());
    match chosen_segment(alloc, rows.networks().rows(), settings, &asked)? {
        Some(segment) => Ok(segment),
        None => Err(Refusal::NoNetwork),
    }
}

// The draft with the policies of a new network.
fn open_both(
    alloc: Global,
    draft: Draft,
    network: &NetworkRow,
    ordinal: u32,
    first: u64,
    shared: bool,
    external: bool,
) -> Result<Draft, OutOfMemory>
    requires within { first + (calls.one_if shared + calls.one_if external) ≤ 2 ^ 62 }
    requires new { (k : ℕ) → k < calls.one_if shared + calls.one_if external
        → row_of (λ l. l.id) (ident ordinal (first + k)) draft.rows.policies ≡ None }
    ensures start { IfOk result (λ d. d.start ≡ draft.start) }
    ensures rows { IfOk result
        (λ d. d.rows
        ≡ made draft.rows
        (opening network.now SharedOf (ident ordinal first) shared
        ++ opening network.now ExternalOf (ident ordinal (first + calls.one_if shared)) external)) }
{
    let draft = open(
        alloc,
        draft,
        network,
        Action::Shared,
        ordinal,
        first,
        shared,
    )?;
    let second = first + one_if(shared);
    open(
        alloc,
        draft,
        network,
        Action::External,
        ordinal,
        second,
        external,
    )
}

// The draft with the new network and its policies, whose first id has this count.
fn add_with_policies(
    alloc: Global,
    draft: Draft,
    network: NetworkRow,
    form: &NetworkForm,
    ordinal: u32,
    first: u64,
) -> Result<PlannedRow<NetworkRow>, OutOfMemory>
    requires within { first + calls.openings_count form.now ≤ 2 ^ 62 }
    requires new_network { row_of (λ n. n.id) network.id draft.rows.networks ≡ None }
    requires new_policies { (k : ℕ) → k < calls.openings_count form.now
        → row_of (λ l. l.id) (ident ordinal (first + k)) draft.rows.policies ≡ None }
    ensures start { IfOk result (λ p. p.draft.start ≡ draft.start) }
    ensures row { IfOk result (λ p. p.row ≡ network) }
    ensures rows { IfOk result
        (λ p. p.draft.rows
        ≡ made draft.rows
        (Add (NetworkOf network)
        ∷ opening network SharedOf (ident ordinal first) (given.value_or false form.now.shared)
        ++ opening network ExternalOf
        (ident ordinal (first + calls.one_if (given.value_or false form.now.shared)))
        (given.value_or false form.now.router_external))) }
{
    let draft = draft.add(alloc, network.copy(alloc)?)?;
    let shared = value_or(false, &form.shared);
    let external = value_or(false, &form.router_external);
    let draft = open_both(alloc, draft, &network, ordinal, first, shared, external)?;
    Ok(PlannedRow {
        draft,
        row: network,
    })
}

// The draft with the new network and its policies, by the ids that were drawn.
fn add_network(
    alloc: Global,
    drawn: Drawn,
    owner: &Text,
    form: &NetworkForm,
    segment: Segment,
) -> Result<PlannedRow<NetworkRow>, OutOfMemory>
    requires within { drawn.first + (1 + calls.openings_count form.now) ≤ 2 ^ 62 }
    requires new { (k : ℕ) → k < 1 + calls.openings_count form.now
        → IsAbsent drawn.draft.rows (ident drawn.ordinal (drawn.first + k)) }
    ensures start { IfOk result (λ p. p.draft.start ≡ drawn.draft.start) }
    ensures row { IfOk result
        (λ p. p.row
        ≡ calls.new_network owner.now form.now (ident drawn.ordinal (drawn.first + 0)) segment) }
    ensures rows { IfOk result
        (λ p. p.draft.rows
        ≡ made drawn.draft.rows
        (Add (NetworkOf p.row)
        ∷ openings p.row (drawing_of drawn) 1 (given.value_or false form.now.shared)
        (given.value_or false form.now.router_external))) }
{
    let Drawn {
        draft,
        ordinal,
        first,
    } = drawn;
    let network = new_network(alloc, owner, form, Id::make(ordinal, first), segment)?;
    add_with_policies(alloc, draft, network, form, ordinal, first + 1)
}

// Where the creation leads of a network that the project is to own.
fn make_network(
    alloc: Global,
    asking: &Asking<'_>,
    form: &NetworkForm,
    owner: &Text,
) -> Result<PlannedRow<NetworkRow>, Refusal>
    requires { not (is_empty owner.now) ≡ true }
    ensures ok { IfOk result
        (λ p. Leads asking.now.state.rows
        (network_made asking.now.settings asking.now.state asking.now.caller form.now owner.now)
        p.draft (λ after. NewRow (network_shown after asking.now.caller p.row []))) }
    ensures err { IfErr result
        (IsRefusalOf
        (network_made asking.now.settings asking.now.state asking.now.caller form.now
        owner.now)) }
{
    let segment = new_segment(alloc, asking, form, owner)?;
    let drawn = draw_new(alloc, asking, owner, 1 + openings_count(form))?;
    Ok(add_network(alloc, drawn, owner, form, segment)?)
}

/// Where a network's creation leads. Its cost grows with the networks, the projects and the hosts.
pub fn create_network(
    alloc: Global,
    asking: &Asking<'_>,
    form: &NetworkForm,
) -> Result<PlannedRow<NetworkRow>, Refusal>
    requires named { not (is_empty asking.now.caller.project) ≡ true }
    requires in_form { are_owners form.now.project_id form.now.tenant_id ≡ true }
    ensures ok { IfOk result
        (λ p. Leads asking.now.state.rows
        (network_created asking.now.settings asking.now.state asking.now.caller form.now) p.draft
        (λ after. NewRow (network_shown after asking.now.caller p.row []))) }
    ensures err { IfErr result
        (IsRefusalOf
        (network_created asking.now.settings asking.now.state asking.now.caller form.now)) }
{
    let owner = owner(asking.caller(), &form.project_id, &form.tenant_id);
    make_network(alloc, asking, form, owner)
}
