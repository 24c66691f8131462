//! Making a floating address, with the port that holds it.

ghost use Rattle.std.specs.Prelude.{◌≡◌, ◌+◌, ◌<◌, ◌≤◌, ◌^◌, ◌∷◌, ℕ, [], IfErr, IfOk, None, not, option_copied, true};
ghost use Rattle.net_addr.specs.Addresses.{is_v4, number};
ghost use Rattle.api_policy.specs.Seen as seen;
ghost use Rattle.api_types.specs.Given as given;
ghost use Rattle.api_types.specs.Lists.{is_empty};
ghost use Rattle.api_types.specs.Printed.{NewRow};
ghost use Rattle.api_types.specs.Registration.{drawn_id, ident};
ghost use Rattle.api_types.specs.Table.{row_of};
ghost use Rattle.api_types.specs.declared.floating.FloatingRow.{FloatingRow as TheFloating};
ghost use Rattle.api_types.specs.declared.kind.Row.TheVariants.{Floating as FloatingOf, Port as PortOf};
ghost use Rattle.api_types.specs.declared.port.PortRow.{PortRow as ThePort};
ghost use Rattle.call_parts.specs.Answers.{IsRefusalOf, Leads, Passes, drawing_of};
ghost use Rattle.call_parts.specs.Edits.{Add, made};
ghost use Rattle.call_parts.specs.InForm.{are_owners};
ghost use Rattle.plan_floatings.specs.FloatingCalls as calls;
ghost use Rattle.plan_floatings.specs.FloatingCalls.{body_refusal, creation_refusal, floating_created, floating_made, floating_shown};
ghost use Rattle.plan_floatings.specs.Plans.{floating_led, floating_on, rows_refusal};
ghost use Rattle.row_laws.specs.Drawn.{IsAbsent};

use crate::asked::{ensure_aim_unused_by_any, ensure_asked_fits, ensure_port_found, target_asked};
use crate::drawing::draw_two;
use crate::outer::{Outer, ensure_address_free, outer_for};
use crate::row::{Ends, new_floating, own_port};
use crate::rules::{ensure_address_fits, ensure_form_valid, ensure_network_external};
use api_policy::{admin_only, floating_for_admin, network_seen, over_quota};
use api_types::{Caller, FloatingForm, FloatingRow, Id, Kind, NetworkRow, PortRow, Refusal, Rows};
use call_parts::{Asking, Draft, Drawn, PlannedRow, none_with_id, owner, value_of};
use net_addr::{Copies, OutOfMemory, Text};
use net_settings::Settings;
use std::alloc::Global;

// Refuses what the rules on rows forbid, where the rows are there and seen.
fn ensure_rows_fit(
    alloc: Global,
    rows: &Rows,
    caller: &Caller,
    form: &FloatingForm,
    owner: &Text,
    network: Option<&NetworkRow>,
) -> Result<(), Refusal>
    ensures { Passes
        (rows_refusal rows.now caller.now form.now owner.now (option_copied network.entry))
        result }
{
    ensure_network_external(alloc, rows, caller, form, owner, network)?;
    ensure_address_fits(alloc, rows, form, network)?;
    ensure_asked_fits(alloc, rows, caller, form, owner)
}

// Refuses what the body's rules forbid, where this is the network that is seen.
fn ensure_body_valid(
    alloc: Global,
    rows: &Rows,
    caller: &Caller,
    form: &FloatingForm,
    owner: &Text,
    network: Option<&NetworkRow>,
) -> Result<(), Refusal>
    requires { option_copied network
        ≡ seen.network_seen rows.now caller.now (given.value_of form.now.floating_network_id) }
    ensures { Passes
        (body_refusal rows.now caller.now form.now owner.now
        (seen.network_seen rows.now caller.now (given.value_of form.now.floating_network_id)))
        result }
{
    ensure_form_valid(alloc, form)?;
    ensure_rows_fit(alloc, rows, caller, form, owner, network)
}

fn ensure_creatable(
    alloc: Global,
    rows: &Rows,
    caller: &Caller,
    form: &FloatingForm,
    network: &NetworkRow,
) -> Result<(), Refusal>
    ensures { Passes (creation_refusal rows.now caller.now form.now network.now) result }
{
    ensure_port_found(alloc, rows, caller, form)?;
    admin_only(caller, floating_for_admin(caller, form))?;
    ensure_aim_unused_by_any(rows, caller, form, network.id)?;
    ensure_address_free(rows, network.id, value_of(&form.floating_ip_address))
}

// The draft with the new floating address, and with the port that holds it.
fn add_with_port(
    alloc: Global,
    settings: &Settings,
    draft: Draft,
    network: &NetworkRow,
    floating: FloatingRow,
    outer: &Outer,
) -> Result<PlannedRow<FloatingRow>, OutOfMemory>
    requires new_floating { row_of (λ (f : TheFloating). f.id) floating.id draft.rows.floatings
        ≡ None }
    requires new_port { row_of (λ (p : ThePort). p.id) floating.own_port draft.rows.ports ≡ None }
    ensures start { IfOk result (λ p. p.draft.start ≡ draft.start) }
    ensures row { IfOk result (λ p. p.row ≡ floating) }
    ensures rows { IfOk result
        (λ p. p.draft.rows
        ≡ made draft.rows
        (Add (FloatingOf floating)
        ∷ Add
        (PortOf
        (calls.own_port settings.now network.now floating outer.now.mac outer.now.fixed))
        ∷ [])) }
{
    let port = own_port(alloc, settings, network, &floating, outer)?;
    let draft = draft.add(alloc, floating.copy(alloc)?)?;
    let draft = draft.add(alloc, port)?;
    Ok(PlannedRow {
        draft,
        row: floating,
    })
}

// The draft with the new floating address and its port, by the ids that were drawn.
fn add_floating(
    alloc: Global,
    settings: &Settings,
    drawn: Drawn,
    form: &FloatingForm,
    owner: &Text,
    network: &NetworkRow,
    ends: &Ends,
) -> Result<PlannedRow<FloatingRow>, OutOfMemory>
    requires four { is_v4 ends.now.outer.fixed.address ≡ true }
    requires within { drawn.first + 2 ≤ 2 ^ 62 }
    requires new { (k : ℕ) → k < 2
        → IsAbsent drawn.draft.rows (ident drawn.ordinal (drawn.first + k)) }
    ensures start { IfOk result (λ p. p.draft.start ≡ drawn.draft.start) }
    ensures row { IfOk result
        (λ p. p.row
        ≡ calls.new_floating form.now owner.now network.now (drawn_id (drawing_of drawn) 0)
        (drawn_id (drawing_of drawn) 1) (number ends.now.outer.fixed.address) ends.now.target) }
    ensures rows { IfOk result
        (λ p. p.draft.rows
        ≡ made drawn.draft.rows
        (Add (FloatingOf p.row)
        ∷ Add
        (PortOf
        (calls.own_port settings.now network.now p.row ends.now.outer.mac ends.now.outer.fixed))
        ∷ [])) }
{
    let Drawn {
        draft,
        ordinal,
        first,
    } = drawn;
    let id = Id::make(ordinal, first);
    let own = Id::make(ordinal, first + 1);
    let floating = new_floating(alloc, form, owner, network, id, own, ends)?;
    add_with_port(alloc, settings, draft, network, floating, &ends.outer)
}

// The plan of a floating address on a network on which nothing forbids it, but that no router may
// lead to its port, the owner may have no more, or nothing may be left for it.
fn place_floating(
    alloc: Global,
    asking: &Asking<'_>,
    form: &FloatingForm,
    owner: &Text,
    network: &NetworkRow,
) -> Result<PlannedRow<FloatingRow>, Refusal>
    requires { not (is_empty owner.now) ≡ true }
    ensures ok { IfOk result
        (λ p. Leads asking.now.state.rows
        (floating_led asking.now.settings asking.now.state asking.now.caller form.now owner.now
        network.now) p.draft (λ after. NewRow (floating_shown after asking.now.caller p.row []))) }
    ensures err { IfErr result
        (IsRefusalOf
        (floating_led asking.now.settings asking.now.state asking.now.caller form.now owner.now
        network.now)) }
{
    let settings = asking.settings();
    let rows = asking.rows();
    let target = target_asked(rows, asking.caller(), form, owner, network.id)?;
    over_quota(rows, settings, owner, Kind::Floating)?;
    let outer = outer_for(alloc, rows, network.id, value_of(&form.floating_ip_address))?;
    let drawn = draw_two(alloc, asking, owner)?;
    let ends = Ends { outer, target };
    Ok(add_floating(alloc, settings, drawn, form, owner, network, &ends)?)
}

// The plan of a floating address of a network that is found.
fn make_on(
    alloc: Global,
    asking: &Asking<'_>,
    form: &FloatingForm,
    owner: &Text,
    network: &NetworkRow,
) -> Result<PlannedRow<FloatingRow>, Refusal>
    requires { not (is_empty owner.now) ≡ true }
    ensures ok { IfOk result
        (λ p. Leads asking.now.state.rows
        (floating_on asking.now.settings asking.now.state asking.now.caller form.now owner.now
        network.now) p.draft (λ after. NewRow (floating_shown after asking.now.caller p.row []))) }
    ensures err { IfErr result
        (IsRefusalOf
        (floating_on asking.now.settings asking.now.state asking.now.caller form.now owner.now
        network.now)) }
{
    ensure_creatable(alloc, asking.rows(), asking.caller(), form, network)?;
    place_floating(alloc, asking, form, owner, network)
}

// The plan of a floating address that the project is to own.
fn make_floating(
    alloc: Global,
    asking: &Asking<'_>,
    form: &FloatingForm,
    owner: &Text,
) -> Result<PlannedRow<FloatingRow>, Refusal>
    requires { not (is_empty owner.now) ≡ true }
    ensures ok { IfOk result
        (λ p. Leads asking.now.state.rows
        (floating_made asking.now.settings asking.now.state asking.now.caller form.now owner.now
        (seen.network_seen asking.now.state.rows asking.now.caller
        (given.value_of form.now.floating_network_id))) p.draft
        (λ after. NewRow (floating_shown after asking.now.caller p.row []))) }
    ensures err { IfErr result
        (IsRefusalOf
        (floating_made asking.now.settings asking.now.state asking.now.caller form.now owner.now
        (seen.network_seen asking.now.state.rows asking.now.caller
        (given.value_of form.now.floating_network_id)))) }
{
    let rows = asking.rows();
    let caller = asking.caller();
    let network = network_seen(rows, caller, value_of(&form.floating_network_id));
    ensure_body_valid(alloc, rows, caller, form, owner, network)?;
    let Some(network) = network else {
        let id = value_of(&form.floating_network_id);
        return Err(none_with_id(alloc, Kind::Network, id));
    };
    make_on(alloc, asking, form, owner, network)
}

/// The plan of a floating address's creation, or why it is refused. Its cost and memory grow with
/// the subnets, the ports and their addresses, the floating addresses, the policies and the
/// projects, and not with the pools' size; with a port, with the ports for each router of the owner
/// that has its gateway on the network.
pub fn create_floating(
    alloc: Global,
    asking: &Asking<'_>,
    form: &FloatingForm,
) -> Result<PlannedRow<FloatingRow>, Refusal>
    requires named { not (is_empty asking.now.caller.project) ≡ true }
    requires owners { are_owners form.now.project_id form.now.tenant_id ≡ true }
    ensures ok { IfOk result
        (λ p. Leads asking.now.state.rows
        (floating_created asking.now.settings asking.now.state asking.now.caller form.now) p.draft
        (λ after. NewRow (floating_shown after asking.now.caller p.row []))) }
    ensures err { IfErr result
        (IsRefusalOf
        (floating_created asking.now.settings asking.now.state asking.now.caller form.now)) }
{
    let owner = owner(asking.caller(), &form.project_id, &form.tenant_id);
    make_floating(alloc, asking, form, owner)
}
