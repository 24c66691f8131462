//! Changing a floating address: what it leads to.

ghost use Rattle.std.specs.Prelude.{[], IfErr, IfOk};
ghost use Rattle.api_types.specs.Printed.{OneRow};
ghost use Rattle.call_parts.specs.Answers.{IsRefusalOf, Leads, Passes};
ghost use Rattle.plan_floatings.specs.FloatingCalls.{floating_changed, floating_shown, floating_updated, update_refusal};

use crate::asked::{ensure_aim_unused, ensure_asked_fits, ensure_port_found, target_asked};
use crate::finding::find_floating;
use crate::row::changed_floating;
use crate::rules::ensure_port_named;
use api_policy::{ensure_version_left, owner_only};
use api_types::{FloatingForm, FloatingRow, IdText, Refusal};
use call_parts::{Asking, Draft, PlannedRow};
use net_addr::Copies;
use std::alloc::Global;

fn ensure_changeable(
    alloc: Global,
    asking: &Asking<'_>,
    form: &FloatingForm,
    floating: &FloatingRow,
) -> Result<(), Refusal>
    ensures { Passes
        (update_refusal asking.now.state asking.now.caller form.now floating.now) result }
{
    let (rows, caller) = (asking.rows(), asking.caller());
    ensure_asked_fits(alloc, rows, caller, form, &floating.project)?;
    ensure_port_found(alloc, rows, caller, form)?;
    owner_only(caller, &floating.project)?;
    ensure_aim_unused(rows, caller, form, Some(floating.id), floating.network)
}

// The plan of the change of a floating address that is found.
fn change_floating(
    alloc: Global,
    asking: &Asking<'_>,
    form: &FloatingForm,
    floating: &FloatingRow,
) -> Result<PlannedRow<FloatingRow>, Refusal>
    ensures ok { IfOk result
        (λ p. Leads asking.now.state.rows
        (floating_changed asking.now.state asking.now.caller form.now floating.now) p.draft
        (λ after. OneRow (floating_shown after asking.now.caller p.row []))) }
    ensures err { IfErr result
        (IsRefusalOf
        (floating_changed asking.now.state asking.now.caller form.now floating.now)) }
{
    ensure_changeable(alloc, asking, form, floating)?;
    let rows = asking.rows();
    let caller = asking.caller();
    let target = target_asked(rows, caller, form, &floating.project, floating.network)?;
    ensure_version_left(asking.version())?;
    let changed = changed_floating(alloc, form, floating, target)?;
    let kept = changed.copy(alloc)?;
    Ok(PlannedRow {
        draft: Draft::begin(alloc, rows)?.put(alloc, changed)?,
        row: kept,
    })
}

/// The plan of a floating address's change, or why it is refused. Its cost grows with the floating
/// addresses; with a port, with the routers too, and with the ports for each router of the project
/// that has its gateway on the network.
pub fn update_floating(
    alloc: Global,
    asking: &Asking<'_>,
    name: &IdText,
    form: &FloatingForm,
) -> Result<PlannedRow<FloatingRow>, Refusal>
    ensures ok { IfOk result
        (λ p. Leads asking.now.state.rows
        (floating_updated asking.now.state asking.now.caller name.now form.now) p.draft
        (λ after. OneRow (floating_shown after asking.now.caller p.row []))) }
    ensures err { IfErr result
        (IsRefusalOf (floating_updated asking.now.state asking.now.caller name.now form.now)) }
{
    ensure_port_named(alloc, form)?;
    let floating = find_floating(alloc, asking, name)?;
    change_floating(alloc, asking, form, floating)
}
