//! Taking a floating address out, with the port that holds it.

ghost use Rattle.std.specs.Prelude.{◌≡◌, ◌∷◌, [], IfErr, IfOk};
ghost use Rattle.api_types.specs.Printed.{NoRow};
ghost use Rattle.api_types.specs.declared.kind.Kind.TheVariants.{Floating as FloatingKind, Port as PortKind};
ghost use Rattle.call_parts.specs.Answers.{IsRefusalOf, Leads, Passes};
ghost use Rattle.call_parts.specs.Edits.{Drop as DropRow, made};
ghost use Rattle.plan_floatings.specs.FloatingCalls.{deletion_refusal, floating_deleted};

use crate::finding::find_floating;
use api_policy::{ensure_version_left, owner_only};
use api_types::{FloatingRow, IdText, PortRow, Refusal, Rows};
use call_parts::{Asking, Draft};
use net_addr::OutOfMemory;
use std::alloc::Global;

fn ensure_deletable(asking: &Asking<'_>, floating: &FloatingRow) -> Result<(), Refusal>
    ensures { Passes (deletion_refusal asking.now.state asking.now.caller floating.now) result }
{
    owner_only(asking.caller(), &floating.project)?;
    ensure_version_left(asking.version())
}

// The rows without the floating address and its port.
fn without_floating(
    alloc: Global,
    rows: &Rows,
    floating: &FloatingRow,
) -> Result<Draft, OutOfMemory>
    ensures start { IfOk result (λ d. d.start ≡ rows.now) }
    ensures rows { IfOk result
        (λ d. d.rows
        ≡ made rows.now
        (DropRow PortKind floating.now.own_port ∷ DropRow FloatingKind floating.now.id ∷ [])) }
{
    let draft = Draft::begin(alloc, rows)?;
    let draft = draft.drop_row::<PortRow>(alloc, floating.own_port)?;
    draft.drop_row::<FloatingRow>(alloc, floating.id)
}

/// The plan of a floating address's deletion, or why it is refused. Its cost grows with the ports
/// and the floating addresses.
pub fn delete_floating(alloc: Global, asking: &Asking<'_>, name: &IdText) -> Result<Draft, Refusal>
    ensures ok { IfOk result
        (λ d. Leads asking.now.state.rows
        (floating_deleted asking.now.state asking.now.caller name.now) d (λ after. NoRow)) }
    ensures err { IfErr result
        (IsRefusalOf (floating_deleted asking.now.state asking.now.caller name.now)) }
{
    let floating = find_floating(alloc, asking, name)?;
    ensure_deletable(asking, floating)?;
    Ok(without_floating(alloc, asking.rows(), floating)?)
}
