//! Ids for networks and their policies, which no row has.

ghost use Rattle.std.specs.Prelude.{◌≡◌, ◌⊎◌, ◌+◌, ◌^◌, ◌<◌, ◌≤◌, ℕ, None, Some, IfErr, IfOk, not, true};
ghost use Rattle.api_types.specs.Lists.{is_empty};
ghost use Rattle.api_types.specs.Registration.{ident};
ghost use Rattle.api_types.specs.declared.refusal.Refusal.TheVariants.{CountersSpent as SpentCounters, OutOfMemory as MemoryRefusal};
ghost use Rattle.call_parts.specs.Answers.{drawing_of};
ghost use Rattle.call_parts.specs.State.{drawing_at};
ghost use Rattle.row_laws.specs.Drawn.{IsAbsent};

use api_types::Refusal;
use call_parts::{Asking, Drawn};
use net_addr::Text;
use std::alloc::Global;

/// Ids for a network and its policies. No row has them.
pub(crate) fn draw_new(
    alloc: Global,
    asking: &Asking<'_>,
    owner: &Text,
    many: u64,
) -> Result<Drawn, Refusal>
    requires named { not (is_empty owner.now) ≡ true }
    requires few { many ≤ 3 }
    ensures start { IfOk result (λ d. d.draft.start ≡ asking.now.state.rows) }
    ensures drawn { IfOk result
        (λ d. drawing_at asking.now.state owner.now many ≡ Some (drawing_of d)) }
    ensures within { IfOk result (λ d. d.first + many ≤ 2 ^ 62) }
    ensures new { IfOk result
        (λ d. (k : ℕ) → k < many → IsAbsent d.draft.rows (ident d.ordinal (d.first + k))) }
    ensures spent { IfErr result
        (λ e. (e ≡ MemoryRefusal)
        ⊎ ((e ≡ SpentCounters) × (drawing_at asking.now.state owner.now many ≡ None))) }
{
    asking.draw(alloc, owner, many)
}
