//! Rows before a change, or after it.

ghost use Rattle.std.specs.Prelude.{◌≡◌, ℕ, Some, nat_lt};
ghost use Rattle.plane_types.specs.Keyed.{row_at};
ghost use Rattle.l3_delta.specs.WayKeys.{ports_when};

use api_types::PortRow;
use touched_rows::Rewiring;

/// Before a change, or after it.
#[derive(Clone, Copy)]
pub(crate) enum When {
    Before,
    After,
}

/// The number of a port that is there at that time.
pub(crate) fn number_of(change: &Rewiring, when: When, port: &PortRow) -> Option<usize>
    ensures { (k : ℕ) → row_at nat_lt k (ports_when when change.now.ports) ≡ Some port.now
        → result ≡ Some k }
{
    let _own_ids = change.ports.rows(); // for the proof: no two ports have one id
    match when {
        When::Before => change.ports.number(port.id),
        When::After => change.ports.number_after(port.id),
    }
}
