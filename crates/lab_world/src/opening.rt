//! Why rows aren't put into service.

use api_check::Inconsistent;
use api_types::{Id, Kind};
use net_addr::OutOfMemory;

/// Why rows aren't put into service.
#[derive(Clone, Copy, Debug, PartialEq, Eq)]
pub enum OpenRefusal {
    /// They break this clause of consistency, and this row is the first that breaks it; clauses are
    /// numbered as in `api_check::Inconsistent`.
    Inconsistent { rule: u8, kind: Kind, id: Id },
    /// Memory could not be had.
    OutOfMemory,
}

impl From<Inconsistent> for OpenRefusal {
    ghost use Rattle.std.specs.Prelude.{◌≡◌};
    ghost use Rattle.lab_world.specs.Opening.{refusal_of};

    ghost from_gives = { λ b e. e ≡ refusal_of b };

    fn from(broken: Inconsistent) -> OpenRefusal {
        OpenRefusal::Inconsistent {
            rule: broken.rule,
            kind: broken.kind,
            id: broken.id,
        }
    }
}

impl From<OutOfMemory> for OpenRefusal {
    ghost use Rattle.std.specs.Prelude.{◌≡◌};
    ghost use Rattle.lab_world.specs.declared.opening.OpenRefusal.TheVariants.{OutOfMemory as MemoryRefusal};

    ghost from_gives = { λ _ e. e ≡ MemoryRefusal };

    fn from(_e: OutOfMemory) -> OpenRefusal {
        OpenRefusal::OutOfMemory
    }
}
