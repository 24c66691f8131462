//! The trait `Keeper`: where rows are stored.

ghost use Rattle.std.specs.Prelude.{◌≡◌, option_map, IfOk, IfSome, OnOk, OnErr};
ghost use Rattle.api_types.specs.Rows.{Fits, after};
ghost use Rattle.keeper_core.specs.Counts.{HasRefusalCause, Tells};
ghost use Rattle.keeper_core.specs.Kept.{KeeperTold};

use crate::refusal::KeeperRefusal;
use api_types::{Change, Rows};
use std::alloc::Global;

/// Where rows are stored.
pub trait Keeper {
    // the stored rows, where it tells them, and how many calls failed
    ghost told: { Self → KeeperTold };

    /// The stored rows, which stay as they are.
    fn load(&mut self, alloc: Global) -> Result<Rows, KeeperRefusal>
        ensures rows { IfOk result (Tells (told self.old).rows) }
        ensures kept { (told self.new).rows ≡ (told self.old).rows }
        ensures cause { HasRefusalCause (told self.old).faults (told self.new).faults result };

    /// Puts a change that fits the stored rows into them, or leaves them as they are.
    fn apply(&mut self, alloc: Global, change: &Change) -> Result<(), KeeperRefusal>
        requires { IfSome (told self.old).rows (λ rows. Fits rows change.now) }
        ensures applied { OnOk result ((told self.new).rows
            ≡ option_map (λ rows. after rows change.now) (told self.old).rows) }
        ensures unchanged { OnErr result ((told self.new).rows ≡ (told self.old).rows) }
        ensures cause { HasRefusalCause (told self.old).faults (told self.new).faults result };
}
