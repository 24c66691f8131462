//! Calls that are counted, some of which are to fail.

ghost use Rattle.std.specs.Prelude.{◌≡◌, ◌↔◌, IsErr, IsTrue};
ghost use Rattle.keeper_core.specs.Counts.{HasCause};

use crate::refusal::Failed;
use net_addr::Numbers;

/// The calls of an object in memory, some of which fail.
#[derive(Drop)]
pub struct Calls {
    /// How many were made.
    pub made: u64,
    /// The numbers of those that fail, counted from 1.
    pub failing: Numbers,
    /// How many failed.
    pub faults: u64,
}

impl Calls {
    ghost use Rattle.keeper_core.specs.Calls.{counted, fails_next};

    /// No calls yet.
    pub fn make(failing: Numbers) -> Calls
        ensures { result ≡ record { made = 0; failing = failing; faults = 0 } }
    {
        Calls {
            made: 0,
            failing,
            faults: 0,
        }
    }

    /// Counts the next call, which fails where its number is listed. Its cost grows with the list.
    pub fn count(&mut self) -> Result<(), Failed>
        ensures after { self.new ≡ counted self.old }
        ensures fails { IsErr result ↔ IsTrue (fails_next self.old) }
        ensures cause { HasCause self.old.faults self.new.faults result }
    {
        self.made = self.made.saturating_add(1);
        if self.failing.as_slice().contains(&self.made) {
            self.faults = self.faults.saturating_add(1);
            return Err(Failed);
        }
        Ok(())
    }
}
