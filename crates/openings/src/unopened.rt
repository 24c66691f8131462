//! Why there is nothing to begin with.

ghost use Rattle.std.specs.Prelude.{◌≡◌};
ghost use Rattle.openings.specs.Openings as openings;

use keeper_core::DeskRefusal;
use net_addr::OutOfMemory;
use net_settings::SettingsRefusal;

/// Why nothing is opened.
#[derive(Clone, Copy)]
pub enum Unopened {
    /// The bytes of the settings aren't in their grammar.
    BadSettings,
    /// The rows of the store break a clause of consistency.
    Inconsistent,
    /// The desk or the store failed.
    Failed,
    /// Memory could not be had.
    OutOfMemory,
}

impl From<OutOfMemory> for Unopened {
    ghost use Rattle.openings.specs.declared.unopened.Unopened.TheVariants.{OutOfMemory as Wanting};

    ghost from_gives = { λ _ e. e ≡ Wanting };

    fn from(_error: OutOfMemory) -> Unopened {
        Unopened::OutOfMemory
    }
}

impl From<DeskRefusal> for Unopened {
    ghost from_gives = { λ refusal e. e ≡ openings.by_desk refusal };

    fn from(refusal: DeskRefusal) -> Unopened {
        match refusal {
            DeskRefusal::Failed => Unopened::Failed,
            DeskRefusal::OutOfMemory => Unopened::OutOfMemory,
        }
    }
}

impl From<SettingsRefusal> for Unopened {
    ghost from_gives = { λ refusal e. e ≡ openings.by_settings refusal };

    fn from(refusal: SettingsRefusal) -> Unopened {
        match refusal {
            SettingsRefusal::BadSettings { .. } => Unopened::BadSettings,
            SettingsRefusal::OutOfMemory => Unopened::OutOfMemory,
        }
    }
}
