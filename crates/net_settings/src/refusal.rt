//! Why bytes give no settings.

ghost use Rattle.net_settings.specs.Refusals.{IsNamed};

use net_addr::{OutOfMemory, Text};
use std::alloc::Global;
use std::error::Error;
use std::fmt;

/// Why bytes give no settings.
#[derive(Debug, Drop)]
pub enum SettingsRefusal {
    /// The first key that breaks its rule, as `hosts.name`, or the empty key where the bytes are no
    /// TOML.
    BadSettings { key: Text },
    /// Memory could not be had.
    OutOfMemory,
}

impl SettingsRefusal {
    /// The refusal that names a key, or out of memory for the key's text.
    pub(crate) fn named(alloc: Global, key: &str) -> SettingsRefusal
        ensures { IsNamed key.now result }
    {
        match Text::of(alloc, key) {
            Ok(key) => SettingsRefusal::BadSettings { key },
            Err(_) => SettingsRefusal::OutOfMemory,
        }
    }
}

impl fmt::Display for SettingsRefusal {
    fn fmt<W: fmt::Write>(&self, f: &mut fmt::Formatter<W>) -> fmt::Result {
        match self {
            SettingsRefusal::BadSettings { key } => {
                let key = key.as_str();
                write!(f, "bad settings: {key}")
            }
            SettingsRefusal::OutOfMemory => write!(f, "memory could not be had"),
        }
    }
}

impl Error for SettingsRefusal {}

impl From<OutOfMemory> for SettingsRefusal {
    ghost use Rattle.std.specs.Prelude.{◌≡◌};
    ghost use Rattle.net_settings.specs.declared.refusal.SettingsRefusal.TheVariants.{OutOfMemory as Memory};

    ghost from_gives = { λ _ e. e ≡ Memory };

    fn from(_: OutOfMemory) -> SettingsRefusal {
        SettingsRefusal::OutOfMemory
    }
}
