//! What a call is asked at, and by whom.

ghost use Rattle.std.specs.Prelude.{◌≡◌};
ghost use Rattle.api_types.specs.Consistent.{IsConsistent};

use crate::state::State;
use api_types::{Caller, Rows};
use net_settings::Settings;
use std::marker::Model;

/// Who asks, at which state, under which settings.
#[derive(Drop)]
pub struct Asking<'a> {
    settings: &'a Settings,
    state: &'a State,
    caller: &'a Caller,
}

impl<'a> Model for Asking<'a> {
    ghost use Rattle.call_parts.specs.Asking.{AskingParts};

    ghost Value = { AskingParts };

    ghost view = { λ a. record { settings = a.settings.now; state = a.state.now; caller = a.caller.now } };
}

impl<'a> Asking<'a> {
    /// The caller asks at this state, under these settings.
    pub fn make(settings: &'a Settings, state: &'a State, caller: &'a Caller) -> Asking<'a>
        ensures { result
            ≡ record { settings = settings.now; state = state.now; caller = caller.now } }
    {
        Asking {
            settings,
            state,
            caller,
        }
    }

    /// The settings.
    pub fn settings(&self) -> &'a Settings
        ensures { result.now ≡ self.now.settings }
    {
        self.settings
    }

    /// The state.
    pub fn state(&self) -> &'a State
        ensures { result.now ≡ self.now.state }
    {
        self.state
    }

    /// The caller.
    pub fn caller(&self) -> &'a Caller
        ensures { result.now ≡ self.now.caller }
    {
        self.caller
    }

    /// The rows of the state.
    pub fn rows(&self) -> &'a Rows
        ensures rows { result.now ≡ self.now.state.rows }
        ensures consistent { IsConsistent self.now.state.rows }
    {
        self.state.rows()
    }

    /// How many changes were accepted.
    pub fn version(&self) -> u64
        ensures { result ≡ self.now.state.version }
    {
        self.state.version()
    }
}
