//! Consistent rows with their version.

ghost use Rattle.std.specs.Prelude.{◌≡◌};
ghost use Rattle.api_types.specs.Consistent.{IsConsistent};

use api_types::Rows;
use std::marker::Model;

/// Consistent rows, with how many changes were accepted.
#[derive(Drop)]
pub struct State {
    rows: Rows,
    version: u64,
}

impl Model for State {
    ghost use Rattle.api_types.specs.Consistent.{IsConsistent};
    ghost use Rattle.call_parts.specs.State.{State};

    ghost Value = { State };

    ghost view = { λ s. record { rows = s.rows; version = s.version } };

    ghost invariant = { λ s. IsConsistent s.rows };
}

impl State {
    /// These rows, after so many accepted changes.
    pub fn make(rows: Rows, version: u64) -> State
        requires { IsConsistent rows }
        ensures { result ≡ record { rows = rows; version = version } }
    {
        State { rows, version }
    }

    /// The rows.
    pub fn rows(&self) -> &Rows
        ensures rows { result.now ≡ self.now.rows }
        ensures consistent { IsConsistent self.now.rows }
    {
        &self.rows
    }

    /// How many changes were accepted.
    pub fn version(&self) -> u64
        ensures { result ≡ self.now.version }
    {
        self.version
    }
}
