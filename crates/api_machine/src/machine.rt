//! The machine: rows with their version, under settings.
ghost use Rattle.std.specs.Prelude.{◌≡◌, ◌+◌, ◌-◌, ◌^◌, ◌<◌, None, Some, IfErr, IfOk, OnOk};
ghost use Rattle.api_types.specs.Consistent.{IsConsistent};
ghost use Rattle.api_types.specs.Outcome.{Told};
ghost use Rattle.api_types.specs.Printed.{reply_of};
ghost use Rattle.api_types.specs.Refusing.{answer_alone};
ghost use Rattle.api_types.specs.Rows.{Fits, after};
ghost use Rattle.api_check.specs.FirstBroken.{first_broken_of};
ghost use Rattle.net_settings.specs.Rules.{MeetsRules};
ghost use Rattle.call_parts.specs.InForm.{IsInForm};
ghost use Rattle.call_parts.specs.State.{State as TheState};
ghost use Rattle.call_parts.specs.Typed.{AreTyped};
ghost use Rattle.apart_laws.specs.Alike.{AreAlike};
ghost use Rattle.api_machine.specs.WholeStep.{api_step};
ghost use Rattle.kept_laws.specs.Kept.{AreKept, HostsCarry};
ghost use Rattle.api_machine.specs.Machine.{state_of};
ghost use Rattle.call_parts.specs.Answers.{IsRefusalOf};
ghost use Rattle.api_machine.specs.Plan.{Plans};

use crate::calls::plan_call;
use crate::planned::Planned;
use crate::shadow::Shadow;
use api_check::{Inconsistent, first_broken};
use api_types::{Call, Caller, Change, Refusal, Rows};
use call_parts::{Asking, State, are_typed};
use net_addr::{Copies, OutOfMemory};
use net_settings::Settings;
use std::alloc::Global;
use std::marker::Model;

/// Consistent rows with their version, under settings whose hosts can carry them. The rows of the
/// version before stand beside them and follow one change late: so a change is put into tables that
/// no one shares, and no table is copied.
#[derive(Drop)]
pub struct Machine {
    settings: Settings,
    state: State,
    shadow: Option<Shadow>,
}

impl Model for Machine {
    ghost use Rattle.api_machine.specs.Machine.{IsKept, MachineParts};

    ghost Value = { MachineParts };

    ghost view = { λ m.
        record { settings = m.settings; rows = m.state.rows; version = m.state.version } };

    ghost invariant = { λ m.
        IsKept
        (record { settings = m.settings; rows = m.state.rows; version = m.state.version })
        m.shadow };
}

/// Rows that can be put in place of those of a version.
#[derive(Drop)]
pub struct Ready {
    rows: Rows,
    version: u64,
    shadow: Shadow,
}

impl Model for Ready {
    ghost use Rattle.std.specs.Prelude.{◌≡◌};
    ghost use Rattle.call_parts.specs.State.{State};

    ghost Value = { State };

    ghost view = { λ r. record { rows = r.rows; version = r.version } };

    ghost invariant = { λ r. r.shadow ≡ r.rows };
}

impl Ready {
    /// The rows that would be put in place.
    pub fn rows(&self) -> &Rows
        ensures { result.now ≡ self.now.rows }
    {
        &self.rows
    }
}

impl Machine {
    /// A machine with consistent rows, whose bound ports are on hosts that can carry them, at
    /// version 0. It reads the rows once, for the proof alone.
    pub fn of(rows: Rows, settings: Settings) -> Machine
        requires consistent { IsConsistent rows }
        requires carried { HostsCarry settings rows }
        ensures { result ≡ record { settings = settings; rows = rows; version = 0 } }
    {
        are_typed(&rows);
        let _rules = settings.hosts(); // for the proof: the settings meet their rules
        let state = State::make(rows, 0);
        Machine {
            settings,
            state,
            shadow: None,
        }
    }

    /// A machine with these rows, at version 0. It is refused where they break a clause of
    /// consistency, with the first one and the first row that breaks it. It allocates nothing, and
    /// its cost grows with the square of the rows.
    pub fn open(rows: Rows, settings: Settings) -> Result<Machine, Inconsistent>
        ensures ok { IfOk result
            (λ m. m ≡ record { settings = settings; rows = rows; version = 0 }) }
        ensures sound { OnOk result (first_broken_of settings.hosts rows ≡ None) }
        ensures broken { IfErr result (λ b. first_broken_of settings.hosts rows ≡ Some b) }
    {
        if let Some(broken) = first_broken(&rows, &settings) {
            return Err(broken);
        }
        Ok(Machine::of(rows, settings))
    }

    /// The current rows.
    pub fn rows(&self) -> &Rows
        ensures rows { result.now ≡ self.now.rows }
        ensures consistent { IsConsistent self.now.rows }
        ensures typed { AreTyped self.now.rows }
        ensures carried { HostsCarry self.now.settings self.now.rows }
    {
        self.state.rows()
    }

    /// The settings.
    pub fn settings(&self) -> &Settings
        ensures value { result.now ≡ self.now.settings }
        ensures rules { MeetsRules self.now.settings }
    {
        &self.settings
    }

    /// How many changes were accepted.
    pub fn version(&self) -> u64
        ensures { result ≡ self.now.version }
    {
        self.state.version()
    }

    /// What a call comes to: its answer, and the change that leads to the rows after it, which
    /// fits the current rows and leaves rows that are as sound. Nothing changes. A tenant is
    /// answered as at any other state in which it has the same footing. Its cost grows with the
    /// rows.
    pub fn plan(&self, alloc: Global, caller: &Caller, call: &Call) -> Result<Planned, Refusal>
        requires in_form { IsInForm caller.now call.now }
        ensures ok { IfOk result
            (Plans self.now.settings (state_of self.now)
            (api_step self.now.settings (state_of self.now) caller.now call.now)) }
        ensures err { IfErr result
            (IsRefusalOf
            (api_step self.now.settings (state_of self.now) caller.now call.now)) }
        ensures answer_apart { (other : TheState)
            → AreAlike self.now.settings caller.now (state_of self.now) other
            → IfOk result
            (λ p. answer_alone (api_step self.now.settings other caller.now call.now)
            ≡ Told (reply_of p.answer)) }
        ensures refusal_apart { (other : TheState)
            → AreAlike self.now.settings caller.now (state_of self.now) other
            → IfErr result
            (IsRefusalOf (answer_alone (api_step self.now.settings other caller.now call.now))) }
    {
        let _rows = self.rows(); // for the proof: the rows are typed
        let _version = self.version(); // for the proof: it is a number of 64 bits
        let asking = Asking::make(self.settings(), &self.state, caller);
        plan_call(alloc, &asking, call)
    }

    // Rows equal to the current ones, whose tables no one shares as a rule.
    fn rows_apart(&mut self, alloc: Global) -> Result<Rows, OutOfMemory>
        ensures rows { IfOk result (λ rows. rows ≡ self.old.rows) }
        ensures same { self.new ≡ self.old }
    {
        match self.shadow.take() {
            Some(shadow) => shadow.into_rows(alloc),
            None => self.rows().copy(alloc),
        }
    }

    /// The rows after a change that fits, ready to be put in place. Nothing changes. Its cost is
    /// that of the change; for the first change of a kind, and after one that was given up, it grows
    /// with the rows of the kinds that the change touches.
    pub fn prepare(&mut self, alloc: Global, change: &Change) -> Result<Ready, OutOfMemory>
        requires fits { Fits self.old.rows change.now }
        ensures ready { IfOk result
            (λ r. r
            ≡ record { rows = after self.old.rows change.now; version = self.old.version }) }
        ensures same { self.new ≡ self.old }
    {
        let before = self.rows().copy(alloc)?;
        let shadow = Shadow::of(alloc, before, change)?;
        let mut rows = self.rows_apart(alloc)?;
        rows.apply_change(alloc, change)?;
        let version = self.version();
        Ok(Ready {
            rows,
            version,
            shadow,
        })
    }

    /// Puts rows in place that were made ready at this version and are as sound as the current
    /// ones. The version rises by one. It can't fail.
    pub fn accept(&mut self, ready: Ready)
        requires now { ready.version ≡ self.old.version }
        requires room { self.old.version < 2 ^ 64 - 1 }
        requires kept { AreKept self.old.settings self.old.rows ready.rows }
        ensures { self.new
            ≡ record {
              settings = self.old.settings;
              rows = ready.rows;
              version = self.old.version + 1;
            } }
    {
        let Ready {
            rows,
            version,
            shadow,
        } = ready;
        self.state = State::make(rows, version + 1);
        self.shadow = Some(shadow);
    }
}
