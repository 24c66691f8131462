//! Calls of the lab that deliver messages to hosts, lose what hosts hold, and tell of hosts.
ghost use Rattle.std.specs.Prelude.{◌≡◌, IfErr, IfOk, IfSome};
ghost use Rattle.lab_world.specs.Lab.{Answered, IsBarred, lab_outcome};
ghost use Rattle.lab_world.specs.World.{ByLab, IsHandled};

use crate::lab::{ensure_admin, kept_change, place_of, tables_of};
use crate::world::World;
use api_machine::Machine;
use api_types::{Caller, Refusal, Rows};
use net_addr::Text;
use plane_types::{LabAnswer, LabCall, Reply};
use std::alloc::Global;

// The current rows, if the change with this number leads to them.
fn rows_of(machine: &Machine, number: u64) -> Option<&Rows>
    ensures { IfSome result
        (λ rows. (number ≡ machine.now.version) × (rows.now ≡ machine.now.rows)) }
{
    if number == machine.version() {
        Some(machine.rows())
    } else {
        None
    }
}

impl World {
    /// Tells the host of this name the change with a number. Its cost is that of
    /// `AgentNode::deliver`; the host shares the current rows if that is their change.
    pub(crate) fn deliver(
        &mut self,
        alloc: Global,
        caller: &Caller,
        name: &Text,
        number: u64,
    ) -> Result<LabAnswer, Refusal>
        ensures ok { IfOk result
            (λ answer.
            IsHandled (ByLab (lab_outcome self.old caller.now (LabCall.Deliver name.now number)))
            self.old self.new
            (Reply.LabDone answer)) }
        ensures err { IfErr result
            (λ refusal. (self.new ≡ self.old)
            × IsBarred (lab_outcome self.old caller.now (LabCall.Deliver name.now number))
            refusal) }
    {
        ensure_admin(caller)?;
        let at = place_of(alloc, &self.hosts, name)?;
        let change = kept_change(&self.bus, number)?;
        let after = rows_of(&self.machine, number);
        let heard = self.hosts.deliver(alloc, at, number, change, after)?;
        Ok(LabAnswer::Told(heard))
    }

    /// Gives the host of this name the current rows. Its cost is that of wiring the host.
    pub(crate) fn resync(
        &mut self,
        alloc: Global,
        caller: &Caller,
        name: &Text,
    ) -> Result<LabAnswer, Refusal>
        ensures ok { IfOk result
            (λ answer.
            IsHandled (ByLab (lab_outcome self.old caller.now (LabCall.Resync name.now))) self.old
            self.new
            (Reply.LabDone answer)) }
        ensures err { IfErr result
            (λ refusal. (self.new ≡ self.old)
            × IsBarred (lab_outcome self.old caller.now (LabCall.Resync name.now)) refusal) }
    {
        ensure_admin(caller)?;
        let at = place_of(alloc, &self.hosts, name)?;
        let version = self.machine.version();
        let states = self.hosts.states_with(alloc, name, Some(version))?;
        self.hosts.resync(alloc, at, version, self.machine.rows())?;
        Ok(LabAnswer::Hosts(states))
    }

    /// The host of this name forgets which version it holds.
    pub(crate) fn restart(
        &mut self,
        alloc: Global,
        caller: &Caller,
        name: &Text,
    ) -> Result<LabAnswer, Refusal>
        ensures ok { IfOk result
            (λ answer.
            IsHandled (ByLab (lab_outcome self.old caller.now (LabCall.Restart name.now))) self.old
            self.new
            (Reply.LabDone answer)) }
        ensures err { IfErr result
            (λ refusal. (self.new ≡ self.old)
            × IsBarred (lab_outcome self.old caller.now (LabCall.Restart name.now)) refusal) }
    {
        ensure_admin(caller)?;
        let at = place_of(alloc, &self.hosts, name)?;
        let states = self.hosts.states_with(alloc, name, None)?;
        self.hosts.restart(at);
        Ok(LabAnswer::Hosts(states))
    }

    /// The host of this name forgets its tracked entries.
    pub(crate) fn forget(
        &mut self,
        alloc: Global,
        caller: &Caller,
        name: &Text,
    ) -> Result<LabAnswer, Refusal>
        ensures ok { IfOk result
            (λ answer.
            IsHandled (ByLab (lab_outcome self.old caller.now (LabCall.Forget name.now))) self.old
            self.new
            (Reply.LabDone answer)) }
        ensures err { IfErr result
            (λ refusal. (self.new ≡ self.old)
            × IsBarred (lab_outcome self.old caller.now (LabCall.Forget name.now)) refusal) }
    {
        ensure_admin(caller)?;
        let at = place_of(alloc, &self.hosts, name)?;
        let states = self.hosts.states(alloc)?;
        self.hosts.forget(at);
        Ok(LabAnswer::Hosts(states))
    }

    /// Gives the current rows to each host that doesn't hold them. Its cost is that of wiring each
    /// host.
    pub(crate) fn settle(&mut self, alloc: Global, caller: &Caller) -> Result<LabAnswer, Refusal>
        ensures ok { IfOk result
            (λ answer.
            IsHandled (ByLab (lab_outcome self.old caller.now LabCall.Settle)) self.old self.new
            (Reply.LabDone answer)) }
        ensures err { IfErr result
            (λ refusal. (self.new ≡ self.old)
            × IsBarred (lab_outcome self.old caller.now LabCall.Settle) refusal) }
    {
        ensure_admin(caller)?;
        let version = self.machine.version();
        let ready = self.hosts.prepare(alloc, version, self.machine.rows())?;
        let states = self.hosts.states_at(alloc, version)?;
        self.hosts.settle(ready, version);
        Ok(LabAnswer::Hosts(states))
    }

    /// The hosts, and the version that each holds.
    pub(crate) fn hosts_told(&self, alloc: Global, caller: &Caller) -> Result<LabAnswer, Refusal>
        ensures ok { IfOk result
            (λ answer. lab_outcome self.now caller.now LabCall.Hosts ≡ Answered answer self.now) }
        ensures err { IfErr result (IsBarred (lab_outcome self.now caller.now LabCall.Hosts)) }
    {
        ensure_admin(caller)?;
        Ok(LabAnswer::Hosts(self.hosts.states(alloc)?))
    }

    /// The tables of the host of this name.
    pub(crate) fn tables_told(
        &self,
        alloc: Global,
        caller: &Caller,
        name: &Text,
    ) -> Result<LabAnswer, Refusal>
        ensures ok { IfOk result
            (λ answer. lab_outcome self.now caller.now (LabCall.Tables name.now)
            ≡ Answered answer self.now) }
        ensures err { IfErr result
            (IsBarred (lab_outcome self.now caller.now (LabCall.Tables name.now))) }
    {
        ensure_admin(caller)?;
        tables_of(alloc, &self.hosts, name)
    }
}
