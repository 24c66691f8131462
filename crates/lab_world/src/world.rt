//! The world: machine, messages and hosts, and the one call that answers an ask.

ghost use Rattle.std.specs.Prelude.{◌≡◌, ◌↔◌, ◌≤◌, IfErr, IfOk, IsTrue, None, OnOk, map, true};
ghost use Rattle.api_types.specs.Consistent.{IsConsistent};
ghost use Rattle.api_check.specs.FirstBroken.{first_broken_of};
ghost use Rattle.net_settings.specs.declared.settings.Host as config;
ghost use Rattle.net_settings.specs.Rules.{MeetsRules};
ghost use Rattle.plane_types.specs.Crossing.{CrossesAtRouters};
ghost use Rattle.plane_types.specs.Hosts.{all_entries};
ghost use Rattle.plane_types.specs.Node.{agents_of, first_agent};
ghost use Rattle.plane_types.specs.PortSecurity.{IsLetIn, IsLetOut};
ghost use Rattle.plane_types.specs.Verdicts.{rows_verdict, without_hosts};
ghost use Rattle.plane_types.specs.declared.ask.Ask.TheVariants.{Lab as LabAsk};
ghost use Rattle.plane_types.specs.declared.ask.LabAnswer.TheVariants.{Seen};
ghost use Rattle.plane_types.specs.declared.ask.LabCall.TheVariants.{Frames};
ghost use Rattle.plane_types.specs.declared.event.Event.{Event as TheEvent};
ghost use Rattle.plane_types.specs.declared.verdict.Verdict.{Verdict as TheVerdict};
ghost use Rattle.keeper_core.specs.Counts.{RoseBy, Tells};
ghost use Rattle.keeper_core.specs.Kept.{IsStored};
ghost use Rattle.world_laws.specs.Lead.{IsWorld};
ghost use Rattle.world_laws.specs.World.{IsSynced, first_world, hosts_of};
ghost use Rattle.lab_world.specs.Lab.{IsBarred, lab_outcome};
ghost use Rattle.lab_world.specs.Opening.{IsOpenRefusal};
ghost use Rattle.lab_world.specs.World.{ByLab, Handles, IsAskInForm, IsHandled, ask_outcome, is_change};

use crate::hosts::Hosts;
use crate::opening::OpenRefusal;
use api_consistency::find_broken;
use api_machine::Machine;
use api_types::{Caller, Refusal, Rows};
use bus_core::Bus;
use keeper_core::Keeper;
use net_addr::{Copies, OutOfMemory};
use net_settings::{Host, Settings};
use plane_types::{Ask, LabAnswer, LabCall, Reply};
use std::alloc::Global;
use std::marker::Model;

/// The machine of a server, its last changes as messages, and the hosts that carry its frames.
///
/// Each host has the rows of some version, which is the current one once it heard all messages:
/// its tables are those that its rows give to it, always.
#[derive(Drop)]
pub struct World {
    pub(crate) machine: Machine,
    pub(crate) bus: Bus,
    pub(crate) hosts: Hosts,
    pub(crate) manual: bool,
}

impl Model for World {
    ghost use Rattle.lab_world.specs.Parts.{AreParts, world_seen};
    ghost use Rattle.world_laws.specs.World.{World};

    ghost Value = { World };

    ghost view = { λ w.
        world_seen w.machine.settings w.machine.rows w.machine.version w.bus w.hosts w.manual };

    ghost invariant = { λ w.
        AreParts w.machine.settings w.machine.rows w.machine.version w.bus w.hosts w.manual };
}

impl World {
    /// Puts rows into service under the settings, at version 0, with the hosts of the settings,
    /// each of which wires them. Where delivery is `manual` hosts hear of changes by `deliver`
    /// alone, otherwise each is told of each change at once. It is refused where the rows break a
    /// clause of consistency, with the first one, or because memory ran out; rows and settings are
    /// dropped then. Its cost grows with the rows and the logarithm of their number, and with the
    /// hosts times the rows; with the square of the rows where they break a clause.
    pub fn open(
        alloc: Global,
        rows: Rows,
        settings: Settings,
        manual: bool,
    ) -> Result<World, OpenRefusal>
        ensures ok { IfOk result (λ w. w ≡ first_world settings manual rows) }
        ensures sound { OnOk result (first_broken_of settings.hosts rows ≡ None) }
        ensures err { IfErr result (IsOpenRefusal (first_broken_of settings.hosts rows)) }
    {
        if let Some(broken) = find_broken(alloc, &rows, &settings) {
            return Err(OpenRefusal::from(broken));
        }
        let machine = Machine::of(rows, settings);
        let hosts = first_hosts(alloc, machine.rows(), machine.settings().hosts())?;
        let bus = Bus::make(alloc)?;
        Ok(World {
            machine,
            bus,
            hosts,
            manual,
        })
    }

    /// The current rows.
    pub fn rows(&self) -> &Rows
        ensures rows { result.now ≡ self.now.history.rows }
        ensures consistent { IsConsistent self.now.history.rows }
        ensures world { IsWorld self.now }
    {
        self.machine.rows()
    }

    /// The settings.
    pub fn settings(&self) -> &Settings
        ensures value { result.now ≡ self.now.settings }
        ensures rules { MeetsRules self.now.settings }
    {
        self.machine.settings()
    }

    /// How many changes were accepted.
    pub fn version(&self) -> u64
        ensures { result ≡ self.now.history.version }
    {
        self.machine.version()
    }

    /// Whether each host holds the current version. Its cost grows with the hosts.
    pub fn synced(&self) -> bool
        ensures { IsTrue result ↔ IsSynced self.now }
    {
        self.hosts.all_hold(self.machine.version())
    }

    /// Answers what a caller asks. An accepted change is in the rows and in the kept rows, it is
    /// kept as a message, of which the last 1,024 are, and the version has risen by one; where
    /// delivery isn't manual each host is told it. Frames go by the tables that the hosts hold.
    /// While each host holds the current version they come to what the rows say, cross between
    /// networks at routers alone, and are let in and out by ports as their groups and guards allow,
    /// or as answers to that. The entries that they make are kept at the hosts that made them.
    /// After a refusal all is as it was: one because memory ran out, which is free, one because the
    /// store failed to keep an accepted change, where the keeper counted a fault, or that of the
    /// ask. The cost grows with the rows, for an accepted change with that of wiring each host too,
    /// and for a frame with the entries of the hosts.
    pub fn handle<K: Keeper>(
        &mut self,
        alloc: Global,
        keeper: &mut K,
        caller: &Caller,
        ask: &Ask,
    ) -> Reply
        requires kept { Tells (K.told keeper.old).rows self.old.history.rows }
        requires in_form { IsAskInForm caller.now ask.now }
        ensures handled { Handles (ask_outcome self.old caller.now ask.now) self.old self.new
            result }
        ensures frames { (event : TheEvent) (verdict : TheVerdict)
            → ask.now ≡ LabAsk (Frames event) → result ≡ Reply.LabDone (Seen verdict)
            → IsSynced self.old
            → without_hosts verdict
            ≡ rows_verdict self.old.history.rows (all_entries (hosts_of self.old)) event }
        ensures crosses { (event : TheEvent) (verdict : TheVerdict)
            → ask.now ≡ LabAsk (Frames event) → result ≡ Reply.LabDone (Seen verdict)
            → IsSynced self.old
            → CrossesAtRouters self.old.history.rows verdict }
        ensures lets_in { (event : TheEvent) (verdict : TheVerdict)
            → ask.now ≡ LabAsk (Frames event) → result ≡ Reply.LabDone (Seen verdict)
            → IsSynced self.old
            → IsLetIn self.old.history.rows verdict }
        ensures lets_out { (event : TheEvent) (verdict : TheVerdict)
            → ask.now ≡ LabAsk (Frames event) → result ≡ Reply.LabDone (Seen verdict)
            → IsSynced self.old
            → IsLetOut self.old.history.rows event verdict }
        ensures store_fault { result ≡ Reply.Refused Refusal.StoreFault
            → (is_change (ask_outcome self.old caller.now ask.now) ≡ true)
            × RoseBy 1 (K.told keeper.old).faults (K.told keeper.new).faults }
        ensures later { (K.told keeper.old).faults ≤ (K.told keeper.new).faults }
        ensures kept { IsStored self.new.history.rows (K.told keeper.old) (K.told keeper.new) }
    {
        let _world = self.rows(); // for the proof: brings in the world's invariant
        match ask {
            Ask::Api(call) => match self.answer(alloc, keeper, caller, call) {
                Ok(answer) => Reply::Done(answer),
                Err(refusal) => Reply::Refused(refusal),
            },
            Ask::Lab(call) => match self.answer_lab(alloc, caller, call) {
                Ok(answer) => Reply::LabDone(answer),
                Err(refusal) => Reply::Refused(refusal),
            },
        }
    }

    // The answer of a call of the lab.
    fn answer_lab(
        &mut self,
        alloc: Global,
        caller: &Caller,
        call: &LabCall,
    ) -> Result<LabAnswer, Refusal>
        ensures ok { IfOk result
            (λ answer.
            IsHandled (ByLab (lab_outcome self.old caller.now call.now)) self.old self.new
            (Reply.LabDone answer)) }
        ensures err { IfErr result
            (λ refusal. (self.new ≡ self.old)
            × IsBarred (lab_outcome self.old caller.now call.now) refusal) }
    {
        match call {
            LabCall::Frames(event) => self.carry(alloc, caller, event),
            LabCall::Explain(event) => self.explained(alloc, caller, event),
            LabCall::Deliver { host, number } => self.deliver(alloc, caller, host, *number),
            LabCall::Resync(name) => self.resync(alloc, caller, name),
            LabCall::Restart(name) => self.restart(alloc, caller, name),
            LabCall::Forget(name) => self.forget(alloc, caller, name),
            LabCall::Settle => self.settle(alloc, caller),
            LabCall::Hosts => self.hosts_told(alloc, caller),
            LabCall::Tables(name) => self.tables_told(alloc, caller, name),
            LabCall::Version => self.version_told(caller),
            LabCall::Change { number } => self.change_told(alloc, caller, *number),
            LabCall::Page { version, number } => self.page_told(alloc, caller, *version, *number),
        }
    }
}

// The hosts of the settings, which are given their first rows.
fn first_hosts(alloc: Global, rows: &Rows, carriers: &[Host]) -> Result<Hosts, OutOfMemory>
    requires { IsConsistent rows.now }
    ensures { IfOk result
        (λ h. agents_of h
        ≡ map (λ (d : config.Host). first_agent rows.now 0 d.name) carriers.now) }
{
    let mut hosts = Hosts::new(alloc);
    for carrier in carriers {
        hosts.add(alloc, carrier.name.copy(alloc)?, rows, 0)?;
    }
    Ok(hosts)
}
