//! Calls of the API, whose changes are kept, put in place and told to the hosts.
ghost use Rattle.std.specs.Prelude.{◌≡◌, ◌⊎◌, ◌-◌, ◌^◌, ◌<◌, ◌≤◌, IfErr, IfOk, OnErr, OnOk, true};
ghost use Rattle.api_types.specs.Outcome.{Refused as RefusedWith};
ghost use Rattle.api_types.specs.Rows.{Fits, after};
ghost use Rattle.kept_laws.specs.Kept.{AreKept};
ghost use Rattle.api_machine.specs.WholeStep.{api_step};
ghost use Rattle.call_parts.specs.InForm.{IsInForm};
ghost use Rattle.keeper_core.specs.Counts.{RoseBy, Tells};
ghost use Rattle.keeper_core.specs.Kept.{IsStored};
ghost use Rattle.world_laws.specs.Steps.{Accept, step};
ghost use Rattle.lab_world.specs.World.{ByMachine, IsHandled, is_change, state_of};

use crate::world::World;
use api_machine::Planned;
use api_types::{Answer, Call, Caller, Change, Refusal};
use keeper_core::{Keeper, KeeperRefusal};
use plane_types::Reply;
use std::alloc::Global;

impl World {
    /// The answer of a call, which changes what it plans.
    pub(crate) fn answer<K: Keeper>(
        &mut self,
        alloc: Global,
        keeper: &mut K,
        caller: &Caller,
        call: &Call,
    ) -> Result<Answer, Refusal>
        requires kept { Tells (K.told keeper.old).rows self.old.history.rows }
        requires in_form { IsInForm caller.now call.now }
        ensures ok { IfOk result
            (λ answer.
            IsHandled
            (ByMachine (api_step self.old.settings (state_of self.old) caller.now call.now))
            self.old
            self.new (Reply.Done answer)) }
        ensures err { IfErr result
            (λ refusal. (self.new ≡ self.old)
            × ((refusal ≡ Refusal.OutOfMemory)
            ⊎ (((refusal ≡ Refusal.StoreFault)
            × (is_change
            (ByMachine
            (api_step self.old.settings (state_of self.old)
            caller.now call.now)) ≡ true))
            ⊎ (api_step self.old.settings (state_of self.old) caller.now call.now
            ≡ RefusedWith refusal)))) }
        ensures store_fault { IfErr result
            (λ refusal. refusal ≡ Refusal.StoreFault
            → (is_change (ByMachine
            (api_step self.old.settings (state_of self.old) caller.now call.now))
            ≡ true) × RoseBy 1 (K.told keeper.old).faults (K.told keeper.new).faults) }
        ensures later { (K.told keeper.old).faults ≤ (K.told keeper.new).faults }
        ensures kept { IsStored self.new.history.rows (K.told keeper.old) (K.told keeper.new) }
    {
        let _world = self.rows(); // for the proof: brings in the world's invariant
        let Planned { change, answer } = self.machine.plan(alloc, caller, call)?;
        if let Some(change) = change {
            self.keep(alloc, keeper, change)?;
        }
        Ok(answer)
    }

    // Makes all ready for a planned change, at the hosts too, hands it to the keeper, puts it in
    // place, tells it to the hosts and keeps it as a message, or leaves all as it is.
    fn keep<K: Keeper>(
        &mut self,
        alloc: Global,
        keeper: &mut K,
        change: Change,
    ) -> Result<(), Refusal>
        requires kept { Tells (K.told keeper.old).rows self.old.history.rows }
        requires fits { Fits self.old.history.rows change }
        requires sound { AreKept self.old.settings self.old.history.rows
            (after self.old.history.rows change) }
        requires room { self.old.history.version < 2 ^ 64 - 1 }
        ensures ok { OnOk result (self.new ≡ step self.old (Accept change)) }
        ensures err { OnErr result (self.new ≡ self.old) }
        ensures cause { IfErr result
            (λ refusal. (refusal ≡ Refusal.OutOfMemory)
            ⊎ ((refusal ≡ Refusal.StoreFault)
            × RoseBy 1 (K.told keeper.old).faults (K.told keeper.new).faults)) }
        ensures later { (K.told keeper.old).faults ≤ (K.told keeper.new).faults }
        ensures kept { IsStored self.new.history.rows (K.told keeper.old) (K.told keeper.new) }
    {
        let ready = self.machine.prepare(alloc, &change)?;
        let version = self.machine.version();
        let told = self
            .hosts
            .prepare_told(alloc, self.manual, version + 1, &change, ready.rows())?;
        match keeper.apply(alloc, &change) {
            Ok(()) => {
                self.machine.accept(ready);
                self.hosts.take(told, version + 1);
                let _kept = self.bus.push(change);
                Ok(())
            }
            Err(KeeperRefusal::Failed) => Err(Refusal::StoreFault),
            Err(KeeperRefusal::OutOfMemory) => Err(Refusal::OutOfMemory),
        }
    }
}
