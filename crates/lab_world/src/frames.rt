//! Calls of the lab that send frames, or tell what the rows make of them.
ghost use Rattle.std.specs.Prelude.{◌≡◌, ◌≤◌, IfErr, IfOk};
ghost use Rattle.plane_types.specs.Meaning.{life_of};
ghost use Rattle.plane_laws.specs.Bounds.{HasEightBits};
ghost use Rattle.lab_world.specs.Lab.{Answered, IsBarred, lab_outcome};
ghost use Rattle.lab_world.specs.World.{ByLab, IsHandled};

use crate::lab::ensure_event_allowed;
use crate::world::World;
use api_types::{Caller, Refusal};
use fabric_run::send;
use net_meaning::explain;
use plane_types::{Event, Frame, LabAnswer, LabCall, Reply};
use std::alloc::Global;

impl World {
    /// Sends an event through the tables of the hosts, and keeps the entries that it makes at the
    /// hosts that made them.
    pub(crate) fn carry(
        &mut self,
        alloc: Global,
        caller: &Caller,
        event: &Event,
    ) -> Result<LabAnswer, Refusal>
        ensures ok { IfOk result
            (λ answer.
            IsHandled (ByLab (lab_outcome self.old caller.now (LabCall.Frames event.now))) self.old
            self.new (Reply.LabDone answer)) }
        ensures err { IfErr result
            (λ refusal. (self.new ≡ self.old)
            × IsBarred (lab_outcome self.old caller.now (LabCall.Frames event.now)) refusal) }
    {
        ensure_event_allowed(alloc, self.machine.rows(), caller, event)?;
        let _ = lifetime(event);
        self.hosts.reserve(alloc)?;
        let verdict = send(alloc, &self.hosts, event)?;
        self.hosts.keep(verdict.fresh.as_slice());
        Ok(LabAnswer::Seen(verdict))
    }

    /// What the rows make of an event.
    pub(crate) fn explained(
        &self,
        alloc: Global,
        caller: &Caller,
        event: &Event,
    ) -> Result<LabAnswer, Refusal>
        ensures ok { IfOk result
            (λ answer. lab_outcome self.now caller.now (LabCall.Explain event.now)
            ≡ Answered answer self.now) }
        ensures err { IfErr result
            (IsBarred (lab_outcome self.now caller.now (LabCall.Explain event.now))) }
    {
        ensure_event_allowed(alloc, self.machine.rows(), caller, event)?;
        let entries = self.hosts.all_entries(alloc)?;
        let verdict = explain(alloc, self.machine.rows(), &entries, event)?;
        Ok(LabAnswer::Seen(verdict))
    }
}

// Through how many routers the packet of an event may go, and one.
fn lifetime(event: &Event) -> u16
    ensures { HasEightBits event.now }
{
    match event {
        Event::FromPort { frame, .. } | Event::FromWire { frame, .. } => lifetime_of(frame),
    }
}

fn lifetime_of(frame: &Frame) -> u16
    ensures value { result ≡ life_of frame.now }
    ensures bound { life_of frame.now ≤ 256 }
{
    match *frame {
        Frame::Ip { ttl, .. } => u16::from(ttl) + 1,
        Frame::NeighbourAsk { .. } | Frame::Dhcp { .. } | Frame::Other { .. } => 0,
    }
}
