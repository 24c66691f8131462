//! An event from its first host to its verdict. Begin here.

ghost use Rattle.std.specs.Prelude.{◌≡◌, ◌<◌, ◌≤◌, Bool, List, IfOk, OnOk, [], count_by, length};
ghost use Rattle.api_types.specs.RowLists.{RowLists};
ghost use Rattle.api_types.specs.declared.network.Segment.{Segment};
ghost use Rattle.dvr_fabric.specs.Beginnings.{start_fate};
ghost use Rattle.dvr_fabric.specs.Meaning as meaning;
ghost use Rattle.dvr_fabric.specs.Positions as positions;
ghost use Rattle.dvr_fabric.specs.declared.begin.Start.TheVariants.{At as StartAt};
ghost use Rattle.dvr_laws.specs.Held.{HoldCopies};
ghost use Rattle.dvr_types.specs.DvrFabric as fabric;
ghost use Rattle.dvr_types.specs.DvrHosts.{dvr_hosts};
ghost use Rattle.dvr_types.specs.DvrVerdicts.{dvr_verdict, verdict_of_dvr};
ghost use Rattle.dvr_types.specs.StandFor.{StandFor};
ghost use Rattle.host_plane.specs.Views.{outcome_of as outcome_seen};
ghost use Rattle.net_addr.specs.Words.{Text as TheText};
ghost use Rattle.plane_types.specs.declared.event.Event.{Event as TheEvent};

use crate::advance::advance;
use crate::begin::{Start, begin, first_network, first_position, steps_for};
use crate::fleet::DvrFleet;
use crate::position::{Next, Position};
use crate::run::DvrRun;
use dvr_types::{DvrTables, DvrVerdict};
use host_plane::{FrameEnd, Step};
use net_addr::{Copies, OutOfMemory, Seq};
use plane_types::{AskAnswer, DropCause, Entries, Event, Outcome, Verdict};
use std::alloc::Global;

// The outcome that an end stands for.
fn outcome_of(alloc: Global, ended: &FrameEnd<'_>) -> Result<Outcome, OutOfMemory>
    ensures { IfOk result (λ o. o ≡ outcome_seen ended.now) }
{
    match ended {
        FrameEnd::Delivered { port, frame } => Ok(Outcome::Delivered {
            port: *port,
            frame: *frame,
        }),
        FrameEnd::Address { address, mac } => Ok(Outcome::Answered(AskAnswer::Arp {
            address: *address,
            mac: *mac,
        })),
        FrameEnd::Lease(lease) => Ok(Outcome::Answered(AskAnswer::Lease(lease.copy(alloc)?))),
        FrameEnd::Absorbed { router } => Ok(Outcome::Absorbed { router: *router }),
        FrameEnd::Out {
            network,
            toward,
            frame,
        } => Ok(Outcome::Out {
            network: *network,
            toward: *toward,
            frame: *frame,
        }),
        FrameEnd::Dropped(cause) => Ok(Outcome::Dropped(*cause)),
    }
}

// An event that has no step left is dropped.
fn end_of(alloc: Global, next: &Next<'_>) -> Result<Outcome, OutOfMemory>
    ensures { IfOk result (λ o. o ≡ positions.end_of_next next.now) }
{
    match next {
        Next::Step(Step::End(ending)) => outcome_of(alloc, &ending.ended),
        Next::Step(Step::Next(_) | Step::ToTunnel { .. } | Step::ToWire { .. })
        | Next::Toward { .. } => Ok(Outcome::Dropped(DropCause::Unknown)),
    }
}

// The verdict of a run with this outcome.
fn verdict_of(alloc: Global, outcome: Outcome, run: DvrRun) -> DvrVerdict
    ensures { result
        ≡ record {
          verdict = record { outcome = outcome; path = run.path; fresh = run.made; trail = [] };
          hosts = run.hosts;
        } }
{
    let DvrRun {
        path,
        fresh: _,
        made,
        hosts,
    } = run;
    DvrVerdict {
        verdict: Verdict {
            outcome,
            path,
            fresh: made,
            trail: Seq::new(alloc),
        },
        hosts,
    }
}

// From a position on, at most so many steps.
fn travel<'d>(
    alloc: Global,
    fleet: &DvrFleet<'d>,
    many: u16,
    position: &mut Position<'d>,
    run: &mut DvrRun,
) -> Result<(), OutOfMemory>
    requires within { position.old.at < length fleet.now }
    requires names { (name : TheText) → count_by (fabric.is_dvr_named name) fleet.now ≤ 1 }
    ensures { OnOk result
        ((r : fabric.DvrRun) → positions.Tells fleet.now run.old r
        → positions.IsFate fleet.now position.new run.new
        (positions.position_fate fleet.now (fabric.dvr_walk fleet.now many) position.old r)) }
{
    for steps in 0..many {
        advance(alloc, fleet, run, position)?;
    }
    Ok(())
}

// From the host at which an event begins to its verdict.
fn send_from<'d>(
    alloc: Global,
    fleet: &DvrFleet<'d>,
    event: &'d Event,
    at: usize,
) -> Result<DvrVerdict, OutOfMemory>
    requires within { at < length fleet.now }
    requires names { (name : TheText) → count_by (fabric.is_dvr_named name) fleet.now ≤ 1 }
    ensures { IfOk result
        (λ v. v ≡ verdict_of_dvr fleet.now (start_fate fleet.now event.now (StartAt at))) }
{
    let host = fleet.host_at(at);
    let _near = host.copies.near.as_slice(); // for the proof: a position may lead to such a row's end
    let mut run = DvrRun::new(alloc);
    run.pass(first_network(&host, event))?;
    run.add_host(alloc, &host)?;
    let mut position = first_position(at, event);
    travel(alloc, fleet, steps_for(event), &mut position, &mut run)?;
    let outcome = end_of(alloc, &position.next)?;
    Ok(verdict_of(alloc, outcome, run))
}

// From where an event begins, or why it doesn't.
fn send_over<'d>(
    alloc: Global,
    fleet: &DvrFleet<'d>,
    event: &'d Event,
) -> Result<DvrVerdict, OutOfMemory>
    requires { (name : TheText) → count_by (fabric.is_dvr_named name) fleet.now ≤ 1 }
    ensures { IfOk result (λ v. v ≡ dvr_verdict fleet.now event.now) }
{
    match begin(fleet, event) {
        Start::At(at) => send_from(alloc, fleet, event, at),
        Start::Dropped(cause) => Ok(verdict_of(alloc, Outcome::Dropped(cause), DvrRun::new(alloc))),
    }
}

/// What an event comes to at hosts that route by themselves: its verdict, without a trail, and the
/// hosts that handled it. Nothing of the hosts is changed.
///
/// Its cost grows with the routers that are passed, for each with the hosts, with what a look-up
/// costs and with the copies' ports, routes, floating addresses and near rows.
pub fn dvr_send(
    alloc: Global,
    hosts: &[DvrTables],
    entries: &[Entries],
    event: &Event,
) -> Result<DvrVerdict, OutOfMemory>
    requires lengths { length hosts.now ≡ length entries.now }
    requires names { (name : TheText)
        → count_by (fabric.is_dvr_named name) (dvr_hosts hosts.now entries.now) ≤ 1 }
    ensures verdict { IfOk result
        (λ v. v ≡ dvr_verdict (dvr_hosts hosts.now entries.now) event.now) }
    ensures means { IfOk result
        (λ v. (rows : RowLists) → StandFor rows (dvr_hosts hosts.now entries.now)
        → meaning.Means rows (dvr_hosts hosts.now entries.now) event.now v) }
    ensures two_hosts { IfOk result
        (λ v. (rows : RowLists) → StandFor rows (dvr_hosts hosts.now entries.now)
        → meaning.TwoHosts rows (dvr_hosts hosts.now entries.now) event.now v) }
    ensures lists { IfOk result
        (λ v. (carries : TheText → Segment → Bool) (rows : RowLists) (start : List fabric.DvrHost)
        (events : List TheEvent) → HoldCopies carries rows start
        → dvr_hosts hosts.now entries.now ≡ meaning.hosts_after_events start events
        → meaning.MeansAfter rows start events event.now v) }
{
    let fleet = DvrFleet::of(hosts, entries);
    send_over(alloc, &fleet, event)
}
