//! An event from its first host to its verdict.

ghost use Rattle.std.specs.Prelude.{◌≡◌, ◌<◌, ◌≤◌, ℕ, IfOk, List, None, count_by, option_to_list, suc};
ghost use Rattle.plane_types.specs.Fabric.{at_inward, at_tap, run_from as begun_with, fabric_fate, steps_for as steps_for_life, walk};
ghost use Rattle.plane_types.specs.Hosts.{Host, is_named};
ghost use Rattle.plane_types.specs.Meaning.{life_of};
ghost use Rattle.plane_types.specs.Verdicts.{fabric_verdict};
ghost use Rattle.plane_types.specs.TableStep.{inward_at as inward_by, tap_at as tap_by_port};
ghost use Rattle.plane_types.specs.declared.event.Event.TheVariants.{FromPort, FromWire};
ghost use Rattle.plane_types.specs.declared.table.Carrier.TheVariants.{Wire as ByWire};
ghost use Rattle.host_plane.specs.Views.{outcome_of as outcome_seen, view_of_step};
ghost use Rattle.plane_types.specs.Places.{End};
ghost use Rattle.plane_types.specs.declared.verdict.Outcome.TheVariants.{Dropped};
ghost use Rattle.fabric_run.specs.Views.{IsWithin, ended_by, view_of_host, looks_of, start_path, position_fate};

use crate::added::network_at;
use crate::fleet::{Fleet, HostAt, host_at};
use crate::position::Position;
use crate::run::Run;
use crate::taker::{Sought, first, taker};
use crate::trip::travel;
use api_types::Id;
use host_plane::{Ending, FrameEnd, Step};
use net_addr::{Copies, OutOfMemory, Text};
use plane_types::{AskAnswer, DropCause, Event, Frame, Outcome, Place, Verdict};
use std::alloc::Global;

// How many look-ups an event may have: three for each router that its packet may pass, and three to
// the port.
#[tactic(auto, unfolding(plane_types::specs::Fabric::steps_for))]
fn steps_for(frame: &Frame) -> u16
    ensures is { result ≡ steps_for_life (life_of frame.now) }
    ensures fits { result ≤ 771 }
{
    match *frame {
        Frame::Ip { ttl, .. } => 3 * (u16::from(ttl) + 1) + 3,
        Frame::NeighbourAsk { .. } | Frame::Dhcp { .. } | Frame::Other { .. } => 3,
    }
}

fn network_of_tap(host: &HostAt<'_>, port: Id) -> Option<Id>
    ensures { option_to_list result
        ≡ at_tap (view_of_host host.now) (tap_by_port host.now.tables.now.lists port) }
{
    match host.tables.tap_at(port) {
        Some(tap) => network_at(host, tap.tag),
        None => None,
    }
}

fn network_of_wire(host: &HostAt<'_>, physical: &Text, tag: Option<u16>) -> Option<Id>
    ensures { option_to_list result
        ≡ at_inward (view_of_host host.now)
        (inward_by host.now.tables.now.lists
        (ByWire (record { physical = physical.now; tag = tag }))) }
{
    match host.tables.inward_wire(physical, tag) {
        Some(row) => network_at(host, row.tag),
        None => None,
    }
}

fn drop_at_start<'f>(cause: DropCause) -> Position<'f>
    ensures { view_of_step result.step ≡ End (Dropped cause) None }
{
    Position {
        at: 0,
        step: Step::End(Ending {
            ended: FrameEnd::Dropped(cause),
            way: None,
        }),
    }
}

// An event from a port begins at the first host with a tap of it.
fn from_port<'f, F: Fleet>(fleet: &'f F, port: Id, frame: &Frame) -> Position<'f>
    ensures within { IsWithin (F.hosts fleet.now) result }
    ensures begun { position_fate (F.hosts fleet.now)
        (walk (F.hosts fleet.now) (suc (steps_for_life (life_of frame.now)))) result
        (begun_with (start_path (F.hosts fleet.now) result))
        ≡ fabric_fate (F.hosts fleet.now) (FromPort port frame.now) }
{
    match first(fleet, &Sought::WithTap(port)) {
        Some(at) => Position {
            at,
            step: Step::Next(Place::TapIn {
                port,
                frame: *frame,
            }),
        },
        None => drop_at_start(DropCause::Dead),
    }
}

// An event from a wire begins at the first host that takes it.
fn from_wire<'f, F: Fleet>(
    fleet: &'f F,
    physical: &'f Text,
    tag: Option<u16>,
    frame: &Frame,
) -> Position<'f>
    ensures within { IsWithin (F.hosts fleet.now) result }
    ensures begun { position_fate (F.hosts fleet.now)
        (walk (F.hosts fleet.now) (steps_for_life (life_of frame.now))) result
        (begun_with (start_path (F.hosts fleet.now) result))
        ≡ fabric_fate (F.hosts fleet.now) (FromWire physical.now tag frame.now) }
{
    if frame.is_unsupported() {
        return drop_at_start(DropCause::Unsupported);
    }
    match taker(fleet, None, physical, tag, frame) {
        Some(at) => Position {
            at,
            step: Step::Next(Place::WireIn {
                physical,
                tag,
                frame: *frame,
            }),
        },
        None => drop_at_start(DropCause::Unknown),
    }
}

// The network on which an event begins.
fn start_network<F: Fleet>(fleet: &F, position: &Position<'_>) -> Option<Id>
    requires { IsWithin (F.hosts fleet.now) position.now }
    ensures { option_to_list result ≡ start_path (F.hosts fleet.now) position.now }
{
    match &position.step {
        Step::Next(Place::TapIn { port, .. }) => network_of_tap(
            &host_at(fleet, position.at),
            *port,
        ),
        Step::Next(Place::WireIn { physical, tag, .. }) => {
            network_of_wire(&host_at(fleet, position.at), physical, *tag)
        }
        _ => None,
    }
}

// The outcome that an end stands for.
fn outcome_of(alloc: Global, ended: &FrameEnd<'_>) -> Result<Outcome, OutOfMemory>
    ensures { IfOk result (λ o. o ≡ outcome_seen ended.now) }
{
    match ended {
        FrameEnd::Delivered { port, frame } => Ok(Outcome::Delivered {
            port: *port,
            frame: *frame,
        }),
        FrameEnd::Address { address, mac } => Ok(Outcome::Answered(AskAnswer::Arp {
            address: *address,
            mac: *mac,
        })),
        FrameEnd::Lease(lease) => Ok(Outcome::Answered(AskAnswer::Lease(lease.copy(alloc)?))),
        FrameEnd::Absorbed { router } => Ok(Outcome::Absorbed { router: *router }),
        FrameEnd::Out {
            network,
            toward,
            frame,
        } => Ok(Outcome::Out {
            network: *network,
            toward: *toward,
            frame: *frame,
        }),
        FrameEnd::Dropped(cause) => Ok(Outcome::Dropped(*cause)),
    }
}

// An event that has no look-up left is dropped.
fn end_of(alloc: Global, position: &Position<'_>) -> Result<Outcome, OutOfMemory>
    ensures { IfOk result (λ o. o ≡ ended_by position.now) }
{
    match &position.step {
        Step::End(ending) => outcome_of(alloc, &ending.ended),
        Step::Next(_) | Step::ToTunnel { .. } | Step::ToWire { .. } => {
            Ok(Outcome::Dropped(DropCause::Unknown))
        }
    }
}

// The verdict at the end of a run.
fn verdict_of(alloc: Global, position: &Position<'_>, run: Run) -> Result<Verdict, OutOfMemory>
    ensures { IfOk result
        (λ v. v
        ≡ record {
          outcome = ended_by position.now;
          path = run.path;
          fresh = run.made;
          trail = run.trail;
        }) }
{
    let outcome = end_of(alloc, position)?;
    let Run {
        path,
        fresh: _,
        made,
        trail,
    } = run;
    Ok(Verdict {
        outcome,
        path,
        fresh: made,
        trail,
    })
}

// How an event begins, and how many look-ups it may have.
fn begin<'f, F: Fleet>(fleet: &'f F, event: &'f Event) -> Position<'f>
    ensures within { IsWithin (F.hosts fleet.now) result }
    ensures begun { position_fate (F.hosts fleet.now)
        (walk (F.hosts fleet.now) (looks_of event.now)) result (begun_with (start_path (F.hosts fleet.now) result))
        ≡ fabric_fate (F.hosts fleet.now) event.now }
{
    match event {
        Event::FromPort { port, frame } => from_port(fleet, *port, frame),
        Event::FromWire {
            physical,
            tag,
            frame,
        } => from_wire(fleet, physical, *tag, frame),
    }
}

fn looks_for(event: &Event) -> u16
    ensures is { result ≡ looks_of event.now }
    ensures fits { result ≤ 772 }
{
    match event {
        Event::FromPort { frame, .. } => steps_for(frame) + 1,
        Event::FromWire { frame, .. } => steps_for(frame),
    }
}

/// What an event comes to by the tables and tracked entries of hosts whose names differ: its
/// outcome, the networks and routers that it passed, the entries that it made with the places of
/// the hosts that made them, and its trail. Room for 258 entries is made first. Nothing of the
/// fleet is changed. Its cost grows with the routers that are passed, for each with the hosts and
/// with what a look-up costs.
pub fn send<F: Fleet>(alloc: Global, fleet: &F, event: &Event) -> Result<Verdict, OutOfMemory>
    requires { (name : List ℕ) → count_by (is_named name) (F.hosts fleet.now) ≤ 1 }
    ensures { IfOk result (λ v. v ≡ fabric_verdict (F.hosts fleet.now) event.now) }
{
    let mut run = Run::begin(alloc)?;
    let mut position = begin(fleet, event);
    run.pass(start_network(fleet, &position))?;
    travel(alloc, fleet, looks_for(event), &mut position, &mut run)?;
    verdict_of(alloc, &position, run)
}
