//! One step, and where it leads: at this host, to another one, or to an end.

ghost use Rattle.std.specs.Prelude.{◌≡◌, ◌<◌, ◌≤◌, ◌++◌, ℕ, IfSome, List, OnOk, count_by, find, length, option_map, suc};
ghost use Rattle.dvr_fabric.specs.Found.{IsHostOf, view_of_host};
ghost use Rattle.dvr_fabric.specs.Positions as positions;
ghost use Rattle.dvr_fabric.specs.Steps.{view_of_handled};
ghost use Rattle.dvr_fabric.specs.declared.position.Next.TheVariants.{Step as NextStep};
ghost use Rattle.dvr_types.specs.DvrFabric as fabric;
ghost use Rattle.net_addr.specs.Words.{Text as TheText};
ghost use Rattle.plane_types.specs.Packets.{ip_frame};
ghost use Rattle.plane_types.specs.Parts.{packet_of};
ghost use Rattle.plane_types.specs.Places.{view_of_place};
ghost use Rattle.plane_types.specs.TableStep.{table_step};
ghost use Rattle.plane_types.specs.declared.entry.Entry.{Entry as TheEntry};

use crate::copies::{Handled, handled_here};
use crate::fleet::{DvrFleet, HostAt};
use crate::path::{Passed, copy_path, network_at, path_added};
use crate::position::{Next, Position, cross, cross_tunnel, follow_copy};
use crate::run::DvrRun;
use api_types::Id;
use dvr_types::NearTo;
use host_plane::{Step, step};
use net_addr::{OutOfMemory, Text};
use plane_types::{Fresh, Packet, Place};
use std::alloc::Global;

/// What comes of a step: where the event is next, and what it passed.
#[derive(Drop)]
pub(crate) struct Stepped<'d> {
    pub(crate) next: Position<'d>,
    pub(crate) passed: Passed,
}

// On a bridge the copies are asked first.
fn handled_at<'d>(host: &HostAt<'d>, place: &Place<'_>) -> Option<Handled<'d>>
    ensures { option_map view_of_handled result
        ≡ fabric.handled_at host.now.copies.now host.now.tables.now.lists
        (view_of_place place.now) }
{
    let Place::Bridge { tag, frame } = place else {
        return None;
    };
    let packet = Packet::of(frame)?;
    let network = network_at(host, *tag)?;
    handled_here(host.copies, network, &packet)
}

// A copy handles the packet.
fn step_by_copy<'d>(fleet: &DvrFleet<'d>, host: &HostAt<'d>, handled: &Handled<'d>) -> Stepped<'d>
    requires { IsHostOf fleet.now host.now }
    ensures within { result.next.at < length fleet.now }
    ensures leads { (fresh : List TheEntry)
        → positions.Leads fleet.now fresh fresh (view_of_host host.now)
        (λ on r. fabric.fate_after_copy on (view_of_host host.now) r (view_of_handled handled.now))
        result }
{
    Stepped {
        next: follow_copy(host.at, &handled.step),
        passed: copy_path(handled.router, &handled.step),
    }
}

// A look-up in the host's tables.
fn step_by_tables<'d>(
    fleet: &DvrFleet<'d>,
    fresh: &mut Fresh,
    host: &HostAt<'d>,
    place: &Place<'d>,
) -> Stepped<'d>
    requires here { IsHostOf fleet.now host.now }
    requires room { 2 ≤ fresh.old.spare }
    ensures within { result.next.at < length fleet.now }
    ensures leads { positions.Leads fleet.now fresh.old.items fresh.new.items
        (view_of_host host.now)
        (λ on r. fabric.fate_after_tables fleet.now on (view_of_host host.now)
        (view_of_place place.now) r
        (table_step host.now.tables.now.lists (host.now.entries.now.items ++ r.run.fresh)
        (view_of_place place.now)))
        result }
{
    let step = step(host.tables, host.entries, fresh, place);
    let passed = path_added(host, place, &step);
    match cross(fleet, host, &step) {
        Some(next) => Stepped { next, passed },
        None => Stepped {
            next: Position {
                at: host.at,
                next: Next::Step(step),
            },
            passed,
        },
    }
}

// At a place of the host's tables.
fn step_at<'d>(
    fleet: &DvrFleet<'d>,
    fresh: &mut Fresh,
    host: &HostAt<'d>,
    place: &Place<'d>,
) -> Stepped<'d>
    requires here { IsHostOf fleet.now host.now }
    requires room { 2 ≤ fresh.old.spare }
    ensures within { result.next.at < length fleet.now }
    ensures leads { positions.Leads fleet.now fresh.old.items fresh.new.items
        (view_of_host host.now)
        (λ on r. fabric.fate_at_place fleet.now on (view_of_host host.now)
        (view_of_place place.now) r
        (fabric.handled_at host.now.copies.now host.now.tables.now.lists
        (view_of_place place.now)))
        result }
{
    match handled_at(host, place) {
        Some(handled) => step_by_copy(fleet, host, &handled),
        None => step_by_tables(fleet, fresh, host, place),
    }
}

// By a tunnel, which passes nothing.
fn step_by_tunnel<'d>(
    fleet: &DvrFleet<'d>,
    host: &HostAt<'d>,
    name: &Text,
    number: u32,
    packet: &Packet,
) -> Stepped<'d>
    requires { IsHostOf fleet.now host.now }
    ensures within { result.next.at < length fleet.now }
    ensures leads { (fresh : List TheEntry)
        → positions.Leads fleet.now fresh fresh (view_of_host host.now)
        (λ on r. fabric.over_dvr_tunnel on (view_of_host host.now) number
        (ip_frame (packet_of packet.now)) r
        (find (fabric.is_dvr_named name.now) fleet.now))
        result }
{
    Stepped {
        next: cross_tunnel(fleet, host, name, number, &packet.frame()),
        passed: Passed::none(),
    }
}

// On the way to where an address leads: a router's copy may handle the packet as well.
fn step_toward<'d>(
    fleet: &DvrFleet<'d>,
    host: &HostAt<'d>,
    network: Id,
    to: &'d NearTo,
    packet: &Packet,
) -> Stepped<'d>
    requires { IsHostOf fleet.now host.now }
    ensures within { result.next.at < length fleet.now }
    ensures leads { (fresh : List TheEntry)
        → positions.Leads fleet.now fresh fresh (view_of_host host.now)
        (λ on r. fabric.fate_toward fleet.now on (view_of_host host.now) network
        (packet_of packet.now) r to.now)
        result }
{
    match to {
        NearTo::Tap(port) => Stepped {
            next: Position {
                at: host.at,
                next: Next::Step(Step::Next(Place::TapOut {
                    port: *port,
                    frame: packet.frame(),
                })),
            },
            passed: Passed::none(),
        },
        NearTo::Tunnel { host: name, number } => {
            step_by_tunnel(fleet, host, name, *number, packet)
        }
        NearTo::Router {
            host: name,
            number,
            ..
        } => match handled_here(host.copies, network, packet) {
            Some(handled) => step_by_copy(fleet, host, &handled),
            None => step_by_tunnel(fleet, host, name, *number, packet),
        },
    }
}

// At a place of the host's tables, if the event isn't at its end.
fn step_on<'d>(
    fleet: &DvrFleet<'d>,
    fresh: &mut Fresh,
    host: &HostAt<'d>,
    step: &Step<'d>,
) -> Option<Stepped<'d>>
    requires here { IsHostOf fleet.now host.now }
    requires room { 2 ≤ fresh.old.spare }
    ensures within { IfSome result (λ s. s.next.at < length fleet.now) }
    ensures leads { positions.LeadsOn fleet.now fresh.old.items fresh.new.items
        (view_of_host host.now) (NextStep step.now) result }
{
    match step {
        Step::Next(place) => Some(step_at(fleet, fresh, host, place)),
        Step::ToTunnel { .. } | Step::ToWire { .. } | Step::End(_) => None,
    }
}

// What comes of a step, before the event is at its next host; none at an end.
fn step_from<'d>(
    fleet: &DvrFleet<'d>,
    fresh: &mut Fresh,
    host: &HostAt<'d>,
    next: &Next<'d>,
) -> Option<Stepped<'d>>
    requires here { IsHostOf fleet.now host.now }
    requires room { 2 ≤ fresh.old.spare }
    ensures within { IfSome result (λ s. s.next.at < length fleet.now) }
    ensures leads { positions.LeadsOn fleet.now fresh.old.items fresh.new.items
        (view_of_host host.now) next.now result }
{
    match next {
        Next::Step(step) => step_on(fleet, fresh, host, step),
        Next::Toward {
            network,
            to,
            packet,
        } => Some(step_toward(fleet, host, *network, to, packet)),
    }
}

/// One step from a position; nothing at an end.
pub(crate) fn advance<'d>(
    alloc: Global,
    fleet: &DvrFleet<'d>,
    run: &mut DvrRun,
    position: &mut Position<'d>,
) -> Result<(), OutOfMemory>
    requires within { position.old.at < length fleet.now }
    requires names { (name : TheText) → count_by (fabric.is_dvr_named name) fleet.now ≤ 1 }
    ensures within { OnOk result (position.new.at < length fleet.now) }
    ensures walked { OnOk result
        ((many : ℕ) (r : fabric.DvrRun) → positions.Tells fleet.now run.old r
        → positions.Walks fleet.now run.new
        (positions.position_fate fleet.now (fabric.dvr_walk fleet.now (suc many)) position.old r)
        (positions.position_fate fleet.now (fabric.dvr_walk fleet.now many) position.new)) }
{
    let host = fleet.host_at(position.at);
    run.fresh.reserve(2)?;
    let Some(stepped) = step_from(fleet, &mut run.fresh, &host, &position.next) else {
        return Ok(());
    };
    let Stepped { next, passed } = stepped;
    run.note(alloc, &host, &fleet.host_at(next.at), &passed)?;
    *position = next;
    Ok(())
}
