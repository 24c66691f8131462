//! One look-up, and where it leads: on at this host, to another one, or to an end.

ghost use Rattle.std.specs.Prelude.{◌≡◌, ◌+◌, ◌<◌, ◌≤◌, ◌++◌, ◌&&◌, ℕ, IfOk, List, None, OnOk, Some, count_by, find, length, not, slice_get, suc};
ghost use Rattle.std.specs.Str.{bytes_eq};
ghost use Rattle.plane_types.specs.Fabric.{Going, Run as TheRun, next_position as moved_by, takes, over_tunnel as tunnelled_by, walk, over_wire as wired_by};
ghost use Rattle.plane_types.specs.Hosts.{Host, is_named};
ghost use Rattle.plane_types.specs.Places.{End, view_of_place};
ghost use Rattle.host_plane.specs.Views.{outcome_of, view_of_step};
ghost use Rattle.fabric_run.specs.Views.{IsWithin, Tells, Walks, view_of_host, position_fate};

use crate::added::added_by;
use crate::fleet::{Fleet, HostAt, host_at};
use crate::run::Run;
use crate::taker::{Sought, first, taker};
use api_types::Id;
use host_plane::{Ending, FrameEnd, Step, step};
use net_addr::{OutOfMemory, Text};
use plane_types::{DropCause, Frame, Place, Toward};
use std::alloc::Global;

/// Where an event is after a look-up: at a place of the host, or at its end.
#[derive(Drop)]
pub(crate) struct Position<'f> {
    pub(crate) at: usize,
    pub(crate) step: Step<'f>,
}

// The same place, made again part by part: a move out of an enum that borrows isn't covered by the
// checker, and the place stays in the step that is looked at.
fn place_again<'f>(place: &Place<'f>) -> Place<'f>
    ensures { view_of_place result ≡ view_of_place place.now }
{
    match place {
        Place::TapIn { port, frame } => Place::TapIn {
            port: *port,
            frame: *frame,
        },
        Place::Bridge { tag, frame } => Place::Bridge {
            tag: *tag,
            frame: *frame,
        },
        Place::TunnelIn { number, frame } => Place::TunnelIn {
            number: *number,
            frame: *frame,
        },
        Place::WireIn {
            physical,
            tag,
            frame,
        } => Place::WireIn {
            physical,
            tag: *tag,
            frame: *frame,
        },
        Place::RouterIn {
            port,
            router,
            frame,
        } => Place::RouterIn {
            port: *port,
            router: *router,
            frame: *frame,
        },
        Place::DhcpIn { tag, frame } => Place::DhcpIn {
            tag: *tag,
            frame: *frame,
        },
        Place::TapOut { port, frame } => Place::TapOut {
            port: *port,
            frame: *frame,
        },
    }
}

// The same end, made again part by part, for the same reason.
fn ended_again<'f>(ended: &FrameEnd<'f>) -> FrameEnd<'f>
    ensures { outcome_of result ≡ outcome_of ended.now }
{
    match ended {
        FrameEnd::Delivered { port, frame } => FrameEnd::Delivered {
            port: *port,
            frame: *frame,
        },
        FrameEnd::Address { address, mac } => FrameEnd::Address {
            address: *address,
            mac: *mac,
        },
        FrameEnd::Lease(lease) => FrameEnd::Lease(lease),
        FrameEnd::Absorbed { router } => FrameEnd::Absorbed { router: *router },
        FrameEnd::Out {
            network,
            toward,
            frame,
        } => FrameEnd::Out {
            network: *network,
            toward: *toward,
            frame: *frame,
        },
        FrameEnd::Dropped(cause) => FrameEnd::Dropped(*cause),
    }
}

fn ends<'f>(at: usize, ended: &FrameEnd<'f>) -> Position<'f>
    ensures at { result.at ≡ at }
    ensures step { view_of_step result.step ≡ End (outcome_of ended.now) None }
{
    Position {
        at,
        step: Step::End(Ending {
            ended: ended_again(ended),
            way: None,
        }),
    }
}

// To the host with a name, or nowhere.
fn cross_tunnel<'f, F: Fleet>(
    fleet: &'f F,
    at: usize,
    name: &Text,
    number: u32,
    frame: &Frame,
) -> Position<'f>
    requires { at < length (F.hosts fleet.now) }
    ensures within { result.at < length (F.hosts fleet.now) }
    ensures led { (on : Going) (r : TheRun)
        → position_fate (F.hosts fleet.now) on result r
        ≡ tunnelled_by on number frame.now r (find (is_named name.now) (F.hosts fleet.now)) }
{
    match first(fleet, &Sought::Named(name)) {
        Some(next) => Position {
            at: next,
            step: Step::Next(Place::TunnelIn {
                number,
                frame: *frame,
            }),
        },
        None => Position {
            at,
            step: Step::End(Ending {
                ended: FrameEnd::Dropped(DropCause::Unknown),
                way: None,
            }),
        },
    }
}

// Where a frame is once it is out: on which network, and toward what.
#[derive(Clone, Copy)]
struct Outside {
    network: Id,
    toward: Toward,
}

// To the first other host that takes the frame from the wire, or out.
fn cross_wire<'f, F: Fleet>(
    fleet: &'f F,
    at: usize,
    host: &HostAt<'f>,
    physical: &'f Text,
    tag: Option<u16>,
    outside: Outside,
    frame: &Frame,
) -> Position<'f>
    requires { at < length (F.hosts fleet.now) }
    ensures within { result.at < length (F.hosts fleet.now) }
    ensures led { (on : Going) (r : TheRun)
        → position_fate (F.hosts fleet.now) on result r
        ≡ wired_by on (record { physical = physical.now; tag = tag }) outside.network
        outside.toward frame.now r
        (find
        (λ (x : Host). not (bytes_eq x.name host.now.name.now)
        && takes (record { physical = physical.now; tag = tag }) frame.now x)
        (F.hosts fleet.now)) }
{
    match taker(fleet, Some(host.name), physical, tag, frame) {
        Some(next) => Position {
            at: next,
            step: Step::Next(Place::WireIn {
                physical,
                tag,
                frame: *frame,
            }),
        },
        None => Position {
            at,
            step: Step::End(Ending {
                ended: FrameEnd::Out {
                    network: outside.network,
                    toward: outside.toward,
                    frame: *frame,
                },
                way: None,
            }),
        },
    }
}

// Where a step of a host leads.
fn follow_step<'f, F: Fleet>(
    fleet: &'f F,
    at: usize,
    host: &HostAt<'f>,
    step: &Step<'f>,
) -> Position<'f>
    requires here { slice_get (F.hosts fleet.now) at ≡ Some (view_of_host host.now) }
    requires within { at < length (F.hosts fleet.now) }
    ensures within { result.at < length (F.hosts fleet.now) }
    ensures led { (on : Going) (r : TheRun)
        → position_fate (F.hosts fleet.now) on result r
        ≡ moved_by (F.hosts fleet.now) on (view_of_host host.now) r (view_of_step step.now) }
{
    match step {
        Step::Next(place) => Position {
            at,
            step: Step::Next(place_again(place)),
        },
        Step::ToTunnel {
            host: name,
            number,
            frame,
        } => cross_tunnel(fleet, at, name, *number, frame),
        Step::ToWire {
            physical,
            tag,
            network,
            toward,
            frame,
        } => {
            let outside = Outside {
                network: *network,
                toward: *toward,
            };
            cross_wire(fleet, at, host, physical, *tag, outside, frame)
        }
        Step::End(ending) => ends(at, &ending.ended),
    }
}

/// A look-up where an event is at a place of a host.
pub(crate) fn advance<'f, F: Fleet>(
    alloc: Global,
    fleet: &'f F,
    run: &mut Run,
    position: &mut Position<'f>,
) -> Result<(), OutOfMemory>
    requires within { IsWithin (F.hosts fleet.now) position.old }
    requires room { 2 ≤ run.old.fresh.spare }
    requires names { (name : List ℕ) → count_by (is_named name) (F.hosts fleet.now) ≤ 1 }
    ensures within { OnOk result (IsWithin (F.hosts fleet.now) position.new) }
    ensures room { run.old.fresh.spare + length run.old.fresh.items
        ≤ run.new.fresh.spare + length run.new.fresh.items }
    ensures walked { OnOk result
        ((many : ℕ) (r : TheRun) → Tells (F.hosts fleet.now) run.old r
        → Walks (F.hosts fleet.now) run.new
        (position_fate (F.hosts fleet.now) (walk (F.hosts fleet.now) (suc many)) position.old r)
        (position_fate (F.hosts fleet.now) (walk (F.hosts fleet.now) many) position.new)) }
{
    let Step::Next(place) = &position.step else {
        return Ok(());
    };
    let at = position.at;
    let host = host_at(fleet, at);
    let step = step(host.tables, host.entries, &mut run.fresh, place);
    let added = added_by(&host, place, &step);
    run.note(alloc, at, &host, &added)?;
    *position = follow_step(fleet, at, &host, &step);
    Ok(())
}
