//! Where an event begins.

ghost use Rattle.std.specs.Prelude.{◌≡◌, ◌≤◌, option_to_list};
ghost use Rattle.dvr_fabric.specs.Beginnings as beginnings;
ghost use Rattle.dvr_fabric.specs.Found.{view_of_host};
ghost use Rattle.dvr_fabric.specs.Positions.{next_fate};
ghost use Rattle.dvr_types.specs.DvrFabric.{At, DvrGoing, DvrHost, DvrRun, dvr_fate};
ghost use Rattle.plane_types.specs.Fabric.{steps_for as steps_for_life};
ghost use Rattle.plane_types.specs.Meaning.{life_of};
ghost use Rattle.plane_types.specs.declared.event.Event.TheVariants.{FromWire};

use crate::find::{Sought, find_host};
use crate::fleet::{DvrFleet, HostAt};
use crate::path::{network_of_tap, network_of_wire};
use crate::position::{Next, Position, at_wire};
use api_types::Id;
use host_plane::Step;
use net_addr::Text;
use plane_types::{DropCause, Event, Frame, Place};

/// The place of the host at which an event begins, or why it doesn't.
#[derive(Clone, Copy)]
pub(crate) enum Start {
    At(usize),
    Dropped(DropCause),
}

/// How many steps an event may have: three for each router that its packet may pass, three to the
/// port, and one more from a tap.
pub(crate) fn steps_for(event: &Event) -> u16
    ensures { result ≡ beginnings.steps_of event.now }
{
    match event {
        Event::FromPort { frame, .. } => steps_of(frame) + 1,
        Event::FromWire { frame, .. } => steps_of(frame),
    }
}

#[tactic(auto, unfolding(plane_types::specs::Fabric::steps_for))]
fn steps_of(frame: &Frame) -> u16
    ensures is { result ≡ steps_for_life (life_of frame.now) }
    ensures fits { result ≤ 771 }
{
    match *frame {
        Frame::Ip { ttl, .. } => 3 * (u16::from(ttl) + 1) + 3,
        Frame::NeighbourAsk { .. } | Frame::Dhcp { .. } | Frame::Other { .. } => 3,
    }
}

// An event from a wire begins at the first host that takes it.
fn begin_at_wire(fleet: &DvrFleet<'_>, physical: &Text, tag: Option<u16>, frame: &Frame) -> Start
    ensures within { beginnings.IsStart fleet.now result }
    ensures begun { beginnings.start_fate fleet.now (FromWire physical.now tag frame.now) result
        ≡ dvr_fate fleet.now (FromWire physical.now tag frame.now) }
{
    if frame.is_unsupported() {
        return Start::Dropped(DropCause::Unsupported);
    }
    let sought = Sought::Taker {
        but: None,
        physical,
        tag,
        frame: *frame,
    };
    match find_host(fleet, &sought) {
        Some(at) => Start::At(at),
        None => Start::Dropped(DropCause::Unknown),
    }
}

/// Where an event begins: one from a port at the first host with a tap of it.
pub(crate) fn begin(fleet: &DvrFleet<'_>, event: &Event) -> Start
    ensures within { beginnings.IsStart fleet.now result }
    ensures begun { beginnings.start_fate fleet.now event.now result ≡ dvr_fate fleet.now event.now }
{
    match event {
        Event::FromPort { port, .. } => match find_host(fleet, &Sought::WithTap(*port)) {
            Some(at) => Start::At(at),
            None => Start::Dropped(DropCause::Dead),
        },
        Event::FromWire {
            physical,
            tag,
            frame,
        } => begin_at_wire(fleet, physical, *tag, frame),
    }
}

/// The network on which an event begins at a host.
pub(crate) fn first_network(host: &HostAt<'_>, event: &Event) -> Option<Id>
    ensures { option_to_list result
        ≡ beginnings.first_ids (view_of_host host.now).host event.now }
{
    match event {
        Event::FromPort { port, .. } => network_of_tap(host, *port),
        Event::FromWire { physical, tag, .. } => network_of_wire(host, physical, *tag),
    }
}

/// The first position of an event, at this host.
pub(crate) fn first_position<'d>(at: usize, event: &'d Event) -> Position<'d>
    ensures at { result.at ≡ at }
    ensures next { (on : DvrGoing) (d : DvrHost) (r : DvrRun)
        → next_fate on d r result.next ≡ on d (At (beginnings.first_place event.now)) r }
{
    match event {
        Event::FromPort { port, frame } => Position {
            at,
            next: Next::Step(Step::Next(Place::TapIn {
                port: *port,
                frame: *frame,
            })),
        },
        Event::FromWire {
            physical,
            tag,
            frame,
        } => at_wire(at, physical, *tag, frame),
    }
}
