//! Where an event is, and where a step leads.

ghost use Rattle.std.specs.Prelude.{◌≡◌, ◌<◌, IfSome, find, length};
ghost use Rattle.dvr_fabric.specs.Found.{IsHostOf, view_of_host};
ghost use Rattle.dvr_fabric.specs.Positions.{Crosses, fate_of_copy, next_fate, position_fate, run_there};
ghost use Rattle.dvr_fabric.specs.Steps.{view_of_copy_step};
ghost use Rattle.dvr_types.specs.DvrFabric.{At, DvrGoing, DvrHost, DvrRun, fate_of_dvr, is_dvr_named, over_dvr_tunnel, over_dvr_wire, takes_elsewhere};
ghost use Rattle.host_plane.specs.Views.{view_of_step};
ghost use Rattle.plane_types.specs.Places.{WireIn};
ghost use Rattle.plane_types.specs.declared.verdict.Outcome.TheVariants.{Dropped};

use crate::find::{Sought, find_host};
use crate::fleet::{DvrFleet, HostAt};
use crate::rule::CopyStep;
use api_types::Id;
use dvr_types::NearTo;
use host_plane::{Ending, FrameEnd, Step};
use net_addr::Text;
use plane_types::{DropCause, Frame, Packet, Place, Toward};

/// What comes next for an event at a host.
#[derive(Drop)]
pub(crate) enum Next<'d> {
    /// It is at a place of the tables, or at its end.
    Step(Step<'d>),
    /// It is on a network, on its way to where an address leads.
    Toward {
        network: Id,
        to: &'d NearTo,
        packet: Packet,
    },
}

/// Where an event is: the place of its host among the hosts, and what comes next there.
#[derive(Drop)]
pub(crate) struct Position<'d> {
    pub(crate) at: usize,
    pub(crate) next: Next<'d>,
}

/// The event comes by a physical network.
pub(crate) fn at_wire<'d>(
    at: usize,
    physical: &'d Text,
    tag: Option<u16>,
    frame: &Frame,
) -> Position<'d>
    ensures at { result.at ≡ at }
    ensures next { (on : DvrGoing) (d : DvrHost) (r : DvrRun)
        → next_fate on d r result.next
        ≡ on d (At (WireIn (record { physical = physical.now; tag = tag }) frame.now)) r }
{
    Position {
        at,
        next: Next::Step(Step::Next(Place::WireIn {
            physical,
            tag,
            frame: *frame,
        })),
    }
}

// The event is dropped.
fn dropped<'d>(at: usize, cause: DropCause) -> Position<'d>
    ensures at { result.at ≡ at }
    ensures next { (on : DvrGoing) (d : DvrHost) (r : DvrRun)
        → next_fate on d r result.next ≡ fate_of_dvr r (Dropped cause) }
{
    Position {
        at,
        next: Next::Step(Step::End(Ending {
            ended: FrameEnd::Dropped(cause),
            way: None,
        })),
    }
}

/// To the host with a name, or nowhere.
pub(crate) fn cross_tunnel<'d>(
    fleet: &DvrFleet<'d>,
    host: &HostAt<'d>,
    name: &Text,
    number: u32,
    frame: &Frame,
) -> Position<'d>
    requires { IsHostOf fleet.now host.now }
    ensures within { result.at < length fleet.now }
    ensures led { (on : DvrGoing) (r : DvrRun)
        → position_fate fleet.now on result (run_there fleet.now (view_of_host host.now) result r)
        ≡ over_dvr_tunnel on (view_of_host host.now) number frame.now r
        (find (is_dvr_named name.now) fleet.now) }
{
    match find_host(fleet, &Sought::Named(name)) {
        Some(at) => Position {
            at,
            next: Next::Step(Step::Next(Place::TunnelIn {
                number,
                frame: *frame,
            })),
        },
        None => dropped(host.at, DropCause::Unknown),
    }
}

// To the first other host that takes the frame from the wire, or out.
fn cross_wire<'d>(
    fleet: &DvrFleet<'d>,
    host: &HostAt<'d>,
    physical: &'d Text,
    tag: Option<u16>,
    network: Id,
    toward: Toward,
    frame: &Frame,
) -> Position<'d>
    requires { IsHostOf fleet.now host.now }
    ensures within { result.at < length fleet.now }
    ensures led { (on : DvrGoing) (r : DvrRun)
        → position_fate fleet.now on result (run_there fleet.now (view_of_host host.now) result r)
        ≡ over_dvr_wire on (view_of_host host.now)
        (record { physical = physical.now; tag = tag }) network toward frame.now r
        (find
        (takes_elsewhere (view_of_host host.now)
        (record { physical = physical.now; tag = tag }) frame.now)
        fleet.now) }
{
    let sought = Sought::Taker {
        but: Some(host.name),
        physical,
        tag,
        frame: *frame,
    };
    match find_host(fleet, &sought) {
        Some(at) => at_wire(at, physical, tag, frame),
        None => Position {
            at: host.at,
            next: Next::Step(Step::End(Ending {
                ended: FrameEnd::Out {
                    network,
                    toward,
                    frame: *frame,
                },
                way: None,
            })),
        },
    }
}

/// Where a look-up in the tables of a host leads, if it leaves the host.
pub(crate) fn cross<'d>(
    fleet: &DvrFleet<'d>,
    host: &HostAt<'d>,
    step: &Step<'d>,
) -> Option<Position<'d>>
    requires { IsHostOf fleet.now host.now }
    ensures within { IfSome result (λ p. p.at < length fleet.now) }
    ensures led { Crosses fleet.now (view_of_host host.now) (view_of_step step.now) result }
{
    match step {
        Step::ToTunnel {
            host: name,
            number,
            frame,
        } => Some(cross_tunnel(fleet, host, name, *number, frame)),
        Step::ToWire {
            physical,
            tag,
            network,
            toward,
            frame,
        } => Some(cross_wire(fleet, host, physical, *tag, *network, *toward, frame)),
        Step::Next(_) | Step::End(_) => None,
    }
}

/// Where a copy's step leads.
pub(crate) fn follow_copy<'d>(at: usize, step: &CopyStep<'d>) -> Position<'d>
    ensures at { result.at ≡ at }
    ensures next { (on : DvrGoing) (d : DvrHost) (r : DvrRun)
        → next_fate on d r result.next ≡ fate_of_copy on d r (view_of_copy_step step.now) }
{
    match step {
        CopyStep::Absorbed { router } => Position {
            at,
            next: Next::Step(Step::End(Ending {
                ended: FrameEnd::Absorbed { router: *router },
                way: None,
            })),
        },
        CopyStep::Dropped { cause, .. } => dropped(at, *cause),
        CopyStep::Sends {
            network,
            to,
            packet,
        } => Position {
            at,
            next: Next::Toward {
                network: *network,
                to,
                packet: *packet,
            },
        },
    }
}
