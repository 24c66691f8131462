//! A frame in and out of a port: guard and filter.

ghost use Rattle.std.specs.Prelude.{◌≡◌, ◌++◌};
ghost use Rattle.api_types.specs.declared.group.Direction.TheVariants.{Egress, Ingress};
ghost use Rattle.plane_types.specs.Packets.{ip_frame};
ghost use Rattle.plane_types.specs.Places.{Bridge, Next};
ghost use Rattle.plane_types.specs.TableStep.{stops as stop_step, tap_at as tap_by_port, tap_delivers as delivered_to, tap_filtered as filtered_by, tap_guards as guarded, tap_in as taken_in, tap_out as taken_out, tap_out_by as taken_out_by, tap_passage, tap_sends as sent_by};
ghost use Rattle.plane_types.specs.Parts.{packet_of};
ghost use Rattle.plane_types.specs.declared.verdict.Outcome.TheVariants.{Delivered};
ghost use Rattle.host_plane.specs.Views.{view_of_step, view_of_stepped};

use crate::ending::{Ending, FrameEnd, Step, Stepped, drop_frame};
use crate::filter::passage_at;
use api_types::{Direction, Id};
use net_addr::Addr;
use plane_types::{
    DropCause, Entry, Frame, HostTables, Packet, Place, TapRow, has_pair_mac, is_allowed,
};

// Whether the tap may send the frame, as what it says it is. Without an address a client asks for a
// lease with the tap's MAC or an allowed one.
fn guards(tap: &TapRow, frame: &Frame) -> bool
    ensures { result ≡ guarded tap.now frame.now }
{
    let allowed = tap.allowed.as_slice();
    match *frame {
        Frame::Ip { src, ends, .. } => is_allowed(allowed, src, ends.source()),
        Frame::NeighbourAsk { src, ends } => is_allowed(allowed, src, ends.source()),
        Frame::Dhcp { src, from } => {
            if from.0 == 0 {
                tap.mac == src || has_pair_mac(allowed, src)
            } else {
                is_allowed(allowed, src, Addr::V4(from))
            }
        }
        Frame::Other { .. } => true,
    }
}

fn to_bridge<'t>(tap: &TapRow, frame: Frame) -> Step<'t>
    ensures { view_of_step result ≡ Next (Bridge tap.now.tag frame) }
{
    Step::Next(Place::Bridge {
        tag: tap.tag,
        frame,
    })
}

// A packet goes to the bridge where it passes the filter.
fn send_filtered<'t>(
    tables: &HostTables,
    entries: &[Entry],
    fresh: &[Entry],
    tap: &TapRow,
    packet: &Packet,
) -> Stepped<'t>
    ensures { view_of_stepped result
        ≡ filtered_by (ip_frame (packet_of packet.now)) tap.now
        (tap_passage tables.now.lists (entries.now ++ fresh.now) tap.now Egress
        (packet_of packet.now)) }
{
    let passage = passage_at(tables, entries, fresh, tap, Direction::Egress, packet);
    if passage.passes {
        Stepped {
            step: to_bridge(tap, packet.frame()),
            made: passage.made,
        }
    } else {
        drop_frame(DropCause::Egress)
    }
}

fn sends<'t>(
    tables: &HostTables,
    entries: &[Entry],
    fresh: &[Entry],
    tap: &TapRow,
    frame: Frame,
) -> Stepped<'t>
    ensures { view_of_stepped result
        ≡ sent_by tables.now.lists (entries.now ++ fresh.now) tap.now frame }
{
    match Packet::of(&frame) {
        Some(packet) => send_filtered(tables, entries, fresh, tap, &packet),
        None => Stepped {
            step: to_bridge(tap, frame),
            made: None,
        },
    }
}

/// A frame comes from a port of the host.
pub(crate) fn tap_in<'t>(
    tables: &HostTables,
    entries: &[Entry],
    fresh: &[Entry],
    port: Id,
    frame: Frame,
) -> Stepped<'t>
    ensures { view_of_stepped result
        ≡ taken_in tables.now.lists (entries.now ++ fresh.now) frame
        (tap_by_port tables.now.lists port) }
{
    let Some(tap) = tables.tap_at(port) else {
        return drop_frame(DropCause::Dead);
    };
    if frame.is_unsupported() {
        drop_frame(DropCause::Unsupported)
    } else if tap.secured && !guards(tap, &frame) {
        drop_frame(DropCause::Spoof)
    } else {
        sends(tables, entries, fresh, tap, frame)
    }
}

fn deliver<'t>(port: Id, frame: Frame) -> Step<'t>
    ensures { view_of_step result ≡ stop_step (Delivered port frame) }
{
    Step::End(Ending {
        ended: FrameEnd::Delivered { port, frame },
        way: None,
    })
}

// A packet is delivered where it passes the filter.
fn delivers<'t>(
    tables: &HostTables,
    entries: &[Entry],
    fresh: &[Entry],
    tap: &TapRow,
    packet: &Packet,
) -> Stepped<'t>
    ensures { view_of_stepped result
        ≡ delivered_to tap.now.port (ip_frame (packet_of packet.now))
        (tap_passage tables.now.lists (entries.now ++ fresh.now) tap.now Ingress
        (packet_of packet.now)) }
{
    let passage = passage_at(tables, entries, fresh, tap, Direction::Ingress, packet);
    if passage.passes {
        Stepped {
            step: deliver(tap.port, packet.frame()),
            made: passage.made,
        }
    } else {
        drop_frame(DropCause::Ingress)
    }
}

fn gets<'t>(
    tables: &HostTables,
    entries: &[Entry],
    fresh: &[Entry],
    tap: &TapRow,
    frame: Frame,
) -> Stepped<'t>
    ensures { view_of_stepped result
        ≡ taken_out_by tables.now.lists (entries.now ++ fresh.now) frame tap.now }
{
    match Packet::of(&frame) {
        Some(packet) => delivers(tables, entries, fresh, tap, &packet),
        None => Stepped {
            step: deliver(tap.port, frame),
            made: None,
        },
    }
}

/// A frame comes to a port of the host.
pub(crate) fn tap_out<'t>(
    tables: &HostTables,
    entries: &[Entry],
    fresh: &[Entry],
    port: Id,
    frame: Frame,
) -> Stepped<'t>
    ensures { view_of_stepped result
        ≡ taken_out tables.now.lists (entries.now ++ fresh.now) frame
        (tap_by_port tables.now.lists port) }
{
    match tables.tap_at(port) {
        Some(tap) => gets(tables, entries, fresh, tap, frame),
        None => drop_frame(DropCause::Unknown),
    }
}
