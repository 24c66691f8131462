//! A packet at one port, and where it is then.

ghost use Rattle.std.specs.Prelude.{◌≡◌, IfOk, OnOk, Some, option_to_list, suc};
ghost use Rattle.api_types.specs.Holders.{router_of as router_by_rows};
ghost use Rattle.plane_types.specs.Meaning.{Onward, Trace as TheTrace, fate_at_port as arrived_at, at_router as at_router_by, end_fate as ended_with, port_fate as got_by, after_router as handed_by, handed_out as handed_out_by, at_receiver as received_by, with_fresh, with_path};
ghost use Rattle.api_types.specs.RouterRows.{leg_of};
ghost use Rattle.plane_types.specs.Routing.{RouteSends};
ghost use Rattle.plane_types.specs.Parts.{packet_of};
ghost use Rattle.net_meaning.specs.Views.{fate_of, passed_list, trace_of, at_port_fate};

use crate::ask::out_of;
use crate::passage::passage_at;
use crate::router::{Routed, Sent, route};
use api_types::{Direction, Id, PortRow, RouterRow, Rows};
use net_addr::{Mac, OutOfMemory, Seq};
use plane_rows::{holder, joined_with, leg, router_of};
use plane_types::{DropCause, Entry, Outcome, Packet, Toward};
use std::alloc::Global;

/// What an event has come to so far: the networks and routers that it passed, and the entries that
/// it made.
#[derive(Drop)]
pub(crate) struct Trace {
    pub(crate) path: Seq<Id>,
    pub(crate) fresh: Seq<Entry>,
}

/// What an event comes to.
#[derive(Drop)]
pub(crate) struct Fate {
    pub(crate) outcome: Outcome,
    pub(crate) trace: Trace,
}

/// Where a packet is then.
#[derive(Drop)]
pub(crate) enum Next<'r> {
    Ends(Outcome),
    To(&'r PortRow, Packet),
}

/// What became of a packet at a port: the entry that this made, the router and the network that it
/// passed, and where it is then.
#[derive(Drop)]
pub(crate) struct AtPort<'r> {
    made: Option<Entry>,
    passed: Option<(Id, Id)>,
    next: Next<'r>,
}

// An instance's or DHCP port filters the packet, and then has it.
fn receive<'r>(
    rows: &Rows,
    entries: &[Entry],
    fresh: &[Entry],
    port: &PortRow,
    packet: &Packet,
) -> AtPort<'r>
    ensures { (on : Onward) (t : TheTrace) → t.fresh ≡ fresh.now
        → at_port_fate on t result
        ≡ received_by rows.now entries.now port.now (packet_of packet.now) t }
{
    let passage = passage_at(rows, entries, fresh, port, Direction::Ingress, packet);
    let outcome = if passage.passes {
        Outcome::Delivered {
            port: port.id,
            frame: packet.frame(),
        }
    } else {
        Outcome::Dropped(DropCause::Ingress)
    };
    AtPort {
        made: if passage.passes { passage.made } else { None },
        passed: None,
        next: Next::Ends(outcome),
    }
}

// The joined holder of the next hop gets what a router sends on by a port.
fn handed_out<'r>(rows: &'r Rows, router: &RouterRow, out: &PortRow, sent: &Sent<'r>) -> AtPort<'r>
    ensures { (on : Onward) (t : TheTrace)
        → at_port_fate on t result
        ≡ handed_out_by rows.now on router.now sent.now.hop (packet_of sent.now.packet)
        (with_fresh t (option_to_list sent.now.made)) (Some out.now) }
{
    let network = out.network;
    let held = holder(rows, network, &sent.hop);
    let next = match joined_with(rows, &out.host, held) {
        Some(port) => Next::To(
            port,
            Packet {
                dst: port.mac,
                ..sent.packet
            },
        ),
        None => Next::Ends(out_of(
            rows,
            network,
            Toward::Address(sent.hop),
            Packet {
                dst: Mac(0),
                ..sent.packet
            }
            .frame(),
            DropCause::NoHolder,
        )),
    };
    AtPort {
        made: sent.made,
        passed: Some((router.id, network)),
        next,
    }
}

// The port by which it leaves is one of the router's.
fn hand_on<'r>(rows: &'r Rows, router: &RouterRow, sent: &Sent<'r>) -> AtPort<'r>
    ensures { (on : Onward) (t : TheTrace)
        → at_port_fate on t result
        ≡ handed_by rows.now on router.now t
        (RouteSends (option_to_list sent.now.made) (leg_of sent.now.out.now) sent.now.hop
        (packet_of sent.now.packet)) }
{
    match leg(rows, router, sent.out.id) {
        Some(out) => handed_out(rows, router, out, sent),
        None => AtPort {
            made: sent.made,
            passed: None,
            next: Next::Ends(Outcome::Dropped(DropCause::Unknown)),
        },
    }
}

fn end_here<'r>(outcome: Outcome) -> AtPort<'r>
    ensures { (on : Onward) (t : TheTrace) → at_port_fate on t result ≡ ended_with t outcome }
{
    AtPort {
        made: None,
        passed: None,
        next: Next::Ends(outcome),
    }
}

// A router's port hands the packet to the router that it names.
fn at_router<'r>(
    alloc: Global,
    rows: &'r Rows,
    entries: &[Entry],
    fresh: &[Entry],
    port: &PortRow,
    packet: &Packet,
) -> Result<AtPort<'r>, OutOfMemory>
    ensures { IfOk result
        (λ at_port. (on : Onward) (t : TheTrace) → t.fresh ≡ fresh.now
        → at_port_fate on t at_port
        ≡ at_router_by rows.now entries.now on port.now (packet_of packet.now) t
        (router_by_rows rows.now port.now)) }
{
    let Some(router) = router_of(rows, port) else {
        return Ok(end_here(Outcome::Dropped(DropCause::Unknown)));
    };
    match route(alloc, rows, entries, fresh, router, port, packet)? {
        Routed::Ends(outcome) => Ok(end_here(outcome)),
        Routed::Sends(sent) => Ok(hand_on(rows, router, &sent)),
    }
}

// What becomes of a packet at a port.
fn arrive<'r>(
    alloc: Global,
    rows: &'r Rows,
    entries: &[Entry],
    fresh: &[Entry],
    port: &PortRow,
    packet: &Packet,
) -> Result<AtPort<'r>, OutOfMemory>
    ensures { IfOk result
        (λ at_port. (on : Onward) (t : TheTrace) → t.fresh ≡ fresh.now
        → at_port_fate on t at_port
        ≡ arrived_at rows.now entries.now on port.now (packet_of packet.now) t) }
{
    if port.is_router_port() {
        at_router(alloc, rows, entries, fresh, port, packet)
    } else {
        Ok(receive(rows, entries, fresh, port, packet))
    }
}

// Adds what a packet made and passed at a port.
fn note(trace: &mut Trace, made: Option<Entry>, passed: Option<(Id, Id)>) -> Result<(), OutOfMemory>
    ensures { OnOk result
        (trace_of trace.new
        ≡ with_path (with_fresh (trace_of trace.old) (option_to_list made))
        (passed_list passed)) }
{
    if let Some(entry) = made {
        trace.fresh.push(entry)?;
    }
    if let Some((router, network)) = passed {
        trace.path.push(router)?;
        trace.path.push(network)?;
    }
    Ok(())
}

/// What becomes of a packet that a port gets, and that may pass this many routers. Its cost grows
/// with the routers that it passes, for each with the rows and the entries.
pub(crate) fn carry_packet<'r>(
    alloc: Global,
    rows: &'r Rows,
    entries: &[Entry],
    many: u16,
    port: &'r PortRow,
    packet: Packet,
    mut trace: Trace,
) -> Result<Fate, OutOfMemory>
    ensures { IfOk result
        (λ f. fate_of f
        ≡ got_by rows.now entries.now many port.now (packet_of packet) (trace_of trace)) }
{
    let mut at = port;
    let mut packet = packet;
    for routers in 0..many {
        let at_port = arrive(alloc, rows, entries, trace.fresh.as_slice(), at, &packet)?;
        let AtPort { made, passed, next } = at_port;
        note(&mut trace, made, passed)?;
        match next {
            Next::Ends(outcome) => return Ok(Fate { outcome, trace }),
            Next::To(next, sent) => {
                at = next;
                packet = sent;
            }
        }
    }
    Ok(Fate {
        outcome: Outcome::Dropped(DropCause::Unknown),
        trace,
    })
}
