//! An event, by the rows: from a port, or from a wire. Begin here.

ghost use Rattle.std.specs.Prelude.{◌≡◌, ◌++◌, [], ◌∷◌, IfOk, if◌then◌else◌, map, option_copied, suc};
ghost use Rattle.api_types.specs.declared.group.Direction.TheVariants.{Egress as Outward};
ghost use Rattle.api_types.specs.RowsWith.{port_with};
ghost use Rattle.plane_types.specs.Meaning.{drop_fate as dropped_by, from_live as from_live_by, from_network as from_network_by, from_port as from_port_by, from_sender as from_sender_by, from_wire as from_wire_by, port_fate as got_by, life_of, none_so_far as nothing_so_far, on_path, rows_fate, rows_passage, sent_on as sent_on_by, sent_out as sent_out_by, wire_packet as wire_packet_by};
ghost use Rattle.api_types.specs.Wires.{network_on as network_on_wire};
ghost use Rattle.api_types.specs.Holders.{port_at as port_by_mac};
ghost use Rattle.plane_types.specs.Packets.{is_unsupported as unsupported};
ghost use Rattle.plane_types.specs.Verdicts.{of_nobody, rows_verdict};
ghost use Rattle.plane_types.specs.declared.verdict.DropCause.TheVariants.{Unsupported as DropUnsupported};
ghost use Rattle.plane_types.specs.Parts.{packet_of};
ghost use Rattle.net_meaning.specs.Views.{fate_of, trace_of};

use crate::ask::{answer_arp, answer_dhcp, lease_asked, out_of};
use crate::at_port::{Fate, Trace, carry_packet};
use crate::guard::passes_guard;
use crate::passage::passage_at;
use api_types::{Direction, Id, NetworkRow, PortRow, Rows};
use net_addr::{OutOfMemory, Seq, Text};
use plane_rows::{dhcp_port, holder, is_live, joined_with, network_on, port_at};
use plane_types::{
    AskAnswer, DropCause, Entries, Entry, Event, Frame, Made, Outcome, Packet, Toward, Verdict,
};
use std::alloc::Global;

fn none_so_far(alloc: Global) -> Trace
    ensures { trace_of result ≡ nothing_so_far }
{
    Trace {
        path: Seq::new(alloc),
        fresh: Seq::new(alloc),
    }
}

fn on_network(alloc: Global, network: Id) -> Result<Trace, OutOfMemory>
    ensures { IfOk result (λ t. trace_of t ≡ record { path = network ∷ []; fresh = [] }) }
{
    let mut trace = none_so_far(alloc);
    trace.path.push(network)?;
    Ok(trace)
}

fn drop_event(alloc: Global, cause: DropCause) -> Fate
    ensures { fate_of result ≡ dropped_by nothing_so_far cause }
{
    Fate {
        outcome: Outcome::Dropped(cause),
        trace: none_so_far(alloc),
    }
}

// A packet may pass as many routers as its time to live says, and comes to one port more.
fn life(packet: &Packet) -> u16
    ensures { result ≡ suc packet.now.ttl }
{
    u16::from(packet.ttl) + 1
}

// On the sender's network, the joined port with the MAC gets the packet; where nobody has it, the
// packet leaves by the physical network, if there is one.
fn sent_on(
    alloc: Global,
    rows: &Rows,
    entries: &[Entry],
    sender: &PortRow,
    packet: &Packet,
    trace: Trace,
) -> Result<Fate, OutOfMemory>
    ensures { IfOk result
        (λ f. fate_of f
        ≡ sent_on_by rows.now (got_by rows.now entries.now (suc packet.now.ttl))
        sender.now.network sender.now.host (packet_of packet.now) (trace_of trace)) }
{
    let network = sender.network;
    let found = port_at(rows, network, packet.dst);
    match joined_with(rows, &sender.host, found) {
        Some(port) => { carry_packet(alloc, rows, entries, life(packet), port, *packet, trace) }
        None => Ok(Fate {
            outcome: out_of(
                rows,
                network,
                Toward::Mac(packet.dst),
                packet.frame(),
                DropCause::Unknown,
            ),
            trace,
        }),
    }
}

// The sender filters its packet.
fn sent_out(
    alloc: Global,
    rows: &Rows,
    entries: &[Entry],
    sender: &PortRow,
    packet: &Packet,
    mut trace: Trace,
) -> Result<Fate, OutOfMemory>
    ensures { IfOk result
        (λ f. fate_of f
        ≡ sent_out_by rows.now (got_by rows.now entries.now (suc packet.now.ttl)) sender.now
        (packet_of packet.now) (trace_of trace)
        (rows_passage rows.now (entries.now ++ trace.fresh) sender.now Outward
        (packet_of packet.now))) }
{
    let passage = passage_at(
        rows,
        entries,
        trace.fresh.as_slice(),
        sender,
        Direction::Egress,
        packet,
    );
    if !passage.passes {
        return Ok(Fate {
            outcome: Outcome::Dropped(DropCause::Egress),
            trace,
        });
    }
    if let Some(entry) = passage.made {
        trace.fresh.push(entry)?;
    }
    sent_on(alloc, rows, entries, sender, packet, trace)
}

fn from_sender(
    alloc: Global,
    rows: &Rows,
    entries: &[Entry],
    sender: &PortRow,
    frame: Frame,
) -> Result<Fate, OutOfMemory>
    ensures { IfOk result
        (λ f. fate_of f
        ≡ from_sender_by rows.now entries.now (life_of frame) sender.now
        (record { path = sender.now.network ∷ []; fresh = [] }) frame) }
{
    let trace = on_network(alloc, sender.network)?;
    if let Some(packet) = Packet::of(&frame) {
        return sent_out(alloc, rows, entries, sender, &packet, trace);
    }
    let network = sender.network;
    let outcome = match frame {
        Frame::NeighbourAsk { src, ends } => answer_arp(rows, network, &sender.host, src, &ends),
        Frame::Dhcp { src, from } => lease_asked(alloc, rows, network, &sender.host, src, from)?,
        Frame::Ip { .. } | Frame::Other { .. } => Outcome::Dropped(DropCause::Unsupported),
    };
    Ok(Fate { outcome, trace })
}

fn from_live(
    alloc: Global,
    rows: &Rows,
    entries: &[Entry],
    sender: &PortRow,
    frame: Frame,
) -> Result<Fate, OutOfMemory>
    ensures { IfOk result
        (λ f. fate_of f
        ≡ from_live_by rows.now entries.now (life_of frame) sender.now
        (record { path = sender.now.network ∷ []; fresh = [] }) frame) }
{
    let cause = if frame.is_unsupported() {
        DropCause::Unsupported
    } else if !passes_guard(sender, &frame) {
        DropCause::Spoof
    } else {
        return from_sender(alloc, rows, entries, sender, frame);
    };
    Ok(Fate {
        outcome: Outcome::Dropped(cause),
        trace: on_network(alloc, sender.network)?,
    })
}

fn find_port(rows: &Rows, id: Id) -> Option<&PortRow>
    ensures { option_copied result ≡ port_with rows.now id }
{
    let ports = rows.ports();
    let _own_ids = ports.rows(); // for the proof: no two ports have one id
    ports.get(id)
}

// The sender has to be there and live, and no router's port.
fn from_port(
    alloc: Global,
    rows: &Rows,
    entries: &[Entry],
    port: Id,
    frame: Frame,
) -> Result<Fate, OutOfMemory>
    ensures { IfOk result
        (λ f. fate_of f
        ≡ from_port_by rows.now entries.now (life_of frame) frame
        (port_with rows.now port)) }
{
    match find_port(rows, port) {
        Some(sender) => {
            if is_live(rows, sender) && !sender.is_router_port() {
                from_live(alloc, rows, entries, sender, frame)
            } else {
                Ok(drop_event(alloc, DropCause::Dead))
            }
        }
        None => Ok(drop_event(alloc, DropCause::Dead)),
    }
}

fn wire_packet(
    alloc: Global,
    rows: &Rows,
    entries: &[Entry],
    network: &NetworkRow,
    packet: &Packet,
) -> Result<Fate, OutOfMemory>
    ensures { IfOk result
        (λ f. fate_of f
        ≡ wire_packet_by rows.now entries.now (suc packet.now.ttl) network.now
        (packet_of packet.now) (port_by_mac rows.now network.now.id packet.now.dst)) }
{
    match port_at(rows, network.id, packet.dst) {
        Some(port) => {
            let trace = on_network(alloc, network.id)?;
            carry_packet(alloc, rows, entries, life(packet), port, *packet, trace)
        }
        None => Ok(drop_event(alloc, DropCause::Unknown)),
    }
}

fn from_network(
    alloc: Global,
    rows: &Rows,
    entries: &[Entry],
    network: &NetworkRow,
    frame: Frame,
) -> Result<Fate, OutOfMemory>
    ensures { IfOk result
        (λ f. fate_of f ≡ from_network_by rows.now entries.now (life_of frame) network.now frame) }
{
    if let Some(packet) = Packet::of(&frame) {
        return wire_packet(alloc, rows, entries, network, &packet);
    }
    let outcome = match frame {
        Frame::NeighbourAsk { ends, .. } => match holder(rows, network.id, &ends.destination()) {
            Some(port) => Outcome::Answered(AskAnswer::Arp {
                address: ends.destination(),
                mac: port.mac,
            }),
            None => return Ok(drop_event(alloc, DropCause::Unknown)),
        },
        Frame::Dhcp { src, from } => match dhcp_port(rows, network.id) {
            Some(dhcp) => answer_dhcp(alloc, rows, network.id, src, from, dhcp)?,
            None => return Ok(drop_event(alloc, DropCause::Unknown)),
        },
        Frame::Ip { .. } | Frame::Other { .. } => {
            return Ok(drop_event(alloc, DropCause::Unsupported));
        }
    };
    Ok(Fate {
        outcome,
        trace: on_network(alloc, network.id)?,
    })
}

fn from_wire(
    alloc: Global,
    rows: &Rows,
    entries: &[Entry],
    physical: &Text,
    tag: Option<u16>,
    frame: Frame,
) -> Result<Fate, OutOfMemory>
    ensures { IfOk result
        (λ f. fate_of f
        ≡ (if unsupported frame then dropped_by nothing_so_far DropUnsupported
        else from_wire_by rows.now entries.now (life_of frame) frame
        (network_on_wire rows.now (record { physical = physical.now; tag = tag })))) }
{
    if frame.is_unsupported() {
        return Ok(drop_event(alloc, DropCause::Unsupported));
    }
    match network_on(rows, physical, tag) {
        Some(network) => from_network(alloc, rows, entries, network, frame),
        None => Ok(drop_event(alloc, DropCause::Unknown)),
    }
}

#[tactic(auto, unfolding(plane_types::specs::Meaning::rows_fate))]
fn fate_of_event(
    alloc: Global,
    rows: &Rows,
    entries: &[Entry],
    event: &Event,
) -> Result<Fate, OutOfMemory>
    ensures { IfOk result (λ f. fate_of f ≡ rows_fate rows.now entries.now event.now) }
{
    match event {
        Event::FromPort { port, frame } => from_port(alloc, rows, entries, *port, *frame),
        Event::FromWire {
            physical,
            tag,
            frame,
        } => from_wire(alloc, rows, entries, physical, *tag, *frame),
    }
}

// The entries as a verdict lists them: none names a host that made it.
fn list_made(alloc: Global, fresh: &[Entry]) -> Result<Seq<Made>, OutOfMemory>
    ensures { IfOk result (λ m. m ≡ map of_nobody fresh.now) }
{
    let mut made = Seq::new(alloc);
    for entry in fresh {
        made.push(Made {
            entry: *entry,
            host: None,
        })?;
    }
    Ok(made)
}

/// What an event comes to by the rows and these tracked entries: its outcome, the networks and
/// routers that it passed, and the entries that it made. No host is named as a maker, and the trail
/// is empty. Its cost grows with the rows and the entries, for each router that is passed.
pub fn explain(
    alloc: Global,
    rows: &Rows,
    entries: &Entries,
    event: &Event,
) -> Result<Verdict, OutOfMemory>
    ensures { IfOk result (λ v. v ≡ rows_verdict rows.now entries.now.items event.now) }
{
    let fate = fate_of_event(alloc, rows, entries.as_slice(), event)?;
    let fresh = list_made(alloc, fate.trace.fresh.as_slice())?;
    Ok(Verdict {
        outcome: fate.outcome,
        path: fate.trace.path,
        fresh,
        trail: Seq::new(alloc),
    })
}
