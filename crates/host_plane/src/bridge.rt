//! At the bridge, and what comes by tunnel, by wire or to the DHCP port.

ghost use Rattle.std.specs.Prelude.{◌≡◌, option_copied};
ghost use Rattle.plane_types.specs.Ends.{destination};
ghost use Rattle.plane_types.specs.Packets.{address_ask};
ghost use Rattle.plane_types.specs.TableStep.{asked_at, bridge_at as bridge_by_key, bridge_in as bridged_in, bridge_step as bridged_at_tag, bridged_by as bridged_by_row, inward_step as bridged_inward, lease_answer as leased_by, lease_at as lease_by_mac, target_step as led_by, neighbour_at as neighbour_by_address, routed_in as routed_to, source_of as sender_of, to_tap as tapped_at, wire_or as wire_or_dropped};
ghost use Rattle.host_plane.specs.Views.{view_of_step};

use crate::ending::{Ending, FrameEnd, Step, drops};
use crate::map::{bridge_at, neighbour_at};
use api_types::Id;
use net_addr::Mac;
use plane_types::{
    BridgeKey, BridgeTo, DropCause, Ends, Frame, HostTables, InwardRow, Place, TagRow, Toward,
};

// To the physical network of a tag, where it has one; but a frame that came by a tunnel or wire
// doesn't leave by one.
fn wire_or<'t>(
    inner: bool,
    row: &'t TagRow,
    toward: Toward,
    frame: Frame,
    cause: DropCause,
) -> Step<'t>
    ensures { view_of_step result
        ≡ wire_or_dropped inner row.now.network row.now.wire toward frame cause }
{
    if inner {
        return drops(DropCause::Unknown);
    }
    match &row.wire {
        Some(wire) => Step::ToWire {
            physical: &wire.physical,
            tag: wire.tag,
            network: row.network,
            toward,
            frame,
        },
        None => drops(cause),
    }
}

// A packet goes to the port; an ask for a lease came to its key, which leads to the DHCP port.
fn to_tap<'t>(tag: u16, port: Id, frame: Frame) -> Step<'t>
    ensures { view_of_step result ≡ tapped_at tag port frame }
{
    match frame {
        Frame::Ip { .. } => Step::Next(Place::TapOut { port, frame }),
        Frame::NeighbourAsk { .. } | Frame::Dhcp { .. } | Frame::Other { .. } => {
            Step::Next(Place::DhcpIn { tag, frame })
        }
    }
}

fn routed_in<'t>(router: Id, port: Id, frame: Frame) -> Step<'t>
    ensures { view_of_step result ≡ routed_to router port frame }
{
    match frame {
        Frame::Ip { .. } => Step::Next(Place::RouterIn {
            port,
            router,
            frame,
        }),
        Frame::NeighbourAsk { .. } | Frame::Dhcp { .. } | Frame::Other { .. } => {
            drops(DropCause::Unknown)
        }
    }
}

// Where an entry of the bridge leads; a frame that came by a tunnel or wire doesn't leave by one.
fn follow<'t>(inner: bool, tag: u16, frame: Frame, to: &'t BridgeTo) -> Step<'t>
    ensures { view_of_step result ≡ led_by inner tag frame to.now }
{
    match to {
        BridgeTo::Tap(port) => to_tap(tag, *port, frame),
        BridgeTo::Router { router, port } => routed_in(*router, *port, frame),
        BridgeTo::Tunnel { host, number } => {
            if inner {
                drops(DropCause::Unknown)
            } else {
                Step::ToTunnel {
                    host,
                    number: *number,
                    frame,
                }
            }
        }
    }
}

// By the entry with the key, otherwise to the wire.
fn forward<'t>(
    tables: &'t HostTables,
    inner: bool,
    row: &'t TagRow,
    key: BridgeKey,
    toward: Toward,
    frame: Frame,
    cause: DropCause,
) -> Step<'t>
    ensures { view_of_step result
        ≡ bridged_by_row inner row.now toward frame cause
        (bridge_by_key tables.now.lists row.now.tag key) }
{
    match bridge_at(tables, row.tag, key) {
        Some(entry) => follow(inner, row.tag, frame, &entry.to),
        None => wire_or(inner, row, toward, frame, cause),
    }
}

// An ask for an address is answered by its neighbour, otherwise goes to the wire.
fn answer_arp<'t>(
    tables: &HostTables,
    inner: bool,
    row: &'t TagRow,
    src: Mac,
    ends: &Ends,
) -> Step<'t>
    ensures { view_of_step result
        ≡ asked_at inner row.now (address_ask src ends.now)
        (neighbour_by_address tables.now.lists row.now.tag (destination ends.now)) }
{
    match neighbour_at(tables, row.tag, &ends.destination()) {
        Some(held) => Step::End(Ending {
            ended: FrameEnd::Address {
                address: held.address,
                mac: held.mac,
            },
            way: None,
        }),
        None => wire_or(
            inner,
            row,
            Toward::Address(ends.destination()),
            Frame::NeighbourAsk { src, ends: *ends },
            DropCause::NoHolder,
        ),
    }
}

fn bridge_in<'t>(tables: &'t HostTables, inner: bool, row: &'t TagRow, frame: Frame) -> Step<'t>
    ensures { view_of_step result ≡ bridged_in tables.now.lists inner row.now frame }
{
    match frame {
        Frame::Ip { dst, .. } => forward(
            tables,
            inner,
            row,
            BridgeKey::Mac(dst),
            Toward::Mac(dst),
            frame,
            DropCause::Unknown,
        ),
        Frame::NeighbourAsk { src, ends } => answer_arp(tables, inner, row, src, &ends),
        Frame::Dhcp { .. } => forward(
            tables,
            inner,
            row,
            BridgeKey::Dhcp,
            Toward::Dhcp,
            frame,
            DropCause::NoLease,
        ),
        Frame::Other { dst, .. } => {
            wire_or(inner, row, Toward::Mac(dst), frame, DropCause::Unknown)
        }
    }
}

/// A frame is at the bridge under a tag; inner is one that came by a tunnel or a wire.
pub(crate) fn bridge_step<'t>(
    tables: &'t HostTables,
    inner: bool,
    tag: u16,
    frame: Frame,
) -> Step<'t>
    ensures { view_of_step result ≡ bridged_at_tag tables.now.lists inner tag frame }
{
    match tables.tag_row(tag) {
        Some(row) => bridge_in(tables, inner, row, frame),
        None => drops(DropCause::Unknown),
    }
}

/// A frame came by a tunnel or a wire, for which a row was looked for.
pub(crate) fn inward_step<'t>(
    tables: &'t HostTables,
    frame: Frame,
    found: Option<&'t InwardRow>,
) -> Step<'t>
    ensures { view_of_step result
        ≡ bridged_inward tables.now.lists frame (option_copied found.entry) }
{
    match found {
        Some(row) => bridge_step(tables, true, row.tag, frame),
        None => drops(DropCause::Unknown),
    }
}

fn sender(frame: &Frame) -> Mac
    ensures { result ≡ sender_of frame.now }
{
    match *frame {
        Frame::Ip { src, .. } => src,
        Frame::NeighbourAsk { src, .. } => src,
        Frame::Dhcp { src, .. } => src,
        Frame::Other { src, .. } => src,
    }
}

/// A frame comes to the DHCP port of a tag, which answers with the lease of its MAC.
pub(crate) fn dhcp_in<'t>(tables: &'t HostTables, tag: u16, frame: &Frame) -> Step<'t>
    ensures { view_of_step result
        ≡ leased_by (lease_by_mac tables.now.lists tag (sender_of frame.now)) }
{
    match tables.lease_at(tag, sender(frame)) {
        Some(row) => Step::End(Ending {
            ended: FrameEnd::Lease(&row.lease),
            way: None,
        }),
        None => drops(DropCause::NoLease),
    }
}
