//! A packet that leaves a router toward its next hop.

ghost use Rattle.std.specs.Prelude.{◌≡◌};
ghost use Rattle.plane_types.specs.Packets.{ip_frame};
ghost use Rattle.plane_types.specs.TableStep.{neighbour_at as neighbour_by_address, sent_at as sent_at_port, sent_by as sent_by_neighbour, tag_row as row_of_tag, tagged_leg as leg_by_port, unheld as unheld_by};
ghost use Rattle.plane_types.specs.Parts.{packet_of};
ghost use Rattle.host_plane.specs.Views.{view_of_step};

use crate::ending::{Ending, FrameEnd, Step, drops};
use crate::map::neighbour_at;
use crate::port::port_of;
use api_types::Id;
use net_addr::{Addr, Mac};
use plane_types::{DropCause, Frame, HostTables, Packet, Place, RouterTable, Toward};

// The packet's frame to a MAC.
fn to_mac(packet: &Packet, dst: Mac) -> Frame
    ensures { result ≡ ip_frame (record (packet_of packet.now) { dst = dst }) }
{
    Packet { dst, ..*packet }.frame()
}

// Nobody has the next hop: out by the physical network of the way out, where it has one.
fn unheld<'t>(tables: &'t HostTables, tag: u16, hop: &Addr, packet: &Packet) -> Step<'t>
    ensures { view_of_step result
        ≡ unheld_by hop.now (packet_of packet.now) (row_of_tag tables.now.lists tag) }
{
    let Some(row) = tables.tag_row(tag) else {
        return drops(DropCause::Unknown);
    };
    let way = Some(row.network);
    match &row.wire {
        Some(_) => Step::End(Ending {
            ended: FrameEnd::Out {
                network: row.network,
                toward: Toward::Address(*hop),
                frame: to_mac(packet, Mac(0)),
            },
            way,
        }),
        None => Step::End(Ending {
            ended: FrameEnd::Dropped(DropCause::NoHolder),
            way,
        }),
    }
}

// The neighbour at the next hop gets it, by the bridge.
fn sent_by<'t>(tables: &'t HostTables, tag: u16, hop: &Addr, packet: &Packet) -> Step<'t>
    ensures { view_of_step result
        ≡ sent_by_neighbour tables.now.lists tag hop.now (packet_of packet.now)
        (neighbour_by_address tables.now.lists tag hop.now) }
{
    let Some(held) = neighbour_at(tables, tag, hop) else {
        return unheld(tables, tag, hop, packet);
    };
    Step::Next(Place::Bridge {
        tag,
        frame: to_mac(packet, held.mac),
    })
}

/// A packet leaves by a port of the router toward the next hop.
pub(crate) fn sent_at<'t>(
    tables: &'t HostTables,
    router: &RouterTable,
    out: Id,
    hop: &Addr,
    packet: &Packet,
) -> Step<'t>
    ensures { view_of_step result
        ≡ sent_at_port tables.now.lists hop.now (packet_of packet.now)
        (leg_by_port router.now out) }
{
    match port_of(router, out) {
        Some(port) => sent_by(tables, port.tag, hop, packet),
        None => drops(DropCause::Unknown),
    }
}
