//! Packets on their way through a router: ends and ports that are changed.

ghost use Rattle.std.specs.Prelude.{◌≡◌, ◌-◌, ◌<◌, option_map};
ghost use Rattle.plane_types.specs.Ends.{turned_round as other_way_round};
ghost use Rattle.plane_types.specs.Packets.{part_to as with_destination_port};
ghost use Rattle.plane_types.specs.Routing.{by_any as changed_at_all, by_float as changed_by_float, kept_source as kept, rank_number as place_of_rank, sourced_at as sourced_with};
ghost use Rattle.plane_types.specs.Parts.{changed_of, destined_of, packet_of, sourced_of};

use crate::ends::Ends;
use crate::entry::Entry;
use crate::frame::KeyPart;
use crate::packet::{Packet, part_from, part_to};
use crate::translation::Use;
use api_types::RouteRank;
use net_addr::Addr4;

/// By what a packet's destination was changed.
#[derive(Clone, Copy)]
pub enum Changed {
    Nothing,
    Floating,
    Entry,
}

/// A packet whose destination was looked at.
#[derive(Clone, Copy)]
pub struct Destined {
    pub packet: Packet,
    pub by: Changed,
}

/// A packet whose source was looked at, and the entry that this made.
#[derive(Clone, Copy)]
pub struct Sourced {
    pub packet: Packet,
    pub made: Option<Entry>,
}

impl Changed {
    /// Whether a floating address changed it.
    pub fn is_floating(self) -> bool
        ensures { result ≡ changed_by_float (changed_of self) }
    {
        match self {
            Changed::Floating => true,
            Changed::Nothing | Changed::Entry => false,
        }
    }

    /// Whether anything changed it.
    pub fn is_any(self) -> bool
        ensures { result ≡ changed_at_all (changed_of self) }
    {
        match self {
            Changed::Floating | Changed::Entry => true,
            Changed::Nothing => false,
        }
    }
}

/// The packet with other ends and ports.
pub fn with_ends(packet: &Packet, ends: Ends, part: KeyPart) -> Packet
    ensures { packet_of result ≡ record (packet_of packet.now) { ends = ends; part = part } }
{
    Packet {
        ends,
        part,
        ..*packet
    }
}

/// The packet with the source that the entry keeps as its destination.
pub fn answered_to(packet: &Packet, entry: &Use) -> Packet
    ensures { packet_of result
        ≡ record (packet_of packet.now) {
          ends = other_way_round entry.now.key.ends;
          part = with_destination_port packet.now.part entry.now.key.sport;
        } }
{
    with_ends(
        packet,
        entry.key.ends.turned_round(),
        part_to(packet.part, entry.key.sport),
    )
}

/// The packet with one step less to live.
pub fn lower(destined: &Destined) -> Destined
    requires { 1 < destined.now.packet.ttl }
    ensures { destined_of result
        ≡ record {
          packet = record (packet_of destined.now.packet)
              { ttl = destined.now.packet.ttl - 1 };
          by = changed_of destined.now.by;
        } }
{
    Destined {
        packet: Packet {
            ttl: destined.packet.ttl - 1,
            ..destined.packet
        },
        by: destined.by,
    }
}

/// The packet as it is.
pub fn kept_source(packet: &Packet) -> Option<Sourced>
    ensures { option_map sourced_of result ≡ kept (packet_of packet.now) }
{
    Some(Sourced {
        packet: *packet,
        made: None,
    })
}

/// The packet from an outer address and port.
pub fn sourced_at(packet: &Packet, outer: Addr4, port: u16) -> Packet
    ensures { packet_of result ≡ sourced_with (packet_of packet.now) outer port }
{
    Packet {
        ends: packet.ends.with_source(outer),
        part: part_from(packet.part, port),
        ..*packet
    }
}

/// Of routes of equal lengths the one with the lower number goes first.
pub fn rank_number(rank: RouteRank) -> u8
    ensures { result ≡ place_of_rank rank }
{
    match rank {
        RouteRank::Connected => 0,
        RouteRank::Extra => 1,
        RouteRank::Default => 2,
    }
}
