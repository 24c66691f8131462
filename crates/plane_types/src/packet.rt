//! Packets of IP, taken out of their frames and put back.

ghost use Rattle.std.specs.Prelude.{◌≡◌, option_map};
ghost use Rattle.plane_types.specs.Packets.{ip_frame, is_for_many as names_many, is_unsupported as unsupported, key_of, packet_in, part_from as with_source_port, part_to as with_destination_port};
ghost use Rattle.plane_types.specs.Parts.{packet_of};

use crate::ends::Ends;
use crate::frame::{Frame, Key, KeyPart};
use net_addr::Mac;

/// A packet of IPv4 (RFC 791) or IPv6 (RFC 8200) in its frame.
#[derive(Clone, Copy)]
pub struct Packet {
    pub src: Mac,
    pub dst: Mac,
    pub ends: Ends,
    pub ttl: u8,
    pub part: KeyPart,
}

impl Packet {
    /// The packet in a frame of IP.
    pub fn of(frame: &Frame) -> Option<Packet>
        ensures { option_map packet_of result ≡ packet_in frame.now }
    {
        match *frame {
            Frame::Ip {
                src,
                dst,
                ends,
                ttl,
                part,
            } => Some(Packet {
                src,
                dst,
                ends,
                ttl,
                part,
            }),
            Frame::NeighbourAsk { .. } | Frame::Dhcp { .. } | Frame::Other { .. } => None,
        }
    }

    /// The frame that it is.
    pub fn frame(&self) -> Frame
        ensures { result ≡ ip_frame (packet_of self.now) }
    {
        Frame::Ip {
            src: self.src,
            dst: self.dst,
            ends: self.ends,
            ttl: self.ttl,
            part: self.part,
        }
    }

    /// By what it is tracked.
    pub fn key(&self) -> Key
        ensures { result ≡ key_of (packet_of self.now) }
    {
        match self.frame().key() {
            Some(key) => key,
            None => unreachable!(),
        }
    }
}

/// The part with another destination port, or another id of an echo's reply.
pub fn part_to(part: KeyPart, port: u16) -> KeyPart
    ensures { result ≡ with_destination_port part port }
{
    match part {
        KeyPart::Tcp { sport, .. } => KeyPart::Tcp { sport, dport: port },
        KeyPart::Udp { sport, .. } => KeyPart::Udp { sport, dport: port },
        KeyPart::EchoReply { .. } => KeyPart::EchoReply { id: port },
        KeyPart::EchoAsk { .. } | KeyPart::Proto { .. } => part,
    }
}

/// The part with another source port, or another id of an echo.
pub fn part_from(part: KeyPart, port: u16) -> KeyPart
    ensures { result ≡ with_source_port part port }
{
    match part {
        KeyPart::Tcp { dport, .. } => KeyPart::Tcp { sport: port, dport },
        KeyPart::Udp { dport, .. } => KeyPart::Udp { sport: port, dport },
        KeyPart::EchoAsk { .. } => KeyPart::EchoAsk { id: port },
        KeyPart::EchoReply { .. } | KeyPart::Proto { .. } => part,
    }
}

// Whether the first byte is odd.
fn is_for_many(mac: Mac) -> bool
    ensures { result ≡ names_many mac }
{
    mac.0 / 0x100_0000_0000 % 2 == 1
}

impl Frame {
    /// Whether it is carried nowhere: a packet to many, or neither a packet nor an ask.
    pub fn is_unsupported(&self) -> bool
        ensures { result ≡ unsupported self.now }
    {
        match *self {
            Frame::Ip { dst, .. } => is_for_many(dst),
            Frame::NeighbourAsk { .. } | Frame::Dhcp { .. } => false,
            Frame::Other { .. } => true,
        }
    }
}
