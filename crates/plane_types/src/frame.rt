//! Frames, and the keys by which packets are tracked.

ghost use Rattle.std.specs.Prelude.{◌≡◌};
ghost use Rattle.plane_types.specs.Keys.{answer_kind, frame_key, key_of_part, answer_key};

use crate::ends::Ends;
use net_addr::{Addr4, Mac};

/// What a packet carries, as far as filters and routers ask.
#[derive(Clone, Copy, PartialEq, Eq)]
pub enum KeyPart {
    Tcp { sport: u16, dport: u16 },
    Udp { sport: u16, dport: u16 },
    /// An echo: of ICMP (RFC 792), type 8, or of ICMPv6 (RFC 4443), type 128.
    EchoAsk { id: u16 },
    /// Its reply, of type 0 or 129.
    EchoReply { id: u16 },
    /// Another protocol of IP by its number (IANA).
    Proto { number: u8 },
}

/// A frame of Ethernet, as far as networks, filters and routers ask.
#[derive(Clone, Copy, PartialEq, Eq)]
pub enum Frame {
    /// A packet of IPv4 (RFC 791) or IPv6 (RFC 8200), by its ends.
    Ip {
        src: Mac,
        dst: Mac,
        ends: Ends,
        /// Time to live, or hop limit: how many routers more may send it on, and one.
        ttl: u8,
        part: KeyPart,
    },
    /// Asks for the MAC of an address: by ARP (RFC 826), or by a neighbour solicitation (RFC 4861,
    /// 4.3).
    NeighbourAsk {
        src: Mac,
        ends: Ends,
    },
    /// Asks for a lease (RFC 2131).
    Dhcp {
        src: Mac,
        from: Addr4,
    },
    /// Any other frame.
    Other {
        src: Mac,
        dst: Mac,
        ethertype: u16,
    },
}

/// Of which kind a tracked packet is.
#[derive(Clone, Copy, PartialEq, Eq)]
pub enum KeyKind {
    Tcp,
    Udp,
    EchoAsk,
    EchoReply,
    Proto(u8),
}

/// By what a packet is tracked: its ends and ports. An echo's id is its source port, and its
/// reply's is the destination port; where there is no port it is 0.
#[derive(Clone, Copy, PartialEq, Eq)]
pub struct Key {
    pub kind: KeyKind,
    pub ends: Ends,
    pub sport: u16,
    pub dport: u16,
}

impl KeyPart {
    fn key(self, ends: Ends) -> Key
        ensures { result ≡ key_of_part self ends }
    {
        let (kind, sport, dport) = match self {
            KeyPart::Tcp { sport, dport } => (KeyKind::Tcp, sport, dport),
            KeyPart::Udp { sport, dport } => (KeyKind::Udp, sport, dport),
            KeyPart::EchoAsk { id } => (KeyKind::EchoAsk, id, 0),
            KeyPart::EchoReply { id } => (KeyKind::EchoReply, 0, id),
            KeyPart::Proto { number } => (KeyKind::Proto(number), 0, 0),
        };
        Key {
            kind,
            ends,
            sport,
            dport,
        }
    }
}

impl Frame {
    /// The key of a packet, and of no other frame.
    pub fn key(&self) -> Option<Key>
        ensures { result ≡ frame_key self.now }
    {
        match *self {
            Frame::Ip { ends, part, .. } => Some(part.key(ends)),
            _ => None,
        }
    }
}

impl KeyKind {
    fn answer(self) -> KeyKind
        ensures { result ≡ answer_kind self }
    {
        match self {
            KeyKind::EchoAsk => KeyKind::EchoReply,
            KeyKind::EchoReply => KeyKind::EchoAsk,
            _ => self,
        }
    }
}

impl Key {
    /// The key of an answer: ends and ports change places, and an echo with its reply.
    pub fn reversed(self) -> Key
        ensures { result ≡ answer_key self }
    {
        Key {
            kind: self.kind.answer(),
            ends: self.ends.turned_round(),
            sport: self.dport,
            dport: self.sport,
        }
    }
}
