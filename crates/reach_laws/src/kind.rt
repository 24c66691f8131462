//! By what one port reaches another, and the numbers of that.

ghost use Rattle.std.specs.Prelude.{◌≡◌, ◌<◌};
ghost use Rattle.reach_laws.specs.Numbers.{is_left_out, is_number, is_own_protocol, number_end, part_by};

use net_addr::Addr;
use plane_types::KeyPart;

/// By a port of TCP or UDP, by an echo, or by another protocol of IP.
#[derive(Clone, Copy, Debug)]
pub enum ReachKind {
    /// The number is a destination port of TCP, 0 to 65,535 (RFC 9293, 3.1).
    Tcp,
    /// The number is a destination port of UDP, 0 to 65,535 (RFC 768).
    Udp,
    /// An echo has no number of its own: it is 0 (RFC 792; RFC 4443, 4.1).
    Echo,
    /// The number is that of a protocol, 0 to 255, without the version's own of ICMP, and without
    /// TCP and UDP (IANA, protocol numbers).
    Other,
}

// ICMP in IPv4, ICMPv6 in IPv6, TCP and UDP.
fn is_own_protocol(address: &Addr, number: u32) -> bool
    ensures { result ≡ is_own_protocol address.now number }
{
    match address {
        Addr::V4(_) => number == 1 || number == 6 || number == 17,
        Addr::V6(_) => number == 6 || number == 17 || number == 58,
    }
}

impl ReachKind {
    /// The number above all those of the kind.
    pub fn number_end(self) -> u32
        ensures { result ≡ number_end self }
    {
        match self {
            ReachKind::Tcp => 65536,
            ReachKind::Udp => 65536,
            ReachKind::Echo => 1,
            ReachKind::Other => 256,
        }
    }

    /// Whether the number is that of a protocol which another kind has, between addresses of this
    /// one's version.
    pub fn is_left_out(self, address: &Addr, number: u32) -> bool
        ensures { result ≡ is_left_out self address.now number }
    {
        match self {
            ReachKind::Tcp => false,
            ReachKind::Udp => false,
            ReachKind::Echo => false,
            ReachKind::Other => is_own_protocol(address, number),
        }
    }

    /// Whether it is a number of the kind, between addresses of this one's version.
    pub fn is_number(self, address: &Addr, number: u32) -> bool
        ensures { result ≡ is_number self address.now number }
    {
        number < self.number_end() && !self.is_left_out(address, number)
    }

    /// The part of a packet from a source port, or with an echo's id, to a number of the kind.
    pub fn part(self, source: u16, number: u32) -> KeyPart
        requires { number < number_end self }
        ensures { result ≡ part_by self source number }
    {
        match self {
            ReachKind::Tcp => KeyPart::Tcp {
                sport: source,
                dport: number as u16,
            },
            ReachKind::Udp => KeyPart::Udp {
                sport: source,
                dport: number as u16,
            },
            ReachKind::Echo => KeyPart::EchoAsk { id: source },
            ReachKind::Other => KeyPart::Proto {
                number: number as u8,
            },
        }
    }
}
