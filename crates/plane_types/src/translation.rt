//! Translation entries: what one says, and which packets answer it.

ghost use Rattle.std.specs.Prelude.{◌≡◌, ◌==◌, ◌&&◌, Some, option_map};
ghost use Rattle.net_addr.specs.Addresses.{addr_eq};
ghost use Rattle.plane_types.specs.Ends.{destination as destined_to};
ghost use Rattle.plane_types.specs.Keys.{kind_eq};
ghost use Rattle.plane_types.specs.Routing.{answers as answers_to, has_choice as may_choose};
ghost use Rattle.plane_types.specs.Parts.{packet_of, use_if, use_of};

use crate::entry::Entry;
use crate::frame::{Key, KeyKind};
use crate::key::is_kind;
use crate::packet::Packet;
use api_types::Id;
use net_addr::{Addr, Addr4};

/// What a valid translation entry of a router says: the key, and its port at the outer address.
#[derive(Clone, Copy)]
pub struct Use {
    pub key: Key,
    pub port: u16,
}

/// What an entry says, where it is a translation of this router with this outer address.
pub fn use_of_entry(router: Id, outer: Addr4, entry: &Entry) -> Option<Use>
    ensures { option_map use_of result ≡ use_if router outer entry.now }
{
    match *entry {
        Entry::Snat {
            router: of,
            key,
            outer: at,
            outer_port,
        } if router == of && outer == at => Some(Use {
            key,
            port: outer_port,
        }),
        _ => None,
    }
}

impl Use {
    /// Whether the entry answers to a packet: of the kind of the answer, to the outer address and
    /// port, from the far end.
    pub fn answers(&self, outer: Addr4, packet: &Packet) -> bool
        ensures { result ≡ answers_to (Some outer) (packet_of packet.now) (use_of self.now) }
    {
        let key = packet.key();
        let (sport, dport) = (key.sport, key.dport);
        let kind = key.reversed().kind;
        Addr::V4(outer) == packet.ends.destination()
            && is_kind(self.key.kind, kind)
            && self.port == dport
            && self.key.ends.destination() == packet.ends.source()
            && self.key.dport == sport
    }

    /// Whether the entry, with the kind and far end of a key, has the port.
    pub fn takes(&self, key: &Key, port: u16) -> bool
        ensures { result
            ≡ ((self.now.port == port) && kind_eq self.now.key.kind key.now.kind
            && addr_eq (destined_to self.now.key.ends) (destined_to key.now.ends)
            && (self.now.key.dport == key.now.dport)) }
    {
        self.port == port
            && is_kind(self.key.kind, key.kind)
            && self.key.ends.destination() == key.ends.destination()
            && self.key.dport == key.dport
    }
}

impl KeyKind {
    /// Whether packets of the kind may get another port: TCP, UDP and echoes.
    pub fn has_choice(self) -> bool
        ensures { result ≡ may_choose self }
    {
        match self {
            KeyKind::Tcp | KeyKind::Udp | KeyKind::EchoAsk => true,
            KeyKind::EchoReply | KeyKind::Proto(_) => false,
        }
    }
}
