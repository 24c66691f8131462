//! Verdicts: what becomes of an event, its path, its entries and its trail.

use crate::entry::Entry;
use crate::frame::Frame;
use api_types::{Id, Lease};
use net_addr::{Addr, Mac, Seq, Text};

/// Why a frame is dropped.
#[derive(Clone, Copy, PartialEq, Eq)]
pub enum DropCause {
    /// The sender isn't there, isn't live, or may send nothing.
    Dead,
    /// A kind of frame that is not carried.
    Unsupported,
    /// The sender has no such source.
    Spoof,
    /// No rule of the sender lets it out.
    Egress,
    /// No rule of the port that gets it lets it in.
    Ingress,
    /// Nobody has the MAC.
    Unknown,
    /// Nobody has the address.
    NoHolder,
    /// No DHCP server is there, or it has no lease for the sender.
    NoLease,
    /// The router is down.
    RouterDown,
    /// Its time to live ended.
    Expired,
    /// The router has no route.
    NoRoute,
    /// The router has no port left for its source.
    TranslationFull,
}

/// What an ask is answered.
#[derive(Drop)]
pub enum AskAnswer {
    /// By ARP, or by a neighbour advertisement (RFC 4861, 4.4).
    Arp { address: Addr, mac: Mac },
    Lease(Lease),
}

/// Toward whom a frame goes out.
#[derive(Clone, Copy, PartialEq, Eq)]
pub enum Toward {
    Mac(Mac),
    Address(Addr),
    Dhcp,
}

/// What becomes of a frame.
#[derive(Drop)]
pub enum Outcome {
    /// A port gets it.
    Delivered {
        port: Id,
        frame: Frame,
    },
    /// An ask is answered.
    Answered(AskAnswer),
    /// A router is its destination.
    Absorbed {
        router: Id,
    },
    /// It leaves by the physical network of a network.
    Out {
        network: Id,
        toward: Toward,
        frame: Frame,
    },
    Dropped(DropCause),
}

/// An entry that an event made.
#[derive(Clone, Copy, PartialEq, Eq)]
pub struct Made {
    pub entry: Entry,
    /// The place of the host that made it among the hosts, where hosts are spoken of.
    pub host: Option<usize>,
}

/// A place by which a frame went.
#[derive(Drop)]
pub struct TrailItem {
    /// The host's name.
    pub host: Text,
    pub tag: u16,
}

/// What becomes of an event.
#[derive(Drop)]
pub struct Verdict {
    pub outcome: Outcome,
    /// The networks and routers that it passed: a network, then a router and a network for each
    /// router that sent it on.
    pub path: Seq<Id>,
    /// The entries that it made, in order.
    pub fresh: Seq<Made>,
    /// The hosts and tags that it passed, where hosts are spoken of.
    pub trail: Seq<TrailItem>,
}
