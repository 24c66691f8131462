//! The rows of the eleven tables of a host.

use api_types::{Direction, Ethertype, Id, Lease, Pair, RouteRank, Wire};
use net_addr::{Addr, Addr4, Copies, Mac, OutOfMemory, Prefix, Prefixes, Seq, Text};
use std::alloc::Global;

/// The local tag by which this host tells a network's frames.
#[derive(Drop)]
pub struct TagRow {
    pub network: Id,
    /// 1 to 4,094.
    pub tag: u16,
    /// The physical network that carries it, where one does.
    pub wire: Option<Wire>,
}

/// A port of this host that isn't a router's.
#[derive(Drop)]
pub struct TapRow {
    pub port: Id,
    pub tag: u16,
    pub mac: Mac,
    /// Whether its traffic is filtered.
    pub secured: bool,
    /// As what it may send: each of its addresses with its MAC, then its allowed pairs.
    pub allowed: Seq<Pair>,
}

/// A rule that lets packets of a port pass.
#[derive(Clone, Copy, PartialEq, Eq)]
pub struct FilterRow {
    pub port: Id,
    pub direction: Direction,
    /// Of which version the packets are.
    pub ethertype: Ethertype,
    /// By its number (IANA), or any.
    pub protocol: Option<u8>,
    /// The least port, or the type for ICMP and ICMPv6.
    pub low: Option<u16>,
    /// The greatest port, or the code for ICMP and ICMPv6.
    pub high: Option<u16>,
    pub remote_prefix: Option<Prefix>,
    /// The group in whose set the far address may be.
    pub remote_group: Option<Id>,
}

/// A prefix of a group's members.
#[derive(Clone, Copy, PartialEq, Eq)]
pub struct SetRow {
    pub group: Id,
    pub prefix: Prefix,
}

/// What is sought in the bridge of a tag.
#[derive(Clone, Copy, PartialEq, Eq)]
pub enum BridgeKey {
    /// The port that leases addresses.
    Dhcp,
    /// The port with this MAC.
    Mac(Mac),
}

/// Where a frame goes from the bridge.
#[derive(Drop)]
pub enum BridgeTo {
    /// To this port, here.
    Tap(Id),
    /// To this router's port, here.
    Router { router: Id, port: Id },
    /// To another host, by a number of VXLAN.
    Tunnel { host: Text, number: u32 },
}

/// An entry of the bridge, a map from tag and key. Entries ascend by tag and then by key, where
/// `Dhcp` is first.
#[derive(Drop)]
pub struct BridgeRow {
    pub tag: u16,
    pub key: BridgeKey,
    pub to: BridgeTo,
}

/// By what a frame comes to a host.
#[derive(Drop)]
pub enum Carrier {
    /// A number of VXLAN (RFC 7348).
    Tunnel(u32),
    Wire(Wire),
}

/// The tag of what comes by a tunnel or a wire.
#[derive(Drop)]
pub struct InwardRow {
    pub carrier: Carrier,
    pub tag: u16,
}

/// An entry of the neighbours, a map from tag and address to MAC. Entries ascend by tag and then by
/// address.
#[derive(Clone, Copy, PartialEq, Eq)]
pub struct NeighbourRow {
    pub tag: u16,
    pub address: Addr,
    pub mac: Mac,
}

/// A live port of a router of this host.
#[derive(Drop)]
pub struct RouterPort {
    pub port: Id,
    pub tag: u16,
    pub mac: Mac,
    pub addresses: Seq<Addr>,
    /// The prefix of the subnet of each address.
    pub prefixes: Prefixes,
    /// Whether it is an interface, and not the gateway port.
    pub inside: bool,
}

/// A router of this host.
#[derive(Drop)]
pub struct RouterTable {
    pub router: Id,
    pub up: bool,
    /// Whether sources are translated to the gateway address.
    pub snat: bool,
    /// The first address of version 4 of the gateway port, whether or not that is live.
    pub gateway: Option<Addr4>,
    /// Its live ports, in order of creation.
    pub ports: Seq<RouterPort>,
}

/// A route of a router of this host.
#[derive(Clone, Copy, PartialEq, Eq)]
pub struct RouteRow {
    pub router: Id,
    pub prefix: Prefix,
    pub rank: RouteRank,
    /// The next hop, or none where the destination is.
    pub next: Option<Addr>,
    /// The router's port by which packets leave.
    pub port: Id,
}

/// An associated floating address of a router of this host.
#[derive(Clone, Copy, PartialEq, Eq)]
pub struct FloatRow {
    /// The floating address's own id. It isn't printed.
    pub id: Id,
    pub router: Id,
    pub floating: Addr4,
    pub fixed: Addr4,
}

/// What the DHCP port of this host answers a MAC.
#[derive(Drop)]
pub struct LeaseRow {
    /// The port that it is for. It isn't printed.
    pub port: Id,
    pub tag: u16,
    pub mac: Mac,
    pub lease: Lease,
}

impl Copies for TagRow {
    fn copy(&self, alloc: Global) -> Result<TagRow, OutOfMemory> {
        Ok(TagRow {
            network: self.network,
            tag: self.tag,
            wire: self.wire.copy(alloc)?,
        })
    }
}

impl Copies for TapRow {
    fn copy(&self, alloc: Global) -> Result<TapRow, OutOfMemory> {
        Ok(TapRow {
            port: self.port,
            tag: self.tag,
            mac: self.mac,
            secured: self.secured,
            allowed: self.allowed.copy(alloc)?,
        })
    }
}

impl Copies for FilterRow {
    fn copy(&self, _alloc: Global) -> Result<FilterRow, OutOfMemory> {
        Ok(*self)
    }
}

impl Copies for SetRow {
    fn copy(&self, _alloc: Global) -> Result<SetRow, OutOfMemory> {
        Ok(*self)
    }
}

impl Copies for BridgeTo {
    fn copy(&self, alloc: Global) -> Result<BridgeTo, OutOfMemory> {
        match self {
            BridgeTo::Tap(port) => Ok(BridgeTo::Tap(*port)),
            BridgeTo::Router { router, port } => Ok(BridgeTo::Router {
                router: *router,
                port: *port,
            }),
            BridgeTo::Tunnel { host, number } => Ok(BridgeTo::Tunnel {
                host: host.copy(alloc)?,
                number: *number,
            }),
        }
    }
}

impl Copies for BridgeRow {
    fn copy(&self, alloc: Global) -> Result<BridgeRow, OutOfMemory> {
        Ok(BridgeRow {
            tag: self.tag,
            key: self.key,
            to: self.to.copy(alloc)?,
        })
    }
}

impl Copies for Carrier {
    fn copy(&self, alloc: Global) -> Result<Carrier, OutOfMemory> {
        match self {
            Carrier::Tunnel(number) => Ok(Carrier::Tunnel(*number)),
            Carrier::Wire(wire) => Ok(Carrier::Wire(wire.copy(alloc)?)),
        }
    }
}

impl Copies for InwardRow {
    fn copy(&self, alloc: Global) -> Result<InwardRow, OutOfMemory> {
        Ok(InwardRow {
            carrier: self.carrier.copy(alloc)?,
            tag: self.tag,
        })
    }
}

impl Copies for NeighbourRow {
    fn copy(&self, _alloc: Global) -> Result<NeighbourRow, OutOfMemory> {
        Ok(*self)
    }
}

impl Copies for RouterPort {
    fn copy(&self, alloc: Global) -> Result<RouterPort, OutOfMemory> {
        Ok(RouterPort {
            port: self.port,
            tag: self.tag,
            mac: self.mac,
            addresses: self.addresses.copy(alloc)?,
            prefixes: self.prefixes.copy(alloc)?,
            inside: self.inside,
        })
    }
}

impl Copies for RouterTable {
    fn copy(&self, alloc: Global) -> Result<RouterTable, OutOfMemory> {
        Ok(RouterTable {
            router: self.router,
            up: self.up,
            snat: self.snat,
            gateway: self.gateway,
            ports: self.ports.copy(alloc)?,
        })
    }
}

impl Copies for RouteRow {
    fn copy(&self, _alloc: Global) -> Result<RouteRow, OutOfMemory> {
        Ok(*self)
    }
}

impl Copies for FloatRow {
    fn copy(&self, _alloc: Global) -> Result<FloatRow, OutOfMemory> {
        Ok(*self)
    }
}

impl Copies for LeaseRow {
    fn copy(&self, alloc: Global) -> Result<LeaseRow, OutOfMemory> {
        Ok(LeaseRow {
            port: self.port,
            tag: self.tag,
            mac: self.mac,
            lease: self.lease.copy(alloc)?,
        })
    }
}
