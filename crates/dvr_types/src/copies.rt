//! Copies of routers, and whom a host finds on vxlan networks.

use api_types::Id;
use net_addr::{Addr, Addr4, Mac, Prefixes, Seq, Text};
use plane_types::{FloatRow, RouteRow};

/// A live port of a copied router.
#[derive(Drop)]
pub struct CopyPort {
    pub port: Id,
    pub network: Id,
    /// The network's number of VXLAN, if it is a vxlan network.
    pub number: Option<u32>,
    pub mac: Mac,
    pub addresses: Seq<Addr>,
    /// The prefix of the subnet of each address.
    pub prefixes: Prefixes,
    /// Whether it is an interface, and not the gateway port.
    pub inside: bool,
}

/// A router with a live interface on a vxlan network.
#[derive(Drop)]
pub struct RouterCopy {
    pub router: Id,
    pub up: bool,
    /// Whether sources are translated to the gateway address.
    pub snat: bool,
    /// The first address of version 4 of the gateway port, whether or not that is live.
    pub gateway: Option<Addr4>,
    /// Its live ports, in order of creation.
    pub ports: Seq<CopyPort>,
}

/// Where a packet for an address goes.
#[derive(Drop)]
pub enum NearTo {
    /// To this port, which is here.
    Tap(Id),
    /// To a router, which may handle the packet here; otherwise to its host, by a number of VXLAN.
    Router { router: Id, host: Text, number: u32 },
    /// To a host, by a number of VXLAN.
    Tunnel { host: Text, number: u32 },
}

/// Whom an address leads to on a vxlan network with a live interface.
#[derive(Drop)]
pub struct NearRow {
    pub network: Id,
    pub address: Addr,
    pub mac: Mac,
    pub to: NearTo,
}

/// What a host has beside its tables. The first three lists are in order of creation of the routers
/// and of the floating addresses; `near` has first the rows of the ports, in order of creation,
/// then those of the floating addresses.
#[derive(Drop)]
pub struct Copies {
    pub copies: Seq<RouterCopy>,
    pub copy_routes: Seq<RouteRow>,
    pub copy_floats: Seq<FloatRow>,
    pub near: Seq<NearRow>,
}
