//! Subnets, host routes, and the modes of version 6.

ghost use Rattle.std.specs.Prelude.{◌≡◌};

use crate::id::Id;
use crate::table::Keyed;
use net_addr::{Addr, Copies, OutOfMemory, Prefix, Same, Seq, Spans, Text};
use std::alloc::Global;

/// A static route: what is sent to the destination goes by the next hop.
#[derive(Clone, Copy, Debug, PartialEq, Eq)]
pub struct Hop {
    pub destination: Prefix,
    pub next: Addr,
}

/// Static routes in a row.
pub type Routes = Seq<Hop>;

impl Copies for Hop {
    fn copy(&self, _alloc: Global) -> Result<Hop, OutOfMemory> {
        Ok(*self)
    }
}

impl Same for Hop {
    fn is_same(&self, other: &Hop) -> bool {
        *self == *other
    }
}

/// How the ports of a subnet of version 6 come by their addresses (RFC 4862; RFC 8415).
#[derive(Clone, Copy, Debug, PartialEq, Eq)]
pub enum Ipv6Mode {
    Slaac,
    Stateful,
    Stateless,
}

/// A subnet of a network.
#[derive(Drop)]
pub struct SubnetRow {
    pub id: Id,
    /// The name of the project that owns it.
    pub project: Text,
    pub network: Id,
    /// At most 255 characters.
    pub name: Text,
    /// At most 255 characters.
    pub description: Text,
    /// Of length 1 to 30 in version 4, and to 126 in version 6.
    pub prefix: Prefix,
    /// The default gateway that its ports are told.
    pub gateway: Option<Addr>,
    /// The addresses that are given without being asked for, at most 20 spans.
    pub pools: Spans,
    /// Whether its addresses are leased by DHCP.
    pub dhcp: bool,
    /// How its ports come by their addresses, in version 6.
    pub address_mode: Option<Ipv6Mode>,
    /// What its router tells of that, in version 6.
    pub ra_mode: Option<Ipv6Mode>,
    /// At most 5 name servers.
    pub dns: Seq<Addr>,
    /// At most 20 routes that its ports are told.
    pub host_routes: Routes,
}

impl Copies for SubnetRow {
    fn copy(&self, alloc: Global) -> Result<SubnetRow, OutOfMemory> {
        Ok(SubnetRow {
            id: self.id,
            project: self.project.copy(alloc)?,
            network: self.network,
            name: self.name.copy(alloc)?,
            description: self.description.copy(alloc)?,
            prefix: self.prefix,
            gateway: self.gateway,
            pools: self.pools.copy(alloc)?,
            dhcp: self.dhcp,
            address_mode: self.address_mode,
            ra_mode: self.ra_mode,
            dns: self.dns.copy(alloc)?,
            host_routes: self.host_routes.copy(alloc)?,
        })
    }
}

impl Same for SubnetRow {
    fn is_same(&self, other: &SubnetRow) -> bool {
        self.id == other.id
            && self.project.is_same(&other.project)
            && self.network == other.network
            && self.name.is_same(&other.name)
            && self.description.is_same(&other.description)
            && self.prefix == other.prefix
            && self.gateway.is_same(&other.gateway)
            && self.pools.is_same(&other.pools)
            && self.dhcp == other.dhcp
            && self.address_mode == other.address_mode
            && self.ra_mode == other.ra_mode
            && self.dns.is_same(&other.dns)
            && self.host_routes.is_same(&other.host_routes)
    }
}

impl Keyed for SubnetRow {
    ghost id_of = { λ r. r.id };

    ghost project_of = { λ r. r.project };

    fn id(&self) -> Id {
        self.id
    }

    fn project(&self) -> &Text {
        &self.project
    }
}
