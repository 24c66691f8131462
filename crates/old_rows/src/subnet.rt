//! Subnets and routes of version 4.

ghost use Rattle.std.specs.Prelude.{◌≡◌};
ghost use Rattle.old_rows.specs.Migrated.{migrated_hop, migrated_subnet};

use crate::list::{migrate_all, migrate_some};
use crate::migrates::Migrates;
use crate::prefix::{Prefix4, Span4};
use crate::table::OldRow;
use api_types::{Hop, Id, SubnetRow};
use net_addr::{Addr, Addr4, Copies, OutOfMemory, Seq, Text};
use std::alloc::Global;

/// A static route: what is sent to the destination goes by the next hop.
#[derive(Clone, Copy, Debug, PartialEq, Eq)]
pub struct Hop4 {
    pub destination: Prefix4,
    pub next: Addr4,
}

/// A subnet of a network.
#[derive(Drop)]
pub struct OldSubnet {
    pub id: Id,
    /// The name of the project that owns it.
    pub project: Text,
    pub network: Id,
    /// At most 255 characters.
    pub name: Text,
    /// At most 255 characters.
    pub description: Text,
    /// Of length 1 to 30.
    pub prefix: Prefix4,
    /// The default gateway that its ports are told.
    pub gateway: Option<Addr4>,
    /// The addresses that are given without being asked for, at most 20 spans.
    pub pools: Seq<Span4>,
    /// Whether its addresses are leased by DHCP.
    pub dhcp: bool,
    /// At most 5 name servers.
    pub dns: Seq<Addr4>,
    /// At most 20 routes that its ports are told.
    pub host_routes: Seq<Hop4>,
}

impl Migrates for Hop4 {
    type Now = Hop;

    ghost migrated = { migrated_hop };

    fn migrate(&self, alloc: Global) -> Result<Hop, OutOfMemory> {
        Ok(Hop {
            destination: self.destination.migrate(alloc)?,
            next: Addr::V4(self.next),
        })
    }
}

impl Migrates for OldSubnet {
    type Now = SubnetRow;

    ghost migrated = { migrated_subnet };

    fn migrate(&self, alloc: Global) -> Result<SubnetRow, OutOfMemory> {
        Ok(SubnetRow {
            id: self.id,
            project: self.project.copy(alloc)?,
            network: self.network,
            name: self.name.copy(alloc)?,
            description: self.description.copy(alloc)?,
            prefix: self.prefix.migrate(alloc)?,
            gateway: migrate_some(alloc, &self.gateway)?,
            pools: migrate_all(alloc, &self.pools)?,
            dhcp: self.dhcp,
            address_mode: None,
            ra_mode: None,
            dns: migrate_all(alloc, &self.dns)?,
            host_routes: migrate_all(alloc, &self.host_routes)?,
        })
    }
}

impl OldRow for OldSubnet {
    ghost id_of = { λ r. r.id };

    fn id(&self) -> Id {
        self.id
    }
}
