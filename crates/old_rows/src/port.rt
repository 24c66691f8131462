//! Ports with addresses of version 4.

ghost use Rattle.std.specs.Prelude.{◌≡◌};
ghost use Rattle.old_rows.specs.Migrated.{migrated_fixed, migrated_pair, migrated_port};

use crate::list::migrate_all;
use crate::migrates::Migrates;
use crate::prefix::Prefix4;
use crate::table::OldRow;
use api_types::{Fixed, Id, Pair, PortRow, Vif};
use net_addr::{Addr, Addr4, Copies, Mac, OutOfMemory, Seq, Text};
use std::alloc::Global;

/// An address that a port holds in a subnet.
#[derive(Clone, Copy, Debug, PartialEq, Eq)]
pub struct Fixed4 {
    pub subnet: Id,
    pub address: Addr4,
}

/// A MAC address and a prefix from which a port may send beside its own (an allowed address pair).
#[derive(Clone, Copy, Debug, PartialEq, Eq)]
pub struct Pair4 {
    pub mac: Mac,
    pub prefix: Prefix4,
}

/// A port of a network.
#[derive(Drop)]
pub struct OldPort {
    pub id: Id,
    /// The name of the project that owns it, or empty: for a gateway port and a floating address's
    /// own port.
    pub project: Text,
    pub network: Id,
    /// At most 255 characters.
    pub name: Text,
    /// At most 255 characters.
    pub description: Text,
    /// Its administrative state.
    pub up: bool,
    pub mac: Mac,
    /// The addresses that it holds, at most 5 unless it is a DHCP port.
    pub fixed: Seq<Fixed4>,
    /// At most 10.
    pub pairs: Seq<Pair4>,
    /// Whether its traffic is filtered (`port_security_enabled`).
    pub secured: bool,
    /// Its security groups, at most 20.
    pub groups: Seq<Id>,
    /// `device_id`, at most 255 characters.
    pub device: Text,
    /// `device_owner`, at most 255 characters.
    pub owner: Text,
    /// The host that it is to be bound to, or empty.
    pub host: Text,
    pub vif: Vif,
    /// Whether an administrator made it for a project to which the network is neither owned nor
    /// shared.
    pub by_admin: bool,
}

impl Migrates for Fixed4 {
    type Now = Fixed;

    ghost migrated = { migrated_fixed };

    fn migrate(&self, _alloc: Global) -> Result<Fixed, OutOfMemory> {
        Ok(Fixed {
            subnet: self.subnet,
            address: Addr::V4(self.address),
        })
    }
}

impl Migrates for Pair4 {
    type Now = Pair;

    ghost migrated = { migrated_pair };

    fn migrate(&self, alloc: Global) -> Result<Pair, OutOfMemory> {
        Ok(Pair {
            mac: self.mac,
            prefix: self.prefix.migrate(alloc)?,
        })
    }
}

impl Migrates for OldPort {
    type Now = PortRow;

    ghost migrated = { migrated_port };

    fn migrate(&self, alloc: Global) -> Result<PortRow, OutOfMemory> {
        Ok(PortRow {
            id: self.id,
            project: self.project.copy(alloc)?,
            network: self.network,
            name: self.name.copy(alloc)?,
            description: self.description.copy(alloc)?,
            up: self.up,
            mac: self.mac,
            fixed: migrate_all(alloc, &self.fixed)?,
            pairs: migrate_all(alloc, &self.pairs)?,
            secured: self.secured,
            groups: self.groups.copy(alloc)?,
            device: self.device.copy(alloc)?,
            owner: self.owner.copy(alloc)?,
            host: self.host.copy(alloc)?,
            vif: self.vif,
            by_admin: self.by_admin,
        })
    }
}

impl OldRow for OldPort {
    ghost id_of = { λ r. r.id };

    fn id(&self) -> Id {
        self.id
    }
}
