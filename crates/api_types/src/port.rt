//! Ports: the addresses that they hold, allowed pairs, and how they are bound.

ghost use Rattle.std.specs.Prelude.{◌≡◌};

use crate::id::Id;
use crate::table::Keyed;
use net_addr::{Addr, Copies, Mac, OutOfMemory, Prefix, Same, Seq, Text};
use std::alloc::Global;

/// How a port is bound to a host (`binding:vif_type`).
#[derive(Clone, Copy, Debug, PartialEq, Eq)]
pub enum Vif {
    /// No host is named.
    Unbound,
    /// No driver binds it (`binding_failed`).
    Failed,
    /// Open vSwitch carries it (`ovs`).
    Ovs,
}

/// An address that a port holds in a subnet.
#[derive(Clone, Copy, Debug, PartialEq, Eq)]
pub struct Fixed {
    pub subnet: Id,
    pub address: Addr,
}

/// The addresses that a port holds.
pub type FixedList = Seq<Fixed>;

/// A MAC address and a prefix from which a port may send beside its own (an allowed address pair).
#[derive(Clone, Copy, Debug, PartialEq, Eq)]
pub struct Pair {
    pub mac: Mac,
    pub prefix: Prefix,
}

impl Copies for Fixed {
    fn copy(&self, _alloc: Global) -> Result<Fixed, OutOfMemory> {
        Ok(*self)
    }
}

impl Copies for Pair {
    fn copy(&self, _alloc: Global) -> Result<Pair, OutOfMemory> {
        Ok(*self)
    }
}

impl Same for Fixed {
    fn is_same(&self, other: &Fixed) -> bool {
        *self == *other
    }
}

impl Same for Pair {
    fn is_same(&self, other: &Pair) -> bool {
        *self == *other
    }
}

/// A port of a network.
#[derive(Drop)]
pub struct PortRow {
    pub id: Id,
    /// The name of the project that owns it, or empty: for a gateway port and a floating address's
    /// own port.
    pub project: Text,
    pub network: Id,
    /// At most 255 characters.
    pub name: Text,
    /// At most 255 characters.
    pub description: Text,
    /// Its administrative state.
    pub up: bool,
    pub mac: Mac,
    /// The addresses that it holds, at most 5 unless it is a DHCP port.
    pub fixed: FixedList,
    /// At most 10.
    pub pairs: Seq<Pair>,
    /// Whether its traffic is filtered (`port_security_enabled`).
    pub secured: bool,
    /// Its security groups, at most 20.
    pub groups: Seq<Id>,
    /// `device_id`, at most 255 characters.
    pub device: Text,
    /// `device_owner`, at most 255 characters.
    pub owner: Text,
    /// The host that it is to be bound to, or empty.
    pub host: Text,
    pub vif: Vif,
    /// Whether an administrator made it for a project to which the network is neither owned nor
    /// shared.
    pub by_admin: bool,
}

impl Copies for PortRow {
    fn copy(&self, alloc: Global) -> Result<PortRow, OutOfMemory> {
        Ok(PortRow {
            id: self.id,
            project: self.project.copy(alloc)?,
            network: self.network,
            name: self.name.copy(alloc)?,
            description: self.description.copy(alloc)?,
            up: self.up,
            mac: self.mac,
            fixed: self.fixed.copy(alloc)?,
            pairs: self.pairs.copy(alloc)?,
            secured: self.secured,
            groups: self.groups.copy(alloc)?,
            device: self.device.copy(alloc)?,
            owner: self.owner.copy(alloc)?,
            host: self.host.copy(alloc)?,
            vif: self.vif,
            by_admin: self.by_admin,
        })
    }
}

impl Same for PortRow {
    fn is_same(&self, other: &PortRow) -> bool {
        self.id == other.id
            && self.project.is_same(&other.project)
            && self.network == other.network
            && self.name.is_same(&other.name)
            && self.description.is_same(&other.description)
            && self.up == other.up
            && self.mac == other.mac
            && self.fixed.is_same(&other.fixed)
            && self.pairs.is_same(&other.pairs)
            && self.secured == other.secured
            && self.groups.is_same(&other.groups)
            && self.device.is_same(&other.device)
            && self.owner.is_same(&other.owner)
            && self.host.is_same(&other.host)
            && self.vif == other.vif
            && self.by_admin == other.by_admin
    }
}

impl Keyed for PortRow {
    ghost id_of = { λ r. r.id };

    ghost project_of = { λ r. r.project };

    fn id(&self) -> Id {
        self.id
    }

    fn project(&self) -> &Text {
        &self.project
    }
}
