//! Security groups and their rules.

ghost use Rattle.std.specs.Prelude.{◌≡◌};

use crate::id::Id;
use crate::table::Keyed;
use net_addr::{Copies, OutOfMemory, Prefix, Same, Text};
use std::alloc::Global;

/// Which way a packet goes, seen from the port.
#[derive(Clone, Copy, Debug, PartialEq, Eq)]
pub enum Direction {
    Ingress,
    Egress,
}

/// Of which version of IP a rule speaks.
#[derive(Clone, Copy, Debug, PartialEq, Eq)]
pub enum Ethertype {
    Ipv4,
    Ipv6,
}

/// A security group.
#[derive(Drop)]
pub struct GroupRow {
    pub id: Id,
    /// The name of the project that owns it.
    pub project: Text,
    /// At most 255 characters.
    pub name: Text,
    /// At most 255 characters.
    pub description: Text,
    /// Whether it is its project's group `default`.
    pub is_default: bool,
}

impl Copies for GroupRow {
    fn copy(&self, alloc: Global) -> Result<GroupRow, OutOfMemory> {
        Ok(GroupRow {
            id: self.id,
            project: self.project.copy(alloc)?,
            name: self.name.copy(alloc)?,
            description: self.description.copy(alloc)?,
            is_default: self.is_default,
        })
    }
}

impl Same for GroupRow {
    fn is_same(&self, other: &GroupRow) -> bool {
        self.id == other.id
            && self.project.is_same(&other.project)
            && self.name.is_same(&other.name)
            && self.description.is_same(&other.description)
            && self.is_default == other.is_default
    }
}

impl Keyed for GroupRow {
    ghost id_of = { λ r. r.id };

    ghost project_of = { λ r. r.project };

    fn id(&self) -> Id {
        self.id
    }

    fn project(&self) -> &Text {
        &self.project
    }
}

/// A rule of a security group: it lets matching packets pass.
#[derive(Drop)]
pub struct RuleRow {
    pub id: Id,
    /// The name of the project that owns it.
    pub project: Text,
    pub group: Id,
    /// At most 255 characters.
    pub description: Text,
    pub direction: Direction,
    pub ethertype: Ethertype,
    /// A protocol of IP by its number (IANA), or any.
    pub protocol: Option<u8>,
    /// The least port, or the type for ICMP.
    pub low: Option<u16>,
    /// The greatest port, or the code for ICMP.
    pub high: Option<u16>,
    /// Where the far address may be.
    pub remote_prefix: Option<Prefix>,
    /// The group of which the far address may be a member's.
    pub remote_group: Option<Id>,
}

impl Copies for RuleRow {
    fn copy(&self, alloc: Global) -> Result<RuleRow, OutOfMemory> {
        Ok(RuleRow {
            id: self.id,
            project: self.project.copy(alloc)?,
            group: self.group,
            description: self.description.copy(alloc)?,
            direction: self.direction,
            ethertype: self.ethertype,
            protocol: self.protocol,
            low: self.low,
            high: self.high,
            remote_prefix: self.remote_prefix,
            remote_group: self.remote_group,
        })
    }
}

impl Same for RuleRow {
    fn is_same(&self, other: &RuleRow) -> bool {
        self.id == other.id
            && self.project.is_same(&other.project)
            && self.group == other.group
            && self.description.is_same(&other.description)
            && self.direction == other.direction
            && self.ethertype == other.ethertype
            && self.protocol.is_same(&other.protocol)
            && self.low.is_same(&other.low)
            && self.high.is_same(&other.high)
            && self.remote_prefix.is_same(&other.remote_prefix)
            && self.remote_group.is_same(&other.remote_group)
    }
}

impl Keyed for RuleRow {
    ghost id_of = { λ r. r.id };

    ghost project_of = { λ r. r.project };

    fn id(&self) -> Id {
        self.id
    }

    fn project(&self) -> &Text {
        &self.project
    }
}
