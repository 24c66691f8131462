//! Networks and their segments.

ghost use Rattle.std.specs.Prelude.{◌≡◌};

use crate::id::Id;
use crate::table::Keyed;
use net_addr::{Copies, OutOfMemory, Same, Text};
use std::alloc::Global;

/// The layer 2 segment by which a network's frames travel between hosts (Neutron's provider
/// attributes).
#[derive(Drop)]
pub enum Segment {
    /// Frames stay on their host.
    Local,
    /// Untagged frames on a physical network.
    Flat { physical: Text },
    /// Frames with a tag of IEEE 802.1Q, 1 to 4,094, on a physical network.
    Vlan { physical: Text, tag: u16 },
    /// Tunnels by a number of VXLAN (RFC 7348), 1 to 16,777,215.
    Vxlan { number: u32 },
}

impl Copies for Segment {
    fn copy(&self, alloc: Global) -> Result<Segment, OutOfMemory> {
        match self {
            Segment::Local => Ok(Segment::Local),
            Segment::Flat { physical } => Ok(Segment::Flat {
                physical: physical.copy(alloc)?,
            }),
            Segment::Vlan { physical, tag } => Ok(Segment::Vlan {
                physical: physical.copy(alloc)?,
                tag: *tag,
            }),
            Segment::Vxlan { number } => Ok(Segment::Vxlan { number: *number }),
        }
    }
}

impl Same for Segment {
    fn is_same(&self, other: &Segment) -> bool {
        match (self, other) {
            (Segment::Local, Segment::Local) => true,
            (Segment::Flat { physical: a }, Segment::Flat { physical: b }) => a.is_same(b),
            (
                Segment::Vlan {
                    physical: a,
                    tag: s,
                },
                Segment::Vlan {
                    physical: b,
                    tag: t,
                },
            ) => a.is_same(b) && *s == *t,
            (Segment::Vxlan { number: a }, Segment::Vxlan { number: b }) => *a == *b,
            _ => false,
        }
    }
}

/// A network.
#[derive(Drop)]
pub struct NetworkRow {
    pub id: Id,
    /// The name of the project that owns it.
    pub project: Text,
    /// At most 255 characters.
    pub name: Text,
    /// At most 255 characters.
    pub description: Text,
    /// Its administrative state.
    pub up: bool,
    pub segment: Segment,
}

impl Copies for NetworkRow {
    fn copy(&self, alloc: Global) -> Result<NetworkRow, OutOfMemory> {
        Ok(NetworkRow {
            id: self.id,
            project: self.project.copy(alloc)?,
            name: self.name.copy(alloc)?,
            description: self.description.copy(alloc)?,
            up: self.up,
            segment: self.segment.copy(alloc)?,
        })
    }
}

impl Same for NetworkRow {
    fn is_same(&self, other: &NetworkRow) -> bool {
        self.id == other.id
            && self.project.is_same(&other.project)
            && self.name.is_same(&other.name)
            && self.description.is_same(&other.description)
            && self.up == other.up
            && self.segment.is_same(&other.segment)
    }
}

impl Keyed for NetworkRow {
    ghost id_of = { λ r. r.id };

    ghost project_of = { λ r. r.project };

    fn id(&self) -> Id {
        self.id
    }

    fn project(&self) -> &Text {
        &self.project
    }
}
