//! Floating addresses, and where they lead.

ghost use Rattle.std.specs.Prelude.{◌≡◌};

use crate::id::Id;
use crate::table::Keyed;
use net_addr::{Addr4, Copies, OutOfMemory, Same, Text};
use std::alloc::Global;

/// What a floating address is associated with.
#[derive(Clone, Copy, Debug, PartialEq, Eq)]
pub struct Target {
    pub port: Id,
    /// The port's address that the floating address stands for.
    pub fixed: Addr4,
    /// The router that translates.
    pub router: Id,
}

impl Same for Target {
    fn is_same(&self, other: &Target) -> bool {
        *self == *other
    }
}

/// A floating address.
#[derive(Drop)]
pub struct FloatingRow {
    pub id: Id,
    /// The name of the project that owns it.
    pub project: Text,
    /// At most 255 characters.
    pub description: Text,
    /// The external network that it is of.
    pub network: Id,
    /// The port that holds the address.
    pub own_port: Id,
    pub address: Addr4,
    pub target: Option<Target>,
}

impl Copies for FloatingRow {
    fn copy(&self, alloc: Global) -> Result<FloatingRow, OutOfMemory> {
        Ok(FloatingRow {
            id: self.id,
            project: self.project.copy(alloc)?,
            description: self.description.copy(alloc)?,
            network: self.network,
            own_port: self.own_port,
            address: self.address,
            target: self.target,
        })
    }
}

impl Same for FloatingRow {
    fn is_same(&self, other: &FloatingRow) -> bool {
        self.id == other.id
            && self.project.is_same(&other.project)
            && self.description.is_same(&other.description)
            && self.network == other.network
            && self.own_port == other.own_port
            && self.address == other.address
            && self.target.is_same(&other.target)
    }
}

impl Keyed for FloatingRow {
    ghost id_of = { λ r. r.id };

    ghost project_of = { λ r. r.project };

    fn id(&self) -> Id {
        self.id
    }

    fn project(&self) -> &Text {
        &self.project
    }
}
