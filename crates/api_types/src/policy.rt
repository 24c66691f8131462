//! RBAC policies.

ghost use Rattle.std.specs.Prelude.{◌≡◌};

use crate::id::Id;
use crate::table::Keyed;
use net_addr::{Copies, OutOfMemory, Same, Text};
use std::alloc::Global;

/// What an RBAC policy permits.
#[derive(Clone, Copy, Debug, PartialEq, Eq)]
pub enum Action {
    /// To use the network as one's own (`access_as_shared`).
    Shared,
    /// To use the network as an external one (`access_as_external`).
    External,
}

/// An RBAC policy: it permits an action on a network to a project or to all.
#[derive(Drop)]
pub struct PolicyRow {
    pub id: Id,
    /// The name of the project that owns it.
    pub project: Text,
    /// The network.
    pub object: Id,
    pub action: Action,
    /// The name of a project, or `*` for all.
    pub target: Text,
}

impl Copies for PolicyRow {
    fn copy(&self, alloc: Global) -> Result<PolicyRow, OutOfMemory> {
        Ok(PolicyRow {
            id: self.id,
            project: self.project.copy(alloc)?,
            object: self.object,
            action: self.action,
            target: self.target.copy(alloc)?,
        })
    }
}

impl Same for PolicyRow {
    fn is_same(&self, other: &PolicyRow) -> bool {
        self.id == other.id
            && self.project.is_same(&other.project)
            && self.object == other.object
            && self.action == other.action
            && self.target.is_same(&other.target)
    }
}

impl Keyed for PolicyRow {
    ghost id_of = { λ r. r.id };

    ghost project_of = { λ r. r.project };

    fn id(&self) -> Id {
        self.id
    }

    fn project(&self) -> &Text {
        &self.project
    }
}
