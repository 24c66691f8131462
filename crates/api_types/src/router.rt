//! Routers and their gateways.

ghost use Rattle.std.specs.Prelude.{◌≡◌};

use crate::id::Id;
use crate::subnet::Routes;
use crate::table::Keyed;
use net_addr::{Copies, OutOfMemory, Same, Text};
use std::alloc::Global;

/// A router's gateway on an external network.
#[derive(Clone, Copy, Debug, PartialEq, Eq)]
pub struct Gateway {
    pub network: Id,
    pub port: Id,
    /// Whether sources are translated to the gateway's address.
    pub snat: bool,
}

impl Same for Gateway {
    fn is_same(&self, other: &Gateway) -> bool {
        *self == *other
    }
}

/// A router.
#[derive(Drop)]
pub struct RouterRow {
    pub id: Id,
    /// The name of the project that owns it.
    pub project: Text,
    /// At most 255 characters.
    pub name: Text,
    /// At most 255 characters.
    pub description: Text,
    /// Its administrative state.
    pub up: bool,
    /// The host that it stands on, or none.
    pub host: Option<Text>,
    pub gateway: Option<Gateway>,
    /// At most 30 extra routes.
    pub routes: Routes,
}

impl Copies for RouterRow {
    fn copy(&self, alloc: Global) -> Result<RouterRow, OutOfMemory> {
        Ok(RouterRow {
            id: self.id,
            project: self.project.copy(alloc)?,
            name: self.name.copy(alloc)?,
            description: self.description.copy(alloc)?,
            up: self.up,
            host: self.host.copy(alloc)?,
            gateway: self.gateway,
            routes: self.routes.copy(alloc)?,
        })
    }
}

impl Same for RouterRow {
    fn is_same(&self, other: &RouterRow) -> bool {
        self.id == other.id
            && self.project.is_same(&other.project)
            && self.name.is_same(&other.name)
            && self.description.is_same(&other.description)
            && self.up == other.up
            && self.host.is_same(&other.host)
            && self.gateway.is_same(&other.gateway)
            && self.routes.is_same(&other.routes)
    }
}

impl Keyed for RouterRow {
    ghost id_of = { λ r. r.id };

    ghost project_of = { λ r. r.project };

    fn id(&self) -> Id {
        self.id
    }

    fn project(&self) -> &Text {
        &self.project
    }
}
