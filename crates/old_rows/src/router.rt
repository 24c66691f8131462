//! Routers with routes of version 4.

ghost use Rattle.std.specs.Prelude.{◌≡◌};
ghost use Rattle.old_rows.specs.Migrated.{migrated_router};

use crate::list::migrate_all;
use crate::migrates::Migrates;
use crate::subnet::Hop4;
use crate::table::OldRow;
use api_types::{Gateway, Id, RouterRow};
use net_addr::{Copies, OutOfMemory, Seq, Text};
use std::alloc::Global;

/// A router.
#[derive(Drop)]
pub struct OldRouter {
    pub id: Id,
    /// The name of the project that owns it.
    pub project: Text,
    /// At most 255 characters.
    pub name: Text,
    /// At most 255 characters.
    pub description: Text,
    /// Its administrative state.
    pub up: bool,
    /// The host that it stands on, or none.
    pub host: Option<Text>,
    pub gateway: Option<Gateway>,
    /// At most 30 extra routes.
    pub routes: Seq<Hop4>,
}

impl Migrates for OldRouter {
    type Now = RouterRow;

    ghost migrated = { migrated_router };

    fn migrate(&self, alloc: Global) -> Result<RouterRow, OutOfMemory> {
        Ok(RouterRow {
            id: self.id,
            project: self.project.copy(alloc)?,
            name: self.name.copy(alloc)?,
            description: self.description.copy(alloc)?,
            up: self.up,
            host: self.host.copy(alloc)?,
            gateway: self.gateway,
            routes: migrate_all(alloc, &self.routes)?,
        })
    }
}

impl OldRow for OldRouter {
    ghost id_of = { λ r. r.id };

    fn id(&self) -> Id {
        self.id
    }
}
