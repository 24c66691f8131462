//! Projects: their ordinals, and how many ids were drawn for them.

ghost use Rattle.std.specs.Prelude.{◌≡◌};
ghost use Rattle.api_types.specs.Ident.{Ident};

use crate::id::Id;
use crate::table::Keyed;
use net_addr::{Copies, OutOfMemory, Same, Text};
use std::alloc::Global;

/// A project, registered by the first row that was created for it.
#[derive(Drop)]
pub struct ProjectRow {
    /// 1 to 64 letters, digits, hyphens and underscores.
    pub name: Text,
    /// Its place among the projects, from 1 on.
    pub ordinal: u32,
    /// How many ids were drawn for it, below 2^62.
    pub count: u64,
}

impl Copies for ProjectRow {
    fn copy(&self, alloc: Global) -> Result<ProjectRow, OutOfMemory> {
        Ok(ProjectRow {
            name: self.name.copy(alloc)?,
            ordinal: self.ordinal,
            count: self.count,
        })
    }
}

impl Same for ProjectRow {
    fn is_same(&self, other: &ProjectRow) -> bool {
        self.name.is_same(&other.name) && self.ordinal == other.ordinal && self.count == other.count
    }
}

impl Keyed for ProjectRow {
    ghost id_of = { λ r. record { ordinal = r.ordinal; count = 0 } };

    ghost project_of = { λ r. r.name };

    fn id(&self) -> Id {
        Id::make(self.ordinal, 0)
    }

    fn project(&self) -> &Text {
        &self.name
    }
}
