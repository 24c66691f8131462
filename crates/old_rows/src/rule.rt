//! Rules of security groups with prefixes of version 4.

ghost use Rattle.std.specs.Prelude.{◌≡◌};
ghost use Rattle.old_rows.specs.Migrated.{migrated_rule};

use crate::list::migrate_some;
use crate::migrates::Migrates;
use crate::prefix::Prefix4;
use crate::table::OldRow;
use api_types::{Direction, Ethertype, Id, RuleRow};
use net_addr::{Copies, OutOfMemory, Text};
use std::alloc::Global;

/// A rule of a security group: it lets matching packets pass.
#[derive(Drop)]
pub struct OldRule {
    pub id: Id,
    /// The name of the project that owns it.
    pub project: Text,
    pub group: Id,
    /// At most 255 characters.
    pub description: Text,
    pub direction: Direction,
    pub ethertype: Ethertype,
    /// A protocol of IP by its number (IANA), or any.
    pub protocol: Option<u8>,
    /// The least port, or the type for ICMP.
    pub low: Option<u16>,
    /// The greatest port, or the code for ICMP.
    pub high: Option<u16>,
    /// Where the far address may be.
    pub remote_prefix: Option<Prefix4>,
    /// The group of which the far address may be a member's.
    pub remote_group: Option<Id>,
}

impl Migrates for OldRule {
    type Now = RuleRow;

    ghost migrated = { migrated_rule };

    fn migrate(&self, alloc: Global) -> Result<RuleRow, OutOfMemory> {
        Ok(RuleRow {
            id: self.id,
            project: self.project.copy(alloc)?,
            group: self.group,
            description: self.description.copy(alloc)?,
            direction: self.direction,
            ethertype: self.ethertype,
            protocol: self.protocol,
            low: self.low,
            high: self.high,
            remote_prefix: migrate_some(alloc, &self.remote_prefix)?,
            remote_group: self.remote_group,
        })
    }
}

impl OldRow for OldRule {
    ghost id_of = { λ r. r.id };

    fn id(&self) -> Id {
        self.id
    }
}
