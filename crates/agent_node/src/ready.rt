//! What a resync will put in place: rows of a version with the tables made of them.

ghost use Rattle.std.specs.Prelude.{◌≡◌, IfOk};
ghost use Rattle.api_types.specs.Consistent.{IsConsistent};
ghost use Rattle.plane_types.specs.NewTags.{AreTags};
ghost use Rattle.plane_types.specs.TablesOfRows.{tables_of_rows as wired_by_rows};

use crate::wiring::wire_tables;
use api_types::Rows;
use net_addr::{OutOfMemory, Text};
use plane_types::{HostTables, Tags};
use std::alloc::Global;
use std::marker::Model;

/// What a resync would put in place at a host: the rows of a version, and the tables made of them
/// for the tags that the host had.
#[derive(Drop)]
pub struct ReadyNode {
    pub(crate) name: Text,
    pub(crate) version: u64,
    pub(crate) rows: Rows,
    pub(crate) tables: HostTables,
    pub(crate) old: Tags,
}

impl Model for ReadyNode {
    ghost use Rattle.plane_types.specs.Node.{IsReady, Ready};

    ghost Value = { Ready };

    ghost view = { λ r.
        record
        { name = r.name; version = r.version; rows = r.rows; tables = r.tables.lists; old = r.old } };

    ghost invariant = { λ r.
        IsReady
        (record {
          name = r.name;
          version = r.version;
          rows = r.rows;
          tables = r.tables.lists;
          old = r.old;
        }) };
}

impl ReadyNode {
    /// Rows of a version with the tables that the host of this name makes of them, where its tags
    /// were these. Its cost is that of wiring and of a copy of the rows.
    pub(crate) fn make(
        alloc: Global,
        name: Text,
        version: u64,
        rows: &Rows,
        old: Tags,
    ) -> Result<ReadyNode, OutOfMemory>
        requires consistent { IsConsistent rows.now }
        requires tags { AreTags old }
        ensures { IfOk result
            (λ r. r
            ≡ record {
              name = name;
              version = version;
              rows = rows.now;
              tables = wired_by_rows rows.now name old;
              old = old;
            }) }
    {
        ReadyNode::of(alloc, name, version, rows.copy(alloc)?, old)
    }

    // The same of rows that are handed over. Its cost is that of wiring.
    fn of(
        alloc: Global,
        name: Text,
        version: u64,
        rows: Rows,
        old: Tags,
    ) -> Result<ReadyNode, OutOfMemory>
        requires consistent { IsConsistent rows }
        requires tags { AreTags old }
        ensures { IfOk result
            (λ r. r
            ≡ record {
              name = name;
              version = version;
              rows = rows;
              tables = wired_by_rows rows name old;
              old = old;
            }) }
    {
        let tables = wire_tables(alloc, &rows, &name, &old)?;
        Ok(ReadyNode {
            name,
            version,
            rows,
            tables,
            old,
        })
    }
}
