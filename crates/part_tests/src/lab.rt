//! Two hosts with tables made by hand.
ghost use Rattle.std.specs.Prelude.{◌≡◌, false};
ghost use Rattle.std.specs.Str.{bytes_eq};

use fabric_run::Fleet;
use net_addr::{OutOfMemory, Text};
use plane_types::{Entries, HostTables, TableLists};
use std::alloc::Global;
use std::test::Fail;

/// A host with its tables and its tracked entries.
pub(crate) struct Node {
    name: Text,
    tables: HostTables,
    entries: Entries,
}

impl Drop for Node {
    fn drop(self) {
        let Node {
            name: _,
            tables: _,
            entries: _,
        } = self;
    }
}

/// Two hosts made by hand, whose names differ.
pub(crate) struct Lab {
    first: Node,
    second: Node,
    ghost differ: { bytes_eq first.name second.name ≡ false },
}

impl Drop for Lab {
    fn drop(self) {
        let Lab {
            first: _,
            second: _,
        } = self;
    }
}

impl Fleet for Lab {
    ghost use Rattle.std.specs.Prelude.{[], ◌∷◌};

    ghost hosts = { λ l.
        record
        { name = l.first.name; tables = l.first.tables.lists; entries = l.first.entries.items }
        ∷ record
        { name = l.second.name; tables = l.second.tables.lists; entries = l.second.entries.items }
        ∷ [] };

    fn count(&self) -> usize {
        2
    }

    fn host(&self, at: usize) -> &Text {
        if at == 0 {
            &self.first.name
        } else {
            &self.second.name
        }
    }

    fn tables(&self, at: usize) -> &HostTables {
        if at == 0 {
            &self.first.tables
        } else {
            &self.second.tables
        }
    }

    fn entries(&self, at: usize) -> &Entries {
        if at == 0 {
            &self.first.entries
        } else {
            &self.second.entries
        }
    }
}

impl Node {
    pub(crate) fn make(alloc: Global, name: &str, lists: TableLists) -> Result<Node, OutOfMemory> {
        Ok(Node {
            name: Text::of(alloc, name)?,
            tables: HostTables::make(alloc, lists)?,
            entries: Entries::new(alloc),
        })
    }
}

impl Lab {
    pub(crate) fn make(first: Node, second: Node) -> Result<Lab, Fail> {
        if first.name == second.name {
            return Err(Fail::new("names differ"));
        }
        Ok(Lab { first, second })
    }
}
