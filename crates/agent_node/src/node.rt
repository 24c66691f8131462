//! One host's agents: the rows that they were last given, the tables made of them, tracked entries.

ghost use Rattle.std.specs.Prelude.{◌≡◌, ◌+◌, ◌<◌, ◌≤◌, [], ◌∷◌, ◌++◌, IfOk, OnErr, OnOk};
ghost use Rattle.api_types.specs.Consistent.{IsConsistent};
ghost use Rattle.plane_types.specs.Attached.{IsAttached};
ghost use Rattle.plane_types.specs.Realises.{Realises};
ghost use Rattle.plane_types.specs.Node.{after_forget, after_restart, after_resync, first_agent, host_of, host_with, ready_for, with_entries};

use crate::ready::ReadyNode;
use api_types::Rows;
use net_addr::{Copies, OutOfMemory, Seq, Text};
use plane_types::{Entries, Entry, HostTables};
use std::alloc::Global;
use std::marker::Model;

// How many entries one event makes at most.
const EVENT_ENTRIES: usize = 256;

/// One host's agents.
///
/// Between calls the rows are consistent, the tables are those that the rows give to the host, and
/// each entry is of a tap or router in them.
#[derive(Drop)]
pub struct AgentNode {
    pub(crate) name: Text,
    pub(crate) held: Option<u64>,
    pub(crate) version: u64,
    pub(crate) rows: Rows,
    pub(crate) tables: HostTables,
    pub(crate) entries: Entries,
}

impl Model for AgentNode {
    ghost use Rattle.plane_types.specs.Node.{Node, Stands};

    ghost Value = { Node };

    ghost view = { λ n.
        record {
          agent = record {
            name = n.name;
            held = n.held;
            version = n.version;
            rows = n.rows;
            tables = n.tables.lists;
            entries = n.entries.items;
          };
          spare = record { entries = n.entries.spare; tables = n.tables.room };
        } };

    ghost invariant = { λ n.
        Stands
        (record {
          name = n.name;
          held = n.held;
          version = n.version;
          rows = n.rows;
          tables = n.tables.lists;
          entries = n.entries.items;
        }) };
}

impl AgentNode {
    /// The agents of a host that is given its first rows, at a version that it then holds. There
    /// are no entries. Its cost is that of wiring and of a copy of the rows.
    pub fn make(
        alloc: Global,
        host: Text,
        rows: &Rows,
        version: u64,
    ) -> Result<AgentNode, OutOfMemory>
        requires { IsConsistent rows.now }
        ensures { IfOk result (λ n. n.agent ≡ first_agent rows.now version host) }
    {
        let ReadyNode {
            name,
            version,
            rows,
            tables,
            old: _,
        } = ReadyNode::make(alloc, host, version, rows, Seq::new(alloc))?;
        Ok(AgentNode {
            name,
            held: Some(version),
            version,
            rows,
            tables,
            entries: Entries::new(alloc),
        })
    }

    /// What a resync with these rows would put in place. Nothing changes. Its cost is that of
    /// wiring and of a copy of the rows.
    pub fn prepare_resync(
        &self,
        alloc: Global,
        version: u64,
        rows: &Rows,
    ) -> Result<ReadyNode, OutOfMemory>
        requires { IsConsistent rows.now }
        ensures { IfOk result (λ r. r ≡ ready_for version rows.now self.now.agent) }
    {
        let name = self.name.copy(alloc)?;
        let old = self.tables.copy_tags(alloc)?;
        ReadyNode::make(alloc, name, version, rows, old)
    }

    /// Puts in place what was made ready for this host and the tags that it has. Its version is
    /// then held. Entries without a tap or router in the new tables are dropped, and the others
    /// stay in their order. It allocates nothing. Its cost grows with the entries.
    pub fn put(&mut self, ready: ReadyNode)
        requires name { ready.name ≡ self.old.agent.name }
        requires tags { ready.old ≡ self.old.agent.tables.tags }
        ensures agent { self.new.agent ≡ after_resync ready.version ready.rows self.old.agent }
        ensures spare { self.old.spare.entries ≤ self.new.spare.entries }
    {
        let ReadyNode {
            name: _,
            version,
            rows,
            tables,
            old: _,
        } = ready;
        self.entries.keep_attached(&tables);
        self.held = Some(version);
        self.version = version;
        self.rows = rows;
        self.tables = tables;
    }

    /// Gives the host the rows of a version, which it then holds, and wires them: networks keep
    /// their tags, entries without a tap or router in the new tables are dropped, and the others
    /// stay in their order. Its cost is that of wiring and of a copy of the rows, and grows with
    /// the entries.
    pub fn resync(&mut self, alloc: Global, version: u64, rows: &Rows) -> Result<(), OutOfMemory>
        requires { IsConsistent rows.now }
        ensures agent { OnOk result
            (self.new.agent ≡ after_resync version rows.now self.old.agent) }
        ensures spare { OnOk result (self.old.spare.entries ≤ self.new.spare.entries) }
        ensures same { OnErr result (self.new ≡ self.old) }
    {
        let ready = self.prepare_resync(alloc, version, rows)?;
        self.put(ready);
        Ok(())
    }

    /// Nothing is held from now on. Nothing else changes. It allocates nothing.
    pub fn restart(&mut self)
        ensures { self.new ≡ record self.old { agent = after_restart self.old.agent } }
    {
        self.held = None;
    }

    /// Drops all entries. Nothing else changes. It allocates nothing.
    pub fn forget(&mut self)
        ensures agent { self.new.agent ≡ after_forget self.old.agent }
        ensures spare { self.old.spare.entries ≤ self.new.spare.entries }
    {
        self.entries.clear();
    }

    /// The host's name.
    pub fn host(&self) -> &Text
        ensures { result.now ≡ self.now.agent.name }
    {
        &self.name
    }

    /// The tables, which are those that the rows give to the host.
    pub fn tables(&self) -> &HostTables
        ensures tables { result.now.lists ≡ self.now.agent.tables }
        ensures room { result.now.room ≡ self.now.spare.tables }
        ensures realised { Realises self.now.agent.rows self.now.agent.name self.now.agent.tables }
    {
        &self.tables
    }

    /// The entries, each of a tap or router in the tables.
    pub fn entries(&self) -> &Entries
        ensures items { result.now.items ≡ self.now.agent.entries }
        ensures spare { result.now.spare ≡ self.now.spare.entries }
        ensures placed { IsAttached (host_of self.now.agent) }
    {
        &self.entries
    }

    /// The version that is held, if any.
    pub fn held(&self) -> Option<u64>
        ensures { result ≡ self.now.agent.held }
    {
        self.held
    }

    /// The wired rows.
    pub fn rows(&self) -> &Rows
        ensures rows { result.now ≡ self.now.agent.rows }
        ensures consistent { IsConsistent self.now.agent.rows }
    {
        &self.rows
    }

    /// Makes room for the entries of one event, at most 256. Nothing else changes.
    pub fn reserve(&mut self, alloc: Global) -> Result<(), OutOfMemory>
        ensures agent { self.new.agent ≡ self.old.agent }
        ensures tables { self.new.spare.tables ≡ self.old.spare.tables }
        ensures spare { OnOk result (256 ≤ self.new.spare.entries) }
    {
        self.entries.reserve(EVENT_ENTRIES)
    }

    /// Adds an entry at the end. It allocates nothing.
    pub fn add(&mut self, entry: Entry)
        requires room { 0 < self.old.spare.entries }
        requires placed { IsAttached
            (host_with self.old.agent (self.old.agent.entries ++ entry ∷ [])) }
        ensures agent { self.new.agent
            ≡ with_entries (self.old.agent.entries ++ entry ∷ []) self.old.agent }
        ensures spare { self.old.spare.entries ≤ self.new.spare.entries + 1 }
    {
        self.entries.add(entry);
    }
}
