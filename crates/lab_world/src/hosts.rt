//! The hosts in order, each with its agents; frames see them as a fleet.

ghost use Rattle.std.specs.Prelude.{◌≡◌, ◌↔◌, ◌<◌, ◌≤◌, ◌++◌, ◌∷◌, [], None, Some, IfNone, IfOk, IfSome, IsTrue, OnErr, OnOk, flat_map, if◌then◌else◌, length, map, option_copied, option_map, slice_get, true};
ghost use Rattle.std.specs.Str.{bytes_eq};
ghost use Rattle.api_types.specs.Consistent.{IsConsistent};
ghost use Rattle.api_types.specs.Lists.{Each};
ghost use Rattle.plane_types.specs.Hosts.{is_named};
ghost use Rattle.plane_types.specs.Attached.{IsAttached};
ghost use Rattle.plane_types.specs.Verdicts.{with_made};
ghost use Rattle.plane_types.specs.Node.{CanFollow, Node, Ready, after_change, after_forget, after_restart, after_resync, agents_of, first_agent, follows, hearing, host_of, ready_for};
ghost use Rattle.plane_types.specs.Room.{Room};
ghost use Rattle.plane_types.specs.Tables.{Tables};
ghost use Rattle.api_types.specs.Rows.{after as rows_after};
ghost use Rattle.world_laws.specs.Steps.{add_from};
ghost use Rattle.lab_world.specs.Hosts.{AreFor, AreToldBy, CanTakeAll, IsNamedAt, at_place, named_node, settle_each, state_at_version, state_with, take_each};
ghost use Rattle.lab_world.specs.Lab.{host_state};

use crate::each::{add_entries, keep_all, prepare_all, reserve_all, settle_all, take_all, tell};
use agent_node::{AgentNode, ReadyNode, Rewire};
use api_types::{Change, Rows};
use fabric_run::Fleet;
use net_addr::{Copies, OutOfMemory, Seq, Text};
use plane_types::{Entries, Heard, HostState, HostTables, Made};
use std::alloc::Global;
use std::marker::Model;

/// Hosts in their order, each with its agents. Contracts see the list of them.
#[derive(Drop)]
pub struct Hosts {
    nodes: Vec<AgentNode>,
}

impl Model for Hosts {
    ghost use Rattle.std.specs.Prelude.{List};
    ghost use Rattle.plane_types.specs.Node.{Node};

    ghost Value = { List Node };

    ghost view = { λ h. h.nodes.items };
}

impl Hosts {
    /// No hosts.
    pub fn new(alloc: Global) -> Hosts
        ensures { result ≡ [] }
    {
        Hosts {
            nodes: Vec::new(alloc),
        }
    }

    /// Adds a host at the end, which is given its first rows, or leaves all as it is. Its cost is
    /// that of wiring and of a copy of the rows.
    pub fn add(
        &mut self,
        alloc: Global,
        host: Text,
        rows: &Rows,
        version: u64,
    ) -> Result<(), OutOfMemory>
        requires { IsConsistent rows.now }
        ensures ok { OnOk result
            ((spare : Room) × (self.new
            ≡ self.old
            ++ record { agent = first_agent rows.now version host; spare = spare } ∷ [])) }
        ensures err { OnErr result (self.new ≡ self.old) }
    {
        let node = AgentNode::make(alloc, host, rows, version)?;
        self.nodes.push(node)?;
        Ok(())
    }

    /// What each host would be given with these rows. Nothing changes. Its cost is that of
    /// wiring each host, and of a copy of the rows for each.
    pub fn prepare(
        &self,
        alloc: Global,
        version: u64,
        rows: &Rows,
    ) -> Result<Vec<ReadyNode>, OutOfMemory>
        requires { IsConsistent rows.now }
        ensures { IfOk result
            (λ ready. ready.items ≡ map (ready_for version rows.now) (agents_of self.now)) }
    {
        let mut ready = Vec::new(alloc);
        for node in &self.nodes {
            ready.push(node.prepare_resync(alloc, version, rows)?)?;
        }
        Ok(ready)
    }

    /// Puts in place what was made ready for each host with rows of a version, where the host
    /// doesn't hold that. It allocates nothing. Its cost grows with the entries of each host times
    /// its taps and routers.
    pub fn settle(&mut self, ready: Vec<ReadyNode>, version: u64)
        requires each { AreFor ready.items self.old }
        requires version { Each (λ (r : Ready). r.version ≡ version) ready.items }
        ensures { agents_of self.new ≡ settle_each version ready.items (agents_of self.old) }
    {
        settle_all(self.nodes.as_mut_slice(), ready, version);
    }

    /// Makes all ready at each host for a change with its number that leads to these rows, unless
    /// delivery is by hand alone. Nothing changes but room. Its cost for each host grows with what
    /// the change touches.
    pub fn prepare_told(
        &mut self,
        alloc: Global,
        manual: bool,
        number: u64,
        change: &Change,
        after: &Rows,
    ) -> Result<Vec<Option<Rewire>>, OutOfMemory>
        requires fits { Each (λ (n : Node). CanFollow n.agent number change.now) self.old }
        requires rows { Each
            (λ (n : Node). follows number n.agent.held ≡ true
            → after.now ≡ rows_after n.agent.rows change.now)
            self.old }
        ensures ready { IfOk result
            (λ ready. AreToldBy manual number after.now self.new ready.items) }
        ensures agents { agents_of self.new ≡ agents_of self.old }
    {
        let nodes = self.nodes.as_mut_slice();
        prepare_all(alloc, nodes, manual, number, change, after)
    }

    /// Puts in what was made ready at each host for the change with a number. It allocates nothing.
    pub fn take(&mut self, ready: Vec<Option<Rewire>>, number: u64)
        requires { CanTakeAll self.old ready.items }
        ensures { agents_of self.new ≡ take_each number ready.items (agents_of self.old) }
    {
        take_all(self.nodes.as_mut_slice(), ready, number);
    }

    /// The place of the first host of this name.
    pub fn place(&self, name: &Text) -> Option<usize>
        ensures some { IfSome result (IsNamedAt name.now self.now) }
        ensures none { IfNone result (named_node name.now self.now ≡ None) }
    {
        for (at, node) in self.nodes.iter().enumerate() {
            if *name == *node.host() {
                return Some(at);
            }
        }
        None
    }

    /// Tells the host at a place a change with its number, and answers what it makes of it. If the
    /// rows after the change are given, the host shares them. Its cost is that of
    /// `AgentNode::deliver`.
    pub fn deliver(
        &mut self,
        alloc: Global,
        at: usize,
        number: u64,
        change: &Change,
        after: Option<&Rows>,
    ) -> Result<Heard, OutOfMemory>
        requires within { at < length self.old }
        requires fits { Each (λ (n : Node). CanFollow n.agent number change.now) self.old }
        requires rows { IfSome after
            (λ rows. Each
            (λ (n : Node). follows number n.agent.held ≡ true
            → rows.now ≡ rows_after n.agent.rows change.now)
            self.old) }
        ensures heard { IfOk result
            (λ heard. (n : Node) → slice_get self.old at ≡ Some n
            → heard ≡ hearing number n.agent.held) }
        ensures ok { OnOk result
            (agents_of self.new
            ≡ at_place at (after_change number change.now) (agents_of self.old)) }
        ensures err { OnErr result (agents_of self.new ≡ agents_of self.old) }
    {
        let heard = tell(alloc, &mut self.nodes[at], number, change, after)?;
        Ok(heard)
    }

    /// Gives the host at a place rows of a version, which it then holds. Its cost is that of wiring
    /// the host.
    pub fn resync(
        &mut self,
        alloc: Global,
        at: usize,
        version: u64,
        rows: &Rows,
    ) -> Result<(), OutOfMemory>
        requires within { at < length self.old }
        requires consistent { IsConsistent rows.now }
        ensures ok { OnOk result
            (agents_of self.new ≡ at_place at (after_resync version rows.now) (agents_of self.old)) }
        ensures err { OnErr result (self.new ≡ self.old) }
    {
        self.nodes[at].resync(alloc, version, rows)?;
        Ok(())
    }

    /// The host at a place holds nothing from now on. It allocates nothing.
    pub fn restart(&mut self, at: usize)
        requires { at < length self.old }
        ensures { agents_of self.new ≡ at_place at after_restart (agents_of self.old) }
    {
        self.nodes[at].restart();
    }

    /// The host at a place has no entries from now on. It allocates nothing.
    pub fn forget(&mut self, at: usize)
        requires { at < length self.old }
        ensures { agents_of self.new ≡ at_place at after_forget (agents_of self.old) }
    {
        self.nodes[at].forget();
    }

    /// Makes room at each host for the entries of one event. Nothing else changes.
    pub fn reserve(&mut self, alloc: Global) -> Result<(), OutOfMemory>
        ensures same { agents_of self.new ≡ agents_of self.old }
        ensures spare { OnOk result (Each (λ (n : Node). 256 ≤ n.spare.entries) self.new) }
    {
        reserve_all(alloc, self.nodes.as_mut_slice())
    }

    /// Adds the entries that an event made, each at the host that made it. It allocates nothing.
    /// Its cost grows with these entries times the hosts.
    pub fn keep(&mut self, fresh: &[Made])
        requires room { Each (λ (n : Node). length fresh.now ≤ n.spare.entries) self.old }
        requires placed { Each IsAttached (with_made (map host_of (agents_of self.old)) fresh.now) }
        ensures { agents_of self.new ≡ add_from 0 (agents_of self.old) fresh.now }
    {
        keep_all(self.nodes.as_mut_slice(), fresh);
    }

    /// The entries of all hosts, in their order. Its cost grows with them.
    pub fn all_entries(&self, alloc: Global) -> Result<Entries, OutOfMemory>
        ensures { IfOk result
            (λ entries. entries.items ≡ flat_map (λ (n : Node). n.agent.entries) self.now) }
    {
        let mut entries = Entries::new(alloc);
        for node in &self.nodes {
            add_entries(&mut entries, node.entries().as_slice())?;
        }
        Ok(entries)
    }

    /// Each host, and the version that it holds.
    pub fn states(&self, alloc: Global) -> Result<Seq<HostState>, OutOfMemory>
        ensures { IfOk result (λ states. states ≡ map host_state (agents_of self.now)) }
    {
        let mut states = Seq::new(alloc);
        for node in &self.nodes {
            states.push(state(alloc, node, node.held())?)?;
        }
        Ok(states)
    }

    /// Each host, and the version that it would hold if the host of this name held that one.
    pub fn states_with(
        &self,
        alloc: Global,
        name: &Text,
        held: Option<u64>,
    ) -> Result<Seq<HostState>, OutOfMemory>
        ensures { IfOk result
            (λ states. states ≡ map (state_with name.now held) (agents_of self.now)) }
    {
        let mut states = Seq::new(alloc);
        for node in &self.nodes {
            states.push(state(alloc, node, held_with(node, name, held))?)?;
        }
        Ok(states)
    }

    /// Each host, as if it held this version.
    pub fn states_at(&self, alloc: Global, version: u64) -> Result<Seq<HostState>, OutOfMemory>
        ensures { IfOk result
            (λ states. states ≡ map (state_at_version version) (agents_of self.now)) }
    {
        let mut states = Seq::new(alloc);
        for node in &self.nodes {
            states.push(state(alloc, node, Some(version))?)?;
        }
        Ok(states)
    }

    /// Whether each host holds this version.
    pub fn all_hold(&self, version: u64) -> bool
        ensures { IsTrue result ↔ Each (λ (n : Node). n.agent.held ≡ Some version) self.now }
    {
        self.nodes.iter().all(|node| node.held() == Some(version))
    }

    /// The tables of the host with this name, which are those that its rows give to it.
    pub fn tables_of(&self, name: &Text) -> Option<&HostTables>
        ensures { option_map (λ (t : Tables). t.lists) (option_copied result)
            ≡ option_map (λ (n : Node). n.agent.tables) (named_node name.now self.now) }
    {
        for node in &self.nodes {
            if *name == *node.host() {
                return Some(node.tables());
            }
        }
        None
    }
}

// A host's name, and this version.
fn state(alloc: Global, node: &AgentNode, held: Option<u64>) -> Result<HostState, OutOfMemory>
    ensures { IfOk result (λ s. s ≡ record { name = node.now.agent.name; held = held }) }
{
    Ok(HostState {
        name: node.host().copy(alloc)?,
        held,
    })
}

// What a host would hold if the host of this name held that version.
fn held_with(node: &AgentNode, name: &Text, held: Option<u64>) -> Option<u64>
    ensures { result
        ≡ (if bytes_eq name.now node.now.agent.name then held else node.now.agent.held) }
{
    if *name == *node.host() {
        held
    } else {
        node.held()
    }
}

impl Fleet for Hosts {
    ghost use Rattle.std.specs.Prelude.{map};
    ghost use Rattle.plane_types.specs.Node.{agents_of, host_of};

    ghost hosts = { λ h. map host_of (agents_of h) };

    fn count(&self) -> usize {
        self.nodes.len()
    }

    fn host(&self, at: usize) -> &Text {
        self.nodes[at].host()
    }

    fn tables(&self, at: usize) -> &HostTables {
        self.nodes[at].tables()
    }

    fn entries(&self, at: usize) -> &Entries {
        self.nodes[at].entries()
    }
}
