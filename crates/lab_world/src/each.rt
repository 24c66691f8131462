//! Loops over all hosts, each as one step of one host.

ghost use Rattle.std.specs.Prelude.{◌≡◌, ◌≤◌, ◌++◌, IfOk, IfSome, OnErr, OnOk, length, map, true};
ghost use Rattle.std.specs.List.{filter_map};
ghost use Rattle.api_types.specs.Lists.{Each};
ghost use Rattle.api_types.specs.Rows.{after as rows_after};
ghost use Rattle.plane_types.specs.Attached.{IsAttached};
ghost use Rattle.plane_types.specs.Verdicts.{with_made, made_at};
ghost use Rattle.plane_types.specs.Node.{CanFollow, Node, Ready, after_change, agents_of, follows, hearing, host_of, host_with, with_entries};
ghost use Rattle.world_laws.specs.Steps.{add_from, after_settle};
ghost use Rattle.lab_world.specs.Hosts.{AreFor, AreToldBy, CanTakeAll, IsToldBy, settle_each, take_each};

use agent_node::{AgentNode, ReadyNode, Rewire};
use api_types::{Change, Rows};
use net_addr::OutOfMemory;
use plane_types::{Entries, Entry, Heard, Made};
use std::alloc::Global;

// Makes all ready at a host for a change with its number that leads to these rows, unless delivery
// is by hand alone.
fn prepare_one(
    alloc: Global,
    node: &mut AgentNode,
    manual: bool,
    number: u64,
    change: &Change,
    after: &Rows,
) -> Result<Option<Rewire>, OutOfMemory>
    requires fits { CanFollow node.old.agent number change.now }
    requires rows { follows number node.old.agent.held ≡ true
        → after.now ≡ rows_after node.old.agent.rows change.now }
    ensures ready { IfOk result (IsToldBy manual number after.now node.new) }
    ensures agent { node.new.agent ≡ node.old.agent }
{
    if manual {
        return Ok(None);
    }
    node.prepare_change(alloc, number, change, after)
}

/// Makes all ready at each host for a change with its number that leads to these rows, unless
/// delivery is by hand alone.
pub(crate) fn prepare_all(
    alloc: Global,
    nodes: &mut [AgentNode],
    manual: bool,
    number: u64,
    change: &Change,
    after: &Rows,
) -> Result<Vec<Option<Rewire>>, OutOfMemory>
    requires fits { Each (λ (n : Node). CanFollow n.agent number change.now) nodes.old }
    requires rows { Each
        (λ (n : Node). follows number n.agent.held ≡ true
        → after.now ≡ rows_after n.agent.rows change.now)
        nodes.old }
    ensures ready { IfOk result
        (λ ready. AreToldBy manual number after.now nodes.new ready.items) }
    ensures agents { agents_of nodes.new ≡ agents_of nodes.old }
{
    let mut ready = Vec::new(alloc);
    for node in nodes.iter_mut() {
        let one = prepare_one(alloc, node, manual, number, change, after)?;
        ready.push(one)?;
    }
    Ok(ready)
}

/// Puts in at each host what was made ready for it, if anything.
pub(crate) fn take_all(nodes: &mut [AgentNode], ready: Vec<Option<Rewire>>, number: u64)
    requires { CanTakeAll nodes.old ready.items }
    ensures { agents_of nodes.new ≡ take_each number ready.items (agents_of nodes.old) }
{
    let mut left = ready.into_iter();
    for node in nodes.iter_mut() {
        if let Some(ready) = left.next() {
            node.take_change(number, ready);
        }
    }
}

/// Tells a host the change with a number. If the rows after the change are given, the host shares
/// them.
pub(crate) fn tell(
    alloc: Global,
    node: &mut AgentNode,
    number: u64,
    change: &Change,
    after: Option<&Rows>,
) -> Result<Heard, OutOfMemory>
    requires fits { CanFollow node.old.agent number change.now }
    requires rows { IfSome after
        (λ rows. follows number node.old.agent.held ≡ true
        → rows.now ≡ rows_after node.old.agent.rows change.now) }
    ensures heard { IfOk result (λ h. h ≡ hearing number node.old.agent.held) }
    ensures agent { OnOk result
        (node.new.agent ≡ after_change number change.now node.old.agent) }
    ensures same { OnErr result (node.new.agent ≡ node.old.agent) }
{
    match after {
        Some(after) => node.deliver_with(alloc, number, change, after),
        None => node.deliver(alloc, number, change),
    }
}

// Puts in place what was made ready for a host, where it doesn't hold the version.
fn settle_one(node: &mut AgentNode, ready: ReadyNode, version: u64)
    requires name { ready.name ≡ node.old.agent.name }
    requires tags { ready.old ≡ node.old.agent.tables.tags }
    requires version { ready.version ≡ version }
    ensures { node.new.agent ≡ after_settle version ready.rows node.old.agent }
{
    if node.held() != Some(version) {
        node.put(ready);
    }
}

/// Puts in place at each host what was made ready for it, where it doesn't hold the version.
pub(crate) fn settle_all(nodes: &mut [AgentNode], ready: Vec<ReadyNode>, version: u64)
    requires each { AreFor ready.items nodes.old }
    requires version { Each (λ (r : Ready). r.version ≡ version) ready.items }
    ensures { agents_of nodes.new ≡ settle_each version ready.items (agents_of nodes.old) }
{
    let mut left = ready.into_iter();
    for node in nodes.iter_mut() {
        if let Some(ready) = left.next() {
            settle_one(node, ready, version);
        }
    }
}

/// Makes room at each host for the entries of one event.
pub(crate) fn reserve_all(alloc: Global, nodes: &mut [AgentNode]) -> Result<(), OutOfMemory>
    ensures same { agents_of nodes.new ≡ agents_of nodes.old }
    ensures spare { OnOk result (Each (λ (n : Node). 256 ≤ n.spare.entries) nodes.new) }
{
    for node in nodes.iter_mut() {
        node.reserve(alloc)?;
    }
    Ok(())
}

/// Adds at each host what it made.
pub(crate) fn keep_all(nodes: &mut [AgentNode], fresh: &[Made])
    requires room { Each (λ (n : Node). length fresh.now ≤ n.spare.entries) nodes.old }
    requires placed { Each IsAttached (with_made (map host_of (agents_of nodes.old)) fresh.now) }
    ensures { agents_of nodes.new ≡ add_from 0 (agents_of nodes.old) fresh.now }
{
    for (at, node) in nodes.iter_mut().enumerate() {
        add_made(node, at, fresh);
    }
}

// Adds what the host at this place made.
fn add_made(node: &mut AgentNode, at: usize, fresh: &[Made])
    requires room { length fresh.now ≤ node.old.spare.entries }
    requires placed { IsAttached
        (host_with node.old.agent
        (node.old.agent.entries ++ filter_map (made_at at) fresh.now)) }
    ensures { node.new.agent
        ≡ with_entries (node.old.agent.entries ++ filter_map (made_at at) fresh.now)
        node.old.agent }
{
    for made in fresh {
        if made.host == Some(at) {
            node.add(made.entry);
        }
    }
}

/// Adds these entries at the end.
pub(crate) fn add_entries(entries: &mut Entries, more: &[Entry]) -> Result<(), OutOfMemory>
    ensures { OnOk result (entries.new.items ≡ entries.old.items ++ more.now) }
{
    entries.reserve(more.len())?;
    for entry in more {
        entries.add(*entry);
    }
    Ok(())
}
