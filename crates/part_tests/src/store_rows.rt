//! Rows of stores: the default group, a policy of an external network, and a port that goes.
use api_types::{Action, GroupRow, Item, Kind, PolicyRow, Row, Rows};
use net_addr::{Copies, OutOfMemory, Seq, Text};
use std::alloc::Global;
use test_rows::{group, policy};

/// The group `default` of a project.
pub(crate) fn default_group(alloc: Global, n: u8, project: &str) -> Result<GroupRow, OutOfMemory> {
    let mut group = group(alloc, n, "default")?;
    group.project = Text::of(alloc, project)?;
    group.is_default = true;
    Ok(group)
}

/// A policy of the project a that makes a network external to all.
pub(crate) fn external(alloc: Global, n: u8, network: u8) -> Result<PolicyRow, OutOfMemory> {
    policy(alloc, n, network, Action::External, "*")
}

/// Takes out the port at a place, where there is one.
pub(crate) fn take_port(alloc: Global, rows: &mut Rows, place: usize) -> Result<(), OutOfMemory> {
    let port = match rows.ports().rows().get(place) {
        Some(port) => port.get().copy(alloc)?,
        None => return Ok(()),
    };
    let mut change = Seq::new(alloc);
    change.push(Item {
        kind: Kind::Port,
        place,
        before: Some(Row::Port(port)),
        after: None,
    })?;
    rows.apply_change(alloc, &change)
}
