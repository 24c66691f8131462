//! Flows: whether one is tracked, and new ones.

ghost use Rattle.std.specs.Prelude.{◌≡◌, ◌++◌, option_to_list};
ghost use Rattle.plane_types.specs.Entries.{has_flow as flow_is_there, is_flow as is_this_flow, opposite as other_way};
ghost use Rattle.plane_types.specs.Passage.{new_flow as flow_if_new};

use crate::entry::Entry;
use crate::frame::Key;
use crate::key::is_key;
use api_types::{Direction, Id};

/// Whether a packet passes a filter, and the flow that it makes.
#[derive(Clone, Copy)]
pub struct Passage {
    pub passes: bool,
    pub made: Option<Entry>,
}

/// The other direction.
pub fn opposite(direction: Direction) -> Direction
    ensures { result ≡ other_way direction }
{
    match direction {
        Direction::Ingress => Direction::Egress,
        Direction::Egress => Direction::Ingress,
    }
}

fn is_flow(entry: &Entry, port: Id, direction: Direction, key: &Key) -> bool
    ensures { result ≡ is_this_flow port direction key.now entry.now }
{
    match entry {
        Entry::Flow {
            port: of,
            direction: way,
            key: with,
        } => port == *of && direction == *way && is_key(key, with),
        Entry::Snat { .. } => false,
    }
}

fn has_flow(entries: &[Entry], port: Id, direction: Direction, key: &Key) -> bool
    ensures { result ≡ flow_is_there entries.now port direction key.now }
{
    entries
        .iter()
        .any(|entry| is_flow(entry, port, direction, key))
}

/// Whether a flow is there, among the entries that were there or those that are fresh. Its cost
/// grows with the entries.
pub fn is_tracked(
    entries: &[Entry],
    fresh: &[Entry],
    port: Id,
    direction: Direction,
    key: &Key,
) -> bool
    ensures { result ≡ flow_is_there (entries.now ++ fresh.now) port direction key.now }
{
    has_flow(entries, port, direction, key) || has_flow(fresh, port, direction, key)
}

/// A flow, unless an equal one is there. Its cost grows with the entries.
pub fn new_flow(
    entries: &[Entry],
    fresh: &[Entry],
    port: Id,
    direction: Direction,
    key: Key,
) -> Option<Entry>
    ensures { option_to_list result ≡ flow_if_new (entries.now ++ fresh.now) port direction key }
{
    if is_tracked(entries, fresh, port, direction, &key) {
        return None;
    }
    Some(Entry::Flow {
        port,
        direction,
        key,
    })
}
