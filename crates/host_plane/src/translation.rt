//! Translation entries: those that a packet answers, and ports that are free.

ghost use Rattle.std.specs.Prelude.{◌≡◌, ◌<◌, ◌||◌, ◌++◌, ℕ, Some, false, find, if◌then◌else◌, option_map, slice_index_or};
ghost use Rattle.std.specs.List.{filter_map};
ghost use Rattle.plane_types.specs.Keys.{key_eq};
ghost use Rattle.plane_types.specs.Routing.{Use as TheUse, answers as answers_to, is_taken as taken, least_untaken as first_untaken, new_port as new_port_of, uses_at, uses_by};
ghost use Rattle.plane_types.specs.Parts.{packet_of, use_if, use_of};

use api_types::Id;
use net_addr::Addr4;
use plane_types::{Entry, Key, Packet, RouterTable, Use, is_key, use_of_entry};

// The first of these entries, of the router and with the outer address, that answers to a packet.
fn answer_among(entries: &[Entry], router: Id, outer: Addr4, packet: &Packet) -> Option<Use>
    ensures { option_map use_of result
        ≡ find (answers_to (Some outer) (packet_of packet.now))
        (filter_map (use_if router outer) entries.now) }
{
    for entry in entries {
        if let Some(valid) = use_of_entry(router, outer, entry) {
            if valid.answers(outer, packet) {
                return Some(valid);
            }
        }
    }
    None
}

// The first of these entries with the key.
fn key_among(entries: &[Entry], router: Id, outer: Addr4, key: &Key) -> Option<Use>
    ensures { option_map use_of result
        ≡ find (λ (u : TheUse). key_eq u.key key.now)
        (filter_map (use_if router outer) entries.now) }
{
    for entry in entries {
        if let Some(valid) = use_of_entry(router, outer, entry) {
            if is_key(&valid.key, key) {
                return Some(valid);
            }
        }
    }
    None
}

// Whether one of these entries with the kind and far end of the key has the port.
fn taken_among(entries: &[Entry], router: Id, outer: Addr4, key: &Key, port: u16) -> bool
    ensures { result ≡ taken (filter_map (use_if router outer) entries.now) key.now port }
{
    for entry in entries {
        if let Some(valid) = use_of_entry(router, outer, entry) {
            if valid.takes(key, port) {
                return true;
            }
        }
    }
    false
}

/// The first valid entry of the router that answers to a packet: with its gateway address, where it
/// translates. Its cost grows with the entries.
#[tactic(auto, using(crate::proofs::UseLists::find_both))]
pub(crate) fn answer(
    entries: &[Entry],
    fresh: &[Entry],
    router: &RouterTable,
    packet: &Packet,
) -> Option<Use>
    ensures { option_map use_of result
        ≡ find (answers_to router.now.gateway (packet_of packet.now))
        (uses_by router.now.snat router.now.gateway router.now.router
        (entries.now ++ fresh.now)) }
{
    if !router.snat {
        return None;
    }
    let outer = router.gateway?;
    match answer_among(entries, router.router, outer, packet) {
        Some(found) => Some(found),
        None => answer_among(fresh, router.router, outer, packet),
    }
}

/// The first entry of the router with the outer address and the key. Its cost grows with the
/// entries.
#[tactic(auto, using(crate::proofs::UseLists::find_both))]
pub(crate) fn with_key(
    entries: &[Entry],
    fresh: &[Entry],
    router: Id,
    outer: Addr4,
    key: &Key,
) -> Option<Use>
    ensures { option_map use_of result
        ≡ find (λ (u : TheUse). key_eq u.key key.now)
        (uses_at router outer (entries.now ++ fresh.now)) }
{
    match key_among(entries, router, outer, key) {
        Some(found) => Some(found),
        None => key_among(fresh, router, outer, key),
    }
}

// Whether an entry with the kind and far end of the key has the port.
#[tactic(auto, using(crate::proofs::UseLists::taken_both))]
fn is_taken(
    entries: &[Entry],
    fresh: &[Entry],
    router: Id,
    outer: Addr4,
    key: &Key,
    port: u16,
) -> bool
    ensures { result ≡ taken (uses_at router outer (entries.now ++ fresh.now)) key.now port }
{
    taken_among(entries, router, outer, key, port) || taken_among(fresh, router, outer, key, port)
}

// Marks, in one pass, the ports of those entries that have the kind and far end of the key.
fn mark(marks: &mut [bool; 65_536], entries: &[Entry], router: Id, outer: Addr4, key: &Key)
    ensures { (port : ℕ) → port < 65536
        → slice_index_or marks.new port false
        ≡ (slice_index_or marks.old port false
        || taken (filter_map (use_if router outer) entries.now) key.now port) }
{
    for entry in entries {
        if let Some(valid) = use_of_entry(router, outer, entry) {
            if valid.takes(key, valid.port) {
                marks[valid.port as usize] = true;
            }
        }
    }
}

// Marks the ports that are taken.
fn mark_all(
    marks: &mut [bool; 65_536],
    entries: &[Entry],
    fresh: &[Entry],
    router: Id,
    outer: Addr4,
    key: &Key,
)
    ensures { (port : ℕ) → port < 65536
        → slice_index_or marks.new port false
        ≡ (slice_index_or marks.old port false
        || taken (uses_at router outer (entries.now ++ fresh.now)) key.now port) }
{
    mark(marks, entries, router, outer, key);
    mark(marks, fresh, router, outer, key);
}

// The least port from 1,024 on that isn't taken. Its cost grows with the entries plus the ports up
// to it, over a table of marks on the stack, for which only a call of this one pays.
#[inline(never)]
fn least_untaken(
    entries: &[Entry],
    fresh: &[Entry],
    router: Id,
    outer: Addr4,
    key: &Key,
) -> Option<u16>
    ensures { result
        ≡ first_untaken (uses_at router outer (entries.now ++ fresh.now)) key.now 64512 1024 }
{
    let mut marks = [false; 65_536];
    mark_all(&mut marks, entries, fresh, router, outer, key);
    for place in 0..64_512 {
        let port = 1024 + place;
        if !marks[port as usize] {
            return Some(port);
        }
    }
    None
}

/// The outer port of a new entry: the same port where it isn't taken, otherwise, for TCP, UDP and
/// echoes, the least one from 1,024 on that isn't. Its cost grows with the entries; where the same
/// port is taken, a table of marks for all ports is cleared too, and looked at up to the free one.
#[tactic(auto, unfolding(plane_types::specs::Routing::new_port))]
pub(crate) fn new_port(
    entries: &[Entry],
    fresh: &[Entry],
    router: Id,
    outer: Addr4,
    key: &Key,
) -> Option<u16>
    ensures { result ≡ new_port_of (uses_at router outer (entries.now ++ fresh.now)) key.now }
{
    if !is_taken(entries, fresh, router, outer, key, key.sport) {
        return Some(key.sport);
    }
    if key.kind.has_choice() {
        least_untaken(entries, fresh, router, outer, key)
    } else {
        None
    }
}
