//! The valid translation entries of a router.

ghost use Rattle.std.specs.Prelude.{◌≡◌, ◌<◌, ◌||◌, ◌++◌, ℕ, IfOk, OnOk, Some, false, find, map, option_map, slice_index_or};
ghost use Rattle.std.specs.List.{filter_map};
ghost use Rattle.plane_types.specs.Keys.{key_eq};
ghost use Rattle.api_types.specs.RouterRows.{gateway_address as gateway_by_rows, has_snat};
ghost use Rattle.plane_types.specs.Routing.{Use as TheUse, answers as answers_to, is_taken as taken, least_untaken as first_untaken, new_port as new_port_of, uses_by};
ghost use Rattle.plane_types.specs.Parts.{packet_of, use_if, use_of};

use api_types::{Id, RouterRow, Rows};
use net_addr::{Addr4, OutOfMemory};
use plane_rows::gateway_address;
use plane_types::{Entry, Key, Packet, Use, is_key, use_of_entry};
use std::alloc::Global;

/// Whether the router translates sources.
pub(crate) fn translates(router: &RouterRow) -> bool
    ensures { result ≡ has_snat router.now.gateway }
{
    match router.gateway {
        Some(gateway) => gateway.snat,
        None => false,
    }
}

// Adds the router's entries with this outer address.
fn add_uses(
    uses: &mut Vec<Use>,
    router: Id,
    outer: Addr4,
    entries: &[Entry],
) -> Result<(), OutOfMemory>
    ensures { OnOk result
        (map use_of uses.new.items
        ≡ map use_of uses.old.items ++ filter_map (use_if router outer) entries.now) }
{
    for entry in entries {
        if let Some(valid) = use_of_entry(router, outer, entry) {
            uses.push(valid)?;
        }
    }
    Ok(())
}

/// The router's valid translation entries: those with the current gateway address, where sources
/// are translated now. Its cost grows with the entries.
#[tactic(auto, using(plane_types::proofs::UseLemmas::uses_of_both))]
pub(crate) fn valid_uses(
    alloc: Global,
    rows: &Rows,
    router: &RouterRow,
    entries: &[Entry],
    fresh: &[Entry],
) -> Result<Vec<Use>, OutOfMemory>
    ensures { IfOk result
        (λ v. map use_of v.items
        ≡ uses_by (has_snat router.now.gateway) (gateway_by_rows rows.now router.now)
        router.now.id (entries.now ++ fresh.now)) }
{
    let mut uses = Vec::new(alloc);
    if !translates(router) {
        return Ok(uses);
    }
    if let Some(outer) = gateway_address(rows, router) {
        add_uses(&mut uses, router.id, outer, entries)?;
        add_uses(&mut uses, router.id, outer, fresh)?;
    }
    Ok(uses)
}

/// The first entry, with this outer address, that answers to a packet.
pub(crate) fn answering(uses: &[Use], outer: Addr4, packet: &Packet) -> Option<Use>
    ensures { option_map use_of result
        ≡ find (answers_to (Some outer) (packet_of packet.now)) (map use_of uses.now) }
{
    for entry in uses {
        if entry.answers(outer, packet) {
            return Some(*entry);
        }
    }
    None
}

/// The first entry with this key.
pub(crate) fn with_key(uses: &[Use], key: &Key) -> Option<Use>
    ensures { option_map use_of result
        ≡ find (λ (u : TheUse). key_eq u.key key.now) (map use_of uses.now) }
{
    for entry in uses {
        if is_key(&entry.key, key) {
            return Some(*entry);
        }
    }
    None
}

// Whether an entry with the same kind and far end has the port.
fn is_taken(uses: &[Use], key: &Key, port: u16) -> bool
    ensures { result ≡ taken (map use_of uses.now) key.now port }
{
    for entry in uses {
        if entry.takes(key, port) {
            return true;
        }
    }
    false
}

// Marks, in one pass, the ports of those entries that have the kind and far end of the key.
fn mark(marks: &mut [bool; 65_536], uses: &[Use], key: &Key)
    ensures { (port : ℕ) → port < 65536
        → slice_index_or marks.new port false
        ≡ (slice_index_or marks.old port false || taken (map use_of uses.now) key.now port) }
{
    for entry in uses {
        if entry.takes(key, entry.port) {
            marks[entry.port as usize] = true;
        }
    }
}

// The least port from 1,024 on that isn't taken. Its cost grows with the entries plus the ports up
// to it, over a table of marks on the stack, for which only a call of this one pays.
#[inline(never)]
fn least_untaken(uses: &[Use], key: &Key) -> Option<u16>
    ensures { result ≡ first_untaken (map use_of uses.now) key.now 64512 1024 }
{
    let mut marks = [false; 65_536];
    mark(&mut marks, uses, key);
    for place in 0..64_512 {
        let port = 1024 + place;
        if !marks[port as usize] {
            return Some(port);
        }
    }
    None
}

/// The outer port of a new entry: the same port where it isn't taken, otherwise, for TCP, UDP and
/// echoes, the least one from 1,024 on that isn't. Its cost grows with the entries; where the same
/// port is taken, a table of marks for all ports is cleared too, and looked at up to the free one.
#[tactic(auto, unfolding(plane_types::specs::Routing::new_port))]
pub(crate) fn new_port(uses: &[Use], key: &Key) -> Option<u16>
    ensures { result ≡ new_port_of (map use_of uses.now) key.now }
{
    if !is_taken(uses, key, key.sport) {
        return Some(key.sport);
    }
    if key.kind.has_choice() {
        least_untaken(uses, key)
    } else {
        None
    }
}
