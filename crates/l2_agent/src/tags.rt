//! The table `tags`: a local tag for each network here, kept from one wiring to the next.

ghost use Rattle.std.specs.Prelude.{◌≡◌, ◌==◌, ◌<◌, ◌≤◌, ◌&&◌, ◌||◌, ℕ, IfNone, IfOk, OnOk, nat_eq, option_map, true};
ghost use Rattle.std.specs.HashSet.{contains};
ghost use Rattle.std.specs.List.{list_any};
ghost use Rattle.api_types.specs.Ident.{Ident};
ghost use Rattle.api_types.specs.Live.{is_here as is_here_by_rows};
ghost use Rattle.api_types.specs.Table.{ident_eq};
ghost use Rattle.api_types.specs.declared.port.PortRow.{PortRow as ThePort};
ghost use Rattle.plane_types.specs.TableRows.{tag_of as tag_given};
ghost use Rattle.plane_types.specs.NewTags.{in_turn as given_in_turn, kept_tags as kept_of, next_tag as next_of, new_tags as retagged_by_rows, tagged_networks as tagged_by_rows};
ghost use Rattle.l2_agent.specs.Among.{ids_among};
ghost use Rattle.l2_agent.specs.Free.{free_from, is_left};

use crate::wires::wire_of;
use api_types::{Id, NetworkRow, PortRow, Rows};
use net_addr::{OutOfMemory, Seq, Text};
use plane_rows::is_here;
use plane_types::{TagMap, TagRow, Tags};
use std::alloc::Global;
use std::collections::HashSet;

// The first number that is no tag.
const BEHIND: u16 = 4095;

// Adds the network of a port, where that is live on the host.
fn add_network(
    networks: &mut HashSet<Id>,
    rows: &Rows,
    host: &Text,
    port: &PortRow,
) -> Result<(), OutOfMemory>
    ensures { OnOk result
        ((n : Ident)
        → contains ident_eq networks.new n
        ≡ (contains ident_eq networks.old n
        || (ident_eq n port.now.network
        && is_here_by_rows rows.now host.now port.now))) }
{
    if is_here(rows, host, port) {
        networks.insert(port.network)?;
    }
    Ok(())
}

// The networks of the live ports of the host.
fn networks_here(alloc: Global, rows: &Rows, host: &Text) -> Result<HashSet<Id>, OutOfMemory>
    ensures { IfOk result
        (λ s. (n : Ident)
        → contains ident_eq s n
        ≡ list_any
        (λ (p : ThePort). ident_eq n p.network && is_here_by_rows rows.now host.now p)
        rows.now.ports) }
{
    let mut networks = HashSet::new(alloc);
    for port in rows.ports().rows() {
        add_network(&mut networks, rows, host, port)?;
    }
    Ok(networks)
}

fn is_among(networks: &HashSet<Id>, network: &NetworkRow) -> bool
    ensures { result ≡ contains ident_eq networks.now network.now.id }
{
    networks.contains(&network.id)
}

// Those of the networks that are among these, in order of creation.
fn networks_among(
    alloc: Global,
    rows: &Rows,
    networks: &HashSet<Id>,
) -> Result<Vec<Id>, OutOfMemory>
    ensures { IfOk result (λ v. v.items ≡ ids_among networks.now rows.now.networks) }
{
    let mut ids = Vec::new(alloc);
    for network in rows.networks().rows() {
        if is_among(networks, network) {
            ids.push(network.id)?;
        }
    }
    Ok(ids)
}

// The networks that have a tag on the host, in order of creation.
#[tactic(auto, unfolding(plane_types::specs::NewTags::tagged_networks))]
fn find_tagged(alloc: Global, rows: &Rows, host: &Text) -> Result<Vec<Id>, OutOfMemory>
    ensures { IfOk result (λ v. v.items ≡ tagged_by_rows rows.now host.now) }
{
    let here = networks_here(alloc, rows, host)?;
    let ids = networks_among(alloc, rows, &here)?;
    Ok(ids)
}

// The tags that these networks had.
#[tactic(auto, unfolding(plane_types::specs::NewTags::kept_tags))]
fn kept_tags(alloc: Global, old: &TagMap, networks: &[Id]) -> Result<HashSet<u16>, OutOfMemory>
    ensures { IfOk result
        (λ s. (t : ℕ)
        → contains nat_eq s t ≡ list_any (λ k. k == t) (kept_of old.now networks.now)) }
{
    let mut kept = HashSet::new(alloc);
    let mut left = networks.len();
    while left > 0 {
        left -= 1;
        if let Some(tag) = old.tag_of(networks[left]) {
            kept.insert(tag)?;
        }
    }
    Ok(kept)
}

fn is_kept(kept: &HashSet<u16>, tag: u16) -> bool
    ensures { result ≡ contains nat_eq kept.now tag }
{
    kept.contains(&tag)
}

// The least number from this one on that isn't kept.
fn next_free(kept: &HashSet<u16>, from: u16) -> u16
    requires { from ≤ 4095 }
    ensures same { free_from kept.now from ≡ free_from kept.now result }
    ensures within { result ≤ 4095 }
    ensures free { result < 4095 → is_left kept.now result ≡ true }
{
    for tag in from..BEHIND {
        if !is_kept(kept, tag) {
            return tag;
        }
    }
    BEHIND
}

// The tag that the network had, otherwise the least that is free from a number on, and the number
// from which the free ones are then left.
fn next_tag(old: &TagMap, kept: &HashSet<u16>, network: Id, free: u16) -> (Option<u16>, u16)
    requires { free ≤ 4095 }
    ensures given { option_map (λ t. (t, free_from kept.now result.1)) result.0
        ≡ next_of (tag_given old.now network) (free_from kept.now free) }
    ensures none { IfNone result.0 (free_from kept.now result.1 ≡ free_from kept.now free) }
    ensures within { result.1 ≤ 4095 }
{
    if let Some(tag) = old.tag_of(network) {
        return (Some(tag), free);
    }
    let first = next_free(kept, free);
    if first < BEHIND {
        (Some(first), first + 1)
    } else {
        (None, first)
    }
}

// A row for each network: the tag that it had, otherwise the first one that is free then.
#[tactic(auto, unfolding(plane_types::specs::NewTags::in_turn))]
fn in_turn(
    alloc: Global,
    rows: &Rows,
    old: &TagMap,
    kept: &HashSet<u16>,
    networks: &[Id],
) -> Result<Tags, OutOfMemory>
    ensures { IfOk result
        (λ t. t ≡ given_in_turn rows.now old.now (free_from kept.now 1) networks.now) }
{
    let mut tags = Seq::new(alloc);
    let mut free = 1;
    for network in networks {
        let (tag, left) = next_tag(old, kept, *network, free);
        free = left;
        if let Some(tag) = tag {
            tags.push(TagRow {
                network: *network,
                tag,
                wire: wire_of(alloc, rows, *network)?,
            })?;
        }
    }
    Ok(tags)
}

/// The tags of a host. A network keeps the tag that it had, and the others take the least free
/// ones, in order of creation. Its cost grows with the networks, the ports and the old tags.
#[tactic(auto, unfolding(plane_types::specs::NewTags::new_tags))]
pub fn assign_tags(
    alloc: Global,
    rows: &Rows,
    host: &Text,
    old: &[TagRow],
) -> Result<Tags, OutOfMemory>
    ensures { IfOk result (λ t. t ≡ retagged_by_rows rows.now host.now old.now) }
{
    let networks = find_tagged(alloc, rows, host)?;
    let old = TagMap::of(alloc, old)?;
    let kept = kept_tags(alloc, &old, networks.as_slice())?;
    let tags = in_turn(alloc, rows, &old, &kept, networks.as_slice())?;
    Ok(tags)
}
