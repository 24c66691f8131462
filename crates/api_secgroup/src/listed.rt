//! The prefixes of a group's members, ascending and each once.

ghost use Rattle.std.specs.Prelude.{◌≡◌, ◌++◌, IfOk, OnOk, flat_map, map};
ghost use Rattle.net_addr.specs.Ordered.{whole_prefix};
ghost use Rattle.api_types.specs.declared.port.Fixed.{Fixed as TheFixed};
ghost use Rattle.api_types.specs.declared.port.Pair.{Pair as ThePair};
ghost use Rattle.api_types.specs.Ascending as ascending_specs;
ghost use Rattle.api_types.specs.Members.{once};
ghost use Rattle.api_secgroup.specs.Named.{given_by};
ghost use Rattle.api_secgroup.specs.Repeats as repeats;

use api_types::{Fixed, Pair, PortRow, ascending};
use net_addr::{OutOfMemory, Prefix, Prefixes, Seq};
use std::alloc::Global;

// Whether the first of these is the prefix.
fn begins_with(sorted: &[Prefix], prefix: &Prefix) -> bool
    ensures { result ≡ repeats.begins_with prefix.now sorted.now }
{
    match sorted.first() {
        Some(other) => prefix.base == other.base && prefix.len == other.len,
        None => false,
    }
}

// Of neighbours that are the same, the last.
#[tactic(auto, unfolding(crate::specs::Repeats::without_repeats))]
fn without_repeats(alloc: Global, sorted: &[Prefix]) -> Result<Vec<Prefix>, OutOfMemory>
    ensures { IfOk result (λ v. v.items ≡ repeats.without_repeats sorted.now) }
{
    let mut kept = Vec::new(alloc);
    let mut rest = sorted;
    while let Some((prefix, others)) = rest.split_first() {
        if !begins_with(others, prefix) {
            kept.push(*prefix)?;
        }
        rest = others;
    }
    Ok(kept)
}

// In ascending order, each once.
#[tactic(auto, using(crate::proofs::MemberLemmas::each_once))]
fn sorted_once(alloc: Global, prefixes: Vec<Prefix>) -> Result<Vec<Prefix>, OutOfMemory>
    ensures { IfOk result (λ v. v.items
        ≡ ascending_specs.ascending ascending_specs.prefix_before (once prefixes.items)) }
{
    let sorted = ascending(prefixes)?;
    without_repeats(alloc, sorted.as_slice())
}

// Adds a prefix for each address of a port.
fn add_addresses(prefixes: &mut Vec<Prefix>, fixed: &[Fixed]) -> Result<(), OutOfMemory>
    ensures { OnOk result
        (prefixes.new.items
        ≡ prefixes.old.items ++ map (λ (f : TheFixed). whole_prefix f.address) fixed.now) }
{
    for held in fixed {
        prefixes.push(held.address.whole_prefix())?;
    }
    Ok(())
}

// Adds the prefix of each pair of a port.
fn add_pairs(prefixes: &mut Vec<Prefix>, pairs: &[Pair]) -> Result<(), OutOfMemory>
    ensures { OnOk result
        (prefixes.new.items ≡ prefixes.old.items ++ map (λ (x : ThePair). x.prefix) pairs.now) }
{
    for pair in pairs {
        prefixes.push(pair.prefix)?;
    }
    Ok(())
}

// Adds the prefixes that a port gives to its groups.
fn add_prefixes(prefixes: &mut Vec<Prefix>, port: &PortRow) -> Result<(), OutOfMemory>
    ensures { OnOk result (prefixes.new.items ≡ prefixes.old.items ++ given_by port.now) }
{
    add_addresses(prefixes, port.fixed.as_slice())?;
    add_pairs(prefixes, port.pairs.as_slice())
}

// The prefixes that ports give to a group that they name.
fn prefixes_of_all(alloc: Global, ports: &[&PortRow]) -> Result<Vec<Prefix>, OutOfMemory>
    ensures { IfOk result (λ v. v.items ≡ flat_map given_by (map (λ p. p.now) ports.now)) }
{
    let mut prefixes = Vec::new(alloc);
    for port in ports {
        add_prefixes(&mut prefixes, port)?;
    }
    Ok(prefixes)
}

/// What ports that name a group make its members: in ascending order and each once, their fixed
/// addresses, as prefixes of their whole length, and the prefixes of their allowed pairs. Its cost
/// grows with what they hold and are allowed, and the logarithm of that number.
pub(crate) fn members_by(alloc: Global, ports: &[&PortRow]) -> Result<Prefixes, OutOfMemory>
    ensures { IfOk result
        (λ p. p ≡ ascending_specs.ascending ascending_specs.prefix_before
        (once (flat_map given_by (map (λ p. p.now) ports.now)))) }
{
    let all = prefixes_of_all(alloc, ports)?;
    Ok(Seq::from_vec(sorted_once(alloc, all)?))
}
