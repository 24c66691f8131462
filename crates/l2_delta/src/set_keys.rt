//! Keys of the table `sets` at which a row may go or is to stand.

ghost use Rattle.std.specs.Prelude.{◌≡◌, ◌++◌, ◌||◌, IfOk, OnOk, Some, flat_map, map};
ghost use Rattle.std.specs.List.{filter, filter_map, list_any};
ghost use Rattle.net_addr.specs.Ordered.{whole_prefix};
ghost use Rattle.api_types.specs.Consistent.Groups.{prefix_eq};
ghost use Rattle.api_types.specs.Members.{prefixes_of};
ghost use Rattle.api_types.specs.declared.port.Fixed.{Fixed as TheFixed};
ghost use Rattle.api_types.specs.declared.port.Pair.{Pair as ThePair};
ghost use Rattle.l2_delta.specs.SetKeys.{given_to, gives_prefix, is_given as is_given_by_rows, keys_at, may_go, prefix_in, prefixes_in as prefixes_by_rows, to_stand};
ghost use Rattle.l2_delta.specs.TouchedSets.{going_keys, standing_keys};

use crate::named_sets::NumberedSet;
use api_types::{Fixed, Id, Pair, PortRow, Shared};
use net_addr::{OutOfMemory, Prefix};
use plane_types::SetRow;
use std::alloc::Global;

// Adds a prefix for each address.
fn add_addresses(prefixes: &mut Vec<Prefix>, fixed: &[Fixed]) -> Result<(), OutOfMemory>
    ensures { OnOk result
        (prefixes.new.items
        ≡ prefixes.old.items ++ map (λ (f : TheFixed). whole_prefix f.address) fixed.now) }
{
    for held in fixed {
        prefixes.push(held.address.whole_prefix())?;
    }
    Ok(())
}

// Adds the prefix of each pair.
fn add_pairs(prefixes: &mut Vec<Prefix>, pairs: &[Pair]) -> Result<(), OutOfMemory>
    ensures { OnOk result
        (prefixes.new.items ≡ prefixes.old.items ++ map (λ (x : ThePair). x.prefix) pairs.now) }
{
    for pair in pairs {
        prefixes.push(pair.prefix)?;
    }
    Ok(())
}

// Adds what a port gives to a group.
fn add_given(prefixes: &mut Vec<Prefix>, port: &PortRow, group: Id) -> Result<(), OutOfMemory>
    ensures { OnOk result
        (prefixes.new.items ≡ prefixes.old.items ++ prefixes_of group port.now) }
{
    if !port.names_group(group) {
        return Ok(());
    }
    add_addresses(prefixes, port.fixed.as_slice())?;
    add_pairs(prefixes, port.pairs.as_slice())
}

// Adds what some ports give to a group.
fn add_given_by(
    prefixes: &mut Vec<Prefix>,
    ports: &[&PortRow],
    group: Id,
) -> Result<(), OutOfMemory>
    ensures { OnOk result
        (prefixes.new.items
        ≡ prefixes.old.items ++ flat_map (prefixes_of group) (map (λ p. p.now) ports.now)) }
{
    for port in ports {
        add_given(prefixes, port, group)?;
    }
    Ok(())
}

// What some ports give to a group.
fn given_by(
    alloc: Global,
    ports: &[&PortRow],
    group: Option<Id>,
) -> Result<Vec<Prefix>, OutOfMemory>
    ensures { IfOk result (λ v. v.items ≡ given_to (map (λ p. p.now) ports.now) group) }
{
    let mut prefixes = Vec::new(alloc);
    if let Some(group) = group {
        add_given_by(&mut prefixes, ports, group)?;
    }
    Ok(prefixes)
}

// Adds what all ports give to a group.
fn add_members(
    prefixes: &mut Vec<Prefix>,
    ports: &[Shared<PortRow>],
    group: Id,
) -> Result<(), OutOfMemory>
    ensures { OnOk result
        (prefixes.new.items ≡ prefixes.old.items ++ flat_map (prefixes_of group) ports.now) }
{
    for port in ports {
        add_given(prefixes, port.get(), group)?;
    }
    Ok(())
}

// What all ports give to a group.
fn members_of(
    alloc: Global,
    ports: &[Shared<PortRow>],
    group: Option<Id>,
) -> Result<Vec<Prefix>, OutOfMemory>
    ensures { IfOk result (λ v. v.items ≡ given_to ports.now group) }
{
    let mut prefixes = Vec::new(alloc);
    if let Some(group) = group {
        add_members(&mut prefixes, ports, group)?;
    }
    Ok(prefixes)
}

fn holds(fixed: &[Fixed], prefix: &Prefix) -> bool
    ensures { result
        ≡ list_any (λ (f : TheFixed). prefix_eq (whole_prefix f.address) prefix.now) fixed.now }
{
    fixed
        .iter()
        .any(|held| held.address.whole_prefix() == *prefix)
}

fn pairs_with(pairs: &[Pair], prefix: &Prefix) -> bool
    ensures { result ≡ list_any (λ (x : ThePair). prefix_eq x.prefix prefix.now) pairs.now }
{
    pairs.iter().any(|pair| pair.prefix == *prefix)
}

// Whether a port gives a prefix to a group.
fn gives(port: &PortRow, group: Id, prefix: &Prefix) -> bool
    ensures { result ≡ gives_prefix group prefix.now port.now }
{
    port.names_group(group)
        && (holds(port.fixed.as_slice(), prefix) || pairs_with(port.pairs.as_slice(), prefix))
}

// Whether one of these ports gives a prefix to a group.
fn is_given(ports: &[&PortRow], group: Id, prefix: &Prefix) -> bool
    ensures { result
        ≡ list_any (gives_prefix group prefix.now) (map (λ p. p.now) ports.now) }
{
    for port in ports {
        if gives(port, group, prefix) {
            return true;
        }
    }
    false
}

// Whether one of all ports does.
fn is_member(ports: &[Shared<PortRow>], group: Id, prefix: &Prefix) -> bool
    ensures { result ≡ list_any (gives_prefix group prefix.now) ports.now }
{
    ports.iter().any(|port| gives(port, group, prefix))
}

// Whether a prefix stands in the set of a group after the change. The ports of the change are asked
// first.
fn stands(ports: &[Shared<PortRow>], are: &[&PortRow], group: Id, prefix: &Prefix) -> bool
    ensures { result
        ≡ (is_given_by_rows (map (λ p. p.now) are.now) (Some group) prefix.now
        || is_given_by_rows ports.now (Some group) prefix.now) }
{
    is_given(are, group, prefix) || is_member(ports, group, prefix)
}

// Adds those of some prefixes that stand in the set of a group.
fn add_standing(
    prefixes: &mut Vec<Prefix>,
    ports: &[Shared<PortRow>],
    are: &[&PortRow],
    group: Id,
    given: &[Prefix],
) -> Result<(), OutOfMemory>
    ensures { OnOk result
        (prefixes.new.items
        ≡ prefixes.old.items
        ++ filter
        (λ p. is_given_by_rows (map (λ p. p.now) are.now) (Some group) p
        || is_given_by_rows ports.now (Some group) p)
        given.now) }
{
    for prefix in given {
        if stands(ports, are, group, prefix) {
            prefixes.push(*prefix)?;
        }
    }
    Ok(())
}

// Adds the prefixes of the rows of a group.
fn add_prefixes(prefixes: &mut Vec<Prefix>, sets: &[SetRow], group: Id) -> Result<(), OutOfMemory>
    ensures { OnOk result
        (prefixes.new.items ≡ prefixes.old.items ++ filter_map (prefix_in group) sets.now) }
{
    for row in sets {
        if group == row.group {
            prefixes.push(row.prefix)?;
        }
    }
    Ok(())
}

// The prefixes of the rows of a group.
fn prefixes_in(
    alloc: Global,
    sets: &[SetRow],
    group: Option<Id>,
) -> Result<Vec<Prefix>, OutOfMemory>
    ensures { IfOk result (λ v. v.items ≡ prefixes_by_rows sets.now group) }
{
    let mut prefixes = Vec::new(alloc);
    if let Some(group) = group {
        add_prefixes(&mut prefixes, sets, group)?;
    }
    Ok(prefixes)
}

// The prefixes at which a row of a set may go.
fn going(
    alloc: Global,
    sets: &[SetRow],
    were: &[&PortRow],
    set: &NumberedSet,
) -> Result<Vec<Prefix>, OutOfMemory>
    ensures { IfOk result
        (λ v. v.items
        ≡ may_go sets.now (map (λ p. p.now) were.now) set.now.before set.now.after) }
{
    if set.is_kept() {
        given_by(alloc, were, set.after)
    } else {
        prefixes_in(alloc, sets, set.before)
    }
}

// Of what the ports of the change give to a group, what stands after it.
fn kept_by(
    alloc: Global,
    ports: &[Shared<PortRow>],
    were: &[&PortRow],
    are: &[&PortRow],
    group: Id,
) -> Result<Vec<Prefix>, OutOfMemory>
    ensures { IfOk result
        (λ v. v.items
        ≡ flat_map (prefixes_of group) (map (λ p. p.now) are.now)
        ++ filter
        (λ p. is_given_by_rows (map (λ p. p.now) are.now) (Some group) p
        || is_given_by_rows ports.now (Some group) p)
        (flat_map (prefixes_of group) (map (λ p. p.now) were.now))) }
{
    let mut prefixes = Vec::new(alloc);
    add_given_by(&mut prefixes, are, group)?;
    let mut given = Vec::new(alloc);
    add_given_by(&mut given, were, group)?;
    add_standing(&mut prefixes, ports, are, group, given.as_slice())?;
    Ok(prefixes)
}

fn kept(
    alloc: Global,
    ports: &[Shared<PortRow>],
    were: &[&PortRow],
    are: &[&PortRow],
    group: Option<Id>,
) -> Result<Vec<Prefix>, OutOfMemory>
    ensures { IfOk result
        (λ v. v.items
        ≡ given_to (map (λ p. p.now) are.now) group
        ++ filter
        (λ p. is_given_by_rows (map (λ p. p.now) are.now) group p
        || is_given_by_rows ports.now group p)
        (given_to (map (λ p. p.now) were.now) group)) }
{
    match group {
        Some(group) => kept_by(alloc, ports, were, are, group),
        None => Ok(Vec::new(alloc)),
    }
}

// Those at which one is to stand.
fn standing(
    alloc: Global,
    ports: &[Shared<PortRow>],
    were: &[&PortRow],
    are: &[&PortRow],
    set: &NumberedSet,
) -> Result<Vec<Prefix>, OutOfMemory>
    ensures { IfOk result
        (λ v. v.items
        ≡ to_stand ports.now (map (λ p. p.now) were.now) (map (λ p. p.now) are.now)
        set.now.before set.now.after) }
{
    if set.is_kept() {
        kept(alloc, ports, were, are, set.after)
    } else {
        members_of(alloc, ports, set.after)
    }
}

// Adds the keys of these prefixes.
fn add_keys(
    keys: &mut Vec<(usize, Prefix)>,
    number: usize,
    prefixes: &[Prefix],
) -> Result<(), OutOfMemory>
    ensures { OnOk result (keys.new.items ≡ keys.old.items ++ keys_at number prefixes.now) }
{
    for prefix in prefixes {
        keys.push((number, *prefix))?;
    }
    Ok(())
}

// The keys at which a row of these sets may go.
pub(crate) fn keys_going(
    alloc: Global,
    sets: &[SetRow],
    were: &[&PortRow],
    touched: &[NumberedSet],
) -> Result<Vec<(usize, Prefix)>, OutOfMemory>
    ensures { IfOk result
        (λ v. v.items ≡ going_keys sets.now (map (λ p. p.now) were.now) touched.now) }
{
    let mut keys = Vec::new(alloc);
    for set in touched {
        let prefixes = going(alloc, sets, were, set)?;
        add_keys(&mut keys, set.number, prefixes.as_slice())?;
    }
    Ok(keys)
}

// Those at which one is to stand.
pub(crate) fn keys_standing(
    alloc: Global,
    ports: &[Shared<PortRow>],
    were: &[&PortRow],
    are: &[&PortRow],
    touched: &[NumberedSet],
) -> Result<Vec<(usize, Prefix)>, OutOfMemory>
    ensures { IfOk result
        (λ v. v.items
        ≡ standing_keys ports.now (map (λ p. p.now) were.now) (map (λ p. p.now) are.now)
        touched.now) }
{
    let mut keys = Vec::new(alloc);
    for set in touched {
        let prefixes = standing(alloc, ports, were, are, set)?;
        add_keys(&mut keys, set.number, prefixes.as_slice())?;
    }
    Ok(keys)
}
