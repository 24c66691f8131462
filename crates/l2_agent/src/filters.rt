//! The table `filters`: the rules of each secured tap.

ghost use Rattle.std.specs.Prelude.{◌≡◌, ◌==◌, ◌||◌, ◌++◌, ◌<◌, ◌≤◌, ℕ, IfNone, IfOk, IfSome, OnOk, false, flat_map, length, map, slice_index_or as get_or, true};
ghost use Rattle.std.specs.BTreeSet.{contains};
ghost use Rattle.std.specs.List.{filter_map};
ghost use Rattle.std.specs.Ordering.{nat_cmp};
ghost use Rattle.api_types.specs.declared.group.GroupRow.{GroupRow as TheGroup};
ghost use Rattle.plane_types.specs.TableRows.{filter_by, filter_of as filter_of_rule, filter_rows as filter_rows_of, filters_of, filters_of_group};
ghost use Rattle.l2_agent.specs.Indices.{is_named};

use crate::ruled::Ruled;
use crate::taps::is_tap;
use api_types::{GroupRow, Id, PortRow, Rows, RuleRow, Shared};
use net_addr::{OutOfMemory, Seq, Text};
use plane_types::FilterRow;
use std::alloc::Global;
use std::collections::BTreeSet;

fn filter_of(port: &PortRow, rule: &RuleRow) -> FilterRow
    ensures { result ≡ filter_of_rule port.now rule.now }
{
    FilterRow {
        port: port.id,
        direction: rule.direction,
        ethertype: rule.ethertype,
        protocol: rule.protocol,
        low: rule.low,
        high: rule.high,
        remote_prefix: rule.remote_prefix,
        remote_group: rule.remote_group,
    }
}

// Adds a row for each of these rules.
fn add_rules(
    filters: &mut Seq<FilterRow>,
    port: &PortRow,
    rules: &[&RuleRow],
) -> Result<(), OutOfMemory>
    ensures { OnOk result
        (filters.new ≡ filters.old ++ map (filter_of_rule port.now) (map (λ r. r.now) rules.now)) }
{
    for rule in rules {
        // for the proof: a value of the prefix's type is at hand before a row with one is pushed
        let _prefix = rule.remote_prefix;
        filters.push(filter_of(port, rule))?;
    }
    Ok(())
}

// Adds the rows of a group's rules.
#[tactic(auto, using(crate::proofs::RuledLemmas::rows_of_rules))]
fn add_group(
    filters: &mut Seq<FilterRow>,
    ruled: &Ruled,
    port: &PortRow,
    group: &GroupRow,
) -> Result<(), OutOfMemory>
    ensures { OnOk result
        (filters.new ≡ filters.old ++ filter_map (filter_by port.now group.now) ruled.now.rules) }
{
    match ruled.rules_of(group.id) {
        Some(rules) => add_rules(filters, port, rules.as_slice()),
        None => Ok(()),
    }
}

// Adds an index.
fn mark(indices: &mut BTreeSet<usize>, place: usize) -> Result<(), OutOfMemory>
    ensures { OnOk result
        ((p : ℕ)
        → contains nat_cmp indices.new p ≡ ((place == p) || contains nat_cmp indices.old p)) }
{
    indices.insert(place)?;
    Ok(())
}

// Takes the least index out.
fn take_least(indices: &mut BTreeSet<usize>) -> Option<usize>
    ensures none { IfNone result ((p : ℕ) → contains nat_cmp indices.old p ≡ false) }
    ensures member { IfSome result (λ k. contains nat_cmp indices.old k ≡ true) }
    ensures least { IfSome result (λ k. (p : ℕ) → p < k → contains nat_cmp indices.old p ≡ false) }
    ensures gone { IfSome result (λ k. (p : ℕ) → p ≤ k → contains nat_cmp indices.new p ≡ false) }
    ensures rest { IfSome result
        (λ k. (p : ℕ) → k < p → contains nat_cmp indices.new p ≡ contains nat_cmp indices.old p) }
    ensures fewer { IfSome result (λ k. length indices.new.keys < length indices.old.keys) }
{
    indices.pop_first()
}

// The indices of the groups with these ids.
fn places_named(alloc: Global, ruled: &Ruled, ids: &[Id]) -> Result<BTreeSet<usize>, OutOfMemory>
    ensures { IfOk result
        (λ s. (p : ℕ) → contains nat_cmp s p ≡ is_named ruled.now.groups ids.now p) }
{
    let mut indices = BTreeSet::new(alloc);
    let mut left = ids.len();
    while left > 0 {
        left -= 1;
        if let Some(place) = ruled.index_of(ids[left]) {
            mark(&mut indices, place)?;
        }
    }
    Ok(indices)
}

fn group_at(groups: &[Shared<GroupRow>], place: usize) -> &GroupRow
    requires { place < length groups.now }
    ensures { (d : TheGroup) → result.now ≡ get_or groups.now place d }
{
    groups[place].get()
}

// Adds the rows of the groups that a port names, whose indices these are.
fn add_groups(
    filters: &mut Seq<FilterRow>,
    ruled: &Ruled,
    port: &PortRow,
    indices: BTreeSet<usize>,
) -> Result<(), OutOfMemory>
    requires { (p : ℕ) → contains nat_cmp indices p ≡ is_named ruled.now.groups port.now.groups p }
    ensures { OnOk result
        (filters.new
        ≡ filters.old ++ flat_map (filters_of_group ruled.now port.now) ruled.now.groups) }
{
    let groups = ruled.rows().groups().rows();
    let mut indices = indices;
    while let Some(place) = take_least(&mut indices) {
        add_group(filters, ruled, port, group_at(groups, place))?;
    }
    Ok(())
}

// Adds the rows of a port, where it is a secured tap here.
fn add_port(
    alloc: Global,
    filters: &mut Seq<FilterRow>,
    ruled: &Ruled,
    host: &Text,
    port: &PortRow,
) -> Result<(), OutOfMemory>
    ensures { OnOk result (filters.new ≡ filters.old ++ filters_of ruled.now host.now port.now) }
{
    if !(is_tap(ruled.rows(), host, port) && port.secured) {
        return Ok(());
    }
    let indices = places_named(alloc, ruled, port.groups.as_slice())?;
    add_groups(filters, ruled, port, indices)
}

// Adds the rows of all ports.
fn add_ports(
    alloc: Global,
    filters: &mut Seq<FilterRow>,
    ruled: &Ruled,
    host: &Text,
) -> Result<(), OutOfMemory>
    ensures { OnOk result
        (filters.new ≡ filters.old ++ flat_map (filters_of ruled.now host.now) ruled.now.ports) }
{
    for port in ruled.rows().ports().rows() {
        add_port(alloc, filters, ruled, host, port)?;
    }
    Ok(())
}

/// A row for each rule of each group of each secured tap. Its cost grows with the ports, the groups
/// and the rules, with the groups that a tap names and the logarithm of their number, and with the
/// rows.
#[tactic(auto, unfolding(plane_types::specs::TableRows::filter_rows))]
pub(crate) fn filter_rows(
    alloc: Global,
    rows: &Rows,
    host: &Text,
) -> Result<Seq<FilterRow>, OutOfMemory>
    ensures { IfOk result (λ f. f ≡ filter_rows_of rows.now host.now) }
{
    let ruled = Ruled::of(alloc, rows)?;
    let mut filters = Seq::new(alloc);
    add_ports(alloc, &mut filters, &ruled, host)?;
    Ok(filters)
}
