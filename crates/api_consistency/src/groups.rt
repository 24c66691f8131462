//! Clause 11: groups and rules.

ghost use Rattle.std.specs.Prelude.{◌≡◌, ◌≤◌, ℕ, List, IfOk, count_by, map, not, true};
ghost use Rattle.std.specs.List.{list_all, list_any, filter_map};
ghost use Rattle.api_types.specs.Lists.{Pass, if_some};
ghost use Rattle.api_types.specs.Consistent.Groups as serving;
ghost use Rattle.api_types.specs.Consistent.Groups.{GroupsServe};
ghost use Rattle.api_types.specs.Consistent.InForm as in_form;
ghost use Rattle.api_clauses.specs.Groups as tests;
ghost use Rattle.api_consistency.specs.Keys as keys;

use crate::known::Known;
use crate::looked::is_group_of;
use crate::numbers::{address_number, id_number, mix, single, text_number};
use crate::stretch::{Stretch, are_apart};
use api_types::{Direction, Ethertype, GroupRow, Id, PortRow, ProjectRow, Rows, RuleRow, Shared};
use net_addr::{OutOfMemory, Prefix, Text};
use std::alloc::Global;

fn default_of(group: &GroupRow) -> Option<Stretch>
    ensures { result ≡ keys.of_default group.now }
{
    if group.is_default {
        Some(single(0, text_number(&group.project)))
    } else {
        None
    }
}

fn defaults_of(alloc: Global, groups: &[Shared<GroupRow>]) -> Result<Vec<Stretch>, OutOfMemory>
    ensures { IfOk result (λ v. v.items ≡ filter_map keys.of_default groups.now) }
{
    let mut defaults = Vec::new(alloc);
    for group in groups {
        if let Some(default) = default_of(group) {
            defaults.push(default)?;
        }
    }
    Ok(defaults)
}

fn is_default_of(name: &Text, group: &GroupRow) -> bool
    ensures { result ≡ serving.is_default_of name.now group.now }
{
    group.is_default && group.project == *name
}

// A project's group `default` takes its first id.
#[tactic(auto, using(crate::proofs::FoundLemmas::found_any))]
fn has_first_default(rows: &Rows, project: &ProjectRow) -> bool
    ensures { result ≡ true
        → list_any (serving.is_default_of project.now.name) rows.now.groups ≡ true }
{
    match rows.groups().get(Id::make(project.ordinal, 1)) {
        Some(group) => is_default_of(&project.name, group),
        None => false,
    }
}

fn has_any_default(groups: &[Shared<GroupRow>], name: &Text) -> bool
    ensures { result ≡ list_any (serving.is_default_of name.now) groups.now }
{
    groups.iter().any(|group| is_default_of(name, group))
}

#[tactic(auto, using(crate::proofs::FoundLemmas::first_or))]
fn has_default(rows: &Rows, project: &ProjectRow) -> bool
    ensures { result ≡ list_any (serving.is_default_of project.now.name) rows.now.groups }
{
    has_first_default(rows, project) || has_any_default(rows.groups().rows(), &project.name)
}

fn have_defaults(rows: &Rows) -> bool
    ensures { result
        ≡ list_all (λ p. list_any (serving.is_default_of p.name) rows.now.groups)
        rows.now.projects }
{
    rows.projects()
        .rows()
        .iter()
        .all(|project| has_default(rows, project))
}

fn are_its_groups(rows: &Rows, port: &PortRow) -> bool
    ensures { result
        ≡ list_all (in_form.is_group_of rows.now.groups port.now.project) port.now.groups }
{
    port.groups
        .iter()
        .all(|group| is_group_of(rows, &port.project, *group))
}

fn is_grouped(rows: &Rows, port: &PortRow) -> bool
    ensures { result ≡ tests.port_grouped rows.now.groups port.now }
{
    are_its_groups(rows, port)
        && (port.secured || (port.groups.is_empty() && port.pairs.is_empty()))
}

fn are_grouped(rows: &Rows) -> bool
    ensures { result ≡ list_all (tests.port_grouped rows.now.groups) rows.now.ports }
{
    rows.ports()
        .rows()
        .iter()
        .all(|port| is_grouped(rows, port))
}

fn is_its_remote(rows: &Rows, rule: &RuleRow) -> bool
    ensures { result
        ≡ if_some (in_form.is_group_of rows.now.groups rule.now.project) rule.now.remote_group }
{
    match rule.remote_group {
        Some(group) => is_group_of(rows, &rule.project, group),
        None => true,
    }
}

fn are_its_remotes(rows: &Rows) -> bool
    ensures { result
        ≡ list_all (λ r. if_some (in_form.is_group_of rows.now.groups r.project) r.remote_group)
        rows.now.rules }
{
    rows.rules()
        .rows()
        .iter()
        .all(|rule| is_its_remote(rows, rule))
}

fn group_number(group: Option<Id>) -> u128
    ensures { result ≡ keys.group_number group }
{
    match group {
        Some(group) => 1 + id_number(group),
        None => 0,
    }
}

fn kinds_number(direction: Direction, ethertype: Ethertype) -> u128
    ensures { result ≡ keys.kinds_number direction ethertype }
{
    match (direction, ethertype) {
        (Direction::Ingress, Ethertype::Ipv4) => 0,
        (Direction::Ingress, Ethertype::Ipv6) => 1,
        (Direction::Egress, Ethertype::Ipv4) => 2,
        (Direction::Egress, Ethertype::Ipv6) => 3,
    }
}

fn protocol_number(protocol: Option<u8>) -> u128
    ensures { result ≡ keys.some_number protocol }
{
    match protocol {
        Some(protocol) => 1 + u128::from(protocol),
        None => 0,
    }
}

fn bound_number(bound: Option<u16>) -> u128
    ensures { result ≡ keys.some_number bound }
{
    match bound {
        Some(bound) => 1 + u128::from(bound),
        None => 0,
    }
}

fn length_number(prefix: &Option<Prefix>) -> u128
    ensures { result ≡ keys.length_number prefix.now }
{
    match prefix {
        Some(prefix) => 1 + u128::from(prefix.len),
        None => 0,
    }
}

fn base_number(prefix: &Option<Prefix>) -> u128
    ensures { result ≡ keys.base_number prefix.now }
{
    match prefix {
        Some(prefix) => address_number(&prefix.base),
        None => 0,
    }
}

// What a rule says of packets, in its group.
fn stretch_of(rule: &RuleRow) -> Stretch
    ensures { result ≡ keys.of_rule rule.now }
{
    let kinds = mix(0, kinds_number(rule.direction, rule.ethertype));
    let low = mix(
        mix(kinds, protocol_number(rule.protocol)),
        bound_number(rule.low),
    );
    let length = mix(
        mix(low, bound_number(rule.high)),
        length_number(&rule.remote_prefix),
    );
    let base = mix(length, base_number(&rule.remote_prefix));
    single(
        id_number(rule.group),
        mix(base, group_number(rule.remote_group)),
    )
}

fn rules_of(alloc: Global, rules: &[Shared<RuleRow>]) -> Result<Vec<Stretch>, OutOfMemory>
    ensures { IfOk result (λ v. v.items ≡ map keys.of_rule rules.now) }
{
    let mut stretches = Vec::new(alloc);
    for rule in rules {
        stretches.push(stretch_of(rule))?;
    }
    Ok(stretches)
}

fn are_defaults_once(alloc: Global, known: &Known) -> Result<bool, OutOfMemory>
    ensures { IfOk result
        (λ b. b ≡ true
        → (name : List ℕ) → count_by (serving.is_default_of name) known.now.groups ≤ 1) }
{
    let defaults = defaults_of(alloc, known.groups())?;
    Ok(are_apart(defaults))
}

fn are_rules_apart(alloc: Global, known: &Known) -> Result<bool, OutOfMemory>
    ensures { IfOk result
        (λ b. b ≡ true
        → Pass (λ r. not (list_any (serving.rules_clash r) known.now.rules)) known.now.rules) }
{
    let stretches = rules_of(alloc, known.rules())?;
    Ok(are_apart(stretches))
}

fn are_used(known: &Known) -> bool
    ensures { result ≡ keys.are_groups_used known.now }
{
    let rows = known.rows();
    have_defaults(rows) && (are_grouped(rows) && are_its_remotes(rows))
}

/// Whether each project has its one default group, groups are used within their project, and no
/// rule stands twice in a group. Its cost grows with the ports, the groups, the rules and the
/// logarithm of their number.
pub(crate) fn are_groups(alloc: Global, known: &Known) -> Result<bool, OutOfMemory>
    ensures { IfOk result
        (λ b. b ≡ true
        → GroupsServe known.now.projects known.now.ports known.now.groups known.now.rules) }
{
    if !are_used(known) {
        return Ok(false);
    }
    if !are_defaults_once(alloc, known)? {
        return Ok(false);
    }
    are_rules_apart(alloc, known)
}
