//! Security groups: default ones, those of ports, and rules that differ.

ghost use Rattle.std.specs.Prelude.{◌≡◌};
ghost use Rattle.std.specs.List.{list_any, list_all};
ghost use Rattle.api_types.specs.Lists.{if_some};
ghost use Rattle.api_types.specs.Consistent.InForm as in_form;
ghost use Rattle.api_types.specs.Consistent.Groups as grouping;
ghost use Rattle.api_clauses.specs.Groups as grouped;

use crate::clause::Clause;
use api_types::{GroupRow, PortRow, ProjectRow, Rows, RuleRow, Shared};
use net_addr::Text;

fn is_default_of(name: &Text, group: &GroupRow) -> bool
    ensures { result ≡ grouping.is_default_of name.now group.now }
{
    group.is_default && group.project == *name
}

fn has_one_default(groups: &[Shared<GroupRow>], project: &ProjectRow) -> bool
    ensures { result ≡ grouped.project_grouped groups.now project.now }
{
    groups
        .iter()
        .filter(|group| is_default_of(&project.name, group))
        .count()
        == 1
}

/// A project has exactly one default group. The cost grows with the groups.
pub struct GroupedProject;

impl Clause for GroupedProject {
    type Row = ProjectRow;

    const RULE: u8 = 11;

    ghost RULE = { 11 };

    ghost test = { λ rows. grouped.project_grouped rows.groups };

    fn meets(rows: &Rows, project: &ProjectRow) -> bool {
        has_one_default(rows.groups().rows(), project)
    }
}

fn are_its_groups(rows: &Rows, port: &PortRow) -> bool
    ensures { result
        ≡ list_all (in_form.is_group_of rows.now.groups port.now.project) port.now.groups }
{
    port.groups
        .iter()
        .all(|group| rows.is_group_of(&port.project, *group))
}

/// The groups of a port are its project's, and a port without port security has neither groups nor
/// pairs. The cost grows with the port's groups times all groups.
pub struct GroupedPort;

impl Clause for GroupedPort {
    type Row = PortRow;

    const RULE: u8 = 11;

    ghost RULE = { 11 };

    ghost test = { λ rows. grouped.port_grouped rows.groups };

    fn meets(rows: &Rows, port: &PortRow) -> bool {
        are_its_groups(rows, port)
            && (port.secured || (port.groups.is_empty() && port.pairs.is_empty()))
    }
}

fn same_match(a: &RuleRow, b: &RuleRow) -> bool
    ensures { result ≡ grouping.same_match a.now b.now }
{
    a.protocol == b.protocol
        && a.low == b.low
        && a.high == b.high
        && a.remote_prefix == b.remote_prefix
        && a.remote_group == b.remote_group
}

fn same_rule(a: &RuleRow, b: &RuleRow) -> bool
    ensures { result ≡ grouping.same_rule a.now b.now }
{
    a.group == b.group
        && (a.project == b.project
            && (a.direction == b.direction && (a.ethertype == b.ethertype && same_match(a, b))))
}

fn rules_clash(a: &RuleRow, b: &RuleRow) -> bool
    ensures { result ≡ grouping.rules_clash a.now b.now }
{
    a.id != b.id && same_rule(a, b)
}

fn stands_twice(rules: &[Shared<RuleRow>], rule: &RuleRow) -> bool
    ensures { result ≡ list_any (grouping.rules_clash rule.now) rules.now }
{
    rules.iter().any(|other| rules_clash(rule, other))
}

fn is_its_remote(rows: &Rows, rule: &RuleRow) -> bool
    ensures { result
        ≡ if_some (in_form.is_group_of rows.now.groups rule.now.project) rule.now.remote_group }
{
    match rule.remote_group {
        Some(group) => rows.is_group_of(&rule.project, group),
        None => true,
    }
}

/// The remote group of a rule is its project's, and no other rule of its group says the same. The
/// cost grows with the groups and the rules.
pub struct GroupedRule;

impl Clause for GroupedRule {
    type Row = RuleRow;

    const RULE: u8 = 11;

    ghost RULE = { 11 };

    ghost test = { λ rows. grouped.rule_grouped rows.groups rows.rules };

    fn meets(rows: &Rows, rule: &RuleRow) -> bool {
        is_its_remote(rows, rule) && !stands_twice(rows.rules().rows(), rule)
    }
}
