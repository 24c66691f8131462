//! Clause 2: what a row names is there.

ghost use Rattle.std.specs.Prelude.{◌≡◌};
ghost use Rattle.std.specs.List.{list_all};
ghost use Rattle.api_types.specs.Lists.{if_some};
ghost use Rattle.api_types.specs.Consistent.Named as named;
ghost use Rattle.api_clauses.specs.Names as tests;
ghost use Rattle.api_consistency.specs.Keys as keys;

use crate::known::Known;
use crate::looked::{has, has_project};
use api_types::{
    Fixed, FloatingRow, Gateway, PolicyRow, PortRow, RouterRow, Rows, RuleRow, SubnetRow, Target,
};

fn are_networks_named(rows: &Rows) -> bool
    ensures { result
        ≡ list_all (λ n. named.is_registered rows.now.projects n.project) rows.now.networks }
{
    rows.networks()
        .rows()
        .iter()
        .all(|network| has_project(rows, network.id, &network.project))
}

fn is_named_subnet(rows: &Rows, subnet: &SubnetRow) -> bool
    ensures { result ≡ tests.subnet_named rows.now subnet.now }
{
    has(rows.networks(), subnet.network) && has_project(rows, subnet.id, &subnet.project)
}

fn are_subnets_named(rows: &Rows) -> bool
    ensures { result ≡ list_all (tests.subnet_named rows.now) rows.now.subnets }
{
    rows.subnets()
        .rows()
        .iter()
        .all(|subnet| is_named_subnet(rows, subnet))
}

#[tactic(auto, using(crate::proofs::FoundLemmas::found_so, crate::proofs::FoundLemmas::not_found_so))]
fn names_subnet(rows: &Rows, port: &PortRow, fixed: &Fixed) -> bool
    ensures { result ≡ named.names_subnet rows.now.subnets port.now fixed.now }
{
    let _own_ids = rows.subnets().rows();
    match rows.subnets().get(fixed.subnet) {
        Some(subnet) => subnet.network == port.network,
        None => false,
    }
}

fn names_subnets(rows: &Rows, port: &PortRow) -> bool
    ensures { result ≡ list_all (named.names_subnet rows.now.subnets port.now) port.now.fixed }
{
    port.fixed
        .iter()
        .all(|fixed| names_subnet(rows, port, fixed))
}

fn names_groups(rows: &Rows, port: &PortRow) -> bool
    ensures { result ≡ list_all (named.is_group rows.now.groups) port.now.groups }
{
    port.groups.iter().all(|group| has(rows.groups(), *group))
}

fn is_of_project(known: &Known, port: &PortRow) -> bool
    ensures { result
        ≡ named.port_project_stands known.now.projects known.now.floatings port.now }
{
    if port.is_gateway() || known.is_own_port(port) {
        return port.project.is_empty();
    }
    has_project(known.rows(), port.id, &port.project)
}

fn is_named_port(known: &Known, port: &PortRow) -> bool
    ensures { result ≡ tests.port_named known.now port.now }
{
    let rows = known.rows();
    has(rows.networks(), port.network)
        && (names_subnets(rows, port) && (names_groups(rows, port) && is_of_project(known, port)))
}

fn are_ports_named(known: &Known) -> bool
    ensures { result ≡ list_all (tests.port_named known.now) known.now.ports }
{
    known
        .rows()
        .ports()
        .rows()
        .iter()
        .all(|port| is_named_port(known, port))
}

fn are_groups_named(rows: &Rows) -> bool
    ensures { result
        ≡ list_all (λ g. named.is_registered rows.now.projects g.project) rows.now.groups }
{
    rows.groups()
        .rows()
        .iter()
        .all(|group| has_project(rows, group.id, &group.project))
}

fn is_named_rule(rows: &Rows, rule: &RuleRow) -> bool
    ensures { result ≡ tests.rule_named rows.now rule.now }
{
    let remote = match rule.remote_group {
        Some(group) => has(rows.groups(), group),
        None => true,
    };
    has(rows.groups(), rule.group) && (remote && has_project(rows, rule.id, &rule.project))
}

fn are_rules_named(rows: &Rows) -> bool
    ensures { result ≡ list_all (tests.rule_named rows.now) rows.now.rules }
{
    rows.rules()
        .rows()
        .iter()
        .all(|rule| is_named_rule(rows, rule))
}

fn is_named_gateway(rows: &Rows, gateway: &Option<Gateway>) -> bool
    ensures { result ≡ if_some (tests.gateway_named rows.now) gateway.now }
{
    match gateway {
        Some(gateway) => has(rows.networks(), gateway.network) && has(rows.ports(), gateway.port),
        None => true,
    }
}

fn is_named_router(rows: &Rows, router: &RouterRow) -> bool
    ensures { result ≡ tests.router_named rows.now router.now }
{
    is_named_gateway(rows, &router.gateway) && has_project(rows, router.id, &router.project)
}

fn are_routers_named(rows: &Rows) -> bool
    ensures { result ≡ list_all (tests.router_named rows.now) rows.now.routers }
{
    rows.routers()
        .rows()
        .iter()
        .all(|router| is_named_router(rows, router))
}

fn is_named_target(rows: &Rows, target: &Option<Target>) -> bool
    ensures { result ≡ if_some (tests.target_named rows.now) target.now }
{
    match target {
        Some(target) => has(rows.ports(), target.port) && has(rows.routers(), target.router),
        None => true,
    }
}

fn is_named_floating(rows: &Rows, floating: &FloatingRow) -> bool
    ensures { result ≡ tests.floating_named rows.now floating.now }
{
    has(rows.networks(), floating.network)
        && (has(rows.ports(), floating.own_port)
            && (is_named_target(rows, &floating.target)
                && has_project(rows, floating.id, &floating.project)))
}

fn are_floatings_named(rows: &Rows) -> bool
    ensures { result ≡ list_all (tests.floating_named rows.now) rows.now.floatings }
{
    rows.floatings()
        .rows()
        .iter()
        .all(|floating| is_named_floating(rows, floating))
}

fn is_named_policy(rows: &Rows, policy: &PolicyRow) -> bool
    ensures { result ≡ tests.policy_named rows.now policy.now }
{
    has(rows.networks(), policy.object) && has_project(rows, policy.id, &policy.project)
}

fn are_policies_named(rows: &Rows) -> bool
    ensures { result ≡ list_all (tests.policy_named rows.now) rows.now.policies }
{
    rows.policies()
        .rows()
        .iter()
        .all(|policy| is_named_policy(rows, policy))
}

/// Whether each row that another one names is there, and so is each row's project. Its cost grows
/// with the rows, and for each row whose project didn't draw its id with the projects.
pub(crate) fn are_named(known: &Known) -> bool
    ensures { result ≡ keys.names_stand known.now }
{
    let rows = known.rows();
    are_networks_named(rows)
        && (are_subnets_named(rows)
            && (are_ports_named(known)
                && (are_groups_named(rows)
                    && (are_rules_named(rows)
                        && (are_routers_named(rows)
                            && (are_floatings_named(rows) && are_policies_named(rows)))))))
}
