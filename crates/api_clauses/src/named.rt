//! Rows, all of whose names lead to rows that are there.

ghost use Rattle.std.specs.Prelude.{◌≡◌};
ghost use Rattle.std.specs.List.{list_all};
ghost use Rattle.api_types.specs.Lists.{if_some};
ghost use Rattle.api_types.specs.Consistent.Named as named;
ghost use Rattle.api_clauses.specs.Names as names;

use crate::clause::Clause;
use crate::words::{has, is_registered};
use api_types::{
    Fixed, FloatingRow, Gateway, GroupRow, NetworkRow, PolicyRow, PortRow, RouterRow, Rows,
    RuleRow, Shared, SubnetRow, Target,
};

/// The project of a network is registered. The cost grows with the projects.
pub struct NamedNetwork;

impl Clause for NamedNetwork {
    type Row = NetworkRow;

    const RULE: u8 = 2;

    ghost RULE = { 2 };

    ghost test = { λ rows r. named.is_registered rows.projects r.project };

    fn meets(rows: &Rows, network: &NetworkRow) -> bool {
        is_registered(rows.projects().rows(), &network.project)
    }
}

/// The network that a subnet names is there, and its project registered. The cost grows with the
/// projects.
pub struct NamedSubnet;

impl Clause for NamedSubnet {
    type Row = SubnetRow;

    const RULE: u8 = 2;

    ghost RULE = { 2 };

    ghost test = { names.subnet_named };

    fn meets(rows: &Rows, subnet: &SubnetRow) -> bool {
        has(rows.networks(), subnet.network)
            && is_registered(rows.projects().rows(), &subnet.project)
    }
}

fn names_subnet(subnets: &[Shared<SubnetRow>], port: &PortRow, fixed: &Fixed) -> bool
    ensures { result ≡ named.names_subnet subnets.now port.now fixed.now }
{
    subnets.iter().any(|subnet| fixed.subnet == subnet.id && subnet.network == port.network)
}

fn names_subnets(subnets: &[Shared<SubnetRow>], port: &PortRow) -> bool
    ensures { result ≡ list_all (named.names_subnet subnets.now port.now) port.now.fixed }
{
    port.fixed
        .iter()
        .all(|fixed| names_subnet(subnets, port, fixed))
}

fn names_groups(rows: &Rows, port: &PortRow) -> bool
    ensures { result ≡ list_all (named.is_group rows.now.groups) port.now.groups }
{
    port.groups.iter().all(|group| has(rows.groups(), *group))
}

fn has_project(rows: &Rows, port: &PortRow) -> bool
    ensures { result ≡ named.port_project_stands rows.now.projects rows.now.floatings port.now }
{
    if port.is_gateway() || rows.is_own_port(port) {
        return port.project.is_empty();
    }
    is_registered(rows.projects().rows(), &port.project)
}

/// What a port names is there: its network, its groups, of each address a subnet of that network,
/// and its project, where a gateway port and a floating address's own port have the empty one. The
/// cost grows with its addresses times the subnets, with the projects and the floating addresses.
pub struct NamedPort;

impl Clause for NamedPort {
    type Row = PortRow;

    const RULE: u8 = 2;

    ghost RULE = { 2 };

    ghost test = { names.port_named };

    fn meets(rows: &Rows, port: &PortRow) -> bool {
        has(rows.networks(), port.network)
            && (names_subnets(rows.subnets().rows(), port)
                && (names_groups(rows, port) && has_project(rows, port)))
    }
}

/// The project of a group is registered. The cost grows with the projects.
pub struct NamedGroup;

impl Clause for NamedGroup {
    type Row = GroupRow;

    const RULE: u8 = 2;

    ghost RULE = { 2 };

    ghost test = { λ rows r. named.is_registered rows.projects r.project };

    fn meets(rows: &Rows, group: &GroupRow) -> bool {
        is_registered(rows.projects().rows(), &group.project)
    }
}

/// The groups that a rule names are there, and its project registered. The cost grows with the
/// projects.
pub struct NamedRule;

impl Clause for NamedRule {
    type Row = RuleRow;

    const RULE: u8 = 2;

    ghost RULE = { 2 };

    ghost test = { names.rule_named };

    fn meets(rows: &Rows, rule: &RuleRow) -> bool {
        let remote = match rule.remote_group {
            Some(group) => has(rows.groups(), group),
            None => true,
        };
        has(rows.groups(), rule.group)
            && (remote && is_registered(rows.projects().rows(), &rule.project))
    }
}

fn is_named_gateway(rows: &Rows, gateway: &Option<Gateway>) -> bool
    ensures { result ≡ if_some (names.gateway_named rows.now) gateway.now }
{
    match gateway {
        Some(gateway) => has(rows.networks(), gateway.network) && has(rows.ports(), gateway.port),
        None => true,
    }
}

/// The network and the port of a router's gateway are there, and its project registered. The cost
/// grows with the projects.
pub struct NamedRouter;

impl Clause for NamedRouter {
    type Row = RouterRow;

    const RULE: u8 = 2;

    ghost RULE = { 2 };

    ghost test = { names.router_named };

    fn meets(rows: &Rows, router: &RouterRow) -> bool {
        is_named_gateway(rows, &router.gateway)
            && is_registered(rows.projects().rows(), &router.project)
    }
}

fn is_named_target(rows: &Rows, target: &Option<Target>) -> bool
    ensures { result ≡ if_some (names.target_named rows.now) target.now }
{
    match target {
        Some(target) => has(rows.ports(), target.port) && has(rows.routers(), target.router),
        None => true,
    }
}

/// What a floating address names is there: its network, its own port, the port and the router of
/// its target, and its project. The cost grows with the projects.
pub struct NamedFloating;

impl Clause for NamedFloating {
    type Row = FloatingRow;

    const RULE: u8 = 2;

    ghost RULE = { 2 };

    ghost test = { names.floating_named };

    fn meets(rows: &Rows, floating: &FloatingRow) -> bool {
        has(rows.networks(), floating.network)
            && (has(rows.ports(), floating.own_port)
                && (is_named_target(rows, &floating.target)
                    && is_registered(rows.projects().rows(), &floating.project)))
    }
}

/// The network of a policy is there, and the project that owns it registered. The cost grows with
/// the projects.
pub struct NamedPolicy;

impl Clause for NamedPolicy {
    type Row = PolicyRow;

    const RULE: u8 = 2;

    ghost RULE = { 2 };

    ghost test = { names.policy_named };

    fn meets(rows: &Rows, policy: &PolicyRow) -> bool {
        has(rows.networks(), policy.object)
            && is_registered(rows.projects().rows(), &policy.project)
    }
}
