//! What policies permit, and next hops that are reached.

ghost use Rattle.std.specs.Prelude.{◌≡◌, ◌&&◌};
ghost use Rattle.std.specs.List.{list_any, list_all};
ghost use Rattle.net_addr.specs.Prefixes.{contains};
ghost use Rattle.api_types.specs.Owners as owners;
ghost use Rattle.api_types.specs.Sharing.{is_external_to};
ghost use Rattle.api_types.specs.Consistent.Access as access;
ghost use Rattle.api_types.specs.Consistent.Permitted as permitted;
ghost use Rattle.api_types.specs.Consistent.NextHops as next_hops;
ghost use Rattle.api_clauses.specs.Permits as permits;

use crate::clause::Clause;
use api_types::{FloatingRow, Hop, PolicyRow, PortRow, RouterRow, Rows, Shared, SubnetRow};
use net_addr::Addr;

/// A port may be on its network: its project is empty, an administrator marked it, or the network
/// is its project's or shared with it. The cost grows with the networks and the policies.
pub struct AllowedPort;

impl Clause for AllowedPort {
    type Row = PortRow;

    const RULE: u8 = 12;

    ghost RULE = { 12 };

    ghost test = { λ rows. access.may_be_there rows.networks rows.policies };

    fn meets(rows: &Rows, port: &PortRow) -> bool {
        port.project.is_empty()
            || (port.by_admin
                || (rows.is_shared_with(port.network, &port.project)
                    || rows.is_network_of(&port.project, port.network)))
    }
}

/// The network of a router's gateway is external to its project. The cost grows with the policies.
pub struct PermittedRouter;

impl Clause for PermittedRouter {
    type Row = RouterRow;

    const RULE: u8 = 13;

    ghost RULE = { 13 };

    ghost test = { λ rows. permits.router_permitted rows.policies };

    fn meets(rows: &Rows, router: &RouterRow) -> bool {
        match router.gateway {
            Some(gateway) => rows.is_external_to(gateway.network, &router.project),
            None => true,
        }
    }
}

/// The network of a floating address is external to its project. The cost grows with the policies.
pub struct PermittedFloating;

impl Clause for PermittedFloating {
    type Row = FloatingRow;

    const RULE: u8 = 13;

    ghost RULE = { 13 };

    ghost test = { λ rows r. is_external_to rows.policies r.network r.project };

    fn meets(rows: &Rows, floating: &FloatingRow) -> bool {
        rows.is_external_to(floating.network, &floating.project)
    }
}

fn same_policy(a: &PolicyRow, b: &PolicyRow) -> bool
    ensures { result ≡ permitted.same_policy a.now b.now }
{
    a.object == b.object && (a.action == b.action && a.target == b.target)
}

fn is_policy_once(policies: &[Shared<PolicyRow>], policy: &PolicyRow) -> bool
    ensures { result ≡ permits.policy_alone policies.now policy.now }
{
    policies
        .iter()
        .filter(|other| same_policy(policy, other))
        .count()
        <= 1
}

/// No other policy has the same network, action and target. The cost grows with the policies.
pub struct OnlyPolicy;

impl Clause for OnlyPolicy {
    type Row = PolicyRow;

    const RULE: u8 = 13;

    ghost RULE = { 13 };

    ghost test = { λ rows. permits.policy_alone rows.policies };

    fn meets(rows: &Rows, policy: &PolicyRow) -> bool {
        is_policy_once(rows.policies().rows(), policy)
    }
}

fn reaches(subnets: &[Shared<SubnetRow>], port: &PortRow, next: &Addr) -> bool
    ensures { result
        ≡ list_any (λ s. owners.holds_in s.id port.now && contains s.prefix next.now) subnets.now }
{
    subnets.iter().any(|subnet| port.holds_in(subnet.id) && subnet.prefix.contains(*next))
}

fn is_way(subnets: &[Shared<SubnetRow>], router: &RouterRow, hop: &Hop, port: &PortRow) -> bool
    ensures { result
        ≡ (owners.is_port_of router.now port.now
        && list_any (λ s. owners.holds_in s.id port.now && contains s.prefix hop.now.next)
        subnets.now) }
{
    port.is_of(router) && reaches(subnets, port, &hop.next)
}

fn is_reached(rows: &Rows, router: &RouterRow, hop: &Hop) -> bool
    ensures { result ≡ next_hops.is_reached rows.now.subnets rows.now.ports router.now hop.now }
{
    let subnets = rows.subnets().rows();
    rows.ports()
        .rows()
        .iter()
        .any(|port| is_way(subnets, router, hop, port))
}

fn are_reached(rows: &Rows, router: &RouterRow) -> bool
    ensures { result
        ≡ list_all (next_hops.is_reached rows.now.subnets rows.now.ports router.now)
        router.now.routes }
{
    router
        .routes
        .iter()
        .all(|hop| is_reached(rows, router, hop))
}

/// The next hop of each extra route lies in a subnet in which a port of the router holds an
/// address. The cost grows with the routes times ports times subnets.
pub struct ReachedRoutes;

impl Clause for ReachedRoutes {
    type Row = RouterRow;

    const RULE: u8 = 14;

    ghost RULE = { 14 };

    ghost test = { λ rows r. list_all (next_hops.is_reached rows.subnets rows.ports r) r.routes };

    fn meets(rows: &Rows, router: &RouterRow) -> bool {
        are_reached(rows, router)
    }
}
