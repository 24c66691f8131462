//! Clauses 12, 13 and 14: networks that may be used, and next hops that are reached.

ghost use Rattle.std.specs.Prelude.{◌≡◌, ◌≤◌, ◌&&◌, ◌||◌, IfOk, count_by, map, true};
ghost use Rattle.std.specs.List.{list_all, list_any};
ghost use Rattle.net_addr.specs.Prefixes.{contains};
ghost use Rattle.api_types.specs.Owners as owners;
ghost use Rattle.api_types.specs.Sharing as sharing;
ghost use Rattle.api_types.specs.Consistent.InForm as in_form;
ghost use Rattle.api_types.specs.Consistent.Access as access;
ghost use Rattle.api_types.specs.Consistent.Permitted.{OutsidesAreAllowed, same_policy};
ghost use Rattle.api_types.specs.Consistent.NextHops as hops;
ghost use Rattle.api_types.specs.declared.policy.PolicyRow.{PolicyRow as ThePolicy};
ghost use Rattle.api_clauses.specs.Permits as tests;
ghost use Rattle.api_consistency.specs.Keys as keys;

use crate::known::Known;
use crate::looked::is_network_of;
use crate::meeting::each_meets;
use crate::numbers::{id_number, mix, single, text_number};
use crate::stretch::{Stretch, are_apart};
use api_clauses::{Clause, PermittedFloating, PermittedRouter, ReachedRoutes};
use api_types::{Action, Hop, Id, PolicyRow, PortRow, RouterRow, Rows, Shared};
use net_addr::OutOfMemory;
use std::alloc::Global;

// Whether a network is a project's, or shared with it. The cheaper test comes first.
#[tactic(auto, using(crate::proofs::FoundLemmas::or_true, crate::proofs::FoundLemmas::or_none))]
fn may_use(rows: &Rows, port: &PortRow) -> bool
    ensures { result
        ≡ (sharing.is_shared_with rows.now.policies port.now.network port.now.project
        || in_form.is_network_of rows.now.networks port.now.project port.now.network) }
{
    if is_network_of(rows, &port.project, port.network) {
        return true;
    }
    rows.is_shared_with(port.network, &port.project)
}

fn may_be_there(rows: &Rows, port: &PortRow) -> bool
    ensures { result ≡ access.may_be_there rows.now.networks rows.now.policies port.now }
{
    port.project.is_empty() || (port.by_admin || may_use(rows, port))
}

/// Whether each port is on a network that its project may use. Its cost grows with the ports, and
/// for each port on a network that isn't its project's with the policies.
pub(crate) fn are_allowed(rows: &Rows) -> bool
    ensures { result
        ≡ list_all (access.may_be_there rows.now.networks rows.now.policies) rows.now.ports }
{
    rows.ports()
        .rows()
        .iter()
        .all(|port| may_be_there(rows, port))
}

fn action_number(action: Action) -> u128
    ensures { result ≡ keys.action_number action }
{
    match action {
        Action::Shared => 0,
        Action::External => 1,
    }
}

// What a policy permits, on its network.
fn stretch_of(policy: &PolicyRow) -> Stretch
    ensures { result ≡ keys.of_policy policy.now }
{
    let action = mix(0, action_number(policy.action));
    single(
        id_number(policy.object),
        mix(action, text_number(&policy.target)),
    )
}

fn policies_of(alloc: Global, policies: &[Shared<PolicyRow>]) -> Result<Vec<Stretch>, OutOfMemory>
    ensures { IfOk result (λ v. v.items ≡ map keys.of_policy policies.now) }
{
    let mut stretches = Vec::new(alloc);
    for policy in policies {
        stretches.push(stretch_of(policy))?;
    }
    Ok(stretches)
}

fn are_policies_once(alloc: Global, known: &Known) -> Result<bool, OutOfMemory>
    ensures { IfOk result
        (λ b. b ≡ true → (p : ThePolicy) → count_by (same_policy p) known.now.policies ≤ 1) }
{
    let stretches = policies_of(alloc, known.policies())?;
    Ok(are_apart(stretches))
}

fn are_permitted(known: &Known) -> bool
    ensures { result
        ≡ (list_all (tests.router_permitted known.now.policies) known.now.routers
        && list_all (λ f. sharing.is_external_to known.now.policies f.network f.project)
        known.now.floatings) }
{
    each_meets::<PermittedRouter>(known.rows()) && each_meets::<PermittedFloating>(known.rows())
}

/// Whether gateways and floating addresses are on networks that are external to their project, and
/// no policy stands twice. Its cost grows with the policies and the logarithm of their number, and
/// for each gateway and each floating address with the policies.
pub(crate) fn are_outsides(alloc: Global, known: &Known) -> Result<bool, OutOfMemory>
    ensures { IfOk result
        (λ b. b ≡ true
        → OutsidesAreAllowed known.now.routers known.now.floatings known.now.policies) }
{
    if !are_permitted(known) {
        return Ok(false);
    }
    are_policies_once(alloc, known)
}

#[tactic(auto, using(crate::proofs::FoundLemmas::found_any))]
fn is_in(rows: &Rows, port: &PortRow, hop: &Hop, subnet: Id) -> bool
    ensures { result ≡ true
        → list_any (λ s. owners.holds_in s.id port.now && contains s.prefix hop.now.next)
        rows.now.subnets ≡ true }
{
    match rows.subnets().get(subnet) {
        Some(subnet) => port.holds_in(subnet.id) && subnet.prefix.contains(hop.next),
        None => false,
    }
}

fn is_there(rows: &Rows, port: &PortRow, hop: &Hop) -> bool
    ensures { result ≡ true
        → list_any (λ s. owners.holds_in s.id port.now && contains s.prefix hop.now.next)
        rows.now.subnets ≡ true }
{
    for fixed in port.fixed.as_slice() {
        if is_in(rows, port, hop, fixed.subnet) {
            return true;
        }
    }
    false
}

fn is_way(rows: &Rows, router: &RouterRow, hop: &Hop, port: &PortRow) -> bool
    ensures { result ≡ true
        → (owners.is_port_of router.now port.now
        && list_any (λ s. owners.holds_in s.id port.now && contains s.prefix hop.now.next)
        rows.now.subnets) ≡ true }
{
    port.is_of(router) && is_there(rows, port, hop)
}

#[tactic(auto, using(crate::proofs::FoundLemmas::place_any))]
fn is_way_at(rows: &Rows, router: &RouterRow, hop: &Hop, place: usize) -> bool
    ensures { result ≡ true
        → hops.is_reached rows.now.subnets rows.now.ports router.now hop.now ≡ true }
{
    match rows.ports().rows().get(place) {
        Some(port) => is_way(rows, router, hop, port),
        None => false,
    }
}

fn is_way_among(rows: &Rows, router: &RouterRow, hop: &Hop, places: &[usize]) -> bool
    ensures { result ≡ true
        → hops.is_reached rows.now.subnets rows.now.ports router.now hop.now ≡ true }
{
    for place in places {
        if is_way_at(rows, router, hop, *place) {
            return true;
        }
    }
    false
}

fn is_reached(known: &Known, router: &RouterRow, hop: &Hop) -> bool
    ensures { result ≡ true
        → hops.is_reached known.now.subnets known.now.ports router.now hop.now ≡ true }
{
    match known.leg_places(router.id) {
        Some(places) => is_way_among(known.rows(), router, hop, places.as_slice()),
        None => false,
    }
}

// Whether all next hops are reached where they are looked for first.
fn has_known_routes(known: &Known, router: &RouterRow) -> bool
    ensures { result ≡ true
        → list_all (hops.is_reached known.now.subnets known.now.ports router.now) router.now.routes
        ≡ true }
{
    for hop in router.routes.as_slice() {
        if !is_reached(known, router, hop) {
            return false;
        }
    }
    true
}

fn has_reached_routes(rows: &Rows, router: &RouterRow) -> bool
    ensures { result
        ≡ list_all (hops.is_reached rows.now.subnets rows.now.ports router.now) router.now.routes }
{
    ReachedRoutes::meets(rows, router)
}

#[tactic(auto, using(crate::proofs::FoundLemmas::first_or))]
fn has_routes(known: &Known, router: &RouterRow) -> bool
    ensures { result
        ≡ list_all (hops.is_reached known.now.subnets known.now.ports router.now)
        router.now.routes }
{
    has_known_routes(known, router) || has_reached_routes(known.rows(), router)
}

/// Whether the next hop of each extra route lies in a subnet in which a port of the router holds an
/// address. Its cost grows with the routers, and for each route with the router's ports.
pub(crate) fn are_routes(known: &Known) -> bool
    ensures { result
        ≡ list_all (λ r. list_all (hops.is_reached known.now.subnets known.now.ports r) r.routes)
        known.now.routers }
{
    known
        .rows()
        .routers()
        .rows()
        .iter()
        .all(|router| has_routes(known, router))
}
