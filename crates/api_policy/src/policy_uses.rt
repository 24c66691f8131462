//! Which ports need which policies.

ghost use Rattle.std.specs.Prelude.{◌≡◌, find, option_copied, option_map};
ghost use Rattle.api_types.specs.Owners as owners;
ghost use Rattle.api_types.specs.Table.{ident_eq};
ghost use Rattle.api_types.specs.declared.floating.FloatingRow.{FloatingRow as TheFloating};
ghost use Rattle.api_types.specs.declared.router.RouterRow.{RouterRow as TheRouter};
ghost use Rattle.api_policy.specs.Checks.{IsAnswerOf};
ghost use Rattle.api_policy.specs.NeededPolicy.{user_of_policy};
ghost use Rattle.api_policy.specs.NeededPolicy as needed_policy_specs;
ghost use Rattle.api_policy.specs.PolicyNeeds as policy_needs;
ghost use Rattle.api_policy.specs.Served.{held_port};
ghost use Rattle.api_policy.specs.Served as served_specs;
ghost use Rattle.api_policy.specs.Standing.{standing_by};
ghost use Rattle.api_policy.specs.Uses as uses;

use crate::empty::is_empty;
use crate::standing::{Standing, is_granted, permits_all};
use crate::told::{ensure_unused, used_by_port};
use api_types::{
    Action, Caller, FloatingRow, Id, Kind, NetworkRow, PolicyRow, PortRow, Refusal, RouterRow,
    Rows, Shared, UseRule,
};
use net_addr::Text;

fn router_of<'r>(routers: &'r [Shared<RouterRow>], port: &PortRow) -> Option<&'r Shared<RouterRow>>
    ensures { option_copied result
        ≡ find (λ (r : TheRouter). owners.is_port_of r port.now) routers.now }
{
    routers.iter().find(|router| port.is_of(router))
}

fn floating_of<'r>(
    floatings: &'r [Shared<FloatingRow>],
    port: &PortRow,
) -> Option<&'r Shared<FloatingRow>>
    ensures { option_copied result
        ≡ find (λ (f : TheFloating). ident_eq f.own_port port.now.id) floatings.now }
{
    floatings
        .iter()
        .find(|floating| floating.own_port == port.id)
}

// The project of the router or of the floating address that a port serves.
fn served<'r>(rows: &'r Rows, port: &PortRow) -> Option<&'r Text>
    ensures { option_copied result ≡ served_specs.served rows.now port.now }
{
    if let Some(router) = router_of(rows.routers().rows(), port) {
        return Some(&router.get().project);
    }
    match floating_of(rows.floatings().rows(), port) {
        Some(floating) => Some(&floating.get().project),
        None => None,
    }
}

// Whether a port is on the network by sharing alone, and it would be shared with it no more.
fn is_unshared(rows: &Rows, standing: &Standing, network: &NetworkRow, port: &PortRow) -> bool
    ensures { result
        ≡ policy_needs.is_unshared (standing_by standing.now rows.now.policies) network.now
        (held_port rows.now port.now) }
{
    !port.by_admin
        && !is_empty(&port.project)
        && port.project != network.project
        && !is_granted(
            rows.policies().rows(),
            standing,
            Action::Shared,
            network.id,
            &port.project,
        )
}

// Whether a port of no project serves one to which the network would be external no more.
fn is_unserved(rows: &Rows, standing: &Standing, network: &NetworkRow, port: &PortRow) -> bool
    ensures { result
        ≡ policy_needs.is_unserved (standing_by standing.now rows.now.policies) network.now
        (held_port rows.now port.now) }
{
    if !is_empty(&port.project) {
        return false;
    }
    match served(rows, port) {
        Some(project) => !is_granted(
            rows.policies().rows(),
            standing,
            Action::External,
            network.id,
            project,
        ),
        None => false,
    }
}

// Whether a port on the network would lack what it needs.
fn is_forsaken(rows: &Rows, standing: &Standing, network: &NetworkRow, port: &PortRow) -> bool
    ensures { result
        ≡ policy_needs.is_forsaken rows.now
        (standing_by standing.now rows.now.policies) network.now port.now }
{
    network.id == port.network
        && (is_unshared(rows, standing, network, port)
            || is_unserved(rows, standing, network, port))
}

// The first port on the network that would lack what it needs.
fn user_on<'r>(
    rows: &'r Rows,
    standing: &Standing,
    network: &NetworkRow,
) -> Option<&'r Shared<PortRow>>
    ensures { option_copied result
        ≡ policy_needs.policy_user rows.now
        (standing_by standing.now rows.now.policies) network.now }
{
    rows.ports()
        .rows()
        .iter()
        .find(|port| is_forsaken(rows, standing, network, port))
}

// The first port on the policy's network that would lack what it needs.
fn port_in_need<'r>(
    rows: &'r Rows,
    standing: &Standing,
    policy: &PolicyRow,
) -> Option<&'r Shared<PortRow>>
    ensures { option_copied result
        ≡ needed_policy_specs.port_in_need rows.now policy.now
        (standing_by standing.now rows.now.policies) }
{
    let network = rows.networks().get(policy.object)?;
    user_on(rows, standing, network)
}

/// The first port that needs a policy, where the policy would get this target, or go where none is
/// given. Its cost grows with the ports, and for each on the policy's network with the policies,
/// the routers and the floating addresses.
pub fn policy_user(rows: &Rows, policy: Id, target: Option<&Text>) -> Option<(Kind, Id)>
    ensures { result ≡ user_of_policy rows.now policy (option_copied target.entry) }
{
    let policy = rows.policies().get(policy)?;
    let standing = match target {
        Some(target) => Standing::Aimed { policy, target },
        None => Standing::Without { policy: policy.id },
    };
    let port = port_in_need(rows, &standing, policy)?;
    Some((Kind::Port, port.id))
}

/// Refuses a policy that a port on its network needs, by the policies as they would stand. Its cost
/// grows as that of `policy_user`.
pub fn policy_in_use(
    rows: &Rows,
    caller: &Caller,
    standing: &Standing,
    policy: &PolicyRow,
) -> Result<(), Refusal>
    ensures { IsAnswerOf
        (uses.policy_in_use rows.now caller.now (standing_by standing.now rows.now.policies)
        policy.now) result }
{
    ensure_unused(
        rows,
        caller,
        UseRule::RbacPolicyInUse,
        Kind::Policy,
        policy.id,
        port_in_need(rows, standing, policy),
    )
}

// The first policy that permits the action on the network to all.
fn open_policy(
    policies: &[Shared<PolicyRow>],
    network: Id,
    action: Action,
) -> Option<&Shared<PolicyRow>>
    ensures { option_copied result ≡ uses.open_policy policies.now network action }
{
    policies
        .iter()
        .find(|policy| permits_all(policy, action, network))
}

// Of the policies that would go the one that the port needs.
fn needed_policy<'r>(
    rows: &'r Rows,
    standing: &Standing,
    network: &NetworkRow,
    port: &PortRow,
) -> Option<&'r Shared<PolicyRow>>
    ensures { option_copied result
        ≡ uses.needed_policy rows.now.policies
        (standing_by standing.now rows.now.policies) network.now
        (held_port rows.now port.now) }
{
    let policies = rows.policies().rows();
    if is_unshared(rows, standing, network, port) {
        open_policy(policies, network.id, Action::Shared)
    } else {
        open_policy(policies, network.id, Action::External)
    }
}

/// Refuses to close a network, where a port on it needs a policy that would go. Its cost grows as
/// that of `policy_user`.
pub fn open_in_use(
    rows: &Rows,
    caller: &Caller,
    standing: &Standing,
    network: &NetworkRow,
) -> Result<(), Refusal>
    ensures { IsAnswerOf
        (uses.open_in_use rows.now caller.now (standing_by standing.now rows.now.policies)
        network.now) result }
{
    let Some(port) = user_on(rows, standing, network) else {
        return Ok(());
    };
    match needed_policy(rows, standing, network, port) {
        Some(policy) => Err(used_by_port(
            rows,
            caller,
            UseRule::RbacPolicyInUse,
            Kind::Policy,
            policy.id,
            port,
        )),
        None => Ok(()),
    }
}
