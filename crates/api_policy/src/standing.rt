//! Policies as they would stand after a call, told of the policies that stand.

ghost use Rattle.std.specs.Prelude.{◌≡◌};
ghost use Rattle.api_types.specs.Sharing as sharing;
ghost use Rattle.api_policy.specs.Networks as networks;
ghost use Rattle.api_policy.specs.Standing.{aimed, standing_by, with_aimed, without, without_closed};
ghost use Rattle.api_policy.specs.Standing as standing_specs;

use api_types::{Action, Id, PolicyRow, Shared};
use net_addr::Text;

/// What a call would make of the policies.
#[derive(Clone, Copy)]
pub enum Standing<'p> {
    /// The policy with this id goes.
    Without {
        policy: Id,
    },
    /// The policy gets another target.
    Aimed {
        policy: &'p PolicyRow,
        target: &'p Text,
    },
    /// The policies that share the network with all go, or those that make it external to all, or
    /// both.
    Closed {
        network: Id,
        shared: bool,
        external: bool,
    },
}

/// Whether a policy permits the action on the network to all projects.
pub(crate) fn permits_all(policy: &PolicyRow, action: Action, network: Id) -> bool
    ensures { result ≡ networks.permits_all network action policy.now }
{
    network == policy.object && (action == policy.action && policy.target.as_str() == "*")
}

fn grants(policy: &PolicyRow, action: Action, network: Id, project: &Text) -> bool
    ensures { result ≡ sharing.grants action network project.now policy.now }
{
    network == policy.object
        && (action == policy.action && (policy.target == *project || policy.target.as_str() == "*"))
}

fn grants_aimed(
    policy: &PolicyRow,
    target: &Text,
    action: Action,
    network: Id,
    project: &Text,
) -> bool
    ensures { result ≡ sharing.grants action network project.now (aimed policy.now target.now) }
{
    network == policy.object
        && (action == policy.action && (*target == *project || target.as_str() == "*"))
}

fn is_closed(policy: &PolicyRow, network: Id, shared: bool, external: bool) -> bool
    ensures { result ≡ standing_specs.is_closed network shared external policy.now }
{
    (shared && permits_all(policy, Action::Shared, network))
        || (external && permits_all(policy, Action::External, network))
}

fn is_granted_without(
    policies: &[Shared<PolicyRow>],
    gone: Id,
    action: Action,
    network: Id,
    project: &Text,
) -> bool
    ensures { result ≡ sharing.is_granted (without gone policies.now) action network project.now }
{
    for policy in policies {
        if gone != policy.id && grants(policy, action, network, project) {
            return true;
        }
    }
    false
}

fn is_granted_aimed(
    policies: &[Shared<PolicyRow>],
    changed: &PolicyRow,
    target: &Text,
    action: Action,
    network: Id,
    project: &Text,
) -> bool
    ensures { result
        ≡ sharing.is_granted (with_aimed changed.now target.now policies.now) action network
        project.now }
{
    for policy in policies {
        let grants = if changed.id == policy.id {
            grants_aimed(changed, target, action, network, project)
        } else {
            grants(policy, action, network, project)
        };
        if grants {
            return true;
        }
    }
    false
}

fn is_granted_closed(
    policies: &[Shared<PolicyRow>],
    closed: Id,
    shared: bool,
    external: bool,
    action: Action,
    network: Id,
    project: &Text,
) -> bool
    ensures { result
        ≡ sharing.is_granted (without_closed closed shared external policies.now) action network
        project.now }
{
    for policy in policies {
        if !is_closed(policy, closed, shared, external)
            && grants(policy, action, network, project)
        {
            return true;
        }
    }
    false
}

/// Whether the policies as they would stand permit the action on the network to the project. Its
/// cost grows with the policies.
pub(crate) fn is_granted(
    policies: &[Shared<PolicyRow>],
    standing: &Standing,
    action: Action,
    network: Id,
    project: &Text,
) -> bool
    ensures { result
        ≡ sharing.is_granted (standing_by standing.now policies.now) action network project.now }
{
    match standing {
        Standing::Without { policy } => {
            is_granted_without(policies, *policy, action, network, project)
        }
        Standing::Aimed { policy, target } => {
            is_granted_aimed(policies, policy, target, action, network, project)
        }
        Standing::Closed {
            network: closed,
            shared,
            external,
        } => is_granted_closed(
            policies, *closed, *shared, *external, action, network, project,
        ),
    }
}
