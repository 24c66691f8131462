//! What is printed of networks.

ghost use Rattle.std.specs.Prelude.{◌≡◌, IfOk, map};
ghost use Rattle.api_types.specs.Printed.{tree_of};
ghost use Rattle.api_policy.specs.Networks.{number_of, physical_of};
ghost use Rattle.api_policy.specs.Networks as networks;

use crate::members::Shows;
use crate::printable::{Printable, no_members, push, push_value, push_word};
use api_policy::Visible;
use api_types::{
    Action, Caller, Id, Members, NetworkRow, PolicyRow, Printed, Rows, Segment, Shared,
};
use net_addr::{OutOfMemory, Seq};
use std::alloc::Global;

// Whether a policy permits the action on the network to all projects.
fn permits_all(policy: &PolicyRow, network: Id, action: Action) -> bool
    ensures { result ≡ networks.permits_all network action policy.now }
{
    network == policy.object && action == policy.action && policy.target.as_str() == "*"
}

fn is_open(policies: &[Shared<PolicyRow>], network: Id, action: Action) -> bool
    ensures { result ≡ networks.is_open policies.now network action }
{
    policies
        .iter()
        .any(|policy| permits_all(policy, network, action))
}

// The ids of the subnets of a network that the caller sees.
fn subnets_of(
    alloc: Global,
    rows: &Rows,
    caller: &Caller,
    network: Id,
) -> Result<Seq<Id>, OutOfMemory>
    ensures { IfOk result (λ s. s ≡ networks.subnets_of rows.now caller.now network) }
{
    let mut ids = Vec::new(alloc);
    for subnet in rows.subnets().rows() {
        if network == subnet.network && subnet.is_seen(rows, caller) {
            ids.push(subnet.id)?;
        }
    }
    Ok(Seq::from_vec(ids))
}

fn type_word(segment: &Segment) -> &'static str
    ensures { result.now ≡ networks.type_word segment.now }
{
    match segment {
        Segment::Local => "local",
        Segment::Flat { .. } => "flat",
        Segment::Vlan { .. } => "vlan",
        Segment::Vxlan { .. } => "vxlan",
    }
}

fn physical(alloc: Global, segment: &Segment) -> Result<Printed, OutOfMemory>
    ensures { IfOk result (λ p. tree_of p ≡ physical_of segment.now) }
{
    match segment {
        Segment::Flat { physical } | Segment::Vlan { physical, .. } => physical.printed(alloc),
        Segment::Local | Segment::Vxlan { .. } => Ok(Printed::Null),
    }
}

fn number(segment: &Segment) -> Printed
    ensures { tree_of result ≡ number_of segment.now }
{
    match segment {
        Segment::Vlan { tag, .. } => Printed::Number(u64::from(*tag)),
        Segment::Vxlan { number } => Printed::Number(u64::from(*number)),
        Segment::Local | Segment::Flat { .. } => Printed::Null,
    }
}

impl Shows for NetworkRow {
    ghost use Rattle.api_policy.specs.Networks.{network_members};
    ghost use Rattle.api_shown.specs.OwnKind.{never};
    ghost use Rattle.std.specs.Prelude.{false};

    ghost members_of = { network_members };

    ghost is_apart = { false };

    ghost apart = { λ h _ _ _ _. never h };

    fn is_apart() -> bool {
        false
    }

    fn members(&self, alloc: Global, rows: &Rows, caller: &Caller) -> Result<Members, OutOfMemory> {
        let policies = rows.policies().rows();
        let external = is_open(policies, self.id, Action::External);
        let shared = is_open(policies, self.id, Action::Shared);
        let subnets = subnets_of(alloc, rows, caller, self.id)?;
        let physical = physical(alloc, &self.segment)?;
        let mut all = no_members(alloc)?;
        push(alloc, &mut all, "admin_state_up", &self.up)?;
        push(alloc, &mut all, "description", &self.description)?;
        push(alloc, &mut all, "id", &self.id)?;
        push(alloc, &mut all, "name", &self.name)?;
        push(alloc, &mut all, "project_id", &self.project)?;
        let kind = type_word(&self.segment);
        push_word(&mut all, "provider:network_type", kind)?;
        push_value(&mut all, "provider:physical_network", physical)?;
        let number = number(&self.segment);
        push_value(&mut all, "provider:segmentation_id", number)?;
        push(alloc, &mut all, "router:external", &external)?;
        push(alloc, &mut all, "shared", &shared)?;
        push_word(&mut all, "status", "ACTIVE")?;
        push(alloc, &mut all, "subnets", &subnets)?;
        push(alloc, &mut all, "tenant_id", &self.project)?;
        Ok(all)
    }
}
