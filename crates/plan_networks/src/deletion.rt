//! Taking a network out, with its subnets, its DHCP port and its policies.

ghost use Rattle.std.specs.Prelude.{◌≡◌, IfErr, IfOk, filter, map};
ghost use Rattle.api_types.specs.HeldAddresses as held_addresses;
ghost use Rattle.api_types.specs.Printed.{NoRow};
ghost use Rattle.api_types.specs.Table.{ident_eq};
ghost use Rattle.api_types.specs.declared.policy.PolicyRow.{PolicyRow as ThePolicy};
ghost use Rattle.api_types.specs.declared.port.PortRow.{PortRow as ThePort};
ghost use Rattle.api_types.specs.declared.subnet.SubnetRow.{SubnetRow as TheSubnet};
ghost use Rattle.call_parts.specs.Edits.{made};
ghost use Rattle.plan_networks.specs.NetworkCalls.{deletion_refusal, network_deleted, network_gone};
ghost use Rattle.call_parts.specs.Answers.{IsRefusalOf, Leads, Passes};

use crate::finding::find_network;
use api_policy::{ensure_version_left, network_in_use, owner_only};
use api_types::{Id, IdText, NetworkRow, PolicyRow, PortRow, Refusal, Rows, Shared, SubnetRow};
use call_parts::{Asking, Draft};
use net_addr::{OutOfMemory, Seq};
use std::alloc::Global;

fn subnets_on(
    alloc: Global,
    subnets: &[Shared<SubnetRow>],
    network: Id,
) -> Result<Seq<Id>, OutOfMemory>
    ensures { IfOk result
        (λ ids. ids ≡ map (λ (s : TheSubnet). s.id)
        (held_addresses.subnets_on subnets.now network)) }
{
    let mut ids = Seq::new(alloc);
    for subnet in subnets {
        if network == subnet.network {
            ids.push(subnet.id)?;
        }
    }
    Ok(ids)
}

fn ports_on(alloc: Global, ports: &[Shared<PortRow>], network: Id) -> Result<Seq<Id>, OutOfMemory>
    ensures { IfOk result
        (λ ids. ids ≡ map (λ (p : ThePort). p.id) (held_addresses.ports_on ports.now network)) }
{
    let mut ids = Seq::new(alloc);
    for port in ports {
        if network == port.network {
            ids.push(port.id)?;
        }
    }
    Ok(ids)
}

fn policies_on(
    alloc: Global,
    policies: &[Shared<PolicyRow>],
    network: Id,
) -> Result<Seq<Id>, OutOfMemory>
    ensures { IfOk result
        (λ ids. ids
        ≡ map (λ (l : ThePolicy). l.id)
        (filter (λ (l : ThePolicy). ident_eq network l.object) policies.now)) }
{
    let mut ids = Seq::new(alloc);
    for policy in policies {
        if network == policy.object {
            ids.push(policy.id)?;
        }
    }
    Ok(ids)
}

// The rows without the network and what is on it.
fn without_network(alloc: Global, rows: &Rows, network: Id) -> Result<Draft, OutOfMemory>
    ensures start { IfOk result (λ d. d.start ≡ rows.now) }
    ensures rows { IfOk result (λ d. d.rows ≡ made rows.now (network_gone rows.now network)) }
{
    let subnets = subnets_on(alloc, rows.subnets().rows(), network)?;
    let ports = ports_on(alloc, rows.ports().rows(), network)?;
    let policies = policies_on(alloc, rows.policies().rows(), network)?;
    let draft = Draft::begin(alloc, rows)?;
    let draft = draft.drop_rows::<SubnetRow>(alloc, subnets.as_slice())?;
    let draft = draft.drop_rows::<PortRow>(alloc, ports.as_slice())?;
    let draft = draft.drop_rows::<PolicyRow>(alloc, policies.as_slice())?;
    draft.drop_row::<NetworkRow>(alloc, network)
}

fn ensure_deletable(asking: &Asking<'_>, network: &NetworkRow) -> Result<(), Refusal>
    ensures { Passes (deletion_refusal asking.now.state asking.now.caller network.now) result }
{
    let (rows, caller) = (asking.rows(), asking.caller());
    owner_only(caller, &network.project)?;
    network_in_use(rows, caller, network.id)?;
    ensure_version_left(asking.version())
}

/// Where a network's deletion leads. Its cost grows with the rows.
pub fn delete_network(alloc: Global, asking: &Asking<'_>, name: &IdText) -> Result<Draft, Refusal>
    ensures ok { IfOk result
        (λ d. Leads asking.now.state.rows
        (network_deleted asking.now.state asking.now.caller name.now) d (λ after. NoRow)) }
    ensures err { IfErr result
        (IsRefusalOf (network_deleted asking.now.state asking.now.caller name.now)) }
{
    let network = find_network(alloc, asking, name)?;
    ensure_deletable(asking, network)?;
    Ok(without_network(alloc, asking.rows(), network.id)?)
}
