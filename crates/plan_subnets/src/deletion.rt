//! Taking a subnet out.

ghost use Rattle.std.specs.Prelude.{◌≡◌, IfErr, IfOk};
ghost use Rattle.api_types.specs.Printed.{NoRow};
ghost use Rattle.call_parts.specs.Answers.{IsRefusalOf, Leads, Passes};
ghost use Rattle.call_parts.specs.Edits.{made};
ghost use Rattle.plan_subnets.specs.SubnetCalls.{deletion_refusal, subnet_deleted, subnet_gone};

use crate::finding::find_subnet;
use crate::serving::end_serving;
use api_policy::{ensure_version_left, network_owner, subnet_in_use};
use api_types::{IdText, Refusal, Rows, SubnetRow};
use call_parts::{Asking, Draft};
use net_addr::OutOfMemory;
use std::alloc::Global;

fn ensure_deletable(asking: &Asking<'_>, subnet: &SubnetRow) -> Result<(), Refusal>
    ensures { Passes (deletion_refusal asking.now.state asking.now.caller subnet.now) result }
{
    let (rows, caller) = (asking.rows(), asking.caller());
    network_owner(rows, caller, true, subnet.network)?;
    subnet_in_use(rows, caller, subnet.id)?;
    ensure_version_left(asking.version())
}

// The rows without the subnet, and the DHCP port without its address.
fn without_subnet(alloc: Global, rows: &Rows, subnet: &SubnetRow) -> Result<Draft, OutOfMemory>
    ensures start { IfOk result (λ d. d.start ≡ rows.now) }
    ensures rows { IfOk result (λ d. d.rows ≡ made rows.now (subnet_gone rows.now subnet.now)) }
{
    let draft = Draft::begin(alloc, rows)?;
    let draft = end_serving(alloc, draft, subnet.network, subnet.dhcp, subnet.id)?;
    draft.drop_row::<SubnetRow>(alloc, subnet.id)
}

/// The plan of a subnet's deletion, or why it is refused. Its cost grows with the subnets, the
/// ports and their addresses, and the floating addresses.
pub fn delete_subnet(alloc: Global, asking: &Asking<'_>, name: &IdText) -> Result<Draft, Refusal>
    ensures ok { IfOk result
        (λ d. Leads asking.now.state.rows
        (subnet_deleted asking.now.state asking.now.caller name.now) d (λ after. NoRow)) }
    ensures err { IfErr result
        (IsRefusalOf (subnet_deleted asking.now.state asking.now.caller name.now)) }
{
    let subnet = find_subnet(alloc, asking, name)?;
    ensure_deletable(asking, subnet)?;
    Ok(without_subnet(alloc, asking.rows(), subnet)?)
}
