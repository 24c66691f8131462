//! Taking a port out.

ghost use Rattle.std.specs.Prelude.{◌≡◌, IfErr, IfOk};
ghost use Rattle.api_types.specs.Printed.{NoRow};
ghost use Rattle.api_policy.specs.Checks.{IsAnswerOf};
ghost use Rattle.call_parts.specs.Answers.{IsRefusalOf, Leads};
ghost use Rattle.call_parts.specs.Edits.{made};
ghost use Rattle.plan_ports.specs.PortCalls.{deletion_refusal, port_deleted, port_gone};

use crate::finding::find_port;
use api_policy::{ensure_version_left, port_delete, service_in_use};
use api_types::{Id, IdText, PortRow, Refusal, Rows};
use call_parts::{Asking, Draft, disassociate};
use net_addr::OutOfMemory;
use std::alloc::Global;

fn ensure_deletable(asking: &Asking<'_>, port: &PortRow) -> Result<(), Refusal>
    ensures { IsAnswerOf (deletion_refusal asking.now.state asking.now.caller port.now) result }
{
    port_delete(asking.rows(), asking.caller(), port)?;
    service_in_use(asking.rows(), asking.caller(), true, port)?;
    ensure_version_left(asking.version())
}

// The rows without the port, where its floating addresses lose their target.
fn without_port(alloc: Global, rows: &Rows, port: Id) -> Result<Draft, OutOfMemory>
    ensures start { IfOk result (λ d. d.start ≡ rows.now) }
    ensures rows { IfOk result
        (λ d. d.rows ≡ made rows.now (port_gone rows.now.floatings port)) }
{
    let draft = Draft::begin(alloc, rows)?;
    let draft = disassociate(alloc, draft, port, &[])?;
    draft.drop_row::<PortRow>(alloc, port)
}

/// The plan of a port's deletion, or why it is refused. Its cost grows with the ports, the routers
/// and the floating addresses.
pub fn delete_port(alloc: Global, asking: &Asking<'_>, name: &IdText) -> Result<Draft, Refusal>
    ensures ok { IfOk result
        (λ d. Leads asking.now.state.rows
        (port_deleted asking.now.state asking.now.caller name.now) d (λ after. NoRow)) }
    ensures err { IfErr result
        (IsRefusalOf (port_deleted asking.now.state asking.now.caller name.now)) }
{
    let port = find_port(alloc, asking, name)?;
    ensure_deletable(asking, port)?;
    Ok(without_port(alloc, asking.rows(), port.id)?)
}
