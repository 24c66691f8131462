//! Changing a port.

ghost use Rattle.std.specs.Prelude.{◌≡◌, ◌⊎◌, [], IfErr, IfOk, None, Some, not};
ghost use Rattle.api_ipam.specs.Euis.{fits_eui};
ghost use Rattle.api_types.specs.Lists.{Pass};
ghost use Rattle.api_types.specs.Printed.{OneRow};
ghost use Rattle.api_types.specs.declared.refusal.Refusal.TheVariants.{OutOfMemory as MemoryRefusal, PoolsSpent as SpentPools};
ghost use Rattle.call_parts.specs.Answers.{IsRefusalOf, Leads};
ghost use Rattle.call_parts.specs.Edits.{made};
ghost use Rattle.plan_ports.specs.Plans.{next_fixed};
ghost use Rattle.plan_ports.specs.PortCalls.{port_changed, port_edits, port_replaced, port_shown, port_updated};

use crate::checks::ensure_changeable;
use crate::finding::find_port;
use crate::row::changed_port;
use crate::supply::{Supply, next_supply};
use api_ipam::next_addresses;
use api_policy::ensure_version_left;
use api_types::{FixedList, IdText, Kind, NetworkRow, PortForm, PortRow, Refusal, Rows};
use call_parts::{Asking, Draft, PlannedRow, disassociate, not_found};
use net_addr::{Copies, OutOfMemory};
use std::alloc::Global;

// The addresses of a port that is changed, by what they are chosen.
fn addresses_after(
    alloc: Global,
    supply: Supply,
    form: &PortForm,
    port: &PortRow,
) -> Result<FixedList, Refusal>
    requires { Pass fits_eui supply.subnets }
    ensures there { IfOk result (λ fixed. next_fixed form.now port.now supply ≡ Some fixed) }
    ensures spent { IfErr result
        (λ e. (e ≡ MemoryRefusal)
        ⊎ ((e ≡ SpentPools port.now.network) × (next_fixed form.now port.now supply ≡ None))) }
{
    let Supply { subnets, held, mac } = supply;
    match next_addresses(alloc, held, subnets.as_slice(), port, mac, &form.fixed_ips)? {
        Some(fixed) => Ok(fixed),
        None => Err(Refusal::PoolsSpent {
            network: port.network,
        }),
    }
}

// The port as it will stand, where nothing forbids the change.
fn change_port(
    alloc: Global,
    asking: &Asking<'_>,
    form: &PortForm,
    network: &NetworkRow,
    port: &PortRow,
) -> Result<PortRow, Refusal>
    ensures ok { IfOk result
        (λ p. port_changed asking.now.settings asking.now.state asking.now.caller form.now
        network.now port.now
        ≡ port_replaced asking.now.caller asking.now.state.rows p) }
    ensures err { IfErr result
        (IsRefusalOf
        (port_changed asking.now.settings asking.now.state asking.now.caller form.now network.now
        port.now)) }
{
    let rows = asking.rows();
    let supply = next_supply(alloc, rows, form, port)?;
    ensure_changeable(alloc, rows, asking.caller(), form, port, &supply)?;
    let fixed = addresses_after(alloc, supply, form, port)?;
    ensure_version_left(asking.version())?;
    Ok(changed_port(alloc, asking.settings(), form, network, port, fixed)?)
}

// The draft with the port in its place, where floating addresses of what it holds no more lose
// their target.
fn replace_port(
    alloc: Global,
    rows: &Rows,
    port: PortRow,
) -> Result<PlannedRow<PortRow>, OutOfMemory>
    ensures start { IfOk result (λ p. p.draft.start ≡ rows.now) }
    ensures row { IfOk result (λ p. p.row ≡ port) }
    ensures rows { IfOk result
        (λ p. p.draft.rows ≡ made rows.now (port_edits rows.now.floatings port)) }
{
    let draft = Draft::begin(alloc, rows)?;
    let draft = draft.put(alloc, port.copy(alloc)?)?;
    let draft = disassociate(alloc, draft, port.id, port.fixed.as_slice())?;
    Ok(PlannedRow { draft, row: port })
}

/// The plan of a port's change, or why it is refused. Its cost grows as that of its creation, and
/// with the routers and the floating addresses.
pub fn update_port(
    alloc: Global,
    asking: &Asking<'_>,
    name: &IdText,
    form: &PortForm,
) -> Result<PlannedRow<PortRow>, Refusal>
    ensures ok { IfOk result
        (λ p. Leads asking.now.state.rows
        (port_updated asking.now.settings asking.now.state asking.now.caller name.now form.now)
        p.draft (λ after. OneRow (port_shown after asking.now.caller p.row []))) }
    ensures err { IfErr result
        (IsRefusalOf
        (port_updated asking.now.settings asking.now.state asking.now.caller name.now form.now)) }
{
    let rows = asking.rows();
    let port = find_port(alloc, asking, name)?;
    let Some(network) = rows.networks().get(port.network) else {
        return Err(not_found(alloc, Kind::Port, &name.text));
    };
    let changed = change_port(alloc, asking, form, network, port)?;
    Ok(replace_port(alloc, rows, changed)?)
}
