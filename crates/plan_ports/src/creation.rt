//! Making a port.

ghost use Rattle.std.specs.Prelude.{◌≡◌, ◌⊎◌, ◌<◌, ◌^◌, [], IfErr, IfOk, None, Some, not, true};
ghost use Rattle.api_ipam.specs.Euis.{fits_eui};
ghost use Rattle.api_types.specs.Lists.{Pass, is_empty};
ghost use Rattle.api_types.specs.Printed.{NewRow};
ghost use Rattle.api_types.specs.Registration.{drawn_id};
ghost use Rattle.api_types.specs.Table.{row_of};
ghost use Rattle.api_types.specs.declared.kind.Row.TheVariants.{Port as PortOf};
ghost use Rattle.api_types.specs.declared.port.PortRow.{PortRow as ThePort};
ghost use Rattle.api_types.specs.declared.refusal.Refusal.TheVariants.{OutOfMemory as MemoryRefusal, PoolsSpent as SpentPools};
ghost use Rattle.call_parts.specs.Answers.{IsRefusalOf, Leads, drawing_of};
ghost use Rattle.api_types.specs.WithRows.{with_added};
ghost use Rattle.call_parts.specs.InForm.{is_port_body};
ghost use Rattle.plan_ports.specs.Plans.{first_fixed, ids_drawn};
ghost use Rattle.plan_ports.specs.PortCalls as calls;
ghost use Rattle.plan_ports.specs.PortCalls.{port_created, port_made, port_shown};

use crate::checks::{ensure_body_valid, ensure_creatable};
use crate::row::{Chosen, Placed, new_port};
use crate::supply::{FirstSupply, Supply, first_supply};
use api_ipam::first_addresses;
use api_policy::network_seen;
use api_types::{FixedList, Kind, NetworkRow, PortForm, PortRow, Refusal};
use call_parts::{Asking, Drawn, PlannedRow, none_with_id, owner, value_of};
use net_addr::{Copies, OutOfMemory, Text};
use std::alloc::Global;

// The addresses of a new port, by what they are chosen.
fn addresses_at_first(
    alloc: Global,
    supply: Supply,
    form: &PortForm,
    network: &NetworkRow,
) -> Result<FixedList, Refusal>
    requires { Pass fits_eui supply.subnets }
    ensures there { IfOk result (λ fixed. first_fixed form.now supply ≡ Some fixed) }
    ensures spent { IfErr result
        (λ e. (e ≡ MemoryRefusal)
        ⊎ ((e ≡ SpentPools network.now.id) × (first_fixed form.now supply ≡ None))) }
{
    let Supply { subnets, held, mac } = supply;
    match first_addresses(alloc, held, subnets.as_slice(), mac, &form.fixed_ips)? {
        Some(fixed) => Ok(fixed),
        None => Err(Refusal::PoolsSpent {
            network: network.id,
        }),
    }
}

// The MAC address and the addresses of a new port on the network, where nothing forbids it.
fn choose(
    alloc: Global,
    asking: &Asking<'_>,
    form: &PortForm,
    network: &NetworkRow,
    owner: &Text,
) -> Result<Chosen, Refusal>
    ensures ok { IfOk result
        (λ t. port_made asking.now.settings asking.now.state asking.now.caller form.now
        network.now owner.now
        ≡ ids_drawn asking.now.settings asking.now.state asking.now.caller form.now
        network.now owner.now t.mac t.fixed) }
    ensures err { IfErr result
        (IsRefusalOf
        (port_made asking.now.settings asking.now.state asking.now.caller form.now network.now
        owner.now)) }
{
    let rows = asking.rows();
    let first = first_supply(alloc, rows, network.id, &form.mac_address)?;
    let FirstSupply { mac, supply } = first;
    ensure_creatable(alloc, asking, form, network, owner, &supply)?;
    let fixed = addresses_at_first(alloc, supply, form, network)?;
    match &mac {
        Some(mac) => Ok(Chosen { mac: *mac, fixed }),
        None => Err(Refusal::CountersSpent),
    }
}

// The draft with the new port, which has the first id that was drawn.
fn add_port(
    alloc: Global,
    asking: &Asking<'_>,
    drawn: Drawn,
    form: &PortForm,
    network: &NetworkRow,
    owner: &Text,
    chosen: Chosen,
) -> Result<PlannedRow<PortRow>, OutOfMemory>
    requires within { drawn.first < 2 ^ 62 }
    requires new { row_of (λ (p : ThePort). p.id) (drawn_id (drawing_of drawn) 0)
        drawn.draft.rows.ports ≡ None }
    ensures start { IfOk result (λ p. p.draft.start ≡ drawn.draft.start) }
    ensures row { IfOk result
        (λ p. p.row
        ≡ calls.new_port asking.now.settings drawn.draft.rows asking.now.caller form.now
        network.now owner.now (drawn_id (drawing_of drawn) 0) chosen.mac chosen.fixed) }
    ensures rows { IfOk result
        (λ p. p.draft.rows ≡ with_added drawn.draft.rows (PortOf p.row)) }
{
    let id = drawn.id(0);
    let settled = drawn.draft.settle(alloc)?;
    let Chosen { mac, fixed } = chosen;
    let placed = Placed { id, mac, fixed };
    let port = new_port(alloc, asking, settled.rows(), form, network, owner, placed)?;
    let kept = port.copy(alloc)?;
    Ok(PlannedRow {
        draft: settled.add(alloc, port)?,
        row: kept,
    })
}

// Where the creation leads of a port on a network that is found.
fn make_port(
    alloc: Global,
    asking: &Asking<'_>,
    form: &PortForm,
    network: &NetworkRow,
    owner: &Text,
) -> Result<PlannedRow<PortRow>, Refusal>
    requires { not (is_empty owner.now) ≡ true }
    ensures ok { IfOk result
        (λ p. Leads asking.now.state.rows
        (port_made asking.now.settings asking.now.state asking.now.caller form.now network.now
        owner.now) p.draft (λ after. NewRow (port_shown after asking.now.caller p.row []))) }
    ensures err { IfErr result
        (IsRefusalOf
        (port_made asking.now.settings asking.now.state asking.now.caller form.now network.now
        owner.now)) }
{
    let chosen = choose(alloc, asking, form, network, owner)?;
    let drawn = asking.draw(alloc, owner, 1)?;
    Ok(add_port(alloc, asking, drawn, form, network, owner, chosen)?)
}

/// The plan of a port's creation, or why it is refused. Its cost grows with the ports and their
/// addresses, the subnets, the groups, the policies, the projects and the hosts, and not with the
/// pools' size.
pub fn create_port(
    alloc: Global,
    asking: &Asking<'_>,
    form: &PortForm,
) -> Result<PlannedRow<PortRow>, Refusal>
    requires named { not (is_empty asking.now.caller.project) ≡ true }
    requires in_form { is_port_body form.now ≡ true }
    ensures ok { IfOk result
        (λ p. Leads asking.now.state.rows
        (port_created asking.now.settings asking.now.state asking.now.caller form.now) p.draft
        (λ after. NewRow (port_shown after asking.now.caller p.row []))) }
    ensures err { IfErr result
        (IsRefusalOf
        (port_created asking.now.settings asking.now.state asking.now.caller form.now)) }
{
    let rows = asking.rows();
    let caller = asking.caller();
    let network = network_seen(rows, caller, value_of(&form.network_id));
    ensure_body_valid(alloc, rows, caller, form, network)?;
    let Some(network) = network else {
        let id = value_of(&form.network_id);
        return Err(none_with_id(alloc, Kind::Network, id));
    };
    let owner = owner(caller, &form.project_id, &form.tenant_id);
    make_port(alloc, asking, form, network, owner)
}
