//! Changing a subnet.

ghost use Rattle.std.specs.Prelude.{◌≡◌, ◌+◌, ◌≤◌, ◌^◌, ◌&&◌, [], IfErr, IfOk, None, if◌then◌else◌, not, true};
ghost use Rattle.api_ipam.specs.Euis.{fits_eui};
ghost use Rattle.api_types.specs.HeldAddresses.{fixed_at};
ghost use Rattle.api_types.specs.Lists.{is_empty};
ghost use Rattle.api_types.specs.Printed.{OneRow};
ghost use Rattle.api_types.specs.Registration.{ident};
ghost use Rattle.api_types.specs.Table.{row_of};
ghost use Rattle.call_parts.specs.Answers.{IsRefusalOf, Leads, Passes};
ghost use Rattle.call_parts.specs.Edits.{made};
ghost use Rattle.plan_subnets.specs.DhcpUpkeep as dhcp_upkeep;
ghost use Rattle.plan_subnets.specs.SubnetCalls as calls;
ghost use Rattle.plan_subnets.specs.SubnetCalls.{subnet_changed, subnet_edits, subnet_shown, subnet_updated, update_refusal};
ghost use Rattle.plan_subnets.specs.Plans.{change_refusal, standing_refusal};
ghost use Rattle.api_policy.specs.Checks.{IsAnswerOf};

use crate::finding::find_subnet;
use crate::lease::{Lease, lease_for};
use crate::row::changed_subnet;
use crate::rules::{ensure_dhcp_kept, ensure_ranges_fit, ensure_same_version};
use crate::serving::{NextPort, begin_serving, end_serving};
use api_policy::{network_owner, old_gateway_in_use};
use api_types::{Caller, Fixed, IdText, Kind, NetworkRow, Refusal, Rows, SubnetForm, SubnetRow};
use call_parts::{Asking, Drawn, PlannedRow, not_found};
use net_addr::{Copies, OutOfMemory};
use net_settings::Settings;
use std::alloc::Global;

// Refuses what the rules alone forbid.
fn ensure_rules_kept(
    alloc: Global,
    form: &SubnetForm,
    old: &SubnetRow,
    new: &SubnetRow,
) -> Result<(), Refusal>
    ensures { Passes (change_refusal form.now old.now new.now) result }
{
    ensure_same_version(alloc, &old.prefix.base, form)?;
    ensure_ranges_fit(alloc, &new.prefix, &new.gateway, new.pools.as_slice())?;
    ensure_dhcp_kept(alloc, form, old)
}

// Refuses what the policy or a use of the gateway forbids.
fn ensure_permitted(
    rows: &Rows,
    caller: &Caller,
    old: &SubnetRow,
    new: &SubnetRow,
) -> Result<(), Refusal>
    ensures { IsAnswerOf (standing_refusal rows.now caller.now old.now new.now) result }
{
    network_owner(rows, caller, true, old.network)?;
    old_gateway_in_use(rows, caller, old, new)
}

fn ensure_changeable(
    alloc: Global,
    asking: &Asking<'_>,
    form: &SubnetForm,
    old: &SubnetRow,
    new: &SubnetRow,
) -> Result<(), Refusal>
    ensures { Passes
        (update_refusal asking.now.state.rows asking.now.caller form.now old.now new.now)
        result }
{
    ensure_rules_kept(alloc, form, old, new)?;
    ensure_permitted(asking.rows(), asking.caller(), old, new)
}

// Whether the subnet begins to be leased where the one turns into the other.
fn begins(old: &SubnetRow, new: &SubnetRow) -> bool
    ensures { result ≡ (new.now.dhcp && not old.now.dhcp) }
{
    new.dhcp && !old.dhcp
}

// How many ids the change takes.
fn ids_taken(makes: bool) -> u64
    ensures { result ≡ if makes then 1 else 0 }
{
    if makes { 1 } else { 0 }
}

// The draft with the changed subnet, and the DHCP port with an address of it, or without one.
fn put_subnet(
    alloc: Global,
    drawn: Drawn,
    settings: &Settings,
    network: &NetworkRow,
    old: &SubnetRow,
    new: SubnetRow,
    lease: &Lease,
) -> Result<PlannedRow<SubnetRow>, OutOfMemory>
    requires within { drawn.first + (if lease.now.makes then 1 else 0) ≤ 2 ^ 62 }
    requires makes { lease.now.makes
        ≡ dhcp_upkeep.makes_dhcp_port drawn.draft.rows.ports network.now.id
        (new.dhcp && not old.now.dhcp) }
    requires new_port { lease.now.makes ≡ true
        → row_of (λ p. p.id) (ident drawn.ordinal (drawn.first + 0)) drawn.draft.rows.ports
        ≡ None }
    ensures start { IfOk result (λ p. p.draft.start ≡ drawn.draft.start) }
    ensures row { IfOk result (λ p. p.row ≡ new) }
    ensures rows { IfOk result
        (λ p. p.draft.rows
        ≡ made drawn.draft.rows
        (subnet_edits settings.now drawn.draft.rows network.now old.now new
        (ident drawn.ordinal (drawn.first + 0)) lease.now.mac
        (fixed_at new.id lease.now.address))) }
{
    let Drawn {
        draft,
        ordinal,
        first,
    } = drawn;
    let ends = begins(&new, old);
    let fixed = Fixed {
        subnet: new.id,
        address: lease.address,
    };
    let next = NextPort {
        ordinal,
        count: first,
        mac: lease.mac,
    };
    let draft = draft.put(alloc, new.copy(alloc)?)?;
    let draft = begin_serving(
        alloc,
        draft,
        settings,
        network,
        begins(old, &new),
        next,
        fixed,
    )?;
    let draft = end_serving(alloc, draft, network.id, ends, old.id)?;
    Ok(PlannedRow { draft, row: new })
}

// Where the change leads of a subnet on a network.
fn change_subnet(
    alloc: Global,
    asking: &Asking<'_>,
    form: &SubnetForm,
    network: &NetworkRow,
    old: &SubnetRow,
) -> Result<PlannedRow<SubnetRow>, Refusal>
    requires named { not (is_empty network.now.project) ≡ true }
    requires fits { fits_eui old.now ≡ true }
    ensures ok { IfOk result
        (λ p. Leads asking.now.state.rows
        (subnet_changed asking.now.settings asking.now.state asking.now.caller form.now network.now
        old.now (calls.changed_subnet form.now old.now)) p.draft
        (λ after. OneRow (subnet_shown after asking.now.caller p.row []))) }
    ensures err { IfErr result
        (IsRefusalOf
        (subnet_changed asking.now.settings asking.now.state asking.now.caller form.now network.now
        old.now (calls.changed_subnet form.now old.now))) }
{
    let new = changed_subnet(alloc, form, old)?;
    ensure_changeable(alloc, asking, form, old, &new)?;
    let lease = lease_for(alloc, asking.rows(), network.id, begins(old, &new), &new)?;
    let drawn = asking.draw(alloc, &network.project, ids_taken(lease.makes))?;
    Ok(put_subnet(alloc, drawn, asking.settings(), network, old, new, &lease)?)
}

/// The plan of a subnet's change, or why it is refused. Its cost and memory grow as those of its
/// creation, and with the floating addresses.
pub fn update_subnet(
    alloc: Global,
    asking: &Asking<'_>,
    name: &IdText,
    form: &SubnetForm,
) -> Result<PlannedRow<SubnetRow>, Refusal>
    ensures ok { IfOk result
        (λ p. Leads asking.now.state.rows
        (subnet_updated asking.now.settings asking.now.state asking.now.caller name.now form.now)
        p.draft (λ after. OneRow (subnet_shown after asking.now.caller p.row []))) }
    ensures err { IfErr result
        (IsRefusalOf
        (subnet_updated asking.now.settings asking.now.state asking.now.caller name.now
        form.now)) }
{
    let subnet = find_subnet(alloc, asking, name)?;
    let Some(network) = asking.rows().networks().get(subnet.network) else {
        return Err(not_found(alloc, Kind::Subnet, &name.text));
    };
    change_subnet(alloc, asking, form, network, subnet)
}
