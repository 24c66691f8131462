//! Making a subnet.

ghost use Rattle.std.specs.Prelude.{◌≡◌, ◌+◌, ◌≤◌, ◌^◌, ◌∷◌, [], IfErr, IfOk, None, OnOk, if◌then◌else◌, not, option_and_then, true};
ghost use Rattle.api_ipam.specs.Euis.{fits_eui};
ghost use Rattle.api_policy.specs.Seen as seen;
ghost use Rattle.api_types.specs.Given as given;
ghost use Rattle.api_types.specs.HeldAddresses.{fixed_at};
ghost use Rattle.api_types.specs.Lists.{is_empty};
ghost use Rattle.api_types.specs.Printed.{NewRow};
ghost use Rattle.api_types.specs.Registration.{ident};
ghost use Rattle.api_types.specs.Table.{row_of};
ghost use Rattle.api_types.specs.declared.kind.Row.TheVariants.{Subnet as SubnetOf};
ghost use Rattle.call_parts.specs.Answers.{IsRefusalIn, IsRefusalOf, Leads, Passes};
ghost use Rattle.call_parts.specs.BodyNames.{no_id};
ghost use Rattle.call_parts.specs.Edits.{Add, made};
ghost use Rattle.call_parts.specs.InForm.{is_subnet_body, is_there};
ghost use Rattle.plan_subnets.specs.DhcpUpkeep as upkeep;
ghost use Rattle.plan_subnets.specs.Plans.{body_refusal};
ghost use Rattle.plan_subnets.specs.SubnetCalls.{creation_refusal, dhcp_asked, subnet_created, subnet_made, subnet_shown};
ghost use Rattle.plan_subnets.specs.SubnetCalls as subnet_calls;
ghost use Rattle.plan_subnets.specs.SubnetRules.{bad_cidr};

use crate::lease::{Lease, lease_for};
use crate::row::{Ranges, new_subnet, ranges_asked};
use crate::rules::{ensure_cidr_free, ensure_parts_agree, ensure_ranges_fit};
use crate::serving::{NextPort, begin_serving};
use api_policy::{network_owner, network_seen, over_quota};
use api_types::{Caller, Fixed, Id, Kind, NetworkRow, Refusal, Rows, SubnetForm, SubnetRow};
use call_parts::{Asking, Drawn, PlannedRow, none_with_id, value_of};
use net_addr::{Copies, OutOfMemory, Prefix};
use net_settings::Settings;
use std::alloc::Global;

// Refuses a prefix that overlaps a subnet of the network, where the caller sees that.
fn ensure_prefix_free(
    alloc: Global,
    rows: &Rows,
    caller: &Caller,
    form: &SubnetForm,
    prefix: Prefix,
) -> Result<(), Refusal>
    ensures { Passes
        (option_and_then (bad_cidr rows.now prefix)
        (seen.network_seen rows.now caller.now (given.value_of form.now.network_id))) result }
{
    match network_seen(rows, caller, value_of(&form.network_id)) {
        Some(network) => ensure_cidr_free(alloc, rows, prefix, network),
        None => Ok(()),
    }
}

// The addresses that the body asks for, where no rule of its attributes is broken.
fn read_ranges(
    alloc: Global,
    rows: &Rows,
    caller: &Caller,
    form: &SubnetForm,
) -> Result<Ranges, Refusal>
    requires { is_subnet_body form.now ≡ true }
    ensures prefix { IfOk result (λ r. r.prefix ≡ subnet_calls.prefix_asked form.now) }
    ensures gateway { IfOk result (λ r. r.gateway ≡ subnet_calls.gateway_asked form.now) }
    ensures pools { IfOk result (λ r. r.pools ≡ subnet_calls.pools_asked form.now) }
    ensures passes { OnOk result (body_refusal rows.now caller.now form.now ≡ None) }
    ensures refused { IfErr result (IsRefusalIn (body_refusal rows.now caller.now form.now)) }
{
    ensure_parts_agree(alloc, form)?;
    let ranges = ranges_asked(alloc, form)?;
    ensure_prefix_free(alloc, rows, caller, form, ranges.prefix)?;
    ensure_ranges_fit(
        alloc,
        &ranges.prefix,
        &ranges.gateway,
        ranges.pools.as_slice(),
    )?;
    Ok(ranges)
}

fn ensure_creatable(asking: &Asking<'_>, network: &NetworkRow) -> Result<(), Refusal>
    ensures { Passes
        (creation_refusal asking.now.settings asking.now.state.rows asking.now.caller
        network.now) result }
{
    let rows = asking.rows();
    network_owner(rows, asking.caller(), true, network.id)?;
    over_quota(rows, asking.settings(), &network.project, Kind::Subnet)
}

// How many ids the subnet takes, with the DHCP port where that is made.
fn ids_taken(makes: bool) -> u64
    ensures { result ≡ if makes then 2 else 1 }
{
    if makes { 2 } else { 1 }
}

// The draft with the new subnet, which has the first id that was drawn, and with its DHCP port.
fn add_subnet(
    alloc: Global,
    drawn: Drawn,
    settings: &Settings,
    network: &NetworkRow,
    subnet: SubnetRow,
    lease: &Lease,
) -> Result<PlannedRow<SubnetRow>, OutOfMemory>
    requires within { drawn.first + (if lease.now.makes then 2 else 1) ≤ 2 ^ 62 }
    requires makes { lease.now.makes
        ≡ upkeep.makes_dhcp_port drawn.draft.rows.ports network.now.id subnet.dhcp }
    requires new_subnet { row_of (λ s. s.id) (ident drawn.ordinal drawn.first)
        drawn.draft.rows.subnets ≡ None }
    requires new_port { lease.now.makes ≡ true
        → row_of (λ p. p.id) (ident drawn.ordinal (drawn.first + 1)) drawn.draft.rows.ports
        ≡ None }
    ensures start { IfOk result (λ p. p.draft.start ≡ drawn.draft.start) }
    ensures row { IfOk result
        (λ p. p.row ≡ record subnet { id = ident drawn.ordinal drawn.first }) }
    ensures rows { IfOk result
        (λ p. p.draft.rows
        ≡ made drawn.draft.rows
        (Add (SubnetOf p.row)
        ∷ upkeep.begin_serving settings.now drawn.draft.rows network.now p.row.dhcp
        (ident drawn.ordinal (drawn.first + 1)) lease.now.mac
        (fixed_at p.row.id lease.now.address))) }
{
    let Drawn {
        draft,
        ordinal,
        first,
    } = drawn;
    let mut subnet = subnet;
    subnet.id = Id::make(ordinal, first);
    let fixed = Fixed {
        subnet: subnet.id,
        address: lease.address,
    };
    let next = NextPort {
        ordinal,
        count: first + 1,
        mac: lease.mac,
    };
    let draft = draft.add(alloc, subnet.copy(alloc)?)?;
    let draft = begin_serving(alloc, draft, settings, network, subnet.dhcp, next, fixed)?;
    Ok(PlannedRow { draft, row: subnet })
}

// Where the creation leads of a subnet with these addresses on a network that is found.
fn make_subnet(
    alloc: Global,
    asking: &Asking<'_>,
    form: &SubnetForm,
    network: &NetworkRow,
    ranges: Ranges,
) -> Result<PlannedRow<SubnetRow>, Refusal>
    requires named { not (is_empty network.now.project) ≡ true }
    requires fits { fits_eui (subnet_calls.new_subnet form.now network.now no_id) ≡ true }
    requires prefix { ranges.prefix ≡ subnet_calls.prefix_asked form.now }
    requires gateway { ranges.gateway ≡ subnet_calls.gateway_asked form.now }
    requires pools { ranges.pools ≡ subnet_calls.pools_asked form.now }
    ensures ok { IfOk result
        (λ p. Leads asking.now.state.rows
        (subnet_made asking.now.settings asking.now.state asking.now.caller form.now network.now
        (upkeep.makes_dhcp_port asking.now.state.rows.ports network.now.id
        (dhcp_asked form.now)))
        p.draft (λ after. NewRow (subnet_shown after asking.now.caller p.row []))) }
    ensures err { IfErr result
        (IsRefusalOf
        (subnet_made asking.now.settings asking.now.state asking.now.caller form.now network.now
        (upkeep.makes_dhcp_port asking.now.state.rows.ports network.now.id
        (dhcp_asked form.now)))) }
{
    ensure_creatable(asking, network)?;
    let subnet = new_subnet(alloc, form, network, ranges, Id::make(0, 0))?; // its id is drawn below
    let lease = lease_for(alloc, asking.rows(), network.id, subnet.dhcp, &subnet)?;
    let drawn = asking.draw(alloc, &network.project, ids_taken(lease.makes))?;
    Ok(add_subnet(alloc, drawn, asking.settings(), network, subnet, &lease)?)
}

/// The plan of a subnet's creation, or why it is refused. Its cost and memory grow with the
/// subnets, the ports and their addresses, the projects and the hosts, and not with the pools'
/// size.
pub fn create_subnet(
    alloc: Global,
    asking: &Asking<'_>,
    form: &SubnetForm,
) -> Result<PlannedRow<SubnetRow>, Refusal>
    requires in_form { is_subnet_body form.now ≡ true }
    requires cidr { is_there form.now.cidr ≡ true }
    ensures ok { IfOk result
        (λ p. Leads asking.now.state.rows
        (subnet_created asking.now.settings asking.now.state asking.now.caller form.now) p.draft
        (λ after. NewRow (subnet_shown after asking.now.caller p.row []))) }
    ensures err { IfErr result
        (IsRefusalOf
        (subnet_created asking.now.settings asking.now.state asking.now.caller form.now)) }
{
    let rows = asking.rows();
    let caller = asking.caller();
    let ranges = read_ranges(alloc, rows, caller, form)?;
    let Some(network) = network_seen(rows, caller, value_of(&form.network_id)) else {
        let id = value_of(&form.network_id);
        return Err(none_with_id(alloc, Kind::Network, id));
    };
    make_subnet(alloc, asking, form, network, ranges)
}
