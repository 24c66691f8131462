//! What forbids a port that is made or changed.

ghost use Rattle.std.specs.Prelude.{◌≡◌, [], Some, option_and_then, option_copied, true};
ghost use Rattle.api_ipam.specs.Euis.{fits_eui};
ghost use Rattle.api_policy.specs.Checks.{IsAnswerOf};
ghost use Rattle.api_policy.specs.Seen.{network_seen};
ghost use Rattle.api_types.specs.Consistent.{IsConsistent};
ghost use Rattle.api_types.specs.Given.{value_of};
ghost use Rattle.api_types.specs.Given as given_specs;
ghost use Rattle.api_types.specs.HeldAddresses as held_addresses;
ghost use Rattle.api_types.specs.Lists.{Pass};
ghost use Rattle.call_parts.specs.Answers.{Passes};
ghost use Rattle.plan_ports.specs.Plans.{change_refusal, first_refused, first_taken, holder_refusal, next_bad, next_refused, next_taken, standing_refusal};
ghost use Rattle.plan_ports.specs.PortCalls.{bad_bare_after, bad_first_fixed, body_refusal};
ghost use Rattle.plan_ports.specs.PortCalls as port_calls;
ghost use Rattle.plan_ports.specs.PortRules.{bad_bare};

use crate::rules::{
    ensure_bare, ensure_groups_owned, ensure_placed, ensure_subnets_seen, is_bare, is_groupless,
    is_pairless, items_of,
};
use crate::supply::{Supply, ensure_addresses_free, mac_at_first};
use api_ipam::{first_known, next_known, old_renewed, subnets_on};
use api_policy::{
    admin_only, network_access, network_owner, over_quota, owner_only, port_for_admin,
    port_for_owner, service_in_use,
};
use api_types::{
    Caller, Given, Id, Kind, NetworkRow, PortForm, PortRow, Refusal, Rows, Shared, Value,
};
use call_parts::{Asking, are_unlike, invalid, is_given, value_or};
use net_addr::{Mac, Text};
use std::alloc::Global;

fn is_mac_held(ports: &[Shared<PortRow>], network: Id, mac: Mac) -> bool
    ensures { result ≡ held_addresses.is_mac_held ports.now network mac }
{
    ports
        .iter()
        .any(|port| network == port.network && port.mac == mac)
}

fn ensure_not_held(held: bool, mac: Mac, network: Id) -> Result<(), Refusal>
    ensures { IsAnswerOf (port_calls.mac_taken (λ m. held) network (Some mac)) result }
{
    if held {
        let value = Value::Mac(mac);
        return Err(Refusal::Taken { value, network });
    }
    Ok(())
}

// Refuses a MAC address that is given and that a port of the network has.
fn ensure_mac_free(
    ports: &[Shared<PortRow>],
    network: Id,
    given: &Given<Mac>,
) -> Result<(), Refusal>
    ensures { IsAnswerOf
        (port_calls.mac_taken
        (held_addresses.is_mac_held ports.now network) network (value_of given.now)) result }
{
    match given {
        Given::Is(mac) => ensure_not_held(is_mac_held(ports, network, *mac), *mac, network),
        _ => Ok(()),
    }
}

fn is_mac_of_other(ports: &[Shared<PortRow>], port: &PortRow, mac: Mac) -> bool
    ensures { result ≡ held_addresses.is_mac_of_other ports.now port.now mac }
{
    is_mac_held(ports, port.network, mac) && port.mac != mac
}

// Refuses a MAC address that is given and that another port of the network has.
fn ensure_mac_free_for(
    ports: &[Shared<PortRow>],
    port: &PortRow,
    given: &Given<Mac>,
) -> Result<(), Refusal>
    ensures { IsAnswerOf
        (port_calls.mac_taken
        (held_addresses.is_mac_of_other ports.now port.now) port.now.network (value_of given.now))
        result }
{
    match given {
        Given::Is(mac) => ensure_not_held(is_mac_of_other(ports, port, *mac), *mac, port.network),
        _ => Ok(()),
    }
}

// Refuses addresses that break the rule of `fixed_ips`, where the network is seen.
fn ensure_first_placed(
    alloc: Global,
    rows: &Rows,
    caller: &Caller,
    form: &PortForm,
    network: &NetworkRow,
) -> Result<(), Refusal>
    requires { IsConsistent rows.now }
    ensures { Passes (bad_first_fixed rows.now caller.now form.now network.now) result }
{
    let items = items_of(form);
    if items.len() == 0 {
        return Ok(());
    }
    let subnets = subnets_on(alloc, rows.subnets().rows(), network.id)?;
    let mac = mac_at_first(rows.ports().rows(), network.id, form);
    ensure_placed(alloc, rows, caller, subnets.as_slice(), mac, &[], items)
}

fn ensure_placed_on(
    alloc: Global,
    rows: &Rows,
    caller: &Caller,
    form: &PortForm,
    network: Option<&NetworkRow>,
) -> Result<(), Refusal>
    requires { IsConsistent rows.now }
    ensures { Passes
        (option_and_then (bad_first_fixed rows.now caller.now form.now)
        (option_copied network.entry)) result }
{
    match network {
        Some(network) => ensure_first_placed(alloc, rows, caller, form, network),
        None => Ok(()),
    }
}

// Refuses groups and pairs of a new port without port security.
fn ensure_body_bare(alloc: Global, form: &PortForm) -> Result<(), Refusal>
    ensures { Passes
        (bad_bare (given_specs.value_or true form.now.port_security_enabled)
        (given_specs.value_or [] form.now.security_groups)
        (given_specs.value_or [] form.now.allowed_address_pairs)) result }
{
    ensure_bare(
        alloc,
        value_or(true, &form.port_security_enabled),
        is_bare(&form.security_groups),
        is_bare(&form.allowed_address_pairs),
    )
}

/// Refuses the body of a new port that breaks a rule, or names a subnet that isn't seen, where this
/// is the network that is seen. Its cost grows with the subnets, the ports and the policies.
pub(crate) fn ensure_body_valid(
    alloc: Global,
    rows: &Rows,
    caller: &Caller,
    form: &PortForm,
    network: Option<&NetworkRow>,
) -> Result<(), Refusal>
    requires consistent { IsConsistent rows.now }
    requires seen { option_copied network
        ≡ network_seen rows.now caller.now (value_of form.now.network_id) }
    ensures { Passes (body_refusal rows.now caller.now form.now) result }
{
    if are_unlike(&form.project_id, &form.tenant_id) {
        return Err(invalid(alloc, "tenant_id"));
    }
    ensure_placed_on(alloc, rows, caller, form, network)?;
    ensure_body_bare(alloc, form)?;
    ensure_subnets_seen(alloc, rows, caller, items_of(form))
}

// Refuses a group that isn't the owner's, and what the rules of policy forbid on the network.
fn ensure_permitted(
    alloc: Global,
    rows: &Rows,
    caller: &Caller,
    form: &PortForm,
    network: &NetworkRow,
    owner: &Text,
) -> Result<(), Refusal>
    ensures { Passes
        (standing_refusal rows.now caller.now form.now network.now owner.now) result }
{
    ensure_groups_owned(alloc, rows, caller, owner, &form.security_groups)?;
    admin_only(caller, port_for_admin(caller, form))?;
    network_owner(rows, caller, port_for_owner(form), network.id)?;
    network_access(rows, caller, network.id)
}

// Refuses an address that is known of the new port and held, and then its MAC address.
fn ensure_values_free(
    alloc: Global,
    rows: &Rows,
    form: &PortForm,
    network: Id,
    supply: &Supply,
) -> Result<(), Refusal>
    requires { Pass fits_eui supply.now.subnets }
    ensures { Passes (first_taken rows.now form.now network supply.now) result }
{
    let known = first_known(
        alloc,
        supply.subnets.as_slice(),
        supply.mac,
        &form.fixed_ips,
    )?;
    ensure_addresses_free(&supply.held, network, known.as_slice())?;
    ensure_mac_free(rows.ports().rows(), network, &form.mac_address)
}

/// Refuses a port on the network that breaks a rule of policy, whose addresses are held there, or
/// that would be above the owner's quota. Its cost grows with the ports and the policies.
pub(crate) fn ensure_creatable(
    alloc: Global,
    asking: &Asking<'_>,
    form: &PortForm,
    network: &NetworkRow,
    owner: &Text,
    supply: &Supply,
) -> Result<(), Refusal>
    requires { Pass fits_eui supply.now.subnets }
    ensures { Passes
        (first_refused asking.now.settings asking.now.state.rows asking.now.caller form.now
        network.now owner.now supply.now) result }
{
    let (rows, caller) = (asking.rows(), asking.caller());
    ensure_permitted(alloc, rows, caller, form, network, owner)?;
    ensure_values_free(alloc, rows, form, network.id, supply)?;
    over_quota(rows, asking.settings(), owner, Kind::Port)
}

// Refuses addresses that break the rule of `fixed_ips`, by those that the port has.
fn ensure_next_placed(
    alloc: Global,
    rows: &Rows,
    caller: &Caller,
    form: &PortForm,
    port: &PortRow,
    supply: &Supply,
) -> Result<(), Refusal>
    requires { Pass fits_eui supply.now.subnets }
    ensures { Passes (next_bad rows.now caller.now form.now port.now supply.now) result }
{
    let subnets = supply.subnets.as_slice();
    let old = old_renewed(alloc, subnets, port, supply.mac)?;
    ensure_placed(
        alloc,
        rows,
        caller,
        subnets,
        supply.mac,
        old.as_slice(),
        items_of(form),
    )
}

// Refuses groups and pairs of a port without port security, as all would stand.
fn ensure_bare_after(alloc: Global, form: &PortForm, port: &PortRow) -> Result<(), Refusal>
    ensures { Passes (bad_bare_after form.now port.now) result }
{
    ensure_bare(
        alloc,
        value_or(port.secured, &form.port_security_enabled),
        is_groupless(&form.security_groups, &port.groups),
        is_pairless(&form.allowed_address_pairs, &port.pairs),
    )
}

// Refuses a change that breaks a rule, or names a subnet or a group that isn't seen.
fn ensure_change_valid(
    alloc: Global,
    rows: &Rows,
    caller: &Caller,
    form: &PortForm,
    port: &PortRow,
    supply: &Supply,
) -> Result<(), Refusal>
    requires { Pass fits_eui supply.now.subnets }
    ensures { Passes (change_refusal rows.now caller.now form.now port.now supply.now) result }
{
    ensure_next_placed(alloc, rows, caller, form, port, supply)?;
    ensure_bare_after(alloc, form, port)?;
    ensure_subnets_seen(alloc, rows, caller, items_of(form))?;
    ensure_groups_owned(alloc, rows, caller, &port.project, &form.security_groups)
}

// A service's port is changed in name and description alone.
fn changes_service(form: &PortForm) -> bool
    ensures { result ≡ port_calls.changes_service form.now }
{
    is_given(&form.admin_state_up)
        || is_given(&form.mac_address)
        || is_given(&form.fixed_ips)
        || is_given(&form.allowed_address_pairs)
        || is_given(&form.port_security_enabled)
        || is_given(&form.security_groups)
        || is_given(&form.device_id)
        || is_given(&form.device_owner)
        || is_given(&form.binding_host_id)
        || is_given(&form.binding_vnic_type)
}

// Refuses what the rules of policy forbid, and a service's port.
fn ensure_change_permitted(
    rows: &Rows,
    caller: &Caller,
    form: &PortForm,
    port: &PortRow,
) -> Result<(), Refusal>
    ensures { IsAnswerOf (holder_refusal rows.now caller.now form.now port.now) result }
{
    admin_only(caller, port_for_admin(caller, form))?;
    owner_only(caller, &port.project)?;
    network_owner(rows, caller, port_for_owner(form), port.network)?;
    service_in_use(rows, caller, changes_service(form), port)
}

// Refuses an address that is known of the port and that another holds, and then its MAC address.
fn ensure_next_values_free(
    alloc: Global,
    rows: &Rows,
    form: &PortForm,
    port: &PortRow,
    supply: &Supply,
) -> Result<(), Refusal>
    requires { Pass fits_eui supply.now.subnets }
    ensures { Passes (next_taken rows.now form.now port.now supply.now) result }
{
    let subnets = supply.subnets.as_slice();
    let known = next_known(alloc, subnets, port, supply.mac, &form.fixed_ips)?;
    ensure_addresses_free(&supply.held, port.network, known.as_slice())?;
    ensure_mac_free_for(rows.ports().rows(), port, &form.mac_address)
}

/// Refuses a change of the port that breaks a rule, that is another's to make, or whose addresses
/// others hold. Its cost grows with the ports, the policies, the routers and the floating
/// addresses.
pub(crate) fn ensure_changeable(
    alloc: Global,
    rows: &Rows,
    caller: &Caller,
    form: &PortForm,
    port: &PortRow,
    supply: &Supply,
) -> Result<(), Refusal>
    requires { Pass fits_eui supply.now.subnets }
    ensures { Passes (next_refused rows.now caller.now form.now port.now supply.now) result }
{
    ensure_change_valid(alloc, rows, caller, form, port, supply)?;
    ensure_change_permitted(rows, caller, form, port)?;
    ensure_next_values_free(alloc, rows, form, port, supply)
}
