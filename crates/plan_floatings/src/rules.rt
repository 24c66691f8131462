//! The rules of a floating address's attributes.

ghost use Rattle.std.specs.Prelude.{◌≡◌, ◌&&◌, None, if◌then◌else◌, not, option_and_then, option_copied};
ghost use Rattle.api_types.specs.Given as given;
ghost use Rattle.net_addr.specs.declared.address.Addr.TheVariants.{V4 as FourOf};
ghost use Rattle.call_parts.specs.Answers.{Passes};
ghost use Rattle.plan_floatings.specs.FloatingCalls as floating_calls;
ghost use Rattle.plan_floatings.specs.FloatingRules.{bad_address, bad_aim, bad_outside};
ghost use Rattle.plan_floatings.specs.FloatingRules as floating_rules;
ghost use Rattle.plan_floatings.specs.Plans.{form_refusal, lacking_refusal};

use api_floating::{fixed_for, is_foreign};
use api_types::{Caller, FloatingForm, Id, NetworkRow, PortRow, Refusal, Rows, SubnetRow};
use call_parts::{are_unlike, invalid, is_for_other, is_given, value_of};
use net_addr::{Addr, Addr4, Text};
use std::alloc::Global;

fn lacks_port(form: &FloatingForm) -> bool
    ensures { result ≡ floating_calls.lacks_port form.now }
{
    is_given(&form.fixed_ip_address) && value_of(&form.port_id).is_none()
}

/// Refuses an address of a port that isn't named.
pub(crate) fn ensure_port_named(alloc: Global, form: &FloatingForm) -> Result<(), Refusal>
    ensures { Passes (lacking_refusal form.now) result }
{
    if lacks_port(form) {
        return Err(invalid(alloc, "fixed_ip_address"));
    }
    Ok(())
}

/// Refuses what the body's attributes forbid each other.
pub(crate) fn ensure_form_valid(alloc: Global, form: &FloatingForm) -> Result<(), Refusal>
    ensures { Passes (form_refusal form.now) result }
{
    ensure_port_named(alloc, form)?;
    if are_unlike(&form.project_id, &form.tenant_id) {
        return Err(invalid(alloc, "tenant_id"));
    }
    Ok(())
}

fn ensure_external(
    alloc: Global,
    rows: &Rows,
    owner: &Text,
    network: &NetworkRow,
) -> Result<(), Refusal>
    ensures { Passes (bad_outside rows.now owner.now network.now) result }
{
    if rows.is_external_to(network.id, owner) {
        return Ok(());
    }
    Err(invalid(alloc, "floating_network_id"))
}

/// Refuses a network that isn't external to the owner. A caller who is no administrator and names
/// another project isn't told.
pub(crate) fn ensure_network_external(
    alloc: Global,
    rows: &Rows,
    caller: &Caller,
    form: &FloatingForm,
    owner: &Text,
    network: Option<&NetworkRow>,
) -> Result<(), Refusal>
    ensures { Passes
        (if not caller.now.admin
        && given.is_for_other caller.now form.now.project_id form.now.tenant_id then None else
        option_and_then (bad_outside rows.now owner.now) (option_copied network.entry)) result }
{
    if !caller.admin && is_for_other(caller, &form.project_id, &form.tenant_id) {
        return Ok(());
    }
    match network {
        Some(network) => ensure_external(alloc, rows, owner, network),
        None => Ok(()),
    }
}

/// The first subnet of the network in which the address is a host address. Its cost grows with the
/// subnets.
pub(crate) fn subnet_with(rows: &Rows, network: Id, address: Addr4) -> Option<&SubnetRow>
    ensures { option_copied result ≡ floating_rules.subnet_with rows.now network (FourOf address) }
{
    for subnet in rows.subnets().rows() {
        if network == subnet.network && subnet.prefix.is_host(Addr::V4(address)) {
            return Some(subnet);
        }
    }
    None
}

fn ensure_host_address(
    alloc: Global,
    rows: &Rows,
    named: Option<Addr4>,
    network: &NetworkRow,
) -> Result<(), Refusal>
    ensures { Passes (bad_address rows.now named network.now) result }
{
    let Some(address) = named else {
        return Ok(());
    };
    match subnet_with(rows, network.id, address) {
        Some(_) => Ok(()),
        None => Err(invalid(alloc, "floating_ip_address")),
    }
}

/// Refuses an address that is no host address of a subnet of the network. Its cost grows with the
/// subnets.
pub(crate) fn ensure_address_fits(
    alloc: Global,
    rows: &Rows,
    form: &FloatingForm,
    network: Option<&NetworkRow>,
) -> Result<(), Refusal>
    ensures { Passes
        (option_and_then (bad_address rows.now (given.value_of form.now.floating_ip_address))
        (option_copied network.entry)) result }
{
    match network {
        Some(network) => {
            ensure_host_address(alloc, rows, value_of(&form.floating_ip_address), network)
        }
        None => Ok(()),
    }
}

/// Refuses a port that is another project's or a service's, and one that hasn't the address.
pub(crate) fn ensure_aim_fits(
    alloc: Global,
    project: &Text,
    address: Option<Addr4>,
    port: &PortRow,
) -> Result<(), Refusal>
    ensures { Passes (bad_aim project.now address port.now) result }
{
    if is_foreign(project, port) {
        return Err(invalid(alloc, "port_id"));
    }
    match fixed_for(address, port.fixed.as_slice()) {
        Some(_) => Ok(()),
        None => Err(invalid(alloc, "fixed_ip_address")),
    }
}
