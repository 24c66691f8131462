//! What bodies ask for that is for administrators alone, or for the owner of a network.

ghost use Rattle.std.specs.Prelude.{◌≡◌, [], is_some, not};
ghost use Rattle.std.specs.List.{filter_map, list_any};
ghost use Rattle.api_types.specs.Given.{value_of, value_or};
ghost use Rattle.api_types.specs.Given as given_specs;
ghost use Rattle.api_types.specs.Lists.{is_empty};
ghost use Rattle.api_types.specs.Sharing.{is_action};
ghost use Rattle.api_types.specs.declared.policy.Action.TheVariants.{External as ExternalAction, Shared as SharedAction};
ghost use Rattle.api_types.specs.declared.form.FixedAsked.{FixedAsked as TheFixedAsked};
ghost use Rattle.api_policy.specs.Reserved as reserved;

use api_types::{
    Action, Caller, FixedAsked, FloatingForm, Given, Id, NetworkForm, PolicyForm, PortForm,
    RouterForm,
};
use net_addr::{Seq, Text};

fn is_given<T>(given: &Given<T>) -> bool
    ensures { result ≡ given_specs.is_given given.now }
{
    match given {
        Given::Absent => false,
        Given::Null => true,
        Given::Is(_) => true,
    }
}

// The id that the body gives.
pub(crate) fn given_id(given: &Given<Id>) -> Option<Id>
    ensures { result ≡ value_of given.now }
{
    match given {
        Given::Is(id) => Some(*id),
        _ => None,
    }
}

fn is_other(caller: &Caller, given: &Given<Text>) -> bool
    ensures { result ≡ given_specs.is_other caller.now given.now }
{
    match given {
        Given::Is(name) => *name != caller.project,
        _ => false,
    }
}

// Whether another project than the caller's is named.
pub(crate) fn is_for_other(caller: &Caller, project: &Given<Text>, tenant: &Given<Text>) -> bool
    ensures { result ≡ given_specs.is_for_other caller.now project.now tenant.now }
{
    is_other(caller, project) || is_other(caller, tenant)
}

/// Whether a network's body asks for what is for administrators alone: sharing, how the network is
/// carried, or another project.
pub fn network_for_admin(caller: &Caller, form: &NetworkForm) -> bool
    ensures { result ≡ reserved.network_for_admin caller.now form.now }
{
    is_given(&form.shared)
        || is_given(&form.router_external)
        || is_given(&form.provider_network_type)
        || is_given(&form.provider_physical_network)
        || is_given(&form.provider_segmentation_id)
        || is_for_other(caller, &form.project_id, &form.tenant_id)
}

/// Whether a port's body asks for what is for administrators alone: a host, or another project.
pub fn port_for_admin(caller: &Caller, form: &PortForm) -> bool
    ensures { result ≡ reserved.port_for_admin caller.now form.now }
{
    is_given(&form.binding_host_id) || is_for_other(caller, &form.project_id, &form.tenant_id)
}

fn is_address_named(items: &[FixedAsked]) -> bool
    ensures { result ≡ list_any (λ (item : TheFixedAsked). is_some item.address) items.now }
{
    items.iter().any(|item| item.address.is_some())
}

// Whether an address of one's choice is asked for.
fn names_address(fixed: &Given<Seq<FixedAsked>>) -> bool
    ensures { result ≡ not (is_empty (filter_map (λ (item : TheFixedAsked). item.address)
        (value_or [] fixed.now))) }
{
    match fixed {
        Given::Is(items) => is_address_named(items.as_slice()),
        _ => false,
    }
}

/// Whether a port's body asks for what is for the owner of its network alone: a MAC address, pairs,
/// port security, or an address of one's choice.
pub fn port_for_owner(form: &PortForm) -> bool
    ensures { result ≡ reserved.port_for_owner form.now }
{
    is_given(&form.mac_address)
        || is_given(&form.allowed_address_pairs)
        || is_given(&form.port_security_enabled)
        || names_address(&form.fixed_ips)
}

/// Whether a router's body says that sources are, or aren't, translated.
pub fn is_snat_asked(form: &RouterForm) -> bool
    ensures { result ≡ is_some (reserved.snat_asked form.now) }
{
    match &form.external_gateway_info {
        Given::Is(gateway) => gateway.snat.is_some(),
        _ => false,
    }
}

/// Whether a router's body asks for what is for administrators alone: whether sources are
/// translated, or another project.
pub fn router_for_admin(caller: &Caller, form: &RouterForm) -> bool
    ensures { result ≡ reserved.router_for_admin caller.now form.now }
{
    is_snat_asked(form) || is_for_other(caller, &form.project_id, &form.tenant_id)
}

/// Whether a floating address's body asks for what is for administrators alone: an address of one's
/// choice, or another project.
pub fn floating_for_admin(caller: &Caller, form: &FloatingForm) -> bool
    ensures { result ≡ reserved.floating_for_admin caller.now form.now }
{
    is_given(&form.floating_ip_address) || is_for_other(caller, &form.project_id, &form.tenant_id)
}

fn is_for_all(form: &PolicyForm) -> bool
    ensures { result ≡ reserved.is_for_all form.now }
{
    match &form.target_tenant {
        Given::Is(target) => target.as_str() == "*",
        _ => false,
    }
}

fn is_external(form: &PolicyForm) -> bool
    ensures { result ≡ is_action ExternalAction (value_or SharedAction form.now.action) }
{
    match &form.action {
        Given::Is(action) => Action::External == *action,
        _ => false,
    }
}

/// Whether a policy's body asks for what is for administrators alone: the target `*`, an external
/// network, or another project.
pub fn policy_for_admin(caller: &Caller, form: &PolicyForm) -> bool
    ensures { result ≡ reserved.policy_for_admin caller.now form.now }
{
    is_for_all(form) || is_external(form) || is_for_other(caller, &form.project_id, &form.tenant_id)
}
