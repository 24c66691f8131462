//! The rules of a port's attributes, and the rows that a body names.

ghost use Rattle.std.specs.Prelude.{◌≡◌, [], ℕ, IfOk, find, not, option_copied};
ghost use Rattle.std.specs.List.{list_all};
ghost use Rattle.api_ipam.specs.Euis.{fits_eui};
ghost use Rattle.api_ipam.specs.FixedChoice as fixed_choice;
ghost use Rattle.api_types.specs.Given as given_specs;
ghost use Rattle.api_types.specs.Lists.{Pass, is_empty};
ghost use Rattle.api_types.specs.declared.kind.Kind.TheVariants.{Group as GroupKind, Subnet as SubnetKind};
ghost use Rattle.call_parts.specs.Answers.{Passes};
ghost use Rattle.call_parts.specs.BodyNames.{unless_all};
ghost use Rattle.plan_ports.specs.Plans.{bare_refusal};
ghost use Rattle.plan_ports.specs.PortCalls.{pairs_after};
ghost use Rattle.plan_ports.specs.PortCalls as port_calls;
ghost use Rattle.plan_ports.specs.PortRules.{bad_fixed};
ghost use Rattle.plan_ports.specs.PortRules as port_rules;

use api_ipam::are_placed;
use api_policy::{group_seen, subnet_seen};
use api_types::{
    Caller, Fixed, FixedAsked, Given, Id, Kind, Pair, PairAsked, PortForm, Refusal, Rows, Shared,
    SubnetRow,
};
use call_parts::{invalid, none_with_id};
use net_addr::{Mac, OutOfMemory, Seq, Text};
use std::alloc::Global;

/// The addresses that the body asks for.
pub(crate) fn items_of(form: &PortForm) -> &[FixedAsked]
    ensures { result.now ≡ port_calls.items_of form.now }
{
    match &form.fixed_ips {
        Given::Is(items) => items.as_slice(),
        _ => &[],
    }
}

// The ids of subnets that the items name.
fn named_subnets(alloc: Global, items: &[FixedAsked]) -> Result<Seq<Id>, OutOfMemory>
    ensures { IfOk result (λ ids. ids ≡ fixed_choice.named_subnets items.now) }
{
    let mut named = Seq::new(alloc);
    for item in items {
        if let Some(id) = item.subnet {
            named.push(id)?;
        }
    }
    Ok(named)
}

fn is_subnet_seen(rows: &Rows, caller: &Caller, id: Id) -> bool
    ensures { result ≡ port_rules.is_subnet_seen rows.now caller.now id }
{
    subnet_seen(rows, caller, Some(id)).is_some()
}

fn unseen_subnet<'i>(rows: &Rows, caller: &Caller, named: &'i [Id]) -> Option<&'i Id>
    ensures { option_copied result
        ≡ find (λ i. not (port_rules.is_subnet_seen rows.now caller.now i)) named.now }
{
    named.iter().find(|id| !is_subnet_seen(rows, caller, **id))
}

fn are_subnets_seen(rows: &Rows, caller: &Caller, named: &[Id]) -> bool
    ensures { result ≡ list_all (port_rules.is_subnet_seen rows.now caller.now) named.now }
{
    named.iter().all(|id| is_subnet_seen(rows, caller, *id))
}

/// Refuses a list of addresses that breaks the rule of `fixed_ips`, where the subnets that it names
/// are seen. Its cost grows with the items, times the subnets and the policies.
pub(crate) fn ensure_placed(
    alloc: Global,
    rows: &Rows,
    caller: &Caller,
    subnets: &[Shared<SubnetRow>],
    mac: Mac,
    old: &[Fixed],
    items: &[FixedAsked],
) -> Result<(), Refusal>
    requires { Pass fits_eui subnets.now }
    ensures { Passes (bad_fixed rows.now caller.now subnets.now mac old.now items.now) result }
{
    let named = named_subnets(alloc, items)?;
    if !are_subnets_seen(rows, caller, named.as_slice()) {
        return Ok(());
    }
    if are_placed(alloc, subnets, mac, old, items)? {
        return Ok(());
    }
    Err(invalid(alloc, "fixed_ips"))
}

/// Refuses the first named subnet that isn't seen. Its cost grows with the names, times the
/// policies.
pub(crate) fn ensure_subnets_seen(
    alloc: Global,
    rows: &Rows,
    caller: &Caller,
    items: &[FixedAsked],
) -> Result<(), Refusal>
    ensures { Passes
        (unless_all SubnetKind (port_rules.is_subnet_seen rows.now caller.now)
        (fixed_choice.named_subnets items.now)) result }
{
    let named = named_subnets(alloc, items)?;
    match unseen_subnet(rows, caller, named.as_slice()) {
        Some(id) => Err(none_with_id(alloc, Kind::Subnet, Some(*id))),
        None => Ok(()),
    }
}

// The security groups that the body names.
fn group_names(named: &Given<Seq<Id>>) -> &[Id]
    ensures { result.now ≡ given_specs.value_or [] named.now }
{
    match named {
        Given::Is(ids) => ids.as_slice(),
        _ => &[],
    }
}

// Whether the group is there, is seen, and is of the project.
fn is_group_for(rows: &Rows, caller: &Caller, project: &Text, id: Id) -> bool
    ensures { result ≡ port_calls.is_group_for rows.now caller.now project.now id }
{
    match group_seen(rows, caller, Some(id)) {
        Some(group) => group.project == *project,
        None => false,
    }
}

fn other_group<'i>(rows: &Rows, caller: &Caller, project: &Text, named: &'i [Id]) -> Option<&'i Id>
    ensures { option_copied result
        ≡ find (λ i. not (port_calls.is_group_for rows.now caller.now project.now i)) named.now }
{
    named
        .iter()
        .find(|id| !is_group_for(rows, caller, project, **id))
}

/// Refuses the first named group that isn't seen, or that is of another project than this one.
pub(crate) fn ensure_groups_owned(
    alloc: Global,
    rows: &Rows,
    caller: &Caller,
    project: &Text,
    named: &Given<Seq<Id>>,
) -> Result<(), Refusal>
    ensures { Passes
        (unless_all GroupKind (port_calls.is_group_for rows.now caller.now project.now)
        (given_specs.value_or [] named.now)) result }
{
    match other_group(rows, caller, project, group_names(named)) {
        Some(id) => Err(none_with_id(alloc, Kind::Group, Some(*id))),
        None => Ok(()),
    }
}

/// Whether the list that is given is empty, or none is given.
pub(crate) fn is_bare<T>(given: &Given<Seq<T>>) -> bool
    ensures { result ≡ is_empty (given_specs.value_or [] given.now) }
{
    match given {
        Given::Is(items) => items.len() == 0,
        _ => true,
    }
}

/// Whether the port will have no groups.
pub(crate) fn is_groupless(named: &Given<Seq<Id>>, old: &Seq<Id>) -> bool
    ensures { result ≡ is_empty (given_specs.value_or old.now named.now) }
{
    match named {
        Given::Is(ids) => ids.len() == 0,
        _ => old.len() == 0,
    }
}

/// Whether the port will have no pairs, whatever its MAC address.
pub(crate) fn is_pairless(asked: &Given<Seq<PairAsked>>, old: &Seq<Pair>) -> bool
    ensures { (mac : ℕ) → result ≡ is_empty (pairs_after mac asked.now old.now) }
{
    match asked {
        Given::Is(pairs) => pairs.len() == 0,
        _ => old.len() == 0,
    }
}

/// Refuses groups and pairs of a port without port security.
pub(crate) fn ensure_bare(
    alloc: Global,
    secured: bool,
    no_groups: bool,
    no_pairs: bool,
) -> Result<(), Refusal>
    ensures { Passes (bare_refusal secured no_groups no_pairs) result }
{
    if !secured && !no_groups {
        return Err(invalid(alloc, "security_groups"));
    }
    if !secured && !no_pairs {
        return Err(invalid(alloc, "allowed_address_pairs"));
    }
    Ok(())
}
