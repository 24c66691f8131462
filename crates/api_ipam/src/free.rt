//! The addresses of a port for which none are asked for.

ghost use Rattle.std.specs.Prelude.{◌≡◌, ◌++◌, ◌+◌, ◌-◌, IfOk, filter, is_some, not, option_map, take, true};
ghost use Rattle.std.specs.List.{list_any};
ghost use Rattle.api_types.specs.Lists.{Pass};
ghost use Rattle.api_ipam.specs.Euis.{fits_eui};
ghost use Rattle.api_ipam.specs.FixedChoice.{is_in};
ghost use Rattle.api_ipam.specs.FixedChoice as fixed_choice;

use crate::euis::{eui_of, is_eui};
use crate::held::HeldAddresses;
use crate::least::least_free_address;
use api_types::{Fixed, FixedList, Shared, SubnetRow};
use net_addr::{Copies, Mac, OutOfMemory, Seq};
use std::alloc::Global;

fn is_pool_four(subnet: &SubnetRow) -> bool
    ensures { result ≡ fixed_choice.is_pool_four subnet.now }
{
    subnet.prefix.base.is_v4() && !is_eui(subnet)
}

fn is_pool_six(subnet: &SubnetRow) -> bool
    ensures { result ≡ fixed_choice.is_pool_six subnet.now }
{
    !subnet.prefix.base.is_v4() && !is_eui(subnet)
}

fn pool_fours(
    alloc: Global,
    subnets: &[Shared<SubnetRow>],
) -> Result<Seq<Shared<SubnetRow>>, OutOfMemory>
    ensures { IfOk result (λ found. found ≡ filter fixed_choice.is_pool_four subnets.now) }
{
    let mut found = Seq::new(alloc);
    for subnet in subnets {
        if is_pool_four(subnet) {
            found.push(subnet.copy(alloc)?)?;
        }
    }
    Ok(found)
}

fn pool_sixes(
    alloc: Global,
    subnets: &[Shared<SubnetRow>],
) -> Result<Seq<Shared<SubnetRow>>, OutOfMemory>
    ensures { IfOk result (λ found. found ≡ filter fixed_choice.is_pool_six subnets.now) }
{
    let mut found = Seq::new(alloc);
    for subnet in subnets {
        if is_pool_six(subnet) {
            found.push(subnet.copy(alloc)?)?;
        }
    }
    Ok(found)
}

// The least free pool address of the first of these subnets that has one.
fn first_free(held: &HeldAddresses, subnets: &[Shared<SubnetRow>]) -> Option<Fixed>
    ensures { result ≡ fixed_choice.first_free (λ x. not (is_in held.now x)) subnets.now }
{
    for subnet in subnets {
        if let Some(address) = least_free_address(held, subnet.pools.as_slice()) {
            return Some(Fixed {
                subnet: subnet.id,
                address,
            });
        }
    }
    None
}

// An address of one of these subnets, where there are any.
fn any_address(
    alloc: Global,
    held: &HeldAddresses,
    subnets: &[Shared<SubnetRow>],
) -> Result<Option<FixedList>, OutOfMemory>
    ensures { IfOk result
        (λ o. o ≡ fixed_choice.any_address (λ x. not (is_in held.now x)) subnets.now) }
{
    let mut fixed = Seq::new(alloc);
    if subnets.len() == 0 {
        return Ok(Some(fixed));
    }
    let Some(one) = first_free(held, subnets) else {
        return Ok(None);
    };
    let address = one.address;
    fixed.push(Fixed {
        subnet: one.subnet,
        address,
    })?;
    Ok(Some(fixed))
}

fn joined(fixed: FixedList, more: &[Fixed]) -> Result<FixedList, OutOfMemory>
    ensures { IfOk result (λ list. list ≡ fixed ++ more.now) }
{
    let mut fixed = fixed;
    for one in more {
        fixed.push(*one)?;
    }
    Ok(fixed)
}

// A pool address of version 4 and one of version 6, where there are such subnets.
fn any_of_each(
    alloc: Global,
    held: &HeldAddresses,
    subnets: &[Shared<SubnetRow>],
) -> Result<Option<FixedList>, OutOfMemory>
    ensures { IfOk result
        (λ o. o ≡ fixed_choice.any_of_each (λ x. not (is_in held.now x)) subnets.now) }
{
    let subnets_four = pool_fours(alloc, subnets)?;
    let Some(fours) = any_address(alloc, held, subnets_four.as_slice())? else {
        return Ok(None);
    };
    let subnets_six = pool_sixes(alloc, subnets)?;
    let Some(sixes) = any_address(alloc, held, subnets_six.as_slice())? else {
        return Ok(None);
    };
    Ok(Some(joined(fours, sixes.as_slice())?))
}

// The addresses that the MAC address gives in the subnets, this many at most.
fn few_euis(
    alloc: Global,
    subnets: &[Shared<SubnetRow>],
    mac: Mac,
    most: usize,
) -> Result<FixedList, OutOfMemory>
    requires { Pass fits_eui subnets.now }
    ensures { IfOk result (λ euis. euis ≡ take most (fixed_choice.all_euis mac subnets.now)) }
{
    let mut euis = Seq::new(alloc);
    for subnet in subnets {
        if euis.len() == most {
            return Ok(euis);
        }
        if is_eui(subnet) {
            euis.push(Fixed {
                subnet: subnet.id,
                address: eui_of(subnet, mac),
            })?;
        }
    }
    Ok(euis)
}

fn any_four(subnets: &[Shared<SubnetRow>]) -> bool
    ensures { result ≡ list_any fixed_choice.is_pool_four subnets.now }
{
    subnets.iter().any(|subnet| is_pool_four(subnet))
}

fn any_six(subnets: &[Shared<SubnetRow>]) -> bool
    ensures { result ≡ list_any fixed_choice.is_pool_six subnets.now }
{
    subnets.iter().any(|subnet| is_pool_six(subnet))
}

/// The addresses that the MAC address gives a new port, so many that its list has five at most with
/// its pool addresses. Its cost grows with the subnets.
pub fn first_euis(
    alloc: Global,
    subnets: &[Shared<SubnetRow>],
    mac: Mac,
) -> Result<FixedList, OutOfMemory>
    requires { Pass fits_eui subnets.now }
    ensures { IfOk result (λ euis. euis ≡ fixed_choice.first_euis mac subnets.now) }
{
    let pooled = usize::from(any_four(subnets)) + usize::from(any_six(subnets));
    few_euis(alloc, subnets, mac, 5 - pooled)
}

/// The address that the MAC address gives a gateway's port, where it has no pool address of version
/// 6. Its cost grows with the subnets.
pub fn gateway_euis(
    alloc: Global,
    subnets: &[Shared<SubnetRow>],
    mac: Mac,
) -> Result<FixedList, OutOfMemory>
    requires { Pass fits_eui subnets.now }
    ensures { IfOk result (λ euis. euis ≡ fixed_choice.gateway_euis mac subnets.now) }
{
    if any_six(subnets) {
        return Ok(Seq::new(alloc));
    }
    few_euis(alloc, subnets, mac, 1)
}

/// A pool address of each version for which there is such a subnet, and after them these. There is
/// none where a pool address is missed. Its cost grows with the subnets and their pools, times the
/// held addresses.
pub fn with_euis(
    alloc: Global,
    held: &HeldAddresses,
    subnets: &[Shared<SubnetRow>],
    euis: &[Fixed],
) -> Result<Option<FixedList>, OutOfMemory>
    ensures { IfOk result
        (λ o. o ≡ fixed_choice.with_euis (λ x. not (is_in held.now x)) subnets.now euis.now) }
{
    let Some(chosen) = any_of_each(alloc, held, subnets)? else {
        return Ok(None);
    };
    Ok(Some(joined(chosen, euis)?))
}

/// The addresses of a gateway's port. There are none on a network without a subnet, and where a
/// pool address is missed.
pub fn gateway_addresses(
    alloc: Global,
    held: &HeldAddresses,
    subnets: &[Shared<SubnetRow>],
    mac: Mac,
) -> Result<Option<FixedList>, OutOfMemory>
    requires { Pass fits_eui subnets.now }
    ensures { IfOk result
        (λ o. o ≡ fixed_choice.gateway_addresses (λ x. not (is_in held.now x)) subnets.now mac) }
{
    if subnets.len() == 0 {
        return Ok(None);
    }
    let euis = gateway_euis(alloc, subnets, mac)?;
    with_euis(alloc, held, subnets, euis.as_slice())
}

/// The address of a floating address's port: the least free pool address of the first subnet of
/// version 4 that has one.
pub fn floating_address(
    alloc: Global,
    held: &HeldAddresses,
    subnets: &[Shared<SubnetRow>],
) -> Result<Option<Fixed>, OutOfMemory>
    ensures { IfOk result
        (λ o. o ≡ fixed_choice.floating_address (λ x. not (is_in held.now x)) subnets.now) }
{
    let fours = pool_fours(alloc, subnets)?;
    Ok(first_free(held, fours.as_slice()))
}
