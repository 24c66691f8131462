//! The addresses of a port that is made or changed, by what its body asks for.

ghost use Rattle.std.specs.Prelude.{◌≡◌, IfOk, not, option_copied, true};
ghost use Rattle.api_types.specs.Lists.{Pass, if_some};
ghost use Rattle.api_ipam.specs.Euis.{fits_eui};
ghost use Rattle.api_ipam.specs.FixedChoice.{is_in};
ghost use Rattle.api_ipam.specs.FixedChoice as fixed_choice;

use crate::euis::{eui_of, is_eui};
use crate::filling::all_filled;
use crate::free::{first_euis, with_euis};
use crate::held::HeldAddresses;
use crate::places::{asked_places, known_addresses, subnet_with};
use api_types::{Fixed, FixedAsked, FixedList, Given, PortRow, Shared, SubnetRow};
use net_addr::{Addr, Mac, OutOfMemory, Seq};
use std::alloc::Global;

/// The addresses of a list.
pub fn addresses_of(alloc: Global, fixed: &[Fixed]) -> Result<Seq<Addr>, OutOfMemory>
    ensures { IfOk result (λ xs. xs ≡ fixed_choice.addresses_of fixed.now) }
{
    let mut addresses = Seq::new(alloc);
    for one in fixed {
        addresses.push(one.address)?;
    }
    Ok(addresses)
}

/// The known addresses of a list that is asked for.
pub(crate) fn known_of(
    alloc: Global,
    subnets: &[Shared<SubnetRow>],
    mac: Mac,
    old: &[Fixed],
    items: &[FixedAsked],
) -> Result<Seq<Addr>, OutOfMemory>
    requires { Pass fits_eui subnets.now }
    ensures { IfOk result
        (λ xs. xs
        ≡ fixed_choice.known_addresses
        (fixed_choice.asked_places subnets.now mac old.now items.now)) }
{
    let places = asked_places(alloc, subnets, mac, old, items)?;
    known_addresses(alloc, places.as_slice())
}

/// All addresses of a list that is asked for.
pub(crate) fn filled_of(
    alloc: Global,
    held: HeldAddresses,
    subnets: &[Shared<SubnetRow>],
    mac: Mac,
    old: &[Fixed],
    items: &[FixedAsked],
) -> Result<Option<FixedList>, OutOfMemory>
    requires { Pass fits_eui subnets.now }
    ensures { IfOk result
        (λ o. o
        ≡ fixed_choice.all_filled (λ x. not (is_in held x))
        (fixed_choice.asked_places subnets.now mac old.now items.now)) }
{
    let places = asked_places(alloc, subnets, mac, old, items)?;
    all_filled(alloc, held, places.as_slice())
}

/// What is known of the addresses of a new port before pool addresses are chosen. Its cost grows
/// with the subnets, times the items.
pub fn first_known(
    alloc: Global,
    subnets: &[Shared<SubnetRow>],
    mac: Mac,
    asked: &Given<Seq<FixedAsked>>,
) -> Result<Seq<Addr>, OutOfMemory>
    requires { Pass fits_eui subnets.now }
    ensures { IfOk result (λ xs. xs ≡ fixed_choice.first_known subnets.now mac asked.now) }
{
    match asked {
        Given::Is(items) => known_of(alloc, subnets, mac, &[], items.as_slice()),
        _ => {
            let euis = first_euis(alloc, subnets, mac)?;
            addresses_of(alloc, euis.as_slice())
        }
    }
}

/// The addresses of a new port, by those that are held. There are none where a pool address is
/// missed. Its cost grows with the subnets and their pools, times the items, and with each of these
/// pools, times the held addresses.
pub fn first_addresses(
    alloc: Global,
    held: HeldAddresses,
    subnets: &[Shared<SubnetRow>],
    mac: Mac,
    asked: &Given<Seq<FixedAsked>>,
) -> Result<Option<FixedList>, OutOfMemory>
    requires { Pass fits_eui subnets.now }
    ensures { IfOk result
        (λ o. o
        ≡ fixed_choice.first_addresses (λ x. not (is_in held x)) subnets.now mac asked.now) }
{
    match asked {
        Given::Is(items) => filled_of(alloc, held, subnets, mac, &[], items.as_slice()),
        _ => {
            let euis = first_euis(alloc, subnets, mac)?;
            with_euis(alloc, &held, subnets, euis.as_slice())
        }
    }
}

fn is_eui_in(mac: Mac, address: &Addr, subnet: &SubnetRow) -> bool
    ensures { result ≡ fixed_choice.is_eui_of mac address.now subnet.now }
{
    is_eui(subnet) && subnet.prefix.is_eui(mac, *address)
}

// The address that the new MAC address gives, in place of the one that the old MAC address gave.
fn renewed(old: Mac, new: Mac, fixed: &Fixed, subnet: Option<&Shared<SubnetRow>>) -> Fixed
    requires { if_some fits_eui
        (option_copied subnet) ≡ true }
    ensures { result
        ≡ fixed_choice.renewed old new fixed.now (option_copied subnet.entry) }
{
    if let Some(subnet) = subnet {
        if is_eui_in(old, &fixed.address, subnet) {
            return Fixed {
                subnet: subnet.id,
                address: eui_of(subnet, new),
            };
        }
    }
    *fixed
}

/// The old addresses of a port, by the MAC address that it will have: those that the MAC address
/// gives change with it. Its cost grows with the addresses, times the subnets.
pub fn old_renewed(
    alloc: Global,
    subnets: &[Shared<SubnetRow>],
    port: &PortRow,
    mac: Mac,
) -> Result<FixedList, OutOfMemory>
    requires { Pass fits_eui subnets.now }
    ensures { IfOk result (λ list. list ≡ fixed_choice.old_renewed subnets.now port.now mac) }
{
    let mut list = Seq::new(alloc);
    for fixed in port.fixed.as_slice() {
        let subnet = subnet_with(subnets, fixed.subnet);
        list.push(renewed(port.mac, mac, fixed, subnet))?;
    }
    Ok(list)
}

/// What is known of the addresses of a port that is changed before pool addresses are chosen, by
/// the MAC address that it will have. Its cost grows as that of `first_known`.
pub fn next_known(
    alloc: Global,
    subnets: &[Shared<SubnetRow>],
    port: &PortRow,
    mac: Mac,
    asked: &Given<Seq<FixedAsked>>,
) -> Result<Seq<Addr>, OutOfMemory>
    requires { Pass fits_eui subnets.now }
    ensures { IfOk result (λ xs. xs ≡ fixed_choice.next_known subnets.now port.now mac asked.now) }
{
    let old = old_renewed(alloc, subnets, port, mac)?;
    match asked {
        Given::Is(items) => known_of(alloc, subnets, mac, old.as_slice(), items.as_slice()),
        _ => addresses_of(alloc, old.as_slice()),
    }
}

/// The addresses of a port that is changed, by the MAC address that it will have and the addresses
/// that others hold. There are none where a pool address is missed. Its cost grows as that of
/// `first_addresses`.
pub fn next_addresses(
    alloc: Global,
    held: HeldAddresses,
    subnets: &[Shared<SubnetRow>],
    port: &PortRow,
    mac: Mac,
    asked: &Given<Seq<FixedAsked>>,
) -> Result<Option<FixedList>, OutOfMemory>
    requires { Pass fits_eui subnets.now }
    ensures { IfOk result
        (λ o. o
        ≡ fixed_choice.next_addresses
        (λ x. not (is_in held x)) subnets.now port.now mac asked.now) }
{
    let old = old_renewed(alloc, subnets, port, mac)?;
    match asked {
        Given::Is(items) => filled_of(alloc, held, subnets, mac, old.as_slice(), items.as_slice()),
        _ => Ok(Some(old)),
    }
}
