//! The places of a port's list of addresses: of each its subnet, and its address where that is
//! known before pool addresses are chosen.

ghost use Rattle.std.specs.Prelude.{◌≡◌, ◌&&◌, ◌||◌, ◌++◌, IfOk, OnOk, find, not, option_copied, option_to_list, true};
ghost use Rattle.std.specs.List.{list_all};
ghost use Rattle.net_addr.specs.Addresses.{addr_eq};
ghost use Rattle.net_addr.specs.Prefixes.{contains, eui};
ghost use Rattle.api_types.specs.Consistent.InForm as in_form;
ghost use Rattle.api_types.specs.Lists.{Pass, if_some};
ghost use Rattle.api_types.specs.HeldAddresses as held_addresses;
ghost use Rattle.api_types.specs.Table.{ident_eq, row_of};
ghost use Rattle.api_types.specs.declared.port.Fixed.{Fixed as TheFixed};
ghost use Rattle.api_types.specs.declared.subnet.SubnetRow.{SubnetRow as TheSubnet};
ghost use Rattle.api_ipam.specs.Euis.{fits_eui};
ghost use Rattle.api_ipam.specs.Filling.{place_for};
ghost use Rattle.api_ipam.specs.FixedChoice as fixed_choice;

use crate::euis::{eui_of, is_eui};
use api_types::{Fixed, FixedAsked, Id, Shared, SubnetRow};
use net_addr::{Addr, Copies, Mac, OutOfMemory, Seq};
use std::alloc::Global;
use std::marker::Model;

/// A place: its subnet, and its address where that is known. Contracts see both.
#[derive(Drop)]
pub struct Place {
    subnet: Shared<SubnetRow>,
    known: Option<Addr>,
}

impl Model for Place {
    ghost use Rattle.api_ipam.specs.FixedChoice as places;

    ghost Value = { places.Place };

    ghost view = { λ p. record { subnet = p.subnet; known = p.known } };
}

impl Place {
    /// Its subnet.
    pub fn subnet(&self) -> &SubnetRow
        ensures { result.now ≡ self.now.subnet }
    {
        self.subnet.get()
    }

    /// Its address, where that is known.
    pub fn known(&self) -> Option<Addr>
        ensures { result ≡ self.now.known }
    {
        self.known
    }
}

/// The network's subnets, in order of creation. Its cost grows with the subnets.
pub fn subnets_on(
    alloc: Global,
    subnets: &[Shared<SubnetRow>],
    network: Id,
) -> Result<Seq<Shared<SubnetRow>>, OutOfMemory>
    ensures { IfOk result (λ found. found ≡ held_addresses.subnets_on subnets.now network) }
{
    let mut found = Seq::new(alloc);
    for subnet in subnets {
        if network == subnet.network {
            found.push(subnet.copy(alloc)?)?;
        }
    }
    Ok(found)
}

/// The one of these subnets with this id. Its cost grows with them.
pub(crate) fn subnet_with(subnets: &[Shared<SubnetRow>], id: Id) -> Option<&Shared<SubnetRow>>
    ensures { option_copied result ≡ row_of (λ (s : TheSubnet). s.id) id subnets.now }
{
    subnets.iter().find(|subnet| id == subnet.id)
}

fn subnet_around<'s>(
    subnets: &'s [Shared<SubnetRow>],
    address: &Addr,
) -> Option<&'s Shared<SubnetRow>>
    ensures { option_copied result
        ≡ find (λ (s : TheSubnet). contains s.prefix address.now) subnets.now }
{
    subnets
        .iter()
        .find(|subnet| subnet.prefix.contains(*address))
}

// The subnet that an item names, or else the one that contains its address.
fn item_subnet<'s>(
    subnets: &'s [Shared<SubnetRow>],
    item: &FixedAsked,
) -> Option<&'s Shared<SubnetRow>>
    ensures { option_copied result ≡ fixed_choice.item_subnet subnets.now item.now }
{
    if let Some(id) = item.subnet {
        return subnet_with(subnets, id);
    }
    match &item.address {
        Some(address) => subnet_around(subnets, address),
        None => None,
    }
}

/// Whether the address is one of these. Its cost grows with them.
pub(crate) fn is_in(addresses: &[Addr], address: &Addr) -> bool
    ensures { result ≡ fixed_choice.is_in addresses.now address.now }
{
    addresses.iter().any(|other| *other == *address)
}

fn is_eui_or_free(mac: Mac, subnet: &SubnetRow, address: &Addr) -> bool
    ensures { result
        ≡ (not (in_form.is_eui subnet.now) || addr_eq address.now (eui subnet.now.prefix mac)) }
{
    !is_eui(subnet) || subnet.prefix.is_eui(mac, *address)
}

fn may_be_named(mac: Mac, subnet: &SubnetRow, address: &Addr) -> bool
    ensures { result ≡ fixed_choice.may_be_named mac subnet.now address.now }
{
    subnet.prefix.is_host(*address) && is_eui_or_free(mac, subnet, address)
}

fn may_have(mac: Mac, subnet: &SubnetRow, address: &Option<Addr>) -> bool
    ensures { result ≡ if_some (fixed_choice.may_be_named mac subnet.now) address.now }
{
    match address {
        Some(address) => may_be_named(mac, subnet, address),
        None => true,
    }
}

// Whether the item has a subnet, where its address may be named.
fn is_placed(subnets: &[Shared<SubnetRow>], mac: Mac, item: &FixedAsked) -> bool
    ensures { result ≡ fixed_choice.is_placed subnets.now mac item.now }
{
    match item_subnet(subnets, item) {
        Some(subnet) => may_have(mac, subnet, &item.address),
        None => false,
    }
}

fn all_placed(subnets: &[Shared<SubnetRow>], mac: Mac, items: &[FixedAsked]) -> bool
    ensures { result ≡ list_all (fixed_choice.is_placed subnets.now mac) items.now }
{
    items.iter().all(|item| is_placed(subnets, mac, item))
}

fn named_addresses(alloc: Global, items: &[FixedAsked]) -> Result<Seq<Addr>, OutOfMemory>
    ensures { IfOk result (λ xs. xs ≡ fixed_choice.named_addresses items.now) }
{
    let mut named = Seq::new(alloc);
    for item in items {
        if let Some(address) = item.address {
            named.push(address)?;
        }
    }
    Ok(named)
}

fn old_in<'f>(old: &'f [Fixed], taken: &[Addr], subnet: Id) -> Option<&'f Fixed>
    ensures { option_copied result
        ≡ find
        (λ (f : TheFixed). ident_eq subnet f.subnet && not (fixed_choice.is_in taken.now f.address))
        old.now }
{
    old.iter().find(|fixed| subnet == fixed.subnet && !is_in(taken, &fixed.address))
}

// The first old address of the subnet that isn't taken.
fn old_address(old: &[Fixed], taken: &[Addr], subnet: &SubnetRow) -> Option<Addr>
    ensures { result ≡ fixed_choice.old_address old.now taken.now subnet.now }
{
    match old_in(old, taken, subnet.id) {
        Some(fixed) => Some(fixed.address),
        None => None,
    }
}

fn eui_if_any(mac: Mac, subnet: &SubnetRow) -> Option<Addr>
    requires { fits_eui subnet.now ≡ true }
    ensures { result ≡ fixed_choice.eui_if_any mac subnet.now }
{
    if is_eui(subnet) {
        Some(eui_of(subnet, mac))
    } else {
        None
    }
}

// The address that is named, or else an old one, or else the one that the MAC address gives.
fn known_at(
    mac: Mac,
    old: &[Fixed],
    taken: &[Addr],
    named: &Option<Addr>,
    subnet: &SubnetRow,
) -> Option<Addr>
    requires { fits_eui subnet.now ≡ true }
    ensures { result ≡ fixed_choice.known_at mac old.now taken.now named.now subnet.now }
{
    if let Some(address) = named {
        return Some(*address);
    }
    if let Some(address) = old_address(old, taken, subnet) {
        return Some(address);
    }
    eui_if_any(mac, subnet)
}

fn push_some(addresses: &mut Seq<Addr>, address: &Option<Addr>) -> Result<(), OutOfMemory>
    ensures { OnOk result
        (addresses.new ≡ addresses.old ++ option_to_list address.now) }
{
    if let Some(address) = address {
        addresses.push(*address)?;
    }
    Ok(())
}

// Adds the place of an item, where it has a subnet, and its address to those that are taken, where
// it is known.
fn add_place(
    alloc: Global,
    places: &mut Vec<Place>,
    taken: &mut Seq<Addr>,
    subnets: &[Shared<SubnetRow>],
    mac: Mac,
    old: &[Fixed],
    item: &FixedAsked,
) -> Result<(), OutOfMemory>
    requires { Pass fits_eui subnets.now }
    ensures places { OnOk result
        (places.new.items
        ≡ places.old.items
        ++ place_for mac old.now taken.old item.now
        (fixed_choice.item_subnet subnets.now item.now)) }
    ensures taken { OnOk result
        (taken.new
        ≡ taken.old
        ++ fixed_choice.known_addresses
        (place_for mac old.now taken.old item.now
        (fixed_choice.item_subnet subnets.now item.now))) }
{
    let Some(subnet) = item_subnet(subnets, item) else {
        return Ok(());
    };
    let known = known_at(mac, old, taken.as_slice(), &item.address, subnet);
    push_some(taken, &known)?;
    places.push(Place {
        subnet: subnet.copy(alloc)?,
        known,
    })?;
    Ok(())
}

/// The places of a list that is asked for, by the network's subnets, the port's MAC address and its
/// old addresses as they will be. An item without an address takes an old one of its subnet that
/// isn't in the list, and otherwise the one that the MAC address gives, where it gives one. Its
/// cost grows with the items, times the subnets and the old addresses.
pub fn asked_places(
    alloc: Global,
    subnets: &[Shared<SubnetRow>],
    mac: Mac,
    old: &[Fixed],
    items: &[FixedAsked],
) -> Result<Vec<Place>, OutOfMemory>
    requires { Pass fits_eui subnets.now }
    ensures { IfOk result
        (λ places. places.items ≡ fixed_choice.asked_places subnets.now mac old.now items.now) }
{
    let mut taken = named_addresses(alloc, items)?;
    let mut places = Vec::new(alloc);
    for item in items {
        add_place(alloc, &mut places, &mut taken, subnets, mac, old, item)?;
    }
    Ok(places)
}

/// The addresses of these places that are known.
pub fn known_addresses(alloc: Global, places: &[Place]) -> Result<Seq<Addr>, OutOfMemory>
    ensures { IfOk result (λ xs. xs ≡ fixed_choice.known_addresses places.now) }
{
    let mut known = Seq::new(alloc);
    for place in places {
        push_some(&mut known, &place.known())?;
    }
    Ok(known)
}

fn are_different(addresses: &[Addr]) -> bool
    ensures { result ≡ fixed_choice.are_different addresses.now }
{
    for place in 0..addresses.len() {
        if is_in(&addresses[place + 1..], &addresses[place]) {
            return false;
        }
    }
    true
}

/// Whether a list that is asked for meets the rule of `fixed_ips`: each item has a subnet, a named
/// address may be given there, and no known address stands twice. Its cost grows as that of
/// `asked_places`.
pub fn are_placed(
    alloc: Global,
    subnets: &[Shared<SubnetRow>],
    mac: Mac,
    old: &[Fixed],
    items: &[FixedAsked],
) -> Result<bool, OutOfMemory>
    requires { Pass fits_eui subnets.now }
    ensures { IfOk result
        (λ b. b ≡ fixed_choice.are_placed subnets.now mac old.now items.now) }
{
    let places = asked_places(alloc, subnets, mac, old, items)?;
    let known = known_addresses(alloc, places.as_slice())?;
    Ok(all_placed(subnets, mac, items) && are_different(known.as_slice()))
}
