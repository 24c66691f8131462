//! The choice of a port's addresses.

ghost use Rattle.std.specs.Prelude.{◌≡◌, ◌∷◌, [], IfErr, IfOk, None, Ok, OnOk, Some, find, not, option_copied, option_map};
ghost use Rattle.net_addr.specs.declared.address.Addr.{Addr as Address};
ghost use Rattle.api_types.specs.Consistent.{IsConsistent};
ghost use Rattle.api_types.specs.HeldAddresses as held_addresses;
ghost use Rattle.api_types.specs.Lists.{Pass};
ghost use Rattle.api_types.specs.declared.form.Given.TheVariants.{Absent as NoneGiven, Is as GivenAs};
ghost use Rattle.api_ipam.specs.Choosing.{IsRefusalOf, chosen, chosen_for, fixed_so, given_fixed, is_placed_so, known_given, known_so};
ghost use Rattle.api_ipam.specs.Choosing as choosing;
ghost use Rattle.api_ipam.specs.Euis.{fits_eui};
ghost use Rattle.api_ipam.specs.declared.choosing.IpamRefusal.TheVariants.{AddressInUse as InUse, PoolsSpent as SpentPools};
ghost use Rattle.api_ipam.specs.FixedChoice.{is_in};

use crate::asked::{
    addresses_of, filled_of, first_addresses, first_known, known_of, next_addresses, next_known,
    old_renewed,
};
use crate::free::{floating_address, gateway_addresses, gateway_euis};
use crate::held::HeldAddresses;
use crate::places::{are_placed, subnets_on};
use api_types::{Fixed, FixedAsked, FixedList, Given, Id, PortRow, Rows, Shared, SubnetRow};
use net_addr::{Addr, Mac, OutOfMemory, Seq};
use std::alloc::Global;

/// Which addresses a port is to have.
#[derive(Drop)]
pub enum Wanted {
    /// Any, or those that it has.
    Free,
    /// Those of a router's port on its external network.
    Gateway,
    /// That of a floating address.
    Floating,
    /// Those that are asked for.
    These(Seq<FixedAsked>),
}

/// Why a port gets no addresses.
#[derive(Drop)]
pub enum IpamRefusal {
    /// An item has no subnet, or names an address that may not be given there, or one address is
    /// known of two.
    BadFixed,
    /// Another port holds the address.
    AddressInUse(Addr),
    /// Each pool address that may be given is held: of the subnet that an item names, or of all of
    /// the network.
    PoolsSpent(Id),
    /// Memory could not be had.
    OutOfMemory,
}

impl From<OutOfMemory> for IpamRefusal {
    ghost use Rattle.api_ipam.specs.declared.choosing.IpamRefusal.TheVariants.{OutOfMemory as MemoryRefusal};

    ghost from_gives = { λ _ e. e ≡ MemoryRefusal };

    fn from(_e: OutOfMemory) -> IpamRefusal {
        IpamRefusal::OutOfMemory
    }
}

fn holds(network: Id, address: &Addr, port: &PortRow) -> bool
    ensures { result ≡ held_addresses.holds_address network address.now port.now }
{
    network == port.network && port.holds(address)
}

fn holder_at<'r>(
    ports: &'r [Shared<PortRow>],
    network: Id,
    address: &Addr,
) -> Option<&'r Shared<PortRow>>
    ensures { option_copied result
        ≡ find (held_addresses.holds_address network address.now) ports.now }
{
    ports.iter().find(|port| holds(network, address, port))
}

// The port of the network that holds the first of these addresses.
fn holder<'r>(
    ports: &'r [Shared<PortRow>],
    network: Id,
    old: &[Fixed],
) -> Option<&'r Shared<PortRow>>
    ensures { option_copied result ≡ choosing.holder ports.now network old.now }
{
    match old {
        [first, ..] => holder_at(ports, network, &first.address),
        [] => None,
    }
}

// The addresses that ports other than this one hold.
fn held_by(
    alloc: Global,
    ports: &[Shared<PortRow>],
    network: Id,
    port: Option<&Shared<PortRow>>,
) -> Result<HeldAddresses, OutOfMemory>
    ensures { IfOk result
        (λ held. (x : Address)
        → is_in held x ≡ choosing.held_by ports.now network (option_copied port.entry) x) }
{
    match port {
        Some(port) => HeldAddresses::by_others(alloc, ports, port),
        None => HeldAddresses::on(alloc, ports, network),
    }
}

/// The first of these addresses that is held. Its cost grows with them, times the held ones: a port
/// has five at most.
pub fn first_held<'x>(held: &HeldAddresses, addresses: &'x [Addr]) -> Option<&'x Addr>
    ensures { option_copied result ≡ find (is_in held.now) addresses.now }
{
    addresses.iter().find(|address| held.has(address))
}

// Refuses the first of these addresses that is held.
fn ensure_free(held: &HeldAddresses, addresses: &[Addr]) -> Result<(), IpamRefusal>
    ensures free { OnOk result (find (is_in held.now) addresses.now ≡ None) }
    ensures taken { IfErr result
        (λ e. option_map InUse (find (is_in held.now) addresses.now) ≡ Some e) }
{
    match first_held(held, addresses) {
        Some(address) => Err(IpamRefusal::AddressInUse(*address)),
        None => Ok(()),
    }
}

fn ensure_filled(fixed: Option<FixedList>, network: Id) -> Result<FixedList, IpamRefusal>
    ensures there { IfOk result (λ list. fixed ≡ Some list) }
    ensures spent { IfErr result (λ e. (fixed ≡ None) × (e ≡ SpentPools network)) }
{
    match fixed {
        Some(fixed) => Ok(fixed),
        None => Err(IpamRefusal::PoolsSpent(network)),
    }
}

// The old addresses, by the MAC address as it will be.
fn old_of(
    alloc: Global,
    subnets: &[Shared<SubnetRow>],
    mac: Mac,
    port: Option<&Shared<PortRow>>,
) -> Result<FixedList, OutOfMemory>
    requires { Pass fits_eui subnets.now }
    ensures { IfOk result
        (λ old. old ≡ choosing.old_of subnets.now mac (option_copied port.entry)) }
{
    match port {
        Some(port) => old_renewed(alloc, subnets, port, mac),
        None => Ok(Seq::new(alloc)),
    }
}

// Whether what is wanted meets the rule of `fixed_ips`.
fn is_placed(
    alloc: Global,
    subnets: &[Shared<SubnetRow>],
    mac: Mac,
    port: Option<&Shared<PortRow>>,
    wanted: &Wanted,
) -> Result<bool, OutOfMemory>
    requires { Pass fits_eui subnets.now }
    ensures { IfOk result
        (λ b. b ≡ is_placed_so subnets.now mac (option_copied port.entry) wanted.now) }
{
    match wanted {
        Wanted::These(items) => {
            let old = old_of(alloc, subnets, mac, port)?;
            are_placed(alloc, subnets, mac, old.as_slice(), items.as_slice())
        }
        _ => Ok(true),
    }
}

fn known_free(
    alloc: Global,
    subnets: &[Shared<SubnetRow>],
    mac: Mac,
    port: Option<&Shared<PortRow>>,
) -> Result<Seq<Addr>, OutOfMemory>
    requires { Pass fits_eui subnets.now }
    ensures { IfOk result
        (λ xs. xs ≡ known_given subnets.now mac (option_copied port.entry) NoneGiven) }
{
    match port {
        Some(port) => next_known(alloc, subnets, port, mac, &Given::Absent),
        None => first_known(alloc, subnets, mac, &Given::Absent),
    }
}

fn known_asked(
    alloc: Global,
    subnets: &[Shared<SubnetRow>],
    mac: Mac,
    port: Option<&Shared<PortRow>>,
    items: &[FixedAsked],
) -> Result<Seq<Addr>, OutOfMemory>
    requires { Pass fits_eui subnets.now }
    ensures { IfOk result
        (λ xs. xs ≡ known_given subnets.now mac (option_copied port.entry) (GivenAs items.now)) }
{
    let old = old_of(alloc, subnets, mac, port)?;
    known_of(alloc, subnets, mac, old.as_slice(), items)
}

// What is known of the addresses before pool addresses are chosen.
fn known(
    alloc: Global,
    subnets: &[Shared<SubnetRow>],
    mac: Mac,
    port: Option<&Shared<PortRow>>,
    wanted: &Wanted,
) -> Result<Seq<Addr>, OutOfMemory>
    requires { Pass fits_eui subnets.now }
    ensures { IfOk result
        (λ xs. xs ≡ known_so subnets.now mac (option_copied port.entry) wanted.now) }
{
    match wanted {
        Wanted::Free => known_free(alloc, subnets, mac, port),
        Wanted::Gateway => {
            let euis = gateway_euis(alloc, subnets, mac)?;
            addresses_of(alloc, euis.as_slice())
        }
        Wanted::Floating => Ok(Seq::new(alloc)),
        Wanted::These(items) => known_asked(alloc, subnets, mac, port, items.as_slice()),
    }
}

fn fixed_free(
    alloc: Global,
    held: HeldAddresses,
    subnets: &[Shared<SubnetRow>],
    mac: Mac,
    port: Option<&Shared<PortRow>>,
) -> Result<Option<FixedList>, OutOfMemory>
    requires { Pass fits_eui subnets.now }
    ensures { IfOk result
        (λ o. o
        ≡ given_fixed (λ x. not (is_in held x)) subnets.now mac (option_copied port.entry)
        NoneGiven) }
{
    match port {
        Some(port) => next_addresses(alloc, held, subnets, port, mac, &Given::Absent),
        None => first_addresses(alloc, held, subnets, mac, &Given::Absent),
    }
}

fn fixed_asked(
    alloc: Global,
    held: HeldAddresses,
    subnets: &[Shared<SubnetRow>],
    mac: Mac,
    port: Option<&Shared<PortRow>>,
    items: &[FixedAsked],
) -> Result<Option<FixedList>, OutOfMemory>
    requires { Pass fits_eui subnets.now }
    ensures { IfOk result
        (λ o. o
        ≡ given_fixed (λ x. not (is_in held x)) subnets.now mac (option_copied port.entry)
        (GivenAs items.now)) }
{
    let old = old_of(alloc, subnets, mac, port)?;
    filled_of(alloc, held, subnets, mac, old.as_slice(), items)
}

// The list of one address, where there is one.
fn one_or_none(alloc: Global, fixed: Option<Fixed>) -> Result<Option<FixedList>, OutOfMemory>
    ensures { IfOk result (λ o. o ≡ option_map (λ f. f ∷ []) fixed) }
{
    let Some(fixed) = fixed else {
        return Ok(None);
    };
    let mut list = Seq::new(alloc);
    let address = fixed.address;
    list.push(Fixed {
        subnet: fixed.subnet,
        address,
    })?;
    Ok(Some(list))
}

// All addresses, where no pool address is missed.
fn all_fixed(
    alloc: Global,
    held: HeldAddresses,
    subnets: &[Shared<SubnetRow>],
    mac: Mac,
    port: Option<&Shared<PortRow>>,
    wanted: &Wanted,
) -> Result<Option<FixedList>, OutOfMemory>
    requires { Pass fits_eui subnets.now }
    ensures { IfOk result
        (λ o. o
        ≡ fixed_so (λ x. not (is_in held x)) subnets.now mac (option_copied port.entry)
        wanted.now) }
{
    match wanted {
        Wanted::Free => fixed_free(alloc, held, subnets, mac, port),
        Wanted::Gateway => gateway_addresses(alloc, &held, subnets, mac),
        Wanted::Floating => one_or_none(alloc, floating_address(alloc, &held, subnets)?),
        Wanted::These(items) => fixed_asked(alloc, held, subnets, mac, port, items.as_slice()),
    }
}

// The addresses of the port, or of a new one.
fn choose_for(
    alloc: Global,
    ports: &[Shared<PortRow>],
    subnets: &[Shared<SubnetRow>],
    network: Id,
    mac: Mac,
    port: Option<&Shared<PortRow>>,
    wanted: &Wanted,
) -> Result<FixedList, IpamRefusal>
    requires { Pass fits_eui subnets.now }
    ensures ok { IfOk result
        (λ fixed. chosen_for ports.now subnets.now network mac (option_copied port.entry)
        wanted.now ≡ Ok fixed) }
    ensures err { IfErr result
        (IsRefusalOf
        (chosen_for ports.now subnets.now network mac (option_copied port.entry) wanted.now)) }
{
    let placed = is_placed(alloc, subnets, mac, port, wanted)?;
    if !placed {
        return Err(IpamRefusal::BadFixed);
    }
    let held = held_by(alloc, ports, network, port)?;
    let known = known(alloc, subnets, mac, port, wanted)?;
    ensure_free(&held, known.as_slice())?;
    let fixed = all_fixed(alloc, held, subnets, mac, port, wanted)?;
    ensure_filled(fixed, network)
}

/// The addresses that a port of the network takes, by its MAC address as it will be. A port that is
/// changed is told by its old addresses; a new one has none. Its cost grows with the subnets and
/// their pools, times the items, of which there are five at most, and with each of these, times the
/// addresses of the ports; its memory grows with the subnets and these addresses. Neither grows with
/// the pools' size.
pub fn choose(
    alloc: Global,
    rows: &Rows,
    network: Id,
    mac: Mac,
    wanted: &Wanted,
    old: &FixedList,
) -> Result<FixedList, IpamRefusal>
    requires { IsConsistent rows.now }
    ensures ok { IfOk result
        (λ fixed. chosen rows.now network mac wanted.now old.now ≡ Ok fixed) }
    ensures err { IfErr result (IsRefusalOf (chosen rows.now network mac wanted.now old.now)) }
{
    let subnets = subnets_on(alloc, rows.subnets().rows(), network)?;
    let ports = rows.ports().rows();
    let port = holder(ports, network, old.as_slice());
    choose_for(alloc, ports, subnets.as_slice(), network, mac, port, wanted)
}
