//! From what a port takes its addresses.

ghost use Rattle.std.specs.Prelude.{◌≡◌, IfOk};
ghost use Rattle.net_addr.specs.declared.address.Addr.{Addr as Address};
ghost use Rattle.api_ipam.specs.FixedChoice.{is_in};
ghost use Rattle.api_ipam.specs.MacChoice as mac_choice;
ghost use Rattle.api_policy.specs.Checks.{IsAnswerOf};
ghost use Rattle.api_types.specs.Consistent.{IsConsistent};
ghost use Rattle.api_types.specs.HeldAddresses.{address_taken, is_address_held};
ghost use Rattle.plan_ports.specs.Plans.{IsFirstSupply, IsNextSupply};
ghost use Rattle.plan_ports.specs.PortCalls as port_calls;

use api_ipam::{HeldAddresses, Survey, choose_mac, first_held, subnets_on, survey_ports};
use api_types::{Given, Id, PortForm, PortRow, Refusal, Rows, Shared, SubnetRow, Value};
use call_parts::value_or;
use net_addr::{Addr, Mac, OutOfMemory, Seq};
use std::alloc::Global;

/// By what a port's addresses are chosen: the network's subnets, the addresses that other ports
/// hold there, and the MAC address that the port will have.
#[derive(Drop)]
pub(crate) struct Supply {
    pub subnets: Seq<Shared<SubnetRow>>,
    pub held: HeldAddresses,
    pub mac: Mac,
}

/// The MAC address of a new port, where one is left, and by what its addresses are chosen.
#[derive(Drop)]
pub(crate) struct FirstSupply {
    pub mac: Option<Mac>,
    pub supply: Supply,
}

// The MAC address that is given, or else the least generated one that is free on the network. Its
// cost is that of `choose_mac`.
fn mac_for(ports: &[Shared<PortRow>], network: Id, given: &Given<Mac>) -> Option<Mac>
    ensures { result ≡ mac_choice.mac_for ports.now network given.now }
{
    match given {
        Given::Is(mac) => Some(*mac),
        _ => choose_mac(ports, network),
    }
}

// The MAC address by which addresses are chosen, before a missing one is refused.
fn expected_mac(mac: &Option<Mac>) -> Mac
    ensures { result ≡ mac_choice.expected_mac mac.now }
{
    match mac {
        Some(mac) => *mac,
        None => Mac(0),
    }
}

/// The MAC address that a new port will have, where one is left.
pub(crate) fn mac_at_first(ports: &[Shared<PortRow>], network: Id, form: &PortForm) -> Mac
    ensures { result ≡ port_calls.mac_at_first ports.now form.now network }
{
    expected_mac(&mac_for(ports, network, &form.mac_address))
}

// The MAC address that is given, or else the least generated one that is free on the network, and
// the addresses that are held there.
fn survey_for(
    alloc: Global,
    ports: &[Shared<PortRow>],
    network: Id,
    given: &Given<Mac>,
) -> Result<Survey, OutOfMemory>
    ensures mac { IfOk result (λ s. s.mac ≡ mac_choice.mac_for ports.now network given.now) }
    ensures held { IfOk result
        (λ s. (x : Address) → is_in s.held x ≡ is_address_held ports.now network x) }
{
    match given {
        Given::Is(mac) => Ok(Survey {
            mac: Some(*mac),
            held: HeldAddresses::on(alloc, ports, network)?,
        }),
        _ => survey_ports(alloc, ports, network),
    }
}

/// The MAC address of a new port, where one is left, and by what its addresses are chosen. Its cost
/// and memory grow with the subnets, the ports and their addresses.
pub(crate) fn first_supply(
    alloc: Global,
    rows: &Rows,
    network: Id,
    given: &Given<Mac>,
) -> Result<FirstSupply, OutOfMemory>
    requires { IsConsistent rows.now }
    ensures mac { IfOk result
        (λ first. first.mac ≡ mac_choice.mac_for rows.now.ports network given.now) }
    ensures supply { IfOk result
        (λ first. IsFirstSupply rows.now network (mac_choice.expected_mac first.mac)
        first.supply) }
{
    let subnets = subnets_on(alloc, rows.subnets().rows(), network)?;
    let found = survey_for(alloc, rows.ports().rows(), network, given)?;
    let Survey { mac, held } = found;
    let expected = expected_mac(&mac);
    Ok(FirstSupply {
        mac,
        supply: Supply {
            subnets,
            held,
            mac: expected,
        },
    })
}

/// By what the addresses of a port that is changed are chosen. Its cost and memory grow as those of
/// a new port.
pub(crate) fn next_supply(
    alloc: Global,
    rows: &Rows,
    form: &PortForm,
    port: &PortRow,
) -> Result<Supply, OutOfMemory>
    requires { IsConsistent rows.now }
    ensures { IfOk result (IsNextSupply rows.now form.now port.now) }
{
    Ok(Supply {
        subnets: subnets_on(alloc, rows.subnets().rows(), port.network)?,
        held: HeldAddresses::by_others(alloc, rows.ports().rows(), port)?,
        mac: value_or(port.mac, &form.mac_address),
    })
}

/// Refuses the first of these addresses that is held on the network.
pub(crate) fn ensure_addresses_free(
    held: &HeldAddresses,
    network: Id,
    addresses: &[Addr],
) -> Result<(), Refusal>
    ensures { IsAnswerOf (address_taken (is_in held.now) network addresses.now) result }
{
    match first_held(held, addresses) {
        Some(address) => {
            let value = Value::Address(*address);
            Err(Refusal::Taken { value, network })
        }
        None => Ok(()),
    }
}
