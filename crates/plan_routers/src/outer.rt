//! What a gateway's port takes on its external network.

ghost use Rattle.std.specs.Prelude.{◌≡◌, IfErr, IfOk, Some};
ghost use Rattle.api_ipam.specs.Euis.{fits_eui};
ghost use Rattle.api_ipam.specs.FixedChoice.{is_in};
ghost use Rattle.api_ipam.specs.FixedChoice as fixed_choice;
ghost use Rattle.api_ipam.specs.MacChoice.{free_mac};
ghost use Rattle.api_policy.specs.Checks.{IsAnswerOf};
ghost use Rattle.api_types.specs.Consistent.{IsConsistent};
ghost use Rattle.api_types.specs.HeldAddresses.{address_taken};
ghost use Rattle.api_types.specs.HeldAddresses as held_addresses;
ghost use Rattle.api_types.specs.Lists.{Pass};
ghost use Rattle.call_parts.specs.Answers.{IsRefusalIn, Passes};
ghost use Rattle.plan_routers.specs.Plans.{outer_refusal};
ghost use Rattle.plan_routers.specs.RouterCalls.{outer_taken};
ghost use Rattle.plan_routers.specs.RouterCalls as router_calls;

use api_ipam::{
    HeldAddresses, addresses_of, choose_mac, first_held, gateway_addresses, gateway_euis,
    subnets_on,
};
use api_types::{FixedList, Id, NetworkRow, Refusal, Rows, Shared, SubnetRow, Value};
use net_addr::{Addr, Mac, OutOfMemory, Seq};
use std::alloc::Global;

/// The addresses and the MAC address of a gateway's port.
#[derive(Drop)]
pub(crate) struct Outer {
    pub fixed: FixedList,
    pub mac: Mac,
}

// The network's subnets. In those in which addresses are made of MAC addresses they can be.
fn outer_subnets(
    alloc: Global,
    rows: &Rows,
    network: Id,
) -> Result<Seq<Shared<SubnetRow>>, OutOfMemory>
    requires { IsConsistent rows.now }
    ensures found { IfOk result (λ found. found
        ≡ held_addresses.subnets_on rows.now.subnets network) }
    ensures fit { IfOk result (λ found. Pass fits_eui found) }
{
    subnets_on(alloc, rows.subnets().rows(), network)
}

// The MAC address that the port is expected to have.
fn outer_mac(rows: &Rows, network: &NetworkRow) -> Mac
    ensures { result ≡ router_calls.outer_mac rows.now network.now }
{
    choose_mac(rows.ports().rows(), network.id).unwrap_or(Mac(0))
}

// The addresses of the port that are known before pool addresses are chosen.
fn known_addresses(
    alloc: Global,
    rows: &Rows,
    network: &NetworkRow,
) -> Result<Seq<Addr>, OutOfMemory>
    requires { IsConsistent rows.now }
    ensures { IfOk result
        (λ xs. xs
        ≡ fixed_choice.addresses_of
        (fixed_choice.gateway_euis (router_calls.outer_mac rows.now network.now)
        (held_addresses.subnets_on rows.now.subnets network.now.id))) }
{
    let subnets = outer_subnets(alloc, rows, network.id)?;
    let euis = gateway_euis(alloc, subnets.as_slice(), outer_mac(rows, network))?;
    addresses_of(alloc, euis.as_slice())
}

fn ensure_addresses_free(
    held: &HeldAddresses,
    network: Id,
    addresses: &[Addr],
) -> Result<(), Refusal>
    ensures { IsAnswerOf (address_taken (is_in held.now) network addresses.now) result }
{
    match first_held(held, addresses) {
        Some(address) => Err(Refusal::Taken {
            value: Value::Address(*address),
            network,
        }),
        None => Ok(()),
    }
}

/// Refuses a gateway on the network, where another port holds the address that the MAC address of
/// its port gives. Its cost and memory grow with the subnets, and with the ports and their
/// addresses.
pub(crate) fn ensure_outer_free(
    alloc: Global,
    rows: &Rows,
    network: &NetworkRow,
) -> Result<(), Refusal>
    requires { IsConsistent rows.now }
    ensures { Passes (outer_taken rows.now network.now) result }
{
    let known = known_addresses(alloc, rows, network)?;
    let held = HeldAddresses::on(alloc, rows.ports().rows(), network.id)?;
    ensure_addresses_free(&held, network.id, known.as_slice())
}

fn outer_addresses(
    alloc: Global,
    rows: &Rows,
    network: &NetworkRow,
) -> Result<Option<FixedList>, OutOfMemory>
    requires { IsConsistent rows.now }
    ensures { IfOk result (λ fixed. fixed ≡ router_calls.outer_addresses rows.now network.now) }
{
    let subnets = outer_subnets(alloc, rows, network.id)?;
    let held = HeldAddresses::on(alloc, rows.ports().rows(), network.id)?;
    gateway_addresses(alloc, &held, subnets.as_slice(), outer_mac(rows, network))
}

/// What the port of a gateway on the network takes: there have to be addresses, and a MAC address.
/// Its cost and memory grow with the subnets, and with the ports and their addresses, and not with
/// the pools' size.
pub(crate) fn choose_outer(
    alloc: Global,
    rows: &Rows,
    network: &NetworkRow,
) -> Result<Outer, Refusal>
    requires { IsConsistent rows.now }
    ensures fixed { IfOk result
        (λ o. router_calls.outer_addresses rows.now network.now ≡ Some o.fixed) }
    ensures mac { IfOk result (λ o. free_mac rows.now.ports network.now.id ≡ Some o.mac) }
    ensures refused { IfErr result (IsRefusalIn (outer_refusal rows.now network.now)) }
{
    let Some(fixed) = outer_addresses(alloc, rows, network)? else {
        return Err(Refusal::PoolsSpent {
            network: network.id,
        });
    };
    let Some(mac) = choose_mac(rows.ports().rows(), network.id) else {
        return Err(Refusal::CountersSpent);
    };
    Ok(Outer { fixed, mac })
}
