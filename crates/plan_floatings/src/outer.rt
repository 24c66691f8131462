//! What a new floating address takes on its network: the address, and a MAC address for its port.

ghost use Rattle.std.specs.Prelude.{◌≡◌, IfErr, IfOk, Some, not, true};
ghost use Rattle.net_addr.specs.Addresses.{is_v4};
ghost use Rattle.net_addr.specs.declared.address.Addr.TheVariants.{V4 as FourOf};
ghost use Rattle.api_ipam.specs.MacChoice.{free_mac};
ghost use Rattle.api_policy.specs.Checks.{IsAnswerOf};
ghost use Rattle.api_types.specs.Consistent.{IsConsistent};
ghost use Rattle.api_types.specs.HeldAddresses as held_addresses;
ghost use Rattle.api_types.specs.Lists.{if_some};
ghost use Rattle.api_types.specs.declared.port.Fixed.{Fixed as TheFixed};
ghost use Rattle.call_parts.specs.Answers.{IsRefusalIn};
ghost use Rattle.plan_floatings.specs.FloatingCalls.{address_held};
ghost use Rattle.plan_floatings.specs.FloatingCalls as floating_calls;
ghost use Rattle.plan_floatings.specs.Plans.{outer_refusal};

use crate::rules::subnet_with;
use api_ipam::{HeldAddresses, choose_mac, floating_address, subnets_on};
use api_types::{Fixed, Id, PortRow, Refusal, Rows, Shared, Value};
use net_addr::{Addr, Addr4, Mac, OutOfMemory};
use std::alloc::Global;

/// An address of version 4 in a subnet of the network, and a MAC address for the port that is to
/// hold it.
#[derive(Drop)]
pub(crate) struct Outer {
    pub fixed: Fixed,
    pub mac: Mac,
}

fn is_address_held(ports: &[Shared<PortRow>], network: Id, address: &Addr) -> bool
    ensures { result ≡ held_addresses.is_address_held ports.now network address.now }
{
    ports
        .iter()
        .any(|port| network == port.network && port.holds(address))
}

/// Refuses an address that is named and that a port of the network holds. Its cost grows with the
/// ports and their addresses.
pub(crate) fn ensure_address_free(
    rows: &Rows,
    network: Id,
    named: Option<Addr4>,
) -> Result<(), Refusal>
    ensures { IsAnswerOf (address_held rows.now network named) result }
{
    let Some(address) = named else {
        return Ok(());
    };
    let address = Addr::V4(address);
    if is_address_held(rows.ports().rows(), network, &address) {
        let value = Value::Address(address);
        return Err(Refusal::Taken { value, network });
    }
    Ok(())
}

// The named address, in its subnet.
fn named_address(rows: &Rows, network: Id, address: Addr4) -> Option<Fixed>
    ensures { result ≡ floating_calls.outer_address rows.now network (Some address) }
{
    let subnet = subnet_with(rows, network, address)?;
    Some(Fixed {
        subnet: subnet.id,
        address: Addr::V4(address),
    })
}

// The least free pool address of the first subnet of version 4 that has one.
fn pool_address(alloc: Global, rows: &Rows, network: Id) -> Result<Option<Fixed>, OutOfMemory>
    ensures { IfOk result (λ o. o ≡ floating_calls.outer_address rows.now network None) }
{
    let held = HeldAddresses::on(alloc, rows.ports().rows(), network)?;
    let subnets = subnets_on(alloc, rows.subnets().rows(), network)?;
    floating_address(alloc, &held, subnets.as_slice())
}

fn outer_address(
    alloc: Global,
    rows: &Rows,
    network: Id,
    named: Option<Addr4>,
) -> Result<Option<Fixed>, OutOfMemory>
    ensures { IfOk result (λ o. o ≡ floating_calls.outer_address rows.now network named) }
{
    match named {
        Some(address) => Ok(named_address(rows, network, address)),
        None => pool_address(alloc, rows, network),
    }
}

/// What a new floating address takes: the address that is named, or the least free pool address of
/// version 4, and a MAC address. Its cost and memory grow with the subnets, the ports and their
/// addresses, and not with the pools' size.
pub(crate) fn outer_for(
    alloc: Global,
    rows: &Rows,
    network: Id,
    named: Option<Addr4>,
) -> Result<Outer, Refusal>
    requires { IsConsistent rows.now }
    ensures address { IfOk result
        (λ o. floating_calls.outer_address rows.now network named ≡ Some o.fixed) }
    ensures four { IfOk result (λ o. is_v4 o.fixed.address ≡ true) }
    ensures mac { IfOk result (λ o. free_mac rows.now.ports network ≡ Some o.mac) }
    ensures refused { IfErr result (IsRefusalIn (outer_refusal rows.now network named)) }
{
    let Some(fixed) = outer_address(alloc, rows, network, named)? else {
        return Err(Refusal::PoolsSpent { network });
    };
    let Some(mac) = choose_mac(rows.ports().rows(), network) else {
        return Err(Refusal::CountersSpent);
    };
    Ok(Outer { fixed, mac })
}
