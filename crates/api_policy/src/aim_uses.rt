//! Addresses of ports to which floating addresses lead.

ghost use Rattle.std.specs.Prelude.{◌≡◌, ◌==◌, ◌&&◌, find, if◌then◌else◌, option_copied};
ghost use Rattle.net_addr.specs.Addresses.{number};
ghost use Rattle.api_types.specs.Association.{Aim};
ghost use Rattle.api_types.specs.Consistent.Floating as consistent_floating;
ghost use Rattle.api_policy.specs.Checks.{IsAnswerOf};
ghost use Rattle.api_policy.specs.OtherFloatings.{other_floatings};
ghost use Rattle.api_policy.specs.OtherFloatings as other_floatings_specs;
ghost use Rattle.api_policy.specs.Uses as uses;

use crate::told::told_user;
use api_types::{Caller, Fixed, FloatingRow, Id, Kind, PortRow, Refusal, Rows, Shared, UseRule};
use net_addr::{Addr, Addr4};

fn is_number(fixed: Addr4, address: &Addr) -> bool
    ensures { result ≡ (fixed == number address.now) }
{
    match address {
        Addr::V4(address) => fixed == *address,
        Addr::V6(address) => u128::from(fixed.0) == address.0,
    }
}

// Whether the floating address is of the network and stands for this address of the port.
fn stands_for(network: Id, port: Id, address: &Addr, floating: &FloatingRow) -> bool
    ensures { result ≡ consistent_floating.stands_for network port
        (number address.now) floating.now }
{
    let there = match &floating.target {
        Some(target) => port == target.port && is_number(target.fixed, address),
        None => false,
    };
    network == floating.network && there
}

fn is_other(own: &Option<Id>, floating: &FloatingRow) -> bool
    ensures { result ≡ other_floatings_specs.is_other own.now floating.now }
{
    match own {
        Some(own) => *own != floating.id,
        None => true,
    }
}

/// The first floating address of the network but `own`, where there is one, that stands for this
/// address of the port. Its cost grows with the floating addresses.
pub fn leading<'r>(
    floatings: &'r [Shared<FloatingRow>],
    own: &Option<Id>,
    network: Id,
    port: Id,
    address: &Addr,
) -> Option<&'r FloatingRow>
    ensures { option_copied result
        ≡ find (consistent_floating.stands_for network port (number address.now))
        (other_floatings own.now floatings.now) }
{
    for floating in floatings {
        if is_other(own, floating) && stands_for(network, port, address, floating) {
            return Some(floating);
        }
    }
    None
}

/// Refuses an aim, an address of version 4 of a port, where another floating address of the network
/// leads to it. `own` is the floating address that is changed, or none. Its cost grows with the
/// floating addresses.
pub fn aim_in_use(
    rows: &Rows,
    caller: &Caller,
    own: Option<Id>,
    network: Id,
    port: &PortRow,
    fixed: &Fixed,
) -> Result<(), Refusal>
    ensures { let aim : Aim = record { port = port.now; fixed = fixed.now } in
        IsAnswerOf
        (uses.aim_in_use rows.now caller.now (other_floatings own rows.now.floatings) network aim)
        result }
{
    let floatings = rows.floatings().rows();
    match leading(floatings, &own, network, port.id, &fixed.address) {
        Some(floating) => Err(Refusal::InUse {
            rule: UseRule::FloatingIpPortAlreadyAssociated,
            kind: Kind::Port,
            id: port.id,
            by: told_user(rows, caller, Some((Kind::Floating, floating.id))),
        }),
        None => Ok(()),
    }
}
