//! The choice of pool addresses for the places of a list.

ghost use Rattle.std.specs.Prelude.{◌≡◌, ◌||◌, IfOk, OnOk, not};
ghost use Rattle.net_addr.specs.declared.address.Addr.{Addr as Address};
ghost use Rattle.api_ipam.specs.Filling as filling;
ghost use Rattle.api_ipam.specs.FixedChoice.{is_in, known_addresses};
ghost use Rattle.api_ipam.specs.FixedChoice as fixed_choice;

use crate::held::HeldAddresses;
use crate::least::least_free_address;
use crate::places::Place;
use api_types::{Fixed, FixedList};
use net_addr::{Addr, OutOfMemory, Seq};
use std::alloc::Global;

// Counts the known addresses of the places as held.
fn take_known(held: &mut HeldAddresses, places: &[Place]) -> Result<(), OutOfMemory>
    ensures { OnOk result
        ((x : Address)
        → is_in held.new x ≡ (is_in held.old x || is_in (known_addresses places.now) x)) }
{
    for place in places {
        held.take_if_any(&place.known())?;
    }
    Ok(())
}

// The known address, or else the least of the subnet's pools that isn't held.
fn given_at(held: &HeldAddresses, place: &Place) -> Option<Addr>
    ensures { result ≡ filling.given_at (is_in held.now) place.now.known place.now.subnet }
{
    if let Some(address) = place.known() {
        return Some(address);
    }
    least_free_address(held, place.subnet().pools.as_slice())
}

// An address for each place, where there are enough.
fn given_in_turn(
    alloc: Global,
    mut held: HeldAddresses,
    places: &[Place],
) -> Result<Option<FixedList>, OutOfMemory>
    ensures { IfOk result (λ o. o ≡ filling.given_in_turn (is_in held) places.now) }
{
    let mut fixed = Seq::new(alloc);
    for place in places {
        let Some(address) = given_at(&held, place) else {
            return Ok(None);
        };
        held.take(&address)?;
        fixed.push(Fixed {
            subnet: place.subnet().id,
            address,
        })?;
    }
    Ok(Some(fixed))
}

/// An address for each place: the known one, or the least of its subnet's pools that is neither
/// held nor in the list. There is none where a pool address is missed. Its cost grows with the
/// places, times their subnets' pools, times the held addresses.
pub fn all_filled(
    alloc: Global,
    held: HeldAddresses,
    places: &[Place],
) -> Result<Option<FixedList>, OutOfMemory>
    ensures { IfOk result
        (λ o. o ≡ fixed_choice.all_filled (λ x. not (is_in held x)) places.now) }
{
    let mut held = held;
    take_known(&mut held, places)?;
    given_in_turn(alloc, held, places)
}
