//! What one pass over the ports tells of a network.

ghost use Rattle.std.specs.Prelude.{◌≡◌, IfOk};
ghost use Rattle.net_addr.specs.declared.address.Addr.{Addr as Address};
ghost use Rattle.api_types.specs.HeldAddresses.{is_address_held};
ghost use Rattle.api_ipam.specs.FixedChoice.{is_in};
ghost use Rattle.api_ipam.specs.MacChoice.{free_mac};

use crate::held::HeldAddresses;
use crate::macs::{FIRST, after_held, greatest_of, mac_after};
use api_types::{Id, PortRow, Shared};
use net_addr::{Mac, OutOfMemory};
use std::alloc::Global;

/// The MAC address that `choose_mac` gives, where one is left, and the addresses that ports hold.
#[derive(Drop)]
pub struct Survey {
    pub mac: Option<Mac>,
    pub held: HeldAddresses,
}

/// What the network's ports leave to a new one. It costs less than `choose_mac` and
/// `HeldAddresses::on` together, since it passes over the ports once.
pub fn survey_ports(
    alloc: Global,
    ports: &[Shared<PortRow>],
    network: Id,
) -> Result<Survey, OutOfMemory>
    ensures mac { IfOk result (λ s. s.mac ≡ free_mac ports.now network) }
    ensures held { IfOk result
        (λ s. (x : Address) → is_in s.held x ≡ is_address_held ports.now network x) }
{
    let mut held = HeldAddresses::with_room(alloc, ports.len())?;
    let mut next = FIRST;
    let mut greatest = 0;
    for shared in ports {
        let port = shared.get();
        next = after_held(port, network, next);
        greatest = greatest_of(port, network, greatest);
        held.take_port(network, port)?;
    }
    Ok(Survey {
        mac: mac_after(ports, network, next, greatest),
        held,
    })
}
