//! Which MAC address a port takes.

ghost use Rattle.std.specs.Prelude.{◌≡◌, ◌&&◌, ◌+◌, ◌-◌, ◌<◌, ◌≤◌, ◌^◌, ◌||◌, ℕ, None, Some, false, if◌then◌else◌, length, nat_lt, not, slice_index_or, true};
ghost use Rattle.api_types.specs.Consistent.HeldOnce as held_once;
ghost use Rattle.api_types.specs.HeldAddresses.{is_mac_held};
ghost use Rattle.api_types.specs.Least.{least_from};
ghost use Rattle.api_types.specs.Table.{ident_eq};
ghost use Rattle.api_ipam.specs.MacChoice.{first_mac, free_mac};

use crate::marks::{count_marked, mark};
use api_types::{Id, PortRow, Shared};
use net_addr::Mac;

/// The first generated MAC address, fa:16:3e:00:00:00 (Neutron's `base_mac`).
pub(crate) const FIRST: u64 = 0xfa16_3e00_0000;

/// The number after the last generated one, fa:16:3e:ff:ff:ff.
const END: u64 = 0xfa16_3f00_0000;

/// How many MAC addresses have a mark at once.
const WINDOW: usize = 1_024;

/// The number after this one, if it is the MAC address of the port, which is on the network;
/// otherwise this one.
pub(crate) fn after_held(port: &PortRow, network: Id, mac: u64) -> u64
    ensures { result
        ≡ (if held_once.has_mac network mac port.now then mac + 1 else mac) }
{
    let own = port.mac.0;
    if network == port.network && own == mac {
        return own + 1;
    }
    mac
}

/// The greater of this MAC address and that of a port of the network.
pub(crate) fn greatest_of(port: &PortRow, network: Id, greatest: u64) -> u64
    ensures { result
        ≡ (if ident_eq network port.now.network && nat_lt greatest port.now.mac
        then port.now.mac else greatest) }
{
    if network == port.network && greatest < port.mac.0 {
        return port.mac.0;
    }
    greatest
}

// The number after the generated MAC addresses that ports of the network have, one after the other
// in turn, and the greatest MAC address that one has.
fn behind_held(ports: &[Shared<PortRow>], network: Id) -> (u64, u64)
    ensures sought { least_from (λ m. not (is_mac_held ports.now network m)) result.0
        (first_mac + 2 ^ 24 - result.0)
        ≡ least_from (λ m. not (is_mac_held ports.now network m)) first_mac
        (first_mac + 2 ^ 24 - first_mac) }
    ensures greatest { (m : ℕ) → result.1 < m → is_mac_held ports.now network m ≡ false }
{
    let mut next = FIRST;
    let mut greatest = 0;
    for shared in ports {
        let port = shared.get();
        next = after_held(port, network, next);
        greatest = greatest_of(port, network, greatest);
    }
    (next, greatest)
}

// Marks the MAC address of a port of the network, where it is among those from the first on.
fn mark_port(marks: &mut [bool], network: Id, first: u64, port: &PortRow)
    ensures length { length marks.new ≡ length marks.old }
    ensures marked { (k : ℕ) → k < length marks.old
        → slice_index_or marks.new k false
        ≡ (slice_index_or marks.old k false || held_once.has_mac network (first + k) port.now) }
{
    if network == port.network {
        mark(marks, u128::from(first), u128::from(port.mac.0));
    }
}

// Marks the MAC addresses of the network's ports that are among those from the first on.
fn mark_ports(marks: &mut [bool], ports: &[Shared<PortRow>], network: Id, first: u64)
    ensures length { length marks.new ≡ length marks.old }
    ensures marked { (k : ℕ) → k < length marks.old
        → slice_index_or marks.new k false
        ≡ (slice_index_or marks.old k false || is_mac_held ports.now network (first + k)) }
{
    for port in ports {
        mark_port(marks, network, first, port);
    }
}

// How many MAC addresses from the first on ports of the network have, of as many as have a mark.
fn count_held(ports: &[Shared<PortRow>], network: Id, first: u64) -> usize
    ensures within { result ≤ 1024 }
    ensures held { (k : ℕ) → k < result → is_mac_held ports.now network (first + k) ≡ true }
    ensures free { result < 1024 → is_mac_held ports.now network (first + result) ≡ false }
{
    let mut marks = [false; WINDOW];
    mark_ports(&mut marks, ports, network, first);
    count_marked(&marks)
}

// A MAC address, where it is before the end of the generated ones.
fn generated(mac: u64) -> Option<Mac>
    ensures { result ≡ (if nat_lt mac (first_mac + 2 ^ 24) then Some mac else None) }
{
    if mac < END {
        return Some(Mac(mac));
    }
    None
}

/// The least generated MAC address that no port of the network has, by the number after those that
/// ports have in turn, and by the greatest MAC address that one has.
pub(crate) fn mac_after(
    ports: &[Shared<PortRow>],
    network: Id,
    next: u64,
    greatest: u64,
) -> Option<Mac>
    requires sought { least_from (λ m. not (is_mac_held ports.now network m)) next
        (first_mac + 2 ^ 24 - next)
        ≡ least_from (λ m. not (is_mac_held ports.now network m)) first_mac
        (first_mac + 2 ^ 24 - first_mac) }
    requires greatest { (m : ℕ) → greatest < m → is_mac_held ports.now network m ≡ false }
    ensures { result ≡ free_mac ports.now network }
{
    if greatest < next {
        return generated(next);
    }
    let mut mac = next;
    'search: while mac < END {
        let many = count_held(ports, network, mac);
        mac += many as u64;
        if many < WINDOW {
            return generated(mac);
        }
    }
    None
}

/// The least generated MAC address that no port of the network has; there is none where all are
/// held. It allocates nothing. Its cost is that of one pass over the ports if they took the
/// generated MAC addresses in their order and none went since, and otherwise of one more for each
/// 1,024 ports.
pub fn choose_mac(ports: &[Shared<PortRow>], network: Id) -> Option<Mac>
    ensures { result ≡ free_mac ports.now network }
{
    let (next, greatest) = behind_held(ports, network);
    mac_after(ports, network, next, greatest)
}
