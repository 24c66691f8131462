//! The first event from an address of one port to an address of another.

ghost use Rattle.std.specs.Prelude.{◌≡◌, find, option_copied};
ghost use Rattle.plane_types.specs.Ends.{source};
ghost use Rattle.reach_laws.specs.FirstEvent.{first_mac, gateway_for, is_at};
ghost use Rattle.reach_sets.specs.TwoPorts.{event_between, two_ports};

use crate::pair::Pair;
use api_types::{Fixed, PortRow, Rows};
use net_addr::{Addr, Mac};
use plane_rows::{holder, named_subnet};
use plane_types::{Event, Frame, KeyPart};

/// The time to live of a first packet (RFC 1700).
const FIRST_TTL: u8 = 64;

// The address as the port holds it in a subnet.
fn find_fixed<'r>(port: &'r PortRow, address: &Addr) -> Option<&'r Fixed>
    ensures { option_copied result ≡ find (is_at address.now) port.now.fixed }
{
    port.fixed.iter().find(|fixed| fixed.address == *address)
}

// The gateway of the subnet in which a port holds an address.
fn gateway_for(rows: &Rows, port: &PortRow, address: &Addr) -> Option<Addr>
    ensures { result ≡ gateway_for rows.now port.now address.now }
{
    let fixed = find_fixed(port, address)?;
    let subnet = named_subnet(rows, fixed.subnet)?;
    subnet.gateway
}

// The MAC to which a first packet goes.
fn first_mac(rows: &Rows, pair: &Pair) -> Option<Mac>
    ensures { result
        ≡ first_mac rows.now pair.now.from.now (source pair.now.ends) pair.now.to.now }
{
    if pair.from.network == pair.to.network {
        return Some(pair.to.mac);
    }
    let gateway = gateway_for(rows, pair.from, &pair.ends.source())?;
    let holder = holder(rows, pair.from.network, &gateway)?;
    Some(holder.mac)
}

/// The event by which the first port begins: a packet to the second port itself if both are on one
/// network, otherwise to the gateway of its own subnet (RFC 1122, 3.3.1.1). None if nobody holds
/// that gateway's address, or there is none.
pub fn first_event(rows: &Rows, pair: &Pair, part: KeyPart) -> Option<Event>
    ensures { result ≡ event_between rows.now (two_ports pair.now) part }
{
    let mac = first_mac(rows, pair)?;
    Some(Event::FromPort {
        port: pair.from.id,
        frame: Frame::Ip {
            src: pair.from.mac,
            dst: mac,
            ends: pair.ends,
            ttl: FIRST_TTL,
            part,
        },
    })
}
