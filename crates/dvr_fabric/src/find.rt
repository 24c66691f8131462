//! Hosts that are looked for: by name, by a tap, or as takers of a frame from a wire.

ghost use Rattle.std.specs.Prelude.{◌≡◌, option_copied};
ghost use Rattle.plane_types.specs.Fabric.{takes as taken_by, takes_to};
ghost use Rattle.dvr_fabric.specs.Found.{IsFirst, is_other_than, is_sought_in, view_of_host};

use crate::fleet::{DvrFleet, HostAt};
use api_types::Id;
use host_plane::{bridge_at, neighbour_at};
use net_addr::Text;
use plane_types::{BridgeKey, BridgeRow, BridgeTo, Frame};

/// What is sought among hosts.
#[derive(Clone, Copy)]
pub(crate) enum Sought<'s> {
    /// The host with a name.
    Named(&'s Text),
    /// A host with a tap of a port.
    WithTap(Id),
    /// A host that takes a frame from a wire, and hasn't this name.
    Taker {
        but: Option<&'s Text>,
        physical: &'s Text,
        tag: Option<u16>,
        frame: Frame,
    },
}

// Whether an entry of the bridge leads to a port here.
fn is_here(found: Option<&BridgeRow>) -> bool
    ensures { result ≡ takes_to (option_copied found.entry) }
{
    match found {
        Some(row) => match row.to {
            BridgeTo::Tap(_) | BridgeTo::Router { .. } => true,
            BridgeTo::Tunnel { .. } => false,
        },
        None => false,
    }
}

// Whether a host takes a frame from a wire: a packet for a port here, a request for a lease where
// the DHCP port is here, and a question for an address that it knows.
fn takes(host: &HostAt<'_>, physical: &Text, tag: Option<u16>, frame: &Frame) -> bool
    ensures { result
        ≡ taken_by (record { physical = physical.now; tag = tag }) frame.now
        (view_of_host host.now).host }
{
    let Some(row) = host.tables.inward_wire(physical, tag) else {
        return false;
    };
    match *frame {
        Frame::Ip { dst, .. } => is_here(bridge_at(host.tables, row.tag, BridgeKey::Mac(dst))),
        Frame::NeighbourAsk { ends, .. } => {
            neighbour_at(host.tables, row.tag, &ends.destination()).is_some()
        }
        Frame::Dhcp { .. } => is_here(bridge_at(host.tables, row.tag, BridgeKey::Dhcp)),
        Frame::Other { .. } => false,
    }
}

fn is_other(host: &HostAt<'_>, but: Option<&Text>) -> bool
    ensures { result ≡ is_other_than (option_copied but.entry) (view_of_host host.now) }
{
    match but {
        Some(name) => *host.name != *name,
        None => true,
    }
}

fn is_sought(host: &HostAt<'_>, sought: &Sought<'_>) -> bool
    ensures { result ≡ is_sought_in sought.now (view_of_host host.now) }
{
    match sought {
        Sought::Named(name) => **name == *host.name,
        Sought::WithTap(port) => host.tables.tap_at(*port).is_some(),
        Sought::Taker {
            but,
            physical,
            tag,
            frame,
        } => is_other(host, *but) && takes(host, physical, *tag, frame),
    }
}

/// The place of the first host that is sought. Its cost grows with the hosts.
pub(crate) fn find_host(fleet: &DvrFleet<'_>, sought: &Sought<'_>) -> Option<usize>
    ensures { IsFirst (is_sought_in sought.now) fleet.now result }
{
    for at in 0..fleet.count() {
        if is_sought(&fleet.host_at(at), sought) {
            return Some(at);
        }
    }
    None
}
