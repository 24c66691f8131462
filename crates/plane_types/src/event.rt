//! Events, and the seven places at which a frame can be.

use crate::frame::Frame;
use api_types::Id;
use net_addr::Text;

/// A frame that comes to the plane.
#[derive(Drop)]
pub enum Event {
    /// A port sends it.
    FromPort {
        port: Id,
        frame: Frame,
    },
    /// It comes from outside, by a physical network, untagged or with a tag of 1 to 4,094.
    FromWire {
        physical: Text,
        tag: Option<u16>,
        frame: Frame,
    },
}

/// Where a frame is at a host.
pub enum Place<'t> {
    /// It comes from a port of the host.
    TapIn {
        port: Id,
        frame: Frame,
    },
    /// It is at the bridge, under a local tag.
    Bridge {
        tag: u16,
        frame: Frame,
    },
    /// It comes by a tunnel, under a number of VXLAN.
    TunnelIn {
        number: u32,
        frame: Frame,
    },
    /// It comes by a physical network.
    WireIn {
        physical: &'t Text,
        tag: Option<u16>,
        frame: Frame,
    },
    /// It comes to a router, by this port of it.
    RouterIn {
        port: Id,
        router: Id,
        frame: Frame,
    },
    /// It comes to the DHCP port of a tag.
    DhcpIn {
        tag: u16,
        frame: Frame,
    },
    /// It comes to a port of the host.
    TapOut {
        port: Id,
        frame: Frame,
    },
}
