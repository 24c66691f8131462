//! Whether a port may send a frame, as what it says it is.

ghost use Rattle.std.specs.Prelude.{◌≡◌};
ghost use Rattle.plane_types.specs.Guard.{guards as guarded, may_ask_lease as may_ask, may_send as may_send_from, passes_guard as passes};

use api_types::PortRow;
use net_addr::{Addr, Mac};
use plane_types::{Frame, has_pair_mac, is_allowed};

// With its own MAC and one of its addresses, or by an allowed pair.
fn may_send(port: &PortRow, mac: Mac, from: &Addr) -> bool
    ensures { result ≡ may_send_from port.now mac from.now }
{
    (port.mac == mac && port.holds(from)) || is_allowed(port.pairs.as_slice(), mac, *from)
}

// Without an address, with its own MAC or a pair's.
fn may_ask_lease(port: &PortRow, mac: Mac) -> bool
    ensures { result ≡ may_ask port.now mac }
{
    port.mac == mac || has_pair_mac(port.pairs.as_slice(), mac)
}

fn guards(port: &PortRow, frame: &Frame) -> bool
    ensures { result ≡ guarded port.now frame.now }
{
    match *frame {
        Frame::Ip { src, ends, .. } => may_send(port, src, &ends.source()),
        Frame::NeighbourAsk { src, ends } => may_send(port, src, &ends.source()),
        Frame::Dhcp { src, from } => {
            if from.0 == 0 {
                may_ask_lease(port, src)
            } else {
                may_send(port, src, &Addr::V4(from))
            }
        }
        Frame::Other { .. } => true,
    }
}

/// Whether a port may send a frame, as what it says it is. Its cost grows with the port's addresses
/// and pairs.
pub(crate) fn passes_guard(port: &PortRow, frame: &Frame) -> bool
    ensures { result ≡ passes port.now frame.now }
{
    !port.secured || guards(port, frame)
}
