//! Single packets against the parts of a filter.

ghost use Rattle.std.specs.Prelude.{◌≡◌};
ghost use Rattle.plane_types.specs.Ends.{ask_type as type_of_ask, echo_protocol as protocol_of_echo, reply_type as type_of_reply};
ghost use Rattle.plane_types.specs.Filter.{at_least as not_below, at_most as not_above, far_of as far_address, has_type as protocol_has_type, in_range as range_has, is_none_of as has_none, same_or_none as same_if_any};
ghost use Rattle.plane_types.specs.Keys.{protocol_of as protocol_number};

use crate::ends::Ends;
use crate::frame::{Key, KeyKind};
use api_types::Direction;
use net_addr::Addr;

fn same_or_none(wanted: Option<u16>, number: u16) -> bool
    ensures { result ≡ same_if_any wanted number }
{
    match wanted {
        Some(wanted) => wanted == number,
        None => true,
    }
}

fn at_least(low: Option<u16>, port: u16) -> bool
    ensures { result ≡ not_below low port }
{
    match low {
        Some(low) => low <= port,
        None => true,
    }
}

fn at_most(high: Option<u16>, port: u16) -> bool
    ensures { result ≡ not_above high port }
{
    match high {
        Some(high) => port <= high,
        None => true,
    }
}

fn is_none(end: Option<u16>) -> bool
    ensures { result ≡ has_none end }
{
    match end {
        Some(_) => false,
        None => true,
    }
}

// The protocol of echoes (IANA), by the version.
fn echo_protocol(ends: &Ends) -> u8
    ensures { result ≡ protocol_of_echo ends.now }
{
    if ends.are_four() { 1 } else { 58 }
}

// The type of an echo (RFC 792, RFC 4443).
fn ask_type(ends: &Ends) -> u16
    ensures { result ≡ type_of_ask ends.now }
{
    if ends.are_four() { 8 } else { 128 }
}

// The type of its reply.
fn reply_type(ends: &Ends) -> u16
    ensures { result ≡ type_of_reply ends.now }
{
    if ends.are_four() { 0 } else { 129 }
}

// Whether rules give a type and a code for a protocol: for ICMP and ICMPv6.
fn has_type(protocol: u8) -> bool
    ensures { result ≡ protocol_has_type protocol }
{
    protocol == 1 || protocol == 58
}

// The number of the protocol (IANA).
fn protocol_of(ends: &Ends, kind: KeyKind) -> u8
    ensures { result ≡ protocol_number ends.now kind }
{
    match kind {
        KeyKind::Tcp => 6,
        KeyKind::Udp => 17,
        KeyKind::EchoAsk | KeyKind::EchoReply => echo_protocol(ends),
        KeyKind::Proto(number) => number,
    }
}

/// Whether packets of a kind are of a protocol, or of any where it is null.
pub fn is_protocol(protocol: Option<u8>, ends: &Ends, kind: KeyKind) -> bool
    ensures { result ≡ same_if_any protocol (protocol_number ends.now kind) }
{
    match protocol {
        Some(protocol) => protocol == protocol_of(ends, kind),
        None => true,
    }
}

/// Whether the destination port is in a range, whose null end doesn't bound; for ICMP and ICMPv6,
/// whether type and code equal the parts that aren't null (RFC 792, RFC 4443).
pub fn in_range(low: Option<u16>, high: Option<u16>, ends: &Ends, kind: KeyKind, port: u16) -> bool
    ensures { result ≡ range_has low high ends.now kind port }
{
    match kind {
        KeyKind::EchoAsk => same_or_none(low, ask_type(ends)) && same_or_none(high, 0),
        KeyKind::EchoReply => same_or_none(low, reply_type(ends)) && same_or_none(high, 0),
        KeyKind::Tcp | KeyKind::Udp => at_least(low, port) && at_most(high, port),
        KeyKind::Proto(number) => {
            if has_type(number) {
                is_none(low) && is_none(high)
            } else {
                at_least(low, port) && at_most(high, port)
            }
        }
    }
}

/// The source for ingress, the destination for egress.
pub fn far_of(direction: Direction, key: &Key) -> Addr
    ensures { result ≡ far_address direction key.now }
{
    match direction {
        Direction::Ingress => key.ends.source(),
        Direction::Egress => key.ends.destination(),
    }
}
