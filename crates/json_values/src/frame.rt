//! Frames of the lab.
ghost use Rattle.std.specs.Prelude.{◌≡◌, ◌++◌, IfOk};
ghost use Rattle.serde_json.specs.Find.{as_object};
ghost use Rattle.serde_json.specs.View.{view};
ghost use Rattle.json_values.specs.Frames.{sixteen_bits, eight_bits, echo_protocol, other_protocol, ends_of, carried_of, packet_names, part_names, part_of, packet_with, packet_of, ask_of, dhcp_of, other_of, kind_of, frame_by, frame_of};
ghost use Rattle.json_values.specs.Values.{member_of, is_only};
ghost use Rattle.json_values.specs.Items.{mac_of, four_of, six_of};

use crate::object::is_object_of;
use crate::value::{four_of, mac_of, six_of, whole_of};
use api_types::Ethertype;
use net_addr::{Addr4, Addr6, Mac};
use plane_types::{Ends, Frame, KeyPart};
use serde_json::Value;

/// What a packet carries, as its `proto` names it.
#[derive(Clone, Copy)]
enum Carried {
    Tcp,
    Udp,
    EchoAsk,
    EchoReply,
    Other,
}

/// A kind of frame, as its `kind` names it.
#[derive(Clone, Copy)]
enum FrameKind {
    Ip4,
    Ip6,
    ArpAsk,
    NeighAsk,
    Dhcp,
    Other,
}

fn sixteen_bits(value: &Value) -> Option<u16>
    ensures { result ≡ sixteen_bits (view value.now) }
{
    match whole_of(value, 0, 65535) {
        Some(number) => Some(number as u16),
        None => None,
    }
}

fn eight_bits(value: &Value) -> Option<u8>
    ensures { result ≡ eight_bits (view value.now) }
{
    match whole_of(value, 0, 255) {
        Some(number) => Some(number as u8),
        None => None,
    }
}

fn echo_protocol(version: Ethertype) -> u8
    ensures { result ≡ echo_protocol version }
{
    match version {
        Ethertype::Ipv4 => 1,
        Ethertype::Ipv6 => 58,
    }
}

// A protocol that has no name of its own in a packet of this version.
fn other_protocol(value: &Value, version: Ethertype) -> Option<u8>
    ensures { result ≡ other_protocol version (view value.now) }
{
    let echo = echo_protocol(version);
    match eight_bits(value) {
        Some(number) if !(number == echo || (number == 6 || number == 17)) => Some(number),
        _ => None,
    }
}

fn carried_of(value: &Value) -> Option<Carried>
    ensures { result ≡ carried_of (view value.now) }
{
    match value.as_str()? {
        "tcp" => Some(Carried::Tcp),
        "udp" => Some(Carried::Udp),
        "echo_ask" => Some(Carried::EchoAsk),
        "echo_reply" => Some(Carried::EchoReply),
        "other" => Some(Carried::Other),
        _ => None,
    }
}

// Whether a packet has no other members than those of what it carries.
fn is_packet_of(frame: &Value, carries: Carried) -> bool
    ensures { result ≡ is_only (packet_names ++ part_names carries) (as_object (view frame.now)) }
{
    match carries {
        Carried::Tcp | Carried::Udp => is_object_of(
            frame,
            &[
                "kind", "src", "dst", "from", "to", "ttl", "proto", "sport", "dport",
            ],
        ),
        Carried::EchoAsk | Carried::EchoReply => is_object_of(
            frame,
            &["kind", "src", "dst", "from", "to", "ttl", "proto", "id"],
        ),
        Carried::Other => is_object_of(
            frame,
            &["kind", "src", "dst", "from", "to", "ttl", "proto", "number"],
        ),
    }
}

fn mac_at(frame: &Value, name: &str) -> Option<Mac>
    ensures { result ≡ member_of mac_of name.now (view frame.now) }
{
    mac_of(frame.get(name)?)
}

fn four_at(frame: &Value, name: &str) -> Option<Addr4>
    ensures { result ≡ member_of four_of name.now (view frame.now) }
{
    four_of(frame.get(name)?)
}

fn six_at(frame: &Value, name: &str) -> Option<Addr6>
    ensures { result ≡ member_of six_of name.now (view frame.now) }
{
    six_of(frame.get(name)?)
}

// Source and destination, of this version.
fn ends_of(frame: &Value, version: Ethertype) -> Option<Ends>
    ensures { result ≡ ends_of version (view frame.now) }
{
    match version {
        Ethertype::Ipv4 => {
            let from = four_at(frame, "from")?;
            let to = four_at(frame, "to")?;
            Some(Ends::four(from, to))
        }
        Ethertype::Ipv6 => {
            let from = six_at(frame, "from")?;
            let to = six_at(frame, "to")?;
            Some(Ends::six(from, to))
        }
    }
}

fn number_at(frame: &Value, name: &str) -> Option<u16>
    ensures { result ≡ member_of sixteen_bits name.now (view frame.now) }
{
    sixteen_bits(frame.get(name)?)
}

fn part_of(frame: &Value, version: Ethertype, carries: Carried) -> Option<KeyPart>
    ensures { result ≡ part_of version carries (view frame.now) }
{
    match carries {
        Carried::Tcp => {
            let sport = number_at(frame, "sport")?;
            let dport = number_at(frame, "dport")?;
            Some(KeyPart::Tcp { sport, dport })
        }
        Carried::Udp => {
            let sport = number_at(frame, "sport")?;
            let dport = number_at(frame, "dport")?;
            Some(KeyPart::Udp { sport, dport })
        }
        Carried::EchoAsk => {
            let id = number_at(frame, "id")?;
            Some(KeyPart::EchoAsk { id })
        }
        Carried::EchoReply => {
            let id = number_at(frame, "id")?;
            Some(KeyPart::EchoReply { id })
        }
        Carried::Other => {
            let number = other_protocol(frame.get("number")?, version)?;
            Some(KeyPart::Proto { number })
        }
    }
}

// A packet of this version that carries this.
fn packet_with(frame: &Value, version: Ethertype, carries: Carried) -> Option<Frame>
    ensures { result ≡ packet_with version carries (view frame.now) }
{
    if !is_packet_of(frame, carries) {
        return None;
    }
    let src = mac_at(frame, "src")?;
    let dst = mac_at(frame, "dst")?;
    let ends = ends_of(frame, version)?;
    let ttl = eight_bits(frame.get("ttl")?)?;
    let part = part_of(frame, version, carries)?;
    Some(Frame::Ip {
        src,
        dst,
        ends,
        ttl,
        part,
    })
}

fn packet_of(frame: &Value, version: Ethertype) -> Option<Frame>
    ensures { result ≡ packet_of version (view frame.now) }
{
    let carries = carried_of(frame.get("proto")?)?;
    packet_with(frame, version, carries)
}

// An ask for the MAC of an address of this version.
fn ask_of(frame: &Value, version: Ethertype) -> Option<Frame>
    ensures { result ≡ ask_of version (view frame.now) }
{
    if !is_object_of(frame, &["kind", "src", "from", "to"]) {
        return None;
    }
    let src = mac_at(frame, "src")?;
    let ends = ends_of(frame, version)?;
    Some(Frame::NeighbourAsk { src, ends })
}

fn dhcp_of(frame: &Value) -> Option<Frame>
    ensures { result ≡ dhcp_of (view frame.now) }
{
    if !is_object_of(frame, &["kind", "src", "from"]) {
        return None;
    }
    let src = mac_at(frame, "src")?;
    let from = four_at(frame, "from")?;
    Some(Frame::Dhcp { src, from })
}

fn other_of(frame: &Value) -> Option<Frame>
    ensures { result ≡ other_of (view frame.now) }
{
    if !is_object_of(frame, &["kind", "src", "dst", "ethertype"]) {
        return None;
    }
    let src = mac_at(frame, "src")?;
    let dst = mac_at(frame, "dst")?;
    let ethertype = number_at(frame, "ethertype")?;
    Some(Frame::Other {
        src,
        dst,
        ethertype,
    })
}

fn kind_of(value: &Value) -> Option<FrameKind>
    ensures { result ≡ kind_of (view value.now) }
{
    match value.as_str()? {
        "ip4" => Some(FrameKind::Ip4),
        "ip6" => Some(FrameKind::Ip6),
        "arp_ask" => Some(FrameKind::ArpAsk),
        "neigh_ask" => Some(FrameKind::NeighAsk),
        "dhcp_ask" => Some(FrameKind::Dhcp),
        "other" => Some(FrameKind::Other),
        _ => None,
    }
}

/// The frame that an object says, which has exactly the members of its kind.
pub(crate) fn frame_of(frame: &Value) -> Option<Frame>
    ensures { result ≡ frame_of (view frame.now) }
{
    match kind_of(frame.get("kind")?)? {
        FrameKind::Ip4 => packet_of(frame, Ethertype::Ipv4),
        FrameKind::Ip6 => packet_of(frame, Ethertype::Ipv6),
        FrameKind::ArpAsk => ask_of(frame, Ethertype::Ipv4),
        FrameKind::NeighAsk => ask_of(frame, Ethertype::Ipv6),
        FrameKind::Dhcp => dhcp_of(frame),
        FrameKind::Other => other_of(frame),
    }
}
