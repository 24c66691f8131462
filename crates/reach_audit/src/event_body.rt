//! Events as bodies of `explain`.

ghost use Rattle.std.specs.Prelude.{◌≡◌, ◌∷◌, [], IfOk, OnOk, codes, string_bytes};
ghost use Rattle.serde_json.specs.Data.{no_members};
ghost use Rattle.serde_json.specs.View.{members_view, view};
ghost use Rattle.api_types.specs.Printed.{number, word};
ghost use Rattle.json_replies.specs.Frames.{ask_word as word_of_ask, frame_tree, packet_word as word_of_packet, part_members};
ghost use Rattle.json_trees.specs.Words.{address_tree, mac_tree};
ghost use Rattle.json_trees.specs.Printed.{members_data, or_null, tree_data};
ghost use Rattle.plane_types.specs.Ends.{destination, source};
ghost use Rattle.reach_audit.specs.EventBodies.{body_tree, event_body, event_tree};

use net_addr::{Addr, Mac, OutOfMemory};
use plane_types::{Ends, Event, Frame, KeyPart};
use serde_json::{Map, Value};
use std::alloc::Global;

fn put_number(
    map: &mut Map<String, Value>,
    alloc: Global,
    name: &str,
    value: u64,
) -> Result<(), OutOfMemory>
    ensures { OnOk result
        (members_view map.new.entries
        ≡ members_data ((name.now, number value) ∷ []) (members_view map.old.entries)) }
{
    serde_json::put(map, alloc, name, Value::from(value))?;
    Ok(())
}

fn put_word(
    map: &mut Map<String, Value>,
    alloc: Global,
    name: &str,
    text: &str,
) -> Result<(), OutOfMemory>
    ensures { OnOk result
        (members_view map.new.entries
        ≡ members_data ((name.now, word text.now) ∷ []) (members_view map.old.entries)) }
{
    let value = Value::try_from_str(alloc, text)?;
    serde_json::put(map, alloc, name, value)?;
    Ok(())
}

fn put_mac(
    map: &mut Map<String, Value>,
    alloc: Global,
    name: &str,
    mac: Mac,
) -> Result<(), OutOfMemory>
    ensures { OnOk result
        (members_view map.new.entries
        ≡ members_data ((name.now, mac_tree mac) ∷ []) (members_view map.old.entries)) }
{
    let text = mac.print(alloc)?;
    put_word(map, alloc, name, text.as_str())
}

fn put_address(
    map: &mut Map<String, Value>,
    alloc: Global,
    name: &str,
    address: &Addr,
) -> Result<(), OutOfMemory>
    ensures { OnOk result
        (members_view map.new.entries
        ≡ members_data ((name.now, address_tree address.now) ∷ [])
        (members_view map.old.entries)) }
{
    let text = address.print(alloc)?;
    put_word(map, alloc, name, text.as_str())
}

// Adds two ports and a protocol.
fn put_ports(
    map: &mut Map<String, Value>,
    alloc: Global,
    protocol: &str,
    sport: u16,
    dport: u16,
) -> Result<(), OutOfMemory>
    ensures { OnOk result
        (members_view map.new.entries
        ≡ members_data
        ((codes "dport", number dport) ∷ (codes "proto", word protocol.now)
        ∷ (codes "sport", number sport) ∷ []) (members_view map.old.entries)) }
{
    put_number(map, alloc, "dport", u64::from(dport))?;
    put_word(map, alloc, "proto", protocol)?;
    put_number(map, alloc, "sport", u64::from(sport))
}

// Adds an echo's id and its kind.
fn put_echo(
    map: &mut Map<String, Value>,
    alloc: Global,
    kind: &str,
    id: u16,
) -> Result<(), OutOfMemory>
    ensures { OnOk result
        (members_view map.new.entries
        ≡ members_data ((codes "id", number id) ∷ (codes "proto", word kind.now) ∷ [])
        (members_view map.old.entries)) }
{
    put_number(map, alloc, "id", u64::from(id))?;
    put_word(map, alloc, "proto", kind)
}

fn put_other(map: &mut Map<String, Value>, alloc: Global, protocol: u8) -> Result<(), OutOfMemory>
    ensures { OnOk result
        (members_view map.new.entries
        ≡ members_data
        ((codes "number", number protocol) ∷ (codes "proto", word (codes "other")) ∷ [])
        (members_view map.old.entries)) }
{
    put_number(map, alloc, "number", u64::from(protocol))?;
    put_word(map, alloc, "proto", "other")
}

// Adds what a packet carries.
fn put_part(map: &mut Map<String, Value>, alloc: Global, part: KeyPart) -> Result<(), OutOfMemory>
    ensures { OnOk result
        (members_view map.new.entries
        ≡ members_data (part_members part) (members_view map.old.entries)) }
{
    match part {
        KeyPart::Tcp { sport, dport } => put_ports(map, alloc, "tcp", sport, dport),
        KeyPart::Udp { sport, dport } => put_ports(map, alloc, "udp", sport, dport),
        KeyPart::EchoAsk { id } => put_echo(map, alloc, "echo_ask", id),
        KeyPart::EchoReply { id } => put_echo(map, alloc, "echo_reply", id),
        KeyPart::Proto { number } => put_other(map, alloc, number),
    }
}

// The kind of packets between two ends.
fn packet_word(ends: &Ends) -> &'static str
    ensures { result.now ≡ word_of_packet ends.now }
{
    if ends.are_four() { "ip4" } else { "ip6" }
}

// The kind of asks between two ends.
fn ask_word(ends: &Ends) -> &'static str
    ensures { result.now ≡ word_of_ask ends.now }
{
    if ends.are_four() {
        "arp_ask"
    } else {
        "neigh_ask"
    }
}

// A packet without what it carries.
fn packet_members(
    alloc: Global,
    src: Mac,
    dst: Mac,
    ends: &Ends,
    ttl: u8,
) -> Result<Map<String, Value>, OutOfMemory>
    ensures { IfOk result (λ m. members_view m.entries ≡ members_data
        ((codes "dst", mac_tree dst) ∷ (codes "from", address_tree (source ends.now))
        ∷ (codes "kind", word (word_of_packet ends.now)) ∷ (codes "src", mac_tree src)
        ∷ (codes "to", address_tree (destination ends.now)) ∷ (codes "ttl", number ttl) ∷ [])
        no_members) }
{
    let mut map = Map::new(alloc);
    put_mac(&mut map, alloc, "dst", dst)?;
    put_address(&mut map, alloc, "from", &ends.source())?;
    put_word(&mut map, alloc, "kind", packet_word(ends))?;
    put_mac(&mut map, alloc, "src", src)?;
    put_address(&mut map, alloc, "to", &ends.destination())?;
    put_number(&mut map, alloc, "ttl", u64::from(ttl))?;
    Ok(map)
}

fn frame_value(alloc: Global, frame: &Frame) -> Result<Value, OutOfMemory>
    ensures { IfOk result (λ v. view v ≡ tree_data (frame_tree frame.now)) }
{
    match *frame {
        Frame::Ip {
            src,
            dst,
            ends,
            ttl,
            part,
        } => {
            let mut map = packet_members(alloc, src, dst, &ends, ttl)?;
            put_part(&mut map, alloc, part)?;
            Ok(Value::Object(map))
        }
        Frame::NeighbourAsk { src, ends } => {
            let mut map = Map::new(alloc);
            put_address(&mut map, alloc, "from", &ends.source())?;
            put_word(&mut map, alloc, "kind", ask_word(&ends))?;
            put_mac(&mut map, alloc, "src", src)?;
            put_address(&mut map, alloc, "to", &ends.destination())?;
            Ok(Value::Object(map))
        }
        Frame::Dhcp { src, from } => {
            let mut map = Map::new(alloc);
            put_address(&mut map, alloc, "from", &Addr::V4(from))?;
            put_word(&mut map, alloc, "kind", "dhcp_ask")?;
            put_mac(&mut map, alloc, "src", src)?;
            Ok(Value::Object(map))
        }
        Frame::Other {
            src,
            dst,
            ethertype,
        } => {
            let mut map = Map::new(alloc);
            put_mac(&mut map, alloc, "dst", dst)?;
            put_number(&mut map, alloc, "ethertype", u64::from(ethertype))?;
            put_word(&mut map, alloc, "kind", "other")?;
            put_mac(&mut map, alloc, "src", src)?;
            Ok(Value::Object(map))
        }
    }
}

fn put_frame(map: &mut Map<String, Value>, alloc: Global, frame: &Frame) -> Result<(), OutOfMemory>
    ensures { OnOk result
        (members_view map.new.entries
        ≡ members_data ((codes "frame", frame_tree frame.now) ∷ [])
        (members_view map.old.entries)) }
{
    let frame = frame_value(alloc, frame)?;
    serde_json::put(map, alloc, "frame", frame)?;
    Ok(())
}

// A tag, or null.
fn tag_value(tag: Option<u16>) -> Value
    ensures { view result ≡ tree_data (or_null number tag) }
{
    match tag {
        Some(tag) => Value::from(tag),
        None => Value::Null,
    }
}

fn put_tag(map: &mut Map<String, Value>, alloc: Global, tag: Option<u16>) -> Result<(), OutOfMemory>
    ensures { OnOk result
        (members_view map.new.entries
        ≡ members_data ((codes "segmentation_id", or_null number tag) ∷ [])
        (members_view map.old.entries)) }
{
    serde_json::put(map, alloc, "segmentation_id", tag_value(tag))?;
    Ok(())
}

fn event_value(alloc: Global, event: &Event) -> Result<Value, OutOfMemory>
    ensures { IfOk result (λ v. view v ≡ tree_data (event_tree event.now)) }
{
    match event {
        Event::FromPort { port, frame } => {
            let mut map = Map::new(alloc);
            put_frame(&mut map, alloc, frame)?;
            let port = port.print(alloc)?;
            put_word(&mut map, alloc, "port", port.as_str())?;
            Ok(Value::Object(map))
        }
        Event::FromWire {
            physical,
            tag,
            frame,
        } => {
            let mut map = Map::new(alloc);
            put_frame(&mut map, alloc, frame)?;
            put_word(&mut map, alloc, "physical_network", physical.as_str())?;
            put_tag(&mut map, alloc, *tag)?;
            Ok(Value::Object(map))
        }
    }
}

// An object with the event.
fn body_value(alloc: Global, event: &Event) -> Result<Value, OutOfMemory>
    ensures { IfOk result (λ v. view v ≡ tree_data (body_tree event.now)) }
{
    let mut map = Map::new(alloc);
    serde_json::put(&mut map, alloc, "event", event_value(alloc, event)?)?;
    Ok(Value::Object(map))
}

/// The event as the body of `explain`, without spaces.
pub(crate) fn print_event(alloc: Global, event: &Event) -> Result<String, OutOfMemory>
    ensures { IfOk result (λ s. string_bytes s ≡ event_body event.now) }
{
    Ok(body_value(alloc, event)?.to_string(alloc)?)
}
