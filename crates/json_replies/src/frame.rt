//! Frames, keys and tracked entries as JSON.
ghost use Rattle.std.specs.Prelude.{◌≡◌, ◌∷◌, [], IfOk, OnOk, codes};
ghost use Rattle.serde_json.specs.Data.{no_members};
ghost use Rattle.api_types.specs.Printed.{number, word};
ghost use Rattle.serde_json.specs.View.{members_view};
ghost use Rattle.json_trees.specs.Printed.{members_data, tree_data};
ghost use Rattle.plane_types.specs.Ends.{destination, source};
ghost use Rattle.json_replies.specs.Frames.{ask_word as word_of_ask, entry_tree, frame_tree, key_tree, kind_members, packet_word as word_of_packet, part_members};
ghost use Rattle.json_trees.specs.Words.{address_tree, mac_tree};

use crate::printed::Prints;
use net_addr::{Mac, OutOfMemory};
use plane_types::{Ends, Entry, Frame, Key, KeyKind, KeyPart};
use serde_json::{Map, Value};
use std::alloc::Global;

/// Adds a member to an object.
pub(crate) fn put<T: Prints>(
    map: &mut Map<String, Value>,
    alloc: Global,
    name: &str,
    value: &T,
) -> Result<(), OutOfMemory>
    ensures { OnOk result
        (members_view map.new.entries
        ≡ members_data ((name.now, T.tree value.now) ∷ []) (members_view map.old.entries)) }
{
    let value = value.value(alloc)?;
    serde_json::put(map, alloc, name, value)?;
    Ok(())
}

// Adds two ports and a protocol.
fn put_ports(
    map: &mut Map<String, Value>,
    alloc: Global,
    protocol: &str,
    sport: u16,
    dport: u16,
) -> Result<(), OutOfMemory>
    ensures { OnOk result
        (members_view map.new.entries
        ≡ members_data
        ((codes "dport", number dport) ∷ (codes "proto", word protocol.now)
        ∷ (codes "sport", number sport) ∷ []) (members_view map.old.entries)) }
{
    put(map, alloc, "dport", &dport)?;
    put(map, alloc, "proto", &protocol)?;
    put(map, alloc, "sport", &sport)
}

// Adds what a packet carries.
fn put_part(map: &mut Map<String, Value>, alloc: Global, part: KeyPart) -> Result<(), OutOfMemory>
    ensures { OnOk result
        (members_view map.new.entries
        ≡ members_data (part_members part) (members_view map.old.entries)) }
{
    match part {
        KeyPart::Tcp { sport, dport } => put_ports(map, alloc, "tcp", sport, dport),
        KeyPart::Udp { sport, dport } => put_ports(map, alloc, "udp", sport, dport),
        KeyPart::EchoAsk { id } => {
            put(map, alloc, "id", &id)?;
            put(map, alloc, "proto", &"echo_ask")
        }
        KeyPart::EchoReply { id } => {
            put(map, alloc, "id", &id)?;
            put(map, alloc, "proto", &"echo_reply")
        }
        KeyPart::Proto { number } => {
            put(map, alloc, "number", &number)?;
            put(map, alloc, "proto", &"other")
        }
    }
}

// The kind of packets between two ends.
fn packet_word(ends: &Ends) -> &'static str
    ensures { result.now ≡ word_of_packet ends.now }
{
    if ends.are_four() { "ip4" } else { "ip6" }
}

// The kind of asks between two ends.
fn ask_word(ends: &Ends) -> &'static str
    ensures { result.now ≡ word_of_ask ends.now }
{
    if ends.are_four() {
        "arp_ask"
    } else {
        "neigh_ask"
    }
}

// A packet without what it carries.
fn packet(
    alloc: Global,
    src: Mac,
    dst: Mac,
    ends: &Ends,
    ttl: u8,
) -> Result<Map<String, Value>, OutOfMemory>
    ensures { IfOk result (λ m. members_view m.entries ≡ members_data
        ((codes "dst", mac_tree dst) ∷ (codes "from", address_tree (source ends.now))
        ∷ (codes "kind", word (word_of_packet ends.now)) ∷ (codes "src", mac_tree src)
        ∷ (codes "to", address_tree (destination ends.now)) ∷ (codes "ttl", number ttl) ∷ [])
        no_members) }
{
    let mut map = Map::new(alloc);
    put(&mut map, alloc, "dst", &dst)?;
    put(&mut map, alloc, "from", &ends.source())?;
    put(&mut map, alloc, "kind", &packet_word(ends))?;
    put(&mut map, alloc, "src", &src)?;
    put(&mut map, alloc, "to", &ends.destination())?;
    put(&mut map, alloc, "ttl", &ttl)?;
    Ok(map)
}

impl Prints for Frame {
    ghost tree = { frame_tree };

    fn value(&self, alloc: Global) -> Result<Value, OutOfMemory> {
        match *self {
            Frame::Ip {
                src,
                dst,
                ends,
                ttl,
                part,
            } => {
                let mut map = packet(alloc, src, dst, &ends, ttl)?;
                put_part(&mut map, alloc, part)?;
                Ok(Value::Object(map))
            }
            Frame::NeighbourAsk { src, ends } => {
                let mut map = Map::new(alloc);
                put(&mut map, alloc, "from", &ends.source())?;
                put(&mut map, alloc, "kind", &ask_word(&ends))?;
                put(&mut map, alloc, "src", &src)?;
                put(&mut map, alloc, "to", &ends.destination())?;
                Ok(Value::Object(map))
            }
            Frame::Dhcp { src, from } => {
                let mut map = Map::new(alloc);
                put(&mut map, alloc, "from", &from)?;
                put(&mut map, alloc, "kind", &"dhcp_ask")?;
                put(&mut map, alloc, "src", &src)?;
                Ok(Value::Object(map))
            }
            Frame::Other {
                src,
                dst,
                ethertype,
            } => {
                let mut map = Map::new(alloc);
                put(&mut map, alloc, "dst", &dst)?;
                put(&mut map, alloc, "ethertype", &ethertype)?;
                put(&mut map, alloc, "kind", &"other")?;
                put(&mut map, alloc, "src", &src)?;
                Ok(Value::Object(map))
            }
        }
    }
}

// Adds a packet's protocol.
fn put_kind(map: &mut Map<String, Value>, alloc: Global, kind: KeyKind) -> Result<(), OutOfMemory>
    ensures { OnOk result
        (members_view map.new.entries
        ≡ members_data (kind_members kind) (members_view map.old.entries)) }
{
    match kind {
        KeyKind::Tcp => put(map, alloc, "proto", &"tcp"),
        KeyKind::Udp => put(map, alloc, "proto", &"udp"),
        KeyKind::EchoAsk => put(map, alloc, "proto", &"echo_ask"),
        KeyKind::EchoReply => put(map, alloc, "proto", &"echo_reply"),
        KeyKind::Proto(number) => {
            put(map, alloc, "number", &number)?;
            put(map, alloc, "proto", &"other")
        }
    }
}

impl Prints for Key {
    ghost tree = { key_tree };

    fn value(&self, alloc: Global) -> Result<Value, OutOfMemory> {
        let mut map = Map::new(alloc);
        put(&mut map, alloc, "dport", &self.dport)?;
        put(&mut map, alloc, "from", &self.ends.source())?;
        put(&mut map, alloc, "sport", &self.sport)?;
        put(&mut map, alloc, "to", &self.ends.destination())?;
        put_kind(&mut map, alloc, self.kind)?;
        Ok(Value::Object(map))
    }
}

impl Prints for Entry {
    ghost tree = { entry_tree };

    fn value(&self, alloc: Global) -> Result<Value, OutOfMemory> {
        match *self {
            Entry::Flow {
                port,
                direction,
                key,
            } => {
                let mut map = Map::new(alloc);
                put(&mut map, alloc, "direction", &direction)?;
                put(&mut map, alloc, "key", &key)?;
                put(&mut map, alloc, "kind", &"flow")?;
                put(&mut map, alloc, "port", &port)?;
                Ok(Value::Object(map))
            }
            Entry::Snat {
                router,
                key,
                outer,
                outer_port,
            } => {
                let mut map = Map::new(alloc);
                put(&mut map, alloc, "key", &key)?;
                put(&mut map, alloc, "kind", &"snat")?;
                put(&mut map, alloc, "outer", &outer)?;
                put(&mut map, alloc, "outer_port", &outer_port)?;
                put(&mut map, alloc, "router", &router)?;
                Ok(Value::Object(map))
            }
        }
    }
}
