//! Lists in a column, as arrays of JSON (RFC 8259), which SQLite's `json_each` reads.

ghost use Rattle.std.specs.Prelude.{◌≡◌, ◌&&◌, nat_le};
ghost use Rattle.net_addr.specs.Addresses.{number, same_version};

use crate::address::{address_of, id_of, mac_of, prefix_of};
use crate::column::bytes_at;
use crate::trouble::Trouble;
use api_types::{Fixed, Hop, Id, Pair};
use net_addr::{Addr, OutOfMemory, Seq, Span, Text};
use serde_json::Value;
use sqlite::Row;
use std::alloc::Global;

/// What a value of JSON spells.
pub(crate) trait Spelled: Sized + Drop {
    fn read(value: &Value) -> Option<Self>;
}

/// What stands in a list that is written.
pub(crate) trait Listed: Spelled {
    /// Writes it as JSON. It has no character that JSON escapes.
    fn write(&self, alloc: Global, out: &mut String) -> Result<(), OutOfMemory>;
}

/// The text of a member.
pub(crate) fn text_in<'v>(value: &'v Value, name: &str) -> Option<&'v [u8]> {
    match value.get(name)?.as_str() {
        Some(text) => Some(text.as_bytes()),
        None => None,
    }
}

// A text in quotes.
fn push_quoted(out: &mut String, text: &Text) -> Result<(), OutOfMemory> {
    out.push_str("\"")?;
    out.push_str(text.as_str())?;
    out.push_str("\"")?;
    Ok(())
}

// An object of two texts.
fn push_pair(
    out: &mut String,
    names: (&str, &str),
    first: &Text,
    second: &Text,
) -> Result<(), OutOfMemory> {
    out.push_str("{\"")?;
    out.push_str(names.0)?;
    out.push_str("\":")?;
    push_quoted(out, first)?;
    out.push_str(",\"")?;
    out.push_str(names.1)?;
    out.push_str("\":")?;
    push_quoted(out, second)?;
    out.push_str("}")?;
    Ok(())
}

impl Listed for Id {
    fn write(&self, alloc: Global, out: &mut String) -> Result<(), OutOfMemory> {
        push_quoted(out, &self.print(alloc)?)
    }
}

impl Spelled for Id {
    fn read(value: &Value) -> Option<Id> {
        id_of(value.as_str()?.as_bytes())
    }
}

impl Listed for Addr {
    fn write(&self, alloc: Global, out: &mut String) -> Result<(), OutOfMemory> {
        push_quoted(out, &self.print(alloc)?)
    }
}

impl Spelled for Addr {
    fn read(value: &Value) -> Option<Addr> {
        address_of(value.as_str()?.as_bytes())
    }
}

// Whether both are of one version and the first isn't above the last.
fn is_in_order(first: &Addr, last: &Addr) -> bool
    ensures { result
        ≡ (same_version first.now last.now && nat_le (number first.now) (number last.now)) }
{
    match (first, last) {
        (Addr::V4(a), Addr::V4(b)) => a.0 <= b.0,
        (Addr::V6(a), Addr::V6(b)) => a.0 <= b.0,
        _ => false,
    }
}

impl Listed for Span {
    fn write(&self, alloc: Global, out: &mut String) -> Result<(), OutOfMemory> {
        let first = self.first.print(alloc)?;
        let last = self.last.print(alloc)?;
        push_pair(out, ("start", "end"), &first, &last)
    }
}

impl Spelled for Span {
    fn read(value: &Value) -> Option<Span> {
        let first = address_of(text_in(value, "start")?)?;
        let last = address_of(text_in(value, "end")?)?;
        if is_in_order(&first, &last) {
            Some(Span { first, last })
        } else {
            None
        }
    }
}

impl Listed for Hop {
    fn write(&self, alloc: Global, out: &mut String) -> Result<(), OutOfMemory> {
        let destination = self.destination.print(alloc)?;
        let next = self.next.print(alloc)?;
        push_pair(out, ("destination", "nexthop"), &destination, &next)
    }
}

impl Spelled for Hop {
    fn read(value: &Value) -> Option<Hop> {
        let destination = prefix_of(text_in(value, "destination")?)?;
        let next = address_of(text_in(value, "nexthop")?)?;
        Some(Hop { destination, next })
    }
}

impl Listed for Fixed {
    fn write(&self, alloc: Global, out: &mut String) -> Result<(), OutOfMemory> {
        let subnet = self.subnet.print(alloc)?;
        let address = self.address.print(alloc)?;
        push_pair(out, ("subnet_id", "ip_address"), &subnet, &address)
    }
}

impl Spelled for Fixed {
    fn read(value: &Value) -> Option<Fixed> {
        let subnet = id_of(text_in(value, "subnet_id")?)?;
        let address = address_of(text_in(value, "ip_address")?)?;
        Some(Fixed { subnet, address })
    }
}

impl Listed for Pair {
    fn write(&self, alloc: Global, out: &mut String) -> Result<(), OutOfMemory> {
        let mac = self.mac.print(alloc)?;
        let prefix = self.prefix.print(alloc)?;
        push_pair(out, ("mac_address", "ip_address"), &mac, &prefix)
    }
}

impl Spelled for Pair {
    fn read(value: &Value) -> Option<Pair> {
        let mac = mac_of(text_in(value, "mac_address")?)?;
        let prefix = prefix_of(text_in(value, "ip_address")?)?;
        Some(Pair { mac, prefix })
    }
}

/// A list as JSON. Its cost grows with the list.
pub(crate) fn list_text<T: Listed>(alloc: Global, items: &Seq<T>) -> Result<String, OutOfMemory> {
    let mut out = String::new(alloc);
    out.push_str("[")?;
    for (place, item) in items.as_slice().iter().enumerate() {
        if place > 0 {
            out.push_str(",")?;
        }
        item.write(alloc, &mut out)?;
    }
    out.push_str("]")?;
    Ok(out)
}

fn list_of<T: Spelled>(alloc: Global, values: &[Value]) -> Result<Seq<T>, Trouble> {
    let mut items = Seq::new(alloc);
    for value in values {
        match T::read(value) {
            Some(item) => items.push(item)?,
            None => return Err(Trouble::Fault),
        }
    }
    Ok(items)
}

fn value_of(alloc: Global, text: &[u8]) -> Result<Value, Trouble> {
    match Value::from_slice(alloc, text) {
        Ok(value) => Ok(value),
        Err(error) => {
            if error.is_memory() {
                Err(Trouble::OutOfMemory)
            } else {
                Err(Trouble::Fault)
            }
        }
    }
}

/// The list that a column spells.
pub(crate) fn list_at<T: Spelled>(alloc: Global, row: &Row, at: usize) -> Result<Seq<T>, Trouble> {
    let value = value_of(alloc, bytes_at(row, at)?)?;
    match value.as_array() {
        Some(values) => list_of(alloc, values.as_slice()),
        None => Err(Trouble::Fault),
    }
}
