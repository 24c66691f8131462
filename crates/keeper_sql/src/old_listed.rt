//! Lists of addresses of version 4, as they stand in a store of format 1.

use crate::address::{four_of, id_of, mac_of, prefix_of};
use crate::listed::{Spelled, text_in};
use net_addr::{Addr4, Span};
use old_rows::{Fixed4, Hop4, Pair4, Prefix4, Span4};
use serde_json::Value;

/// The prefix of version 4 that a text spells.
pub(crate) fn four_prefix_of(text: &[u8]) -> Option<Prefix4> {
    let prefix = prefix_of(text)?;
    Prefix4::of(&prefix)
}

impl Spelled for Addr4 {
    fn read(value: &Value) -> Option<Addr4> {
        four_of(value.as_str()?.as_bytes())
    }
}

impl Spelled for Span4 {
    fn read(value: &Value) -> Option<Span4> {
        let span = Span::read(value)?;
        Span4::of(&span)
    }
}

impl Spelled for Hop4 {
    fn read(value: &Value) -> Option<Hop4> {
        let destination = four_prefix_of(text_in(value, "destination")?)?;
        let next = four_of(text_in(value, "nexthop")?)?;
        Some(Hop4 { destination, next })
    }
}

impl Spelled for Fixed4 {
    fn read(value: &Value) -> Option<Fixed4> {
        let subnet = id_of(text_in(value, "subnet_id")?)?;
        let address = four_of(text_in(value, "ip_address")?)?;
        Some(Fixed4 { subnet, address })
    }
}

impl Spelled for Pair4 {
    fn read(value: &Value) -> Option<Pair4> {
        let mac = mac_of(text_in(value, "mac_address")?)?;
        let prefix = four_prefix_of(text_in(value, "ip_address")?)?;
        Some(Pair4 { mac, prefix })
    }
}
