//! Texts, numbers, ids and addresses among values.
ghost use Rattle.std.specs.Prelude.{◌≡◌};
ghost use Rattle.serde_json.specs.View.{view};
ghost use Rattle.json_values.specs.Values.{whole_of};
ghost use Rattle.json_values.specs.Items.{id_of, four_of, six_of, address_of, mac_of, card_of, prefix_said, exact_of};

use crate::text::{read_address, read_cidr, read_four, read_id, read_mac, read_six};
use api_types::Id;
use net_addr::{Addr, Addr4, Addr6, Mac, Prefix};
use serde_json::Value;

/// A whole number from one to another, written without fraction and exponent.
pub(crate) fn whole_of(value: &Value, low: u64, high: u64) -> Option<u64>
    ensures { result ≡ whole_of low high (view value.now) }
{
    match value.as_u64() {
        Some(number) if low <= number && number <= high => Some(number),
        _ => None,
    }
}

pub(crate) fn id_of(value: &Value) -> Option<Id>
    ensures { result ≡ id_of (view value.now) }
{
    read_id(value.as_str()?.as_bytes())
}

pub(crate) fn four_of(value: &Value) -> Option<Addr4>
    ensures { result ≡ four_of (view value.now) }
{
    read_four(value.as_str()?.as_bytes())
}

pub(crate) fn six_of(value: &Value) -> Option<Addr6>
    ensures { result ≡ six_of (view value.now) }
{
    read_six(value.as_str()?.as_bytes())
}

pub(crate) fn address_of(value: &Value) -> Option<Addr>
    ensures { result ≡ address_of (view value.now) }
{
    read_address(value.as_str()?.as_bytes())
}

pub(crate) fn mac_of(value: &Value) -> Option<Mac>
    ensures { result ≡ mac_of (view value.now) }
{
    read_mac(value.as_str()?.as_bytes())
}

/// The MAC of one card: it isn't zero, and its first byte is even.
pub(crate) fn card_of(value: &Value) -> Option<Mac>
    ensures { result ≡ card_of (view value.now) }
{
    match mac_of(value) {
        Some(mac) if mac.is_unicast() => Some(mac),
        _ => None,
    }
}

/// An address, or an address with a length, of which the bits after the length are cleared.
pub(crate) fn prefix_of(value: &Value) -> Option<Prefix>
    ensures { result ≡ prefix_said (view value.now) }
{
    let text = value.as_str()?;
    if let Some(address) = read_address(text.as_bytes()) {
        return Some(address.whole_prefix());
    }
    match read_cidr(text.as_bytes()) {
        Some(cidr) => Some(cidr.prefix()),
        None => None,
    }
}

/// A prefix whose other bits are zero.
pub(crate) fn exact_of(value: &Value) -> Option<Prefix>
    ensures { result ≡ exact_of (view value.now) }
{
    match read_cidr(value.as_str()?.as_bytes()) {
        Some(cidr) if cidr.is_exact() => Some(cidr.prefix()),
        _ => None,
    }
}
