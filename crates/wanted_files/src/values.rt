//! What a key of a table says.

ghost use Rattle.std.specs.Prelude.{◌≡◌, map, option_map};
ghost use Rattle.json_values.specs.Texts.{address_in};
ghost use Rattle.json_values.specs.Values.{is_among};
ghost use Rattle.toml.specs.Data.{get_member};
ghost use Rattle.toml.specs.View.{table_view, view};
ghost use Rattle.wanted_files.specs.Values.{address_at, address_of, has_only, id_at, number_at, number_of, text_at};

use api_types::Id;
use json_values::read_id;
use net_addr::Addr;
use toml::{Table, Value};

/// The value at a key.
pub(crate) fn value_at<'a>(table: &'a Table, key: &str) -> Option<&'a Value>
    ensures { option_map (λ v. view v.now) result ≡ get_member key.now (table_view table.now) }
{
    table.get(key)
}

/// The string at a key.
pub(crate) fn text_at<'a>(table: &'a Table, key: &str) -> Option<&'a str>
    ensures { option_map (λ s. s.now) result ≡ text_at key.now (table_view table.now) }
{
    match value_at(table, key) {
        Some(value) => value.as_str(),
        None => None,
    }
}

/// The id that the string at a key spells.
pub(crate) fn id_at(table: &Table, key: &str) -> Option<Id>
    ensures { result ≡ id_at key.now (table_view table.now) }
{
    match text_at(table, key) {
        Some(text) => read_id(text.as_bytes()),
        None => None,
    }
}

// The address of either version that a text spells.
#[tactic(auto, using(json_values::proofs::AddrLemmas::address_read, json_values::proofs::AddrLemmas::no_address))]
fn read_address(text: &[u8]) -> Option<Addr>
    ensures { result ≡ address_in text.now }
{
    match Addr::read(text) {
        Ok(address) => Some(address),
        Err(_) => None,
    }
}

fn address_of(value: &Value) -> Option<Addr>
    ensures { result ≡ address_of (view value.now) }
{
    match value.as_str() {
        Some(text) => read_address(text.as_bytes()),
        None => None,
    }
}

/// The address that the string at a key spells, or that there is no such key.
pub(crate) fn address_at(table: &Table, key: &str) -> Option<Option<Addr>>
    ensures { result ≡ address_at key.now (table_view table.now) }
{
    match value_at(table, key) {
        None => Some(None),
        Some(value) => match address_of(value) {
            Some(address) => Some(Some(address)),
            None => None,
        },
    }
}

fn number_of(value: &Value) -> Option<u32>
    ensures { result ≡ number_of (view value.now) }
{
    match value.as_integer() {
        Some(n) if n >= 0 && n <= 65535 => u32::try_from(n).ok(),
        _ => None,
    }
}

/// The number at a key, from 0 to 65,535.
pub(crate) fn number_at(table: &Table, key: &str) -> Option<u32>
    ensures { result ≡ number_at key.now (table_view table.now) }
{
    match value_at(table, key) {
        Some(value) => number_of(value),
        None => None,
    }
}

// Whether a key is one of some.
fn is_among(keys: &[&str], key: &str) -> bool
    ensures { result ≡ is_among (map (λ s. s.now) keys.now) key.now }
{
    for known in keys {
        if key == *known {
            return true;
        }
    }
    false
}

/// Whether a table has no key but these.
pub(crate) fn has_only(table: &Table, keys: &[&str]) -> bool
    ensures { result ≡ has_only (map (λ s. s.now) keys.now) (table_view table.now) }
{
    for (key, _value) in table {
        if !is_among(keys, key.as_str()) {
            return false;
        }
    }
    true
}
