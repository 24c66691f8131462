//! The first key that isn't known, in byte order.

ghost use Rattle.std.specs.Prelude.{◌≡◌, IfOk, map, fold};
ghost use Rattle.toml.specs.View.{view, table_view};
ghost use Rattle.net_settings.specs.Unknown.{is_key, is_host_key, knows, full_key, lesser, unknown_in, unknown_among, first_unknown};

use crate::texts::{value_at, values_of};
use net_addr::{OutOfMemory, Text};
use std::alloc::Global;
use toml::{Table, Value};

fn is_key(key: &str) -> bool
    ensures { result ≡ is_key key.now }
{
    key == "drivers"
        || key == "vxlan_first"
        || key == "vxlan_last"
        || key == "quotas"
        || key == "hosts"
}

fn is_host_key(key: &str) -> bool
    ensures { result ≡ is_host_key key.now }
{
    key == "name" || key == "physical" || key == "vxlan" || key == "l3" || key == "dhcp"
}

// The lesser of two texts in byte order.
fn lesser(least: Option<Text>, text: Text) -> Option<Text>
    ensures { result ≡ lesser least text }
{
    match least {
        Some(least) if least.as_str() <= text.as_str() => Some(least),
        _ => Some(text),
    }
}

/// Where a table stands.
#[derive(Clone, Copy)]
enum Level {
    /// At the top of the document.
    Top,
    /// Among the hosts.
    Hosts,
}

fn knows(level: Level, key: &str) -> bool
    ensures { result ≡ knows level key.now }
{
    match level {
        Level::Top => is_key(key),
        Level::Hosts => is_host_key(key),
    }
}

// A key of a level as a refusal writes it.
fn full_key(alloc: Global, level: Level, key: &str) -> Result<Text, OutOfMemory>
    ensures { IfOk result (λ r. r ≡ full_key level key.now) }
{
    let mut full = match level {
        Level::Top => String::new(alloc),
        Level::Hosts => String::from_str(alloc, "hosts.")?,
    };
    full.push_str(key)?;
    Ok(Text::from_string(full))
}

// The least of a text and a table's unknown keys.
fn least_in(
    alloc: Global,
    level: Level,
    table: &Table,
    least: Option<Text>,
) -> Result<Option<Text>, OutOfMemory>
    ensures { IfOk result (λ r. r ≡ fold lesser least (unknown_in level (table_view table.now))) }
{
    let mut least = least;
    for (key, _value) in table {
        if !knows(level, key.as_str()) {
            least = lesser(least, full_key(alloc, level, key.as_str())?);
        }
    }
    Ok(least)
}

// The least of a text and the unknown keys of hosts.
fn least_among(
    alloc: Global,
    hosts: &[Value],
    least: Option<Text>,
) -> Result<Option<Text>, OutOfMemory>
    ensures { IfOk result (λ r. r ≡ fold lesser least (unknown_among (map view hosts.now))) }
{
    let mut least = least;
    for host in hosts {
        if let Some(table) = host.as_table() {
            least = least_in(alloc, Level::Hosts, table, least)?;
        }
    }
    Ok(least)
}

/// The first unknown key in byte order.
pub(crate) fn first_unknown(alloc: Global, table: &Table) -> Result<Option<Text>, OutOfMemory>
    ensures { IfOk result (λ r. r ≡ first_unknown (table_view table.now)) }
{
    let least = least_in(alloc, Level::Top, table, None)?;
    let Some(hosts) = value_at(table, "hosts") else {
        return Ok(least);
    };
    match values_of(hosts) {
        None => Ok(least),
        Some(hosts) => least_among(alloc, hosts, least),
    }
}
