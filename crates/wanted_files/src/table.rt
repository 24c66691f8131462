//! A table of the file.

ghost use Rattle.std.specs.Prelude.{◌≡◌, IfOk};
ghost use Rattle.toml.specs.View.{table_view};
ghost use Rattle.wanted_files.specs.Tables.{between_in, reach_in, table_keys, want_in, want_of};
ghost use Rattle.wanted_files.specs.Values.{has_only};

use crate::names::read_name;
use crate::range::read_range;
use crate::values::{address_at, has_only, id_at, text_at};
use crate::wanted::{ReachWant, WantedReach};
use api_types::Id;
use net_addr::{Addr, OutOfMemory, Text};
use std::alloc::Global;
use toml::Table;

/// From which port to which, and the addresses that are named.
#[derive(Clone, Copy)]
pub(crate) struct Between {
    pub(crate) from: Id,
    pub(crate) to: Id,
    pub(crate) from_address: Option<Addr>,
    pub(crate) to_address: Option<Addr>,
}

fn read_between(table: &Table) -> Option<Between>
    ensures { result ≡ between_in (table_view table.now) }
{
    let from = id_at(table, "from")?;
    let to = id_at(table, "to")?;
    let from_address = address_at(table, "from_address")?;
    let to_address = address_at(table, "to_address")?;
    Some(Between {
        from,
        to,
        from_address,
        to_address,
    })
}

fn want_of(word: &str) -> Option<ReachWant>
    ensures { result ≡ want_of word.now }
{
    match word {
        "allow" => Some(ReachWant::Allow),
        "deny" => Some(ReachWant::Deny),
        _ => None,
    }
}

fn read_want(table: &Table) -> Option<ReachWant>
    ensures { result ≡ want_in (table_view table.now) }
{
    want_of(text_at(table, "want")?)
}

fn has_known_keys(table: &Table) -> bool
    ensures { result ≡ has_only table_keys (table_view table.now) }
{
    has_only(
        table,
        &[
            "name",
            "from",
            "to",
            "from_address",
            "to_address",
            "proto",
            "low",
            "high",
            "want",
        ],
    )
}

/// What a table says, or None if it isn't in the grammar.
pub(crate) fn read_reach(alloc: Global, table: &Table) -> Result<Option<WantedReach>, OutOfMemory>
    ensures { IfOk result (λ r. r ≡ reach_in (table_view table.now)) }
{
    if !has_known_keys(table) {
        return Ok(None);
    }
    let Some(name) = read_name(table) else {
        return Ok(None);
    };
    let Some(between) = read_between(table) else {
        return Ok(None);
    };
    let Some(range) = read_range(table) else {
        return Ok(None);
    };
    let Some(want) = read_want(table) else {
        return Ok(None);
    };
    Ok(Some(WantedReach {
        name: Text::of(alloc, name)?,
        from: between.from,
        to: between.to,
        from_address: between.from_address,
        to_address: between.to_address,
        proto: range.proto,
        low: range.low,
        high: range.high,
        want,
    }))
}
