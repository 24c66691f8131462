//! Names of tables.

ghost use Rattle.std.specs.Prelude.{◌≡◌, IfOk, map, option_map};
ghost use Rattle.std.specs.List.{list_all};
ghost use Rattle.toml.specs.View.{table_view};
ghost use Rattle.wanted_files.specs.Names.{are_different, is_name, is_name_byte, name_in};
ghost use Rattle.wanted_files.specs.declared.wanted.WantedReach.{WantedReach as WantedTable};

use crate::values::text_at;
use crate::wanted::WantedReach;
use net_addr::OutOfMemory;
use std::alloc::Global;
use std::collections::BTreeSet;
use toml::Table;

// A letter or a digit of ASCII, `-` or `_`.
fn is_name_byte(byte: u8) -> bool
    ensures { result ≡ is_name_byte byte }
{
    byte.is_ascii_alphanumeric() || byte == b'-' || byte == b'_'
}

fn are_name_bytes(text: &str) -> bool
    ensures { result ≡ list_all is_name_byte text.now }
{
    text.as_bytes().iter().all(|b| is_name_byte(*b))
}

fn is_name(text: &str) -> bool
    ensures { result ≡ is_name text.now }
{
    1 <= text.len() && text.len() <= 64 && are_name_bytes(text)
}

/// The name of a table, if it keeps its rule.
pub(crate) fn read_name(table: &Table) -> Option<&str>
    ensures { option_map (λ s. s.now) result ≡ name_in (table_view table.now) }
{
    match text_at(table, "name") {
        Some(name) if is_name(name) => Some(name),
        _ => None,
    }
}

/// Whether no two tables have the same name. Its cost grows as n log n with their number.
pub(crate) fn are_different(alloc: Global, tables: &[WantedReach]) -> Result<bool, OutOfMemory>
    ensures { IfOk result
        (λ r. r ≡ are_different (map (λ (w : WantedTable). w.name) tables.now)) }
{
    let names: BTreeSet<&str> = tables.iter().map(|w| w.name.as_str()).collect(alloc)?;
    Ok(names.len() == tables.len())
}
