//! What the bytes of a wanted file say. Begin here.

ghost use Rattle.std.specs.Prelude.{◌≡◌, IfOk, option_and_then, option_map};
ghost use Rattle.toml.specs.Data.{as_array};
ghost use Rattle.toml.specs.View.{items_view, table_view, view};
ghost use Rattle.wanted_files.specs.Document.{document_of, if_different, reach_of_value, reaches_among, reaches_of, wanted_in, wanted_of};

use crate::names::are_different;
use crate::table::read_reach;
use crate::values::{has_only, value_at};
use crate::wanted::{Wanted, WantedReach};
use net_addr::OutOfMemory;
use std::alloc::Global;
use toml::{Table, Value};

// The document of the bytes.
fn read_document(alloc: Global, bytes: &[u8]) -> Result<Option<Table>, OutOfMemory>
    ensures { IfOk result (λ r. option_map (λ t. table_view t) r ≡ document_of bytes.now) }
{
    match toml::table_from_slice(alloc, bytes) {
        Ok(table) => Ok(Some(table)),
        Err(e) => {
            if e.is_memory() {
                return Err(OutOfMemory);
            }
            Ok(None)
        }
    }
}

fn read_value(alloc: Global, value: &Value) -> Result<Option<WantedReach>, OutOfMemory>
    ensures { IfOk result (λ r. r ≡ reach_of_value (view value.now)) }
{
    match value.as_table() {
        None => Ok(None),
        Some(table) => read_reach(alloc, table),
    }
}

fn reaches_among(alloc: Global, items: &[Value]) -> Result<Option<Wanted>, OutOfMemory>
    ensures { IfOk result (λ r. r ≡ reaches_among (items_view items.now)) }
{
    let mut wanted = Wanted::new(alloc);
    for item in items {
        let Some(reach) = read_value(alloc, item)? else {
            return Ok(None);
        };
        wanted.push(reach)?;
    }
    Ok(Some(wanted))
}

// What the values of a list say.
fn reaches_in(alloc: Global, value: &Value) -> Result<Option<Wanted>, OutOfMemory>
    ensures { IfOk result (λ r. r ≡ option_and_then reaches_among (as_array (view value.now))) }
{
    match value.as_array() {
        None => Ok(None),
        Some(items) => reaches_among(alloc, items.as_slice()),
    }
}

// The tables, if no two have one name.
fn if_different(alloc: Global, wanted: Wanted) -> Result<Option<Wanted>, OutOfMemory>
    ensures { IfOk result (λ r. r ≡ if_different wanted) }
{
    if are_different(alloc, wanted.as_slice())? {
        Ok(Some(wanted))
    } else {
        Ok(None)
    }
}

fn reaches_of(alloc: Global, value: &Value) -> Result<Option<Wanted>, OutOfMemory>
    ensures { IfOk result (λ r. r ≡ reaches_of (view value.now)) }
{
    match reaches_in(alloc, value)? {
        None => Ok(None),
        Some(wanted) => if_different(alloc, wanted),
    }
}

fn wanted_in(alloc: Global, table: &Table) -> Result<Option<Wanted>, OutOfMemory>
    ensures { IfOk result (λ r. r ≡ wanted_in (table_view table.now)) }
{
    if !has_only(table, &["reach"]) {
        return Ok(None);
    }
    match value_at(table, "reach") {
        None => Ok(Some(Wanted::new(alloc))),
        Some(value) => reaches_of(alloc, value),
    }
}

/// Who is wanted to reach whom, in the order of the file (https://toml.io/en/v1.1.0), or None if
/// the bytes aren't a wanted file. Beyond reading the TOML, the cost grows as n log n with the
/// number of tables.
pub fn read_wanted(alloc: Global, bytes: &[u8]) -> Result<Option<Wanted>, OutOfMemory>
    ensures { IfOk result (λ r. r ≡ wanted_of bytes.now) }
{
    match read_document(alloc, bytes)? {
        None => Ok(None),
        Some(table) => wanted_in(alloc, &table),
    }
}
