//! An audit of rows by a wanted file.

ghost use Rattle.std.specs.Prelude.{◌≡◌, IfOk, true};
ghost use Rattle.api_types.specs.Consistent.{IsConsistent};
ghost use Rattle.reach_audit.specs.Audits.{IsAudit, IsAuditOf, if_named, tables_of};
ghost use Rattle.reach_sets.specs.Named.{are_named};

use crate::lines::{all_hold, print_lines};
use api_types::Rows;
use net_addr::OutOfMemory;
use reach_sets::{are_named, judge};
use std::alloc::Global;
use wanted_files::{Wanted, read_wanted};

/// What an audit says.
#[derive(Drop)]
pub struct Audit {
    /// A line for each table of the file, in order; each ends with a line feed.
    pub lines: String,
    /// Whether each table holds.
    pub hold: bool,
}

fn if_named(rows: &Rows, wanted: Wanted) -> Option<Wanted>
    ensures { result ≡ if_named rows.now wanted }
{
    if are_named(rows, &wanted) {
        Some(wanted)
    } else {
        None
    }
}

// The tables that the bytes say, if the rows have what they name.
fn read_tables(alloc: Global, rows: &Rows, bytes: &[u8]) -> Result<Option<Wanted>, OutOfMemory>
    ensures { IfOk result (λ tables. tables ≡ tables_of rows.now bytes.now) }
{
    match read_wanted(alloc, bytes)? {
        Some(wanted) => Ok(if_named(rows, wanted)),
        None => Ok(None),
    }
}

fn audit_tables(alloc: Global, rows: &Rows, wanted: &Wanted) -> Result<Audit, OutOfMemory>
    requires consistent { IsConsistent rows.now }
    requires named { are_named rows.now wanted.now ≡ true }
    ensures { IfOk result (IsAuditOf rows.now wanted.now) }
{
    let judged = judge(alloc, rows, wanted)?;
    let lines = print_lines(alloc, wanted.as_slice(), judged.as_slice())?;
    let hold = all_hold(judged.as_slice());
    Ok(Audit { lines, hold })
}

/// Holds the tables of a wanted file against the rows, and prints a line for each: `ok NAME`, or
/// `fail NAME` with the event that shows it as the body of `explain`, or with `none` if there is no
/// first event. None if the bytes are no wanted file, or name a port that isn't there, an address
/// that it doesn't hold, a port without an address of IPv4 and no address for it, or addresses of
/// two versions.
pub fn audit_rows(alloc: Global, rows: &Rows, bytes: &[u8]) -> Result<Option<Audit>, OutOfMemory>
    requires { IsConsistent rows.now }
    ensures { IfOk result (IsAudit rows.now bytes.now) }
{
    match read_tables(alloc, rows, bytes)? {
        Some(wanted) => Ok(Some(audit_tables(alloc, rows, &wanted)?)),
        None => Ok(None),
    }
}
