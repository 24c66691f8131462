//! Rows out of pages.
ghost use Rattle.std.specs.Prelude.{◌≡◌, ◌++◌, IfOk, MatchOption, false, if◌then◌else◌, true};
ghost use Rattle.api_types.specs.Rows.{no_rows};
ghost use Rattle.wire_types.specs.Pages.{rows_from};
ghost use Rattle.agent_wire.specs.Snapshots.{are_new, is_new_row, put_all, put_last};

use api_types::{PageRow, Row, Rows};
use net_addr::{Copies, OutOfMemory};
use std::alloc::Global;

/// Adds a copy of a row after the others of its kind, and answers whether its id was new.
fn add_row(alloc: Global, rows: &mut Rows, row: &Row) -> Result<bool, OutOfMemory>
    ensures { IfOk result (λ new. (new ≡ is_new_row row.now rows.old)
        × (rows.new ≡ (if new then put_last row.now rows.old else rows.old))) }
{
    match row {
        Row::Project(row) => rows.add_project(alloc, row.copy(alloc)?),
        Row::Network(row) => rows.add_network(alloc, row.copy(alloc)?),
        Row::Subnet(row) => rows.add_subnet(alloc, row.copy(alloc)?),
        Row::Port(row) => rows.add_port(alloc, row.copy(alloc)?),
        Row::Group(row) => rows.add_group(alloc, row.copy(alloc)?),
        Row::Rule(row) => rows.add_rule(alloc, row.copy(alloc)?),
        Row::Router(row) => rows.add_router(alloc, row.copy(alloc)?),
        Row::Floating(row) => rows.add_floating(alloc, row.copy(alloc)?),
        Row::Policy(row) => rows.add_policy(alloc, row.copy(alloc)?),
    }
}

fn add_rows(alloc: Global, rows: &mut Rows, page: &[PageRow]) -> Result<bool, OutOfMemory>
    ensures { IfOk result (λ new. (new ≡ are_new page.now rows.old)
        × (new ≡ true → rows.new ≡ put_all page.now rows.old)) }
{
    for item in page {
        if !add_row(alloc, rows, &item.row)? {
            return Ok(false);
        }
    }
    Ok(true)
}

/// The rows of pages, each kind in the order of the pages, or none where two have one id. Its cost
/// grows with the rows.
pub(crate) fn read_snapshot(
    alloc: Global,
    earlier: &[PageRow],
    last: &[PageRow],
) -> Result<Option<Rows>, OutOfMemory>
    ensures { IfOk result (λ o. MatchOption o
        (are_new (earlier.now ++ last.now) no_rows ≡ false)
        (λ rows. rows ≡ rows_from (earlier.now ++ last.now))) }
{
    let mut rows = Rows::empty(alloc)?;
    if !add_rows(alloc, &mut rows, earlier)? {
        return Ok(None);
    }
    if !add_rows(alloc, &mut rows, last)? {
        return Ok(None);
    }
    Ok(Some(rows))
}
