//! The rows of a kind that a change touches, as they were and as they are to be.

ghost use Rattle.std.specs.Prelude.{◌≡◌, IfOk, map, slice_get};
ghost use Rattle.std.specs.List.{filter_map};
ghost use Rattle.table_edits.specs.NumbersSeen.{at_after};

use api_types::RowKind;
use net_addr::OutOfMemory;
use std::alloc::Global;
use table_edits::Numbers;

/// The rows with these numbers before a change.
pub(crate) fn rows_before<'r, R: RowKind>(
    alloc: Global,
    numbers: &Numbers<'r, R>,
    touched: &[usize],
) -> Result<Vec<&'r R>, OutOfMemory>
    ensures { IfOk result
        (λ v. map (λ r. r.now) v.items
        ≡ filter_map (λ k. slice_get numbers.now.rows k) touched.now) }
{
    let mut rows = Vec::new(alloc);
    for number in touched {
        if let Some(row) = numbers.row(*number) {
            rows.push(row)?;
        }
    }
    Ok(rows)
}

/// The rows with these numbers after a change.
pub(crate) fn rows_after<'r, R: RowKind>(
    alloc: Global,
    numbers: &Numbers<'r, R>,
    touched: &[usize],
) -> Result<Vec<&'r R>, OutOfMemory>
    ensures { IfOk result
        (λ v. map (λ r. r.now) v.items ≡ filter_map (at_after numbers.now) touched.now) }
{
    let mut rows = Vec::new(alloc);
    for number in touched {
        if let Some(row) = numbers.row_after(*number) {
            rows.push(row)?;
        }
    }
    Ok(rows)
}
