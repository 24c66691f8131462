//! A law of the list of all rows.
ghost use Rattle.std.specs.Prelude.{◌≡◌};
ghost use Rattle.api_types.specs.RowLists.{RowLists};
ghost use Rattle.wire_types.specs.Pages.{all_rows, rows_from};

/// The list of all rows has exactly the rows.
pub fn all_rows_are_read_back()
    ensures { (rows : RowLists) → rows_from (all_rows rows) ≡ rows }
{}
