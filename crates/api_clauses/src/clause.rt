//! What a clause of consistency is: a test of each row of a kind, among all rows.

ghost use Rattle.std.specs.Prelude.{◌≡◌, ℕ, Bool};
ghost use Rattle.api_types.specs.RowLists.{RowLists};

use api_types::{RowKind, Rows};

/// What consistency asks of each row of a kind, among all rows.
pub trait Clause {
    type Row: RowKind;

    /// The clause's number, 1 to 14. Clauses of several kinds have one number.
    const RULE: u8;

    ghost RULE: { ℕ };

    ghost test: { RowLists → Self.Row → Bool };

    /// Whether a row meets the clause.
    fn meets(rows: &Rows, row: &Self::Row) -> bool
        ensures { result ≡ test rows.now row.now };
}
