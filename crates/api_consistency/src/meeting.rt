//! Rows of a kind that each meet a clause of `api_clauses`.

ghost use Rattle.std.specs.Prelude.{◌≡◌};
ghost use Rattle.std.specs.List.{list_all};

use api_clauses::Clause;
use api_types::{RowKind, Rows, Shared};

fn all_meet<C: Clause>(rows: &Rows, list: &[Shared<C::Row>]) -> bool
    ensures { result ≡ list_all (C.test rows.now) list.now }
{
    list.iter().all(|row| C::meets(rows, row))
}

/// Whether each row of its kind meets a clause.
pub(crate) fn each_meets<C: Clause>(rows: &Rows) -> bool
    ensures { result ≡ list_all (C.test rows.now) (C.Row.list_of rows.now) }
{
    all_meet::<C>(rows, C::Row::table(rows).rows())
}
