//! A row that isn't consistent, and the first one that breaks a clause.

ghost use Rattle.std.specs.Prelude.{◌≡◌, find, not, option_copied};
ghost use Rattle.api_check.specs.Broken.{breaks, told, told_at};

use api_clauses::Clause;
use api_types::{Id, Keyed, Kind, RowKind, Rows, Shared};

/// A row that breaks a clause of consistency.
#[derive(Clone, Copy, Debug, PartialEq, Eq)]
pub struct Inconsistent {
    /// The clause's number: 1 numbers and ids, 2 what is named, 3 form, 4 what is held once, 5 host
    /// addresses, 6 disjoint subnets, 7 segments, 8 hosts, 9 ports of services, 10 floating
    /// addresses, 11 groups, 12 ports of projects, 13 external networks and policies, 14 next hops.
    pub rule: u8,
    pub kind: Kind,
    pub id: Id,
}

/// A row, where there is one, as that which breaks a clause.
#[tactic(auto, unfolding(crate::specs::Broken::told))]
pub(crate) fn tell<R: RowKind>(rule: u8, row: Option<&Shared<R>>) -> Option<Inconsistent>
    ensures { result ≡ told rule R.kind_is R.id_of (option_copied row.entry) }
{
    let row = row?;
    Some(Inconsistent {
        rule,
        kind: R::kind(),
        id: row.id(),
    })
}

/// The row at a place, where there is one, as that which breaks a clause.
#[tactic(auto, unfolding(crate::specs::Broken::told, crate::specs::Broken::told_at))]
pub(crate) fn tell_at<R: RowKind>(
    rule: u8,
    rows: &[Shared<R>],
    place: Option<usize>,
) -> Option<Inconsistent>
    ensures { result ≡ told_at rule R.kind_is R.id_of rows.now place }
{
    tell(rule, rows.get(place?))
}

fn find_broken<'r, C: Clause>(rows: &Rows, list: &'r [Shared<C::Row>]) -> Option<&'r Shared<C::Row>>
    ensures { option_copied result ≡ find (λ r. not (C.test rows.now r)) list.now }
{
    list.iter().find(|row| !C::meets(rows, row))
}

/// The first row that doesn't meet a clause.
#[tactic(auto, unfolding(crate::specs::Broken::breaks))]
pub(crate) fn first_broken_row<C: Clause>(rows: &Rows) -> Option<Inconsistent>
    ensures { result
        ≡ breaks C.RULE C.Row.kind_is C.Row.id_of (C.test rows.now) (C.Row.list_of rows.now) }
{
    tell(C::RULE, find_broken::<C>(rows, C::Row::table(rows).rows()))
}
