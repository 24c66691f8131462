//! The route with the longest prefix.

ghost use Rattle.std.specs.Prelude.{◌≡◌, ◌&&◌, Some, if◌then◌else◌, option_copied, option_map};
ghost use Rattle.net_addr.specs.Prefixes.{contains};
ghost use Rattle.api_types.specs.Table.{ident_eq};
ghost use Rattle.plane_types.specs.Routing.{beats as way_beats, best_way as best_of_ways, better as better_of};
ghost use Rattle.plane_types.specs.TableStep.{way_at, ways_at};

use api_types::Id;
use net_addr::Addr;
use plane_types::{HostTables, RouteRow, rank_number};

// Whether the first goes before the second: by length, then by rank, then as the first.
fn beats(a: &RouteRow, b: &RouteRow) -> bool
    ensures { result ≡ way_beats (way_at a.now) (way_at b.now) }
{
    b.prefix.len < a.prefix.len
        || (a.prefix.len == b.prefix.len && rank_number(a.rank) <= rank_number(b.rank))
}

fn better<'t>(row: &'t RouteRow, other: Option<&'t RouteRow>) -> &'t RouteRow
    ensures { way_at result.now
        ≡ better_of (way_at row.now) (option_map way_at (option_copied other.entry)) }
{
    match other {
        Some(other) => { if beats(row, other) { row } else { other } }
        None => row,
    }
}

// The better of the row, where it is of the router and its prefix has the destination, and of the
// other.
fn better_for<'t>(
    router: Id,
    destination: &Addr,
    row: &'t RouteRow,
    other: Option<&'t RouteRow>,
) -> Option<&'t RouteRow>
    ensures { option_map way_at (option_copied result)
        ≡ (if ident_eq router row.now.router && contains row.now.prefix destination.now
        then Some
        (better_of (way_at row.now) (option_map way_at (option_copied other.entry)))
        else option_map way_at (option_copied other.entry)) }
{
    if router == row.router && row.prefix.contains(*destination) {
        Some(better(row, other))
    } else {
        other
    }
}

// The best of those of these rows that are of the router and have the destination. They are looked
// at from the last to the first.
fn best_among<'t>(rows: &'t [RouteRow], router: Id, destination: &Addr) -> Option<&'t RouteRow>
    ensures { option_map way_at (option_copied result)
        ≡ best_of_ways destination.now (ways_at router rows.now) }
{
    let mut best = None;
    let mut left = rows.len();
    while left > 0 {
        left -= 1;
        best = better_for(router, destination, &rows[left], best);
    }
    best
}

/// The route of the router with the longest prefix that has the destination; of equal lengths a
/// connected one goes before an extra one, that before the default, and the first of equal ones.
/// Its cost grows with the router's routes.
pub(crate) fn best_way<'t>(
    tables: &'t HostTables,
    router: Id,
    destination: &Addr,
) -> Option<&'t RouteRow>
    ensures { option_map way_at (option_copied result)
        ≡ best_of_ways destination.now (ways_at router tables.now.lists.routes) }
{
    best_among(tables.routes_near(router), router, destination)
}
