//! The best of a copy's routes, and whom an address leads to.

ghost use Rattle.std.specs.Prelude.{◌≡◌, ◌&&◌, Some, if◌then◌else◌, option_copied, option_map};
ghost use Rattle.net_addr.specs.Prefixes.{contains};
ghost use Rattle.api_types.specs.Table.{ident_eq};
ghost use Rattle.dvr_types.specs.CopySteps.{near_at as near_row_at};
ghost use Rattle.plane_types.specs.Routing.{beats as way_beats, best_way as best_of_ways, better as better_of};
ghost use Rattle.plane_types.specs.TableStep.{way_at, ways_at};

use api_types::Id;
use dvr_types::{Copies, NearRow};
use net_addr::Addr;
use plane_types::{RouteRow, rank_number};

// Whether the first goes before the second: by length, then by rank, then as the first.
fn beats(a: &RouteRow, b: &RouteRow) -> bool
    ensures { result ≡ way_beats (way_at a.now) (way_at b.now) }
{
    b.prefix.len < a.prefix.len
        || (a.prefix.len == b.prefix.len && rank_number(a.rank) <= rank_number(b.rank))
}

fn better<'d>(row: &'d RouteRow, other: Option<&'d RouteRow>) -> &'d RouteRow
    ensures { way_at result.now
        ≡ better_of (way_at row.now) (option_map way_at (option_copied other.entry)) }
{
    match other {
        Some(other) => { if beats(row, other) { row } else { other } }
        None => row,
    }
}

// The better of the row, if it is of the router and its prefix has the destination, and of the
// other.
fn better_for<'d>(
    router: Id,
    destination: &Addr,
    row: &'d RouteRow,
    other: Option<&'d RouteRow>,
) -> Option<&'d RouteRow>
    ensures { option_map way_at (option_copied result)
        ≡ (if ident_eq router row.now.router && contains row.now.prefix destination.now
        then Some
        (better_of (way_at row.now) (option_map way_at (option_copied other.entry)))
        else option_map way_at (option_copied other.entry)) }
{
    if router == row.router && row.prefix.contains(*destination) {
        Some(better(row, other))
    } else {
        other
    }
}

/// The route of a copied router with the longest prefix that has the destination; of equal lengths
/// a connected one goes before an extra one, that before the default, and the first of equal ones.
/// Rows are looked at from the last to the first. Its cost grows with the routes of all copies.
pub(crate) fn best_way<'d>(
    routes: &'d [RouteRow],
    router: Id,
    destination: &Addr,
) -> Option<&'d RouteRow>
    ensures { option_map way_at (option_copied result)
        ≡ best_of_ways destination.now (ways_at router routes.now) }
{
    let mut best = None;
    let mut left = routes.len();
    while left > 0 {
        left -= 1;
        best = better_for(router, destination, &routes[left], best);
    }
    best
}

/// Whom an address leads to on a network. Its cost grows with the rows of all networks.
pub(crate) fn near_at<'d>(copies: &'d Copies, network: Id, address: &Addr) -> Option<&'d NearRow>
    ensures { option_copied result ≡ near_row_at copies.now network address.now }
{
    copies
        .near
        .iter()
        .find(|row| network == row.network && row.address == *address)
}
