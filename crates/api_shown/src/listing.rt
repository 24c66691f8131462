//! Lists: what is shown of each row that is seen, after the marker, by filters, to the limit.

ghost use Rattle.std.specs.Prelude.{◌≡◌, ◌&&◌, Bool, IfOk, IfSome, IsTrue, None, Some, drop, filter, if◌then◌else◌, map, option_map};
ghost use Rattle.std.specs.Result.{IfErr};
ghost use Rattle.api_types.specs.Lists.{Each, is_some_so};
ghost use Rattle.api_types.specs.Printed.{shown_row};
ghost use Rattle.api_types.specs.RowLists.{RowLists};
ghost use Rattle.api_types.specs.Table.{ident_eq};
ghost use Rattle.api_types.specs.declared.call.Caller.{Caller as TheCaller};
ghost use Rattle.api_types.specs.declared.kind.Kind.{Kind as TheKind};
ghost use Rattle.api_policy.specs.Visibility.{sees_row};
ghost use Rattle.api_policy.specs.Filtered as filtered;
ghost use Rattle.api_policy.specs.Listed.{cut, has_marker};
ghost use Rattle.api_policy.specs.Listed as listed_specs;
ghost use Rattle.api_shown.specs.Keys.{FitsId, IsOnlyId};
ghost use Rattle.api_shown.specs.ListRefusals.{IsListRefusal};
ghost use Rattle.api_policy.specs.Shown.{shown_as};

use crate::asked_id::see_fit;
use crate::filtering::FilteredQuery;
use crate::keys::HasKeys;
use crate::members::Shows;
use crate::showing::kept;
use api_policy::{Visible, sees};
use api_types::{Caller, Id, IdText, Keyed, Kind, Query, Rows, Shared, Shown, ShownList, Table};
use net_addr::{Copies, OutOfMemory, Seq, Text};
use std::alloc::Global;

/// Why rows aren't listed.
#[derive(Drop)]
pub enum ListRefusal {
    /// The text of the marker, which is no row of the kind that the caller sees.
    NoMarker(Text),
    /// Memory could not be had.
    OutOfMemory,
}

impl From<OutOfMemory> for ListRefusal {
    ghost use Rattle.api_shown.specs.declared.listing.ListRefusal.TheVariants.{OutOfMemory as MemoryRefusal};

    ghost from_gives = { λ _ e. e ≡ MemoryRefusal };

    fn from(_e: OutOfMemory) -> ListRefusal {
        ListRefusal::OutOfMemory
    }
}

// What is shown of a row, where the caller sees it and it meets the filters.
fn shown_if_met<R: HasKeys + Visible>(
    alloc: Global,
    rows: &Rows,
    caller: &Caller,
    kind: Kind,
    row: &R,
    query: &FilteredQuery,
) -> Result<Option<Shown>, OutOfMemory>
    ensures { IfOk result (λ s. option_map shown_row s
        ≡ (if R.seen rows.now caller.now row.now
        && filtered.meets caller.now.admin query.now.filters
        (R.members_of rows.now caller.now row.now)
        then Some (shown_as kind caller.now.admin query.now.fields
        (R.members_of rows.now caller.now row.now)) else None)) }
{
    if !query.may_meet(row) {
        return Ok(None);
    }
    if !row.is_seen(rows, caller) {
        return Ok(None);
    }
    let members = row.members(alloc, rows, caller)?;
    if !query.meets(alloc, caller.admin, &members)? {
        return Ok(None);
    }
    let members = kept(alloc, caller.admin, &query.as_query().fields, members)?;
    Ok(Some(Shown { kind, members }))
}

// Whether this many rows are as many as the limit.
fn is_full(limit: Option<u32>, many: usize) -> bool
    ensures { result ≡ listed_specs.is_full limit many }
{
    match limit {
        Some(limit) => limit as usize <= many,
        None => false,
    }
}

// What is shown of the first rows, up to the limit, that the caller sees and that meet the filters.
fn listed_of<R: HasKeys + Visible>(
    alloc: Global,
    rows: &Rows,
    caller: &Caller,
    kind: Kind,
    candidates: &[Shared<R>],
    query: &FilteredQuery,
) -> Result<ShownList, OutOfMemory>
    ensures { IfOk result
        (λ s. map shown_row s
        ≡ cut query.now.limit
        (listed_specs.listed_of (R.seen rows.now caller.now) (R.members_of rows.now caller.now)
        kind caller.now.admin query.now candidates.now)) }
{
    let mut listed = Vec::new(alloc);
    for row in candidates {
        if is_full(query.as_query().limit, listed.len()) {
            break;
        }
        if let Some(shown) = shown_if_met(alloc, rows, caller, kind, row.get(), query)? {
            listed.push(shown)?;
        }
    }
    Ok(Seq::from_vec(listed))
}

// The rows after the one with this id, and none where it isn't there.
fn behind<R: Shows>(candidates: &[Shared<R>], id: Id) -> &[Shared<R>]
    ensures { result.now ≡ listed_specs.behind R.id_of id candidates.now }
{
    for (place, row) in candidates.iter().enumerate() {
        if id == row.id() {
            return &candidates[place + 1..];
        }
    }
    &candidates[candidates.len()..]
}

// The rows after the marker's, and all where there is no marker.
fn behind_marker<'a, R: Shows>(
    candidates: &'a [Shared<R>],
    marker: &Option<IdText>,
) -> &'a [Shared<R>]
    ensures { result.now ≡ listed_specs.behind_marker R.id_of marker.now candidates.now }
{
    match marker {
        Some(marker) => match marker.id {
            Some(id) => behind(candidates, id),
            None => &candidates[candidates.len()..],
        },
        None => candidates,
    }
}

// The one id that the filters ask for, where there is no marker.
fn find_lone_id(query: &FilteredQuery) -> Option<Id>
    ensures marker { IfSome result (λ _. query.now.marker ≡ None) }
    ensures only { IfSome result
        (IsOnlyId (λ admin members. filtered.meets admin query.now.filters members)) }
{
    match &query.as_query().marker {
        Some(_) => None,
        None => query.find_id(),
    }
}

// For proofs alone: the numbers of all ids fit their types, so that no two ids print alike. Nothing
// uses what the loop reads, so it is left to the optimizer to drop it.
fn see_ids<R: Keyed>(rows: &[Shared<R>])
    ensures { Each (λ r. FitsId (R.id_of r)) rows.now }
{
    for row in rows {
        see_fit(row.id());
    }
}

// The row with this id, and none where it isn't there.
fn row_with<R: Shows>(table: &Table<R>, id: Id) -> &[Shared<R>]
    ensures { result.now ≡ filter (λ r. ident_eq id (R.id_of r)) table.now }
{
    let rows = table.rows();
    match table.place(id) {
        Some(place) => &rows[place..place + 1],
        None => &rows[rows.len()..],
    }
}

// The rows after the marker's, or of these the one that can meet the filters, where they ask for
// one id and there is no marker.
fn candidates_of<'t, R: HasKeys>(table: &'t Table<R>, query: &FilteredQuery) -> &'t [Shared<R>]
    ensures { (rows : RowLists) (caller : TheCaller) (kind : TheKind) (admin : Bool)
        (seen : R → Bool)
        → listed_specs.listed_of seen (R.members_of rows caller) kind admin query.now result.now
        ≡ listed_specs.listed_of seen (R.members_of rows caller) kind admin query.now
        (listed_specs.behind_marker R.id_of query.now.marker table.now) }
{
    let Some(id) = find_lone_id(query) else {
        return behind_marker(table.rows(), &query.as_query().marker);
    };
    see_ids(table.rows());
    row_with(table, id)
}

fn listed_in<R: HasKeys + Visible>(
    alloc: Global,
    rows: &Rows,
    caller: &Caller,
    kind: Kind,
    table: &Table<R>,
    query: &FilteredQuery,
) -> Result<ShownList, OutOfMemory>
    ensures { IfOk result
        (λ s. map shown_row s
        ≡ listed_specs.listed_in R.id_of (R.seen rows.now caller.now)
        (R.members_of rows.now caller.now) kind caller.now.admin query.now table.now) }
{
    let candidates = candidates_of(table, query);
    listed_of(alloc, rows, caller, kind, candidates, query)
}

fn listed_by_kind(
    alloc: Global,
    rows: &Rows,
    caller: &Caller,
    kind: Kind,
    query: &FilteredQuery,
) -> Result<ShownList, OutOfMemory>
    ensures { IfOk result (λ s. map shown_row s
        ≡ listed_specs.listed rows.now caller.now kind query.now) }
{
    match kind {
        Kind::Project => Ok(Seq::new(alloc)),
        Kind::Network => listed_in(alloc, rows, caller, kind, rows.networks(), query),
        Kind::Subnet => listed_in(alloc, rows, caller, kind, rows.subnets(), query),
        Kind::Port => listed_in(alloc, rows, caller, kind, rows.ports(), query),
        Kind::Group => listed_in(alloc, rows, caller, kind, rows.groups(), query),
        Kind::Rule => listed_in(alloc, rows, caller, kind, rows.rules(), query),
        Kind::Router => listed_in(alloc, rows, caller, kind, rows.routers(), query),
        Kind::Floating => listed_in(alloc, rows, caller, kind, rows.floatings(), query),
        Kind::Policy => listed_in(alloc, rows, caller, kind, rows.policies(), query),
    }
}

// Whether the marker is a row of the kind that the caller sees.
fn is_seen(rows: &Rows, caller: &Caller, kind: Kind, marker: &IdText) -> bool
    ensures { result ≡ is_some_so (sees_row rows.now caller.now kind) marker.now.id }
{
    match marker.id {
        Some(id) => sees(rows, caller, kind, id),
        None => false,
    }
}

fn ensure_marker_seen(
    alloc: Global,
    rows: &Rows,
    caller: &Caller,
    kind: Kind,
    marker: &Option<IdText>,
) -> Result<(), ListRefusal>
    ensures marker { IfOk result (λ _. IsTrue (has_marker rows.now caller.now kind marker.now)) }
    ensures refused { IfErr result (IsListRefusal rows.now caller.now kind marker.now) }
{
    match marker {
        Some(marker) => {
            if is_seen(rows, caller, kind, marker) {
                return Ok(());
            }
            Err(ListRefusal::NoMarker(marker.text.copy(alloc)?))
        }
        None => Ok(()),
    }
}

/// What a caller is shown of the rows of this kind: of those after the marker's row, which has to
/// be one of the kind that the caller sees, the ones that it sees and that meet the filters, up to
/// the limit, in order of creation. The marker's row need not meet the filters. Only members that
/// the caller is told are compared. Its cost grows with the filters times their different names,
/// and with the rows of the kind: each by these names, and, if its keys don't tell that it fails
/// the filters, by what it is to make its members, which are compared with each of these names. A
/// list by one id, with no marker, costs the same however many rows there are.
pub fn listed(
    alloc: Global,
    rows: &Rows,
    caller: &Caller,
    kind: Kind,
    query: &Query,
) -> Result<ShownList, ListRefusal>
    ensures rows { IfOk result
        (λ s. map shown_row s ≡ listed_specs.listed rows.now caller.now kind query.now) }
    ensures marker { IfOk result
        (λ _. IsTrue (has_marker rows.now caller.now kind query.now.marker)) }
    ensures refused { IfErr result (IsListRefusal rows.now caller.now kind query.now.marker) }
{
    ensure_marker_seen(alloc, rows, caller, kind, &query.marker)?;
    let query = FilteredQuery::of(alloc, query)?;
    Ok(listed_by_kind(alloc, rows, caller, kind, &query)?)
}
