//! What a caller is shown of one row: what is for administrators, and which fields.

ghost use Rattle.std.specs.Prelude.{◌≡◌, IfOk, IsTrue, Some, is_some, map, option_map};
ghost use Rattle.std.specs.List.{list_any};
ghost use Rattle.std.specs.Str.{bytes_eq};
ghost use Rattle.api_types.specs.Table.{row_of};
ghost use Rattle.api_types.specs.Printed.{member_of, shown_row};
ghost use Rattle.api_policy.specs.Shown.{shown_as, shown_at, shown_members};
ghost use Rattle.api_policy.specs.Shown as shown_specs;

use crate::members::Shows;
use api_types::{Caller, Id, Kind, MemberName, Members, Rows, Shown, Table};
use net_addr::{Names, OutOfMemory, Seq, Text};
use std::alloc::Global;

// Whether a member is shown to administrators alone.
fn is_for_admins(name: &MemberName) -> bool
    ensures { result ≡ shown_specs.is_for_admins name.now }
{
    let name = name.as_str();
    name == "binding:host_id"
        || name == "binding:vif_type"
        || name == "provider:network_type"
        || name == "provider:physical_network"
        || name == "provider:segmentation_id"
}

pub(crate) fn is_told(admin: bool, name: &MemberName) -> bool
    ensures { result ≡ shown_specs.is_told admin name.now }
{
    admin || !is_for_admins(name)
}

fn is_same(name: &MemberName, field: &Text) -> bool
    ensures { result ≡ bytes_eq name.now field.now }
{
    name.as_str() == field.as_str()
}

fn is_among(fields: &[Text], name: &MemberName) -> bool
    ensures { result ≡ list_any (bytes_eq name.now) fields.now }
{
    fields.iter().any(|field| is_same(name, field))
}

fn is_asked(fields: &Names, name: &MemberName) -> bool
    ensures { result ≡ shown_specs.is_asked fields.now name.now }
{
    fields.len() == 0 || is_among(fields.as_slice(), name)
}

// The members that are told to the caller and asked for.
pub(crate) fn kept(
    alloc: Global,
    admin: bool,
    fields: &Names,
    members: Members,
) -> Result<Members, OutOfMemory>
    ensures { IfOk result
        (λ m. map member_of m ≡ shown_members admin fields.now (map member_of members)) }
{
    if admin && fields.len() == 0 {
        return Ok(members);
    }
    let mut kept = Vec::with_capacity(alloc, members.len())?;
    for member in members.into_vec() {
        if is_told(admin, &member.0) && is_asked(fields, &member.0) {
            kept.push(member)?;
        }
    }
    Ok(Seq::from_vec(kept))
}

/// What a caller is shown of a row of this kind. Its cost grows with the row, the fields, and the
/// subnets, rules and policies.
pub fn shown_of<R: Shows>(
    alloc: Global,
    rows: &Rows,
    caller: &Caller,
    kind: Kind,
    row: &R,
    fields: &Names,
) -> Result<Shown, OutOfMemory>
    ensures { IfOk result
        (λ s. shown_row s
        ≡ shown_as kind caller.now.admin fields.now (R.members_of rows.now caller.now row.now)) }
{
    let members = row.members(alloc, rows, caller)?;
    Ok(Shown {
        kind,
        members: kept(alloc, caller.admin, fields, members)?,
    })
}

// The same of the row of a table with this id, where it is there.
fn shown_in<R: Shows>(
    alloc: Global,
    rows: &Rows,
    caller: &Caller,
    kind: Kind,
    id: Id,
    fields: &Names,
    table: &Table<R>,
) -> Result<Option<Shown>, OutOfMemory>
    ensures { IfOk result
        (λ s. option_map shown_row s
        ≡ option_map
        (λ r.
        shown_as kind caller.now.admin fields.now (R.members_of rows.now caller.now r))
        (row_of R.id_of id table.now)) }
{
    let _own_ids = table.rows(); // for the proof: no two rows have one id
    match table.get(id) {
        Some(row) => Ok(Some(shown_of(alloc, rows, caller, kind, row, fields)?)),
        None => Ok(None),
    }
}

fn shown_if_there(
    alloc: Global,
    rows: &Rows,
    caller: &Caller,
    kind: Kind,
    id: Id,
    fields: &Names,
) -> Result<Option<Shown>, OutOfMemory>
    ensures { IfOk result
        (λ s. option_map shown_row s ≡ shown_at rows.now caller.now kind id fields.now) }
{
    match kind {
        Kind::Project => Ok(None),
        Kind::Network => shown_in(alloc, rows, caller, kind, id, fields, rows.networks()),
        Kind::Subnet => shown_in(alloc, rows, caller, kind, id, fields, rows.subnets()),
        Kind::Port => shown_in(alloc, rows, caller, kind, id, fields, rows.ports()),
        Kind::Group => shown_in(alloc, rows, caller, kind, id, fields, rows.groups()),
        Kind::Rule => shown_in(alloc, rows, caller, kind, id, fields, rows.rules()),
        Kind::Router => shown_in(alloc, rows, caller, kind, id, fields, rows.routers()),
        Kind::Floating => shown_in(alloc, rows, caller, kind, id, fields, rows.floatings()),
        Kind::Policy => shown_in(alloc, rows, caller, kind, id, fields, rows.policies()),
    }
}

/// What a caller is shown of the row of this kind with this id, which has to be there. Whether the
/// caller sees it isn't looked at. Its cost is that of `shown_of`.
pub fn shown(
    alloc: Global,
    rows: &Rows,
    caller: &Caller,
    kind: Kind,
    id: Id,
    fields: &Names,
) -> Result<Shown, OutOfMemory>
    requires { IsTrue (is_some (shown_at rows.now caller.now kind id fields.now)) }
    ensures { IfOk result
        (λ s. Some (shown_row s) ≡ shown_at rows.now caller.now kind id fields.now) }
{
    match shown_if_there(alloc, rows, caller, kind, id, fields)? {
        Some(shown) => Ok(shown),
        None => unreachable!(),
    }
}
