//! The table `sets`: the members of groups that filters name.

ghost use Rattle.std.specs.Prelude.{◌≡◌, ◌++◌, IfOk, OnOk, map};
ghost use Rattle.std.specs.HashSet.{contains};
ghost use Rattle.std.specs.List.{list_any};
ghost use Rattle.net_addr.specs.Prefixes.{Prefix};
ghost use Rattle.api_types.specs.Ident.{Ident};
ghost use Rattle.api_types.specs.Table.{ident_eq};
ghost use Rattle.plane_types.specs.TableRows.{names_remote, set_rows as set_rows_by};
ghost use Rattle.plane_types.specs.declared.table.FilterRow.{FilterRow as TheFilter};
ghost use Rattle.l2_agent.specs.Among.{set_if, sets_among};

use api_secgroup::Memberships;
use api_types::{GroupRow, Id, Rows};
use net_addr::{OutOfMemory, Prefix, Seq};
use plane_types::{FilterRow, SetRow};
use std::alloc::Global;
use std::collections::HashSet;

// The groups that filters name as remote ones, from the last to the first.
fn remote_groups(alloc: Global, filters: &[FilterRow]) -> Result<HashSet<Id>, OutOfMemory>
    ensures { IfOk result
        (λ s. (g : Ident)
        → contains ident_eq s g
        ≡ list_any (λ (r : TheFilter). names_remote g r.remote_group) filters.now) }
{
    let mut remote = HashSet::new(alloc);
    let mut left = filters.len();
    while left > 0 {
        left -= 1;
        let filter = &filters[left];
        if let Some(group) = filter.remote_group {
            remote.insert(group)?;
        }
    }
    Ok(remote)
}

fn add_prefixes(sets: &mut Seq<SetRow>, group: Id, prefixes: &[Prefix]) -> Result<(), OutOfMemory>
    ensures { OnOk result
        (sets.new
        ≡ sets.old ++ map (λ (p : Prefix). record { group = group; prefix = p }) prefixes.now) }
{
    for prefix in prefixes {
        sets.push(SetRow {
            group,
            prefix: *prefix,
        })?;
    }
    Ok(())
}

// Adds the members of a group, where it is among these.
fn add_set(
    alloc: Global,
    sets: &mut Seq<SetRow>,
    ports: &Memberships,
    remote: &HashSet<Id>,
    group: &GroupRow,
) -> Result<(), OutOfMemory>
    ensures { OnOk result
        (sets.new
        ≡ sets.old ++ set_if ports.now (contains ident_eq remote.now group.now.id) group.now) }
{
    if !remote.contains(&group.id) {
        return Ok(());
    }
    let prefixes = ports.members(alloc, group.id)?;
    add_prefixes(sets, group.id, prefixes.as_slice())
}

// The members of each group that is among these.
fn sets_of(
    alloc: Global,
    ports: &Memberships,
    remote: &HashSet<Id>,
) -> Result<Seq<SetRow>, OutOfMemory>
    ensures { IfOk result (λ s. s ≡ sets_among ports.now remote.now) }
{
    let mut sets = Seq::new(alloc);
    for group in ports.rows().groups().rows() {
        add_set(alloc, &mut sets, ports, remote, group)?;
    }
    Ok(sets)
}

/// The members of each group that a filter names. Its cost grows with the filters, the groups, the
/// ports and the groups that these name, and with what the members of the named groups are made of
/// and the logarithm of their number.
#[tactic(auto, unfolding(plane_types::specs::TableRows::set_rows))]
pub(crate) fn set_rows(
    alloc: Global,
    rows: &Rows,
    filters: &[FilterRow],
) -> Result<Seq<SetRow>, OutOfMemory>
    ensures { IfOk result (λ s. s ≡ set_rows_by rows.now filters.now) }
{
    let remote = remote_groups(alloc, filters)?;
    let ports = Memberships::of(alloc, rows)?;
    let sets = sets_of(alloc, &ports, &remote)?;
    Ok(sets)
}
