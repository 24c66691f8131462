//! Sets that a change may touch, by the numbers of their groups, and which groups filters name.

ghost use Rattle.std.specs.Prelude.{◌≡◌, ◌++◌, ◌==◌, ◌&&◌, IfOk, OnOk, [], false, flat_map, insert, length, map, nat_lt, option_and_then, option_copied, remove};
ghost use Rattle.std.specs.List.{cons_option, filter_map};
ghost use Rattle.api_types.specs.declared.port.PortRow.{PortRow as ThePort};
ghost use Rattle.plane_types.specs.TableRows.{names_remote as names_remote_of};
ghost use Rattle.plane_types.specs.declared.table.FilterRow.{FilterRow as TheFilter};
ghost use Rattle.table_edits.specs.EditsAt.{among};
ghost use Rattle.l2_delta.specs.SetKeys.{group_number, is_kept as is_kept_by, is_named as is_named_by, is_remote as is_remote_by, named_by, with_remote, with_remotes};
ghost use Rattle.l2_delta.specs.TouchedSets.{AreNamedAlike, AreTouched, AreTouchedSets, set_at};

use crate::gap_list::GapList;
use api_types::{GroupRow, Id, PortRow};
use net_addr::OutOfMemory;
use plane_types::{Edit, FilterRow};
use std::alloc::Global;
use table_edits::{Numbers, descending};

// Adds these numbers.
fn add_numbers(numbers: &mut Vec<usize>, more: &[usize]) -> Result<(), OutOfMemory>
    ensures { OnOk result (numbers.new.items ≡ numbers.old.items ++ more.now) }
{
    for number in more {
        numbers.push(*number)?;
    }
    Ok(())
}

// Adds the numbers of these groups before the change, of those that are there.
fn add_groups(
    numbers: &mut Vec<usize>,
    groups: &Numbers<GroupRow>,
    named: &[Id],
) -> Result<(), OutOfMemory>
    ensures { OnOk result
        (numbers.new.items
        ≡ numbers.old.items ++ filter_map (group_number groups.now.rows) named.now) }
{
    for group in named {
        if let Some(number) = groups.number(*group) {
            numbers.push(number)?;
        }
    }
    Ok(())
}

// Adds the numbers of the groups that these ports name.
fn add_named(
    numbers: &mut Vec<usize>,
    groups: &Numbers<GroupRow>,
    ports: &[&PortRow],
) -> Result<(), OutOfMemory>
    ensures { OnOk result
        (numbers.new.items
        ≡ numbers.old.items
        ++ flat_map (λ (p : ThePort). filter_map (group_number groups.now.rows) p.groups)
        (map (λ p. p.now) ports.now)) }
{
    for port in ports {
        add_groups(numbers, groups, port.groups.as_slice())?;
    }
    Ok(())
}

// Adds the number of a group before the change, if it is there.
fn add_group(
    numbers: &mut Vec<usize>,
    groups: &Numbers<GroupRow>,
    group: Id,
) -> Result<(), OutOfMemory>
    ensures { OnOk result
        (numbers.new.items
        ≡ numbers.old.items ++ cons_option (group_number groups.now.rows group) []) }
{
    if let Some(number) = groups.number(group) {
        numbers.push(number)?;
    }
    Ok(())
}

// Adds the number of a remote group.
fn add_remote(
    numbers: &mut Vec<usize>,
    groups: &Numbers<GroupRow>,
    remote: &Option<Id>,
) -> Result<(), OutOfMemory>
    ensures { OnOk result
        (numbers.new.items
        ≡ numbers.old.items
        ++ cons_option (option_and_then (group_number groups.now.rows) remote.now) []) }
{
    match remote {
        Some(group) => add_group(numbers, groups, *group),
        None => Ok(()),
    }
}

// The remote groups of filters.
fn remotes_of(alloc: Global, filters: &[FilterRow]) -> Result<Vec<Option<Id>>, OutOfMemory>
    ensures { IfOk result
        (λ v. v.items ≡ map (λ (r : TheFilter). r.remote_group) filters.now) }
{
    let mut remotes = Vec::new(alloc);
    for filter in filters {
        remotes.push(filter.remote_group)?;
    }
    Ok(remotes)
}

// Takes out the remote group at a place, and adds its number.
fn take_out(
    remotes: &mut GapList<Option<Id>>,
    numbers: &mut Vec<usize>,
    groups: &Numbers<GroupRow>,
    place: usize,
) -> Result<(), OutOfMemory>
    ensures remotes { OnOk result (remotes.new ≡ remove remotes.old place) }
    ensures fewer { OnOk result
        ((n : _) → among nat_lt n numbers.new.items ≡ false
        → among nat_lt n numbers.old.items ≡ false) }
    ensures alike { OnOk result
        (AreNamedAlike groups.now.rows numbers.new.items (is_remote_by remotes.old)
        (is_remote_by remotes.new)) }
{
    match remotes.take_out(place)? {
        Some(gone) => add_remote(numbers, groups, &gone),
        None => Ok(()),
    }
}

// Puts in a remote group at a place, or at the end where the place is past it, and adds its number.
fn put_in(
    remotes: &mut GapList<Option<Id>>,
    numbers: &mut Vec<usize>,
    groups: &Numbers<GroupRow>,
    place: usize,
    remote: &Option<Id>,
) -> Result<(), OutOfMemory>
    ensures remotes { OnOk result
        (remotes.new ≡ insert remotes.old place remote.now) }
    ensures fewer { OnOk result
        ((n : _) → among nat_lt n numbers.new.items ≡ false
        → among nat_lt n numbers.old.items ≡ false) }
    ensures alike { OnOk result
        (AreNamedAlike groups.now.rows numbers.new.items (is_remote_by remotes.old)
        (is_remote_by remotes.new)) }
{
    add_remote(numbers, groups, remote)?;
    remotes.put(place, *remote)
}

// Puts an edit of filters into their remote groups, and adds the numbers of those that it names.
fn put_edit(
    remotes: &mut GapList<Option<Id>>,
    numbers: &mut Vec<usize>,
    groups: &Numbers<GroupRow>,
    edit: &Edit<FilterRow>,
) -> Result<(), OutOfMemory>
    ensures remotes { OnOk result (remotes.new ≡ with_remote remotes.old edit.now) }
    ensures fewer { OnOk result
        ((n : _) → among nat_lt n numbers.new.items ≡ false
        → among nat_lt n numbers.old.items ≡ false) }
    ensures alike { OnOk result
        (AreNamedAlike groups.now.rows numbers.new.items (is_remote_by remotes.old)
        (is_remote_by remotes.new)) }
{
    if edit.out {
        take_out(remotes, numbers, groups, edit.place)?;
    }
    if let Some(filter) = &edit.put {
        put_in(remotes, numbers, groups, edit.place, &filter.remote_group)?;
    }
    Ok(())
}

// Puts edits of filters in, one after the other.
fn put_edits(
    remotes: &mut GapList<Option<Id>>,
    numbers: &mut Vec<usize>,
    groups: &Numbers<GroupRow>,
    edits: &[Edit<FilterRow>],
) -> Result<(), OutOfMemory>
    ensures remotes { OnOk result (remotes.new ≡ with_remotes remotes.old edits.now) }
    ensures fewer { OnOk result
        ((n : _) → among nat_lt n numbers.new.items ≡ false
        → among nat_lt n numbers.old.items ≡ false) }
    ensures alike { OnOk result
        (AreNamedAlike groups.now.rows numbers.new.items (is_remote_by remotes.old)
        (is_remote_by remotes.new)) }
{
    for edit in edits {
        put_edit(remotes, numbers, groups, edit)?;
    }
    Ok(())
}

// The numbers of the groups whose sets may change: those that come, go or change, those that ports
// of the change name, as these were and as they are to be, and those that edits of filters name.
fn touched_numbers(
    alloc: Global,
    groups: &Numbers<GroupRow>,
    were: &[&PortRow],
    are: &[&PortRow],
    remotes: &mut GapList<Option<Id>>,
    edits: &[Edit<FilterRow>],
) -> Result<Vec<usize>, OutOfMemory>
    ensures remotes { OnOk result (remotes.new ≡ with_remotes remotes.old edits.now) }
    ensures touched { IfOk result
        (λ v. AreTouched groups.now (map (λ p. p.now) were.now) (map (λ p. p.now) are.now)
        remotes.old remotes.new v.items) }
{
    let mut numbers = Vec::new(alloc);
    add_numbers(&mut numbers, groups.named())?;
    add_named(&mut numbers, groups, were)?;
    add_named(&mut numbers, groups, are)?;
    put_edits(remotes, &mut numbers, groups, edits)?;
    descending(alloc, numbers)
}

fn names_remote(filter: &FilterRow, group: Id) -> bool
    ensures { result ≡ names_remote_of group filter.now.remote_group }
{
    match filter.remote_group {
        Some(remote) => group == remote,
        None => false,
    }
}

// Whether one of these filters names the group as a remote one.
fn is_named(filters: &[FilterRow], group: Id) -> bool
    ensures { result ≡ is_named_by filters.now group }
{
    filters.iter().any(|filter| names_remote(filter, group))
}

fn is_group(remote: &Option<Id>, group: Id) -> bool
    ensures { result ≡ names_remote_of group remote.now }
{
    match remote {
        Some(remote) => group == *remote,
        None => false,
    }
}

// Whether the group is one of these.
fn is_remote(remotes: &[Option<Id>], group: Id) -> bool
    ensures { result ≡ is_remote_by remotes.now group }
{
    remotes.iter().any(|remote| is_group(remote, group))
}

fn if_named(filters: &[FilterRow], group: Option<&GroupRow>) -> Option<Id>
    ensures { result ≡ named_by (is_named_by filters.now) (option_copied group.entry) }
{
    let group = group?;
    if is_named(filters, group.id) {
        Some(group.id)
    } else {
        None
    }
}

fn if_remote(remotes: &[Option<Id>], group: Option<&GroupRow>) -> Option<Id>
    ensures { result ≡ named_by (is_remote_by remotes.now) (option_copied group.entry) }
{
    let group = group?;
    if is_remote(remotes, group.id) {
        Some(group.id)
    } else {
        None
    }
}

// The set of a group, by the group's number: the group before the change and after it, if filters
// name it then.
#[derive(Drop)]
pub(crate) struct NumberedSet {
    pub(crate) number: usize,
    pub(crate) before: Option<Id>,
    pub(crate) after: Option<Id>,
}

// The sets of the groups with these numbers.
fn sets_at(
    alloc: Global,
    groups: &Numbers<GroupRow>,
    filters: &[FilterRow],
    remotes: &[Option<Id>],
    numbers: &[usize],
) -> Result<Vec<NumberedSet>, OutOfMemory>
    ensures { IfOk result
        (λ v. v.items ≡ map (set_at groups.now filters.now remotes.now) numbers.now) }
{
    let mut sets = Vec::new(alloc);
    for number in numbers {
        let number = *number;
        sets.push(NumberedSet {
            number,
            before: if_named(filters, groups.row(number)),
            after: if_remote(remotes, groups.row_after(number)),
        })?;
    }
    Ok(sets)
}

// Whether a change has no group and no port, and no edit of filters.
fn is_elsewhere(
    named: &[usize],
    edits: &[Edit<FilterRow>],
    were: &[&PortRow],
    are: &[&PortRow],
) -> bool
    ensures { result
        ≡ (((length named.now == 0) && (length edits.now == 0)) && (length were.now == 0)
        && (length are.now == 0)) }
{
    named.len() == 0 && edits.len() == 0 && were.len() == 0 && are.len() == 0
}

// The sets that a change may touch.
pub(crate) fn touched_sets(
    alloc: Global,
    groups: &Numbers<GroupRow>,
    filters: &[FilterRow],
    edits: &[Edit<FilterRow>],
    were: &[&PortRow],
    are: &[&PortRow],
) -> Result<Vec<NumberedSet>, OutOfMemory>
    ensures { IfOk result
        (λ v. AreTouchedSets groups.now filters.now edits.now (map (λ p. p.now) were.now)
        (map (λ p. p.now) are.now) v.items) }
{
    if is_elsewhere(groups.named(), edits, were, are) {
        return Ok(Vec::new(alloc));
    }
    let mut remotes = GapList::of(alloc, remotes_of(alloc, filters)?);
    let numbers = touched_numbers(alloc, groups, were, are, &mut remotes, edits)?;
    let remotes = remotes.close()?;
    sets_at(
        alloc,
        groups,
        filters,
        remotes.as_slice(),
        numbers.as_slice(),
    )
}

impl NumberedSet {
    // Whether it is of one group that filters name before and after.
    pub(crate) fn is_kept(&self) -> bool
        ensures { result ≡ is_kept_by self.now.before self.now.after }
    {
        match (self.before, self.after) {
            (Some(before), Some(after)) => before == after,
            (None, None) | (None, Some(_)) | (Some(_), None) => false,
        }
    }
}
