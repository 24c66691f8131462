//! Groups and rules by the numbers that they keep through a change.

ghost use Rattle.std.specs.Prelude.{◌≡◌, ◌++◌, ℕ, ◌||◌, IfOk, OnOk, false, option_copied, option_map, slice_get};
ghost use Rattle.std.specs.HashMap.{get};
ghost use Rattle.std.specs.HashSet.{contains};
ghost use Rattle.std.specs.List.{filter_map};
ghost use Rattle.api_types.specs.Ident.{Ident};
ghost use Rattle.api_types.specs.Members.{names_group};
ghost use Rattle.api_types.specs.Table.{ident_eq, place_of};
ghost use Rattle.api_types.specs.declared.group.GroupRow.{GroupRow as TheGroup};
ghost use Rattle.api_types.specs.declared.group.RuleRow.{RuleRow as TheRule};
ghost use Rattle.table_edits.specs.NumbersSeen.{at_after, at_before};
ghost use Rattle.touched_rows.specs.TouchedNumbers.{numbers_from};
ghost use Rattle.l2_delta.specs.Covers.{Covers, Looked};
ghost use Rattle.l2_delta.specs.Filtered.{is_group, is_of_group, is_one_group, rule_of_group};

use api_types::{GroupRow, Id, PortRow, RuleRow, Shared};
use net_addr::OutOfMemory;
use std::alloc::Global;
use std::collections::{HashMap, HashSet};
use std::marker::Model;
use table_edits::{Numbers, descending};
use touched_rows::Rewiring;

// Adds the numbers of the groups with these ids before the change.
fn add_groups_with(
    numbers: &mut Vec<usize>,
    groups: &Numbers<GroupRow>,
    ids: &[Id],
) -> Result<(), OutOfMemory>
    ensures { OnOk result
        (numbers.new.items
        ≡ numbers.old.items
        ++ filter_map (λ i. place_of (λ (g : TheGroup). g.id) i groups.now.rows) ids.now) }
{
    for id in ids {
        if let Some(number) = groups.number(*id) {
            numbers.push(number)?;
        }
    }
    Ok(())
}

/// Numbers among which are those of the groups that a port names, before the change and after it.
/// Its cost grows with the port's groups and the groups that the change names.
pub(crate) fn groups_of(
    alloc: Global,
    groups: &Numbers<GroupRow>,
    port: &PortRow,
) -> Result<Vec<usize>, OutOfMemory>
    ensures { IfOk result
        (λ ks. Covers (λ (g : TheGroup). names_group g.id port.now.groups) groups.now ks.items) }
{
    let _own_ids = groups.rows(); // for the proof: no two groups have one id
    let mut numbers = Vec::from_slice(alloc, groups.named())?;
    add_groups_with(&mut numbers, groups, port.groups.as_slice())?;
    descending(alloc, numbers)
}

// Adds the numbers of the rules of a group before the change.
fn add_rules(
    numbers: &mut Vec<usize>,
    rules: &[Shared<RuleRow>],
    group: Id,
) -> Result<(), OutOfMemory>
    ensures { OnOk result
        (numbers.new.items
        ≡ numbers.old.items ++ numbers_from (λ (r : TheRule). ident_eq r.group group) 0 rules.now) }
{
    for number in 0..rules.len() {
        if rules[number].get().group == group {
            numbers.push(number)?;
        }
    }
    Ok(())
}

// Numbers among which are those of the rules of a group, before the change and after it.
fn rules_of(alloc: Global, rules: &Numbers<RuleRow>, group: Id) -> Result<Vec<usize>, OutOfMemory>
    ensures { IfOk result
        (λ ks. Covers (λ (r : TheRule). ident_eq r.group group) rules.now ks.items) }
{
    let mut numbers = Vec::from_slice(alloc, rules.named())?;
    add_rules(&mut numbers, rules.rows(), group)?;
    descending(alloc, numbers)
}

/// Rules by their groups, of which some were looked up before. Contracts see the rules.
#[derive(Drop)]
pub(crate) struct Ruled<'r> {
    rules: &'r Numbers<'r, RuleRow>,
    by_group: HashMap<Id, Vec<usize>>,
}

impl<'r> Model for Ruled<'r> {
    ghost use Rattle.std.specs.Prelude.{option_map};
    ghost use Rattle.std.specs.HashMap.{get};
    ghost use Rattle.api_types.specs.Ident.{Ident};
    ghost use Rattle.api_types.specs.Table.{ident_eq};
    ghost use Rattle.api_types.specs.declared.group.RuleRow.{RuleRow};
    ghost use Rattle.table_edits.specs.NumbersSeen.{Renumbered};
    ghost use Rattle.l2_delta.specs.Covers.{Looked};

    ghost Value = { Renumbered RuleRow };

    ghost view = { λ r. r.rules.now };

    ghost invariant = { λ r. (g : Ident)
        → Looked r.rules.now g (option_map (λ v. v.items) (get ident_eq r.by_group g)) };
}

// Looks the rules of a group up, if they weren't before.
fn look_up(
    alloc: Global,
    by_group: &mut HashMap<Id, Vec<usize>>,
    rules: &Numbers<RuleRow>,
    group: Id,
) -> Result<(), OutOfMemory>
    requires { (g : Ident)
        → Looked rules.now g (option_map (λ v. v.items) (get ident_eq by_group.old g)) }
    ensures { OnOk result
        ((g : Ident)
        → Looked rules.now g (option_map (λ v. v.items) (get ident_eq by_group.new g))) }
{
    if !by_group.contains_key(&group) {
        by_group.insert(group, rules_of(alloc, rules, group)?)?;
    }
    Ok(())
}

// Looks the rules of a port's groups up.
fn look_up_for(
    alloc: Global,
    by_group: &mut HashMap<Id, Vec<usize>>,
    rules: &Numbers<RuleRow>,
    port: Option<&PortRow>,
) -> Result<(), OutOfMemory>
    requires { (g : Ident)
        → Looked rules.now g (option_map (λ v. v.items) (get ident_eq by_group.old g)) }
    ensures { OnOk result
        ((g : Ident)
        → Looked rules.now g (option_map (λ v. v.items) (get ident_eq by_group.new g))) }
{
    let Some(port) = port else {
        return Ok(());
    };
    for group in port.groups.as_slice() {
        look_up(alloc, by_group, rules, *group)?;
    }
    Ok(())
}

impl<'r> Ruled<'r> {
    /// The rules, with those of the groups that these ports name looked up. Its cost grows with the
    /// rules, for each group that they name.
    pub(crate) fn of(
        alloc: Global,
        change: &Rewiring,
        rules: &'r Numbers<'r, RuleRow>,
        ports: &[usize],
    ) -> Result<Ruled<'r>, OutOfMemory>
        ensures { IfOk result (λ r. r ≡ rules.now) }
    {
        let mut by_group = HashMap::new(alloc);
        for number in ports {
            look_up_for(alloc, &mut by_group, rules, change.ports.row(*number))?;
            look_up_for(alloc, &mut by_group, rules, change.ports.row_after(*number))?;
        }
        Ok(Ruled { rules, by_group })
    }

    /// The rules.
    pub(crate) fn rules(&self) -> &'r Numbers<'r, RuleRow>
        ensures { result.now ≡ self.now }
    {
        self.rules
    }

    /// Numbers among which are those of the rules of a group, before the change and after it.
    pub(crate) fn numbers_of(&self, alloc: Global, group: Id) -> Result<Vec<usize>, OutOfMemory>
        ensures { IfOk result
            (λ ks. Covers (λ (r : TheRule). ident_eq r.group group) self.now ks.items) }
    {
        match self.by_group.get(&group) {
            Some(numbers) => Ok(Vec::from_slice(alloc, numbers.as_slice())?),
            None => rules_of(alloc, self.rules, group),
        }
    }
}

// Whether these are the rows of one group, or none.
fn is_kept(old: Option<&GroupRow>, new: Option<&GroupRow>) -> bool
    ensures { result ≡ is_one_group (option_copied old.entry) (option_copied new.entry) }
{
    match (old, new) {
        (Some(old), Some(new)) => old.id == new.id,
        (None, None) => true,
        (Some(_), None) | (None, Some(_)) => false,
    }
}

// Adds the id of a group.
fn add_group(ids: &mut HashSet<Id>, group: Option<&GroupRow>) -> Result<(), OutOfMemory>
    ensures { OnOk result
        ((i : Ident)
        → contains ident_eq ids.new i
        ≡ (contains ident_eq ids.old i || is_group i (option_copied group.entry))) }
{
    if let Some(group) = group {
        ids.insert(group.id)?;
    }
    Ok(())
}

// Adds the group of a rule.
fn add_group_of(ids: &mut HashSet<Id>, rule: Option<&RuleRow>) -> Result<(), OutOfMemory>
    ensures { OnOk result
        ((i : Ident)
        → contains ident_eq ids.new i
        ≡ (contains ident_eq ids.old i || is_of_group i (option_copied rule.entry))) }
{
    if let Some(rule) = rule {
        ids.insert(rule.group)?;
    }
    Ok(())
}

// Adds the group with a number, if it comes or goes.
fn add_group_at(
    ids: &mut HashSet<Id>,
    groups: &Numbers<GroupRow>,
    number: usize,
) -> Result<(), OutOfMemory>
    ensures keeps { OnOk result
        ((i : Ident) → contains ident_eq ids.new i ≡ false → contains ident_eq ids.old i ≡ false) }
    ensures tells { OnOk result
        ((i : Ident) → contains ident_eq ids.new i ≡ false
        → is_group i (slice_get groups.now.rows number)
        ≡ is_group i (at_after groups.now number)) }
{
    let (old, new) = (groups.row(number), groups.row_after(number));
    if !is_kept(old, new) {
        add_group(ids, old)?;
        add_group(ids, new)?;
    }
    Ok(())
}

// Adds the groups that come or go.
fn add_groups(ids: &mut HashSet<Id>, groups: &Numbers<GroupRow>) -> Result<(), OutOfMemory>
    ensures { OnOk result
        ((i : Ident) → contains ident_eq ids.new i ≡ false → (k : ℕ)
        → is_group i (at_before groups.now k) ≡ is_group i (at_after groups.now k)) }
{
    for number in groups.named() {
        add_group_at(ids, groups, *number)?;
    }
    Ok(())
}

// Adds the groups of the rule with a number, before the change and after it.
fn add_groups_at(
    ids: &mut HashSet<Id>,
    rules: &Numbers<RuleRow>,
    number: usize,
) -> Result<(), OutOfMemory>
    ensures { OnOk result
        ((i : Ident)
        → contains ident_eq ids.new i
        ≡ (contains ident_eq ids.old i || is_of_group i (slice_get rules.now.rows number)
        || is_of_group i (at_after rules.now number))) }
{
    add_group_of(ids, rules.row(number))?;
    add_group_of(ids, rules.row_after(number))
}

// Adds the groups of the rules that a change names.
fn add_ruled(ids: &mut HashSet<Id>, rules: &Numbers<RuleRow>) -> Result<(), OutOfMemory>
    ensures keeps { OnOk result
        ((i : Ident) → contains ident_eq ids.new i ≡ false → contains ident_eq ids.old i ≡ false) }
    ensures tells { OnOk result
        ((i : Ident) → contains ident_eq ids.new i ≡ false → (k : ℕ)
        → rule_of_group i (at_before rules.now k) ≡ rule_of_group i (at_after rules.now k)) }
{
    for number in rules.named() {
        add_groups_at(ids, rules, *number)?;
    }
    Ok(())
}

/// The groups that come or go with a change, or a rule of which does or changes. Its cost grows
/// with the items on groups and rules.
pub(crate) fn changed_groups(
    alloc: Global,
    groups: &Numbers<GroupRow>,
    rules: &Numbers<RuleRow>,
) -> Result<HashSet<Id>, OutOfMemory>
    ensures groups { IfOk result
        (λ s. (i : Ident) → contains ident_eq s i ≡ false → (k : ℕ)
        → is_group i (at_before groups.now k) ≡ is_group i (at_after groups.now k)) }
    ensures rules { IfOk result
        (λ s. (i : Ident) → contains ident_eq s i ≡ false → (k : ℕ)
        → rule_of_group i (at_before rules.now k) ≡ rule_of_group i (at_after rules.now k)) }
{
    let mut ids = HashSet::new(alloc);
    add_groups(&mut ids, groups)?;
    add_ruled(&mut ids, rules)?;
    Ok(ids)
}
