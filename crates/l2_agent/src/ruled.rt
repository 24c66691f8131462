//! Groups by their indices, and rules by their groups.

ghost use Rattle.std.specs.Prelude.{◌≡◌, ◌++◌, ◌∷◌, [], IfOk, None, OnOk, Some, if◌then◌else◌, map, option_copied};
ghost use Rattle.std.specs.HashMap.{get};
ghost use Rattle.std.specs.List.{filter};
ghost use Rattle.api_types.specs.Ident.{Ident};
ghost use Rattle.api_types.specs.Table.{ident_eq};
ghost use Rattle.l2_agent.specs.Indices.{index_from};
ghost use Rattle.l2_agent.specs.Ruled.{is_of};

use api_types::{GroupRow, Id, Rows, RuleRow, Shared};
use net_addr::OutOfMemory;
use std::alloc::Global;
use std::collections::HashMap;
use std::marker::Model;

/// Rows, whose groups and rules are looked up. Contracts see the rows.
#[derive(Drop)]
pub(crate) struct Ruled<'r> {
    rows: &'r Rows,
    indices: HashMap<Id, usize>,
    rules: HashMap<Id, Vec<&'r RuleRow>>,
}

impl<'r> Model for Ruled<'r> {
    ghost use Rattle.std.specs.Prelude.{◌≡◌, [], None, Some, map};
    ghost use Rattle.std.specs.HashMap.{get};
    ghost use Rattle.std.specs.List.{filter};
    ghost use Rattle.api_types.specs.Ident.{Ident};
    ghost use Rattle.api_types.specs.RowLists.{RowLists};
    ghost use Rattle.api_types.specs.Table.{ident_eq};
    ghost use Rattle.l2_agent.specs.Indices.{index_from};
    ghost use Rattle.l2_agent.specs.Ruled.{is_of};

    ghost Value = { RowLists };

    ghost view = { λ r. r.rows.now };

    ghost invariant = { λ r.
        ((n : Ident) → get ident_eq r.indices n ≡ index_from 0 r.rows.now.groups n)
        × ((g : Ident)
        → elim (get ident_eq r.rules g) [ None ↦ [] | Some v ↦ map (λ x. x.now) v.items ]
        ≡ filter (is_of g) r.rows.now.rules) };
}

// The index of each group, from the last to the first.
fn indices_of(alloc: Global, groups: &[Shared<GroupRow>]) -> Result<HashMap<Id, usize>, OutOfMemory>
    ensures { IfOk result (λ m. (n : Ident) → get ident_eq m n ≡ index_from 0 groups.now n) }
{
    let mut indices = HashMap::new(alloc);
    let mut left = groups.len();
    while left > 0 {
        left -= 1;
        let group = groups[left].get();
        indices.insert(group.id, left)?;
    }
    Ok(indices)
}

// Takes the rules of a group out.
fn take_rules<'r>(
    alloc: Global,
    by_group: &mut HashMap<Id, Vec<&'r RuleRow>>,
    group: Id,
) -> Vec<&'r RuleRow>
    ensures listed { map (λ r. r.now) result.items
        ≡ elim (get ident_eq by_group.old group) [ None ↦ [] | Some v ↦ map (λ r. r.now) v.items ] }
    ensures rest { (q : Ident)
        → get ident_eq by_group.new q ≡ if ident_eq group q then None
        else get ident_eq by_group.old q }
{
    match by_group.remove(&group) {
        Some(rules) => rules,
        None => Vec::new(alloc),
    }
}

// Adds a rule to those of its group, last.
fn add_rule<'r>(
    alloc: Global,
    by_group: &mut HashMap<Id, Vec<&'r RuleRow>>,
    rule: &'r RuleRow,
) -> Result<(), OutOfMemory>
    ensures { OnOk result
        ((q : Ident)
        → elim (get ident_eq by_group.new q) [ None ↦ [] | Some v ↦ map (λ r. r.now) v.items ]
        ≡ elim (get ident_eq by_group.old q)
        [ None ↦ [] | Some v ↦ map (λ r. r.now) v.items ]
        ++ (if ident_eq rule.now.group q then rule.now ∷ [] else [])) }
{
    let mut rules = take_rules(alloc, by_group, rule.group);
    rules.push(rule)?;
    by_group.insert(rule.group, rules)?;
    Ok(())
}

// The rules of each group.
fn rules_by_group<'r>(
    alloc: Global,
    rules: &'r [Shared<RuleRow>],
) -> Result<HashMap<Id, Vec<&'r RuleRow>>, OutOfMemory>
    ensures { IfOk result
        (λ m. (q : Ident)
        → elim (get ident_eq m q) [ None ↦ [] | Some v ↦ map (λ r. r.now) v.items ]
        ≡ filter (is_of q) rules.now) }
{
    let mut by_group = HashMap::new(alloc);
    for rule in rules {
        add_rule(alloc, &mut by_group, rule.get())?;
    }
    Ok(by_group)
}

impl<'r> Ruled<'r> {
    /// These rows. Its cost grows with the groups and the rules.
    pub(crate) fn of(alloc: Global, rows: &'r Rows) -> Result<Ruled<'r>, OutOfMemory>
        ensures { IfOk result (λ r. r ≡ rows.now) }
    {
        Ok(Ruled {
            rows,
            indices: indices_of(alloc, rows.groups().rows())?,
            rules: rules_by_group(alloc, rows.rules().rows())?,
        })
    }

    /// The rows.
    pub(crate) fn rows(&self) -> &'r Rows
        ensures { result.now ≡ self.now }
    {
        self.rows
    }

    /// At which index the group with this id stands.
    pub(crate) fn index_of(&self, id: Id) -> Option<usize>
        ensures { result ≡ index_from 0 self.now.groups id }
    {
        self.indices.get(&id).copied()
    }

    /// The rules of a group, in order of creation.
    pub(crate) fn rules_of(&self, group: Id) -> Option<&Vec<&'r RuleRow>>
        ensures { elim (option_copied result) [ None ↦ [] | Some v ↦ map (λ r. r.now) v.items ]
            ≡ filter (is_of group) self.now.rules }
    {
        self.rules.get(&group)
    }
}
