//! Ports by the groups that they name.

ghost use Rattle.std.specs.Prelude.{◌≡◌, ◌++◌, ◌∷◌, ◌&&◌, ◌||◌, [], IfOk, None, OnOk, Some, if◌then◌else◌, map, not};
ghost use Rattle.std.specs.HashMap.{get};
ghost use Rattle.std.specs.HashSet.{contains};
ghost use Rattle.std.specs.List.{filter};
ghost use Rattle.api_types.specs.Ident.{Ident};
ghost use Rattle.api_types.specs.Members.{names_group};
ghost use Rattle.api_types.specs.Members as members_specs;
ghost use Rattle.api_types.specs.Table.{ident_eq};
ghost use Rattle.api_secgroup.specs.Named.{names};

use crate::listed::members_by;
use api_types::{Id, PortRow, Rows, Shared};
use net_addr::{OutOfMemory, Prefixes, Seq};
use std::alloc::Global;
use std::collections::{HashMap, HashSet};
use std::marker::Model;

/// Rows, whose ports are looked up by the groups that they name. Contracts see the rows.
#[derive(Drop)]
pub struct Memberships<'r> {
    rows: &'r Rows,
    by_group: HashMap<Id, Vec<&'r PortRow>>,
}

impl<'r> Model for Memberships<'r> {
    ghost use Rattle.std.specs.Prelude.{◌≡◌, [], None, Some, map};
    ghost use Rattle.std.specs.HashMap.{get};
    ghost use Rattle.std.specs.List.{filter};
    ghost use Rattle.api_types.specs.Ident.{Ident};
    ghost use Rattle.api_types.specs.RowLists.{RowLists};
    ghost use Rattle.api_types.specs.Table.{ident_eq};
    ghost use Rattle.api_secgroup.specs.Named.{names};

    ghost Value = { RowLists };

    ghost view = { λ m. m.rows.now };

    ghost invariant = { λ m. (g : Ident)
        → elim (get ident_eq m.by_group g) [ None ↦ [] | Some v ↦ map (λ p. p.now) v.items ]
        ≡ filter (names g) m.rows.now.ports };
}

// Has a group of which there were none have these ports.
fn put_in<'r>(
    by_group: &mut HashMap<Id, Vec<&'r PortRow>>,
    group: Id,
    ports: Vec<&'r PortRow>,
) -> Result<(), OutOfMemory>
    ensures { OnOk result
        ((q : Ident)
        → get ident_eq by_group.new q ≡ if ident_eq group q then Some ports.entry
        else get ident_eq by_group.old q) }
{
    by_group.insert(group, ports)?;
    Ok(())
}

// Adds the first port of a group.
fn add_first<'r>(
    alloc: Global,
    by_group: &mut HashMap<Id, Vec<&'r PortRow>>,
    group: Id,
    port: &'r PortRow,
) -> Result<(), OutOfMemory>
    requires { get ident_eq by_group.old group ≡ None }
    ensures { OnOk result
        ((q : Ident)
        → elim (get ident_eq by_group.new q) [ None ↦ [] | Some v ↦ map (λ p. p.now) v.items ]
        ≡ elim (get ident_eq by_group.old q)
        [ None ↦ [] | Some v ↦ map (λ p. p.now) v.items ]
        ++ (if ident_eq group q then port.now ∷ [] else [])) }
{
    let mut ports = Vec::new(alloc);
    ports.push(port)?;
    put_in(by_group, group, ports)
}

// Adds a port to those of a group, last.
fn add_to<'r>(
    alloc: Global,
    by_group: &mut HashMap<Id, Vec<&'r PortRow>>,
    group: Id,
    port: &'r PortRow,
) -> Result<(), OutOfMemory>
    ensures { OnOk result
        ((q : Ident)
        → elim (get ident_eq by_group.new q) [ None ↦ [] | Some v ↦ map (λ p. p.now) v.items ]
        ≡ elim (get ident_eq by_group.old q)
        [ None ↦ [] | Some v ↦ map (λ p. p.now) v.items ]
        ++ (if ident_eq group q then port.now ∷ [] else [])) }
{
    if let Some(ports) = by_group.get_mut(&group) {
        ports.push(port)?;
        return Ok(());
    }
    add_first(alloc, by_group, group, port)
}

// Adds a group, and tells whether it wasn't there.
fn add_new(seen: &mut HashSet<Id>, group: Id) -> Result<bool, OutOfMemory>
    ensures new { IfOk result (λ b. b ≡ not (contains ident_eq seen.old group)) }
    ensures all { OnOk result
        ((q : Ident)
        → contains ident_eq seen.new q ≡ (contains ident_eq seen.old q || ident_eq q group)) }
{
    Ok(seen.insert(group)?)
}

// Adds a port to those of a group, unless the group was seen, and the group to what was seen.
fn add_once<'r>(
    alloc: Global,
    by_group: &mut HashMap<Id, Vec<&'r PortRow>>,
    seen: &mut HashSet<Id>,
    group: Id,
    port: &'r PortRow,
) -> Result<(), OutOfMemory>
    ensures seen { OnOk result
        ((q : Ident)
        → contains ident_eq seen.new q ≡ (contains ident_eq seen.old q || ident_eq q group)) }
    ensures added { OnOk result
        ((q : Ident)
        → elim (get ident_eq by_group.new q) [ None ↦ [] | Some v ↦ map (λ p. p.now) v.items ]
        ≡ elim (get ident_eq by_group.old q)
        [ None ↦ [] | Some v ↦ map (λ p. p.now) v.items ]
        ++ (if ident_eq q group && not (contains ident_eq seen.old q) then port.now ∷ []
        else [])) }
{
    if !add_new(seen, group)? {
        return Ok(());
    }
    add_to(alloc, by_group, group, port)
}

// Adds a port to those of each of these groups, once where one is among them twice.
fn add_to_each<'r>(
    alloc: Global,
    by_group: &mut HashMap<Id, Vec<&'r PortRow>>,
    groups: &[Id],
    port: &'r PortRow,
) -> Result<(), OutOfMemory>
    ensures { OnOk result
        ((q : Ident)
        → elim (get ident_eq by_group.new q) [ None ↦ [] | Some v ↦ map (λ p. p.now) v.items ]
        ≡ elim (get ident_eq by_group.old q)
        [ None ↦ [] | Some v ↦ map (λ p. p.now) v.items ]
        ++ (if names_group q groups.now then port.now ∷ [] else [])) }
{
    let mut seen = HashSet::new(alloc);
    for group in groups {
        add_once(alloc, by_group, &mut seen, *group, port)?;
    }
    Ok(())
}

// Adds a port to those of each group that it names. Where it names one, as most do, there is
// nothing to be named twice, and no set is made.
fn add_port<'r>(
    alloc: Global,
    by_group: &mut HashMap<Id, Vec<&'r PortRow>>,
    port: &'r PortRow,
) -> Result<(), OutOfMemory>
    ensures { OnOk result
        ((q : Ident)
        → elim (get ident_eq by_group.new q) [ None ↦ [] | Some v ↦ map (λ p. p.now) v.items ]
        ≡ elim (get ident_eq by_group.old q)
        [ None ↦ [] | Some v ↦ map (λ p. p.now) v.items ]
        ++ (if names q port.now then port.now ∷ [] else [])) }
{
    match port.groups.as_slice() {
        [group] => add_to(alloc, by_group, *group, port),
        groups => add_to_each(alloc, by_group, groups, port),
    }
}

// The ports that name each group.
fn ports_by_group<'r>(
    alloc: Global,
    ports: &'r [Shared<PortRow>],
) -> Result<HashMap<Id, Vec<&'r PortRow>>, OutOfMemory>
    ensures { IfOk result
        (λ m. (q : Ident)
        → elim (get ident_eq m q) [ None ↦ [] | Some v ↦ map (λ p. p.now) v.items ]
        ≡ filter (names q) ports.now) }
{
    let mut by_group = HashMap::new(alloc);
    for port in ports {
        add_port(alloc, &mut by_group, port.get())?;
    }
    Ok(by_group)
}

impl<'r> Memberships<'r> {
    /// These rows. Its cost grows with the ports and the groups that they name.
    pub fn of(alloc: Global, rows: &'r Rows) -> Result<Memberships<'r>, OutOfMemory>
        ensures { IfOk result (λ m. m ≡ rows.now) }
    {
        Ok(Memberships {
            rows,
            by_group: ports_by_group(alloc, rows.ports().rows())?,
        })
    }

    /// The rows.
    pub fn rows(&self) -> &'r Rows
        ensures { result.now ≡ self.now }
    {
        self.rows
    }

    /// The members of a group, in ascending order and each once: the fixed addresses, as prefixes
    /// of their whole length, and the prefixes of the allowed pairs of all ports that name it. Its
    /// cost grows with the addresses and pairs of these ports, and the logarithm of their number.
    #[tactic(auto, unfolding(api_types::specs::Members::members))]
    pub fn members(&self, alloc: Global, group: Id) -> Result<Prefixes, OutOfMemory>
        ensures { IfOk result (λ p. p ≡ members_specs.members self.now group) }
    {
        match self.by_group.get(&group) {
            Some(ports) => members_by(alloc, ports.as_slice()),
            None => Ok(Seq::new(alloc)),
        }
    }
}
