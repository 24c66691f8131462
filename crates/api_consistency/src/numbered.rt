//! Clause 1: names, ordinals, counts and ids.

ghost use Rattle.std.specs.Prelude.{◌≡◌, ◌++◌, ◌<◌, ◌≤◌, ◌^◌, ℕ, List, IfOk, None, OnOk, count_by, length, map, true};
ghost use Rattle.std.specs.List.{list_all};
ghost use Rattle.api_types.specs.Ident.{Ident};
ghost use Rattle.api_types.specs.Registration.{is_named};
ghost use Rattle.api_types.specs.Consistent.Numbered as numbered;
ghost use Rattle.api_types.specs.Consistent.Numbered.{AreNumbered, ProjectsDiffer, times_in};
ghost use Rattle.api_check.specs.Broken.{first_place};
ghost use Rattle.api_consistency.specs.Keys as keys;

use crate::known::Known;
use crate::looked::is_drawn;
use crate::numbers::{id_number, single, text_number};
use crate::stretch::{Stretch, are_apart};
use api_types::{Keyed, ProjectRow, Rows, Shared};
use net_addr::OutOfMemory;
use std::alloc::Global;

fn is_in_place(place: usize, project: &ProjectRow) -> bool
    ensures { result ≡ keys.is_in_place place project.now }
{
    u128::from(project.ordinal) == place as u128 + 1
        && (project.count < 0x4000_0000_0000_0000
            && (place as u128 + 1 < 0x1_0000_0000 && !project.name.is_empty()))
}

#[tactic(auto, using(api_check::proofs::Places::place_here, api_check::proofs::Places::place_next, api_check::proofs::Places::place_end))]
fn first_misplaced(projects: &[Shared<ProjectRow>]) -> Option<usize>
    ensures { result ≡ first_place keys.is_in_place 0 projects.now }
{
    for place in 0..projects.len() {
        if !is_in_place(place, &projects[place]) {
            return Some(place);
        }
    }
    None
}

fn names_of(alloc: Global, projects: &[Shared<ProjectRow>]) -> Result<Vec<Stretch>, OutOfMemory>
    ensures { IfOk result (λ v. v.items ≡ map keys.of_name projects.now) }
{
    let mut names = Vec::new(alloc);
    for project in projects {
        names.push(single(0, text_number(&project.name)))?;
    }
    Ok(names)
}

// Adds the ids of rows.
fn add_ids<R: Keyed>(ids: &mut Vec<Stretch>, rows: &[Shared<R>]) -> Result<(), OutOfMemory>
    ensures { OnOk result
        (ids.new.items ≡ ids.old.items ++ map (λ r. keys.of_id (R.id_of r)) rows.now) }
{
    for row in rows {
        ids.push(single(0, id_number(row.id())))?;
    }
    Ok(())
}

// The ids of all rows but projects.
fn ids_of(alloc: Global, rows: &Rows) -> Result<Vec<Stretch>, OutOfMemory>
    ensures { IfOk result (λ v. v.items ≡ keys.of_ids rows.now) }
{
    let mut ids = Vec::new(alloc);
    add_ids(&mut ids, rows.networks().rows())?;
    add_ids(&mut ids, rows.subnets().rows())?;
    add_ids(&mut ids, rows.ports().rows())?;
    add_ids(&mut ids, rows.groups().rows())?;
    add_ids(&mut ids, rows.rules().rows())?;
    add_ids(&mut ids, rows.routers().rows())?;
    add_ids(&mut ids, rows.floatings().rows())?;
    add_ids(&mut ids, rows.policies().rows())?;
    Ok(ids)
}

fn are_drawn<R: Keyed>(rows: &Rows, list: &[Shared<R>]) -> bool
    ensures { result ≡ list_all (λ r. numbered.is_drawn rows.now.projects (R.id_of r)) list.now }
{
    for row in list {
        if !is_drawn(rows, row.id()) {
            return false;
        }
    }
    true
}

fn are_all_drawn(rows: &Rows) -> bool
    ensures { result ≡ keys.are_all_drawn rows.now }
{
    are_drawn(rows, rows.networks().rows())
        && (are_drawn(rows, rows.subnets().rows())
            && (are_drawn(rows, rows.ports().rows())
                && (are_drawn(rows, rows.groups().rows())
                    && (are_drawn(rows, rows.rules().rows())
                        && (are_drawn(rows, rows.routers().rows())
                            && (are_drawn(rows, rows.floatings().rows())
                                && are_drawn(rows, rows.policies().rows())))))))
}

fn are_names_once(alloc: Global, known: &Known) -> Result<bool, OutOfMemory>
    ensures { IfOk result
        (λ b. b ≡ true → (name : List ℕ) → count_by (is_named name) known.now.projects ≤ 1) }
{
    let names = names_of(alloc, known.projects())?;
    Ok(are_apart(names))
}

fn are_placed(projects: &[Shared<ProjectRow>]) -> bool
    ensures { result ≡ true → first_place keys.is_in_place 0 projects.now ≡ None }
{
    match first_misplaced(projects) {
        Some(_) => false,
        None => true,
    }
}

fn are_few(projects: &[Shared<ProjectRow>]) -> bool
    ensures { result ≡ true → length projects.now < 2 ^ 32 }
{
    projects.len() < 0x1_0000_0000
}

fn are_projects(alloc: Global, known: &Known) -> Result<bool, OutOfMemory>
    ensures { IfOk result (λ b. b ≡ true → ProjectsDiffer known.now.projects) }
{
    if !are_few(known.projects()) {
        return Ok(false);
    }
    if !are_placed(known.projects()) {
        return Ok(false);
    }
    are_names_once(alloc, known)
}

fn are_ids_once(alloc: Global, known: &Known) -> Result<bool, OutOfMemory>
    ensures { IfOk result (λ b. b ≡ true → (i : Ident) → times_in known.now i ≤ 1) }
{
    let ids = ids_of(alloc, known.rows())?;
    Ok(are_apart(ids))
}

/// Whether projects are named and numbered in order, and each other row has an id of its own that
/// its project drew. Its cost grows with the rows and the logarithm of their number.
pub(crate) fn are_numbered(alloc: Global, known: &Known) -> Result<bool, OutOfMemory>
    ensures { IfOk result (λ b. b ≡ true → AreNumbered known.now) }
{
    if !are_all_drawn(known.rows()) {
        return Ok(false);
    }
    if !are_projects(alloc, known)? {
        return Ok(false);
    }
    are_ids_once(alloc, known)
}
