//! Clause 1 for projects: names, ordinals and counts.

ghost use Rattle.std.specs.Prelude.{◌≡◌};
ghost use Rattle.api_types.specs.Rows.{project_id};
ghost use Rattle.api_types.specs.declared.kind.Kind.TheVariants.{Project};
ghost use Rattle.api_check.specs.Broken.{first_place, told_at};
ghost use Rattle.api_clauses.specs.Numbers as numbers;

use crate::broken::{Inconsistent, tell_at};
use api_clauses::is_numbered_project;
use api_types::{ProjectRow, Rows, Shared};

#[tactic(auto, using(crate::proofs::Places::place_here, crate::proofs::Places::place_next, crate::proofs::Places::place_end))]
fn first_misnumbered(projects: &[Shared<ProjectRow>]) -> Option<usize>
    ensures { result ≡ first_place (numbers.project_numbered projects.now) 0 projects.now }
{
    for place in 0..projects.len() {
        if !is_numbered_project(projects, place, &projects[place]) {
            return Some(place);
        }
    }
    None
}

/// Projects that don't stand in their places.
pub(crate) fn broken_project(rows: &Rows) -> Option<Inconsistent>
    ensures { result
        ≡ told_at 1 Project project_id rows.now.projects
        (first_place (numbers.project_numbered rows.now.projects) 0 rows.now.projects) }
{
    let projects = rows.projects().rows();
    tell_at(1, projects, first_misnumbered(projects))
}
