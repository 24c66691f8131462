//! Projects in their places, and ids that were drawn and are nobody else's.

ghost use Rattle.std.specs.Prelude.{◌≡◌, ◌≤◌, ◌<◌, nat_le, length, count_by};
ghost use Rattle.api_types.specs.Registration.{is_named};
ghost use Rattle.api_types.specs.Lists.{times};
ghost use Rattle.api_types.specs.Consistent.Numbered as numbered;
ghost use Rattle.api_clauses.specs.Numbers as numbers;

use crate::clause::Clause;
use api_types::{Id, Keyed, ProjectRow, RowKind, Rows, Shared, Table};
use net_addr::Text;
use std::marker::PhantomData;

fn is_name_once(projects: &[Shared<ProjectRow>], name: &Text) -> bool
    ensures { result ≡ nat_le (count_by (is_named name.now) projects.now) 1 }
{
    projects.iter().filter(|other| other.name == *name).count() <= 1
}

/// Whether a project stands in its place: the k-th, counted from 0, has the ordinal k + 1, which
/// has 32 bits, a count below 2^62, and a name that isn't empty and that no other has. Its cost
/// grows with the projects.
pub fn is_numbered_project(
    projects: &[Shared<ProjectRow>],
    place: usize,
    project: &ProjectRow,
) -> bool
    requires { place < length projects.now }
    ensures { result ≡ numbers.project_numbered projects.now place project.now }
{
    u64::from(project.ordinal) == place as u64 + 1
        && (project.count < 0x4000_0000_0000_0000
            && (is_name_once(projects, &project.name)
                && (place as u64 + 1 < 0x1_0000_0000 && !project.name.is_empty())))
}

// How often an id is in a table. Its cost doesn't grow with the rows.
#[tactic(auto, using(crate::proofs::Found::found_once, crate::proofs::Found::found_never))]
fn times_in<R: Keyed>(table: &Table<R>, id: Id) -> u8
    ensures times { result ≡ times R.id_of id table.now }
    ensures once { result ≤ 1 }
{
    let _ = table.rows();
    match table.get(id) {
        Some(_) => 1,
        None => 0,
    }
}

fn times_in_all(rows: &Rows, id: Id) -> u8
    ensures { result ≡ numbered.times_in rows.now id }
{
    times_in(rows.networks(), id)
        + times_in(rows.subnets(), id)
        + times_in(rows.ports(), id)
        + times_in(rows.groups(), id)
        + times_in(rows.rules(), id)
        + times_in(rows.routers(), id)
        + times_in(rows.floatings(), id)
        + times_in(rows.policies(), id)
}

fn is_drawn(projects: &[Shared<ProjectRow>], id: Id) -> bool
    ensures { result ≡ numbered.is_drawn projects.now id }
{
    projects.iter().any(|project| {
        project.ordinal == id.ordinal() && 1 <= id.count() && id.count() <= project.count
    })
}

fn is_numbered(rows: &Rows, id: Id) -> bool
    ensures { result ≡ numbers.is_numbered rows.now id }
{
    times_in_all(rows, id) <= 1 && is_drawn(rows.projects().rows(), id)
}

/// The id of a row, of any kind but a project, is no other row's and was drawn: a project has its
/// ordinal and a count that is not below its own. The cost grows with the projects.
pub struct Numbered<R: RowKind>(PhantomData<R>);

impl<R: RowKind> Clause for Numbered<R> {
    type Row = R;

    const RULE: u8 = 1;

    ghost RULE = { 1 };

    ghost test = { λ rows r. numbers.is_numbered rows (R.id_of r) };

    fn meets(rows: &Rows, row: &R) -> bool {
        is_numbered(rows, row.id())
    }
}
