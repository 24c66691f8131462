//! Whether a row, or a project by its name, is there.

ghost use Rattle.std.specs.Prelude.{◌≡◌};
ghost use Rattle.api_types.specs.Lists.{stands};
ghost use Rattle.api_types.specs.Consistent.Named as named;

use api_types::{Id, Keyed, ProjectRow, Shared, Table};
use net_addr::Text;

// Whether a row with this id is there. Its cost doesn't grow with the rows.
#[tactic(auto, using(crate::proofs::Found::found, crate::proofs::Found::not_found))]
pub(crate) fn has<R: Keyed>(table: &Table<R>, id: Id) -> bool
    ensures { result ≡ stands R.id_of id table.now }
{
    match table.get(id) {
        Some(_) => true,
        None => false,
    }
}

// Whether a project of this name is there. Its cost grows with the projects.
pub(crate) fn is_registered(projects: &[Shared<ProjectRow>], name: &Text) -> bool
    ensures { result ≡ named.is_registered projects.now name.now }
{
    projects.iter().any(|project| project.name == *name)
}
