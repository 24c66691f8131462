//! Rows that are looked up by their ids.

ghost use Rattle.std.specs.Prelude.{◌≡◌, ◌&&◌, nat_le, true};
ghost use Rattle.api_types.specs.Lists.{stands};
ghost use Rattle.api_types.specs.Consistent.Numbered as numbered;
ghost use Rattle.api_types.specs.Consistent.Named as named;
ghost use Rattle.api_types.specs.Consistent.InForm as in_form;

use api_types::{Id, Keyed, PortRow, ProjectRow, Rows, Shared, Table};
use net_addr::Text;

/// Whether a row with this id is there. Its cost doesn't grow with the rows.
#[tactic(auto, using(crate::proofs::FoundLemmas::is_there, crate::proofs::FoundLemmas::not_there))]
pub(crate) fn has<R: Keyed>(table: &Table<R>, id: Id) -> bool
    ensures { result ≡ stands R.id_of id table.now }
{
    match table.get(id) {
        Some(_) => true,
        None => false,
    }
}

fn is_among(id: Id, project: &ProjectRow) -> bool
    ensures { result ≡ (nat_le 1 id.count && nat_le id.count project.now.count) }
{
    1 <= id.count() && id.count() <= project.count
}

/// Whether a project drew an id. Its cost doesn't grow with the rows.
#[tactic(auto, using(crate::proofs::FoundLemmas::drawer_found, crate::proofs::FoundLemmas::drawer_not_found))]
pub(crate) fn is_drawn(rows: &Rows, id: Id) -> bool
    ensures { result ≡ numbered.is_drawn rows.now.projects id }
{
    let _own_ids = rows.projects().rows();
    match rows.projects().get(Id::make(id.ordinal(), 0)) {
        Some(project) => is_among(id, project),
        None => false,
    }
}

fn is_registered(projects: &[Shared<ProjectRow>], name: &Text) -> bool
    ensures { result ≡ named.is_registered projects.now name.now }
{
    projects.iter().any(|project| project.name == *name)
}

// Whether a project has the name, looked for where the id was drawn.
#[tactic(auto, using(crate::proofs::FoundLemmas::found_any))]
fn is_drawers(rows: &Rows, id: Id, name: &Text) -> bool
    ensures { result ≡ true → named.is_registered rows.now.projects name.now ≡ true }
{
    match rows.projects().get(Id::make(id.ordinal(), 0)) {
        Some(project) => project.name == *name,
        None => false,
    }
}

/// Whether a project of this name is there. Where it drew the id of the row that names it, the cost
/// doesn't grow with the rows.
#[tactic(auto, using(crate::proofs::FoundLemmas::first_or))]
pub(crate) fn has_project(rows: &Rows, id: Id, name: &Text) -> bool
    ensures { result ≡ named.is_registered rows.now.projects name.now }
{
    is_drawers(rows, id, name) || is_registered(rows.projects().rows(), name)
}

/// Whether a network is there and is the project's. Its cost doesn't grow with the rows.
#[tactic(auto, using(crate::proofs::FoundLemmas::found_so, crate::proofs::FoundLemmas::not_found_so))]
pub(crate) fn is_network_of(rows: &Rows, project: &Text, id: Id) -> bool
    ensures { result ≡ in_form.is_network_of rows.now.networks project.now id }
{
    let _own_ids = rows.networks().rows();
    match rows.networks().get(id) {
        Some(network) => network.project == *project,
        None => false,
    }
}

/// Whether a security group is there and is the project's. Its cost doesn't grow with the rows.
#[tactic(auto, using(crate::proofs::FoundLemmas::found_so, crate::proofs::FoundLemmas::not_found_so))]
pub(crate) fn is_group_of(rows: &Rows, project: &Text, id: Id) -> bool
    ensures { result ≡ in_form.is_group_of rows.now.groups project.now id }
{
    let _own_ids = rows.groups().rows();
    match rows.groups().get(id) {
        Some(group) => group.project == *project,
        None => false,
    }
}

/// The id in a port's `device_id`, to look for a row there first.
pub(crate) fn device_id(port: &PortRow) -> Option<Id> {
    Id::read(port.device.as_str().as_bytes())
}
