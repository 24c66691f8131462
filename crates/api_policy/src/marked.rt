//! Ports that stand on networks by leave of an administrator alone.

ghost use Rattle.std.specs.Prelude.{◌≡◌};
ghost use Rattle.api_policy.specs.Marked as marked_specs;

use api_types::{Caller, NetworkRow, Rows};
use net_addr::Text;

/// Whether a project may have ports on the network: it is its own, or is shared with it. Its cost
/// grows with the policies.
pub fn may_use(rows: &Rows, project: &Text, network: &NetworkRow) -> bool
    ensures { result ≡ marked_specs.may_use rows.now project.now network.now }
{
    network.project == *project || rows.is_shared_with(network.id, project)
}

/// Whether a port of the project that the caller makes on the network is marked: the caller is an
/// administrator, and the project may not use the network. Its cost grows with the policies.
pub fn is_marked(rows: &Rows, caller: &Caller, project: &Text, network: &NetworkRow) -> bool
    ensures { result ≡ marked_specs.is_marked rows.now caller.now project.now network.now }
{
    caller.admin && !may_use(rows, project, network)
}
