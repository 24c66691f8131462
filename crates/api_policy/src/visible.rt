//! Which rows a caller sees: one trait, with its rule for each kind.

ghost use Rattle.std.specs.Prelude.{◌≡◌, Bool};
ghost use Rattle.api_types.specs.Lists.{stands_so};
ghost use Rattle.api_types.specs.RowLists.{RowLists};
ghost use Rattle.api_types.specs.declared.call.Caller.{Caller as TheCaller};
ghost use Rattle.api_policy.specs.Visibility.{sees_network, sees_subnet, sees_port, sees_row};
ghost use Rattle.api_policy.specs.Visibility as visibility;

use api_types::{
    Caller, FloatingRow, GroupRow, Id, Keyed, Kind, NetworkRow, PolicyRow, PortRow, RouterRow,
    Rows, RuleRow, SubnetRow, Table,
};
use net_addr::Text;

/// A row that some callers see.
pub trait Visible: Keyed {
    ghost seen: { RowLists → TheCaller → Self → Bool };

    /// Whether the caller sees the row. Its cost grows with the policies, at most.
    fn is_seen(&self, rows: &Rows, caller: &Caller) -> bool
        ensures { result ≡ seen rows.now caller.now self.now };
}

// Whether the caller is an administrator or of this project.
pub(crate) fn is_own(caller: &Caller, project: &Text) -> bool
    ensures { result ≡ visibility.is_own caller.now project.now }
{
    caller.admin || *project == caller.project
}

// Whether the network is there and is the project's.
pub(crate) fn owns_network(rows: &Rows, project: &Text, network: Id) -> bool
    ensures { result ≡ visibility.owns_network rows.now project.now network }
{
    let networks = rows.networks();
    let _own_ids = networks.rows(); // for the proof: no two networks have one id
    match networks.get(network) {
        Some(network) => network.project == *project,
        None => false,
    }
}

// Whether the network is there and is the project's or shared with it.
pub(crate) fn uses_network(rows: &Rows, project: &Text, network: Id) -> bool
    ensures { result ≡ visibility.uses_network rows.now project.now network }
{
    let networks = rows.networks();
    let _own_ids = networks.rows(); // for the proof: no two networks have one id
    match networks.get(network) {
        Some(network) => { network.project == *project || rows.is_shared_with(network.id, project) }
        None => false,
    }
}

impl Visible for NetworkRow {
    ghost seen = { sees_network };

    fn is_seen(&self, rows: &Rows, caller: &Caller) -> bool {
        is_own(caller, &self.project)
            || rows.is_shared_with(self.id, &caller.project)
            || rows.is_external_to(self.id, &caller.project)
    }
}

impl Visible for SubnetRow {
    ghost seen = { sees_subnet };

    fn is_seen(&self, rows: &Rows, caller: &Caller) -> bool {
        is_own(caller, &self.project) || uses_network(rows, &caller.project, self.network)
    }
}

impl Visible for PortRow {
    ghost seen = { sees_port };

    fn is_seen(&self, rows: &Rows, caller: &Caller) -> bool {
        is_own(caller, &self.project) || owns_network(rows, &caller.project, self.network)
    }
}

impl Visible for GroupRow {
    ghost seen = { λ _ caller r. visibility.is_own caller r.project };

    fn is_seen(&self, _rows: &Rows, caller: &Caller) -> bool {
        is_own(caller, &self.project)
    }
}

impl Visible for RuleRow {
    ghost seen = { λ _ caller r. visibility.is_own caller r.project };

    fn is_seen(&self, _rows: &Rows, caller: &Caller) -> bool {
        is_own(caller, &self.project)
    }
}

impl Visible for RouterRow {
    ghost seen = { λ _ caller r. visibility.is_own caller r.project };

    fn is_seen(&self, _rows: &Rows, caller: &Caller) -> bool {
        is_own(caller, &self.project)
    }
}

impl Visible for FloatingRow {
    ghost seen = { λ _ caller r. visibility.is_own caller r.project };

    fn is_seen(&self, _rows: &Rows, caller: &Caller) -> bool {
        is_own(caller, &self.project)
    }
}

impl Visible for PolicyRow {
    ghost seen = { λ _ caller r. visibility.is_own caller r.project };

    fn is_seen(&self, _rows: &Rows, caller: &Caller) -> bool {
        is_own(caller, &self.project)
    }
}

// Whether the row with this id is there and is seen.
fn is_seen_in<R: Visible>(rows: &Rows, caller: &Caller, table: &Table<R>, id: Id) -> bool
    ensures { result ≡ stands_so R.id_of id (R.seen rows.now caller.now) table.now }
{
    let _own_ids = table.rows(); // for the proof: no two rows have one id
    match table.get(id) {
        Some(row) => row.is_seen(rows, caller),
        None => false,
    }
}

/// Whether the row of this kind with this id is there and the caller sees it. Its cost grows with
/// the policies, at most.
pub fn sees(rows: &Rows, caller: &Caller, kind: Kind, id: Id) -> bool
    ensures { result ≡ sees_row rows.now caller.now kind id }
{
    match kind {
        Kind::Project => false,
        Kind::Network => is_seen_in(rows, caller, rows.networks(), id),
        Kind::Subnet => is_seen_in(rows, caller, rows.subnets(), id),
        Kind::Port => is_seen_in(rows, caller, rows.ports(), id),
        Kind::Group => is_seen_in(rows, caller, rows.groups(), id),
        Kind::Rule => is_seen_in(rows, caller, rows.rules(), id),
        Kind::Router => is_seen_in(rows, caller, rows.routers(), id),
        Kind::Floating => is_seen_in(rows, caller, rows.floatings(), id),
        Kind::Policy => is_seen_in(rows, caller, rows.policies(), id),
    }
}
