//! The row that an id names, among those that the caller sees.

ghost use Rattle.std.specs.Prelude.{◌≡◌, filter, option_copied};
ghost use Rattle.api_types.specs.Refusing.{at_name};
ghost use Rattle.api_policy.specs.Seen as seen;

use crate::visible::Visible;
use api_types::{
    Caller, FloatingRow, GroupRow, Id, NetworkRow, PolicyRow, PortRow, RouterRow, Rows, RuleRow,
    SubnetRow, Table,
};

/// The row with this id, where it is there and the caller sees it. Its cost grows with the
/// policies, at most.
pub fn named<'r, R: Visible>(
    rows: &Rows,
    caller: &Caller,
    table: &'r Table<R>,
    id: Option<Id>,
) -> Option<&'r R>
    ensures { option_copied result
        ≡ at_name R.id_of id (filter (R.seen rows.now caller.now) table.now) }
{
    let _own_ids = table.rows(); // for the proof: no two rows have the same id
    let row = table.get(id?)?;
    if row.is_seen(rows, caller) {
        Some(row)
    } else {
        None
    }
}

/// The network with this id that the caller sees. Its cost grows with the policies.
pub fn network_seen<'r>(rows: &'r Rows, caller: &Caller, id: Option<Id>) -> Option<&'r NetworkRow>
    ensures { option_copied result ≡ seen.network_seen rows.now caller.now id }
{
    named(rows, caller, rows.networks(), id)
}

/// The subnet with this id that the caller sees. Its cost grows with the policies.
pub fn subnet_seen<'r>(rows: &'r Rows, caller: &Caller, id: Option<Id>) -> Option<&'r SubnetRow>
    ensures { option_copied result ≡ seen.subnet_seen rows.now caller.now id }
{
    named(rows, caller, rows.subnets(), id)
}

/// The port with this id that the caller sees. Its cost doesn't grow with the rows.
pub fn port_seen<'r>(rows: &'r Rows, caller: &Caller, id: Option<Id>) -> Option<&'r PortRow>
    ensures { option_copied result ≡ seen.port_seen rows.now caller.now id }
{
    named(rows, caller, rows.ports(), id)
}

/// The security group with this id that the caller sees. Its cost doesn't grow with the
/// rows.
pub fn group_seen<'r>(rows: &'r Rows, caller: &Caller, id: Option<Id>) -> Option<&'r GroupRow>
    ensures { option_copied result ≡ seen.group_seen rows.now caller.now id }
{
    named(rows, caller, rows.groups(), id)
}

/// The security group's rule with this id that the caller sees. Its cost doesn't grow with the
/// rows.
pub fn rule_seen<'r>(rows: &'r Rows, caller: &Caller, id: Option<Id>) -> Option<&'r RuleRow>
    ensures { option_copied result ≡ seen.rule_seen rows.now caller.now id }
{
    named(rows, caller, rows.rules(), id)
}

/// The router with this id that the caller sees. Its cost doesn't grow with the rows.
pub fn router_seen<'r>(rows: &'r Rows, caller: &Caller, id: Option<Id>) -> Option<&'r RouterRow>
    ensures { option_copied result ≡ seen.router_seen rows.now caller.now id }
{
    named(rows, caller, rows.routers(), id)
}

/// The floating address with this id that the caller sees. Its cost doesn't grow with the
/// rows.
pub fn floating_seen<'r>(rows: &'r Rows, caller: &Caller, id: Option<Id>) -> Option<&'r FloatingRow>
    ensures { option_copied result ≡ seen.floating_seen rows.now caller.now id }
{
    named(rows, caller, rows.floatings(), id)
}

/// The policy with this id that the caller sees. Its cost doesn't grow with the rows.
pub fn policy_seen<'r>(rows: &'r Rows, caller: &Caller, id: Option<Id>) -> Option<&'r PolicyRow>
    ensures { option_copied result ≡ seen.policy_seen rows.now caller.now id }
{
    named(rows, caller, rows.policies(), id)
}
