//! What a caller is told of the row that uses another one.

ghost use Rattle.std.specs.Prelude.{◌≡◌, option_copied, option_map};
ghost use Rattle.api_policy.specs.Checks.{IsAnswerOf};
ghost use Rattle.api_policy.specs.Uses as uses;

use crate::visible::sees;
use api_types::{Caller, Id, Kind, PortRow, Refusal, Rows, Shared, UseRule};

// The row that uses another one, where the caller sees it.
pub(crate) fn told_user(
    rows: &Rows,
    caller: &Caller,
    user: Option<(Kind, Id)>,
) -> Option<(Kind, Id)>
    ensures { result ≡ uses.told_user rows.now caller.now user }
{
    let (kind, id) = user?;
    if sees(rows, caller, kind, id) {
        Some((kind, id))
    } else {
        None
    }
}

// The refusal for a row that the port uses.
pub(crate) fn used_by_port(
    rows: &Rows,
    caller: &Caller,
    rule: UseRule,
    kind: Kind,
    id: Id,
    port: &PortRow,
) -> Refusal
    ensures { result ≡ uses.used_by_port rows.now caller.now rule kind id port.now }
{
    Refusal::InUse {
        rule,
        kind,
        id,
        by: told_user(rows, caller, Some((Kind::Port, port.id))),
    }
}

// Refuses where a port uses the row.
pub(crate) fn ensure_unused(
    rows: &Rows,
    caller: &Caller,
    rule: UseRule,
    kind: Kind,
    id: Id,
    user: Option<&Shared<PortRow>>,
) -> Result<(), Refusal>
    ensures { IsAnswerOf
        (option_map (uses.used_by_port rows.now caller.now rule kind id)
        (option_copied user.entry)) result }
{
    match user {
        Some(port) => Err(used_by_port(rows, caller, rule, kind, id, port)),
        None => Ok(()),
    }
}
