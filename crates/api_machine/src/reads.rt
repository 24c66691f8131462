//! What shows and lists come to.
ghost use Rattle.std.specs.Prelude.{◌≡◌, IfOk, IfErr, filter};
ghost use Rattle.api_types.specs.Outcome.{Told};
ghost use Rattle.api_types.specs.Printed.{reply_of};
ghost use Rattle.api_machine.specs.Reads.{row_told, rows_listed};
ghost use Rattle.call_parts.specs.Answers.{IsRefusalOf};

use api_policy::{Visible, named};
use api_shown::{ListRefusal, Shows, listed, shown_of};
use api_types::{Answer, IdText, Kind, Query, Refusal, RowKind};
use call_parts::{Asking, not_found};
use net_addr::Names;
use std::alloc::Global;

/// What the caller is shown of the row of a kind that a text names. Its cost is that of printing.
pub fn show<R: RowKind + Shows + Visible>(
    alloc: Global,
    asking: &Asking<'_>,
    name: &IdText,
    fields: &Names,
) -> Result<Answer, Refusal>
    ensures ok { IfOk result
        (λ a. row_told R.kind_is R.id_of (R.members_of asking.now.state.rows asking.now.caller)
        asking.now.caller name.now fields.now
        (filter (R.seen asking.now.state.rows asking.now.caller)
        (R.list_of asking.now.state.rows)) ≡ Told (reply_of a)) }
    ensures err { IfErr result
        (IsRefusalOf
        (row_told R.kind_is R.id_of (R.members_of asking.now.state.rows asking.now.caller)
        asking.now.caller name.now fields.now
        (filter (R.seen asking.now.state.rows asking.now.caller)
        (R.list_of asking.now.state.rows)))) }
{
    let (rows, caller) = (asking.rows(), asking.caller());
    let Some(row) = named(rows, caller, R::table(rows), name.id) else {
        return Err(not_found(alloc, R::kind(), &name.text));
    };
    Ok(Answer::One(shown_of(alloc, rows, caller, R::kind(), row, fields)?))
}

/// What the caller is listed of a kind. Its cost is that of printing the rows of the kind.
pub fn list(
    alloc: Global,
    asking: &Asking<'_>,
    kind: Kind,
    query: &Query,
) -> Result<Answer, Refusal>
    ensures ok { IfOk result
        (λ a. rows_listed asking.now.state.rows asking.now.caller kind query.now
        ≡ Told (reply_of a)) }
    ensures err { IfErr result
        (IsRefusalOf (rows_listed asking.now.state.rows asking.now.caller kind query.now)) }
{
    match listed(alloc, asking.rows(), asking.caller(), kind, query) {
        Ok(rows) => Ok(Answer::Many { kind, rows }),
        Err(ListRefusal::NoMarker(text)) => Err(not_found(alloc, kind, &text)),
        Err(ListRefusal::OutOfMemory) => Err(Refusal::OutOfMemory),
    }
}
