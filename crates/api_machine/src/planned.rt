//! What a call would change, and its answer.
ghost use Rattle.std.specs.Prelude.{◌≡◌, [], IfErr, IfOk, IfSome, None};
ghost use Rattle.api_types.specs.Printed.{NewRow, NoRow, OneRow, reply_of, shown_row};
ghost use Rattle.api_policy.specs.Shown.{shown_as};
ghost use Rattle.api_machine.specs.Plan.{IsDrafted};

use api_shown::{Shows, shown_of};
use api_types::{Answer, Change, Refusal, RowKind, Rows, Shown};
use call_parts::{Asking, Draft, PlannedRow};
use net_addr::{Names, OutOfMemory};
use std::alloc::Global;

/// What a call would change, and its answer.
#[derive(Drop)]
pub struct Planned {
    /// None where the call changes nothing.
    pub change: Option<Change>,
    pub answer: Answer,
}

impl Planned {
    /// A plan that changes nothing.
    pub(crate) fn unchanged(answer: Answer) -> Planned
        ensures none { result.change ≡ None }
        ensures answer { reply_of result.answer ≡ reply_of answer }
    {
        Planned {
            change: None,
            answer,
        }
    }

    /// A plan whose change leads to the rows of a draft.
    pub(crate) fn changing(draft: Draft, answer: Answer) -> Result<Planned, OutOfMemory>
        ensures { IfOk result (IsDrafted draft (reply_of answer)) }
    {
        Ok(Planned {
            change: Some(draft.into_change()?),
            answer,
        })
    }
}

// What the caller is shown of a row among these rows.
fn show_row<R: RowKind + Shows>(
    alloc: Global,
    asking: &Asking<'_>,
    rows: &Rows,
    row: &R,
) -> Result<Shown, OutOfMemory>
    ensures { IfOk result
        (λ s. shown_row s
        ≡ shown_as R.kind_is asking.now.caller.admin []
        (R.members_of rows.now asking.now.caller row.now)) }
{
    let fields = Names::new(alloc);
    shown_of(alloc, rows, asking.caller(), R::kind(), row, &fields)
}

// What the caller is shown of a row among the rows that a draft leads to, if no more than the last
// edit has to be put into them, and what is shown says nothing of other rows of its kind.
fn show_early<R: RowKind + Shows>(
    alloc: Global,
    asking: &Asking<'_>,
    draft: &Draft,
    row: &R,
) -> Result<Option<Shown>, OutOfMemory>
    ensures { IfOk result
        (λ o. IfSome o
        (λ s. shown_row s
        ≡ shown_as R.kind_is asking.now.caller.admin []
        (R.members_of draft.now.rows asking.now.caller row.now))) }
{
    if !R::is_apart() {
        return Ok(None);
    }
    match draft.rows_but_of(R::kind()) {
        Some(rows) => Ok(Some(show_row(alloc, asking, rows, row)?)),
        None => Ok(None),
    }
}

// The same for any draft, which is handed back.
fn show_planned<R: RowKind + Shows>(
    alloc: Global,
    asking: &Asking<'_>,
    draft: Draft,
    row: &R,
) -> Result<(Draft, Shown), OutOfMemory>
    ensures draft { IfOk result (λ p. p.0 ≡ draft) }
    ensures shown { IfOk result
        (λ p. shown_row p.1
        ≡ shown_as R.kind_is asking.now.caller.admin []
        (R.members_of draft.rows asking.now.caller row.now)) }
{
    if let Some(shown) = show_early(alloc, asking, &draft, row)? {
        return Ok((draft, shown));
    }
    let settled = draft.settle(alloc)?;
    let shown = show_row(alloc, asking, settled.rows(), row)?;
    Ok((settled.into_draft(alloc), shown))
}

/// The plan that makes a row, and shows it. Its cost is that of printing.
pub(crate) fn plan_creation<R: RowKind + Shows>(
    alloc: Global,
    asking: &Asking<'_>,
    planned: PlannedRow<R>,
) -> Result<Planned, Refusal>
    ensures ok { IfOk result
        (IsDrafted planned.draft
        (NewRow (shown_as R.kind_is asking.now.caller.admin []
        (R.members_of planned.draft.rows asking.now.caller planned.row)))) }
    ensures err { IfErr result (λ e. e ≡ Refusal.OutOfMemory) }
{
    let PlannedRow { draft, row } = planned;
    let (draft, shown) = show_planned(alloc, asking, draft, &row)?;
    Ok(Planned::changing(draft, Answer::Created(shown))?)
}

/// The plan that changes a row, and shows it. Its cost is that of printing.
pub(crate) fn plan_update<R: RowKind + Shows>(
    alloc: Global,
    asking: &Asking<'_>,
    planned: PlannedRow<R>,
) -> Result<Planned, Refusal>
    ensures ok { IfOk result
        (IsDrafted planned.draft
        (OneRow (shown_as R.kind_is asking.now.caller.admin []
        (R.members_of planned.draft.rows asking.now.caller planned.row)))) }
    ensures err { IfErr result (λ e. e ≡ Refusal.OutOfMemory) }
{
    let PlannedRow { draft, row } = planned;
    let (draft, shown) = show_planned(alloc, asking, draft, &row)?;
    Ok(Planned::changing(draft, Answer::One(shown))?)
}

/// The plan that takes rows out, and shows none.
pub(crate) fn plan_deletion(draft: Draft) -> Result<Planned, OutOfMemory>
    ensures { IfOk result (IsDrafted draft NoRow) }
{
    Planned::changing(draft, Answer::Gone)
}
