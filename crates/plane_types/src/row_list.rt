//! Edits that are put into a list of rows.

ghost use Rattle.std.specs.Prelude.{◌≡◌, ◌+◌, ◌<◌, ◌≤◌, insert, is_some, length, remove, slice_set};
ghost use Rattle.plane_types.specs.Edits.{all_puts, all_writes, one_if, with_edit, with_edits, writes};
ghost use Rattle.plane_types.specs.Spare.{WithSpare};

use crate::delta::{Edit, Edits};
use crate::steps::Steps;
use std::sync::ledger::Ledger;

/// A list of rows into which edits are put without memory.
pub(crate) trait RowList {
    type Row: Drop;

    /// The rows, and how many more are taken in without memory.
    ghost seen: { Self → WithSpare Self.Row };

    /// How many rows there are.
    fn len(&self) -> usize
        ensures { result ≡ length (seen self.now).items };

    /// Takes the row at a place out.
    fn take_out(&mut self, place: usize)
        requires { place < length (seen self.old).items }
        ensures items { (seen self.new).items ≡ remove (seen self.old).items place }
        ensures spare { (seen self.old).spare ≤ (seen self.new).spare };

    /// Puts a row in at a place, or at the end where the place is past it.
    fn put(&mut self, place: usize, row: Self::Row)
        requires { 0 < (seen self.old).spare }
        ensures items { (seen self.new).items ≡ insert (seen self.old).items place row }
        ensures spare { (seen self.old).spare ≤ (seen self.new).spare + 1 };

    /// Puts a row in place of another.
    fn set(&mut self, place: usize, row: Self::Row)
        requires room { 0 < (seen self.old).spare }
        requires within { place < length (seen self.old).items }
        ensures items { (seen self.new).items ≡ slice_set (seen self.old).items place row }
        ensures spare { (seen self.old).spare ≤ (seen self.new).spare + 1 };
}

// Takes the row at a place out, if there is one. It is a step.
#[tactic(auto, using(crate::proofs::RunEdits::remove_past))]
fn take_out<T: RowList, L: Ledger>(rows: &mut T, place: usize, steps: &mut Steps<L>)
    ensures items { (T.seen rows.new).items ≡ remove (T.seen rows.old).items place }
    ensures spare { (T.seen rows.old).spare ≤ (T.seen rows.new).spare }
    ensures steps { steps.new ≡ steps.old + 1 }
{
    steps.tick();
    if place < rows.len() {
        rows.take_out(place);
    }
}

// Puts a row in at a place. It is a step.
fn put_in<T: RowList, L: Ledger>(rows: &mut T, place: usize, row: T::Row, steps: &mut Steps<L>)
    requires { 0 < (T.seen rows.old).spare }
    ensures items { (T.seen rows.new).items ≡ insert (T.seen rows.old).items place row }
    ensures spare { (T.seen rows.old).spare ≤ (T.seen rows.new).spare + 1 }
    ensures steps { steps.new ≡ steps.old + 1 }
{
    steps.tick();
    rows.put(place, row);
}

// Takes the row at a place out, if there is one, and puts another in there. These are two steps.
#[tactic(auto, using(crate::proofs::RunEdits::set_is, crate::proofs::RunEdits::put_past))]
fn exchange<T: RowList, L: Ledger>(rows: &mut T, place: usize, row: T::Row, steps: &mut Steps<L>)
    requires { 0 < (T.seen rows.old).spare }
    ensures items { (T.seen rows.new).items
        ≡ insert (remove (T.seen rows.old).items place) place row }
    ensures spare { (T.seen rows.old).spare ≤ (T.seen rows.new).spare + 1 }
    ensures steps { steps.new ≡ steps.old + 2 }
{
    steps.tick();
    steps.tick();
    if place < rows.len() {
        rows.set(place, row);
    } else {
        rows.put(place, row);
    }
}

// Puts an edit in.
fn apply_edit<T: RowList, L: Ledger>(rows: &mut T, edit: Edit<T::Row>, steps: &mut Steps<L>)
    requires { one_if (is_some edit.put) ≤ (T.seen rows.old).spare }
    ensures items { (T.seen rows.new).items ≡ with_edit (T.seen rows.old).items edit }
    ensures spare { (T.seen rows.old).spare ≤ (T.seen rows.new).spare + one_if (is_some edit.put) }
    ensures steps { steps.new ≡ steps.old + writes edit }
{
    let Edit { place, out, put } = edit;
    match put {
        Some(row) => {
            if out {
                exchange(rows, place, row, steps);
            } else {
                put_in(rows, place, row, steps);
            }
        }
        None => {
            if out {
                take_out(rows, place, steps);
            }
        }
    }
}

/// Puts edits in, one after the other. Each row that is taken out and each that is put in is a
/// step. It allocates nothing. Its cost grows with the edits, and with the rows after each place.
pub(crate) fn apply_edits<T: RowList, L: Ledger>(
    rows: &mut T,
    edits: Edits<T::Row>,
    steps: &mut Steps<L>,
)
    requires { all_puts edits ≤ (T.seen rows.old).spare }
    ensures items { (T.seen rows.new).items ≡ with_edits (T.seen rows.old).items edits }
    ensures spare { (T.seen rows.old).spare ≤ (T.seen rows.new).spare + all_puts edits }
    ensures steps { steps.new ≡ steps.old + all_writes edits }
{
    for edit in edits.into_vec() {
        apply_edit(rows, edit, steps);
    }
}
