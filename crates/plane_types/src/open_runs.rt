//! Rows in their order with their runs, while edits are put in.

ghost use Rattle.std.specs.Prelude.{◌≡◌, ◌+◌, ◌<◌, ◌≤◌, ◌++◌, ◌∷◌, [], insert, length};
ghost use Rattle.plane_types.specs.Runs.{IsOneMore};

use crate::gap_vec::GapVec;
use crate::keyed::Keyed;
use crate::row_list::RowList;
use crate::run::Run;
use crate::runs::{Runs, take_in};
use std::collections::HashMap;
use std::marker::Model;

/// The rows of `Runs` with a gap, and the same runs, which are of all rows, those aside as well.
pub(crate) struct OpenRuns<R: Keyed> {
    pub(crate) rows: GapVec<R>,
    pub(crate) runs: HashMap<R::Key, Run>,
    pub(crate) wide: usize,
    pub(crate) lost: usize,
}

impl<R: Keyed> Model for OpenRuns<R> {
    ghost use Rattle.std.specs.Prelude.{min};
    ghost use Rattle.std.specs.HashMap.{get, spare};
    ghost use Rattle.plane_types.specs.Spare.{WithSpare};
    ghost use Rattle.plane_types.specs.Runs.{IsRunOf};

    ghost Value = { WithSpare R };

    ghost view = { λ a. record { items = a.rows.items; spare = min a.rows.spare (spare a.runs) } };

    ghost invariant = { λ a.
        (k : R.Key) → IsRunOf (R.is_at k) a.rows.items a.wide a.lost (get R.Key.eq a.runs k) };
}

impl<R: Keyed> Drop for OpenRuns<R> {
    fn drop(self) {
        let OpenRuns {
            rows: _,
            runs: _,
            wide: _,
            lost: _,
        } = self;
    }
}

// One more, up to the greatest count.
fn one_more(count: usize) -> usize
    ensures { IsOneMore count result }
{
    count.saturating_add(1)
}

impl<R: Keyed> OpenRuns<R> {
    /// The rows in a row.
    pub(crate) fn close(self) -> Runs<R>
        ensures items { result.items ≡ self.items }
        ensures spare { self.spare ≤ result.spare }
    {
        let OpenRuns {
            rows,
            runs,
            wide,
            lost,
        } = self;
        Runs {
            rows: rows.close(),
            runs,
            wide,
            lost,
        }
    }

    // Adds a row at the end. Runs need not be read wider than before.
    fn add(&mut self, row: R)
        requires { 0 < self.old.spare }
        ensures items { self.new.items ≡ self.old.items ++ row ∷ [] }
        ensures spare { self.old.spare ≤ self.new.spare + 1 }
    {
        let key = row.key();
        let place = self.rows.len();
        self.rows.put(place, row);
        let _len = self.rows.len(); // for the proof: places are numbers of a word
        take_in(&mut self.runs, key, place);
    }

    // Puts a row in at a place in the list.
    fn put_within(&mut self, place: usize, row: R)
        requires room { 0 < self.old.spare }
        requires within { place ≤ length self.old.items }
        ensures items { self.new.items ≡ insert self.old.items place row }
        ensures spare { self.old.spare ≤ self.new.spare + 1 }
    {
        let key = row.key();
        self.rows.put(place, row);
        let _len = self.rows.len(); // for the proof: places are numbers of a word
        take_in(&mut self.runs, key, place);
        self.wide = one_more(self.wide);
    }
}

impl<R: Keyed> RowList for OpenRuns<R> {
    type Row = R;

    ghost seen = { λ rows. rows };

    fn len(&self) -> usize {
        self.rows.len()
    }

    fn take_out(&mut self, place: usize) {
        self.rows.take_out(place);
        self.lost = one_more(self.lost);
    }

    #[tactic(auto, using(crate::proofs::RunEdits::insert_last))]
    fn put(&mut self, place: usize, row: R) {
        if place < self.rows.len() {
            self.put_within(place, row);
        } else {
            self.add(row);
        }
    }

    fn set(&mut self, place: usize, row: R) {
        let key = row.key();
        let _len = self.rows.len(); // for the proof: places are numbers of a word
        self.rows.set(place, row);
        take_in(&mut self.runs, key, place);
    }
}
