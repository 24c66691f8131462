//! Rows in their order, with the part of the list in which the rows of a key stand.

ghost use Rattle.std.specs.Prelude.{◌≡◌, ◌+◌, ◌-◌, ◌^◌, ◌<◌, ◌≤◌, ℕ, IfOk, None, OnOk, Some, false, find, if◌then◌else◌, length, option_copied};
ghost use Rattle.std.specs.HashMap.{get, spare};
ghost use Rattle.std.specs.List.{filter, list_any};
ghost use Rattle.plane_types.specs.Edits.{all_puts, all_writes, with_edits};
ghost use Rattle.plane_types.specs.Runs.{IsRunOf, run_with};

use crate::delta::Edits;
use crate::keyed::Keyed;
use crate::open_runs::OpenRuns;
use crate::row_list::apply_edits;
use crate::run::Run;
use crate::spare_vec::SpareVec;
use crate::steps::Steps;
use net_addr::OutOfMemory;
use std::alloc::Global;
use std::collections::HashMap;
use std::hash::Hash;
use std::marker::Model;
use std::mem;
use std::sync::ledger::Ledger;

/// Rows in their order, of which those with a key are found by it. Contracts see the rows with
/// their spare.
///
/// Beside the list stands a map from each key to a run: the part of the list that begins with the
/// first row of the key and ends with the last one, as it was when the runs were made. Since then
/// each row that was put in moved a run's end by one at most, and each that was taken out its
/// start: a run is read as wide as that.
pub(crate) struct Runs<R: Keyed> {
    pub(crate) rows: SpareVec<R>,
    pub(crate) runs: HashMap<R::Key, Run>,
    // how many rows were put in before the end, and taken out, since the runs were made
    pub(crate) wide: usize,
    pub(crate) lost: usize,
}

impl<R: Keyed> Model for Runs<R> {
    ghost use Rattle.std.specs.Prelude.{min};
    ghost use Rattle.std.specs.HashMap.{get, spare};
    ghost use Rattle.plane_types.specs.Spare.{WithSpare};
    ghost use Rattle.plane_types.specs.Runs.{IsRunOf};

    ghost Value = { WithSpare R };

    ghost view = { λ a. record { items = a.rows.items; spare = min a.rows.spare (spare a.runs) } };

    ghost invariant = { λ a.
        (k : R.Key) → IsRunOf (R.is_at k) a.rows.items a.wide a.lost (get R.Key.eq a.runs k) };
}

impl<R: Keyed> Drop for Runs<R> {
    fn drop(self) {
        let Runs {
            rows: _,
            runs: _,
            wide: _,
            lost: _,
        } = self;
    }
}

// How many rows may come, and how many go, until the runs are made anew with the next room.
const WIDEST: usize = 64;

// Makes room for the run of one more key.
fn make_room_for_run<K: Eq + Hash + Copy>(runs: &mut HashMap<K, Run>) -> Result<(), OutOfMemory>
    ensures found { (q : K) → get K.eq runs.new q ≡ get K.eq runs.old q }
    ensures spare { OnOk result (0 < spare runs.new) }
{
    runs.reserve(1)?;
    Ok(())
}

// A run that has a place too.
fn stretch(run: Run, place: usize) -> Run
    requires { place < 2 ^ 64 - 1 }
    ensures { result ≡ run_with place (Some run) }
{
    Run {
        start: run.start.min(place),
        end: run.end.max(place + 1),
    }
}

// Makes the run of a key reach over a place, where it has one, and be that place otherwise. It
// allocates nothing.
fn reach<K: Eq + Hash + Copy>(runs: &mut HashMap<K, Run>, key: K, place: usize)
    requires room { 0 < spare runs.old }
    requires within { place < 2 ^ 64 - 1 }
    ensures found { (q : K)
        → get K.eq runs.new q
        ≡ (if K.eq key q
        then Some (run_with place (get K.eq runs.old q))
        else get K.eq runs.old q) }
    ensures spare { spare runs.old ≤ spare runs.new + 1 }
{
    let run = match runs.get(&key) {
        Some(run) => stretch(*run, place),
        None => Run {
            start: place,
            end: place + 1,
        },
    };
    match runs.insert(key, run) {
        Ok(_) => {}
        Err(_) => unreachable!(),
    }
}

// Makes the run of a key, if there is one, reach over a place.
pub(crate) fn take_in<K: Eq + Hash + Copy>(runs: &mut HashMap<K, Run>, key: Option<K>, place: usize)
    requires room { 0 < spare runs.old }
    requires within { place < 2 ^ 64 - 1 }
    ensures found { (q : K)
        → get K.eq runs.new q
        ≡ (if elim key [ None ↦ false | Some own ↦ K.eq own q ]
        then Some (run_with place (get K.eq runs.old q))
        else get K.eq runs.old q) }
    ensures spare { spare runs.old ≤ spare runs.new + 1 }
{
    if let Some(key) = key {
        reach(runs, key, place);
    }
}

// How many there are.
fn count<R: Drop>(rows: &[R]) -> usize
    ensures len { result ≡ length rows.now }
    ensures fits { length rows.now < 2 ^ 64 }
{
    rows.len()
}

// A run as it is now, cut to a list.
fn part_of(run: Run, wide: usize, lost: usize, len: usize) -> Run
    requires { run.start ≤ run.end }
    ensures low { result.start ≤ run.start - lost }
    ensures order { result.start ≤ result.end }
    ensures within { result.end ≤ len }
    ensures reaches { (n : ℕ) → n ≤ len → n ≤ run.end + wide → n ≤ result.end }
{
    let start = run.start.saturating_sub(lost);
    let end = run.end.saturating_add(wide);
    if end < len {
        Run { start, end }
    } else if start < len {
        Run { start, end: len }
    } else {
        Run {
            start: len,
            end: len,
        }
    }
}

// The run of each key.
fn runs_of<R: Keyed>(alloc: Global, rows: &[R]) -> Result<HashMap<R::Key, Run>, OutOfMemory>
    ensures { IfOk result
        (λ m. (k : R.Key) → IsRunOf (R.is_at k) rows.now 0 0 (get R.Key.eq m k)) }
{
    let mut runs = HashMap::new(alloc);
    let _len = count(rows); // for the proof: places are numbers of a word
    for place in 0..rows.len() {
        make_room_for_run(&mut runs)?;
        take_in(&mut runs, rows[place].key(), place);
    }
    Ok(runs)
}

fn has_key<R: Keyed>(row: &R, key: R::Key) -> bool
    ensures { result ≡ R.is_at key row.now }
{
    match row.key() {
        Some(own) => own == key,
        None => false,
    }
}

// The first of these rows with the key.
fn first_at<R: Keyed>(rows: &[R], key: R::Key) -> Option<&R>
    ensures { option_copied result ≡ find (R.is_at key) rows.now }
{
    for row in rows {
        if has_key(row, key) {
            return Some(row);
        }
    }
    None
}

// Whether one of these rows has the key.
fn any_at<R: Keyed>(rows: &[R], key: R::Key) -> bool
    ensures { result ≡ list_any (R.is_at key) rows.now }
{
    for row in rows {
        if has_key(row, key) {
            return true;
        }
    }
    false
}

impl<R: Keyed> Runs<R> {
    /// These rows. Its cost grows with them.
    pub(crate) fn of(alloc: Global, rows: Vec<R>) -> Result<Runs<R>, OutOfMemory>
        ensures { IfOk result (λ a. a.items ≡ rows.items) }
    {
        Ok(Runs {
            runs: runs_of(alloc, &rows)?,
            rows: SpareVec::from_vec(rows),
            wide: 0,
            lost: 0,
        })
    }

    /// All rows.
    pub(crate) fn as_slice(&self) -> &[R]
        ensures { result.now ≡ self.now.items }
    {
        self.rows.as_slice()
    }

    /// How many rows there are.
    pub(crate) fn len(&self) -> usize
        ensures { result ≡ length self.now.items }
    {
        count(self.rows.as_slice())
    }

    /// Rows in their order, among which are all that have the key: from the first to the last of
    /// them, and as many more as rows came and went since the runs were made. Its cost doesn't
    /// grow with the rows.
    pub(crate) fn near(&self, key: R::Key) -> &[R]
        ensures { filter (R.is_at key) result.now ≡ filter (R.is_at key) self.now.items }
    {
        let rows = self.rows.as_slice();
        match self.runs.get(&key) {
            Some(run) => {
                let part = part_of(*run, self.wide, self.lost, rows.len());
                &rows[part.start..part.end]
            }
            None => &[],
        }
    }

    /// The first row with the key. Its cost doesn't grow with the rows.
    #[tactic(auto, using(crate::proofs::RunLemmas::found_near))]
    pub(crate) fn at(&self, key: R::Key) -> Option<&R>
        ensures { option_copied result ≡ find (R.is_at key) self.now.items }
    {
        first_at(self.near(key), key)
    }

    /// Whether a row has the key. Its cost doesn't grow with the rows.
    #[tactic(auto, using(crate::proofs::RunLemmas::any_alike))]
    pub(crate) fn has(&self, key: R::Key) -> bool
        ensures { result ≡ list_any (R.is_at key) self.now.items }
    {
        any_at(self.near(key), key)
    }

    // Makes the runs anew. Its cost grows with the rows.
    fn renew(&mut self, alloc: Global) -> Result<(), OutOfMemory>
        ensures { self.new.items ≡ self.old.items }
    {
        self.runs = runs_of(alloc, self.rows.as_slice())?;
        self.wide = 0;
        self.lost = 0;
        Ok(())
    }

    fn reserve(&mut self, more: usize) -> Result<(), OutOfMemory>
        ensures items { self.new.items ≡ self.old.items }
        ensures spare { OnOk result (more ≤ self.new.spare) }
    {
        self.rows.reserve(more)?;
        self.runs.reserve(more)?;
        Ok(())
    }

    /// Makes room for that many more rows. Its cost grows with the rows after many edits alone.
    pub(crate) fn make_room(&mut self, alloc: Global, more: usize) -> Result<(), OutOfMemory>
        ensures items { self.new.items ≡ self.old.items }
        ensures spare { OnOk result (more ≤ self.new.spare) }
    {
        if self.wide > WIDEST || self.lost > WIDEST {
            self.renew(alloc)?;
        }
        self.reserve(more)
    }

    /// Makes room for that many rows aside, so that `edit` moves rows once.
    pub(crate) fn reserve_aside(&mut self, count: usize) -> Result<(), OutOfMemory>
        ensures { self.new ≡ self.old }
    {
        self.rows.reserve_aside(count)
    }

    // Takes the rows and their runs out, so that edits can be put in.
    fn open(&mut self) -> OpenRuns<R>
        ensures items { result.items ≡ self.old.items }
        ensures spare { self.old.spare ≤ result.spare }
    {
        let alloc = self.rows.alloc();
        let rows = self.rows.open();
        let runs = mem::replace(&mut self.runs, HashMap::new(alloc));
        OpenRuns {
            rows,
            runs,
            wide: self.wide,
            lost: self.lost,
        }
    }

    /// Puts edits in, one after the other. Each row that is taken out and each that is put in is a
    /// step. It allocates nothing. Its cost grows with the edits, and with the rows after the least
    /// place once, if room aside was made; with those after each place otherwise.
    #[tactic(auto, using(crate::proofs::EditLemmas::no_edits, crate::proofs::EditLemmas::no_puts, crate::proofs::EditLemmas::no_writes))]
    pub(crate) fn edit<L: Ledger>(&mut self, edits: Edits<R>, steps: &mut Steps<L>)
        requires { all_puts edits ≤ self.old.spare }
        ensures items { self.new.items ≡ with_edits self.old.items edits }
        ensures spare { self.old.spare ≤ self.new.spare + all_puts edits }
        ensures steps { steps.new ≡ steps.old + all_writes edits }
    {
        if edits.is_empty() {
            return;
        }
        let mut open = self.open();
        apply_edits(&mut open, edits, steps);
        *self = open.close();
    }
}
