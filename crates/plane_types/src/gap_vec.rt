//! A list with a gap in it, at which items come and go without moving others.

ghost use Rattle.std.specs.Prelude.{◌≡◌, ◌+◌, ◌<◌, ◌≤◌, ◌++◌, [], insert, length, remove, reverse, slice_set};

use crate::row_list::RowList;
use crate::spare_vec::SpareVec;
use std::marker::Model;

/// Items of which the last ones may stand aside, the last of all first. An edit moves the gap to
/// its place. So edits from the greatest place to the least move each item aside once at most, and
/// back once, if there is room aside; without room items are put in and taken out where they are.
#[derive(Drop)]
pub(crate) struct GapVec<T> {
    front: SpareVec<T>,
    back: Vec<T>,
}

impl<T> Model for GapVec<T> {
    ghost use Rattle.std.specs.Prelude.{◌-◌, ◌++◌, ◌≤◌, length, reverse};
    ghost use Rattle.plane_types.specs.Spare.{WithSpare};

    ghost Value = { WithSpare T };

    ghost view = { λ a.
        record {
          items = a.front.items ++ reverse a.back.items;
          spare = a.front.spare - length a.back.items;
        } };

    ghost invariant = { λ a. length a.back.items ≤ a.front.spare };
}

// Moves the last item aside, if there is room and the items that stay aren't fewer than so many.
fn step_back<T: Drop>(front: &mut SpareVec<T>, back: &mut Vec<T>, least: usize)
    ensures items { front.new.items ++ reverse back.new.items
        ≡ front.old.items ++ reverse back.old.items }
    ensures room { front.old.spare + length back.new.items
        ≤ front.new.spare + length back.old.items }
    ensures least { least ≤ length front.old.items → least ≤ length front.new.items }
{
    if least < front.len() && back.len() < back.capacity() {
        if let Some(item) = front.pop() {
            match back.push(item) {
                Ok(()) => {}
                Err(_) => unreachable!(),
            }
        }
    }
}

// Moves items aside until no more than so many stay, if there is room for all that go.
fn unwind<T: Drop>(front: &mut SpareVec<T>, back: &mut Vec<T>, least: usize)
    ensures items { front.new.items ++ reverse back.new.items
        ≡ front.old.items ++ reverse back.old.items }
    ensures room { front.old.spare + length back.new.items
        ≤ front.new.spare + length back.old.items }
    ensures least { least ≤ length front.old.items → least ≤ length front.new.items }
{
    let len = front.len();
    if len.saturating_sub(least) <= back.capacity().saturating_sub(back.len()) {
        for _ in least..len {
            step_back(front, back, least);
        }
    }
}

// Moves all items that stand aside back.
fn wind<T: Drop>(front: &mut SpareVec<T>, back: &mut Vec<T>)
    requires { length back.old.items ≤ front.old.spare }
    ensures items { front.new.items ≡ front.old.items ++ reverse back.old.items }
    ensures room { front.old.spare ≤ front.new.spare + length back.old.items }
    ensures none { back.new.items ≡ [] }
{
    while let Some(item) = back.pop() {
        front.add(item);
    }
}

// Moves the gap after so many items, if there is room aside. No item before the gap is lost.
fn move_gap<T: Drop>(front: &mut SpareVec<T>, back: &mut Vec<T>, least: usize)
    requires { length back.old.items ≤ front.old.spare }
    ensures items { front.new.items ++ reverse back.new.items
        ≡ front.old.items ++ reverse back.old.items }
    ensures room { front.old.spare + length back.new.items
        ≤ front.new.spare + length back.old.items }
    ensures reached { length front.new.items < least → back.new.items ≡ [] }
{
    if front.len() < least {
        wind(front, back);
    } else {
        unwind(front, back, least);
    }
}

impl<T: Drop> GapVec<T> {
    /// The items with none aside yet.
    pub(crate) fn of(front: SpareVec<T>, back: Vec<T>) -> GapVec<T>
        requires { back.items ≡ [] }
        ensures items { result.items ≡ front.items }
        ensures spare { result.spare ≡ front.spare }
    {
        GapVec { front, back }
    }

    /// The items in a row.
    pub(crate) fn close(self) -> SpareVec<T>
        ensures items { result.items ≡ self.items }
        ensures spare { self.spare ≤ result.spare }
    {
        let GapVec {
            mut front,
            mut back,
        } = self;
        wind(&mut front, &mut back);
        front
    }

    /// How many items there are.
    pub(crate) fn len(&self) -> usize
        ensures { result ≡ length self.now.items }
    {
        self.front.len() + self.back.len()
    }

    /// Takes the item at a place out.
    #[tactic(auto, using(crate::proofs::GapLemmas::removed, crate::proofs::GapLemmas::in_front))]
    pub(crate) fn take_out(&mut self, place: usize)
        requires { place < length self.old.items }
        ensures items { self.new.items ≡ remove self.old.items place }
        ensures spare { self.old.spare ≤ self.new.spare }
    {
        let _len = self.len(); // for the proof: a place has a next one
        move_gap(&mut self.front, &mut self.back, place + 1);
        self.front.take_out(place);
    }

    /// Puts an item in at a place, or at the end where the place is past it.
    #[tactic(auto, using(crate::proofs::GapLemmas::inserted))]
    pub(crate) fn put(&mut self, place: usize, item: T)
        requires { 0 < self.old.spare }
        ensures items { self.new.items ≡ insert self.old.items place item }
        ensures spare { self.old.spare ≤ self.new.spare + 1 }
    {
        move_gap(&mut self.front, &mut self.back, place);
        self.front.put(place, item);
    }

    /// Puts an item in place of another.
    #[tactic(auto, using(crate::proofs::GapLemmas::replaced, crate::proofs::GapLemmas::in_front))]
    pub(crate) fn set(&mut self, place: usize, item: T)
        requires { place < length self.old.items }
        ensures items { self.new.items ≡ slice_set self.old.items place item }
        ensures spare { self.old.spare ≤ self.new.spare }
    {
        let _len = self.len(); // for the proof: a place has a next one
        move_gap(&mut self.front, &mut self.back, place + 1);
        self.front.set(place, item);
    }
}

impl<T: Drop> RowList for GapVec<T> {
    type Row = T;

    ghost seen = { λ rows. rows };

    fn len(&self) -> usize {
        self.len()
    }

    fn take_out(&mut self, place: usize) {
        self.take_out(place);
    }

    fn put(&mut self, place: usize, row: T) {
        self.put(place, row);
    }

    fn set(&mut self, place: usize, row: T) {
        self.set(place, row);
    }
}
