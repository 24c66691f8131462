//! A list that shows how much room it has.

ghost use Rattle.std.specs.Prelude.{◌≡◌, ◌+◌, ◌^◌, ◌<◌, ◌≤◌, [], ◌∷◌, ◌++◌, OnOk, insert, length, option_to_list, remove, slice_set};
ghost use Rattle.plane_types.specs.Edits.{all_puts, all_writes, with_edits};

use crate::delta::Edits;
use crate::gap_vec::GapVec;
use crate::row_list::apply_edits;
use crate::steps::Steps;
use net_addr::OutOfMemory;
use std::alloc::Global;
use std::marker::Model;
use std::mem;
use std::sync::ledger::Ledger;

/// Items in a row. Contracts see them with their spare: how many more are taken in without memory.
#[derive(Drop)]
pub struct SpareVec<T> {
    pub(crate) items: Vec<T>,
    // memory in which items stand aside while many edits are put in
    aside: Vec<T>,
}

impl<T> Model for SpareVec<T> {
    ghost use Rattle.std.specs.Prelude.{◌-◌, vec_len, vec_capacity};
    ghost use Rattle.plane_types.specs.Spare.{WithSpare};

    ghost Value = { WithSpare T };

    ghost view = { λ a.
        record { items = a.items.items; spare = vec_capacity a.items - vec_len a.items } };
}

impl<T> SpareVec<T> {
    /// No items, and no promise of a spare.
    pub fn new(alloc: Global) -> SpareVec<T>
        ensures { result.items ≡ [] }
    {
        SpareVec {
            items: Vec::new(alloc),
            aside: Vec::new(alloc),
        }
    }

    /// The items of a `Vec`.
    pub fn from_vec(items: Vec<T>) -> SpareVec<T>
        ensures { result.items ≡ items.items }
    {
        let aside = Vec::new(*items.allocator());
        SpareVec { items, aside }
    }

    /// Makes room for that many more.
    pub fn reserve(&mut self, more: usize) -> Result<(), OutOfMemory>
        ensures items { self.new.items ≡ self.old.items }
        ensures spare { OnOk result (more ≤ self.new.spare) }
    {
        self.items.reserve(more)?;
        Ok(())
    }

    /// Adds an item at the end. It allocates nothing.
    pub fn add(&mut self, item: T)
        requires { 0 < self.old.spare }
        ensures items { self.new.items ≡ self.old.items ++ item ∷ [] }
        ensures spare { self.old.spare ≤ self.new.spare + 1 }
    {
        match self.items.push(item) {
            Ok(()) => {}
            Err(_) => unreachable!(),
        }
    }

    // Puts an item in at a place in the list.
    fn put_within(&mut self, place: usize, item: T)
        requires room { 0 < self.old.spare }
        requires within { place ≤ length self.old.items }
        ensures items { self.new.items ≡ insert self.old.items place item }
        ensures spare { self.old.spare ≤ self.new.spare + 1 }
    {
        match self.items.insert(place, item) {
            Ok(()) => {}
            Err(_) => unreachable!(),
        }
    }

    /// Puts an item in at a place, or at the end where the place is past it. It allocates nothing.
    #[tactic(auto, using(crate::proofs::RunEdits::insert_last))]
    pub(crate) fn put(&mut self, place: usize, item: T)
        requires { 0 < self.old.spare }
        ensures items { self.new.items ≡ insert self.old.items place item }
        ensures spare { self.old.spare ≤ self.new.spare + 1 }
    {
        if place < self.len() {
            self.put_within(place, item);
        } else {
            self.add(item);
        }
    }

    /// How many items there are.
    pub(crate) fn len(&self) -> usize
        ensures len { result ≡ length self.now.items }
        ensures fits { result < 2 ^ 63 }
    {
        self.items.len()
    }

    /// The items.
    pub fn as_slice(&self) -> &[T]
        ensures { result.now ≡ self.now.items }
    {
        self.items.as_slice()
    }
}

impl<T: Drop> SpareVec<T> {
    /// Takes the item at a place out.
    pub(crate) fn take_out(&mut self, place: usize)
        requires { place < length self.old.items }
        ensures items { self.new.items ≡ remove self.old.items place }
        ensures spare { self.old.spare ≤ self.new.spare }
    {
        let _ = self.items.remove(place);
    }

    /// Puts an item in place of another.
    pub(crate) fn set(&mut self, place: usize, item: T)
        requires { place < length self.old.items }
        ensures items { self.new.items ≡ slice_set self.old.items place item }
        ensures spare { self.new.spare ≡ self.old.spare }
    {
        self.items[place] = item;
    }

    /// Takes the last item.
    pub(crate) fn pop(&mut self) -> Option<T>
        ensures items { self.old.items ≡ self.new.items ++ option_to_list result }
        ensures spare { self.new.spare ≡ self.old.spare + length (option_to_list result) }
    {
        self.items.pop()
    }

    /// Where its memory is from.
    pub(crate) fn alloc(&self) -> Global {
        *self.items.allocator()
    }

    /// Makes room aside for that many items, so that `open` can part the list without memory.
    pub(crate) fn reserve_aside(&mut self, count: usize) -> Result<(), OutOfMemory>
        ensures { self.new ≡ self.old }
    {
        self.aside.reserve(count)?;
        Ok(())
    }

    /// Takes the items out, as a list with a gap. What stood aside stays there no longer.
    pub(crate) fn open(&mut self) -> GapVec<T>
        ensures items { result.items ≡ self.old.items }
        ensures spare { self.old.spare ≤ result.spare }
        ensures rest { self.new.items ≡ [] }
    {
        let alloc = self.alloc();
        let items = mem::replace(&mut self.items, Vec::new(alloc));
        let mut aside = mem::replace(&mut self.aside, Vec::new(alloc));
        aside.clear();
        let front = SpareVec {
            items,
            aside: Vec::new(alloc),
        };
        GapVec::of(front, aside)
    }

    /// Puts edits in, as `Runs::edit` does.
    #[tactic(auto, using(crate::proofs::EditLemmas::no_edits, crate::proofs::EditLemmas::no_puts, crate::proofs::EditLemmas::no_writes))]
    pub(crate) fn edit<L: Ledger>(&mut self, edits: Edits<T>, steps: &mut Steps<L>)
        requires { all_puts edits ≤ self.old.spare }
        ensures items { self.new.items ≡ with_edits self.old.items edits }
        ensures spare { self.old.spare ≤ self.new.spare + all_puts edits }
        ensures steps { steps.new ≡ steps.old + all_writes edits }
    {
        if edits.is_empty() {
            return;
        }
        let mut open = self.open();
        apply_edits(&mut open, edits, steps);
        *self = open.close();
    }
}
