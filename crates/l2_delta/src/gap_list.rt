//! A list with a gap in it, at which items come and go without moving others.

ghost use Rattle.std.specs.Prelude.{◌≡◌, ◌<◌, ◌≤◌, ◌++◌, ◌∷◌, [], IfOk, OnOk, insert, length, remove, reverse, slice_get};

use net_addr::OutOfMemory;
use std::alloc::Global;
use std::marker::Model;

/// Items of which the last ones may stand aside, the last of all first. An edit moves the gap to
/// its place. So edits from the greatest place to the least move each item aside once at most.
#[derive(Drop)]
pub(crate) struct GapList<T> {
    front: Vec<T>,
    back: Vec<T>,
}

impl<T> Model for GapList<T> {
    ghost use Rattle.std.specs.Prelude.{◌++◌, List, reverse};

    ghost Value = { List T };

    ghost view = { λ a. a.front.items ++ reverse a.back.items };
}

// Moves items aside until no more than so many stay.
fn unwind<T: Drop>(front: &mut Vec<T>, back: &mut Vec<T>, most: usize) -> Result<(), OutOfMemory>
    requires { most ≤ length front.old.items }
    ensures items { OnOk result
        (front.new.items ++ reverse back.new.items ≡ front.old.items ++ reverse back.old.items) }
    ensures reached { OnOk result (length front.new.items ≡ most) }
{
    while front.len() > most {
        if let Some(item) = front.pop() {
            back.push(item)?;
        }
    }
    Ok(())
}

// Moves items back until so many stand before the gap, or until none is aside.
fn wind<T: Drop>(front: &mut Vec<T>, back: &mut Vec<T>, least: usize) -> Result<(), OutOfMemory>
    requires { length front.old.items ≤ least }
    ensures items { OnOk result
        (front.new.items ++ reverse back.new.items ≡ front.old.items ++ reverse back.old.items) }
    ensures most { OnOk result (length front.new.items ≤ least) }
    ensures reached { OnOk result (length front.new.items < least → back.new.items ≡ []) }
{
    while front.len() < least {
        match back.pop() {
            Some(item) => front.push(item)?,
            None => return Ok(()),
        }
    }
    Ok(())
}

// Moves the gap after so many items, or after all where there are fewer.
fn move_gap<T: Drop>(front: &mut Vec<T>, back: &mut Vec<T>, place: usize) -> Result<(), OutOfMemory>
    ensures items { OnOk result
        (front.new.items ++ reverse back.new.items ≡ front.old.items ++ reverse back.old.items) }
    ensures most { OnOk result (length front.new.items ≤ place) }
    ensures reached { OnOk result (length front.new.items < place → back.new.items ≡ []) }
{
    if front.len() > place {
        unwind(front, back, place)
    } else {
        wind(front, back, place)
    }
}

impl<T: Drop> GapList<T> {
    /// These items, with none aside.
    pub(crate) fn of(alloc: Global, front: Vec<T>) -> GapList<T>
        ensures { result ≡ front.items }
    {
        GapList {
            front,
            back: Vec::new(alloc),
        }
    }

    /// The items in a row.
    pub(crate) fn close(self) -> Result<Vec<T>, OutOfMemory>
        ensures { IfOk result (λ v. v.items ≡ self) }
    {
        let GapList {
            mut front,
            mut back,
        } = self;
        while let Some(item) = back.pop() {
            front.push(item)?;
        }
        Ok(front)
    }

    /// Takes the item at a place out, if there is one.
    #[tactic(auto, using(crate::proofs::GapListLemmas::taken))]
    pub(crate) fn take_out(&mut self, place: usize) -> Result<Option<T>, OutOfMemory>
        ensures items { OnOk result (self.new ≡ remove self.old place) }
        ensures gone { IfOk result (λ item. item ≡ slice_get self.old place) }
    {
        move_gap(&mut self.front, &mut self.back, place)?;
        Ok(self.back.pop())
    }

    /// Puts an item in at a place, or at the end where the place is past it.
    #[tactic(auto, using(crate::proofs::GapListLemmas::put_in))]
    pub(crate) fn put(&mut self, place: usize, item: T) -> Result<(), OutOfMemory>
        ensures { OnOk result (self.new ≡ insert self.old place item) }
    {
        move_gap(&mut self.front, &mut self.back, place)?;
        self.front.push(item)?;
        Ok(())
    }
}
