//! The connections of a desk in memory: to come, out, and handed back.

ghost use Rattle.std.specs.Prelude.{◌≡◌, Some, [], IsTrue, IfErr, IfOk, IfSome, option_map};
ghost use Rattle.keeper_core.specs.Counts.{IsWant};
ghost use Rattle.keeper_core.specs.Desk.{AreFresh, Comes, IsReturned, are_fresh, out_after};

use crate::refusal::DeskRefusal;
use crate::sink::Sink;
use crate::source::Source;
use net_addr::Seq;
use std::alloc::Global;
use std::collections::VecDeque;
use std::marker::Model;

/// The connections of a desk in memory.
#[derive(Drop)]
pub struct Connections<I: Source, O: Sink> {
    to_come: VecDeque<(I, O)>,
    ended: Vec<(I, O)>,
    out: usize,
    told: bool,
}

// There is room for each connection that is out, so that handing it back allocates nothing. Where
// one comes that never was out, and there is no room for it, those that came back are told no
// more.
impl<I: Source, O: Sink> Model for Connections<I, O> {
    ghost use Rattle.std.specs.Prelude.{List, Option, ◌+◌, ◌≤◌, Some, None, IsTrue, if◌then◌else◌, vec_len, vec_capacity};
    ghost use Rattle.keeper_core.specs.Desk.{Returned, are_fresh};

    ghost Value = { List (I × O) × Option (Returned (I × O)) };

    ghost view = { λ c. (
      c.to_come.items,
      if c.told then Some (record { ended = c.ended.items; out = c.out }) else None,
    ) };

    ghost invariant = { λ c. (vec_len c.ended + c.out ≤ vec_capacity c.ended)
        × IsTrue (are_fresh I.told O.told c.to_come.items) };
}

impl<I: Source, O: Sink> Connections<I, O> {
    /// These connections are to come.
    pub fn make(alloc: Global, to_come: Seq<(I, O)>) -> Connections<I, O>
        requires { IsTrue (are_fresh I.told O.told to_come) }
        ensures { result ≡ (to_come, Some (record { ended = []; out = 0 })) }
    {
        Connections {
            to_come: VecDeque::from(to_come.into_vec()),
            ended: Vec::new(alloc),
            out: 0,
            told: true,
        }
    }

    /// The connections that were handed back, where they are told.
    pub fn ended(&self) -> Option<&[(I, O)]>
        ensures { option_map (λ ended. ended.now) result
            ≡ option_map (λ returned. returned.ended) self.now.1 }
    {
        if self.told {
            Some(self.ended.as_slice())
        } else {
            None
        }
    }

    /// The next connection, or nothing changes.
    pub fn next(&mut self) -> Result<Option<(I, O)>, DeskRefusal>
        ensures fresh { IfOk result (λ next. IfSome next (λ pair.
            AreFresh (I.told pair.0) (O.told pair.1))) }
        ensures to_come { Comes result (Some self.old.0) (Some self.new.0) }
        ensures returned { self.new.1 ≡ out_after result self.old.1 }
        ensures sure { IfErr result IsWant }
    {
        let Some(out) = self.out.checked_add(1) else {
            return Err(DeskRefusal::OutOfMemory);
        };
        self.ended.reserve(out)?;
        let Some(pair) = self.to_come.pop_front() else {
            return Ok(None);
        };
        self.out = out;
        Ok(Some(pair))
    }

    /// Takes back a connection. It allocates nothing.
    pub fn take_back(&mut self, input: I, output: O)
    where
        I: Drop,
        O: Drop,
        ensures to_come { self.new.0 ≡ self.old.0 }
        ensures returned { IsReturned self.old.1 (input, output) self.new.1 }
    {
        if self.ended.len() < self.ended.capacity() {
            self.out = self.out.saturating_sub(1);
            self.ended.push_reserved((input, output));
        } else {
            self.told = false;
        }
    }
}
