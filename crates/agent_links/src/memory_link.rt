//! Links in memory, for tests.

ghost use Rattle.std.specs.Prelude.{◌≡◌, ◌+◌, ◌-◌, ◌^◌, ◌≤◌, [], IfOk, IsTrue, None, map, min};
ghost use Rattle.keeper_core.specs.Desk.{fresh_ends};
ghost use Rattle.agent_links.specs.MemoryLinks.{ended_of, links_told};

use crate::link::{Link, LinkRefusal};
use keeper_core::{Calls, EndsList, MemorySink, MemorySource};
use net_addr::{Copies, Numbers, OutOfMemory, Text};
use std::alloc::Global;
use std::collections::VecDeque;
use std::marker::Model;

/// A link that was handed back.
#[derive(Drop)]
pub struct DoneLink {
    /// The address that was opened.
    pub address: Text,
    pub input: MemorySource,
    pub output: MemorySink,
}

/// Links in memory. The listed calls of `open` fail, and so does each for which no link is left.
#[derive(Drop)]
pub struct MemoryLink {
    to_come: VecDeque<(MemorySource, MemorySink)>,
    address: Option<Text>,
    done: Vec<DoneLink>,
    calls: Calls,
}

// There is room for the link that is out, so that handing it back allocates nothing.
impl Model for MemoryLink {
    ghost use Rattle.std.specs.Prelude.{◌≡◌, ◌<◌, IsTrue, is_some, map, true, vec_capacity, vec_len};
    ghost use Rattle.keeper_core.specs.Desk.{fresh_ends};
    ghost use Rattle.agent_links.specs.MemoryLinks.{MemoryLinks, ended_of};

    ghost Value = { MemoryLinks };

    ghost view = { λ l.
        record {
          to_come = l.to_come.items;
          ended = map ended_of l.done.items;
          opened = l.address;
          calls = l.calls;
        } };

    ghost invariant = { λ l. (is_some l.address ≡ true → vec_len l.done < vec_capacity l.done)
        × IsTrue (fresh_ends l.to_come.items) };
}

impl MemoryLink {
    /// These links are to come, none of whose ends has failed; the calls of `open` with the listed
    /// numbers, counted from 1, fail.
    pub fn make(alloc: Global, links: EndsList, failing: Numbers) -> Result<MemoryLink, OutOfMemory>
        requires { IsTrue (fresh_ends links) }
        ensures { IfOk result
            (λ l. l
            ≡ record {
              to_come = links;
              ended = [];
              opened = None;
              calls = record { made = 0; failing = failing; faults = 0 };
            }) }
    {
        Ok(MemoryLink {
            to_come: VecDeque::from(links.into_vec()),
            address: None,
            done: Vec::new(alloc),
            calls: Calls::make(failing),
        })
    }

    /// The links that were handed back, in order.
    pub fn ended(&self) -> &[DoneLink]
        ensures { map ended_of result.now ≡ self.now.ended }
    {
        self.done.as_slice()
    }

    /// How many calls failed, those of the links' ends among them.
    pub fn faults(&self) -> u64
        ensures { result ≡ self.now.calls.faults }
    {
        self.calls.faults
    }
}

// Adds faults to a count, up to the most that it holds.
fn add_faults(calls: &mut Calls, more: u64)
    ensures is { calls.new
        ≡ record calls.old { faults = min (calls.old.faults + more) (2 ^ 64 - 1) } }
    ensures later { calls.old.faults ≤ calls.new.faults }
{
    calls.faults = calls.faults.saturating_add(more);
}

impl Link for MemoryLink {
    type In = MemorySource;

    type Out = MemorySink;

    ghost told = { links_told };

    fn open(
        &mut self,
        alloc: Global,
        address: &Text,
    ) -> Result<(MemorySource, MemorySink), LinkRefusal> {
        self.calls.count()?;
        let address = address.copy(alloc)?;
        self.done.reserve(1)?;
        match self.to_come.pop_front() {
            Some(ends) => {
                self.address = Some(address);
                Ok(ends)
            }
            None => {
                add_faults(&mut self.calls, 1);
                Err(LinkRefusal::Failed)
            }
        }
    }

    fn done(&mut self, input: MemorySource, output: MemorySink) {
        add_faults(&mut self.calls, input.faults());
        add_faults(&mut self.calls, output.faults());
        if let Some(address) = self.address.take() {
            self.done.push_reserved(DoneLink {
                address,
                input,
                output,
            });
        }
    }
}
