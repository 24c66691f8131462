//! What a run has come to so far, with the hosts that made its entries.

ghost use Rattle.std.specs.Prelude.{◌≡◌, ◌≤◌, ◌++◌, [], ℕ, IfOk, OnOk, Some, length, map, option_to_list, slice_get};
ghost use Rattle.plane_types.specs.declared.entry.Entry.{Entry as TheEntry};

use crate::fleet::HostAt;
use api_types::Id;
use net_addr::{Copies, OutOfMemory, Seq};
use plane_types::{Fresh, Made, TrailItem};
use std::alloc::Global;

/// What an event has come to so far: the networks and routers that it passed, the entries that it
/// made, the same with the places of the hosts that made them, and the hosts and tags of its trail.
#[derive(Drop)]
pub(crate) struct Run {
    pub(crate) path: Seq<Id>,
    pub(crate) fresh: Fresh,
    pub(crate) made: Seq<Made>,
    pub(crate) trail: Seq<TrailItem>,
}

/// What a look-up adds to a run, beside the entry that it makes.
#[derive(Clone, Copy)]
pub(crate) struct Added {
    /// The router that sent the packet on.
    pub(crate) router: Option<Id>,
    /// The network on which it did.
    pub(crate) network: Option<Id>,
    /// The tag under which the frame is at the host.
    pub(crate) tag: Option<u16>,
}

impl Run {
    /// Nothing so far, with room for 258 entries.
    pub(crate) fn begin(alloc: Global) -> Result<Run, OutOfMemory>
        ensures { IfOk result
            (λ run. (run.path ≡ []) × (run.fresh.items ≡ []) × (run.made ≡ []) × (run.trail ≡ [])
            × (258 ≤ run.fresh.spare)) }
    {
        let mut fresh = Fresh::new(alloc);
        fresh.reserve(258)?;
        Ok(Run {
            path: Seq::new(alloc),
            fresh,
            made: Seq::new(alloc),
            trail: Seq::new(alloc),
        })
    }

    /// Adds a network or a router to the path, where there is one.
    pub(crate) fn pass(&mut self, id: Option<Id>) -> Result<(), OutOfMemory>
        ensures path { OnOk result (self.new.path ≡ self.old.path ++ option_to_list id) }
        ensures fresh { self.new.fresh ≡ self.old.fresh }
        ensures made { self.new.made ≡ self.old.made }
        ensures trail { self.new.trail ≡ self.old.trail }
    {
        match id {
            Some(id) => self.path.push(id),
            None => Ok(()),
        }
    }

    fn add_trail(
        &mut self,
        alloc: Global,
        host: &HostAt<'_>,
        tag: Option<u16>,
    ) -> Result<(), OutOfMemory>
        ensures trail { OnOk result
            (self.new.trail
            ≡ self.old.trail
            ++ map (λ (t : ℕ). record { host = host.now.name.now; tag = t })
            (option_to_list tag)) }
        ensures fresh { self.new.fresh ≡ self.old.fresh }
        ensures path { self.new.path ≡ self.old.path }
        ensures made { self.new.made ≡ self.old.made }
    {
        let Some(tag) = tag else {
            return Ok(());
        };
        let host = host.name.copy(alloc)?;
        self.trail.push(TrailItem { host, tag })
    }

    // The entry that the host at this place made, where it made one, is the last.
    fn add_made(&mut self, at: usize) -> Result<(), OutOfMemory>
        ensures made { OnOk result
            (self.new.made
            ≡ self.old.made
            ++ map (λ (e : TheEntry). record { entry = e; host = Some at })
            (option_to_list (slice_get self.old.fresh.items (length self.old.made)))) }
        ensures fresh { self.new.fresh ≡ self.old.fresh }
        ensures path { self.new.path ≡ self.old.path }
        ensures trail { self.new.trail ≡ self.old.trail }
    {
        let place = self.made.len();
        let made = self.fresh.as_slice().get(place).copied();
        match made {
            Some(entry) => self.made.push(Made {
                entry,
                host: Some(at),
            }),
            None => Ok(()),
        }
    }

    /// Adds what a look-up at a host added.
    pub(crate) fn note(
        &mut self,
        alloc: Global,
        at: usize,
        host: &HostAt<'_>,
        added: &Added,
    ) -> Result<(), OutOfMemory>
        ensures path { OnOk result
            (self.new.path
            ≡ self.old.path
            ++ (option_to_list added.now.router ++ option_to_list added.now.network)) }
        ensures made { OnOk result
            (self.new.made
            ≡ self.old.made
            ++ map (λ (e : TheEntry). record { entry = e; host = Some at })
            (option_to_list (slice_get self.old.fresh.items (length self.old.made)))) }
        ensures trail { OnOk result
            (self.new.trail
            ≡ self.old.trail
            ++ map (λ (t : ℕ). record { host = host.now.name.now; tag = t })
            (option_to_list added.now.tag)) }
        ensures fresh { self.new.fresh ≡ self.old.fresh }
    {
        self.pass(added.router)?;
        self.pass(added.network)?;
        self.add_made(at)?;
        self.add_trail(alloc, host, added.tag)
    }
}
