//! What a run has come to so far.

ghost use Rattle.std.specs.Prelude.{◌≡◌, ◌++◌, ◌∷◌, [], OnOk, Some, length, map, option_to_list, slice_get};
ghost use Rattle.dvr_fabric.specs.Positions.{ids_of};
ghost use Rattle.dvr_types.specs.DvrFabric.{name_elsewhere};
ghost use Rattle.plane_types.specs.declared.entry.Entry.{Entry as TheEntry};

use crate::fleet::HostAt;
use crate::path::Passed;
use api_types::Id;
use net_addr::{Copies, Names, OutOfMemory, Seq};
use plane_types::{Fresh, Made};
use std::alloc::Global;

/// What an event has come to so far: the networks and routers that it passed, the entries that it
/// made, the same with the places of the hosts that made them, and the hosts at which it was.
#[derive(Drop)]
pub(crate) struct DvrRun {
    pub(crate) path: Seq<Id>,
    pub(crate) fresh: Fresh,
    pub(crate) made: Seq<Made>,
    pub(crate) hosts: Names,
}

impl DvrRun {
    /// Nothing so far.
    pub(crate) fn new(alloc: Global) -> DvrRun
        ensures path { result.path ≡ [] }
        ensures fresh { result.fresh.items ≡ [] }
        ensures made { result.made ≡ [] }
        ensures hosts { result.hosts ≡ [] }
    {
        DvrRun {
            path: Seq::new(alloc),
            fresh: Fresh::new(alloc),
            made: Seq::new(alloc),
            hosts: Seq::new(alloc),
        }
    }

    /// Adds a network or a router to the path, if there is one.
    pub(crate) fn pass(&mut self, id: Option<Id>) -> Result<(), OutOfMemory>
        ensures path { OnOk result (self.new.path ≡ self.old.path ++ option_to_list id) }
        ensures fresh { self.new.fresh ≡ self.old.fresh }
        ensures made { self.new.made ≡ self.old.made }
        ensures hosts { self.new.hosts ≡ self.old.hosts }
    {
        match id {
            Some(id) => self.path.push(id),
            None => Ok(()),
        }
    }

    /// Adds a host.
    pub(crate) fn add_host(&mut self, alloc: Global, host: &HostAt<'_>) -> Result<(), OutOfMemory>
        ensures hosts { OnOk result (self.new.hosts ≡ self.old.hosts ++ host.now.name.now ∷ []) }
        ensures path { self.new.path ≡ self.old.path }
        ensures fresh { self.new.fresh ≡ self.old.fresh }
        ensures made { self.new.made ≡ self.old.made }
    {
        self.hosts.push(host.name.copy(alloc)?)
    }

    // The event goes from one host to another, or stays.
    fn go_to(
        &mut self,
        alloc: Global,
        from: &HostAt<'_>,
        to: &HostAt<'_>,
    ) -> Result<(), OutOfMemory>
        ensures hosts { OnOk result
            (self.new.hosts
            ≡ self.old.hosts ++ name_elsewhere from.now.name.now to.now.name.now) }
        ensures path { self.new.path ≡ self.old.path }
        ensures fresh { self.new.fresh ≡ self.old.fresh }
        ensures made { self.new.made ≡ self.old.made }
    {
        if *from.name == *to.name {
            return Ok(());
        }
        self.add_host(alloc, to)
    }

    // The entry that the host at this place made, if it made one, is the last.
    fn add_made(&mut self, at: usize) -> Result<(), OutOfMemory>
        ensures made { OnOk result
            (self.new.made
            ≡ self.old.made
            ++ map (λ (e : TheEntry). record { entry = e; host = Some at })
            (option_to_list (slice_get self.old.fresh.items (length self.old.made)))) }
        ensures path { self.new.path ≡ self.old.path }
        ensures fresh { self.new.fresh ≡ self.old.fresh }
        ensures hosts { self.new.hosts ≡ self.old.hosts }
    {
        let place = self.made.len();
        let made = self.fresh.as_slice().get(place).copied();
        match made {
            Some(entry) => self.made.push(Made {
                entry,
                host: Some(at),
            }),
            None => Ok(()),
        }
    }

    /// Adds what came of a step at a host, from which the event goes to the next one.
    pub(crate) fn note(
        &mut self,
        alloc: Global,
        host: &HostAt<'_>,
        next: &HostAt<'_>,
        passed: &Passed,
    ) -> Result<(), OutOfMemory>
        ensures path { OnOk result (self.new.path ≡ self.old.path ++ ids_of passed.now) }
        ensures made { OnOk result
            (self.new.made
            ≡ self.old.made
            ++ map (λ (e : TheEntry). record { entry = e; host = Some host.now.at })
            (option_to_list (slice_get self.old.fresh.items (length self.old.made)))) }
        ensures hosts { OnOk result
            (self.new.hosts
            ≡ self.old.hosts ++ name_elsewhere host.now.name.now next.now.name.now) }
        ensures fresh { self.new.fresh ≡ self.old.fresh }
    {
        self.pass(passed.router)?;
        self.pass(passed.network)?;
        self.add_made(host.at)?;
        self.go_to(alloc, host, next)
    }
}
