//! The tags of a host after a change, and whether they stay.

ghost use Rattle.std.specs.Prelude.{◌≡◌, ◌↔◌, ◌⊎◌, ℕ, IfOk, IsTrue, option_copied};
ghost use Rattle.plane_types.specs.NewTags.{new_tags};
ghost use Rattle.plane_types.specs.Realises.{Realises};
ghost use Rattle.table_edits.specs.NumbersSeen.{at_after, at_before};
ghost use Rattle.table_edits.specs.Rewires.{LeadsOn};
ghost use Rattle.l2_delta.specs.TagsStay.{CarriesOn, HasTag, IsAsUp, IsTagged, NetworkStays, PortStays, StaysOn, WasHere};

use api_types::{Change, Id, NetworkRow, PortRow, Rows};
use l2_agent::assign_tags;
use net_addr::{OutOfMemory, Same, Text};
use plane_rows::is_here;
use plane_types::{HostTables, TagMap, Tags};
use std::alloc::Global;
use table_edits::Numbers;

// Rows before and after a change at a host, and the tags that it had.
#[derive(Drop)]
struct Retagging<'r> {
    before: &'r Rows,
    after: &'r Rows,
    host: &'r Text,
    tags: TagMap<'r>,
}

// Whether a port is live on the host after a change, and on this network.
fn stays_here(after: &Rows, host: &Text, network: Id, port: Option<&PortRow>) -> bool
    ensures { IsTrue result ↔ StaysOn after.now host.now network (option_copied port.entry) }
{
    match port {
        Some(port) => is_here(after, host, port) && network == port.network,
        None => false,
    }
}

// Whether these are one network, as up as before and on the same segment.
fn carries_on(old: &NetworkRow, new: Option<&NetworkRow>) -> bool
    ensures { IsTrue result ↔ CarriesOn old.now (option_copied new.entry) }
{
    match new {
        Some(new) => old.id == new.id && old.up == new.up && old.segment.is_same(&new.segment),
        None => false,
    }
}

// Whether a network is as up as before, if it is there before and after.
fn is_as_up(old: Option<&NetworkRow>, new: Option<&NetworkRow>) -> bool
    ensures { IsTrue result ↔ IsAsUp (option_copied old.entry) (option_copied new.entry) }
{
    match (old, new) {
        (Some(old), Some(new)) => old.up == new.up,
        (None, None) | (Some(_), None) | (None, Some(_)) => true,
    }
}

impl<'r> Retagging<'r> {
    // Whether a network had a tag.
    fn has_tag(&self, network: Id) -> bool
        ensures { IsTrue result ↔ HasTag self.now.tags network }
    {
        self.tags.tag_of(network).is_some()
    }

    // Whether a port that was live here stays so, on its network.
    fn was_here(&self, old: Option<&PortRow>, new: Option<&PortRow>) -> bool
        ensures { IsTrue result
            → WasHere self.now.before.now self.now.after.now self.now.host.now
            (option_copied old.entry) (option_copied new.entry) }
    {
        match old {
            Some(old) => {
                !is_here(self.before, self.host, old)
                    || stays_here(self.after, self.host, old.network, new)
            }
            None => true,
        }
    }

    // Whether a port that is live here afterwards is on a network with a tag.
    fn is_tagged(&self, new: Option<&PortRow>) -> bool
        ensures { IsTrue result
            → IsTagged self.now.after.now self.now.host.now self.now.tags
            (option_copied new.entry) }
    {
        match new {
            Some(new) => !is_here(self.after, self.host, new) || self.has_tag(new.network),
            None => true,
        }
    }

    // Whether the tags stay by what becomes of a port.
    fn stay_by_port(&self, old: Option<&PortRow>, new: Option<&PortRow>) -> bool
        ensures { IsTrue result
            → PortStays self.now.before.now self.now.after.now self.now.host.now self.now.tags
            (option_copied old.entry) (option_copied new.entry) }
    {
        self.was_here(old, new) && self.is_tagged(new)
    }

    // Whether the tags stay by what becomes of a network.
    fn stay_by_network(&self, old: Option<&NetworkRow>, new: Option<&NetworkRow>) -> bool
        ensures { IsTrue result
            → NetworkStays self.now.before.now self.now.after.now self.now.tags
            (option_copied old.entry) (option_copied new.entry) }
    {
        let Some(old) = old else {
            return true;
        };
        let before = self.before.networks().get(old.id);
        let after = self.after.networks().get(old.id);
        is_as_up(before, after) && (!self.has_tag(old.id) || carries_on(old, new))
    }

    // Whether the tags stay by all ports that a change names.
    fn stay_by_ports(&self, ports: &Numbers<PortRow>) -> bool
        ensures { IsTrue result
            → (k : ℕ)
            → (at_before ports.now k ≡ at_after ports.now k)
            ⊎ PortStays self.now.before.now self.now.after.now self.now.host.now self.now.tags
            (at_before ports.now k) (at_after ports.now k) }
    {
        for number in ports.named() {
            if !self.stay_by_port(ports.row(*number), ports.row_after(*number)) {
                return false;
            }
        }
        true
    }

    // Whether the tags stay by all networks that a change names.
    fn stay_by_networks(&self, networks: &Numbers<NetworkRow>) -> bool
        ensures { IsTrue result
            → (k : ℕ)
            → (at_before networks.now k ≡ at_after networks.now k)
            ⊎ NetworkStays self.now.before.now self.now.after.now self.now.tags
            (at_before networks.now k) (at_after networks.now k) }
    {
        for number in networks.named() {
            if !self.stay_by_network(networks.row(*number), networks.row_after(*number)) {
                return false;
            }
        }
        true
    }
}

/// The tags of a host after a change. Its cost grows with the items of the change and the old tags,
/// and is that of `assign_tags` if networks or live ports of the host come, go or move.
pub(crate) fn tags_after(
    alloc: Global,
    tables: &HostTables,
    before: &Rows,
    after: &Rows,
    change: &Change,
    host: &Text,
) -> Result<Tags, OutOfMemory>
    requires realised { Realises before.now host.now tables.now.lists }
    requires leads_on { LeadsOn before.now change.now after.now }
    ensures { IfOk result (λ t. t ≡ new_tags after.now host.now tables.now.lists.tags) }
{
    let items = change.as_slice();
    let networks = Numbers::of(alloc, before, items)?;
    let ports = Numbers::of(alloc, before, items)?;
    let retagging = Retagging {
        before,
        after,
        host,
        tags: TagMap::of(alloc, tables.tags())?,
    };
    if retagging.stay_by_networks(&networks) && retagging.stay_by_ports(&ports) {
        return tables.copy_tags(alloc);
    }
    assign_tags(alloc, after, host, tables.tags())
}
