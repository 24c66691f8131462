//! A change of the rows, as one host sees it.

ghost use Rattle.std.specs.Prelude.{◌≡◌, IfOk};
ghost use Rattle.plane_types.specs.NumberedRows.{row_items};
ghost use Rattle.plane_types.specs.NewTags.{new_tags};
ghost use Rattle.plane_types.specs.Realises.{Realises};
ghost use Rattle.plane_types.specs.TableRows.{tag_of};
ghost use Rattle.api_types.specs.Parts.{port_of};
ghost use Rattle.api_types.specs.declared.kind.Kind.TheVariants.{Port as PortKind};
ghost use Rattle.table_edits.specs.Rewires.{LeadsOn};
ghost use Rattle.touched_rows.specs.LeadsProp.{LeadsOn-prop};

use api_types::{Change, Id, Item, PortRow, Rows};
use net_addr::{OutOfMemory, Text};
use plane_types::{HostTables, TagMap, Tags};
use std::alloc::Global;
use table_edits::Numbers;

/// A change of the rows, as one host sees it: the rows before and after it, and the tags that the
/// host gave to networks and now gives. The tables realise the rows before it, and it leads to
/// those after it.
#[derive(Drop)]
pub struct Rewiring<'r> {
    pub tables: &'r HostTables,
    pub before: &'r Rows,
    pub after: &'r Rows,
    pub items: &'r [Item],
    pub host: &'r Text,
    pub old: TagMap<'r>,
    pub new: TagMap<'r>,
    pub ports: Numbers<'r, PortRow>,
    ghost realised: { Realises before.now host.now tables.now.lists },
    ghost leads_on: { LeadsOn before.now items.now after.now } by { LeadsOn-prop before.now items.now after.now },
    ghost had: { old ≡ tables.now.lists.tags },
    ghost given: { new ≡ new_tags after.now host.now tables.now.lists.tags },
    ghost numbered: { ports
        ≡ record { rows = before.now.ports; items = row_items PortKind port_of items.now } },
}

impl<'r> Rewiring<'r> {
    /// A change at a host that has these tables, for the new tags. Its cost grows with the items
    /// and the tags.
    pub fn of(
        alloc: Global,
        tables: &'r HostTables,
        before: &'r Rows,
        after: &'r Rows,
        change: &'r Change,
        host: &'r Text,
        tags: &'r Tags,
    ) -> Result<Rewiring<'r>, OutOfMemory>
        requires realised { Realises before.now host.now tables.now.lists }
        requires leads_on { LeadsOn before.now change.now after.now }
        requires tags { tags.now ≡ new_tags after.now host.now tables.now.lists.tags }
        ensures tables { IfOk result (λ r. r.tables.now ≡ tables.now) }
        ensures before { IfOk result (λ r. r.before.now ≡ before.now) }
        ensures after { IfOk result (λ r. r.after.now ≡ after.now) }
        ensures items { IfOk result (λ r. r.items.now ≡ change.now) }
        ensures host { IfOk result (λ r. r.host.now ≡ host.now) }
    {
        let items = change.as_slice();
        Ok(Rewiring {
            tables,
            before,
            after,
            items,
            host,
            old: TagMap::of(alloc, tables.tags())?,
            new: TagMap::of(alloc, tags.as_slice())?,
            ports: Numbers::of(alloc, before, items)?,
        })
    }

    /// The tag that the host gave to a network.
    pub fn old_tag(&self, network: Id) -> Option<u16>
        ensures { result ≡ tag_of self.now.old network }
    {
        self.old.tag_of(network)
    }

    /// The tag that the host gives to a network from now on.
    pub fn new_tag(&self, network: Id) -> Option<u16>
        ensures { result ≡ tag_of self.now.new network }
    {
        self.new.tag_of(network)
    }
}
