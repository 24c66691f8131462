//! Changes that leave the tables of all hosts as they are.

ghost use Rattle.std.specs.Prelude.{◌≡◌, ◌↔◌, IsTrue, option_and_then, option_copied};
ghost use Rattle.api_types.specs.Parts.{network_of};
ghost use Rattle.api_types.specs.declared.kind.Kind.TheVariants.{Network as NetworkKind};
ghost use Rattle.agent_node.specs.Still.{AreStill, CarriesOn, IsStill, no_edits as no_edit};

use api_types::{Item, Kind, NetworkRow, Row, RowKind};
use net_addr::{Same, Seq};
use plane_types::{Delta, L2Delta, L3Delta, LeaseDelta};
use std::alloc::Global;

// The network that this is, if there is one.
fn network_in(row: &Option<Row>) -> Option<&NetworkRow>
    ensures { option_copied result ≡ option_and_then network_of row.now }
{
    match row {
        Some(row) => NetworkRow::part(row),
        None => None,
    }
}

fn is_of_network(item: &Item) -> bool
    ensures { IsTrue result ↔ (item.now.kind ≡ NetworkKind) }
{
    item.kind == Kind::Network
}

// Whether a network is there before and after, as up and on its segment.
fn carries_on(old: Option<&NetworkRow>, new: Option<&NetworkRow>) -> bool
    ensures { IsTrue result ↔ CarriesOn (option_copied old.entry) (option_copied new.entry) }
{
    match (old, new) {
        (Some(old), Some(new)) => old.up == new.up && old.segment.is_same(&new.segment),
        (None, None) | (None, Some(_)) | (Some(_), None) => false,
    }
}

// Whether an item changes a network, and leaves it as up and on its segment.
fn is_still(item: &Item) -> bool
    ensures { IsTrue result → IsStill item.now }
{
    is_of_network(item) && carries_on(network_in(&item.before), network_in(&item.after))
}

/// Whether all items change networks, and leave them as up and on their segments. Its cost grows
/// with the items.
pub(crate) fn are_still(items: &[Item]) -> bool
    ensures { IsTrue result → AreStill items.now }
{
    for item in items {
        if !is_still(item) {
            return false;
        }
    }
    true
}

/// No edit of any table, and no tags, since no other delta is made by them. It allocates nothing.
pub(crate) fn no_edits(alloc: Global) -> Delta
    ensures { result ≡ no_edit }
{
    let l2 = L2Delta {
        tags: Seq::new(alloc),
        tag_edits: Seq::new(alloc),
        taps: Seq::new(alloc),
        filters: Seq::new(alloc),
        sets: Seq::new(alloc),
        bridge: Seq::new(alloc),
        inward: Seq::new(alloc),
        neighbours: Seq::new(alloc),
    };
    let l3 = L3Delta {
        routers: Seq::new(alloc),
        routes: Seq::new(alloc),
        floats: Seq::new(alloc),
    };
    let dhcp = LeaseDelta {
        leases: Seq::new(alloc),
    };
    Delta { l2, l3, dhcp }
}
