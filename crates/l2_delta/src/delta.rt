//! Edits of the tables of ports, in order. Begin here.

ghost use Rattle.std.specs.Prelude.{◌≡◌, ◌++◌, IfOk, OnOk, Some, false, nat_lt};
ghost use Rattle.std.specs.HashSet.{contains, keys};
ghost use Rattle.std.specs.List.{filter_map};
ghost use Rattle.api_types.specs.Ident.{Ident};
ghost use Rattle.api_types.specs.Table.{ident_eq, place_of};
ghost use Rattle.api_types.specs.declared.network.NetworkRow.{NetworkRow as TheNetwork};
ghost use Rattle.api_types.specs.declared.port.PortRow.{PortRow as ThePort};
ghost use Rattle.plane_types.specs.KeyedTables.{bridge_order, filter_order, keyed_bridge, keyed_filters, keyed_inward, keyed_neighbours, keyed_sets, keyed_tags, keyed_taps, neighbour_order, set_order};
ghost use Rattle.plane_types.specs.NewTags.{new_tags};
ghost use Rattle.plane_types.specs.NumberedRows.{numbered_rows, numbered_rows_after};
ghost use Rattle.plane_types.specs.Realises.{Realises};
ghost use Rattle.plane_types.specs.TableRows.{bridge_rows, filter_rows, inward_rows, neighbour_rows, set_rows, tap_rows};
ghost use Rattle.table_edits.specs.EditsAt.{KeysDescend, among};
ghost use Rattle.table_edits.specs.NumbersSeen.{at_after, at_before};
ghost use Rattle.table_edits.specs.Rewires.{LeadsOn, Rewires};
ghost use Rattle.table_edits.specs.Untouched.{StaysAlike};
ghost use Rattle.touched_rows.specs.SeesAlike.{SeesAlike};

use crate::bridge::bridge_edits;
use crate::filters::filter_edits;
use crate::neighbours::neighbour_edits;
use crate::retag::tags_after;
use crate::sets::set_edits;
use crate::tags::{inward_edits, tag_edits};
use crate::taps::tap_edits;
use api_types::{Change, FloatingRow, GroupRow, Id, NetworkRow, RouterRow, Rows, RuleRow};
use net_addr::{OutOfMemory, Seq, Text};
use plane_types::{Edits, FilterRow, HostTables, InwardRow, L2Delta, NeighbourRow, SetRow, TagRow};
use std::alloc::Global;
use std::collections::HashSet;
use table_edits::{Numbers, descending};
use touched_rows::{Rewiring, touched_floatings, touched_networks, touched_ports, touched_routers};

// Adds the numbers that these networks had before a change.
fn add_numbers(
    numbers: &mut Vec<usize>,
    networks: &Numbers<NetworkRow>,
    touched: &HashSet<Id>,
) -> Result<(), OutOfMemory>
    ensures { OnOk result
        (numbers.new.items
        ≡ numbers.old.items
        ++ filter_map (λ i. place_of (λ (n : TheNetwork). n.id) i networks.now.rows)
        (keys touched.now)) }
{
    for network in touched {
        if let Some(number) = networks.number(*network) {
            numbers.push(number)?;
        }
    }
    Ok(())
}

// The numbers of the networks that a change touches, from the greatest to the least: those that it
// names, and those among these. Its cost grows with both.
fn numbers_of(
    alloc: Global,
    networks: &Numbers<NetworkRow>,
    touched: &HashSet<Id>,
) -> Result<Vec<usize>, OutOfMemory>
    ensures down { IfOk result (λ ks. KeysDescend nat_lt ks.items) }
    ensures named { IfOk result
        (λ ks. (k : _) → among nat_lt k ks.items ≡ false
        → at_before networks.now k ≡ at_after networks.now k) }
    ensures touched { IfOk result
        (λ ks. (k : _) (w : TheNetwork) → among nat_lt k ks.items ≡ false
        → at_before networks.now k ≡ Some w
        → contains ident_eq touched.now w.id ≡ false) }
{
    let _own_ids = networks.rows(); // for the proof: no two networks have one id
    let mut numbers = Vec::from_slice(alloc, networks.named())?;
    add_numbers(&mut numbers, networks, touched)?;
    descending(alloc, numbers)
}

// The edits of the tables of networks.
#[derive(Drop)]
struct NetworkEdits {
    tags: Edits<TagRow>,
    inward: Edits<InwardRow>,
}

// The edits of tags and of what comes inward, where all networks but these stay alike.
fn network_edits(
    alloc: Global,
    change: &Rewiring,
    touched: &HashSet<Id>,
) -> Result<NetworkEdits, OutOfMemory>
    requires { (n : Ident) → contains ident_eq touched.now n ≡ false
        → StaysAlike change.now.before.now change.now.after.now change.now.old change.now.new n }
    ensures tags { IfOk result
        (λ e. Rewires nat_lt
        (keyed_tags (numbered_rows change.now.before.now) change.now.old)
        (keyed_tags (numbered_rows_after change.now.before.now change.now.items.now)
        change.now.new)
        change.now.tables.now.lists.tags change.now.new e.tags) }
    ensures inward { IfOk result
        (λ e. Rewires nat_lt
        (keyed_inward (numbered_rows change.now.before.now) change.now.old)
        (keyed_inward (numbered_rows_after change.now.before.now change.now.items.now)
        change.now.new)
        change.now.tables.now.lists.inward
        (inward_rows change.now.after.now change.now.new) e.inward) }
{
    let networks: Numbers<NetworkRow> = Numbers::of(alloc, change.before, change.items)?;
    let numbers = numbers_of(alloc, &networks, touched)?;
    let numbers = numbers.as_slice();
    let tags = tag_edits(alloc, change, &networks, numbers)?;
    let inward = inward_edits(alloc, change, &networks, numbers)?;
    Ok(NetworkEdits { tags, inward })
}

// The edits of the tables of groups.
#[derive(Drop)]
struct GroupEdits {
    filters: Edits<FilterRow>,
    sets: Edits<SetRow>,
}

// The edits of filters and sets, at the ports that a change touches.
fn group_edits(alloc: Global, change: &Rewiring, ports: &[usize]) -> Result<GroupEdits, OutOfMemory>
    requires stay { (k : _) → among nat_lt k ports.now ≡ false
        → at_before change.now.ports k ≡ at_after change.now.ports k }
    requires networks { (k : _) (p : ThePort) → among nat_lt k ports.now ≡ false
        → at_before change.now.ports k ≡ Some p
        → SeesAlike change.now.before.now change.now.after.now change.now.old change.now.new p }
    ensures filters { IfOk result
        (λ e. Rewires filter_order
        (keyed_filters (numbered_rows change.now.before.now) change.now.host.now)
        (keyed_filters (numbered_rows_after change.now.before.now change.now.items.now)
        change.now.host.now)
        change.now.tables.now.lists.filters
        (filter_rows change.now.after.now change.now.host.now) e.filters) }
    ensures sets { IfOk result
        (λ e. Rewires set_order
        (keyed_sets (numbered_rows change.now.before.now) change.now.host.now)
        (keyed_sets (numbered_rows_after change.now.before.now change.now.items.now)
        change.now.host.now)
        change.now.tables.now.lists.sets
        (set_rows change.now.after.now (filter_rows change.now.after.now change.now.host.now))
        e.sets) }
{
    let groups: Numbers<GroupRow> = Numbers::of(alloc, change.before, change.items)?;
    let rules: Numbers<RuleRow> = Numbers::of(alloc, change.before, change.items)?;
    let filters = filter_edits(alloc, change, &groups, &rules, ports)?;
    let sets = set_edits(alloc, change, &groups, &filters)?;
    Ok(GroupEdits { filters, sets })
}

// The edits of the neighbours, at the ports that a change touches and at the floating addresses
// that it touches by these.
fn edits_of_neighbours(
    alloc: Global,
    change: &Rewiring,
    ports: &[usize],
) -> Result<Edits<NeighbourRow>, OutOfMemory>
    requires down { KeysDescend nat_lt ports.now }
    requires stay { (k : _) → among nat_lt k ports.now ≡ false
        → at_before change.now.ports k ≡ at_after change.now.ports k }
    requires networks { (k : _) (p : ThePort) → among nat_lt k ports.now ≡ false
        → at_before change.now.ports k ≡ Some p
        → SeesAlike change.now.before.now change.now.after.now change.now.old change.now.new p }
    ensures { IfOk result
        (λ es. Rewires neighbour_order
        (keyed_neighbours (numbered_rows change.now.before.now) change.now.host.now
        change.now.old)
        (keyed_neighbours (numbered_rows_after change.now.before.now change.now.items.now)
        change.now.host.now change.now.new)
        change.now.tables.now.lists.neighbours
        (neighbour_rows change.now.after.now change.now.host.now change.now.new) es) }
{
    let routers: Numbers<RouterRow> = Numbers::of(alloc, change.before, change.items)?;
    let floatings: Numbers<FloatingRow> = Numbers::of(alloc, change.before, change.items)?;
    let by_routers = touched_routers(alloc, change, &routers, ports)?;
    let numbers = touched_floatings(alloc, &floatings, &routers, by_routers.as_slice())?;
    neighbour_edits(alloc, change, ports, &floatings, numbers.as_slice())
}

// The edits for a change as the host sees it. The new tags aren't in it yet.
fn delta_of(alloc: Global, change: &Rewiring, tags: &[TagRow]) -> Result<L2Delta, OutOfMemory>
    requires { change.now.new ≡ tags.now }
    ensures tag_edits { IfOk result
        (λ d. Rewires nat_lt
        (keyed_tags (numbered_rows change.now.before.now) change.now.old)
        (keyed_tags (numbered_rows_after change.now.before.now change.now.items.now)
        change.now.new)
        change.now.tables.now.lists.tags change.now.new d.tag_edits) }
    ensures taps { IfOk result
        (λ d. Rewires nat_lt
        (keyed_taps (numbered_rows change.now.before.now) change.now.host.now change.now.old)
        (keyed_taps (numbered_rows_after change.now.before.now change.now.items.now)
        change.now.host.now change.now.new)
        change.now.tables.now.lists.taps
        (tap_rows change.now.after.now change.now.host.now change.now.new) d.taps) }
    ensures filters { IfOk result
        (λ d. Rewires filter_order
        (keyed_filters (numbered_rows change.now.before.now) change.now.host.now)
        (keyed_filters (numbered_rows_after change.now.before.now change.now.items.now)
        change.now.host.now)
        change.now.tables.now.lists.filters
        (filter_rows change.now.after.now change.now.host.now) d.filters) }
    ensures sets { IfOk result
        (λ d. Rewires set_order
        (keyed_sets (numbered_rows change.now.before.now) change.now.host.now)
        (keyed_sets (numbered_rows_after change.now.before.now change.now.items.now)
        change.now.host.now)
        change.now.tables.now.lists.sets
        (set_rows change.now.after.now (filter_rows change.now.after.now change.now.host.now))
        d.sets) }
    ensures bridge { IfOk result
        (λ d. Rewires bridge_order
        (keyed_bridge (numbered_rows change.now.before.now) change.now.host.now change.now.old)
        (keyed_bridge (numbered_rows_after change.now.before.now change.now.items.now)
        change.now.host.now change.now.new)
        change.now.tables.now.lists.bridge
        (bridge_rows change.now.after.now change.now.host.now change.now.new) d.bridge) }
    ensures inward { IfOk result
        (λ d. Rewires nat_lt
        (keyed_inward (numbered_rows change.now.before.now) change.now.old)
        (keyed_inward (numbered_rows_after change.now.before.now change.now.items.now)
        change.now.new)
        change.now.tables.now.lists.inward
        (inward_rows change.now.after.now change.now.new) d.inward) }
    ensures neighbours { IfOk result
        (λ d. Rewires neighbour_order
        (keyed_neighbours (numbered_rows change.now.before.now) change.now.host.now
        change.now.old)
        (keyed_neighbours (numbered_rows_after change.now.before.now change.now.items.now)
        change.now.host.now change.now.new)
        change.now.tables.now.lists.neighbours
        (neighbour_rows change.now.after.now change.now.host.now change.now.new) d.neighbours) }
{
    let networks = touched_networks(alloc, change, tags)?;
    let ports = touched_ports(alloc, &change.ports, &networks)?;
    let ports = ports.as_slice();
    let NetworkEdits { tags, inward } = network_edits(alloc, change, &networks)?;
    let GroupEdits { filters, sets } = group_edits(alloc, change, ports)?;
    Ok(L2Delta {
        tags: Seq::new(alloc),
        tag_edits: tags,
        taps: tap_edits(alloc, change, ports)?,
        filters,
        sets,
        bridge: bridge_edits(alloc, change, ports)?,
        inward,
        neighbours: edits_of_neighbours(alloc, change, ports)?,
    })
}

/// The edits by which a change leads from the tables that ports give to a host to those that they
/// give after it, and the tags that it gives from then on. Its cost grows with what the change
/// touches, and with the logarithm of the tables.
pub fn ports_delta(
    alloc: Global,
    tables: &HostTables,
    before: &Rows,
    after: &Rows,
    change: &Change,
    host: &Text,
) -> Result<L2Delta, OutOfMemory>
    requires realised { Realises before.now host.now tables.now.lists }
    requires leads_on { LeadsOn before.now change.now after.now }
    ensures tags { IfOk result
        (λ d. d.tags ≡ new_tags after.now host.now tables.now.lists.tags) }
    ensures tag_edits { IfOk result
        (λ d. Rewires nat_lt
        (keyed_tags (numbered_rows before.now) tables.now.lists.tags)
        (keyed_tags (numbered_rows_after before.now change.now) d.tags)
        tables.now.lists.tags d.tags d.tag_edits) }
    ensures taps { IfOk result
        (λ d. Rewires nat_lt
        (keyed_taps (numbered_rows before.now) host.now tables.now.lists.tags)
        (keyed_taps (numbered_rows_after before.now change.now) host.now d.tags)
        tables.now.lists.taps (tap_rows after.now host.now d.tags) d.taps) }
    ensures filters { IfOk result
        (λ d. Rewires filter_order
        (keyed_filters (numbered_rows before.now) host.now)
        (keyed_filters (numbered_rows_after before.now change.now) host.now)
        tables.now.lists.filters (filter_rows after.now host.now) d.filters) }
    ensures sets { IfOk result
        (λ d. Rewires set_order
        (keyed_sets (numbered_rows before.now) host.now)
        (keyed_sets (numbered_rows_after before.now change.now) host.now)
        tables.now.lists.sets
        (set_rows after.now (filter_rows after.now host.now))
        d.sets) }
    ensures bridge { IfOk result
        (λ d. Rewires bridge_order
        (keyed_bridge (numbered_rows before.now) host.now tables.now.lists.tags)
        (keyed_bridge (numbered_rows_after before.now change.now) host.now d.tags)
        tables.now.lists.bridge (bridge_rows after.now host.now d.tags) d.bridge) }
    ensures inward { IfOk result
        (λ d. Rewires nat_lt
        (keyed_inward (numbered_rows before.now) tables.now.lists.tags)
        (keyed_inward (numbered_rows_after before.now change.now) d.tags)
        tables.now.lists.inward (inward_rows after.now d.tags) d.inward) }
    ensures neighbours { IfOk result
        (λ d. Rewires neighbour_order
        (keyed_neighbours (numbered_rows before.now) host.now tables.now.lists.tags)
        (keyed_neighbours (numbered_rows_after before.now change.now) host.now d.tags)
        tables.now.lists.neighbours (neighbour_rows after.now host.now d.tags) d.neighbours) }
{
    let tags = tags_after(alloc, tables, before, after, change, host)?;
    let mut delta = {
        let change = Rewiring::of(alloc, tables, before, after, change, host, &tags)?;
        delta_of(alloc, &change, tags.as_slice())?
    };
    delta.tags = tags;
    Ok(delta)
}
