//! Edits of the tables of a host.

ghost use Rattle.std.specs.Prelude.{◌≡◌, ◌+◌, ◌≤◌, OnOk};
ghost use Rattle.std.specs.List.Sorted.{IsSortedBy};
ghost use Rattle.plane_types.specs.Delta.{HasRoom, TookRoom, all_steps, with_delta};
ghost use Rattle.plane_types.specs.Edits.{all_puts, with_edits};
ghost use Rattle.plane_types.specs.Hosts.{bridge_before, neighbour_before};

use crate::keyed::Keyed;
use crate::lists::Tags;
use crate::runs::Runs;
use crate::spare_vec::SpareVec;
use crate::steps::Steps;
use crate::table::{
    BridgeRow, FilterRow, FloatRow, InwardRow, LeaseRow, NeighbourRow, RouteRow, RouterTable,
    SetRow, TagRow, TapRow,
};
use crate::tables::HostTables;
use net_addr::{OutOfMemory, Seq};
use std::alloc::Global;
use std::sync::ledger::Ledger;

/// An edit of a list: at a place a row is taken out, one is put in, or both.
#[derive(Drop)]
pub struct Edit<T> {
    pub place: usize,
    pub out: bool,
    pub put: Option<T>,
}

/// Edits of a list, one after the other.
pub type Edits<T> = Seq<Edit<T>>;

// What it costs to move a row aside and back, in moves within a list.
const MOVES_ASIDE: usize = 4;

/// Edits of the tables that ports give.
#[derive(Drop)]
pub struct L2Delta {
    /// All tags as they are to be, for those who make the other deltas.
    pub tags: Tags,
    pub tag_edits: Edits<TagRow>,
    pub taps: Edits<TapRow>,
    pub filters: Edits<FilterRow>,
    pub sets: Edits<SetRow>,
    pub bridge: Edits<BridgeRow>,
    pub inward: Edits<InwardRow>,
    pub neighbours: Edits<NeighbourRow>,
}

/// Edits of the tables that routers and floating addresses give.
#[derive(Drop)]
pub struct L3Delta {
    pub routers: Edits<RouterTable>,
    pub routes: Edits<RouteRow>,
    pub floats: Edits<FloatRow>,
}

/// Edits of the leases.
#[derive(Drop)]
pub struct LeaseDelta {
    pub leases: Edits<LeaseRow>,
}

/// Edits of all tables of a host.
pub struct Delta {
    pub l2: L2Delta,
    pub l3: L3Delta,
    pub dhcp: LeaseDelta,
}

impl Drop for Delta {
    fn drop(self) {
        let Delta {
            l2: _,
            l3: _,
            dhcp: _,
        } = self;
    }
}

impl Delta {
    // Puts the edits into their tables.
    fn apply<L: Ledger>(self, tables: &mut HostTables, steps: &mut Steps<L>)
        requires room { HasRoom tables.old.room self }
        requires bridge { IsSortedBy bridge_before
            (with_edits tables.old.lists.bridge self.l2.bridge) }
        requires neighbours { IsSortedBy neighbour_before
            (with_edits tables.old.lists.neighbours self.l2.neighbours) }
        ensures lists { tables.new.lists ≡ with_delta tables.old.lists self }
        ensures room { TookRoom tables.old.room tables.new.room self }
        ensures steps { steps.new ≡ steps.old + all_steps self }
    {
        let Delta { l2, l3, dhcp } = self;
        let L2Delta {
            tags: _,
            tag_edits,
            taps,
            filters,
            sets,
            bridge,
            inward,
            neighbours,
        } = l2;
        let L3Delta {
            routers,
            routes,
            floats,
        } = l3;
        let LeaseDelta { leases } = dhcp;
        tables.tags.edit(tag_edits, steps);
        tables.taps.edit(taps, steps);
        tables.filters.edit(filters, steps);
        tables.sets.edit(sets, steps);
        tables.bridge.edit(bridge, steps);
        tables.inward.edit(inward, steps);
        tables.neighbours.edit(neighbours, steps);
        tables.routers.edit(routers, steps);
        tables.routes.edit(routes, steps);
        tables.floats.edit(floats, steps);
        tables.leases.edit(leases, steps);
    }
}

// For how many rows room aside is wanted: all from the least place of an edit on, and those that
// edits put in, where so many edits move rows one after the other that it costs less to move these
// aside and back once.
fn rows_aside<R: Drop>(edits: &Edits<R>, len: usize) -> usize {
    let mut rows = len;
    let mut least = len;
    let mut moves: usize = 0;
    for edit in edits.as_slice() {
        least = least.min(edit.place);
        moves = moves.saturating_add(rows.saturating_sub(edit.place));
        if edit.out {
            rows = rows.saturating_sub(1);
        }
        if edit.put.is_some() {
            rows = rows.saturating_add(1);
        }
    }
    let aside = len.saturating_sub(least).saturating_add(edits.len());
    if moves > aside.saturating_mul(MOVES_ASIDE) {
        aside
    } else {
        0
    }
}

// Makes room in a table for the rows that edits put in.
#[tactic(auto, using(crate::proofs::EditLemmas::few_puts))]
fn make_room_in<R: Keyed>(
    rows: &mut Runs<R>,
    alloc: Global,
    edits: &Edits<R>,
) -> Result<(), OutOfMemory>
    ensures items { rows.new.items ≡ rows.old.items }
    ensures spare { OnOk result (all_puts edits.now ≤ rows.new.spare) }
{
    rows.reserve_aside(rows_aside(edits, rows.len()))?;
    rows.make_room(alloc, edits.len())
}

// The same of a map.
#[tactic(auto, using(crate::proofs::EditLemmas::few_puts))]
fn make_room_in_map<R: Drop>(rows: &mut SpareVec<R>, edits: &Edits<R>) -> Result<(), OutOfMemory>
    ensures items { rows.new.items ≡ rows.old.items }
    ensures spare { OnOk result (all_puts edits.now ≤ rows.new.spare) }
{
    rows.reserve_aside(rows_aside(edits, rows.len()))?;
    rows.reserve(edits.len())
}

impl HostTables {
    fn make_l3_room(&mut self, alloc: Global, delta: &L3Delta) -> Result<(), OutOfMemory>
        ensures lists { self.new.lists ≡ self.old.lists }
        ensures routers { OnOk result (all_puts delta.now.routers ≤ self.new.room.routers) }
        ensures routes { OnOk result (all_puts delta.now.routes ≤ self.new.room.routes) }
        ensures floats { OnOk result (all_puts delta.now.floats ≤ self.new.room.floats) }
    {
        make_room_in(&mut self.routers, alloc, &delta.routers)?;
        make_room_in(&mut self.routes, alloc, &delta.routes)?;
        make_room_in(&mut self.floats, alloc, &delta.floats)
    }

    fn make_lease_room(&mut self, alloc: Global, delta: &LeaseDelta) -> Result<(), OutOfMemory>
        ensures lists { self.new.lists ≡ self.old.lists }
        ensures room { self.new.room ≡ record self.old.room { leases = self.new.room.leases } }
        ensures leases { OnOk result (all_puts delta.now.leases ≤ self.new.room.leases) }
    {
        make_room_in(&mut self.leases, alloc, &delta.leases)
    }

    // In the maps.
    fn make_map_room(&mut self, delta: &L2Delta) -> Result<(), OutOfMemory>
        ensures lists { self.new.lists ≡ self.old.lists }
        ensures room { self.new.room
            ≡ record self.old.room {
              bridge = self.new.room.bridge;
              neighbours = self.new.room.neighbours;
            } }
        ensures bridge { OnOk result (all_puts delta.now.bridge ≤ self.new.room.bridge) }
        ensures neighbours { OnOk result
            (all_puts delta.now.neighbours ≤ self.new.room.neighbours) }
    {
        make_room_in_map(&mut self.bridge, &delta.bridge)?;
        make_room_in_map(&mut self.neighbours, &delta.neighbours)
    }

    // In the other tables that ports give.
    fn make_l2_room(&mut self, alloc: Global, delta: &L2Delta) -> Result<(), OutOfMemory>
        ensures lists { self.new.lists ≡ self.old.lists }
        ensures room { self.new.room
            ≡ record self.old.room {
              tags = self.new.room.tags;
              taps = self.new.room.taps;
              filters = self.new.room.filters;
              sets = self.new.room.sets;
              inward = self.new.room.inward;
            } }
        ensures tags { OnOk result (all_puts delta.now.tag_edits ≤ self.new.room.tags) }
        ensures taps { OnOk result (all_puts delta.now.taps ≤ self.new.room.taps) }
        ensures filters { OnOk result (all_puts delta.now.filters ≤ self.new.room.filters) }
        ensures sets { OnOk result (all_puts delta.now.sets ≤ self.new.room.sets) }
        ensures inward { OnOk result (all_puts delta.now.inward ≤ self.new.room.inward) }
    {
        make_room_in(&mut self.tags, alloc, &delta.tag_edits)?;
        make_room_in(&mut self.taps, alloc, &delta.taps)?;
        make_room_in(&mut self.filters, alloc, &delta.filters)?;
        make_room_in(&mut self.sets, alloc, &delta.sets)?;
        make_room_in(&mut self.inward, alloc, &delta.inward)
    }

    /// Makes room for the rows that the edits put in. No row changes, out of memory either.
    pub fn make_room(&mut self, alloc: Global, delta: &Delta) -> Result<(), OutOfMemory>
        ensures lists { self.new.lists ≡ self.old.lists }
        ensures room { OnOk result (HasRoom self.new.room delta.now) }
    {
        self.make_l3_room(alloc, &delta.l3)?;
        self.make_lease_room(alloc, &delta.dhcp)?;
        self.make_map_room(&delta.l2)?;
        self.make_l2_room(alloc, &delta.l2)
    }

    /// Puts the edits in. Each row that is taken out and each that is put in is a step. It
    /// allocates nothing. A place past the end of a list is its end. Its cost grows with the
    /// edits, and with the rows after the place of each; after `make_room` for the same edits, if
    /// they come from the greatest place to the least, with the rows of the table at most.
    pub fn apply<L: Ledger>(&mut self, delta: Delta, steps: &mut Steps<L>)
        requires room { HasRoom self.old.room delta }
        requires bridge { IsSortedBy bridge_before
            (with_edits self.old.lists.bridge delta.l2.bridge) }
        requires neighbours { IsSortedBy neighbour_before
            (with_edits self.old.lists.neighbours delta.l2.neighbours) }
        ensures lists { self.new.lists ≡ with_delta self.old.lists delta }
        ensures room { TookRoom self.old.room self.new.room delta }
        ensures steps { steps.new ≡ steps.old + all_steps delta }
    {
        delta.apply(self, steps);
    }
}
