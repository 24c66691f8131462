//! What the tables of a host say.

ghost use Rattle.std.specs.Prelude.{◌≡◌, IfOk};

use crate::ascending::Ascending;
use crate::runs::Runs;
use crate::spare_vec::SpareVec;
use crate::table::{
    BridgeRow, FilterRow, FloatRow, InwardRow, LeaseRow, NeighbourRow, RouteRow, RouterTable,
    SetRow, TagRow, TapRow,
};
use crate::tables::HostTables;
use net_addr::{Copies, OutOfMemory, Seq};
use std::alloc::Global;

/// Tags in order of creation of their networks.
pub type Tags = Seq<TagRow>;

/// Leases in order of creation of the ports that they are for.
pub type Leases = Seq<LeaseRow>;

/// What the tables of one host say. Each list is in order of creation of the rows of the API that
/// its rows come from, but `bridge` and `neighbours` ascend, by their type. `sets` has the groups
/// in order of creation, and the members of each ascend.
pub struct TableLists {
    pub tags: Tags,
    pub taps: Seq<TapRow>,
    pub filters: Seq<FilterRow>,
    pub sets: Seq<SetRow>,
    pub bridge: Ascending<BridgeRow>,
    pub inward: Seq<InwardRow>,
    pub neighbours: Ascending<NeighbourRow>,
    pub routers: Seq<RouterTable>,
    pub routes: Seq<RouteRow>,
    pub floats: Seq<FloatRow>,
    pub leases: Leases,
}

impl Drop for TableLists {
    fn drop(self) {
        let TableLists {
            tags: _,
            taps: _,
            filters: _,
            sets: _,
            bridge: _,
            inward: _,
            neighbours: _,
            routers: _,
            routes: _,
            floats: _,
            leases: _,
        } = self;
    }
}

impl Copies for TableLists {
    /// An equal value. Its cost grows with the tables.
    fn copy(&self, alloc: Global) -> Result<TableLists, OutOfMemory> {
        Ok(TableLists {
            tags: self.tags.copy(alloc)?,
            taps: self.taps.copy(alloc)?,
            filters: self.filters.copy(alloc)?,
            sets: self.sets.copy(alloc)?,
            bridge: self.bridge.copy(alloc)?,
            inward: self.inward.copy(alloc)?,
            neighbours: self.neighbours.copy(alloc)?,
            routers: self.routers.copy(alloc)?,
            routes: self.routes.copy(alloc)?,
            floats: self.floats.copy(alloc)?,
            leases: self.leases.copy(alloc)?,
        })
    }
}

impl TableLists {
    /// Tables with these lists.
    pub(crate) fn into_tables(self, alloc: Global) -> Result<HostTables, OutOfMemory>
        ensures { IfOk result (λ t. t.lists ≡ self) }
    {
        let TableLists {
            tags,
            taps,
            filters,
            sets,
            bridge,
            inward,
            neighbours,
            routers,
            routes,
            floats,
            leases,
        } = self;
        Ok(HostTables {
            tags: Runs::of(alloc, tags.into_vec())?,
            taps: Runs::of(alloc, taps.into_vec())?,
            filters: Runs::of(alloc, filters.into_vec())?,
            sets: Runs::of(alloc, sets.into_vec())?,
            bridge: SpareVec::from_vec(bridge.into_vec()),
            inward: Runs::of(alloc, inward.into_vec())?,
            neighbours: SpareVec::from_vec(neighbours.into_vec()),
            routers: Runs::of(alloc, routers.into_vec())?,
            routes: Runs::of(alloc, routes.into_vec())?,
            floats: Runs::of(alloc, floats.into_vec())?,
            leases: Runs::of(alloc, leases.into_vec())?,
        })
    }
}
