//! The tables of a host.

ghost use Rattle.std.specs.Prelude.{◌≡◌, IfOk};
ghost use Rattle.std.specs.List.Sorted.{IsSortedBy};
ghost use Rattle.plane_types.specs.Hosts.{bridge_before, neighbour_before};

use crate::ascending::{Ascending, copies};
use crate::lists::{TableLists, Tags};
use crate::runs::Runs;
use crate::spare_vec::SpareVec;
use crate::table::{
    BridgeRow, FilterRow, FloatRow, InwardRow, LeaseRow, NeighbourRow, RouteRow, RouterTable,
    SetRow, TagRow, TapRow,
};
use net_addr::{OutOfMemory, Seq};
use std::alloc::Global;
use std::marker::Model;

/// The tables of one host. Contracts see their lists, and how many more rows each takes in without
/// memory.
///
/// Bridge and neighbours are searched by halving, since they ascend. The rows of the other tables
/// are found by maps: tags by number, taps and filter rows by port, sets by group, what comes
/// inward by number or by tag of the wire, routers, routes and floating addresses by router, leases
/// by tag and MAC.
pub struct HostTables {
    pub(crate) tags: Runs<TagRow>,
    pub(crate) taps: Runs<TapRow>,
    pub(crate) filters: Runs<FilterRow>,
    pub(crate) sets: Runs<SetRow>,
    pub(crate) bridge: SpareVec<BridgeRow>,
    pub(crate) inward: Runs<InwardRow>,
    pub(crate) neighbours: SpareVec<NeighbourRow>,
    pub(crate) routers: Runs<RouterTable>,
    pub(crate) routes: Runs<RouteRow>,
    pub(crate) floats: Runs<FloatRow>,
    pub(crate) leases: Runs<LeaseRow>,
}

impl Model for HostTables {
    ghost use Rattle.std.specs.List.Sorted.{IsSortedBy};
    ghost use Rattle.plane_types.specs.Hosts.{bridge_before, neighbour_before};
    ghost use Rattle.plane_types.specs.Tables.{Tables};

    ghost Value = { Tables };

    ghost view = { λ t.
        record {
          lists = record {
            tags = t.tags.items;
            taps = t.taps.items;
            filters = t.filters.items;
            sets = t.sets.items;
            bridge = t.bridge.items;
            inward = t.inward.items;
            neighbours = t.neighbours.items;
            routers = t.routers.items;
            routes = t.routes.items;
            floats = t.floats.items;
            leases = t.leases.items;
          };
          room = record {
            tags = t.tags.spare;
            taps = t.taps.spare;
            filters = t.filters.spare;
            sets = t.sets.spare;
            bridge = t.bridge.spare;
            inward = t.inward.spare;
            neighbours = t.neighbours.spare;
            routers = t.routers.spare;
            routes = t.routes.spare;
            floats = t.floats.spare;
            leases = t.leases.spare;
          };
        } };

    ghost invariant = { λ t.
        IsSortedBy bridge_before t.bridge.items
        × IsSortedBy neighbour_before t.neighbours.items };
}

impl Drop for HostTables {
    fn drop(self) {
        let HostTables {
            tags: _,
            taps: _,
            filters: _,
            sets: _,
            bridge: _,
            inward: _,
            neighbours: _,
            routers: _,
            routes: _,
            floats: _,
            leases: _,
        } = self;
    }
}

impl HostTables {
    /// The tables with these lists. Its cost grows with their rows.
    pub fn make(alloc: Global, lists: TableLists) -> Result<HostTables, OutOfMemory>
        ensures { IfOk result (λ t. t.lists ≡ lists) }
    {
        lists.into_tables(alloc)
    }

    /// A copy of the lists. Its cost grows with their rows.
    pub fn lists(&self, alloc: Global) -> Result<TableLists, OutOfMemory>
        ensures { IfOk result (λ l. l ≡ self.now.lists) }
    {
        Ok(TableLists {
            tags: Seq::from_vec(copies(self.tags(), alloc)?),
            taps: Seq::from_vec(copies(self.taps(), alloc)?),
            filters: Seq::from_vec(copies(self.filters(), alloc)?),
            sets: Seq::from_vec(copies(self.sets(), alloc)?),
            bridge: Ascending::of_ascending(copies(self.bridge(), alloc)?),
            inward: Seq::from_vec(copies(self.inward(), alloc)?),
            neighbours: Ascending::of_ascending(copies(self.neighbours(), alloc)?),
            routers: Seq::from_vec(copies(self.routers(), alloc)?),
            routes: Seq::from_vec(copies(self.routes(), alloc)?),
            floats: Seq::from_vec(copies(self.floats(), alloc)?),
            leases: Seq::from_vec(copies(self.leases(), alloc)?),
        })
    }

    /// A copy of the tags. Its cost grows with them.
    pub fn copy_tags(&self, alloc: Global) -> Result<Tags, OutOfMemory>
        ensures { IfOk result (λ tags. tags ≡ self.now.lists.tags) }
    {
        Ok(Seq::from_vec(copies(self.tags(), alloc)?))
    }

    /// The tags, in order of creation of their networks.
    pub fn tags(&self) -> &[TagRow]
        ensures { result.now ≡ self.now.lists.tags }
    {
        self.tags.as_slice()
    }

    /// The taps, in order of creation of their ports.
    pub fn taps(&self) -> &[TapRow]
        ensures { result.now ≡ self.now.lists.taps }
    {
        self.taps.as_slice()
    }

    /// The filter rows, in order of creation of their ports, then of groups, then of rules.
    pub fn filters(&self) -> &[FilterRow]
        ensures { result.now ≡ self.now.lists.filters }
    {
        self.filters.as_slice()
    }

    /// The sets of groups.
    pub fn sets(&self) -> &[SetRow]
        ensures { result.now ≡ self.now.lists.sets }
    {
        self.sets.as_slice()
    }

    /// The bridge, ascending.
    pub fn bridge(&self) -> &[BridgeRow]
        ensures rows { result.now ≡ self.now.lists.bridge }
        ensures ascend { IsSortedBy bridge_before result.now }
    {
        self.bridge.as_slice()
    }

    /// What comes inward, in the order of the tags.
    pub fn inward(&self) -> &[InwardRow]
        ensures { result.now ≡ self.now.lists.inward }
    {
        self.inward.as_slice()
    }

    /// The neighbours, ascending.
    pub fn neighbours(&self) -> &[NeighbourRow]
        ensures rows { result.now ≡ self.now.lists.neighbours }
        ensures ascend { IsSortedBy neighbour_before result.now }
    {
        self.neighbours.as_slice()
    }

    /// The routers, in order of creation.
    pub fn routers(&self) -> &[RouterTable]
        ensures { result.now ≡ self.now.lists.routers }
    {
        self.routers.as_slice()
    }

    /// The routes, in order of creation of their routers.
    pub fn routes(&self) -> &[RouteRow]
        ensures { result.now ≡ self.now.lists.routes }
    {
        self.routes.as_slice()
    }

    /// The floating addresses, in order of creation.
    pub fn floats(&self) -> &[FloatRow]
        ensures { result.now ≡ self.now.lists.floats }
    {
        self.floats.as_slice()
    }

    /// The leases, in order of creation of the ports that they are for.
    pub fn leases(&self) -> &[LeaseRow]
        ensures { result.now ≡ self.now.lists.leases }
    {
        self.leases.as_slice()
    }
}
