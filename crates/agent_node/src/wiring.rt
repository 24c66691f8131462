//! The tables of a host, made of rows by its three agents.

ghost use Rattle.std.specs.Prelude.{◌≡◌, IfOk};
ghost use Rattle.api_types.specs.Consistent.{IsConsistent};
ghost use Rattle.plane_types.specs.NewTags.{AreTags};
ghost use Rattle.plane_types.specs.Realises.{Realises};
ghost use Rattle.plane_types.specs.TablesOfRows.{tables_of_rows as wired_by_rows};

use api_types::Rows;
use dhcp_agent::wire_leases;
use l2_agent::{L2Tables, wire_ports};
use l3_agent::{L3Tables, wire_routers};
use net_addr::{OutOfMemory, Text};
use plane_types::{HostTables, Leases, TableLists, Tags};
use std::alloc::Global;

// The tables of three agents as the lists of those of their host.
fn join_lists(l2: L2Tables, l3: L3Tables, leases: Leases) -> TableLists
    ensures { result
        ≡ record {
          tags = l2.tags;
          taps = l2.taps;
          filters = l2.filters;
          sets = l2.sets;
          bridge = l2.bridge;
          inward = l2.inward;
          neighbours = l2.neighbours;
          routers = l3.routers;
          routes = l3.routes;
          floats = l3.floats;
          leases = leases;
        } }
{
    TableLists {
        tags: l2.tags,
        taps: l2.taps,
        filters: l2.filters,
        sets: l2.sets,
        bridge: l2.bridge,
        inward: l2.inward,
        neighbours: l2.neighbours,
        routers: l3.routers,
        routes: l3.routes,
        floats: l3.floats,
        leases,
    }
}

/// The tables that a host makes of rows, where its tags were these. Its cost is that of
/// `wire_ports`, `wire_routers` and `wire_leases`, and grows with what these make.
#[tactic(auto, unfolding(plane_types::specs::TablesOfRows::tables_of_rows))]
pub(crate) fn wire_tables(
    alloc: Global,
    rows: &Rows,
    host: &Text,
    old: &Tags,
) -> Result<HostTables, OutOfMemory>
    requires consistent { IsConsistent rows.now }
    requires tags { AreTags old.now }
    ensures tables { IfOk result (λ t. t.lists ≡ wired_by_rows rows.now host.now old.now) }
    ensures realised { IfOk result (λ t. Realises rows.now host.now t.lists) }
{
    let l2 = wire_ports(alloc, rows, host, old)?;
    let l3 = wire_routers(alloc, rows, host, &l2.tags)?;
    let leases = wire_leases(alloc, rows, host, &l2.tags)?;
    HostTables::make(alloc, join_lists(l2, l3, leases))
}
