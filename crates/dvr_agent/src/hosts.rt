//! A whole host that routes by itself: the tables of its agents and its copies.

ghost use Rattle.std.specs.Prelude.{◌≡◌, [], IfOk};
ghost use Rattle.api_types.specs.Consistent.{IsConsistent};
ghost use Rattle.dvr_types.specs.Copies.{copies_for};
ghost use Rattle.plane_types.specs.Realises.{Realises};
ghost use Rattle.plane_types.specs.TablesOfRows.{tables_of_rows};

use crate::wiring::wire_copies;
use api_types::Rows;
use dhcp_agent::wire_leases;
use dvr_types::DvrTables;
use l2_agent::{L2Tables, wire_ports};
use l3_agent::{L3Tables, wire_routers};
use net_addr::{Copies, OutOfMemory, Seq, Text};
use plane_types::{HostTables, Leases, TableLists};
use std::alloc::Global;

// The tables of three agents as the lists of those of their host.
fn join_lists(l2: L2Tables, l3: L3Tables, leases: Leases) -> TableLists
    ensures { result
        ≡ record {
          tags = l2.tags;
          taps = l2.taps;
          filters = l2.filters;
          sets = l2.sets;
          bridge = l2.bridge;
          inward = l2.inward;
          neighbours = l2.neighbours;
          routers = l3.routers;
          routes = l3.routes;
          floats = l3.floats;
          leases = leases;
        } }
{
    TableLists {
        tags: l2.tags,
        taps: l2.taps,
        filters: l2.filters,
        sets: l2.sets,
        bridge: l2.bridge,
        inward: l2.inward,
        neighbours: l2.neighbours,
        routers: l3.routers,
        routes: l3.routes,
        floats: l3.floats,
        leases,
    }
}

// The tables that a host makes of rows, if it had none before.
#[tactic(auto, unfolding(plane_types::specs::TablesOfRows::tables_of_rows), using(crate::proofs::NoTags::no_tags))]
fn wire_tables(alloc: Global, rows: &Rows, host: &Text) -> Result<HostTables, OutOfMemory>
    requires { IsConsistent rows.now }
    ensures tables { IfOk result (λ t. t.lists ≡ tables_of_rows rows.now host.now []) }
    ensures realised { IfOk result (λ t. Realises rows.now host.now t.lists) }
{
    let none = Seq::new(alloc);
    let l2 = wire_ports(alloc, rows, host, &none)?;
    let l3 = wire_routers(alloc, rows, host, &l2.tags)?;
    let leases = wire_leases(alloc, rows, host, &l2.tags)?;
    HostTables::make(alloc, join_lists(l2, l3, leases))
}

/// A host that routes by itself and holds these rows, which have to be consistent: its tables, with
/// the least tags in order of creation of the networks, and its copies. Its cost is that of the
/// tables of its agents and of `wire_copies`.
pub fn wire_host(alloc: Global, rows: &Rows, host: &Text) -> Result<DvrTables, OutOfMemory>
    requires { IsConsistent rows.now }
    ensures host { IfOk result (λ d. d.host ≡ host.now) }
    ensures base { IfOk result (λ d. d.base.lists ≡ tables_of_rows rows.now host.now []) }
    ensures realised { IfOk result (λ d. Realises rows.now host.now d.base.lists) }
    ensures copies { IfOk result (λ d. d.copies ≡ copies_for rows.now host.now) }
{
    let tags = Seq::new(alloc);
    Ok(DvrTables {
        host: host.copy(alloc)?,
        base: wire_tables(alloc, rows, host)?,
        copies: wire_copies(alloc, rows, host, &tags)?,
    })
}
