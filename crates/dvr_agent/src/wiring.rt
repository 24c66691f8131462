//! The four lists, made in order. Begin here.

ghost use Rattle.std.specs.Prelude.{◌≡◌, IfOk};
ghost use Rattle.dvr_types.specs.Copies.{copies_for};

use crate::floats::copy_floats;
use crate::near::near_rows;
use crate::networks::NearNetworks;
use crate::routers::router_copies;
use crate::routes::copy_routes;
use api_types::Rows;
use dvr_types::Copies;
use net_addr::{OutOfMemory, Text};
use plane_rows::Legs;
use plane_types::Tags;
use std::alloc::Global;

/// What a host has beside its tables, if it routes by itself: exactly what the rows give.
///
/// There is a copy of each router with a live interface on a vxlan network, whatever its
/// administrative state, with its live ports, its routes and its floating addresses; and for each
/// vxlan network with a live interface a row for each address that somebody holds there. Copies
/// name networks where tables name tags, so the tags aren't looked at. The cost grows with the
/// networks, the routers, the ports with their addresses and the floating addresses, and for each
/// copied router with what `plane_rows::ways_by` costs for its live ports.
pub fn wire_copies(
    alloc: Global,
    rows: &Rows,
    host: &Text,
    _tags: &Tags,
) -> Result<Copies, OutOfMemory>
    ensures { IfOk result (λ c. c ≡ copies_for rows.now host.now) }
{
    let legs = Legs::of(alloc, rows)?;
    let networks = NearNetworks::of(alloc, rows)?;
    Ok(Copies {
        copies: router_copies(alloc, &legs)?,
        copy_routes: copy_routes(alloc, &legs)?,
        copy_floats: copy_floats(alloc, &legs)?,
        near: near_rows(alloc, &networks, host)?,
    })
}
