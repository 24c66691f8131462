//! A frame that comes to a router.

ghost use Rattle.std.specs.Prelude.{◌≡◌, ◌++◌};
ghost use Rattle.plane_types.specs.TableStep.{router_by_leg as by_port, router_in as routed_in, tagged_leg as leg_by_port};
ghost use Rattle.plane_types.specs.Parts.{packet_of};
ghost use Rattle.host_plane.specs.Views.{view_of_stepped};

use crate::ending::{Stepped, drop_frame};
use crate::port::port_of;
use crate::router::route;
use api_types::Id;
use plane_types::{DropCause, Entry, Frame, HostTables, Packet, RouterTable};

// A packet comes to a router by this port of it.
fn route_by_port<'t>(
    tables: &'t HostTables,
    entries: &[Entry],
    fresh: &[Entry],
    router: &RouterTable,
    port: Id,
    packet: &Packet,
) -> Stepped<'t>
    ensures { view_of_stepped result
        ≡ by_port tables.now.lists (entries.now ++ fresh.now) router.now (packet_of packet.now)
        (leg_by_port router.now port) }
{
    match port_of(router, port) {
        Some(port) => route(tables, entries, fresh, router, port, packet),
        None => drop_frame(DropCause::Unknown),
    }
}

/// A frame comes to a router by a port of it.
pub(crate) fn router_in<'t>(
    tables: &'t HostTables,
    entries: &[Entry],
    fresh: &[Entry],
    port: Id,
    router: Id,
    frame: Frame,
) -> Stepped<'t>
    ensures { view_of_stepped result
        ≡ routed_in tables.now.lists (entries.now ++ fresh.now) port router frame }
{
    let Some(packet) = Packet::of(&frame) else {
        return drop_frame(DropCause::Unknown);
    };
    let Some(router) = tables.router_at(router) else {
        return drop_frame(DropCause::Unknown);
    };
    route_by_port(tables, entries, fresh, router, port, &packet)
}
