//! One look-up: the place decides which table is asked. Begin here.

ghost use Rattle.std.specs.Prelude.{◌≡◌, ◌+◌, ◌≤◌, ◌++◌, length};
ghost use Rattle.plane_types.specs.Places.{view_of_place};
ghost use Rattle.plane_types.specs.TableStep.{table_step};
ghost use Rattle.host_plane.specs.Views.{view_of_step, view_of_stepped};

use crate::bridge::{bridge_step, dhcp_in, inward_step};
use crate::ending::{Step, Stepped};
use crate::inside::router_in;
use crate::tap::{tap_in, tap_out};
use plane_types::{Entries, Entry, Fresh, HostTables, Place};

fn look_up<'t>(
    tables: &'t HostTables,
    entries: &[Entry],
    fresh: &[Entry],
    place: &Place<'t>,
) -> Stepped<'t>
    ensures { view_of_stepped result
        ≡ table_step tables.now.lists (entries.now ++ fresh.now) (view_of_place place.now) }
{
    match place {
        Place::TapIn { port, frame } => tap_in(tables, entries, fresh, *port, *frame),
        Place::Bridge { tag, frame } => Stepped {
            step: bridge_step(tables, false, *tag, *frame),
            made: None,
        },
        Place::TunnelIn { number, frame } => Stepped {
            step: inward_step(tables, *frame, tables.inward_tunnel(*number)),
            made: None,
        },
        Place::WireIn {
            physical,
            tag,
            frame,
        } => Stepped {
            step: inward_step(tables, *frame, tables.inward_wire(physical, *tag)),
            made: None,
        },
        Place::RouterIn {
            port,
            router,
            frame,
        } => router_in(tables, entries, fresh, *port, *router, *frame),
        Place::DhcpIn { tag, frame } => Stepped {
            step: dhcp_in(tables, *tag, frame),
            made: None,
        },
        Place::TapOut { port, frame } => tap_out(tables, entries, fresh, *port, *frame),
    }
}

/// One look-up at a host: where a frame at this place goes on, or how it ends, by the host's
/// tables, its tracked entries, and those that the event has made so far, to which the one that
/// this step makes is added. It allocates nothing and refuses nothing.
///
/// Bridge and neighbours are searched by halving, so its cost grows with the logarithm of their
/// rows. Taps, tags, leases and routers are looked up. What is stepped over is a tap's own: its
/// allowed pairs and its filter rows, and for each of these that names a group the group's set; a
/// router's own ports with their addresses and routes, and the floating addresses from its first
/// to its last, among which others' may stand; the wires of the frame's tag; and the entries.
pub fn step<'t>(
    tables: &'t HostTables,
    entries: &Entries,
    fresh: &mut Fresh,
    place: &Place<'t>,
) -> Step<'t>
    requires { 2 ≤ fresh.old.spare }
    ensures step { view_of_step result
        ≡ (table_step tables.now.lists (entries.now.items ++ fresh.old.items)
        (view_of_place place.now)).step }
    ensures made { fresh.new.items
        ≡ fresh.old.items
        ++ (table_step tables.now.lists (entries.now.items ++ fresh.old.items)
        (view_of_place place.now)).made }
    ensures room { fresh.old.spare + length fresh.old.items
        ≤ fresh.new.spare + length fresh.new.items }
{
    let Stepped { step, made } = look_up(tables, entries.as_slice(), fresh.as_slice(), place);
    if let Some(entry) = made {
        fresh.add(entry);
    }
    step
}
