//! The filter of a tap, with tracked flows.

ghost use Rattle.std.specs.Prelude.{◌≡◌, ◌++◌, ◌&&◌};
ghost use Rattle.std.specs.List.{list_any};
ghost use Rattle.api_types.specs.Table.{ident_eq};
ghost use Rattle.plane_types.specs.Entries.{has_flow as flow_is_there, opposite as other_way};
ghost use Rattle.plane_types.specs.Filter.{far_fits as fits_far};
ghost use Rattle.plane_types.specs.Keys.{answer_key};
ghost use Rattle.plane_types.specs.TableStep.{in_set as is_in_set, row_fits as fits_row, tables_allow as allowed_by_tables, tap_passage as passage_at_tap};
ghost use Rattle.plane_types.specs.Parts.{packet_of, passage_of};
ghost use Rattle.plane_types.specs.declared.table.FilterRow.{FilterRow as TheRow};

use api_types::{Direction, Id};
use net_addr::Addr;
use plane_types::{
    Entry, FilterRow, HostTables, Key, Packet, Passage, TapRow, far_of, in_range, is_protocol,
    is_tracked, new_flow, opposite,
};

// Whether the far address is in the row's prefix, or in the set of its group, or both are null.
fn far_fits(tables: &HostTables, row: &FilterRow, far: &Addr) -> bool
    ensures { result
        ≡ fits_far (is_in_set tables.now.lists) row.now.remote_prefix row.now.remote_group far.now }
{
    match (row.remote_prefix, row.remote_group) {
        (None, None) => true,
        (Some(prefix), None) => prefix.contains(*far),
        (None, Some(group)) => tables.in_set(group, far),
        (Some(prefix), Some(group)) => prefix.contains(*far) || tables.in_set(group, far),
    }
}

fn row_fits(tables: &HostTables, direction: Direction, key: &Key, row: &FilterRow) -> bool
    ensures { result ≡ fits_row tables.now.lists direction key.now row.now }
{
    let far = far_of(direction, key);
    row.direction == direction
        && row.ethertype == key.ends.ethertype()
        && is_protocol(row.protocol, &key.ends, key.kind)
        && in_range(row.low, row.high, &key.ends, key.kind, key.dport)
        && far_fits(tables, row, &far)
}

// Whether one of these rows is of the port and lets a key pass in a direction.
fn one_allows(
    tables: &HostTables,
    rows: &[FilterRow],
    port: Id,
    direction: Direction,
    key: &Key,
) -> bool
    ensures { result
        ≡ list_any
        (λ (r : TheRow).
        ident_eq port r.port && fits_row tables.now.lists direction key.now r)
        rows.now }
{
    rows.iter().any(|row| port == row.port && row_fits(tables, direction, key, row))
}

// Whether some row of a port lets a key pass in a direction. A row that names a group costs a look
// at the group's set.
fn tables_allow(tables: &HostTables, port: Id, direction: Direction, key: &Key) -> bool
    ensures { result ≡ allowed_by_tables tables.now.lists port direction key.now }
{
    one_allows(tables, tables.filters_near(port), port, direction, key)
}

// Whether a key answers to a flow of the other direction that the rows still let pass.
fn is_answer(
    tables: &HostTables,
    entries: &[Entry],
    fresh: &[Entry],
    port: Id,
    direction: Direction,
    key: &Key,
) -> bool
    ensures { result
        ≡ (flow_is_there (entries.now ++ fresh.now) port (other_way direction) (answer_key key.now)
        && allowed_by_tables tables.now.lists port (other_way direction) (answer_key key.now)) }
{
    let asked = key.reversed();
    let way = opposite(direction);
    is_tracked(entries, fresh, port, way, &asked) && tables_allow(tables, port, way, &asked)
}

/// How a packet passes the filter of a tap: without port security, by a row, which makes a flow
/// unless an equal one is there, or as the answer to a flow that a row still lets pass. Its cost
/// grows with the filter rows of the port, with the sets that they name, and with the entries.
pub(crate) fn passage_at(
    tables: &HostTables,
    entries: &[Entry],
    fresh: &[Entry],
    tap: &TapRow,
    direction: Direction,
    packet: &Packet,
) -> Passage
    ensures { passage_of result
        ≡ passage_at_tap tables.now.lists (entries.now ++ fresh.now) tap.now direction
        (packet_of packet.now) }
{
    let key = packet.key();
    if !tap.secured {
        return Passage {
            passes: true,
            made: None,
        };
    }
    if tables_allow(tables, tap.port, direction, &key) {
        return Passage {
            passes: true,
            made: new_flow(entries, fresh, tap.port, direction, key),
        };
    }
    Passage {
        passes: is_answer(tables, entries, fresh, tap.port, direction, &key),
        made: None,
    }
}
