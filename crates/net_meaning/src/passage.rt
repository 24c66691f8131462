//! The filter of a port, with tracked flows.

ghost use Rattle.std.specs.Prelude.{◌≡◌, ◌++◌, ◌&&◌};
ghost use Rattle.plane_types.specs.Entries.{has_flow as flow_is_there, opposite as other_way};
ghost use Rattle.plane_types.specs.Filter.{rules_allow as allowed_by_rules};
ghost use Rattle.plane_types.specs.Keys.{answer_key};
ghost use Rattle.plane_types.specs.Meaning.{rows_passage};
ghost use Rattle.plane_types.specs.Parts.{packet_of, passage_of};

use crate::filter::rules_allow;
use api_types::{Direction, PortRow, Rows};
use plane_types::{Entry, Key, Packet, Passage, is_tracked, new_flow, opposite};

// Whether a key answers to a flow of the other direction that the rules still let pass.
fn is_answer(
    rows: &Rows,
    entries: &[Entry],
    fresh: &[Entry],
    port: &PortRow,
    direction: Direction,
    key: &Key,
) -> bool
    ensures { result
        ≡ (flow_is_there (entries.now ++ fresh.now) port.now.id (other_way direction)
        (answer_key key.now)
        && allowed_by_rules rows.now port.now (other_way direction) (answer_key key.now)) }
{
    let asked = key.reversed();
    let way = opposite(direction);
    is_tracked(entries, fresh, port.id, way, &asked) && rules_allow(rows, port, way, &asked)
}

/// How a packet passes the filter of a port: without port security, by a rule, which makes a flow
/// unless an equal one is there, or as the answer to a flow whose rule still stands. Its cost grows
/// with the rules, the ports and the entries.
pub(crate) fn passage_at(
    rows: &Rows,
    entries: &[Entry],
    fresh: &[Entry],
    port: &PortRow,
    direction: Direction,
    packet: &Packet,
) -> Passage
    ensures { passage_of result
        ≡ rows_passage rows.now (entries.now ++ fresh.now) port.now direction
        (packet_of packet.now) }
{
    let key = packet.key();
    if !port.secured {
        return Passage {
            passes: true,
            made: None,
        };
    }
    if rules_allow(rows, port, direction, &key) {
        return Passage {
            passes: true,
            made: new_flow(entries, fresh, port.id, direction, key),
        };
    }
    Passage {
        passes: is_answer(rows, entries, fresh, port, direction, &key),
        made: None,
    }
}
