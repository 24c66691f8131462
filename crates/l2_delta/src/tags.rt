//! Edits of the tables `tags` and `inward`.

ghost use Rattle.std.specs.Prelude.{◌≡◌, IfOk, None, Some, false, nat_lt};
ghost use Rattle.api_types.specs.Live.{segment};
ghost use Rattle.api_types.specs.Parts.{network_of};
ghost use Rattle.api_types.specs.Wires.{wire_of as wire_by_segment};
ghost use Rattle.api_types.specs.declared.kind.Kind.TheVariants.{Network as NetworkKind};
ghost use Rattle.api_types.specs.declared.network.NetworkRow.{NetworkRow as TheNetwork};
ghost use Rattle.plane_types.specs.KeyedTables.{keyed_inward, keyed_tags};
ghost use Rattle.plane_types.specs.NumberedRows.{numbered_rows, numbered_rows_after, row_items};
ghost use Rattle.plane_types.specs.TableRows.{carrier_of as carrier_by_segment, inward_row as inward_row_of, inward_rows};
ghost use Rattle.table_edits.specs.EditsAt.{KeysDescend, among};
ghost use Rattle.table_edits.specs.NumbersSeen.{at_after, at_before};
ghost use Rattle.table_edits.specs.Rewires.{Rewires};
ghost use Rattle.table_edits.specs.Untouched.{StaysAlike};

use api_types::{Id, NetworkRow, Rows, Segment, Wire};
use net_addr::{Copies, OutOfMemory};
use plane_rows::segment_of;
use plane_types::{Carrier, Edits, InwardRow, TagRow};
use std::alloc::Global;
use table_edits::{ByRow, Numbers, edits_by_row};
use touched_rows::Rewiring;

// The wire that carries a network, if it is flat or vlan.
#[tactic(auto, unfolding(api_types::specs::Live::segment))]
fn wire_of(alloc: Global, rows: &Rows, network: Id) -> Result<Option<Wire>, OutOfMemory>
    ensures { IfOk result (λ w. w ≡ wire_by_segment (segment rows.now network)) }
{
    match segment_of(rows, network) {
        Some(Segment::Flat { physical }) => Ok(Some(Wire {
            physical: physical.copy(alloc)?,
            tag: None,
        })),
        Some(Segment::Vlan { physical, tag }) => Ok(Some(Wire {
            physical: physical.copy(alloc)?,
            tag: Some(*tag),
        })),
        Some(Segment::Local | Segment::Vxlan { .. }) | None => Ok(None),
    }
}

// By what frames of a network come to a host, unless it is local.
#[tactic(auto, unfolding(api_types::specs::Live::segment))]
fn carrier_of(alloc: Global, rows: &Rows, network: Id) -> Result<Option<Carrier>, OutOfMemory>
    ensures { IfOk result (λ c. c ≡ carrier_by_segment (segment rows.now network)) }
{
    if let Some(Segment::Vxlan { number }) = segment_of(rows, network) {
        return Ok(Some(Carrier::Tunnel(*number)));
    }
    match wire_of(alloc, rows, network)? {
        None => Ok(None),
        Some(wire) => Ok(Some(Carrier::Wire(wire))),
    }
}

// The row of a network with a tag for what comes inward.
fn inward_row(
    alloc: Global,
    rows: &Rows,
    network: Id,
    tag: u16,
) -> Result<Option<InwardRow>, OutOfMemory>
    ensures { IfOk result
        (λ o. o ≡ inward_row_of rows.now (record { network = network; tag = tag; wire = None })) }
{
    match carrier_of(alloc, rows, network)? {
        None => Ok(None),
        Some(carrier) => Ok(Some(InwardRow { carrier, tag })),
    }
}

// The tags by their networks.
#[derive(Drop)]
struct TagTable<'t, 'r> {
    change: &'t Rewiring<'r>,
}

impl<'t, 'r> ByRow for TagTable<'t, 'r> {
    ghost use Rattle.std.specs.Prelude.{Some, option_map};
    ghost use Rattle.plane_types.specs.KeyedTables.{tag_row_of};
    ghost use Rattle.plane_types.specs.NewTags.{tag_row};
    ghost use Rattle.plane_types.specs.TableRows.{tag_of};

    type Source = NetworkRow;

    type Row = TagRow;

    ghost came = { λ t. tag_row_of t.change.now.old };

    ghost comes = { λ t w.
        option_map (tag_row t.change.now.after.now w.id) (tag_of t.change.now.new w.id) };

    ghost source_of = { λ t r. Some r.network };

    fn source(&self, row: &TagRow) -> Option<Id> {
        Some(row.network)
    }

    fn row_of(&self, alloc: Global, network: &NetworkRow) -> Result<Option<TagRow>, OutOfMemory> {
        match self.change.new_tag(network.id) {
            Some(tag) => Ok(Some(TagRow {
                network: network.id,
                tag,
                wire: wire_of(alloc, self.change.after, network.id)?,
            })),
            None => Ok(None),
        }
    }
}

// What comes inward by its networks.
#[derive(Drop)]
struct InwardTable<'t, 'r> {
    change: &'t Rewiring<'r>,
}

impl<'t, 'r> ByRow for InwardTable<'t, 'r> {
    ghost use Rattle.std.specs.Prelude.{None, option_and_then, option_map};
    ghost use Rattle.plane_types.specs.KeyedTables.{tag_row_of};
    ghost use Rattle.plane_types.specs.TableStep.{tag_row as row_of_tag};
    ghost use Rattle.plane_types.specs.TableRows.{inward_row as inward_row_of, tag_of};

    type Source = NetworkRow;

    type Row = InwardRow;

    ghost came = { λ t w.
        option_and_then (inward_row_of t.change.now.before.now) (tag_row_of t.change.now.old w) };

    ghost comes = { λ t w.
        option_and_then
        (λ tag. inward_row_of t.change.now.after.now
        (record { network = w.id; tag = tag; wire = None }))
        (tag_of t.change.now.new w.id) };

    ghost source_of = { λ t r.
        option_map (λ x. x.network) (row_of_tag t.change.now.tables.now.lists r.tag) };

    fn source(&self, row: &InwardRow) -> Option<Id> {
        match self.change.tables.tag_row(row.tag) {
            Some(row) => Some(row.network),
            None => None,
        }
    }

    fn row_of(
        &self,
        alloc: Global,
        network: &NetworkRow,
    ) -> Result<Option<InwardRow>, OutOfMemory> {
        match self.change.new_tag(network.id) {
            Some(tag) => inward_row(alloc, self.change.after, network.id, tag),
            None => Ok(None),
        }
    }
}

/// Edits of the tags, at the networks that a change touches. Its cost is that of these networks,
/// and for each grows with the logarithm of the table.
pub(crate) fn tag_edits(
    alloc: Global,
    change: &Rewiring,
    networks: &Numbers<NetworkRow>,
    touched: &[usize],
) -> Result<Edits<TagRow>, OutOfMemory>
    requires numbers { networks.now
        ≡ record {
          rows = change.now.before.now.networks;
          items = row_items NetworkKind network_of change.now.items.now;
        } }
    requires down { KeysDescend nat_lt touched.now }
    requires stay { (k : _) → among nat_lt k touched.now ≡ false
        → at_before networks.now k ≡ at_after networks.now k }
    requires alike { (k : _) (w : TheNetwork) → among nat_lt k touched.now ≡ false
        → at_before networks.now k ≡ Some w
        → StaysAlike change.now.before.now change.now.after.now change.now.old change.now.new
        w.id }
    ensures { IfOk result
        (λ es. Rewires nat_lt
        (keyed_tags (numbered_rows change.now.before.now) change.now.old)
        (keyed_tags (numbered_rows_after change.now.before.now change.now.items.now)
        change.now.new)
        change.now.tables.now.lists.tags change.now.new es) }
{
    let table = TagTable { change };
    edits_by_row(alloc, &table, change.tables.tags(), networks, touched)
}

/// Edits of what comes inward, at the networks that a change touches. Its cost is that of these
/// networks, and for each grows with the logarithm of the table.
pub(crate) fn inward_edits(
    alloc: Global,
    change: &Rewiring,
    networks: &Numbers<NetworkRow>,
    touched: &[usize],
) -> Result<Edits<InwardRow>, OutOfMemory>
    requires numbers { networks.now
        ≡ record {
          rows = change.now.before.now.networks;
          items = row_items NetworkKind network_of change.now.items.now;
        } }
    requires down { KeysDescend nat_lt touched.now }
    requires stay { (k : _) → among nat_lt k touched.now ≡ false
        → at_before networks.now k ≡ at_after networks.now k }
    requires alike { (k : _) (w : TheNetwork) → among nat_lt k touched.now ≡ false
        → at_before networks.now k ≡ Some w
        → StaysAlike change.now.before.now change.now.after.now change.now.old change.now.new
        w.id }
    ensures { IfOk result
        (λ es. Rewires nat_lt
        (keyed_inward (numbered_rows change.now.before.now) change.now.old)
        (keyed_inward (numbered_rows_after change.now.before.now change.now.items.now)
        change.now.new)
        change.now.tables.now.lists.inward
        (inward_rows change.now.after.now change.now.new) es) }
{
    let table = InwardTable { change };
    edits_by_row(alloc, &table, change.tables.inward(), networks, touched)
}
