//! Edits of the table `taps`.

ghost use Rattle.std.specs.Prelude.{◌≡◌, ◌++◌, IfOk, OnOk, Some, false, map, nat_lt};
ghost use Rattle.net_addr.specs.Ordered.{whole_prefix};
ghost use Rattle.api_types.specs.declared.port.Fixed.{Fixed as TheFixed};
ghost use Rattle.api_types.specs.declared.port.PortRow.{PortRow as ThePort};
ghost use Rattle.plane_types.specs.KeyedTables.{keyed_taps};
ghost use Rattle.plane_types.specs.NumberedRows.{numbered_rows, numbered_rows_after};
ghost use Rattle.plane_types.specs.TableRows.{allowed_of as allowed_by_rows, is_tap as is_tap_by_rows, tap_row as tap_row_of, tap_rows};
ghost use Rattle.table_edits.specs.EditsAt.{KeysDescend, among};
ghost use Rattle.table_edits.specs.NumbersSeen.{at_after, at_before};
ghost use Rattle.table_edits.specs.Rewires.{Rewires};
ghost use Rattle.touched_rows.specs.SeesAlike.{SeesAlike};

use api_types::{Fixed, Id, Pair, PortRow, Rows};
use net_addr::{Mac, OutOfMemory, Seq, Text};
use plane_rows::is_here;
use plane_types::{Edits, TagMap, TapRow};
use std::alloc::Global;
use table_edits::{ByRow, edits_by_row};
use touched_rows::Rewiring;

/// Whether a port is live on the host and no router's.
pub(crate) fn is_tap(rows: &Rows, host: &Text, port: &PortRow) -> bool
    ensures { result ≡ is_tap_by_rows rows.now host.now port.now }
{
    is_here(rows, host, port) && !port.is_router_port()
}

// Adds a pair of the MAC and each of these addresses.
fn add_addresses(allowed: &mut Seq<Pair>, mac: Mac, fixed: &[Fixed]) -> Result<(), OutOfMemory>
    ensures { OnOk result
        (allowed.new
        ≡ allowed.old
        ++ map (λ (f : TheFixed). record { mac = mac; prefix = whole_prefix f.address })
        fixed.now) }
{
    for held in fixed {
        allowed.push(Pair {
            mac,
            prefix: held.address.whole_prefix(),
        })?;
    }
    Ok(())
}

// Adds these pairs.
fn add_pairs(allowed: &mut Seq<Pair>, pairs: &[Pair]) -> Result<(), OutOfMemory>
    ensures { OnOk result (allowed.new ≡ allowed.old ++ pairs.now) }
{
    for pair in pairs {
        allowed.push(*pair)?;
    }
    Ok(())
}

// As what a port may send.
fn allowed_of(alloc: Global, port: &PortRow) -> Result<Seq<Pair>, OutOfMemory>
    ensures { IfOk result (λ a. a ≡ allowed_by_rows port.now) }
{
    let mut allowed = Seq::new(alloc);
    add_addresses(&mut allowed, port.mac, port.fixed.as_slice())?;
    add_pairs(&mut allowed, port.pairs.as_slice())?;
    Ok(allowed)
}

// The row of a port, if it is a tap here.
fn tap_row(
    alloc: Global,
    rows: &Rows,
    host: &Text,
    tags: &TagMap,
    port: &PortRow,
) -> Result<Option<TapRow>, OutOfMemory>
    ensures { IfOk result (λ o. o ≡ tap_row_of rows.now host.now tags.now port.now) }
{
    if !is_tap(rows, host, port) {
        return Ok(None);
    }
    let Some(tag) = tags.tag_of(port.network) else {
        return Ok(None);
    };
    Ok(Some(TapRow {
        port: port.id,
        tag,
        mac: port.mac,
        secured: port.secured,
        allowed: allowed_of(alloc, port)?,
    }))
}

// The taps by their ports.
#[derive(Drop)]
struct TapTable<'t, 'r> {
    change: &'t Rewiring<'r>,
}

impl<'t, 'r> ByRow for TapTable<'t, 'r> {
    ghost use Rattle.std.specs.Prelude.{Some};
    ghost use Rattle.plane_types.specs.TableRows.{tap_row as tap_row_of};

    type Source = PortRow;

    type Row = TapRow;

    ghost came = { λ t.
        tap_row_of t.change.now.before.now t.change.now.host.now t.change.now.old };

    ghost comes = { λ t.
        tap_row_of t.change.now.after.now t.change.now.host.now t.change.now.new };

    ghost source_of = { λ t r. Some r.port };

    fn source(&self, row: &TapRow) -> Option<Id> {
        Some(row.port)
    }

    fn row_of(&self, alloc: Global, port: &PortRow) -> Result<Option<TapRow>, OutOfMemory> {
        let change = self.change;
        tap_row(alloc, change.after, change.host, &change.new, port)
    }
}

/// Edits of the taps at the ports that a change touches. Its cost is that of these ports, and for
/// each grows with the logarithm of the table.
pub(crate) fn tap_edits(
    alloc: Global,
    change: &Rewiring,
    ports: &[usize],
) -> Result<Edits<TapRow>, OutOfMemory>
    requires down { KeysDescend nat_lt ports.now }
    requires stay { (k : _) → among nat_lt k ports.now ≡ false
        → at_before change.now.ports k ≡ at_after change.now.ports k }
    requires networks { (k : _) (p : ThePort) → among nat_lt k ports.now ≡ false
        → at_before change.now.ports k ≡ Some p
        → SeesAlike change.now.before.now change.now.after.now change.now.old change.now.new p }
    ensures { IfOk result
        (λ es. Rewires nat_lt
        (keyed_taps (numbered_rows change.now.before.now) change.now.host.now change.now.old)
        (keyed_taps (numbered_rows_after change.now.before.now change.now.items.now)
        change.now.host.now change.now.new)
        change.now.tables.now.lists.taps
        (tap_rows change.now.after.now change.now.host.now change.now.new) es) }
{
    let table = TapTable { change };
    edits_by_row(alloc, &table, change.tables.taps(), &change.ports, ports)
}
