//! The table `taps`: the ports here, and as what each may send.

ghost use Rattle.std.specs.Prelude.{◌≡◌, ◌++◌, IfOk, OnOk, map};
ghost use Rattle.net_addr.specs.Ordered.{whole_prefix};
ghost use Rattle.api_types.specs.declared.port.Fixed.{Fixed as TheFixed};
ghost use Rattle.plane_types.specs.TableRows.{allowed_of as allowed_by_rows, is_tap as is_tap_by_rows, tap_row as tap_row_of, tap_rows as tap_rows_of};

use api_types::{Fixed, Pair, PortRow, Rows};
use net_addr::{Mac, OutOfMemory, Seq, Text};
use plane_rows::is_here;
use plane_types::{TagMap, TagRow, TapRow};
use std::alloc::Global;

/// Whether a port is live on the host and no router's.
pub(crate) fn is_tap(rows: &Rows, host: &Text, port: &PortRow) -> bool
    ensures { result ≡ is_tap_by_rows rows.now host.now port.now }
{
    is_here(rows, host, port) && !port.is_router_port()
}

// Adds a pair of the MAC and each of these addresses.
fn add_addresses(allowed: &mut Seq<Pair>, mac: Mac, fixed: &[Fixed]) -> Result<(), OutOfMemory>
    ensures { OnOk result
        (allowed.new
        ≡ allowed.old
        ++ map (λ (f : TheFixed). record { mac = mac; prefix = whole_prefix f.address })
        fixed.now) }
{
    for held in fixed {
        allowed.push(Pair {
            mac,
            prefix: held.address.whole_prefix(),
        })?;
    }
    Ok(())
}

// Adds these pairs.
fn add_pairs(allowed: &mut Seq<Pair>, pairs: &[Pair]) -> Result<(), OutOfMemory>
    ensures { OnOk result (allowed.new ≡ allowed.old ++ pairs.now) }
{
    for pair in pairs {
        allowed.push(*pair)?;
    }
    Ok(())
}

// As what a port may send.
fn allowed_of(alloc: Global, port: &PortRow) -> Result<Seq<Pair>, OutOfMemory>
    ensures { IfOk result (λ a. a ≡ allowed_by_rows port.now) }
{
    let mut allowed = Seq::new(alloc);
    add_addresses(&mut allowed, port.mac, port.fixed.as_slice())?;
    add_pairs(&mut allowed, port.pairs.as_slice())?;
    Ok(allowed)
}

// The row of a port, where it is a tap here.
fn tap_row(
    alloc: Global,
    rows: &Rows,
    host: &Text,
    tags: &TagMap,
    port: &PortRow,
) -> Result<Option<TapRow>, OutOfMemory>
    ensures { IfOk result (λ o. o ≡ tap_row_of rows.now host.now tags.now port.now) }
{
    if !is_tap(rows, host, port) {
        return Ok(None);
    }
    let Some(tag) = tags.tag_of(port.network) else {
        return Ok(None);
    };
    Ok(Some(TapRow {
        port: port.id,
        tag,
        mac: port.mac,
        secured: port.secured,
        allowed: allowed_of(alloc, port)?,
    }))
}

// The rows of all taps.
#[tactic(auto, unfolding(plane_types::specs::TableRows::tap_rows))]
fn rows_of_taps(
    alloc: Global,
    rows: &Rows,
    host: &Text,
    tags: &TagMap,
) -> Result<Seq<TapRow>, OutOfMemory>
    ensures { IfOk result (λ t. t ≡ tap_rows_of rows.now host.now tags.now) }
{
    let mut taps = Seq::new(alloc);
    for port in rows.ports().rows() {
        if let Some(row) = tap_row(alloc, rows, host, tags, port)? {
            taps.push(row)?;
        }
    }
    Ok(taps)
}

/// A row for each live port of the host that is no router's. Its cost grows with the ports and the
/// tags.
pub(crate) fn tap_rows(
    alloc: Global,
    rows: &Rows,
    host: &Text,
    tags: &[TagRow],
) -> Result<Seq<TapRow>, OutOfMemory>
    ensures { IfOk result (λ t. t ≡ tap_rows_of rows.now host.now tags.now) }
{
    let tags = TagMap::of(alloc, tags)?;
    rows_of_taps(alloc, rows, host, &tags)
}
