//! Floating addresses whose fixed address leaves its port.

ghost use Rattle.std.specs.Prelude.{◌≡◌, ◌&&◌, IfOk, filter, map, not};
ghost use Rattle.std.specs.List.{list_any};
ghost use Rattle.net_addr.specs.Addresses.{is_four};
ghost use Rattle.api_types.specs.Lists.{is_some_so};
ghost use Rattle.api_types.specs.declared.floating.FloatingRow.{FloatingRow as TheFloating};
ghost use Rattle.api_types.specs.declared.kind.Row.TheVariants.{Floating as FloatingOf};
ghost use Rattle.api_types.specs.declared.port.Fixed.{Fixed as TheFixed};
ghost use Rattle.call_parts.specs.Edits.{Put, made};
ghost use Rattle.call_parts.specs.Leaving.{disassociations};
ghost use Rattle.call_parts.specs.Leaving as leaving;

use crate::draft::Draft;
use api_types::{Fixed, FloatingRow, Id, Shared, Target};
use net_addr::{Addr, Addr4, Copies, OutOfMemory};
use std::alloc::Global;

fn keeps(kept: &[Fixed], address: Addr4) -> bool
    ensures { result ≡ list_any (λ (f : TheFixed). is_four f.address address) kept.now }
{
    let address = Addr::V4(address);
    kept.iter().any(|fixed| fixed.address == address)
}

fn loses_target(port: Id, kept: &[Fixed], target: &Target) -> bool
    ensures { result ≡ leaving.loses_target port kept.now target.now }
{
    port == target.port && !keeps(kept, target.fixed)
}

fn is_lost(port: Id, kept: &[Fixed], floating: &FloatingRow) -> bool
    ensures { result ≡ is_some_so (leaving.loses_target port kept.now) floating.now.target }
{
    match &floating.target {
        Some(target) => loses_target(port, kept, target),
        None => false,
    }
}

fn disassociated(alloc: Global, floating: &FloatingRow) -> Result<FloatingRow, OutOfMemory>
    ensures { IfOk result (λ f. f ≡ leaving.disassociated floating.now) }
{
    let mut changed = floating.copy(alloc)?;
    changed.target = None;
    Ok(changed)
}

// The floating addresses that lose their target, without it.
fn all_disassociated(
    alloc: Global,
    floatings: &[Shared<FloatingRow>],
    port: Id,
    kept: &[Fixed],
) -> Result<Vec<FloatingRow>, OutOfMemory>
    ensures { IfOk result
        (λ lost. lost.items
        ≡ map leaving.disassociated
        (filter (λ (f : TheFloating). is_some_so (leaving.loses_target port kept.now) f.target)
        floatings.now)) }
{
    let mut lost = Vec::new(alloc);
    for floating in floatings {
        if is_lost(port, kept, floating) {
            lost.push(disassociated(alloc, floating)?)?;
        }
    }
    Ok(lost)
}

// Each of these rows in its place.
fn put_all(alloc: Global, draft: Draft, floatings: Vec<FloatingRow>) -> Result<Draft, OutOfMemory>
    ensures start { IfOk result (λ d. d.start ≡ draft.start) }
    ensures rows { IfOk result
        (λ d. d.rows
        ≡ made draft.rows (map (λ (f : TheFloating). Put (FloatingOf f)) floatings.items)) }
{
    let mut draft = draft;
    for floating in floatings {
        draft = draft.put(alloc, floating)?;
    }
    Ok(draft)
}

/// Disassociates the floating addresses that stand for addresses of the port that it doesn't keep.
/// Its cost grows with the floating addresses, and for each that is disassociated with them again.
pub fn disassociate(
    alloc: Global,
    draft: Draft,
    port: Id,
    kept: &[Fixed],
) -> Result<Draft, OutOfMemory>
    ensures start { IfOk result (λ d. d.start ≡ draft.start) }
    ensures rows { IfOk result
        (λ d. d.rows
        ≡ made draft.rows (disassociations draft.rows.floatings port kept.now)) }
{
    let settled = draft.settle(alloc)?;
    let lost = all_disassociated(alloc, settled.rows().floatings().rows(), port, kept)?;
    put_all(alloc, settled.into_draft(alloc), lost)
}
