//! Floating addresses of copied routers.

ghost use Rattle.std.specs.Prelude.{◌≡◌, IfOk};
ghost use Rattle.api_types.specs.RowsWith.{router_with};
ghost use Rattle.dvr_types.specs.Copies as copies;

use crate::routers::is_copied;
use api_types::{FloatingRow, Id};
use net_addr::{OutOfMemory, Seq};
use plane_rows::{Legs, named_router};
use plane_types::FloatRow;
use std::alloc::Global;

// Whether the router with this id is copied.
fn is_copied_id(alloc: Global, legs: &Legs, router: Id) -> Result<bool, OutOfMemory>
    ensures { IfOk result
        (λ b. b ≡ copies.is_copied_router legs.now (router_with legs.now router)) }
{
    match named_router(legs.rows(), router) {
        Some(router) => is_copied(alloc, legs, router),
        None => Ok(false),
    }
}

// The row of a floating address, if it is associated by a copied router.
fn copy_float(
    alloc: Global,
    legs: &Legs,
    floating: &FloatingRow,
) -> Result<Option<FloatRow>, OutOfMemory>
    ensures { IfOk result (λ o. o ≡ copies.copy_float legs.now floating.now floating.now.target) }
{
    let Some(target) = floating.target else {
        return Ok(None);
    };
    if !is_copied_id(alloc, legs, target.router)? {
        return Ok(None);
    }
    Ok(Some(FloatRow {
        id: floating.id,
        router: target.router,
        floating: floating.address,
        fixed: target.fixed,
    }))
}

/// A row for each floating address that a copied router translates. Its cost grows with the
/// floating addresses, and for each with the live ports of its router.
#[tactic(auto, unfolding(dvr_types::specs::Copies::floats_of_copies))]
pub(crate) fn copy_floats(alloc: Global, legs: &Legs) -> Result<Seq<FloatRow>, OutOfMemory>
    ensures { IfOk result (λ f. f ≡ copies.floats_of_copies legs.now) }
{
    let mut floats = Seq::new(alloc);
    for floating in legs.rows().floatings().rows() {
        if let Some(row) = copy_float(alloc, legs, floating)? {
            floats.push(row)?;
        }
    }
    Ok(floats)
}
