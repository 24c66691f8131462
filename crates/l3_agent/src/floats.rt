//! The table `floats`: floating addresses that routers here translate.

ghost use Rattle.std.specs.Prelude.{◌≡◌, IfOk};
ghost use Rattle.api_types.specs.RowsWith.{router_with};
ghost use Rattle.plane_types.specs.TableRows.{float_row_by, float_rows as float_rows_of, is_hosted as is_hosted_by_rows};

use crate::routers::is_hosted;
use api_types::{FloatingRow, Id, Rows};
use net_addr::{OutOfMemory, Seq, Text};
use plane_rows::named_router;
use plane_types::FloatRow;
use std::alloc::Global;

// Whether the router with this id stands on the host.
fn is_hosted_here(rows: &Rows, host: &Text, router: Id) -> bool
    ensures { result ≡ is_hosted_by_rows host.now (router_with rows.now router) }
{
    match named_router(rows, router) {
        Some(router) => is_hosted(host, router),
        None => false,
    }
}

// The row of a floating address, where it is associated by a router of the host.
fn float_row(rows: &Rows, host: &Text, floating: &FloatingRow) -> Option<FloatRow>
    ensures { result ≡ float_row_by rows.now host.now floating.now floating.now.target }
{
    let target = floating.target?;
    if !is_hosted_here(rows, host, target.router) {
        return None;
    }
    Some(FloatRow {
        id: floating.id,
        router: target.router,
        floating: floating.address,
        fixed: target.fixed,
    })
}

/// A row for each floating address that a router of the host translates. Its cost grows with the
/// floating addresses.
#[tactic(auto, unfolding(plane_types::specs::TableRows::float_rows))]
pub(crate) fn float_rows(
    alloc: Global,
    rows: &Rows,
    host: &Text,
) -> Result<Seq<FloatRow>, OutOfMemory>
    ensures { IfOk result (λ f. f ≡ float_rows_of rows.now host.now) }
{
    let mut floats = Seq::new(alloc);
    for floating in rows.floatings().rows() {
        if let Some(row) = float_row(rows, host, floating) {
            floats.push(row)?;
        }
    }
    Ok(floats)
}
