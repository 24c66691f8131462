//! The first clause of consistency that rows break, in the order of the clauses.

ghost use Rattle.std.specs.Prelude.{◌≡◌, ◌↔◌, None};
ghost use Rattle.api_types.specs.Consistent.{IsConsistent};
ghost use Rattle.api_types.specs.Consistent.Carried.{AreCarried};
ghost use Rattle.api_ml2.specs.Carrying.{carries};
ghost use Rattle.api_check.specs.FirstBroken.{first_broken_of};

use crate::broken::{Inconsistent, first_broken_row};
use crate::clauses::{
    broken_disjoint, broken_form, broken_group, broken_name, broken_number, broken_outside,
    broken_service,
};
use crate::hosts::broken_placing;
use crate::segments::broken_segment;
use api_clauses::{AllowedPort, HostAddresses, LeadingFloating, OnlyHolder, ReachedRoutes};
use api_types::Rows;
use net_settings::Settings;

#[tactic(auto, unfolding(crate::specs::FirstBroken::first_broken_of, crate::specs::Broken::first_some))]
fn first_of(rows: &Rows, settings: &Settings) -> Option<Inconsistent>
    ensures { result ≡ first_broken_of settings.now.hosts rows.now }
{
    broken_number(rows)
        .or_else(|| broken_name(rows))
        .or_else(|| broken_form(rows))
        .or_else(|| first_broken_row::<OnlyHolder>(rows))
        .or_else(|| first_broken_row::<HostAddresses>(rows))
        .or_else(|| broken_disjoint(rows))
        .or_else(|| broken_segment(rows))
        .or_else(|| broken_placing(settings, rows))
        .or_else(|| broken_service(rows))
        .or_else(|| first_broken_row::<LeadingFloating>(rows))
        .or_else(|| broken_group(rows))
        .or_else(|| first_broken_row::<AllowedPort>(rows))
        .or_else(|| broken_outside(rows))
        .or_else(|| first_broken_row::<ReachedRoutes>(rows))
}

/// The first broken clause with the first row that breaks it, kinds in the order of `Kind`, or
/// None where the rows are consistent. It allocates nothing, and its cost grows with the square of
/// the rows.
pub fn first_broken(rows: &Rows, settings: &Settings) -> Option<Inconsistent>
    ensures first { result ≡ first_broken_of settings.now.hosts rows.now }
    ensures none { (result ≡ None) ↔
        (IsConsistent rows.now
        × AreCarried (carries settings.now.hosts) rows.now.networks rows.now.ports) }
{
    first_of(rows, settings)
}
