//! The first clause of consistency that rows break, found in a time near linear in sound rows.

ghost use Rattle.std.specs.Prelude.{◌≡◌, ◌↔◌, IfOk, None, true};
ghost use Rattle.api_types.specs.Consistent.{IsConsistent};
ghost use Rattle.api_types.specs.Consistent.Carried.{AreCarried};
ghost use Rattle.api_ml2.specs.Carrying.{carries};
ghost use Rattle.api_check.specs.FirstBroken.{first_broken_of};
ghost use Rattle.api_consistency.specs.Keys as keys;
ghost use Rattle.api_consistency.specs.Parts.{AreApart, AreServed};

use crate::disjoint::are_disjoint;
use crate::floating::{are_leading, are_own_ports};
use crate::forms::are_in_form;
use crate::groups::are_groups;
use crate::held::{are_held_once, are_hosts};
use crate::known::Known;
use crate::named::are_named;
use crate::numbered::are_numbered;
use crate::permitted::{are_allowed, are_outsides, are_routes};
use crate::placed::are_placed;
use crate::routers::are_router_ports;
use crate::segments::are_segments_apart;
use crate::services::are_dhcp_ports;
use api_check::{Inconsistent, first_broken};
use api_types::Rows;
use net_addr::OutOfMemory;
use net_settings::{Host, Settings};
use std::alloc::Global;

// Whether ports, gateways and routes stand in order among other rows.
fn are_ports_sound(hosts: &[Host], known: &Known) -> bool
    ensures { result ≡ keys.are_ports_sound (carries hosts.now) known.now }
{
    let rows = known.rows();
    are_placed(hosts, rows) && (are_router_ports(rows) && (are_allowed(rows) && are_routes(known)))
}

// Whether each row by itself stands in order among the others.
fn are_rows_sound(hosts: &[Host], known: &Known) -> bool
    ensures { result ≡ keys.are_rows_sound (carries hosts.now) known.now }
{
    let rows = known.rows();
    are_named(known) && (are_in_form(rows) && (are_hosts(rows) && are_ports_sound(hosts, known)))
}

// Whether nothing that a row has for itself is another's too.
fn are_rows_apart(alloc: Global, known: &Known) -> Result<bool, OutOfMemory>
    ensures { IfOk result (λ b. b ≡ true → AreApart known.now) }
{
    if !are_numbered(alloc, known)? {
        return Ok(false);
    }
    if !are_held_once(alloc, known)? {
        return Ok(false);
    }
    if !are_segments_apart(alloc, known)? {
        return Ok(false);
    }
    are_disjoint(alloc, known)
}

// Whether networks, floating addresses, projects and policies have what they should, and once.
fn are_served(alloc: Global, known: &Known) -> Result<bool, OutOfMemory>
    ensures { IfOk result (λ b. b ≡ true → AreServed known.now) }
{
    if !are_dhcp_ports(alloc, known)? {
        return Ok(false);
    }
    if !are_own_ports(alloc, known)? {
        return Ok(false);
    }
    if !are_leading(alloc, known)? {
        return Ok(false);
    }
    if !are_groups(alloc, known)? {
        return Ok(false);
    }
    are_outsides(alloc, known)
}

// Whether known rows are consistent; false may also be answered where they are.
fn are_sound(alloc: Global, hosts: &[Host], known: &Known) -> Result<bool, OutOfMemory>
    ensures { IfOk result (λ b. b ≡ true → first_broken_of hosts.now known.now ≡ None) }
{
    if !are_rows_sound(hosts, known) {
        return Ok(false);
    }
    if !are_rows_apart(alloc, known)? {
        return Ok(false);
    }
    are_served(alloc, known)
}

// The same of rows.
fn is_sound(alloc: Global, rows: &Rows, settings: &Settings) -> Result<bool, OutOfMemory>
    ensures { IfOk result
        (λ b. b ≡ true → first_broken_of settings.now.hosts rows.now ≡ None) }
{
    let known = Known::of(alloc, rows)?;
    are_sound(alloc, settings.hosts(), &known)
}

fn first_of(alloc: Global, rows: &Rows, settings: &Settings) -> Option<Inconsistent>
    ensures { result ≡ first_broken_of settings.now.hosts rows.now }
{
    match is_sound(alloc, rows, settings) {
        Ok(true) => None,
        Ok(false) => first_broken(rows, settings),
        Err(_) => first_broken(rows, settings),
    }
}

/// The first broken clause with the first row that breaks it, kinds in the order of `Kind`, or
/// None where the rows are consistent: what `first_broken` answers. Its cost grows with the rows
/// and the logarithm of their number, as its memory does with them. Where a clause is broken or
/// memory runs out, it grows with the square of the rows.
pub fn find_broken(alloc: Global, rows: &Rows, settings: &Settings) -> Option<Inconsistent>
    ensures first { result ≡ first_broken_of settings.now.hosts rows.now }
    ensures none { (result ≡ None) ↔
        (IsConsistent rows.now
        × AreCarried (carries settings.now.hosts) rows.now.networks rows.now.ports) }
{
    first_of(alloc, rows, settings)
}
