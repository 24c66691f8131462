//! A router's live ports, its gateway address and its floating addresses.

ghost use Rattle.std.specs.Prelude.{◌≡◌, find, not, option_copied, option_map};
ghost use Rattle.std.specs.List.{list_any};
ghost use Rattle.net_addr.specs.Addresses.{addr_eq};
ghost use Rattle.net_addr.specs.declared.address.Addr.TheVariants.{V4};
ghost use Rattle.net_addr.specs.Ordered.{four as number_of_four};
ghost use Rattle.api_types.specs.Owners.{is_interface as interface_of};
ghost use Rattle.api_types.specs.Table.{ident_eq};
ghost use Rattle.api_types.specs.declared.port.PortRow.{PortRow as ThePort};
ghost use Rattle.api_types.specs.Holders.{holds as holds_address};
ghost use Rattle.api_types.specs.RouterRows.{first_four as first_of_four, float_by, floats_of, gateway_address as gateway_by_rows, is_leg_of, legs_of};
ghost use Rattle.api_types.specs.RouterViews.{Float};

use crate::holders::gateway_port;
use crate::live::is_live;
use api_types::{FloatingRow, Id, PortRow, RouterRow, Rows};
use net_addr::{Addr, Addr4};

/// Whether a port is a live port of the router.
pub fn is_leg(rows: &Rows, router: &RouterRow, port: &PortRow) -> bool
    ensures { result ≡ is_leg_of rows.now router.now port.now }
{
    port.is_of(router) && is_live(rows, port)
}

/// The live port of the router with this id. Its cost grows with the ports.
#[tactic(auto, unfolding(api_types::specs::RouterRows::legs_of))]
pub fn leg<'r>(rows: &'r Rows, router: &RouterRow, id: Id) -> Option<&'r PortRow>
    ensures { option_copied result
        ≡ find (λ (p : ThePort). ident_eq id p.id) (legs_of rows.now router.now) }
{
    for port in rows.ports().rows() {
        if is_leg(rows, router, port) && id == port.id {
            return Some(port);
        }
    }
    None
}

/// Whether a live port of the router holds the address. Its cost grows with the ports and their
/// addresses.
#[tactic(auto, unfolding(api_types::specs::RouterRows::legs_of))]
pub fn is_own_address(rows: &Rows, router: &RouterRow, address: &Addr) -> bool
    ensures { result
        ≡ list_any (λ (p : ThePort). holds_address p address.now) (legs_of rows.now router.now) }
{
    for port in rows.ports().rows() {
        if is_leg(rows, router, port) && port.holds(address) {
            return true;
        }
    }
    false
}

/// Whether a live port of the router is no interface, but its gateway port. Its cost grows with the
/// ports.
#[tactic(auto, unfolding(api_types::specs::RouterRows::legs_of))]
pub fn has_live_gateway(rows: &Rows, router: &RouterRow) -> bool
    ensures { result
        ≡ list_any (λ (p : ThePort). not (interface_of p.owner)) (legs_of rows.now router.now) }
{
    for port in rows.ports().rows() {
        if is_leg(rows, router, port) && !port.is_interface() {
            return true;
        }
    }
    false
}

// The address, where it is of version 4.
fn four(address: &Addr) -> Option<Addr4>
    ensures { result ≡ number_of_four address.now }
{
    match address {
        Addr::V4(x) => Some(*x),
        Addr::V6(_) => None,
    }
}

// The first address of version 4 of a port.
fn first_four(port: &PortRow) -> Option<Addr4>
    ensures { result ≡ first_of_four port.now.fixed }
{
    for fixed in port.fixed.as_slice() {
        if let Some(address) = four(&fixed.address) {
            return Some(address);
        }
    }
    None
}

/// The first address of version 4 of the router's gateway port, whether or not that is live.
pub fn gateway_address(rows: &Rows, router: &RouterRow) -> Option<Addr4>
    ensures { result ≡ gateway_by_rows rows.now router.now }
{
    match gateway_port(rows, router) {
        Some(port) => first_four(port),
        None => None,
    }
}

// The fixed address that a floating address of this router stands for.
fn fixed_by(floating: &FloatingRow, router: Id) -> Option<Addr4>
    ensures { result
        ≡ option_map (λ (f : Float). f.fixed) (float_by router floating.now floating.now.target) }
{
    match floating.target {
        Some(target) if router == target.router => Some(target.fixed),
        _ => None,
    }
}

/// The fixed address for which an address stands, that is a floating one and names the router. Its
/// cost grows with the floating addresses.
#[tactic(auto, unfolding(api_types::specs::RouterRows::floats_of))]
pub fn fixed_behind(rows: &Rows, router: &RouterRow, floating: &Addr) -> Option<Addr4>
    ensures { result
        ≡ option_map (λ (f : Float). f.fixed)
        (find (λ (f : Float). addr_eq (V4 f.floating) floating.now)
        (floats_of rows.now router.now)) }
{
    for row in rows.floatings().rows() {
        if let Some(fixed) = fixed_by(row, router.id) {
            if Addr::V4(row.address) == *floating {
                return Some(fixed);
            }
        }
    }
    None
}

/// The floating address that stands for an address, of those that name the router. Its cost grows
/// with the floating addresses.
#[tactic(auto, unfolding(api_types::specs::RouterRows::floats_of))]
pub fn floating_for(rows: &Rows, router: &RouterRow, fixed: &Addr) -> Option<Addr4>
    ensures { result
        ≡ option_map (λ (f : Float). f.floating)
        (find (λ (f : Float). addr_eq (V4 f.fixed) fixed.now) (floats_of rows.now router.now)) }
{
    for row in rows.floatings().rows() {
        if let Some(inner) = fixed_by(row, router.id) {
            if Addr::V4(inner) == *fixed {
                return Some(row.address);
            }
        }
    }
    None
}
