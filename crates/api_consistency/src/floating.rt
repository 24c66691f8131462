//! Clauses 9 and 10: floating addresses' own ports, and where they lead.

ghost use Rattle.std.specs.Prelude.{◌≡◌, ◌≤◌, ◌&&◌, ◌||◌, ℕ, IfOk, count_by, not, map, true};
ghost use Rattle.std.specs.List.{list_all, list_any, filter_map};
ghost use Rattle.net_addr.specs.Addresses.{is_four};
ghost use Rattle.api_types.specs.Ident.{Ident};
ghost use Rattle.api_types.specs.Table.{ident_eq};
ghost use Rattle.api_types.specs.Lists.{stands_so, if_some};
ghost use Rattle.api_types.specs.Consistent.Services as services;
ghost use Rattle.api_types.specs.Consistent.Services.{OwnPortsServe};
ghost use Rattle.api_types.specs.Consistent.Floating as leading;
ghost use Rattle.api_types.specs.Consistent.Floating.{FloatingsLead};
ghost use Rattle.api_types.specs.Consistent.Named as named;
ghost use Rattle.api_types.specs.declared.port.Fixed.{Fixed as TheFixed};
ghost use Rattle.api_consistency.specs.Keys as keys;

use crate::known::Known;
use crate::numbers::{id_number, single};
use crate::stretch::{Stretch, are_apart};
use api_types::{Fixed, FloatingRow, Id, PortRow, RouterRow, Rows, Shared, Target, Vif};
use net_addr::{Addr, Addr4, OutOfMemory};
use std::alloc::Global;

fn own_ports(alloc: Global, floatings: &[Shared<FloatingRow>]) -> Result<Vec<Stretch>, OutOfMemory>
    ensures { IfOk result (λ v. v.items ≡ map keys.of_own_port floatings.now) }
{
    let mut ports = Vec::new(alloc);
    for floating in floatings {
        ports.push(single(0, id_number(floating.own_port)))?;
    }
    Ok(ports)
}

fn holds_just(address: Addr4, fixed: &[Fixed]) -> bool
    ensures { result ≡ services.holds_just address fixed.now }
{
    fixed.len() == 1 && fixed[0].address == Addr::V4(address)
}

fn is_port_for(floating: &FloatingRow, port: &PortRow) -> bool
    ensures { result ≡ services.is_port_for floating.now port.now }
{
    floating.network == port.network
        && port.is_floating()
        && holds_just(floating.address, port.fixed.as_slice())
        && port.vif == Vif::Unbound
}

#[tactic(auto, using(crate::proofs::FoundLemmas::found_so, crate::proofs::FoundLemmas::not_found_so))]
fn has_port(rows: &Rows, floating: &FloatingRow) -> bool
    ensures { result
        ≡ stands_so (λ p. p.id) floating.now.own_port (services.is_port_for floating.now)
        rows.now.ports }
{
    let _own_ids = rows.ports().rows();
    match rows.ports().get(floating.own_port) {
        Some(port) => is_port_for(floating, port),
        None => false,
    }
}

fn have_ports(rows: &Rows) -> bool
    ensures { result
        ≡ list_all (λ f. stands_so (λ p. p.id) f.own_port (services.is_port_for f) rows.now.ports)
        rows.now.floatings }
{
    rows.floatings()
        .rows()
        .iter()
        .all(|floating| has_port(rows, floating))
}

fn is_bare(known: &Known, port: &PortRow) -> bool
    ensures { result
        ≡ (not (named.is_own_port known.now.floatings port.now.id) || not port.now.secured) }
{
    !known.is_own_port(port) || !port.secured
}

fn are_bare(known: &Known) -> bool
    ensures { result
        ≡ list_all (λ p. not (named.is_own_port known.now.floatings p.id) || not p.secured)
        known.now.ports }
{
    known
        .rows()
        .ports()
        .rows()
        .iter()
        .all(|port| is_bare(known, port))
}

fn are_own_ports_once(alloc: Global, known: &Known) -> Result<bool, OutOfMemory>
    ensures { IfOk result
        (λ b. b ≡ true
        → (i : Ident) → count_by (λ f. ident_eq i f.own_port) known.now.floatings ≤ 1) }
{
    let ports = own_ports(alloc, known.floatings())?;
    Ok(are_apart(ports))
}

fn are_served(known: &Known) -> bool
    ensures { result
        ≡ (list_all (λ f. stands_so (λ p. p.id) f.own_port (services.is_port_for f) known.now.ports)
        known.now.floatings
        && list_all (λ p. not (named.is_own_port known.now.floatings p.id) || not p.secured)
        known.now.ports) }
{
    have_ports(known.rows()) && are_bare(known)
}

/// Whether each floating address has a port of its own that serves it. Its cost grows with the
/// ports, the floating addresses and the logarithm of their number.
pub(crate) fn are_own_ports(alloc: Global, known: &Known) -> Result<bool, OutOfMemory>
    ensures { IfOk result (λ b. b ≡ true → OwnPortsServe known.now.ports known.now.floatings) }
{
    if !are_served(known) {
        return Ok(false);
    }
    are_own_ports_once(alloc, known)
}

fn target_of(floating: &FloatingRow) -> Option<Stretch>
    ensures { result ≡ keys.of_target floating.now }
{
    match &floating.target {
        Some(target) => {
            let at_port = id_number(target.port) * 0x1_0000_0000 + u128::from(target.fixed.0);
            Some(single(id_number(floating.network), at_port))
        }
        None => None,
    }
}

fn targets_of(alloc: Global, floatings: &[Shared<FloatingRow>]) -> Result<Vec<Stretch>, OutOfMemory>
    ensures { IfOk result (λ v. v.items ≡ filter_map keys.of_target floatings.now) }
{
    let mut targets = Vec::new(alloc);
    for floating in floatings {
        if let Some(target) = target_of(floating) {
            targets.push(target)?;
        }
    }
    Ok(targets)
}

fn is_interface_on(router: Id, subnet: Id, port: &PortRow) -> bool
    ensures { result ≡ keys.is_interface_on router subnet port.now }
{
    port.is_interface() && (port.has_device(router) && port.holds_in(subnet))
}

#[tactic(auto, using(crate::proofs::FoundLemmas::place_any))]
fn is_interface_at(ports: &[Shared<PortRow>], router: Id, subnet: Id, place: usize) -> bool
    ensures { result ≡ true → leading.has_interface ports.now router subnet ≡ true }
{
    match ports.get(place) {
        Some(port) => is_interface_on(router, subnet, port),
        None => false,
    }
}

fn has_known_interface(known: &Known, router: Id, subnet: Id) -> bool
    ensures { result ≡ true → leading.has_interface known.now.ports router subnet ≡ true }
{
    match known.interface_place(router, subnet) {
        Some(place) => is_interface_at(known.ports(), router, subnet, place),
        None => false,
    }
}

#[tactic(auto, using(crate::proofs::FoundLemmas::first_or))]
fn has_interface(known: &Known, router: Id, subnet: Id) -> bool
    ensures { result ≡ leading.has_interface known.now.ports router subnet }
{
    has_known_interface(known, router, subnet) || has_any_interface(known.ports(), router, subnet)
}

fn has_any_interface(ports: &[Shared<PortRow>], router: Id, subnet: Id) -> bool
    ensures { result ≡ leading.has_interface ports.now router subnet }
{
    ports
        .iter()
        .any(|port| is_interface_on(router, subnet, port))
}

fn is_target_fixed(known: &Known, target: &Target, fixed: &Fixed) -> bool
    ensures { result
        ≡ (is_four fixed.now.address target.now.fixed
        && leading.has_interface known.now.ports target.now.router fixed.now.subnet) }
{
    fixed.address == Addr::V4(target.fixed) && has_interface(known, target.router, fixed.subnet)
}

fn holds_target(known: &Known, target: &Target, port: &PortRow) -> bool
    ensures { result
        ≡ list_any
        (λ (x : TheFixed). is_four x.address target.now.fixed
        && leading.has_interface known.now.ports target.now.router x.subnet) port.now.fixed }
{
    port.fixed
        .iter()
        .any(|fixed| is_target_fixed(known, target, fixed))
}

fn is_target_port(known: &Known, floating: &FloatingRow, target: &Target, port: &PortRow) -> bool
    ensures { result
        ≡ leading.is_target_port known.now.ports floating.now target.now port.now }
{
    port.project == floating.project && holds_target(known, target, port)
}

#[tactic(auto, using(crate::proofs::FoundLemmas::found_so, crate::proofs::FoundLemmas::not_found_so))]
fn has_target_port(known: &Known, floating: &FloatingRow, target: &Target) -> bool
    ensures { result
        ≡ stands_so (λ p. p.id) target.now.port
        (leading.is_target_port known.now.ports floating.now target.now) known.now.ports }
{
    let _own_ids = known.rows().ports().rows();
    match known.rows().ports().get(target.port) {
        Some(port) => is_target_port(known, floating, target, port),
        None => false,
    }
}

fn is_target_router(floating: &FloatingRow, router: &RouterRow) -> bool
    ensures { result ≡ leading.is_target_router floating.now router.now }
{
    let outside = match router.gateway {
        Some(gateway) => gateway.network == floating.network,
        None => false,
    };
    router.project == floating.project && outside
}

#[tactic(auto, using(crate::proofs::FoundLemmas::found_so, crate::proofs::FoundLemmas::not_found_so))]
fn has_target_router(rows: &Rows, floating: &FloatingRow, target: &Target) -> bool
    ensures { result
        ≡ stands_so (λ r. r.id) target.now.router (leading.is_target_router floating.now)
        rows.now.routers }
{
    let _own_ids = rows.routers().rows();
    match rows.routers().get(target.router) {
        Some(router) => is_target_router(floating, router),
        None => false,
    }
}

fn leads(known: &Known, floating: &FloatingRow) -> bool
    ensures { result
        ≡ if_some (leading.leads_to known.now.ports known.now.routers floating.now)
        floating.now.target }
{
    match &floating.target {
        Some(target) => {
            has_target_port(known, floating, target)
                && has_target_router(known.rows(), floating, target)
        }
        None => true,
    }
}

fn all_lead(known: &Known) -> bool
    ensures { result
        ≡ list_all (λ f. if_some (leading.leads_to known.now.ports known.now.routers f) f.target)
        known.now.floatings }
{
    known
        .rows()
        .floatings()
        .rows()
        .iter()
        .all(|floating| leads(known, floating))
}

fn are_targets_once(alloc: Global, known: &Known) -> Result<bool, OutOfMemory>
    ensures { IfOk result
        (λ b. b ≡ true
        → (network port : Ident) (x : ℕ)
        → count_by (leading.stands_for network port x) known.now.floatings ≤ 1) }
{
    let targets = targets_of(alloc, known.floatings())?;
    Ok(are_apart(targets))
}

/// Whether each associated floating address leads to a port of its project by a router of its
/// project, and none leads where another one of its network does. Its cost grows with the floating
/// addresses and the logarithm of their number.
pub(crate) fn are_leading(alloc: Global, known: &Known) -> Result<bool, OutOfMemory>
    ensures { IfOk result
        (λ b. b ≡ true → FloatingsLead known.now.ports known.now.routers known.now.floatings) }
{
    if !all_lead(known) {
        return Ok(false);
    }
    are_targets_once(alloc, known)
}
