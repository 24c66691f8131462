//! Floating addresses that lead to a port by a router.

ghost use Rattle.std.specs.Prelude.{◌≡◌, ◌&&◌};
ghost use Rattle.std.specs.List.{list_any};
ghost use Rattle.net_addr.specs.Addresses.{is_four};
ghost use Rattle.api_types.specs.Lists.{stands_so};
ghost use Rattle.api_types.specs.Consistent.Floating as leading;
ghost use Rattle.api_types.specs.declared.port.Fixed.{Fixed as TheFixed};
ghost use Rattle.api_clauses.specs.Floatings as associated;

use crate::clause::Clause;
use api_types::{FloatingRow, Id, PortRow, RouterRow, Rows, Shared, Target};
use net_addr::{Addr, Addr4};

fn has_interface(ports: &[Shared<PortRow>], router: Id, subnet: Id) -> bool
    ensures { result ≡ leading.has_interface ports.now router subnet }
{
    ports.iter().any(|port| {
        port.is_interface() && (port.has_device(router) && port.holds_in(subnet))
    })
}

fn holds_target(ports: &[Shared<PortRow>], target: &Target, port: &PortRow) -> bool
    ensures { result
        ≡ list_any
        (λ (x : TheFixed). is_four x.address target.now.fixed
        && leading.has_interface ports.now target.now.router x.subnet) port.now.fixed }
{
    port.fixed.iter().any(|fixed| {
        fixed.address == Addr::V4(target.fixed) && has_interface(ports, target.router, fixed.subnet)
    })
}

fn is_target_port(
    ports: &[Shared<PortRow>],
    floating: &FloatingRow,
    target: &Target,
    port: &PortRow,
) -> bool
    ensures { result ≡ leading.is_target_port ports.now floating.now target.now port.now }
{
    port.project == floating.project && holds_target(ports, target, port)
}

fn has_target_port(ports: &[Shared<PortRow>], floating: &FloatingRow, target: &Target) -> bool
    ensures { result
        ≡ stands_so (λ p. p.id) target.now.port
        (leading.is_target_port ports.now floating.now target.now) ports.now }
{
    ports.iter().any(|port| target.port == port.id && is_target_port(ports, floating, target, port))
}

fn is_target_router(floating: &FloatingRow, router: &RouterRow) -> bool
    ensures { result ≡ leading.is_target_router floating.now router.now }
{
    let outside = match router.gateway {
        Some(gateway) => gateway.network == floating.network,
        None => false,
    };
    router.project == floating.project && outside
}

fn has_target_router(routers: &[Shared<RouterRow>], floating: &FloatingRow, target: &Target) -> bool
    ensures { result
        ≡ stands_so (λ r. r.id) target.now.router (leading.is_target_router floating.now)
        routers.now }
{
    routers.iter().any(|router| target.router == router.id && is_target_router(floating, router))
}

fn stands_for(network: Id, port: Id, address: Addr4, floating: &FloatingRow) -> bool
    ensures { result ≡ leading.stands_for network port address floating.now }
{
    let there = match floating.target {
        Some(target) => port == target.port && target.fixed == address,
        None => false,
    };
    network == floating.network && there
}

fn is_target_alone(
    floatings: &[Shared<FloatingRow>],
    floating: &FloatingRow,
    target: &Target,
) -> bool
    ensures { result ≡ associated.target_alone floatings.now floating.now target.now }
{
    floatings
        .iter()
        .filter(|other| stands_for(floating.network, target.port, target.fixed, other))
        .count()
        <= 1
}

/// An associated floating address leads to a port of its project that holds the fixed address, by a
/// router of its project with an interface on that address's subnet and its gateway on the floating
/// network, and no other floating address of its network leads there. The cost grows with the
/// square of the ports at most.
pub struct LeadingFloating;

impl Clause for LeadingFloating {
    type Row = FloatingRow;

    const RULE: u8 = 10;

    ghost RULE = { 10 };

    ghost test = { associated.floating_leads };

    fn meets(rows: &Rows, floating: &FloatingRow) -> bool {
        let Some(target) = &floating.target else {
            return true;
        };
        is_target_alone(rows.floatings().rows(), floating, target)
            && (has_target_port(rows.ports().rows(), floating, target)
                && has_target_router(rows.routers().rows(), floating, target))
    }
}
