//! Subnets, and ports of one router, that don't overlap.

ghost use Rattle.std.specs.Prelude.{◌≡◌, ◌&&◌, not};
ghost use Rattle.std.specs.List.{list_any};
ghost use Rattle.net_addr.specs.Prefixes.{overlaps};
ghost use Rattle.api_types.specs.Owners as owners;
ghost use Rattle.api_types.specs.Consistent.Disjoint as disjoint;

use crate::clause::Clause;
use api_types::{PortRow, RouterRow, Rows, Shared, SubnetRow};
use net_addr::Prefix;

fn subnets_clash(a: &SubnetRow, b: &SubnetRow) -> bool
    ensures { result ≡ disjoint.subnets_clash a.now b.now }
{
    a.id != b.id && (a.network == b.network && a.prefix.overlaps(b.prefix))
}

fn clashes_with_subnet(subnets: &[Shared<SubnetRow>], subnet: &SubnetRow) -> bool
    ensures { result ≡ list_any (disjoint.subnets_clash subnet.now) subnets.now }
{
    subnets.iter().any(|other| subnets_clash(subnet, other))
}

fn share_router(routers: &[Shared<RouterRow>], a: &PortRow, b: &PortRow) -> bool
    ensures { result ≡ disjoint.share_router routers.now a.now b.now }
{
    routers
        .iter()
        .any(|router| a.is_of(router) && b.is_of(router))
}

fn holds_overlapping(subnets: &[Shared<SubnetRow>], prefix: Prefix, port: &PortRow) -> bool
    ensures { result
        ≡ list_any (λ t. owners.holds_in t.id port.now && overlaps prefix t.prefix) subnets.now }
{
    subnets.iter().any(|other| port.holds_in(other.id) && prefix.overlaps(other.prefix))
}

fn reaches(subnets: &[Shared<SubnetRow>], subnet: &SubnetRow, a: &PortRow, b: &PortRow) -> bool
    ensures { result
        ≡ (owners.holds_in subnet.now.id a.now
        && list_any (λ t. owners.holds_in t.id b.now && overlaps subnet.now.prefix t.prefix)
        subnets.now) }
{
    a.holds_in(subnet.id) && holds_overlapping(subnets, subnet.prefix, b)
}

fn reach_alike(subnets: &[Shared<SubnetRow>], a: &PortRow, b: &PortRow) -> bool
    ensures { result ≡ disjoint.reach_alike subnets.now a.now b.now }
{
    subnets.iter().any(|subnet| reaches(subnets, subnet, a, b))
}

fn ports_clash(rows: &Rows, a: &PortRow, b: &PortRow) -> bool
    ensures { result ≡ disjoint.ports_clash rows.now.routers rows.now.subnets a.now b.now }
{
    a.id != b.id
        && (share_router(rows.routers().rows(), a, b) && reach_alike(rows.subnets().rows(), a, b))
}

fn clashes_with_port(rows: &Rows, port: &PortRow) -> bool
    ensures { result
        ≡ list_any (disjoint.ports_clash rows.now.routers rows.now.subnets port.now)
        rows.now.ports }
{
    rows.ports()
        .rows()
        .iter()
        .any(|other| ports_clash(rows, port, other))
}

/// A subnet overlaps no other subnet of its network. The cost grows with the subnets.
pub struct ApartSubnet;

impl Clause for ApartSubnet {
    type Row = SubnetRow;

    const RULE: u8 = 6;

    ghost RULE = { 6 };

    ghost test = { λ rows r. not (list_any (disjoint.subnets_clash r) rows.subnets) };

    fn meets(rows: &Rows, subnet: &SubnetRow) -> bool {
        !clashes_with_subnet(rows.subnets().rows(), subnet)
    }
}

/// A port holds no address in a subnet that overlaps one in which another port of the same router
/// holds an address. The cost grows with the ports times routers and subnets.
pub struct ApartPort;

impl Clause for ApartPort {
    type Row = PortRow;

    const RULE: u8 = 6;

    ghost RULE = { 6 };

    ghost test = { λ rows r.
        not (list_any (disjoint.ports_clash rows.routers rows.subnets r) rows.ports) };

    fn meets(rows: &Rows, port: &PortRow) -> bool {
        !clashes_with_port(rows, port)
    }
}
