//! Segments, subnets, ports and routers in form.

ghost use Rattle.std.specs.Prelude.{◌≡◌, not, nat_le, length};
ghost use Rattle.std.specs.List.{list_all};
ghost use Rattle.api_types.specs.Lists.{if_some};
ghost use Rattle.net_addr.specs.Macs.{is_unicast};
ghost use Rattle.net_addr.specs.Prefixes.{is_host_of};
ghost use Rattle.net_addr.specs.Spans.{are_apart};
ghost use Rattle.api_types.specs.Consistent.InForm as in_form;
ghost use Rattle.api_clauses.specs.Forms as forms;

use crate::clause::Clause;
use crate::modes::{are_modes, are_versions};
use api_types::{NetworkRow, PortRow, RouterRow, Rows, RuleRow, Segment, SubnetRow};
use net_addr::{Addr, Prefix, Span};

fn is_segment(segment: &Segment) -> bool
    ensures { result ≡ in_form.is_segment segment.now }
{
    match segment {
        Segment::Local => true,
        Segment::Flat { physical: _ } => true,
        Segment::Vlan { physical: _, tag } => 1 <= *tag && *tag <= 4094,
        Segment::Vxlan { number } => 1 <= *number && *number <= 16_777_215,
    }
}

/// The number of a network's segment is in its range: 1 to 4094 of a vlan (IEEE 802.1Q), 1 to
/// 16,777,215 of a vxlan (RFC 7348).
pub struct FormedNetwork;

impl Clause for FormedNetwork {
    type Row = NetworkRow;

    const RULE: u8 = 3;

    ghost RULE = { 3 };

    ghost test = { λ _ r. in_form.is_segment r.segment };

    fn meets(_rows: &Rows, network: &NetworkRow) -> bool {
        is_segment(&network.segment)
    }
}

fn is_gateway_host(prefix: Prefix, gateway: Option<Addr>) -> bool
    ensures { result ≡ if_some (is_host_of prefix) gateway }
{
    match gateway {
        Some(gateway) => prefix.is_host(gateway),
        None => true,
    }
}

fn is_without(pool: &Span, gateway: Option<Addr>) -> bool
    ensures { result
        ≡ if_some (λ g. not (Rattle.net_addr.specs.Spans.is_within pool.now g)) gateway }
{
    match gateway {
        Some(gateway) => !pool.contains(gateway),
        None => true,
    }
}

fn is_pool(subnet: &SubnetRow, pool: &Span) -> bool
    ensures { result ≡ in_form.is_pool subnet.now pool.now }
{
    subnet.prefix.is_host(pool.first)
        && subnet.prefix.is_host(pool.last)
        && is_without(pool, subnet.gateway)
}

fn are_pools(subnet: &SubnetRow) -> bool
    ensures { result ≡ list_all (in_form.is_pool subnet.now) subnet.now.pools }
{
    subnet.pools.iter().all(|pool| is_pool(subnet, pool))
}

fn is_apart_from(pool: &Span, pools: &[Span]) -> bool
    ensures { result ≡ list_all (are_apart pool.now) pools.now }
{
    pools.iter().all(|other| pool.is_apart(*other))
}

fn are_apart_all(pools: &[Span]) -> bool
    ensures { result ≡ in_form.all_apart pools.now }
{
    for place in 0..pools.len() {
        if !is_apart_from(&pools[place], &pools[place + 1..]) {
            return false;
        }
    }
    true
}

fn longest_of(base: &Addr) -> u8
    ensures { result ≡ in_form.longest_of base.now }
{
    match base {
        Addr::V4(_) => 30,
        Addr::V6(_) => 126,
    }
}

fn is_subnet_form(subnet: &SubnetRow) -> bool
    ensures { result ≡ in_form.is_subnet_form subnet.now }
{
    1 <= subnet.prefix.len
        && subnet.prefix.len <= longest_of(&subnet.prefix.base)
        && are_modes(subnet)
        && are_versions(subnet)
        && is_gateway_host(subnet.prefix, subnet.gateway)
        && are_pools(subnet)
        && are_apart_all(subnet.pools.as_slice())
        && subnet.pools.len() <= 20
        && subnet.dns.len() <= 5
        && subnet.host_routes.len() <= 20
}

/// A subnet has its network's project, and its values are in form: a length of 1 to 30, or to 126
/// in version 6, modes that go together, name servers and routes of its version, a gateway that is
/// a host address, pools that are disjoint spans of host addresses without the gateway, and lists
/// within their limits. The cost grows with the networks.
pub struct FormedSubnet;

impl Clause for FormedSubnet {
    type Row = SubnetRow;

    const RULE: u8 = 3;

    ghost RULE = { 3 };

    ghost test = { λ rows. forms.subnet_formed rows.networks };

    fn meets(rows: &Rows, subnet: &SubnetRow) -> bool {
        rows.is_network_of(&subnet.project, subnet.network) && is_subnet_form(subnet)
    }
}

fn are_unicast(port: &PortRow) -> bool
    ensures { result ≡ list_all (λ pair. is_unicast pair.mac) port.now.pairs }
{
    port.pairs.iter().all(|pair| pair.mac.is_unicast())
}

fn is_port_form(port: &PortRow) -> bool
    ensures { result ≡ in_form.is_port_form port.now }
{
    port.mac.is_unicast()
        && are_unicast(port)
        && (port.fixed.len() <= 5 || port.is_dhcp())
        && port.pairs.len() <= 10
        && port.groups.len() <= 20
}

/// A DHCP port has its network's project, and the values of any port are in form: MAC addresses
/// that have an even first byte and aren't zero, lists within their limits. The cost grows with the
/// networks.
pub struct FormedPort;

impl Clause for FormedPort {
    type Row = PortRow;

    const RULE: u8 = 3;

    ghost RULE = { 3 };

    ghost test = { λ rows. forms.port_formed rows.networks };

    fn meets(rows: &Rows, port: &PortRow) -> bool {
        (!port.is_dhcp() || rows.is_network_of(&port.project, port.network)) && is_port_form(port)
    }
}

/// The group of a rule is its project's. The cost grows with the groups.
pub struct FormedRule;

impl Clause for FormedRule {
    type Row = RuleRow;

    const RULE: u8 = 3;

    ghost RULE = { 3 };

    ghost test = { λ rows r. in_form.is_group_of rows.groups r.project r.group };

    fn meets(rows: &Rows, rule: &RuleRow) -> bool {
        rows.is_group_of(&rule.project, rule.group)
    }
}

/// A router has at most 30 extra routes.
pub struct FormedRouter;

impl Clause for FormedRouter {
    type Row = RouterRow;

    const RULE: u8 = 3;

    ghost RULE = { 3 };

    ghost test = { λ _ r. nat_le (length r.routes) 30 };

    fn meets(_rows: &Rows, router: &RouterRow) -> bool {
        router.routes.len() <= 30
    }
}
