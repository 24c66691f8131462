//! The row of a subnet, as a body asks for it.

ghost use Rattle.std.specs.Prelude.{◌≡◌, IfOk, Some, true};
ghost use Rattle.api_types.specs.Given as given_specs;
ghost use Rattle.call_parts.specs.InForm.{is_subnet_body};
ghost use Rattle.plan_subnets.specs.SubnetCalls as subnet_calls;

use api_ipam::{default_gateway, default_pools};
use api_types::{Given, Id, NetworkRow, SubnetForm, SubnetRow};
use call_parts::{text_or, value_of, value_or};
use net_addr::{Addr, Addr4, Copies, OutOfMemory, Prefix, Seq, Spans, Text};
use std::alloc::Global;

/// The addresses of a subnet.
#[derive(Drop)]
pub(crate) struct Ranges {
    pub prefix: Prefix,
    pub gateway: Option<Addr>,
    pub pools: Spans,
}

// The prefix that the body names.
fn prefix_asked(form: &SubnetForm) -> Prefix
    ensures { result ≡ subnet_calls.prefix_asked form.now }
{
    let half = Prefix {
        base: Addr::V4(Addr4(0)),
        len: 1,
    };
    value_or(half, &form.cidr)
}

fn gateway_or(old: Option<Addr>, given: &Given<Addr>) -> Option<Addr>
    ensures { result ≡ subnet_calls.gateway_or old given.now }
{
    match given {
        Given::Absent => old,
        Given::Null => None,
        Given::Is(gateway) => Some(*gateway),
    }
}

fn gateway_asked(form: &SubnetForm) -> Option<Addr>
    requires { is_subnet_body form.now ≡ true }
    ensures { result ≡ subnet_calls.gateway_asked form.now }
{
    let first = default_gateway(prefix_asked(form));
    gateway_or(Some(first), &form.gateway_ip)
}

fn pools_asked(
    alloc: Global,
    form: &SubnetForm,
    gateway: &Option<Addr>,
) -> Result<Spans, OutOfMemory>
    requires { gateway.now ≡ subnet_calls.gateway_asked form.now }
    ensures { IfOk result (λ pools. pools ≡ subnet_calls.pools_asked form.now) }
{
    match &form.allocation_pools {
        Given::Is(pools) => pools.copy(alloc),
        _ => default_pools(alloc, prefix_asked(form), gateway),
    }
}

/// The addresses that a body asks for, or those of a subnet for which none are named.
pub(crate) fn ranges_asked(alloc: Global, form: &SubnetForm) -> Result<Ranges, OutOfMemory>
    requires { is_subnet_body form.now ≡ true }
    ensures prefix { IfOk result (λ r. r.prefix ≡ subnet_calls.prefix_asked form.now) }
    ensures gateway { IfOk result (λ r. r.gateway ≡ subnet_calls.gateway_asked form.now) }
    ensures pools { IfOk result (λ r. r.pools ≡ subnet_calls.pools_asked form.now) }
{
    let gateway = gateway_asked(form);
    let pools = pools_asked(alloc, form, &gateway)?;
    Ok(Ranges {
        prefix: prefix_asked(form),
        gateway,
        pools,
    })
}

/// The row of a new subnet with these addresses.
pub(crate) fn new_subnet(
    alloc: Global,
    form: &SubnetForm,
    network: &NetworkRow,
    ranges: Ranges,
    id: Id,
) -> Result<SubnetRow, OutOfMemory>
    requires prefix { ranges.prefix ≡ subnet_calls.prefix_asked form.now }
    requires gateway { ranges.gateway ≡ subnet_calls.gateway_asked form.now }
    requires pools { ranges.pools ≡ subnet_calls.pools_asked form.now }
    ensures { IfOk result (λ s. s ≡ subnet_calls.new_subnet form.now network.now id) }
{
    let empty = Text::new(alloc);
    Ok(SubnetRow {
        id,
        project: network.project.copy(alloc)?,
        network: network.id,
        name: text_or(alloc, &empty, &form.name)?,
        description: text_or(alloc, &empty, &form.description)?,
        dhcp: value_or(true, &form.enable_dhcp),
        address_mode: value_of(&form.ipv6_address_mode),
        ra_mode: value_of(&form.ipv6_ra_mode),
        dns: list_or(alloc, &Seq::new(alloc), &form.dns_nameservers)?,
        host_routes: list_or(alloc, &Seq::new(alloc), &form.host_routes)?,
        prefix: ranges.prefix,
        gateway: ranges.gateway,
        pools: ranges.pools,
    })
}

// The list that is given, or a copy of this one.
fn list_or<T: Copies>(
    alloc: Global,
    list: &Seq<T>,
    given: &Given<Seq<T>>,
) -> Result<Seq<T>, OutOfMemory>
    ensures { IfOk result (λ xs. xs ≡ given_specs.value_or list.now given.now) }
{
    match given {
        Given::Is(given) => given.copy(alloc),
        _ => list.copy(alloc),
    }
}

/// The row of a subnet as a body changes it.
pub(crate) fn changed_subnet(
    alloc: Global,
    form: &SubnetForm,
    subnet: &SubnetRow,
) -> Result<SubnetRow, OutOfMemory>
    ensures { IfOk result (λ s. s ≡ subnet_calls.changed_subnet form.now subnet.now) }
{
    Ok(SubnetRow {
        id: subnet.id,
        project: subnet.project.copy(alloc)?,
        network: subnet.network,
        name: text_or(alloc, &subnet.name, &form.name)?,
        description: text_or(alloc, &subnet.description, &form.description)?,
        prefix: subnet.prefix,
        gateway: gateway_or(subnet.gateway, &form.gateway_ip),
        pools: list_or(alloc, &subnet.pools, &form.allocation_pools)?,
        dhcp: value_or(subnet.dhcp, &form.enable_dhcp),
        address_mode: subnet.address_mode,
        ra_mode: subnet.ra_mode,
        dns: list_or(alloc, &subnet.dns, &form.dns_nameservers)?,
        host_routes: list_or(alloc, &subnet.host_routes, &form.host_routes)?,
    })
}
