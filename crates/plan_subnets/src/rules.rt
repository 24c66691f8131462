//! The rules of a subnet's attributes.

ghost use Rattle.std.specs.Prelude.{◌≡◌, ◌&&◌, ◌==◌, [], is_some, not};
ghost use Rattle.std.specs.List.{list_all};
ghost use Rattle.net_addr.specs.Addresses.{same_version};
ghost use Rattle.net_addr.specs.Prefixes.{Prefix as ThePrefix, is_host_of};
ghost use Rattle.api_types.specs.Consistent.InForm.{mode_eq};
ghost use Rattle.api_types.specs.Consistent.InForm as in_form;
ghost use Rattle.api_types.specs.Given as given;
ghost use Rattle.api_types.specs.Lists.{if_some, is_some_so};
ghost use Rattle.api_types.specs.declared.form.IpVersion.TheVariants.{V6 as SixOf};
ghost use Rattle.call_parts.specs.Answers.{Passes};
ghost use Rattle.plan_subnets.specs.SubnetRules.{bad_cidr, bad_dhcp, bad_modes, bad_parts, bad_subnet, bad_versions, is_version};
ghost use Rattle.plan_subnets.specs.SubnetRules as subnet_rules;

use api_ipam::{are_pools, makes_eui};
use api_types::{
    Given, Hop, Id, IpVersion, Ipv6Mode, NetworkRow, Refusal, Rows, Shared, SubnetForm, SubnetRow,
};
use call_parts::{invalid, is_given, value_of, value_or};
use net_addr::{Addr, Addr4, Addr6, Prefix, Seq, Span};
use std::alloc::Global;

// An address of the version.
fn of_version(version: IpVersion) -> Addr
    ensures { result ≡ subnet_rules.of_version version }
{
    match version {
        IpVersion::V4 => Addr::V4(Addr4(0)),
        IpVersion::V6 => Addr::V6(Addr6(0)),
    }
}

fn is_other_prefix(like: &Addr, cidr: &Given<Prefix>) -> bool
    ensures { result
        ≡ is_some_so (λ (p : ThePrefix). not (same_version like.now p.base))
        (given.value_of cidr.now) }
{
    match cidr {
        Given::Is(prefix) => !like.is_same_version(&prefix.base),
        _ => false,
    }
}

fn all_servers_like(like: &Addr, servers: &[Addr]) -> bool
    ensures { result ≡ list_all (same_version like.now) servers.now }
{
    servers.iter().all(|server| like.is_same_version(server))
}

fn are_servers_like(like: &Addr, servers: &Given<Seq<Addr>>) -> bool
    ensures { result ≡ list_all (same_version like.now) (given.value_or [] servers.now) }
{
    match servers {
        Given::Is(servers) => all_servers_like(like, servers.as_slice()),
        _ => true,
    }
}

fn is_hop_like(like: &Addr, hop: &Hop) -> bool
    ensures { result ≡ in_form.is_hop_like like.now hop.now }
{
    like.is_same_version(&hop.destination.base) && like.is_same_version(&hop.next)
}

fn all_hops_like(like: &Addr, hops: &[Hop]) -> bool
    ensures { result ≡ list_all (in_form.is_hop_like like.now) hops.now }
{
    hops.iter().all(|hop| is_hop_like(like, hop))
}

fn are_hops_like(like: &Addr, hops: &Given<Seq<Hop>>) -> bool
    ensures { result ≡ list_all (in_form.is_hop_like like.now) (given.value_or [] hops.now) }
{
    match hops {
        Given::Is(hops) => all_hops_like(like, hops.as_slice()),
        _ => true,
    }
}

/// Refuses name servers and host routes of another version than this address's.
pub(crate) fn ensure_same_version(
    alloc: Global,
    like: &Addr,
    form: &SubnetForm,
) -> Result<(), Refusal>
    ensures { Passes (bad_versions like.now form.now) result }
{
    if !are_servers_like(like, &form.dns_nameservers) {
        return Err(invalid(alloc, "dns_nameservers"));
    }
    if !are_hops_like(like, &form.host_routes) {
        return Err(invalid(alloc, "host_routes"));
    }
    Ok(())
}

fn is_six(version: IpVersion) -> bool
    ensures { result ≡ is_version SixOf version }
{
    match version {
        IpVersion::V4 => false,
        IpVersion::V6 => true,
    }
}

fn may_have_mode(form: &SubnetForm) -> bool
    ensures { result ≡ subnet_rules.may_have_mode form.now }
{
    is_six(value_or(IpVersion::V4, &form.ip_version)) && value_or(true, &form.enable_dhcp)
}

fn is_mode_or_none(mode: Ipv6Mode, other: Option<Ipv6Mode>) -> bool
    ensures { result ≡ if_some (mode_eq mode) other }
{
    match other {
        Some(other) => mode == other,
        None => true,
    }
}

fn has_other_length(cidr: &Given<Prefix>) -> bool
    ensures { result
        ≡ is_some_so (λ (p : ThePrefix). not (p.len == 64)) (given.value_of cidr.now) }
{
    match cidr {
        Given::Is(prefix) => prefix.len != 64,
        _ => false,
    }
}

fn is_bad_mode(form: &SubnetForm, mode: Ipv6Mode) -> bool
    ensures { result ≡ subnet_rules.is_bad_mode form.now mode }
{
    !may_have_mode(form)
        || !is_mode_or_none(mode, value_of(&form.ipv6_ra_mode))
        || (makes_eui(mode) && has_other_length(&form.cidr))
}

fn has_bad_mode(form: &SubnetForm) -> bool
    ensures { result ≡ is_some_so
        (subnet_rules.is_bad_mode form.now) (given.value_of form.now.ipv6_address_mode) }
{
    match form.ipv6_address_mode {
        Given::Is(mode) => is_bad_mode(form, mode),
        _ => false,
    }
}

fn ensure_modes_fit(alloc: Global, form: &SubnetForm) -> Result<(), Refusal>
    ensures { Passes (bad_modes form.now) result }
{
    if has_bad_mode(form) {
        return Err(invalid(alloc, "ipv6_address_mode"));
    }
    if value_of(&form.ipv6_ra_mode).is_some() && !may_have_mode(form) {
        return Err(invalid(alloc, "ipv6_ra_mode"));
    }
    Ok(())
}

/// Refuses a body of which a part breaks the rules on bodies alone.
pub(crate) fn ensure_parts_agree(alloc: Global, form: &SubnetForm) -> Result<(), Refusal>
    ensures { Passes (bad_parts form.now) result }
{
    let like = of_version(value_or(IpVersion::V4, &form.ip_version));
    if is_other_prefix(&like, &form.cidr) {
        return Err(invalid(alloc, "cidr"));
    }
    ensure_same_version(alloc, &like, form)?;
    ensure_modes_fit(alloc, form)
}

fn overlaps_subnet(subnets: &[Shared<SubnetRow>], prefix: Prefix, network: &NetworkRow) -> bool
    ensures { result ≡ subnet_rules.overlaps_subnet subnets.now prefix network.now }
{
    let network = network.id;
    for subnet in subnets {
        if network == subnet.network && prefix.overlaps(subnet.prefix) {
            return true;
        }
    }
    false
}

/// Refuses a prefix that overlaps one of the network's subnets. Its cost grows with the subnets.
pub(crate) fn ensure_cidr_free(
    alloc: Global,
    rows: &Rows,
    prefix: Prefix,
    network: &NetworkRow,
) -> Result<(), Refusal>
    ensures { Passes (bad_cidr rows.now prefix network.now) result }
{
    if overlaps_subnet(rows.subnets().rows(), prefix, network) {
        return Err(invalid(alloc, "cidr"));
    }
    Ok(())
}

fn is_gateway_host(prefix: &Prefix, gateway: &Option<Addr>) -> bool
    ensures { result ≡ if_some (is_host_of prefix.now) gateway.now }
{
    match gateway {
        Some(gateway) => prefix.is_host(*gateway),
        None => true,
    }
}

/// Refuses a gateway that is no host address, and pools that are no spans of such addresses without
/// the gateway, or that share one. Its cost grows with the pools' number, times itself.
pub(crate) fn ensure_ranges_fit(
    alloc: Global,
    prefix: &Prefix,
    gateway: &Option<Addr>,
    pools: &[Span],
) -> Result<(), Refusal>
    ensures { Passes (bad_subnet prefix.now gateway.now pools.now) result }
{
    if !is_gateway_host(prefix, gateway) {
        return Err(invalid(alloc, "gateway_ip"));
    }
    if !are_pools(prefix, gateway, pools) {
        return Err(invalid(alloc, "allocation_pools"));
    }
    Ok(())
}

/// Refuses a subnet with a mode that is to be leased no more.
pub(crate) fn ensure_dhcp_kept(
    alloc: Global,
    form: &SubnetForm,
    subnet: &SubnetRow,
) -> Result<(), Refusal>
    ensures { Passes (bad_dhcp form.now subnet.now) result }
{
    let has_mode = subnet.address_mode.is_some() || subnet.ra_mode.is_some();
    if !value_or(true, &form.enable_dhcp) && has_mode {
        return Err(invalid(alloc, "enable_dhcp"));
    }
    Ok(())
}
