//! The modes of subnets of version 6, and values of their version.

ghost use Rattle.std.specs.Prelude.{◌≡◌, ◌&&◌, ◌||◌, is_none, not};
ghost use Rattle.std.specs.List.{list_all};
ghost use Rattle.net_addr.specs.Addresses.{is_v4, same_version};
ghost use Rattle.api_types.specs.Lists.{if_some};
ghost use Rattle.api_types.specs.Consistent.InForm as in_form;

use api_types::{Hop, Ipv6Mode, SubnetRow};
use net_addr::Addr;

fn makes_eui(mode: Ipv6Mode) -> bool
    ensures { result ≡ in_form.makes_eui mode }
{
    match mode {
        Ipv6Mode::Slaac => true,
        Ipv6Mode::Stateful => false,
        Ipv6Mode::Stateless => true,
    }
}

/// Whether the ports of a subnet make their addresses of their MACs.
pub fn is_eui(subnet: &SubnetRow) -> bool
    ensures { result ≡ in_form.is_eui subnet.now }
{
    match subnet.address_mode {
        Some(mode) => makes_eui(mode),
        None => false,
    }
}

fn has_no_mode(subnet: &SubnetRow) -> bool
    ensures { result ≡ (is_none subnet.now.address_mode && is_none subnet.now.ra_mode) }
{
    subnet.address_mode.is_none() && subnet.ra_mode.is_none()
}

fn may_have_modes(subnet: &SubnetRow) -> bool
    ensures { result ≡ (not (is_v4 subnet.now.prefix.base) && subnet.now.dhcp) }
{
    !subnet.prefix.base.is_v4() && subnet.dhcp
}

fn is_like(mode: Ipv6Mode, other: Option<Ipv6Mode>) -> bool
    ensures { result ≡ if_some (in_form.mode_eq mode) other }
{
    match other {
        Some(other) => mode == other,
        None => true,
    }
}

fn are_alike(subnet: &SubnetRow) -> bool
    ensures { result
        ≡ if_some (λ a. if_some (in_form.mode_eq a) subnet.now.ra_mode) subnet.now.address_mode }
{
    match subnet.address_mode {
        Some(mode) => is_like(mode, subnet.ra_mode),
        None => true,
    }
}

// No mode in version 4 and without DHCP, two modes are equal, and addresses are made of MACs in 64
// bits.
pub(crate) fn are_modes(subnet: &SubnetRow) -> bool
    ensures { result ≡ in_form.are_modes subnet.now }
{
    (has_no_mode(subnet) || may_have_modes(subnet))
        && are_alike(subnet)
        && (!is_eui(subnet) || subnet.prefix.len == 64)
}

fn is_hop_like(address: &Addr, hop: &Hop) -> bool
    ensures { result ≡ in_form.is_hop_like address.now hop.now }
{
    address.is_same_version(&hop.destination.base) && address.is_same_version(&hop.next)
}

fn are_servers_like(subnet: &SubnetRow) -> bool
    ensures { result ≡ list_all (same_version subnet.now.prefix.base) subnet.now.dns }
{
    subnet
        .dns
        .iter()
        .all(|server| subnet.prefix.base.is_same_version(server))
}

fn are_hops_like(subnet: &SubnetRow) -> bool
    ensures { result
        ≡ list_all (in_form.is_hop_like subnet.now.prefix.base) subnet.now.host_routes }
{
    subnet
        .host_routes
        .iter()
        .all(|hop| is_hop_like(&subnet.prefix.base, hop))
}

// Name servers and host routes are of the subnet's version.
pub(crate) fn are_versions(subnet: &SubnetRow) -> bool
    ensures { result ≡ in_form.are_versions subnet.now }
{
    are_servers_like(subnet) && are_hops_like(subnet)
}
