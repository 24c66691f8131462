//! Subnets in which addresses are made of MAC addresses.

ghost use Rattle.std.specs.Prelude.{◌≡◌, true};
ghost use Rattle.net_addr.specs.Prefixes.{eui};
ghost use Rattle.api_types.specs.Consistent.InForm as in_form;
ghost use Rattle.api_ipam.specs.Euis.{fits_eui};

use api_types::{Ipv6Mode, SubnetRow};
use net_addr::{Addr, Mac};

/// Whether ports of a subnet with this mode make their addresses of their MAC addresses.
pub fn makes_eui(mode: Ipv6Mode) -> bool
    ensures { result ≡ in_form.makes_eui mode }
{
    match mode {
        Ipv6Mode::Slaac => true,
        Ipv6Mode::Stateful => false,
        Ipv6Mode::Stateless => true,
    }
}

/// Whether the ports of a subnet make their addresses of their MAC addresses.
pub fn is_eui(subnet: &SubnetRow) -> bool
    ensures { result ≡ in_form.is_eui subnet.now }
{
    match subnet.address_mode {
        Some(mode) => makes_eui(mode),
        None => false,
    }
}

/// The address that a port with this MAC address has in such a subnet.
pub fn eui_of(subnet: &SubnetRow, mac: Mac) -> Addr
    requires made { in_form.is_eui subnet.now ≡ true }
    requires fits { fits_eui subnet.now ≡ true }
    ensures { result ≡ eui subnet.now.prefix mac }
{
    subnet.prefix.eui(mac)
}
