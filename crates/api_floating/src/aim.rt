//! The address of a port to which a floating address is to lead, and the router that leads there.

ghost use Rattle.std.specs.Prelude.{◌≡◌, ◌&&◌, ◌||◌, IfSome, filter, find, not, option_copied, true};
ghost use Rattle.std.specs.Str.{bytes_eq};
ghost use Rattle.net_addr.specs.Addresses.{is_four, is_v4, number};
ghost use Rattle.api_types.specs.Association.{only_one};
ghost use Rattle.api_types.specs.Association as association;
ghost use Rattle.api_types.specs.Consistent.Floating as floating;
ghost use Rattle.api_types.specs.Lists.{is_some_so};
ghost use Rattle.api_types.specs.Owners as owners;
ghost use Rattle.api_types.specs.Table.{ident_eq};
ghost use Rattle.api_types.specs.declared.port.Fixed.{Fixed as TheFixed};
ghost use Rattle.api_types.specs.declared.router.Gateway.{Gateway as TheGateway};

use api_types::{Fixed, Gateway, Id, PortRow, RouterRow, Rows, Shared};
use net_addr::{Addr, Addr4, Text};

/// The number of an address of version 4.
pub fn four(address: &Addr) -> Addr4
    requires { is_v4 address.now ≡ true }
    ensures { result ≡ number address.now }
{
    match address {
        Addr::V4(address) => *address,
        Addr::V6(_) => unreachable!(),
    }
}

// The first of these addresses that is this one.
fn named(held: &[Fixed], address: Addr4) -> Option<&Fixed>
    ensures { option_copied result ≡ find (λ (f : TheFixed). is_four f.address address) held.now }
{
    let address = Addr::V4(address);
    held.iter().find(|fixed| fixed.address == address)
}

// The only one of these addresses that is of version 4.
fn only_four(held: &[Fixed]) -> Option<&Fixed>
    ensures { option_copied result
        ≡ only_one (filter (λ (f : TheFixed). is_v4 f.address) held.now) }
{
    let mut only = None;
    for fixed in held {
        if fixed.address.is_v4() {
            if only.is_some() {
                return None;
            }
            only = Some(fixed);
        }
    }
    only
}

/// The address of version 4 that is named, or the only one. Its cost grows with the addresses.
pub fn fixed_for(address: Option<Addr4>, held: &[Fixed]) -> Option<&Fixed>
    ensures { option_copied result ≡ association.fixed_for address held.now }
{
    match address {
        Some(address) => named(held, address),
        None => only_four(held),
    }
}

/// Whether the port is another project's, or a service's.
pub fn is_foreign(project: &Text, port: &PortRow) -> bool
    ensures { result
        ≡ (not (bytes_eq port.now.project project.now) || owners.is_service port.now.owner) }
{
    port.project != *project || port.is_service()
}

fn has_interface(ports: &[Shared<PortRow>], router: Id, subnet: Id) -> bool
    ensures { result ≡ floating.has_interface ports.now router subnet }
{
    ports.iter().any(|port| {
        port.is_interface() && (port.has_device(router) && port.holds_in(subnet))
    })
}

fn is_on(network: Id, gateway: &Option<Gateway>) -> bool
    ensures { result
        ≡ is_some_so (λ (g : TheGateway). ident_eq network g.network) gateway.now }
{
    match gateway {
        Some(gateway) => network == gateway.network,
        None => false,
    }
}

// Whether the router is the project's, with an interface on the subnet and its gateway on the
// network. The ports are looked at last.
fn joins_to(rows: &Rows, project: &Text, network: Id, subnet: Id, router: &RouterRow) -> bool
    ensures { result ≡ association.joins_to rows.now project.now network subnet router.now }
{
    router.project == *project
        && is_on(network, &router.gateway)
        && has_interface(rows.ports().rows(), router.id, subnet)
}

/// The first router of the project that joins the subnet to the network. Its cost grows with the
/// routers, and with the ports for each router of the project with its gateway on the network.
pub(crate) fn router_for<'r>(
    rows: &'r Rows,
    project: &Text,
    network: Id,
    subnet: Id,
) -> Option<&'r Shared<RouterRow>>
    ensures { option_copied result ≡ association.router_for rows.now project.now network subnet }
{
    rows.routers()
        .rows()
        .iter()
        .find(|router| joins_to(rows, project, network, subnet, router))
}
