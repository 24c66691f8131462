//! Of which ports and addresses a table of a wanted file speaks.

ghost use Rattle.std.specs.Prelude.{◌≡◌, option_copied, option_map};
ghost use Rattle.net_addr.specs.Ordered.{four as four_of};
ghost use Rattle.api_types.specs.RouterRows.{first_four};
ghost use Rattle.api_types.specs.RowsWith.{port_with};
ghost use Rattle.reach_sets.specs.Named.{address_of, are_named, ends_if_same, ends_named, is_named, named};
ghost use Rattle.reach_sets.specs.TwoPorts.{two_ports};

use crate::pair::Pair;
use api_types::{Id, PortRow, Rows};
use net_addr::{Addr, Addr4};
use plane_types::Ends;
use wanted_files::{Wanted, WantedReach};

/// The port with the id.
pub(crate) fn port_named(rows: &Rows, id: Id) -> Option<&PortRow>
    ensures { option_copied result ≡ port_with rows.now id }
{
    let ports = rows.ports();
    let _own_ids = ports.rows(); // for the proof: no two ports have one id
    ports.get(id)
}

fn four(address: &Addr) -> Option<Addr4>
    ensures { result ≡ four_of address.now }
{
    match address {
        Addr::V4(address) => Some(*address),
        Addr::V6(_) => None,
    }
}

// The first address of IPv4.
fn first_four(port: &PortRow) -> Option<Addr4>
    ensures { result ≡ first_four port.now.fixed }
{
    for fixed in port.fixed.as_slice() {
        if let Some(address) = four(&fixed.address) {
            return Some(address);
        }
    }
    None
}

// The address that is named, which the port has to hold, or its first one of IPv4.
fn address_of(port: &PortRow, named: &Option<Addr>) -> Option<Addr>
    ensures { result ≡ address_of port.now named.now }
{
    match named {
        None => Some(Addr::V4(first_four(port)?)),
        Some(address) => {
            if port.holds(address) {
                Some(*address)
            } else {
                None
            }
        }
    }
}

/// Two addresses as ends, if they are of one version.
pub(crate) fn ends_if_same(from: &Addr, to: &Addr) -> Option<Ends>
    ensures { result ≡ ends_if_same from.now to.now }
{
    match from {
        Addr::V4(from) => match to {
            Addr::V4(to) => Some(Ends::four(*from, *to)),
            Addr::V6(_) => None,
        },
        Addr::V6(from) => match to {
            Addr::V4(_) => None,
            Addr::V6(to) => Some(Ends::six(*from, *to)),
        },
    }
}

fn ends_named(from: &PortRow, to: &PortRow, wanted: &WantedReach) -> Option<Ends>
    ensures { result ≡ ends_named from.now to.now wanted.now }
{
    let source = address_of(from, &wanted.from_address)?;
    let destination = address_of(to, &wanted.to_address)?;
    ends_if_same(&source, &destination)
}

/// The two ports and the address of each, or None if a port isn't there or doesn't hold the
/// address, has none of IPv4 and none is named, or the addresses are of two versions.
pub fn named<'r>(rows: &'r Rows, wanted: &WantedReach) -> Option<Pair<'r>>
    ensures { option_map two_ports result ≡ named rows.now wanted.now }
{
    let from = port_named(rows, wanted.from)?;
    let to = port_named(rows, wanted.to)?;
    let ends = ends_named(from, to, wanted)?;
    Some(Pair { from, to, ends })
}

fn is_named(rows: &Rows, wanted: &WantedReach) -> bool
    ensures { result ≡ is_named rows.now wanted.now }
{
    match named(rows, wanted) {
        Some(_) => true,
        None => false,
    }
}

/// Whether the ports and addresses of each table are there.
pub fn are_named(rows: &Rows, wanted: &Wanted) -> bool
    ensures { result ≡ are_named rows.now wanted.now }
{
    wanted.iter().all(|wanted| is_named(rows, wanted))
}
