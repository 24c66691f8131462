//! To what a floating address leads, and why it doesn't.

ghost use Rattle.std.specs.Prelude.{◌≡◌, ◌==◌, ◌&&◌, find, option_copied, option_map, true};
ghost use Rattle.net_addr.specs.Addresses.{is_v4, number};
ghost use Rattle.api_policy.specs.OtherFloatings.{other_floatings};
ghost use Rattle.api_types.specs.Association.{Aim};
ghost use Rattle.api_types.specs.Association as association;
ghost use Rattle.api_types.specs.Consistent.Floating as consistent_floating;
ghost use Rattle.api_floating.specs.Associated.{associated, associated_at, led_from};

use crate::aim::{fixed_for, four, is_foreign, router_for};
use api_policy::leading;
use api_types::{Fixed, Id, PortRow, Rows, Target};
use net_addr::{Addr4, Text};

/// Why a floating address can't lead to a port.
#[derive(Clone, Copy, Debug, PartialEq, Eq)]
pub enum FloatingRefusal {
    /// The port isn't there, is another project's, or is a service's.
    BadPort,
    /// It doesn't have the address, or hasn't just one of version 4 where none is named.
    BadFixed,
    /// This floating address of the network leads there already.
    FixedTaken(Id),
    /// No router of the project joins this subnet, in which the address is, to the network.
    NoRouterForFloating(Id),
}

/// What leads to an address of version 4 of the port: a router of the project that joins its subnet
/// to the network. Its cost is that of the router's search.
pub fn target_by(
    rows: &Rows,
    network: Id,
    project: &Text,
    port: &PortRow,
    fixed: &Fixed,
) -> Option<Target>
    requires { is_v4 fixed.now.address ≡ true }
    ensures { let aim : Aim = record { port = port.now; fixed = fixed.now } in
        result
        ≡ option_map (association.target_by aim)
        (association.router_for rows.now project.now network aim.fixed.subnet) }
{
    let router = router_for(rows, project, network, fixed.subnet)?;
    Some(Target {
        port: port.id,
        fixed: four(&fixed.address),
        router: router.id,
    })
}

// What is led to this address of version 4 of the port, unless another floating address is.
fn lead_to(
    rows: &Rows,
    network: Id,
    project: &Text,
    own: &Option<Id>,
    port: &PortRow,
    fixed: &Fixed,
) -> Result<Target, FloatingRefusal>
    requires { is_v4 fixed.now.address ≡ true }
    ensures { result
        ≡ led_from rows.now network project.now own.now
        (record { port = port.now; fixed = fixed.now }) }
{
    let floatings = rows.floatings().rows();
    if let Some(floating) = leading(floatings, own, network, port.id, &fixed.address) {
        return Err(FloatingRefusal::FixedTaken(floating.id));
    }
    match target_by(rows, network, project, port, fixed) {
        Some(target) => Ok(target),
        None => Err(FloatingRefusal::NoRouterForFloating(fixed.subnet)),
    }
}

fn associate_port(
    rows: &Rows,
    network: Id,
    project: &Text,
    own: &Option<Id>,
    port: &PortRow,
    fixed: Option<Addr4>,
) -> Result<Target, FloatingRefusal>
    ensures { result ≡ associated_at rows.now network project.now own.now fixed port.now }
{
    if is_foreign(project, port) {
        return Err(FloatingRefusal::BadPort);
    }
    match fixed_for(fixed, port.fixed.as_slice()) {
        Some(fixed) => lead_to(rows, network, project, own, port, fixed),
        None => Err(FloatingRefusal::BadFixed),
    }
}

/// To what a floating address of the network leads that the project owns, where it is to lead to a
/// port: to the address of it that is named, or to its only one of version 4. `own` is the
/// floating address that is changed, or none. It allocates nothing. Its cost grows with the
/// floating addresses, the routers, and with the ports for each router of the project with its
/// gateway on the network.
pub fn associate(
    rows: &Rows,
    network: Id,
    project: &Text,
    own: Option<Id>,
    port: Id,
    fixed: Option<Addr4>,
) -> Result<Target, FloatingRefusal>
    ensures { result ≡ associated rows.now network project.now own port fixed }
{
    match rows.ports().get(port) {
        Some(port) => associate_port(rows, network, project, &own, port, fixed),
        None => Err(FloatingRefusal::BadPort),
    }
}
