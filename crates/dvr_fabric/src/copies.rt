//! The copy that handles a packet on a network, and how.

ghost use Rattle.std.specs.Prelude.{◌≡◌, option_copied, option_map};
ghost use Rattle.std.specs.List.{list_any};
ghost use Rattle.dvr_fabric.specs.Steps.{plain_handled, view_of_handled};
ghost use Rattle.dvr_types.specs.CopySteps as steps;
ghost use Rattle.plane_types.specs.Parts.{packet_of};

use crate::rule::{CopyStep, is_for_outer_address, route};
use api_types::Id;
use dvr_types::{Copies, CopyPort, RouterCopy};
use net_addr::Mac;
use plane_types::Packet;

/// A router that handles a packet here, and how.
#[derive(Clone, Copy)]
pub(crate) struct Handled<'d> {
    pub(crate) router: Id,
    pub(crate) step: CopyStep<'d>,
}

// Whether a port is an interface on this vxlan network with this MAC.
fn is_interface_with(port: &CopyPort, network: Id, mac: Mac) -> bool
    ensures { result ≡ steps.is_interface_with network mac port.now }
{
    network == port.network && port.mac == mac && port.inside && port.number.is_some()
}

fn has_interface_with(copy: &RouterCopy, network: Id, mac: Mac) -> bool
    ensures { result ≡ list_any (steps.is_interface_with network mac) copy.now.ports }
{
    copy.ports
        .iter()
        .any(|port| is_interface_with(port, network, mac))
}

// The first copy with such an interface.
fn copy_at<'d>(copies: &'d Copies, network: Id, mac: Mac) -> Option<&'d RouterCopy>
    ensures { option_copied result ≡ steps.copy_at copies.now network mac }
{
    for copy in copies.copies.as_slice() {
        if has_interface_with(copy, network, mac) {
            return Some(copy);
        }
    }
    None
}

// What the copy with the interface does.
fn handled_by<'d>(copies: &'d Copies, copy: &'d RouterCopy, packet: &Packet) -> Option<Handled<'d>>
    ensures { option_map view_of_handled result
        ≡ plain_handled copies.now copy.now (packet_of packet.now) }
{
    if is_for_outer_address(copies, copy, packet) {
        return None;
    }
    match route(copies, copy, packet) {
        Some(step) => Some(Handled {
            router: copy.router,
            step,
        }),
        None => None,
    }
}

/// The router whose copy handles a packet on a network here, and how; None if it has to go by the
/// tables. Its cost grows with the copies' ports, routes, floating addresses and near rows.
pub(crate) fn handled_here<'d>(
    copies: &'d Copies,
    network: Id,
    packet: &Packet,
) -> Option<Handled<'d>>
    ensures { option_map view_of_handled result
        ≡ steps.handled_here copies.now network (packet_of packet.now) }
{
    match copy_at(copies, network, packet.dst) {
        Some(copy) => handled_by(copies, copy, packet),
        None => None,
    }
}
