//! Who has a MAC or an address, and which port serves DHCP.

ghost use Rattle.std.specs.Prelude.{◌≡◌, find, option_copied};
ghost use Rattle.api_types.specs.Holders.{dhcp_port as dhcp_by_rows, floating_holder as holder_by_floating, floats_at, gateway_port as gateway_by_rows, has_mac as has_mac_by_rows, held_by_floating as held_by_any_floating, holder as holder_by_rows, holds_live as holds_live_by_rows, is_live_dhcp_of, live_on as live_port_on, port_at as port_by_mac, router_of as router_by_rows, target_router as target_by_rows};
ghost use Rattle.api_types.specs.RowsWith.{router_with};

use crate::live::is_live;
use api_types::{FloatingRow, Id, PortRow, RouterRow, Rows, Target};
use net_addr::{Addr, Mac};

fn has_mac(rows: &Rows, network: Id, mac: Mac, port: &PortRow) -> bool
    ensures { result ≡ has_mac_by_rows rows.now network mac port.now }
{
    network == port.network && port.mac == mac && is_live(rows, port)
}

/// The live port of a network with the MAC. Its cost grows with the ports.
pub fn port_at(rows: &Rows, network: Id, mac: Mac) -> Option<&PortRow>
    ensures { option_copied result ≡ port_by_mac rows.now network mac }
{
    for port in rows.ports().rows() {
        if has_mac(rows, network, mac, port) {
            return Some(port);
        }
    }
    None
}

fn holds_live(rows: &Rows, network: Id, address: &Addr, port: &PortRow) -> bool
    ensures { result ≡ holds_live_by_rows rows.now network address.now port.now }
{
    network == port.network && port.holds(address) && is_live(rows, port)
}

fn fixed_holder<'r>(rows: &'r Rows, network: Id, address: &Addr) -> Option<&'r PortRow>
    ensures { option_copied result
        ≡ find (holds_live_by_rows rows.now network address.now) rows.now.ports }
{
    for port in rows.ports().rows() {
        if holds_live(rows, network, address, port) {
            return Some(port);
        }
    }
    None
}

/// The router with this id.
pub fn named_router(rows: &Rows, id: Id) -> Option<&RouterRow>
    ensures { option_copied result ≡ router_with rows.now id }
{
    let routers = rows.routers();
    let _own_ids = routers.rows(); // for the proof: no two routers have one id
    routers.get(id)
}

/// The port on the external network that a router's gateway names.
pub fn gateway_port<'r>(rows: &'r Rows, router: &RouterRow) -> Option<&'r PortRow>
    ensures { option_copied result ≡ gateway_by_rows rows.now router.now }
{
    let ports = rows.ports();
    let _own_ids = ports.rows(); // for the proof: no two ports have one id
    match router.gateway {
        Some(gateway) => ports.get(gateway.port),
        None => None,
    }
}

fn target_router(rows: &Rows, target: Option<Target>) -> Option<&RouterRow>
    ensures { option_copied result ≡ target_by_rows rows.now target }
{
    match target {
        Some(target) => named_router(rows, target.router),
        None => None,
    }
}

fn live_on<'r>(rows: &Rows, network: Id, port: Option<&'r PortRow>) -> Option<&'r PortRow>
    ensures { option_copied result ≡ live_port_on rows.now network (option_copied port.entry) }
{
    match port {
        Some(port) => {
            if network == port.network && is_live(rows, port) {
                Some(port)
            } else {
                None
            }
        }
        None => None,
    }
}

/// The live gateway port, on the floating address's network, of the router that it names.
#[tactic(auto, unfolding(api_types::specs::Holders::floating_holder))]
pub fn floating_holder<'r>(rows: &'r Rows, floating: &FloatingRow) -> Option<&'r PortRow>
    ensures { option_copied result ≡ holder_by_floating rows.now floating.now }
{
    let port = match target_router(rows, floating.target) {
        Some(router) => gateway_port(rows, router),
        None => None,
    };
    live_on(rows, floating.network, port)
}

fn held_by_floating<'r>(rows: &'r Rows, network: Id, address: &Addr) -> Option<&'r PortRow>
    ensures { option_copied result ≡ held_by_any_floating rows.now network address.now }
{
    for floating in rows.floatings().rows() {
        if network == floating.network && Addr::V4(floating.address) == *address {
            return floating_holder(rows, floating);
        }
    }
    None
}

/// Who holds an address on a network: the live port with that fixed address, or for an associated
/// floating address of the network the live gateway port there of the router that it names. Its
/// cost grows with the ports and the floating addresses.
pub fn holder<'r>(rows: &'r Rows, network: Id, address: &Addr) -> Option<&'r PortRow>
    ensures { option_copied result ≡ holder_by_rows rows.now network address.now }
{
    match fixed_holder(rows, network, address) {
        Some(port) => Some(port),
        None => held_by_floating(rows, network, address),
    }
}

fn is_live_dhcp(rows: &Rows, network: Id, port: &PortRow) -> bool
    ensures { result ≡ is_live_dhcp_of rows.now network port.now }
{
    network == port.network && port.is_dhcp() && is_live(rows, port)
}

/// The live DHCP port of a network. Its cost grows with the ports.
pub fn dhcp_port(rows: &Rows, network: Id) -> Option<&PortRow>
    ensures { option_copied result ≡ dhcp_by_rows rows.now network }
{
    for port in rows.ports().rows() {
        if is_live_dhcp(rows, network, port) {
            return Some(port);
        }
    }
    None
}

/// The router that a port names by its `device_id`. Its cost grows with the routers.
pub fn router_of<'r>(rows: &'r Rows, port: &PortRow) -> Option<&'r RouterRow>
    ensures { option_copied result ≡ router_by_rows rows.now port.now }
{
    for router in rows.routers().rows() {
        if port.has_device(router.id) {
            return Some(router);
        }
    }
    None
}
