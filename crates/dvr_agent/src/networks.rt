//! Vxlan networks, and those of them on which packets are near.

ghost use Rattle.std.specs.Prelude.{◌≡◌, IfOk, OnOk, option_copied};
ghost use Rattle.std.specs.HashMap.{get};
ghost use Rattle.api_types.specs.Holders.{router_of as router_by_rows};
ghost use Rattle.api_types.specs.Ident.{Ident};
ghost use Rattle.api_types.specs.Live.{segment as segment_by_rows};
ghost use Rattle.api_types.specs.Table.{ident_eq};
ghost use Rattle.dvr_agent.specs.Near.{interface_number_of, near_number, number_with};
ghost use Rattle.dvr_types.specs.Copies as copies;

use api_types::{Id, PortRow, RouterRow, Rows, Segment};
use net_addr::OutOfMemory;
use plane_rows::{NamedRouters, is_live, segment_of};
use std::alloc::Global;
use std::collections::HashMap;
use std::marker::Model;

/// The number of a vxlan network, or None for another. Constant time.
#[tactic(auto, unfolding(api_types::specs::Live::segment))]
pub(crate) fn number_of(rows: &Rows, network: Id) -> Option<u32>
    ensures { result ≡ copies.vxlan_number (segment_by_rows rows.now network) }
{
    match segment_of(rows, network) {
        Some(Segment::Vxlan { number }) => Some(*number),
        Some(Segment::Local | Segment::Flat { .. } | Segment::Vlan { .. }) | None => None,
    }
}

/// Whether a live port is an interface on a vxlan network. Constant time.
pub(crate) fn is_vxlan_interface(rows: &Rows, port: &PortRow) -> bool
    ensures { result ≡ copies.is_vxlan_interface rows.now port.now }
{
    port.is_interface() && number_of(rows, port.network).is_some()
}

/// Rows, whose near networks and routers are looked up. Contracts see the rows.
#[derive(Drop)]
pub(crate) struct NearNetworks<'r> {
    routers: NamedRouters<'r>,
    numbers: HashMap<Id, u32>,
}

impl<'r> Model for NearNetworks<'r> {
    ghost use Rattle.std.specs.Prelude.{◌≡◌};
    ghost use Rattle.std.specs.HashMap.{get};
    ghost use Rattle.api_types.specs.Ident.{Ident};
    ghost use Rattle.api_types.specs.RowLists.{RowLists};
    ghost use Rattle.api_types.specs.Table.{ident_eq};
    ghost use Rattle.dvr_agent.specs.Near.{near_number};

    ghost Value = { RowLists };

    ghost view = { λ n. n.routers };

    ghost invariant = { λ n. (i : Ident) → get ident_eq n.numbers i ≡ near_number n.routers i };
}

// The number of the network of a live interface.
fn interface_number(rows: &Rows, port: &PortRow) -> Option<u32>
    ensures { result ≡ interface_number_of rows.now port.now }
{
    if !port.is_interface() || !is_live(rows, port) {
        return None;
    }
    number_of(rows, port.network)
}

// Adds the number of the network of a live interface.
fn add_number(
    rows: &Rows,
    numbers: &mut HashMap<Id, u32>,
    port: &PortRow,
) -> Result<(), OutOfMemory>
    ensures { OnOk result
        ((n : Ident)
        → get ident_eq numbers.new n
        ≡ number_with rows.now port.now n (get ident_eq numbers.old n)) }
{
    match interface_number(rows, port) {
        Some(number) => {
            numbers.insert(port.network, number)?;
            Ok(())
        }
        None => Ok(()),
    }
}

// The numbers of the vxlan networks with a live interface.
fn near_numbers(alloc: Global, rows: &Rows) -> Result<HashMap<Id, u32>, OutOfMemory>
    ensures { IfOk result (λ m. (n : Ident) → get ident_eq m n ≡ near_number rows.now n) }
{
    let mut numbers = HashMap::new(alloc);
    for port in rows.ports().rows() {
        add_number(rows, &mut numbers, port)?;
    }
    Ok(numbers)
}

impl<'r> NearNetworks<'r> {
    /// These rows. Its cost grows with the ports and the routers.
    pub(crate) fn of(alloc: Global, rows: &'r Rows) -> Result<NearNetworks<'r>, OutOfMemory>
        ensures { IfOk result (λ n. n ≡ rows.now) }
    {
        Ok(NearNetworks {
            routers: NamedRouters::of(alloc, rows)?,
            numbers: near_numbers(alloc, rows)?,
        })
    }

    /// The rows.
    pub(crate) fn rows(&self) -> &'r Rows
        ensures { result.now ≡ self.now }
    {
        self.routers.rows()
    }

    /// The number of a vxlan network with a live interface, or None for another network.
    pub(crate) fn number_of(&self, network: Id) -> Option<u32>
        ensures { result ≡ near_number self.now network }
    {
        self.numbers.get(&network).copied()
    }

    /// The router that a port names by its `device_id`.
    pub(crate) fn router_of(&self, port: &PortRow) -> Option<&'r RouterRow>
        ensures { option_copied result ≡ router_by_rows self.now port.now }
    {
        self.routers.router_of(port)
    }
}
