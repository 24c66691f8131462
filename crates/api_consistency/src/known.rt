//! Rows, and where some of them are looked for first.

ghost use Rattle.std.specs.Prelude.{◌≡◌, IfOk};
ghost use Rattle.std.specs.HashSet.{contains};
ghost use Rattle.api_types.specs.Consistent.Named as named;
ghost use Rattle.api_types.specs.Ident.{Ident};
ghost use Rattle.api_types.specs.Table.{HaveOwnIds, ident_eq};

use crate::looked::device_id;
use crate::numbers::{id_number, mix};
use api_types::{
    FloatingRow, GroupRow, Id, NetworkRow, PolicyRow, PortRow, ProjectRow, Rows, RuleRow, Shared,
    SubnetRow,
};
use net_addr::OutOfMemory;
use std::alloc::Global;
use std::collections::{HashMap, HashSet};
use std::marker::Model;

/// Rows with the ids of floating addresses' own ports, and places at which ports of services are
/// looked for first. Contracts see the rows, and nothing of the places: whoever is led to one looks
/// whether it is right.
#[derive(Drop)]
pub(crate) struct Known<'r> {
    rows: &'r Rows,
    own_ports: HashSet<Id>,
    dhcp_ports: HashMap<Id, usize>,
    legs: HashMap<Id, Vec<usize>>,
    interfaces: HashMap<u128, usize>,
}

impl<'r> Model for Known<'r> {
    ghost use Rattle.std.specs.Prelude.{◌≡◌};
    ghost use Rattle.std.specs.HashSet.{contains};
    ghost use Rattle.api_types.specs.Consistent.Named.{is_own_port};
    ghost use Rattle.api_types.specs.Ident.{Ident};
    ghost use Rattle.api_types.specs.RowLists.{RowLists};
    ghost use Rattle.api_types.specs.Table.{ident_eq};

    ghost Value = { RowLists };

    ghost view = { λ k. k.rows.now };

    ghost invariant = { λ k. (i : Ident)
        → contains ident_eq k.own_ports i ≡ is_own_port k.rows.now.floatings i };
}

// The ids of the floating addresses' own ports, from the last to the first.
fn own_ports(alloc: Global, floatings: &[Shared<FloatingRow>]) -> Result<HashSet<Id>, OutOfMemory>
    ensures { IfOk result
        (λ s. (i : Ident) → contains ident_eq s i ≡ named.is_own_port floatings.now i) }
{
    let mut own = HashSet::new(alloc);
    let mut left = floatings.len();
    while left > 0 {
        left -= 1;
        own.insert(floatings[left].own_port)?;
    }
    Ok(own)
}

// For each network a place at which a DHCP port of it stands.
fn dhcp_places(
    alloc: Global,
    ports: &[Shared<PortRow>],
) -> Result<HashMap<Id, usize>, OutOfMemory> {
    let mut places = HashMap::new(alloc);
    for place in 0..ports.len() {
        if ports[place].is_dhcp() {
            places.insert(ports[place].network, place)?;
        }
    }
    Ok(places)
}

// Adds a place to those of a router.
fn add_leg(
    alloc: Global,
    legs: &mut HashMap<Id, Vec<usize>>,
    router: Id,
    place: usize,
) -> Result<(), OutOfMemory> {
    let mut places = match legs.remove(&router) {
        Some(places) => places,
        None => Vec::new(alloc),
    };
    places.push(place)?;
    legs.insert(router, places)?;
    Ok(())
}

// For each router the places at which its ports stand.
fn leg_places(
    alloc: Global,
    ports: &[Shared<PortRow>],
) -> Result<HashMap<Id, Vec<usize>>, OutOfMemory> {
    let mut legs = HashMap::new(alloc);
    for place in 0..ports.len() {
        if ports[place].is_router_port() {
            if let Some(router) = device_id(&ports[place]) {
                add_leg(alloc, &mut legs, router, place)?;
            }
        }
    }
    Ok(legs)
}

fn interface_key(router: Id, subnet: Id) -> u128 {
    mix(id_number(router), id_number(subnet))
}

// For each router and each subnet a place at which its interface there stands.
fn interface_places(
    alloc: Global,
    ports: &[Shared<PortRow>],
) -> Result<HashMap<u128, usize>, OutOfMemory> {
    let mut interfaces = HashMap::new(alloc);
    for place in 0..ports.len() {
        let port = ports[place].get();
        if port.is_interface() {
            if let Some(router) = device_id(port) {
                for fixed in port.fixed.as_slice() {
                    interfaces.insert(interface_key(router, fixed.subnet), place)?;
                }
            }
        }
    }
    Ok(interfaces)
}

impl<'r> Known<'r> {
    /// These rows. Its cost and memory grow with the ports and the floating addresses.
    pub(crate) fn of(alloc: Global, rows: &'r Rows) -> Result<Known<'r>, OutOfMemory>
        ensures { IfOk result (λ k. k ≡ rows.now) }
    {
        let ports = rows.ports().rows();
        Ok(Known {
            rows,
            own_ports: own_ports(alloc, rows.floatings().rows())?,
            dhcp_ports: dhcp_places(alloc, ports)?,
            legs: leg_places(alloc, ports)?,
            interfaces: interface_places(alloc, ports)?,
        })
    }

    /// The rows.
    pub(crate) fn rows(&self) -> &'r Rows
        ensures { result.now ≡ self.now }
    {
        self.rows
    }

    /// The projects.
    pub(crate) fn projects(&self) -> &'r [Shared<ProjectRow>]
        ensures { result.now ≡ self.now.projects }
    {
        self.rows.projects().rows()
    }

    /// The networks.
    pub(crate) fn networks(&self) -> &'r [Shared<NetworkRow>]
        ensures { result.now ≡ self.now.networks }
    {
        self.rows.networks().rows()
    }

    /// The subnets.
    pub(crate) fn subnets(&self) -> &'r [Shared<SubnetRow>]
        ensures rows { result.now ≡ self.now.subnets }
        ensures own_ids { HaveOwnIds (λ s. s.id) self.now.subnets }
    {
        self.rows.subnets().rows()
    }

    /// The ports.
    pub(crate) fn ports(&self) -> &'r [Shared<PortRow>]
        ensures { result.now ≡ self.now.ports }
    {
        self.rows.ports().rows()
    }

    /// The security groups.
    pub(crate) fn groups(&self) -> &'r [Shared<GroupRow>]
        ensures { result.now ≡ self.now.groups }
    {
        self.rows.groups().rows()
    }

    /// Their rules.
    pub(crate) fn rules(&self) -> &'r [Shared<RuleRow>]
        ensures { result.now ≡ self.now.rules }
    {
        self.rows.rules().rows()
    }

    /// The floating addresses.
    pub(crate) fn floatings(&self) -> &'r [Shared<FloatingRow>]
        ensures { result.now ≡ self.now.floatings }
    {
        self.rows.floatings().rows()
    }

    /// The RBAC policies.
    pub(crate) fn policies(&self) -> &'r [Shared<PolicyRow>]
        ensures { result.now ≡ self.now.policies }
    {
        self.rows.policies().rows()
    }

    /// Whether a floating address names the port as its own. Its cost doesn't grow with the rows.
    pub(crate) fn is_own_port(&self, port: &PortRow) -> bool
        ensures { result ≡ named.is_own_port self.now.floatings port.now.id }
    {
        self.own_ports.contains(&port.id)
    }

    /// A place to look at first for the network's DHCP port.
    pub(crate) fn dhcp_place(&self, network: Id) -> Option<usize> {
        self.dhcp_ports.get(&network).copied()
    }

    /// A place to look at first for the router's interface on a subnet.
    pub(crate) fn interface_place(&self, router: Id, subnet: Id) -> Option<usize> {
        let key = interface_key(router, subnet);
        self.interfaces.get(&key).copied()
    }

    /// Places to look at first for the router's ports.
    pub(crate) fn leg_places(&self, router: Id) -> Option<&Vec<usize>> {
        self.legs.get(&router)
    }
}
