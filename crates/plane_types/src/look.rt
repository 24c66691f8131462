//! What is looked up in the tables of a host.

ghost use Rattle.std.specs.Prelude.{◌≡◌, ◌&&◌, find, option_copied};
ghost use Rattle.std.specs.List.{filter, list_any};
ghost use Rattle.net_addr.specs.Prefixes.{contains};
ghost use Rattle.api_types.specs.Table.{ident_eq};
ghost use Rattle.api_types.specs.Wires.{tag_eq};
ghost use Rattle.plane_types.specs.TableStep.{carrier_eq, in_set as is_in_set, inward_at, lease_at as lease_by_mac, router_at as router_by_id, tag_row as row_of_tag, tap_at as tap_by_port};
ghost use Rattle.plane_types.specs.declared.table.Carrier.TheVariants.{Tunnel as ByTunnel, Wire as ByWire};
ghost use Rattle.plane_types.specs.declared.table.FilterRow.{FilterRow as TheFilter};
ghost use Rattle.plane_types.specs.declared.table.FloatRow.{FloatRow as TheFloat};
ghost use Rattle.plane_types.specs.declared.table.InwardRow.{InwardRow as TheInward};
ghost use Rattle.plane_types.specs.declared.table.RouteRow.{RouteRow as TheRoute};
ghost use Rattle.plane_types.specs.declared.table.RouterTable.{RouterTable as TheRouter};
ghost use Rattle.plane_types.specs.declared.table.SetRow.{SetRow as TheSet};
ghost use Rattle.plane_types.specs.declared.table.TapRow.{TapRow as TheTap};

use crate::keys::{InwardKey, LeaseKey};
use crate::table::{
    Carrier, FilterRow, FloatRow, InwardRow, LeaseRow, RouteRow, RouterTable, SetRow, TagRow,
    TapRow,
};
use crate::tables::HostTables;
use api_types::Id;
use net_addr::{Addr, Mac, Text};

fn is_tag(tag: Option<u16>, other: Option<u16>) -> bool
    ensures { result ≡ tag_eq tag other }
{
    match (tag, other) {
        (None, None) => true,
        (Some(tag), Some(other)) => tag == other,
        _ => false,
    }
}

fn is_wire(physical: &Text, tag: Option<u16>, carrier: &Carrier) -> bool
    ensures { result
        ≡ carrier_eq (ByWire (record { physical = physical.now; tag = tag })) carrier.now }
{
    match carrier {
        Carrier::Tunnel(_) => false,
        Carrier::Wire(wire) => *physical == wire.physical && is_tag(tag, wire.tag),
    }
}

// The first of these rows by which what comes by the wire comes in.
fn wire_among<'t>(rows: &'t [InwardRow], physical: &Text, tag: Option<u16>) -> Option<&'t InwardRow>
    ensures { option_copied result
        ≡ find
        (λ (r : TheInward).
        carrier_eq (ByWire (record { physical = physical.now; tag = tag })) r.carrier)
        rows.now }
{
    rows.iter().find(|row| is_wire(physical, tag, &row.carrier))
}

// Whether one of these rows is of the group and has the address.
fn set_among(rows: &[SetRow], group: Id, far: &Addr) -> bool
    ensures { result
        ≡ list_any
        (λ (s : TheSet). ident_eq group s.group && contains s.prefix far.now)
        rows.now }
{
    rows.iter()
        .any(|row| group == row.group && row.prefix.contains(*far))
}

/// The cost of each look-up is the same however many rows there are, but for what it steps over as
/// it says.
impl HostTables {
    /// What a tag stands for.
    pub fn tag_row(&self, tag: u16) -> Option<&TagRow>
        ensures { option_copied result ≡ row_of_tag self.now.lists tag }
    {
        self.tags.at(tag)
    }

    /// The tap of a port.
    pub fn tap_at(&self, port: Id) -> Option<&TapRow>
        ensures { option_copied result ≡ tap_by_port self.now.lists port }
    {
        self.taps.at(port)
    }

    /// Whether a port has a tap.
    pub fn has_tap(&self, port: Id) -> bool
        ensures { result ≡ list_any (λ (r : TheTap). ident_eq port r.port) self.now.lists.taps }
    {
        self.taps.has(port)
    }

    /// Filter rows in their order, among which are all of the port. It steps over what stands
    /// between these.
    pub fn filters_near(&self, port: Id) -> &[FilterRow]
        ensures { filter (λ (r : TheFilter). ident_eq port r.port) result.now
            ≡ filter (λ (r : TheFilter). ident_eq port r.port) self.now.lists.filters }
    {
        self.filters.near(port)
    }

    /// Whether an address is in the set of a group. It steps over the set.
    pub fn in_set(&self, group: Id, far: &Addr) -> bool
        ensures { result ≡ is_in_set self.now.lists group far.now }
    {
        set_among(self.sets.near(group), group, far)
    }

    /// The tag of what comes by a tunnel.
    pub fn inward_tunnel(&self, number: u32) -> Option<&InwardRow>
        ensures { option_copied result ≡ inward_at self.now.lists (ByTunnel number) }
    {
        self.inward.at(InwardKey::Tunnel(number))
    }

    /// The tag of what comes by a wire. It steps over the wires with this tag.
    pub fn inward_wire(&self, physical: &Text, tag: Option<u16>) -> Option<&InwardRow>
        ensures { option_copied result
            ≡ inward_at self.now.lists (ByWire (record { physical = physical.now; tag = tag })) }
    {
        wire_among(self.inward.near(InwardKey::Tag(tag)), physical, tag)
    }

    /// A router.
    pub fn router_at(&self, router: Id) -> Option<&RouterTable>
        ensures { option_copied result ≡ router_by_id self.now.lists router }
    {
        self.routers.at(router)
    }

    /// Whether there is a router.
    pub fn has_router(&self, router: Id) -> bool
        ensures { result
            ≡ list_any (λ (r : TheRouter). ident_eq router r.router) self.now.lists.routers }
    {
        self.routers.has(router)
    }

    /// Routes in their order, among which are all of the router.
    pub fn routes_near(&self, router: Id) -> &[RouteRow]
        ensures { filter (λ (r : TheRoute). ident_eq router r.router) result.now
            ≡ filter (λ (r : TheRoute). ident_eq router r.router) self.now.lists.routes }
    {
        self.routes.near(router)
    }

    /// Floating addresses in their order, among which are all of the router.
    pub fn floats_near(&self, router: Id) -> &[FloatRow]
        ensures { filter (λ (f : TheFloat). ident_eq router f.router) result.now
            ≡ filter (λ (f : TheFloat). ident_eq router f.router) self.now.lists.floats }
    {
        self.floats.near(router)
    }

    /// The lease of a MAC.
    pub fn lease_at(&self, tag: u16, mac: Mac) -> Option<&LeaseRow>
        ensures { option_copied result ≡ lease_by_mac self.now.lists tag mac }
    {
        self.leases.at(LeaseKey { tag, mac })
    }
}
