//! Which ports of a host serve networks by DHCP, before a change and after it.

ghost use Rattle.std.specs.Prelude.{◌≡◌, ◌&&◌, IfOk, None, OnOk, Some, false, find, if◌then◌else◌, is_some, nat_lt, option_and_then, option_copied, option_map, true};
ghost use Rattle.std.specs.HashMap.{get};
ghost use Rattle.api_types.specs.Ident.{Ident};
ghost use Rattle.api_types.specs.Live.{is_here as is_here_by_rows, is_live};
ghost use Rattle.api_types.specs.Owners.{is_dhcp as is_dhcp_owner};
ghost use Rattle.api_types.specs.Table.{ident_eq, place_of};
ghost use Rattle.api_types.specs.declared.port.PortRow.{PortRow as ThePort};
ghost use Rattle.plane_types.specs.TableRows.{tag_of};
ghost use Rattle.table_edits.specs.EditsAt.{KeysDescend, among};
ghost use Rattle.table_edits.specs.NumbersSeen.{at_after, at_before};
ghost use Rattle.touched_rows.specs.CanLive.{can_live};
ghost use Rattle.dhcp_delta.specs.DescendProp.{KeysDescend-prop};
ghost use Rattle.dhcp_delta.specs.Serving.{dhcp_here, is_served as is_served_by_rows, serves_any, tap_port};

use api_types::{Id, PortRow};
use host_plane::bridge_at;
use net_addr::OutOfMemory;
use plane_rows::is_here;
use plane_types::{BridgeKey, BridgeTo};
use std::alloc::Global;
use std::collections::HashMap;
use table_edits::is_among;
use touched_rows::Rewiring;

/// Which ports of a host serve networks, before a change and after it.
#[derive(Drop)]
pub(crate) struct Servers<'t, 'r> {
    pub(crate) change: &'t Rewiring<'r>,
    // the numbers of the touched ports, from the greatest to the least
    pub(crate) touched: &'t [usize],
    // of these the DHCP ports here after the change, by their networks
    made: HashMap<Id, usize>,
    ghost down: { KeysDescend nat_lt touched.now } by { KeysDescend-prop nat_lt touched.now },
    ghost stay: { (k : _) → among nat_lt k touched.now ≡ false
        → at_before change.now.ports k ≡ at_after change.now.ports k },
    ghost live: { (k : _) (p : ThePort) → among nat_lt k touched.now ≡ false
        → at_before change.now.ports k ≡ Some p
        → is_live change.now.before.now p ≡ is_live change.now.after.now p },
    ghost tag: { (k : _) (p : ThePort) → among nat_lt k touched.now ≡ false
        → at_before change.now.ports k ≡ Some p → can_live p ≡ true
        → tag_of change.now.old p.network ≡ tag_of change.now.new p.network },
    ghost listed: { (n : Ident)
        → get ident_eq made n
        ≡ find
        (λ k. serves_any change.now.after.now change.now.host.now n (at_after change.now.ports k))
        touched.now },
}

// Whether a port is a live DHCP port here after the change.
fn serves(change: &Rewiring, port: &PortRow) -> bool
    ensures { result
        ≡ (is_dhcp_owner port.now.owner
        && is_here_by_rows change.now.after.now change.now.host.now port.now) }
{
    port.is_dhcp() && is_here(change.after, change.host, port)
}

// Adds the network of the port with a number, if the port serves it here after the change.
fn add_server(
    made: &mut HashMap<Id, usize>,
    change: &Rewiring,
    number: usize,
) -> Result<(), OutOfMemory>
    ensures { OnOk result
        ((n : Ident)
        → get ident_eq made.new n
        ≡ (if serves_any change.now.after.now change.now.host.now n
        (at_after change.now.ports number) then Some number
        else get ident_eq made.old n)) }
{
    if let Some(port) = change.ports.row_after(number) {
        if serves(change, port) {
            made.insert(port.network, number)?;
        }
    }
    Ok(())
}

// From the last to the first, so that the first one of a network stays.
fn servers_among(
    alloc: Global,
    change: &Rewiring,
    touched: &[usize],
) -> Result<HashMap<Id, usize>, OutOfMemory>
    ensures { IfOk result
        (λ m. (n : Ident)
        → get ident_eq m n
        ≡ find
        (λ k. serves_any change.now.after.now change.now.host.now n (at_after change.now.ports k))
        touched.now) }
{
    let mut made = HashMap::new(alloc);
    let mut left = touched.len();
    while left > 0 {
        left -= 1;
        add_server(&mut made, change, touched[left])?;
    }
    Ok(made)
}

// The port of a tap.
fn tap_of(to: &BridgeTo) -> Option<Id>
    ensures { result ≡ tap_port to.now }
{
    match to {
        BridgeTo::Tap(port) => Some(*port),
        BridgeTo::Router { .. } | BridgeTo::Tunnel { .. } => None,
    }
}

impl<'t, 'r> Servers<'t, 'r> {
    /// The servers of a host, for the ports that the change touches. Its cost grows with these.
    pub(crate) fn of(
        alloc: Global,
        change: &'t Rewiring<'r>,
        touched: &'t [usize],
    ) -> Result<Servers<'t, 'r>, OutOfMemory>
        requires down { KeysDescend nat_lt touched.now }
        requires stay { (k : _) → among nat_lt k touched.now ≡ false
            → at_before change.now.ports k ≡ at_after change.now.ports k }
        requires live { (k : _) (p : ThePort) → among nat_lt k touched.now ≡ false
            → at_before change.now.ports k ≡ Some p
            → is_live change.now.before.now p ≡ is_live change.now.after.now p }
        requires tag { (k : _) (p : ThePort) → among nat_lt k touched.now ≡ false
            → at_before change.now.ports k ≡ Some p → can_live p ≡ true
            → tag_of change.now.old p.network ≡ tag_of change.now.new p.network }
        ensures change { IfOk result (λ s. s.change.now ≡ change.now) }
        ensures touched { IfOk result (λ s. s.touched.now ≡ touched.now) }
    {
        let made = servers_among(alloc, change, touched)?;
        Ok(Servers {
            change,
            touched,
            made,
        })
    }

    // The port here that served a network: the tap to which its entry of the bridge leads.
    fn tap_before(&self, network: Id) -> Option<Id>
        ensures { result
            ≡ option_map (λ (d : ThePort). d.id)
            (dhcp_here self.now.change.now.before.now self.now.change.now.host.now network) }
    {
        let tag = self.change.old_tag(network)?;
        let entry = bridge_at(self.change.tables, tag, BridgeKey::Dhcp)?;
        tap_of(&entry.to)
    }

    // Its number.
    fn number_before(&self, network: Id) -> Option<usize>
        ensures { result
            ≡ option_and_then
            (λ (d : ThePort). place_of (λ (p : ThePort). p.id) d.id
            self.now.change.now.before.now.ports)
            (dhcp_here self.now.change.now.before.now self.now.change.now.host.now network) }
    {
        let port = self.tap_before(network)?;
        self.change.ports.number(port)
    }

    /// The port here that serves a network after the change. Its cost grows with the logarithm of
    /// the bridge and of the touched ports.
    pub(crate) fn after(&self, network: Id) -> Option<&'r PortRow>
        ensures { option_copied result
            ≡ dhcp_here self.now.change.now.after.now self.now.change.now.host.now network }
    {
        let _own_ids = self.change.ports.rows(); // for the proof: no two ports have one id
        if let Some(number) = self.made.get(&network) {
            return self.change.ports.row_after(*number);
        }
        let number = self.number_before(network)?;
        if is_among(self.touched, &number) {
            return None;
        }
        self.change.ports.row(number)
    }

    /// Whether a port here serves a network before the change or after it.
    pub(crate) fn is_served(&self, network: Id) -> bool
        ensures { result
            ≡ is_served_by_rows self.now.change.now.before.now self.now.change.now.after.now
            self.now.change.now.host.now network }
    {
        let _own_ids = self.change.ports.rows(); // for the proof: no two ports have one id
        self.number_before(network).is_some() || self.after(network).is_some()
    }
}
