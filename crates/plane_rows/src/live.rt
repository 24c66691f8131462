//! Live ports, segments, and which ports hear each other.

ghost use Rattle.std.specs.Prelude.{◌≡◌, is_some, option_copied, option_map};
ghost use Rattle.api_types.specs.declared.network.NetworkRow.{NetworkRow as TheNetwork};
ghost use Rattle.api_types.specs.Live.{is_joined as joined_by_rows, is_live as live_by_rows, is_local as local_of, joined_with as joined_of, segment as segment_by_rows};
ghost use Rattle.api_types.specs.RowsWith.{network_with};
ghost use Rattle.api_types.specs.Wires.{wire_of as wire_by_segment, is_wire, network_on as network_on_wire};

use api_types::{Id, NetworkRow, PortRow, Rows, Segment, Vif};
use net_addr::Text;

/// Whether a port is live: it and its network are up, and Open vSwitch carries it.
#[tactic(auto, unfolding(api_types::specs::Live::is_live))]
pub fn is_live(rows: &Rows, port: &PortRow) -> bool
    ensures { result ≡ live_by_rows rows.now port.now }
{
    if !port.up || port.vif != Vif::Ovs {
        return false;
    }
    let networks = rows.networks();
    let _own_ids = networks.rows(); // for the proof: no two networks have one id
    match networks.get(port.network) {
        Some(network) => network.up,
        None => false,
    }
}

/// The segment of the network with this id.
pub fn segment_of(rows: &Rows, network: Id) -> Option<&Segment>
    ensures { option_copied result
        ≡ option_map (λ (n : TheNetwork). n.segment) (network_with rows.now network) }
{
    let networks = rows.networks();
    let _own_ids = networks.rows(); // for the proof: no two networks have one id
    match networks.get(network) {
        Some(network) => Some(&network.segment),
        None => None,
    }
}

// Whether the network's frames stay on their host.
#[tactic(auto, unfolding(api_types::specs::Live::segment))]
fn is_local(rows: &Rows, network: Id) -> bool
    ensures { result ≡ local_of (segment_by_rows rows.now network) }
{
    match segment_of(rows, network) {
        Some(Segment::Flat { .. } | Segment::Vlan { .. } | Segment::Vxlan { .. }) => false,
        Some(Segment::Local) | None => true,
    }
}

/// Whether a physical network carries the network, which is flat or vlan then.
#[tactic(auto, unfolding(api_types::specs::Live::segment))]
pub fn has_wire(rows: &Rows, network: Id) -> bool
    ensures { result ≡ is_some (wire_by_segment (segment_by_rows rows.now network)) }
{
    match segment_of(rows, network) {
        Some(Segment::Flat { .. } | Segment::Vlan { .. }) => true,
        Some(Segment::Local | Segment::Vxlan { .. }) | None => false,
    }
}

fn is_on(physical: &Text, tag: Option<u16>, segment: &Segment) -> bool
    ensures { result
        ≡ is_wire (record { physical = physical.now; tag = tag }) (wire_by_segment segment.now) }
{
    match segment {
        Segment::Flat { physical: on } => *physical == *on && tag.is_none(),
        Segment::Vlan {
            physical: on,
            tag: with,
        } => *physical == *on && tag == Some(*with),
        Segment::Local | Segment::Vxlan { .. } => false,
    }
}

/// The network that a physical network carries untagged, or with this tag. Its cost grows with the
/// networks.
pub fn network_on<'r>(rows: &'r Rows, physical: &Text, tag: Option<u16>) -> Option<&'r NetworkRow>
    ensures { option_copied result
        ≡ network_on_wire rows.now (record { physical = physical.now; tag = tag }) }
{
    for network in rows.networks().rows() {
        if is_on(physical, tag, &network.segment) {
            return Some(network);
        }
    }
    None
}

/// Whether a port and a host hear each other on the port's network: unless it is local, and the
/// port is on another host.
pub fn is_joined(rows: &Rows, port: &PortRow, host: &Text) -> bool
    ensures { result ≡ joined_by_rows rows.now port.now host.now }
{
    !is_local(rows, port.network) || port.host == *host
}

/// Of what was found, what is joined with the host.
pub fn joined_with<'r>(rows: &Rows, host: &Text, found: Option<&'r PortRow>) -> Option<&'r PortRow>
    ensures { option_copied result ≡ joined_of rows.now host.now (option_copied found.entry) }
{
    match found {
        Some(port) => {
            if is_joined(rows, port, host) {
                Some(port)
            } else {
                None
            }
        }
        None => None,
    }
}
