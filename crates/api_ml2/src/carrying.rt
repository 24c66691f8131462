//! Which segments a host can carry.

ghost use Rattle.std.specs.Prelude.{◌≡◌};
ghost use Rattle.std.specs.List.{list_any};
ghost use Rattle.std.specs.Str.{bytes_eq};
ghost use Rattle.api_ml2.specs.Carrying as carrying;

use api_types::Segment;
use net_addr::Text;
use net_settings::Host;

/// Whether the host is wired to the physical network.
pub fn is_on(host: &Host, physical: &Text) -> bool
    ensures { result ≡ list_any (bytes_eq physical.now) host.now.physical }
{
    host.physical.iter().any(|other| physical == other)
}

pub(crate) fn can_carry(host: &Host, segment: &Segment) -> bool
    ensures { result ≡ carrying.can_carry host.now segment.now }
{
    match segment {
        Segment::Local => true,
        Segment::Flat { physical } => is_on(host, physical),
        Segment::Vlan { physical, tag: _ } => is_on(host, physical),
        Segment::Vxlan { number: _ } => host.vxlan,
    }
}

/// Whether a host of this name is there that can carry the segment. Its cost grows with the hosts.
pub fn carries(hosts: &[Host], name: &Text, segment: &Segment) -> bool
    ensures { result ≡ carrying.carries hosts.now name.now segment.now }
{
    hosts
        .iter()
        .any(|host| host.name == *name && can_carry(host, segment))
}
