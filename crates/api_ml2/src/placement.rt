//! On which hosts routers and DHCP ports stand.

ghost use Rattle.std.specs.Prelude.{◌≡◌, ◌&&◌, find, option_copied};
ghost use Rattle.net_settings.specs.declared.settings.Host.{Host as HostOf};
ghost use Rattle.api_ml2.specs.Carrying as carrying;
ghost use Rattle.api_ml2.specs.Placement.{dhcp_host, router_host};

use crate::carrying::can_carry;
use api_types::Segment;
use net_addr::Text;
use net_settings::{Host, Settings};

fn first_for_routers(hosts: &[Host]) -> Option<&Host>
    ensures { option_copied result ≡ find (λ (h : HostOf). h.l3) hosts.now }
{
    hosts.iter().find(|host| host.l3)
}

fn first_for_dhcp<'a>(hosts: &'a [Host], segment: &Segment) -> Option<&'a Host>
    ensures { option_copied result
        ≡ find (λ (h : HostOf). h.dhcp && carrying.can_carry h segment.now) hosts.now }
{
    hosts
        .iter()
        .find(|host| host.dhcp && can_carry(host, segment))
}

/// The name of the host on which routers stand: the first one with `l3`. Its cost grows with the
/// hosts.
pub fn place_router(settings: &Settings) -> Option<&Text>
    ensures { option_copied result ≡ router_host settings.now }
{
    let host = first_for_routers(settings.hosts())?;
    Some(&host.name)
}

/// The name of the host on which the DHCP port of a network with this segment stands: the first one
/// with `dhcp` that can carry it. Its cost grows with the hosts.
pub fn place_dhcp<'a>(settings: &'a Settings, segment: &Segment) -> Option<&'a Text>
    ensures { option_copied result ≡ dhcp_host settings.now segment.now }
{
    let host = first_for_dhcp(settings.hosts(), segment)?;
    Some(&host.name)
}
