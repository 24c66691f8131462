//! How a port is bound to its host.

ghost use Rattle.std.specs.Prelude.{◌≡◌};
ghost use Rattle.std.specs.List.{list_any};
ghost use Rattle.net_settings.specs.Drivers.{is_driver};
ghost use Rattle.net_settings.specs.declared.settings.Driver.TheVariants.{Openvswitch};
ghost use Rattle.api_ml2.specs.Binding.{bound};
ghost use Rattle.api_ml2.specs.Binding as binding;

use crate::carrying::carries;
use api_types::{Segment, Vif};
use net_addr::Text;
use net_settings::{Driver, Settings};

// Whether the driver that binds is among these.
fn has_openvswitch(drivers: &[Driver]) -> bool
    ensures { result ≡ list_any (is_driver Openvswitch) drivers.now }
{
    drivers
        .iter()
        .any(|driver| matches!(driver, Driver::Openvswitch))
}

fn binds(settings: &Settings, segment: &Segment, host: &Text) -> bool
    ensures { result ≡ binding.binds settings.now segment.now host.now }
{
    has_openvswitch(settings.drivers()) && carries(settings.hosts(), host, segment)
}

/// How a port of a network with this segment is bound to the host (Neutron's
/// `binding:vif_type`): not where it has none, and otherwise by the drivers of the settings, or in
/// vain. Its cost grows with the hosts and the physical networks to which one is wired.
pub fn bind(settings: &Settings, segment: &Segment, host: &Text) -> Vif
    ensures { result ≡ bound settings.now segment.now host.now }
{
    if host.is_empty() {
        return Vif::Unbound;
    }
    if binds(settings, segment, host) {
        Vif::Ovs
    } else {
        Vif::Failed
    }
}
