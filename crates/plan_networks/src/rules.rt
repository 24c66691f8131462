//! The rules of a network's attributes that speak of the settings.

ghost use Rattle.std.specs.Prelude.{◌≡◌};
ghost use Rattle.plan_networks.specs.NetworkRules as network_rules;

use api_ml2::{is_on, is_wired};
use api_types::{Given, NetworkForm};
use net_addr::Text;
use net_settings::Settings;
use std::alloc::Global;

fn is_on_hosts(settings: &Settings, physical: &Text) -> bool
    ensures { result ≡ network_rules.is_on_hosts settings.now physical.now }
{
    settings.hosts().iter().any(|host| is_on(host, physical))
}

/// Whether the body asks for a flat or a vlan network on a physical network to which no host is
/// wired. Its cost grows with the hosts.
pub(crate) fn is_bare_wire(alloc: Global, settings: &Settings, form: &NetworkForm) -> bool
    ensures { result ≡ network_rules.is_bare_wire settings.now form.now }
{
    is_wired(form)
        && !match &form.provider_physical_network {
            Given::Is(physical) => is_on_hosts(settings, physical),
            _ => is_on_hosts(settings, &Text::new(alloc)),
        }
}
