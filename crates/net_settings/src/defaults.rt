//! The settings of a server that is given none.

ghost use Rattle.std.specs.Prelude.{◌≡◌, IfOk, Ok, []};
ghost use Rattle.net_settings.specs.Defaults.{default_drivers, default_quotas, default_host, default_hosts, default_parts};
ghost use Rattle.net_settings.specs.Document.{settings_of};

use crate::settings::{Driver, Host, Limit, Quotas, Settings};
use net_addr::{Names, OutOfMemory, Seq, Text};
use std::alloc::Global;

/// Both drivers.
pub(crate) fn default_drivers(alloc: Global) -> Result<Seq<Driver>, OutOfMemory>
    ensures { IfOk result (λ r. r ≡ default_drivers) }
{
    let mut drivers = Seq::new(alloc);
    drivers.push(Driver::Openvswitch)?;
    drivers.push(Driver::L2population)?;
    Ok(drivers)
}

/// The limits of a project where the settings say none.
pub(crate) fn default_quotas() -> Quotas
    ensures { result ≡ default_quotas }
{
    Quotas {
        network: Limit::AtMost(100),
        subnet: Limit::AtMost(100),
        port: Limit::AtMost(500),
        router: Limit::AtMost(10),
        floatingip: Limit::AtMost(50),
        security_group: Limit::AtMost(10),
        security_group_rule: Limit::AtMost(100),
        rbac_policy: Limit::AtMost(10),
    }
}

// A host on `physnet1` that carries vxlan networks, and perhaps routers and DHCP ports.
fn default_host(alloc: Global, name: &str, central: bool) -> Result<Host, OutOfMemory>
    ensures { IfOk result (λ r. r ≡ default_host name.now central) }
{
    let name = Text::of(alloc, name)?;
    let mut physical = Names::new(alloc);
    physical.push(Text::of(alloc, "physnet1")?)?;
    Ok(Host {
        name,
        physical,
        vxlan: true,
        l3: central,
        dhcp: central,
    })
}

/// The hosts c1 and c2. Routers and DHCP ports stand on c1.
pub(crate) fn default_hosts(alloc: Global) -> Result<Seq<Host>, OutOfMemory>
    ensures { IfOk result (λ r. r ≡ default_hosts) }
{
    let mut hosts = Seq::new(alloc);
    hosts.push(default_host(alloc, "c1", true)?)?;
    hosts.push(default_host(alloc, "c2", false)?)?;
    Ok(hosts)
}

/// The settings of a server that is given none: both drivers, vxlan networks 1 to 1000, the default
/// quotas, and the hosts c1 and c2.
pub fn default_settings(alloc: Global) -> Result<Settings, OutOfMemory>
    ensures value { IfOk result (λ r. r ≡ default_parts) }
    ensures empty_file { IfOk result (λ r. settings_of [] ≡ Ok r) }
{
    let drivers = default_drivers(alloc)?;
    let hosts = default_hosts(alloc)?;
    Ok(Settings::of(drivers, 1, 1000, default_quotas(), hosts))
}
