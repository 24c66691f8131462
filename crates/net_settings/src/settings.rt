//! Settings: drivers, vxlan numbers, quotas, hosts.

ghost use Rattle.std.specs.Prelude.{◌≡◌};

use net_addr::{Copies, Names, OutOfMemory, Seq, Text};
use std::alloc::Global;
use std::marker::Model;

/// A mechanism driver of Neutron's ML2 plug-in.
#[derive(Clone, Copy, Debug, PartialEq, Eq)]
pub enum Driver {
    /// Binds a port where its host can carry its network.
    Openvswitch,
    /// Binds nothing.
    L2population,
}

/// How many resources of a kind a project may have.
#[derive(Clone, Copy, Debug, PartialEq, Eq)]
pub enum Limit {
    Unlimited,
    /// At most 2147483647.
    AtMost(u32),
}

/// The limits that hold for each project, by kind of resource (Neutron's quotas).
#[derive(Clone, Copy, Debug, PartialEq, Eq)]
pub struct Quotas {
    pub network: Limit,
    pub subnet: Limit,
    pub port: Limit,
    pub router: Limit,
    pub floatingip: Limit,
    pub security_group: Limit,
    pub security_group_rule: Limit,
    pub rbac_policy: Limit,
}

/// A host that carries ports.
#[derive(Debug, Drop)]
pub struct Host {
    pub name: Text,
    /// The physical networks that it is wired to.
    pub physical: Names,
    /// Whether it carries vxlan networks.
    pub vxlan: bool,
    /// Whether routers may stand on it.
    pub l3: bool,
    /// Whether DHCP ports may stand on it.
    pub dhcp: bool,
}

/// The settings of a server. Each value meets the rules: at most one of each driver, numbers of
/// vxlan networks from 1 to 16777215, the first at most the last, limits up to 2147483647, 1 to 64
/// hosts with different names, and each host's physical networks different.
#[derive(Debug)]
pub struct Settings {
    drivers: Seq<Driver>,
    vxlan_first: u32,
    vxlan_last: u32,
    quotas: Quotas,
    hosts: Seq<Host>,
}

impl Model for Settings {
    ghost use Rattle.net_settings.specs.Settings.{SettingsParts};
    ghost use Rattle.net_settings.specs.Rules.{MeetsRules};

    ghost Value = { SettingsParts };

    ghost view = { λ s.
        record {
          drivers = s.drivers;
          vxlan_first = s.vxlan_first;
          vxlan_last = s.vxlan_last;
          quotas = s.quotas;
          hosts = s.hosts;
        } };

    ghost invariant = { λ s.
        MeetsRules
        (record {
          drivers = s.drivers;
          vxlan_first = s.vxlan_first;
          vxlan_last = s.vxlan_last;
          quotas = s.quotas;
          hosts = s.hosts;
        }) };
}

// By hand, so that a function that owns settings drops them by one call.
impl Drop for Settings {
    fn drop(self) {
        let Settings {
            drivers: _,
            vxlan_first: _,
            vxlan_last: _,
            quotas: _,
            hosts: _,
        } = self;
    }
}

impl Settings {
    ghost use Rattle.net_settings.specs.Rules.{MeetsRules};

    /// The settings of these parts.
    pub(crate) fn of(
        drivers: Seq<Driver>,
        vxlan_first: u32,
        vxlan_last: u32,
        quotas: Quotas,
        hosts: Seq<Host>,
    ) -> Settings
        requires { MeetsRules
            (record {
              drivers = drivers;
              vxlan_first = vxlan_first;
              vxlan_last = vxlan_last;
              quotas = quotas;
              hosts = hosts;
            }) }
        ensures { result
            ≡ record {
              drivers = drivers;
              vxlan_first = vxlan_first;
              vxlan_last = vxlan_last;
              quotas = quotas;
              hosts = hosts;
            } }
    {
        Settings {
            drivers,
            vxlan_first,
            vxlan_last,
            quotas,
            hosts,
        }
    }

    /// The drivers, in the order in which they are asked.
    pub fn drivers(&self) -> &[Driver]
        ensures value { result.now ≡ self.now.drivers }
        ensures rules { MeetsRules self.now }
    {
        self.drivers.as_slice()
    }

    /// The least number of a vxlan network that is given out.
    pub fn vxlan_first(&self) -> u32
        ensures value { result ≡ self.now.vxlan_first }
        ensures rules { MeetsRules self.now }
    {
        self.vxlan_first
    }

    /// The greatest number of a vxlan network that is given out.
    pub fn vxlan_last(&self) -> u32
        ensures value { result ≡ self.now.vxlan_last }
        ensures rules { MeetsRules self.now }
    {
        self.vxlan_last
    }

    /// The limits of each project.
    pub fn quotas(&self) -> Quotas
        ensures value { result ≡ self.now.quotas }
        ensures rules { MeetsRules self.now }
    {
        self.quotas
    }

    /// The hosts, in the order of the file.
    pub fn hosts(&self) -> &[Host]
        ensures value { result.now ≡ self.now.hosts }
        ensures rules { MeetsRules self.now }
    {
        self.hosts.as_slice()
    }
}

impl Copies for Driver {
    fn copy(&self, _alloc: Global) -> Result<Driver, OutOfMemory> {
        Ok(*self)
    }
}

impl Copies for Host {
    fn copy(&self, alloc: Global) -> Result<Host, OutOfMemory> {
        let name = self.name.copy(alloc)?;
        let physical = self.physical.copy(alloc)?;
        Ok(Host {
            name,
            physical,
            vxlan: self.vxlan,
            l3: self.l3,
            dhcp: self.dhcp,
        })
    }
}

impl Copies for Settings {
    fn copy(&self, alloc: Global) -> Result<Settings, OutOfMemory> {
        let drivers = self.drivers.copy(alloc)?;
        let hosts = self.hosts.copy(alloc)?;
        Ok(Settings {
            drivers,
            vxlan_first: self.vxlan_first,
            vxlan_last: self.vxlan_last,
            quotas: self.quotas,
            hosts,
        })
    }
}
