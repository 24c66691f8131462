//! What is printed of subnets.

ghost use Rattle.std.specs.Prelude.{◌≡◌};
ghost use Rattle.api_policy.specs.Subnets.{version_number};
ghost use Rattle.api_policy.specs.Subnets as subnets;

use crate::members::Shows;
use crate::printable::{Printable, no_members, push, push_value};
use api_types::{Caller, Ipv6Mode, Members, Printed, Rows, SubnetRow};
use net_addr::{OutOfMemory, Prefix};
use std::alloc::Global;

fn mode_text(mode: Ipv6Mode) -> &'static str
    ensures { result.now ≡ subnets.mode_text mode }
{
    match mode {
        Ipv6Mode::Slaac => "slaac",
        Ipv6Mode::Stateful => "dhcpv6-stateful",
        Ipv6Mode::Stateless => "dhcpv6-stateless",
    }
}

// The version of a prefix, as it is written.
fn version_of(prefix: &Prefix) -> u64
    ensures { result ≡ version_number prefix.now.base }
{
    if prefix.base.is_v4() { 4 } else { 6 }
}

impl Printable for Ipv6Mode {
    ghost use Rattle.api_policy.specs.Subnets.{mode_word};

    ghost tree = { mode_word };

    fn printed(&self, _alloc: Global) -> Result<Printed, OutOfMemory> {
        Ok(Printed::Constant(mode_text(*self)))
    }
}

impl Shows for SubnetRow {
    ghost use Rattle.api_policy.specs.Subnets.{subnet_members};
    ghost use Rattle.std.specs.Prelude.{refl, true};

    ghost members_of = { λ _ _ s. subnet_members s };

    ghost is_apart = { true };

    ghost apart = { λ _ _ _ _ _. refl };

    fn is_apart() -> bool {
        true
    }

    fn members(
        &self,
        alloc: Global,
        _rows: &Rows,
        _caller: &Caller,
    ) -> Result<Members, OutOfMemory> {
        let version = version_of(&self.prefix);
        let mut all = no_members(alloc)?;
        push(alloc, &mut all, "allocation_pools", &self.pools)?;
        push(alloc, &mut all, "cidr", &self.prefix)?;
        push(alloc, &mut all, "description", &self.description)?;
        push(alloc, &mut all, "dns_nameservers", &self.dns)?;
        push(alloc, &mut all, "enable_dhcp", &self.dhcp)?;
        push(alloc, &mut all, "gateway_ip", &self.gateway)?;
        push(alloc, &mut all, "host_routes", &self.host_routes)?;
        push(alloc, &mut all, "id", &self.id)?;
        push_value(&mut all, "ip_version", Printed::Number(version))?;
        push(alloc, &mut all, "ipv6_address_mode", &self.address_mode)?;
        push(alloc, &mut all, "ipv6_ra_mode", &self.ra_mode)?;
        push(alloc, &mut all, "name", &self.name)?;
        push(alloc, &mut all, "network_id", &self.network)?;
        push(alloc, &mut all, "project_id", &self.project)?;
        push(alloc, &mut all, "tenant_id", &self.project)?;
        Ok(all)
    }
}
