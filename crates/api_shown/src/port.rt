//! What is printed of ports.

ghost use Rattle.std.specs.Prelude.{◌≡◌, Bool};
ghost use Rattle.api_types.specs.Live as live;
ghost use Rattle.api_policy.specs.Ports.{status_word};
ghost use Rattle.api_policy.specs.Ports as ports;

use crate::members::Shows;
use crate::printable::{no_members, push, push_word};
use api_types::{Caller, Members, PortRow, Rows, Vif};
use net_addr::OutOfMemory;
use std::alloc::Global;

fn vif_word(vif: Vif) -> &'static str
    ensures { result.now ≡ ports.vif_word vif }
{
    match vif {
        Vif::Unbound => "unbound",
        Vif::Failed => "binding_failed",
        Vif::Ovs => "ovs",
    }
}

// Whether a port is live: it and its network are up, and Open vSwitch carries it.
#[tactic(auto, unfolding(api_types::specs::Live::is_live))]
fn is_live(rows: &Rows, port: &PortRow) -> bool
    ensures { result ≡ live.is_live rows.now port.now }
{
    if !port.up || port.vif != Vif::Ovs {
        return false;
    }
    let networks = rows.networks();
    let _own_ids = networks.rows(); // for the proof: no two networks have one id
    match networks.get(port.network) {
        Some(network) => network.up,
        None => false,
    }
}

/// The word for a row that may be in use or not.
pub(crate) fn status(active: bool) -> &'static str
    ensures { result.now ≡ status_word active }
{
    if active { "ACTIVE" } else { "DOWN" }
}

impl Shows for PortRow {
    ghost use Rattle.api_policy.specs.Ports.{port_members};
    ghost use Rattle.api_shown.specs.OwnKind.{port_apart};
    ghost use Rattle.std.specs.Prelude.{true};

    ghost members_of = { λ rows _ p. port_members rows p };

    ghost is_apart = { true };

    ghost apart = { λ _ rows item _ p. port_apart rows item p };

    fn is_apart() -> bool {
        true
    }

    fn members(
        &self,
        alloc: Global,
        rows: &Rows,
        _caller: &Caller,
    ) -> Result<Members, OutOfMemory> {
        let status = status(is_live(rows, self));
        let mut all = no_members(alloc)?;
        push(alloc, &mut all, "admin_state_up", &self.up)?;
        push(alloc, &mut all, "allowed_address_pairs", &self.pairs)?;
        push(alloc, &mut all, "binding:host_id", &self.host)?;
        push_word(&mut all, "binding:vif_type", vif_word(self.vif))?;
        push_word(&mut all, "binding:vnic_type", "normal")?;
        push(alloc, &mut all, "description", &self.description)?;
        push(alloc, &mut all, "device_id", &self.device)?;
        push(alloc, &mut all, "device_owner", &self.owner)?;
        push(alloc, &mut all, "fixed_ips", &self.fixed)?;
        push(alloc, &mut all, "id", &self.id)?;
        push(alloc, &mut all, "mac_address", &self.mac)?;
        push(alloc, &mut all, "name", &self.name)?;
        push(alloc, &mut all, "network_id", &self.network)?;
        push(alloc, &mut all, "port_security_enabled", &self.secured)?;
        push(alloc, &mut all, "project_id", &self.project)?;
        push(alloc, &mut all, "security_groups", &self.groups)?;
        push_word(&mut all, "status", status)?;
        push(alloc, &mut all, "tenant_id", &self.project)?;
        Ok(all)
    }
}
