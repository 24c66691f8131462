//! What is printed of routers, floating addresses and policies.

ghost use Rattle.std.specs.Prelude.{◌≡◌, IfOk};
ghost use Rattle.api_types.specs.Printed.{tree_of};
ghost use Rattle.api_policy.specs.Policies as policies;
ghost use Rattle.api_types.specs.Table.{row_of};
ghost use Rattle.api_types.specs.declared.port.PortRow.{PortRow};
ghost use Rattle.api_policy.specs.Routers.{fixed_of, gateway_object};
ghost use Rattle.api_policy.specs.Trees.{fixed_object, list_of, null_or};

use crate::members::Shows;
use crate::port::status;
use crate::printable::{Printable, no_members, object_of, push, push_value, push_word};
use api_types::{
    Action, Caller, FloatingRow, Gateway, Members, PolicyRow, Printed, RouterRow, Rows,
};
use net_addr::{OutOfMemory, Seq};
use std::alloc::Global;

// The addresses of a gateway's port, printed.
fn gateway_addresses(alloc: Global, rows: &Rows, gateway: &Gateway) -> Result<Printed, OutOfMemory>
    ensures { IfOk result
        (λ p. tree_of p
        ≡ list_of fixed_object
        (fixed_of (row_of (λ (r : PortRow). r.id) gateway.now.port rows.now.ports))) }
{
    let ports = rows.ports();
    let _own_ids = ports.rows(); // for the proof: no two ports have one id
    match ports.get(gateway.port) {
        Some(port) => port.fixed.printed(alloc),
        None => Ok(Printed::Items(Vec::new(alloc))),
    }
}

fn gateway_printed(alloc: Global, rows: &Rows, gateway: &Gateway) -> Result<Printed, OutOfMemory>
    ensures { IfOk result (λ p. tree_of p ≡ gateway_object rows.now gateway.now) }
{
    let addresses = gateway_addresses(alloc, rows, gateway)?;
    let mut all = Seq::new(alloc);
    push(alloc, &mut all, "enable_snat", &gateway.snat)?;
    push_value(&mut all, "external_fixed_ips", addresses)?;
    push(alloc, &mut all, "network_id", &gateway.network)?;
    Ok(object_of(all))
}

fn gateway_of(alloc: Global, rows: &Rows, router: &RouterRow) -> Result<Printed, OutOfMemory>
    ensures { IfOk result (λ p. tree_of p ≡ null_or (gateway_object rows.now) router.now.gateway) }
{
    match &router.gateway {
        Some(gateway) => gateway_printed(alloc, rows, gateway),
        None => Ok(Printed::Null),
    }
}

impl Shows for RouterRow {
    ghost use Rattle.api_policy.specs.Routers.{router_members};
    ghost use Rattle.std.specs.Prelude.{refl, true};

    ghost members_of = { λ rows _ r. router_members rows r };

    ghost is_apart = { true };

    ghost apart = { λ _ _ _ _ _. refl };

    fn is_apart() -> bool {
        true
    }

    fn members(
        &self,
        alloc: Global,
        rows: &Rows,
        _caller: &Caller,
    ) -> Result<Members, OutOfMemory> {
        let gateway = gateway_of(alloc, rows, self)?;
        let mut all = no_members(alloc)?;
        push(alloc, &mut all, "admin_state_up", &self.up)?;
        push(alloc, &mut all, "description", &self.description)?;
        push_value(&mut all, "external_gateway_info", gateway)?;
        push(alloc, &mut all, "id", &self.id)?;
        push(alloc, &mut all, "name", &self.name)?;
        push(alloc, &mut all, "project_id", &self.project)?;
        push(alloc, &mut all, "routes", &self.routes)?;
        push_word(&mut all, "status", "ACTIVE")?;
        push(alloc, &mut all, "tenant_id", &self.project)?;
        Ok(all)
    }
}

impl Shows for FloatingRow {
    ghost use Rattle.api_policy.specs.Floatings.{floating_members};
    ghost use Rattle.std.specs.Prelude.{refl, true};

    ghost members_of = { λ _ _ f. floating_members f };

    ghost is_apart = { true };

    ghost apart = { λ _ _ _ _ _. refl };

    fn is_apart() -> bool {
        true
    }

    fn members(
        &self,
        alloc: Global,
        _rows: &Rows,
        _caller: &Caller,
    ) -> Result<Members, OutOfMemory> {
        let fixed = self.target.map(|target| target.fixed);
        let port = self.target.map(|target| target.port);
        let router = self.target.map(|target| target.router);
        let status = status(self.target.is_some());
        let mut all = no_members(alloc)?;
        push(alloc, &mut all, "description", &self.description)?;
        push(alloc, &mut all, "fixed_ip_address", &fixed)?;
        push(alloc, &mut all, "floating_ip_address", &self.address)?;
        push(alloc, &mut all, "floating_network_id", &self.network)?;
        push(alloc, &mut all, "id", &self.id)?;
        push(alloc, &mut all, "port_id", &port)?;
        push(alloc, &mut all, "project_id", &self.project)?;
        push(alloc, &mut all, "router_id", &router)?;
        push_word(&mut all, "status", status)?;
        push(alloc, &mut all, "tenant_id", &self.project)?;
        Ok(all)
    }
}

fn action_word(action: Action) -> &'static str
    ensures { result.now ≡ policies.action_word action }
{
    match action {
        Action::Shared => "access_as_shared",
        Action::External => "access_as_external",
    }
}

impl Shows for PolicyRow {
    ghost use Rattle.api_policy.specs.Policies.{policy_members};
    ghost use Rattle.std.specs.Prelude.{refl, true};

    ghost members_of = { λ _ _ p. policy_members p };

    ghost is_apart = { true };

    ghost apart = { λ _ _ _ _ _. refl };

    fn is_apart() -> bool {
        true
    }

    fn members(
        &self,
        alloc: Global,
        _rows: &Rows,
        _caller: &Caller,
    ) -> Result<Members, OutOfMemory> {
        let mut all = no_members(alloc)?;
        push_word(&mut all, "action", action_word(self.action))?;
        push(alloc, &mut all, "id", &self.id)?;
        push(alloc, &mut all, "object_id", &self.object)?;
        push_word(&mut all, "object_type", "network")?;
        push(alloc, &mut all, "project_id", &self.project)?;
        push(alloc, &mut all, "target_tenant", &self.target)?;
        push(alloc, &mut all, "tenant_id", &self.project)?;
        Ok(all)
    }
}
