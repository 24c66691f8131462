//! Clause 6: subnets that are reached together are disjoint.

ghost use Rattle.std.specs.Prelude.{◌≡◌, ◌++◌, ◌<◌, ◌^◌, IfOk, OnOk, map, flat_map, true};
ghost use Rattle.std.specs.List.{IsDistinct, filter_map};
ghost use Rattle.api_types.specs.Consistent.Disjoint.{AreDisjoint};
ghost use Rattle.api_types.specs.Consistent.Numbered.{AreNumbered};
ghost use Rattle.api_consistency.specs.Stretches.{clash};
ghost use Rattle.api_consistency.specs.Keys as keys;

use crate::known::Known;
use crate::numbers::{address_number, id_number, text_number, version_group};
use crate::stretch::{Stretch, are_apart_by_holder};
use api_types::{Fixed, Id, PortRow, Rows, Shared, SubnetRow};
use call_parts::are_typed;
use net_addr::{OutOfMemory, Prefix};
use std::alloc::Global;

// The addresses of a prefix, which a holder has in a group.
fn stretch_of(group: u128, prefix: &Prefix, holder: Id) -> Stretch
    requires { group < 2 ^ 96 }
    ensures { result ≡ keys.of_prefix group prefix.now holder }
{
    Stretch {
        group: version_group(group, &prefix.base),
        first: address_number(&prefix.base),
        last: address_number(&prefix.last()),
        holder: id_number(holder),
    }
}

fn subnets_of(alloc: Global, subnets: &[Shared<SubnetRow>]) -> Result<Vec<Stretch>, OutOfMemory>
    ensures { IfOk result (λ v. v.items ≡ map keys.of_subnet subnets.now) }
{
    let mut stretches = Vec::new(alloc);
    for subnet in subnets {
        stretches.push(stretch_of(id_number(subnet.network), &subnet.prefix, subnet.id))?;
    }
    Ok(stretches)
}

// The subnet in which a router's port holds an address, where it is there.
fn leg_of(rows: &Rows, port: &PortRow, fixed: &Fixed) -> Option<Stretch>
    ensures { result ≡ keys.leg_of rows.now.subnets port.now fixed.now }
{
    match rows.subnets().get(fixed.subnet) {
        Some(subnet) => {
            let router = text_number(&port.device) % 0x1_0000_0000_0000_0000_0000_0000;
            Some(stretch_of(router, &subnet.prefix, port.id))
        }
        None => None,
    }
}

// Adds the subnets in which a router's port holds addresses.
fn add_legs(reached: &mut Vec<Stretch>, rows: &Rows, port: &PortRow) -> Result<(), OutOfMemory>
    ensures { OnOk result
        (reached.new.items
        ≡ reached.old.items ++ filter_map (keys.leg_of rows.now.subnets port.now) port.now.fixed) }
{
    for fixed in port.fixed.as_slice() {
        if let Some(leg) = leg_of(rows, port, fixed) {
            reached.push(leg)?;
        }
    }
    Ok(())
}

// Adds what a port reaches, where it is a router's.
fn add_port(reached: &mut Vec<Stretch>, rows: &Rows, port: &PortRow) -> Result<(), OutOfMemory>
    ensures { OnOk result
        (reached.new.items ≡ reached.old.items ++ keys.legs_of rows.now.subnets port.now) }
{
    if !port.is_router_port() {
        return Ok(());
    }
    add_legs(reached, rows, port)
}

// What the ports of routers reach.
fn reached_of(
    alloc: Global,
    rows: &Rows,
    ports: &[Shared<PortRow>],
) -> Result<Vec<Stretch>, OutOfMemory>
    ensures { IfOk result
        (λ v. v.items ≡ flat_map (keys.legs_of rows.now.subnets) ports.now) }
{
    let mut reached = Vec::new(alloc);
    for port in ports {
        add_port(&mut reached, rows, port)?;
    }
    Ok(reached)
}

fn are_subnets_apart(alloc: Global, known: &Known) -> Result<bool, OutOfMemory>
    ensures { IfOk result
        (λ b. b ≡ true → IsDistinct clash (map keys.of_subnet known.now.subnets)) }
{
    let stretches = subnets_of(alloc, known.subnets())?;
    Ok(are_apart_by_holder(stretches))
}

fn are_reached_apart(alloc: Global, known: &Known) -> Result<bool, OutOfMemory>
    ensures { IfOk result
        (λ b. b ≡ true
        → IsDistinct clash (flat_map (keys.legs_of known.now.subnets) known.now.ports)) }
{
    let reached = reached_of(alloc, known.rows(), known.ports())?;
    Ok(are_apart_by_holder(reached))
}

/// Whether subnets of a network, and those that ports of a router reach, have no address in common.
/// Its cost grows with the subnets, the ports and the logarithm of their number.
pub(crate) fn are_disjoint(alloc: Global, known: &Known) -> Result<bool, OutOfMemory>
    ensures { IfOk result
        (λ b. b ≡ true
        → AreNumbered known.now → AreDisjoint known.now.subnets known.now.ports known.now.routers) }
{
    are_typed(known.rows());
    let _own_ids = known.subnets();
    if !are_subnets_apart(alloc, known)? {
        return Ok(false);
    }
    are_reached_apart(alloc, known)
}
