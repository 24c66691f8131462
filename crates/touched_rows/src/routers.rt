//! The routers that a change touches.

ghost use Rattle.std.specs.Prelude.{◌≡◌, ◌++◌, [], IfOk, OnOk, Some, false, flat_map, nat_lt, option_and_then, option_copied, true};
ghost use Rattle.std.specs.HashSet.{contains};
ghost use Rattle.std.specs.List.{cons_option, filter_map};
ghost use Rattle.api_types.specs.Consistent.{IsConsistent};
ghost use Rattle.api_types.specs.Lists.{Each};
ghost use Rattle.api_types.specs.Owners.{device_is, is_router_port as router_port_of};
ghost use Rattle.api_types.specs.Parts.{router_of as router_part};
ghost use Rattle.api_types.specs.RouterRows.{legs_of};
ghost use Rattle.api_types.specs.RowsWith.{subnet_with};
ghost use Rattle.api_types.specs.Table.{ident_eq};
ghost use Rattle.api_types.specs.declared.kind.Kind.TheVariants.{Router as RouterKind};
ghost use Rattle.api_types.specs.declared.port.Fixed.{Fixed as TheFixed};
ghost use Rattle.api_types.specs.declared.port.PortRow.{PortRow as ThePort};
ghost use Rattle.api_types.specs.declared.router.RouterRow.{RouterRow as TheRouter};
ghost use Rattle.plane_types.specs.NumberedRows.{row_items};
ghost use Rattle.table_edits.specs.EditsAt.{KeysDescend, among};
ghost use Rattle.table_edits.specs.NumbersSeen.{at_after, at_before};
ghost use Rattle.touched_rows.specs.TouchedNumbers.{holds_in_any as holds_any, router_in, router_number as number_by_rows, routers_by};
ghost use Rattle.table_edits.specs.Untouched.{SubnetStays};

use crate::devices::router_number;
use crate::rewiring::Rewiring;
use crate::subnets::touched_subnets;
use api_types::{Id, PortRow, RouterRow, Rows};
use net_addr::OutOfMemory;
use std::alloc::Global;
use std::collections::HashSet;
use table_edits::{Numbers, descending};

// Whether a port holds an address in one of these subnets.
fn holds_in_any(port: &PortRow, subnets: &HashSet<Id>) -> bool
    ensures { result ≡ holds_any (contains ident_eq subnets.now) port.now }
{
    for fixed in port.fixed.as_slice() {
        if subnets.contains(&fixed.subnet) {
            return true;
        }
    }
    false
}

// Adds the number of the router of which a port is.
fn add_router_of(
    touched: &mut Vec<usize>,
    rows: &Rows,
    routers: &Numbers<RouterRow>,
    port: Option<&PortRow>,
) -> Result<(), OutOfMemory>
    requires { IsConsistent rows.now }
    ensures { OnOk result
        (touched.new.items
        ≡ touched.old.items
        ++ cons_option
        (option_and_then (number_by_rows rows.now routers.now.rows) (option_copied port.entry))
        []) }
{
    let Some(port) = port else {
        return Ok(());
    };
    if let Some(number) = router_number(rows, routers, port) {
        touched.push(number)?;
    }
    Ok(())
}

// Adds the numbers of the routers of the port with a number, before the change and after it.
fn add_routers_of(
    touched: &mut Vec<usize>,
    change: &Rewiring,
    routers: &Numbers<RouterRow>,
    port: usize,
) -> Result<(), OutOfMemory>
    ensures { OnOk result
        (touched.new.items
        ≡ touched.old.items
        ++ routers_by change.now.before.now change.now.after.now routers.now.rows change.now.ports
        port) }
{
    let old = change.ports.row(port);
    add_router_of(touched, change.before, routers, old)?;
    let new = change.ports.row_after(port);
    add_router_of(touched, change.after, routers, new)
}

// Adds the numbers of the routers of the ports with these numbers, before the change and after it.
fn add_routers_by(
    touched: &mut Vec<usize>,
    change: &Rewiring,
    routers: &Numbers<RouterRow>,
    ports: &[usize],
) -> Result<(), OutOfMemory>
    ensures { OnOk result
        (touched.new.items
        ≡ touched.old.items
        ++ flat_map
        (routers_by change.now.before.now change.now.after.now routers.now.rows change.now.ports)
        ports.now) }
{
    for number in ports {
        add_routers_of(touched, change, routers, *number)?;
    }
    Ok(())
}

// Adds the number of the router of a port that holds an address in one of these subnets.
fn add_router_in(
    touched: &mut Vec<usize>,
    rows: &Rows,
    routers: &Numbers<RouterRow>,
    subnets: &HashSet<Id>,
    port: &PortRow,
) -> Result<(), OutOfMemory>
    requires { IsConsistent rows.now }
    ensures { OnOk result
        (touched.new.items
        ≡ touched.old.items
        ++ cons_option
        (router_in (contains ident_eq subnets.now) rows.now routers.now.rows port.now) []) }
{
    if holds_in_any(port, subnets) {
        if let Some(number) = router_number(rows, routers, port) {
            touched.push(number)?;
        }
    }
    Ok(())
}

// Adds the numbers of the routers with a port in these subnets.
fn add_routers_in(
    touched: &mut Vec<usize>,
    rows: &Rows,
    routers: &Numbers<RouterRow>,
    subnets: &HashSet<Id>,
) -> Result<(), OutOfMemory>
    requires { IsConsistent rows.now }
    ensures { OnOk result
        (touched.new.items
        ≡ touched.old.items
        ++ filter_map (router_in (contains ident_eq subnets.now) rows.now routers.now.rows)
        rows.now.ports) }
{
    if subnets.is_empty() {
        return Ok(());
    }
    for port in rows.ports().rows() {
        add_router_in(touched, rows, routers, subnets, port.get())?;
    }
    Ok(())
}

/// The numbers of the routers that a change touches, from the greatest to the least: those that it
/// names, those with a touched port, and those with a port in a touched subnet. Its cost grows with
/// the items and the touched ports, and with the ports where a subnet is touched.
pub fn touched_routers(
    alloc: Global,
    change: &Rewiring,
    routers: &Numbers<RouterRow>,
    ports: &[usize],
) -> Result<Vec<usize>, OutOfMemory>
    requires { routers.now
        ≡ record {
          rows = change.now.before.now.routers;
          items = row_items RouterKind router_part change.now.items.now;
        } }
    ensures down { IfOk result (λ ks. KeysDescend nat_lt ks.items) }
    ensures named { IfOk result
        (λ ks. (k : _) → among nat_lt k ks.items ≡ false
        → at_before routers.now k ≡ at_after routers.now k) }
    ensures ports_before { IfOk result
        (λ ks. (k j : _) (r : TheRouter) (p : ThePort) → among nat_lt k ks.items ≡ false
        → at_before routers.now k ≡ Some r → at_before change.now.ports j ≡ Some p
        → router_port_of p.owner ≡ true → device_is p.device r.id ≡ true
        → among nat_lt j ports.now ≡ false) }
    ensures ports_after { IfOk result
        (λ ks. (k j : _) (r : TheRouter) (p : ThePort) → among nat_lt k ks.items ≡ false
        → at_after routers.now k ≡ Some r → at_after change.now.ports j ≡ Some p
        → router_port_of p.owner ≡ true → device_is p.device r.id ≡ true
        → among nat_lt j ports.now ≡ false) }
    ensures subnets { IfOk result
        (λ ks. (k : _) (r : TheRouter) → among nat_lt k ks.items ≡ false
        → at_before routers.now k ≡ Some r
        → Each
        (λ (p : ThePort). Each
        (λ (f : TheFixed). SubnetStays (subnet_with change.now.before.now f.subnet)
        (subnet_with change.now.after.now f.subnet))
        p.fixed)
        (legs_of change.now.before.now r)) }
{
    let _own_ids = routers.rows(); // for the proof: no two routers have one id
    let mut touched = Vec::from_slice(alloc, routers.named())?;
    add_routers_by(&mut touched, change, routers, ports)?;
    let subnets = touched_subnets(alloc, change.before, change.after, change.items)?;
    add_routers_in(&mut touched, change.before, routers, &subnets)?;
    descending(alloc, touched)
}
