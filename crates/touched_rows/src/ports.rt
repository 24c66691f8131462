//! The ports that a change touches.

ghost use Rattle.std.specs.Prelude.{◌≡◌, ◌++◌, IfOk, OnOk, Some, false, nat_lt, true};
ghost use Rattle.std.specs.HashSet.{contains};
ghost use Rattle.api_types.specs.Table.{ident_eq};
ghost use Rattle.api_types.specs.declared.port.PortRow.{PortRow as ThePort};
ghost use Rattle.table_edits.specs.EditsAt.{KeysDescend, among};
ghost use Rattle.table_edits.specs.NumbersSeen.{at_after, at_before};
ghost use Rattle.touched_rows.specs.CanLive.{can_live};
ghost use Rattle.touched_rows.specs.TouchedNumbers.{can_live_on, numbers_from};

use api_types::{Id, PortRow, Shared, Vif};
use net_addr::OutOfMemory;
use std::alloc::Global;
use std::collections::HashSet;
use table_edits::{Numbers, descending};

// Whether a port can be live, and is on one of these networks.
fn can_live_on_any(port: &PortRow, networks: &HashSet<Id>) -> bool
    ensures { result ≡ can_live_on (contains ident_eq networks.now) port.now }
{
    port.up && port.vif == Vif::Ovs && networks.contains(&port.network)
}

// Adds the numbers of the ports on these networks that can be live.
fn add_ports_on(
    numbers: &mut Vec<usize>,
    ports: &[Shared<PortRow>],
    networks: &HashSet<Id>,
) -> Result<(), OutOfMemory>
    ensures { OnOk result
        (numbers.new.items
        ≡ numbers.old.items ++ numbers_from (can_live_on (contains ident_eq networks.now)) 0 ports.now) }
{
    if networks.is_empty() {
        return Ok(());
    }
    for number in 0..ports.len() {
        if can_live_on_any(ports[number].get(), networks) {
            numbers.push(number)?;
        }
    }
    Ok(())
}

/// The numbers of the ports that a change touches, from the greatest to the least: those that it
/// names, and those on the networks that it touches which are up and bound, as others aren't live
/// whatever their networks do. Its cost grows with the items, and with the ports where a network is
/// touched.
pub fn touched_ports(
    alloc: Global,
    ports: &Numbers<PortRow>,
    networks: &HashSet<Id>,
) -> Result<Vec<usize>, OutOfMemory>
    ensures down { IfOk result (λ ks. KeysDescend nat_lt ks.items) }
    ensures named { IfOk result
        (λ ks. (k : _) → among nat_lt k ks.items ≡ false
        → at_before ports.now k ≡ at_after ports.now k) }
    ensures networks { IfOk result
        (λ ks. (k : _) (p : ThePort) → among nat_lt k ks.items ≡ false
        → at_before ports.now k ≡ Some p → can_live p ≡ true
        → contains ident_eq networks.now p.network ≡ false) }
{
    let mut numbers = Vec::from_slice(alloc, ports.named())?;
    add_ports_on(&mut numbers, ports.rows(), networks)?;
    descending(alloc, numbers)
}
