//! The routers that a change touches.

ghost use Rattle.std.specs.Prelude.{◌≡◌, IfOk, false, nat_lt};
ghost use Rattle.std.specs.List.{list_any};
ghost use Rattle.api_types.specs.Parts.{router_of};
ghost use Rattle.api_types.specs.declared.kind.Kind.TheVariants.{Router as RouterKind};
ghost use Rattle.plane_types.specs.NumberedRows.{row_items};
ghost use Rattle.table_edits.specs.EditsAt.{KeysDescend, among};
ghost use Rattle.table_edits.specs.NumbersSeen.{at_after, at_before};
ghost use Rattle.l3_delta.specs.RouterStays.{RoutersStay, is_hosted_at};

use crate::hosted::is_any_hosted;
use api_types::RouterRow;
use net_addr::{OutOfMemory, Text};
use plane_types::Tags;
use std::alloc::Global;
use table_edits::Numbers;
use touched_rows::{Rewiring, touched_networks, touched_ports, touched_routers};

/// The numbers of the routers that a change touches at a host, from the greatest to the least. Its
/// cost is that of `touched_rows`.
pub(crate) fn routers_touched(
    alloc: Global,
    change: &Rewiring,
    routers: &Numbers<RouterRow>,
    tags: &Tags,
) -> Result<Vec<usize>, OutOfMemory>
    requires routers { routers.now
        ≡ record {
          rows = change.now.before.now.routers;
          items = row_items RouterKind router_of change.now.items.now;
        } }
    requires tags { change.now.new ≡ tags.now }
    ensures down { IfOk result (λ ks. KeysDescend nat_lt ks.items) }
    ensures named { IfOk result
        (λ ks. (k : _) → among nat_lt k ks.items ≡ false
        → at_before routers.now k ≡ at_after routers.now k) }
    ensures stay { IfOk result
        (λ ks. RoutersStay change.now.before.now change.now.after.now change.now.ports
        change.now.old change.now.new routers.now ks.items) }
{
    let networks = touched_networks(alloc, change, tags.as_slice())?;
    let ports = touched_ports(alloc, &change.ports, &networks)?;
    touched_routers(alloc, change, routers, ports.as_slice())
}

// Whether the router with a number stands on the host before the change or after it.
fn is_here(host: &Text, routers: &Numbers<RouterRow>, number: usize) -> bool
    ensures { result ≡ is_hosted_at host.now routers.now number }
{
    is_any_hosted(host, routers.row(number)) || is_any_hosted(host, routers.row_after(number))
}

/// Whether one of these routers stands on the host before the change or after it.
pub(crate) fn is_any_here(host: &Text, routers: &Numbers<RouterRow>, touched: &[usize]) -> bool
    ensures { result ≡ list_any (is_hosted_at host.now routers.now) touched.now }
{
    for number in touched {
        if is_here(host, routers, *number) {
            return true;
        }
    }
    false
}
