//! The items of lists.
ghost use Rattle.std.specs.Prelude.{◌≡◌};
ghost use Rattle.serde_json.specs.View.{view};
ghost use Rattle.json_values.specs.Items.{is_span, span, span_of, hop_of, fixed_of, pair_of, gateway_of, id_of, address_of};

use crate::object::is_object_of;
use crate::value::{address_of, card_of, exact_of, id_of, prefix_of};
use api_types::{FixedAsked, GatewayAsked, Hop, Id, PairAsked};
use net_addr::{Addr, Mac, Span};
use serde_json::Value;

/// An item of a list.
pub(crate) trait Item: Drop {
    ghost use Rattle.std.specs.Prelude.{Option};
    ghost use Rattle.serde_json.specs.Data.{Data};

    ghost says: { Data → Option Self };

    /// What the value says, or None where it isn't allowed. Its cost grows with the value.
    fn read(value: &Value) -> Option<Self>
        ensures { result ≡ says (view value.now) };
}

impl Item for Id {
    ghost says = { id_of };

    fn read(value: &Value) -> Option<Id> {
        id_of(value)
    }
}

impl Item for Addr {
    ghost says = { address_of };

    fn read(value: &Value) -> Option<Addr> {
        address_of(value)
    }
}

// Whether both are of one version and the first isn't above the last.
fn is_in_order(first: &Addr, last: &Addr) -> bool
    ensures { result ≡ is_span (span first.now last.now) }
{
    match (first, last) {
        (Addr::V4(a), Addr::V4(b)) => a.0 <= b.0,
        (Addr::V6(a), Addr::V6(b)) => a.0 <= b.0,
        _ => false,
    }
}

// A pool: from `start` to `end`, which is of its version and isn't below it.
impl Item for Span {
    ghost says = { span_of };

    fn read(value: &Value) -> Option<Span> {
        if !is_object_of(value, &["end", "start"]) {
            return None;
        }
        let first = address_of(value.get("start")?)?;
        let last = address_of(value.get("end")?)?;
        if is_in_order(&first, &last) {
            Some(Span { first, last })
        } else {
            None
        }
    }
}

// A route: a destination, and a next hop of its version.
impl Item for Hop {
    ghost says = { hop_of };

    fn read(value: &Value) -> Option<Hop> {
        if !is_object_of(value, &["destination", "nexthop"]) {
            return None;
        }
        let destination = exact_of(value.get("destination")?)?;
        let next = address_of(value.get("nexthop")?)?;
        if destination.base.is_same_version(&next) {
            Some(Hop { destination, next })
        } else {
            None
        }
    }
}

impl Item for FixedAsked {
    ghost says = { fixed_of };

    fn read(value: &Value) -> Option<FixedAsked> {
        if !is_object_of(value, &["ip_address", "subnet_id"]) {
            return None;
        }
        let address = match value.get("ip_address") {
            None => None,
            Some(value) => Some(address_of(value)?),
        };
        let subnet = match value.get("subnet_id") {
            None => None,
            Some(value) => Some(id_of(value)?),
        };
        if address.is_none() && subnet.is_none() {
            return None;
        }
        Some(FixedAsked { address, subnet })
    }
}

impl Item for PairAsked {
    ghost says = { pair_of };

    fn read(value: &Value) -> Option<PairAsked> {
        if !is_object_of(value, &["ip_address", "mac_address"]) {
            return None;
        }
        let mac = match value.get("mac_address") {
            None => None,
            Some(value) => Some(card_of(value)?),
        };
        let prefix = prefix_of(value.get("ip_address")?)?;
        Some(PairAsked { mac, prefix })
    }
}

/// The gateway of a router.
pub(crate) fn gateway_of(value: &Value) -> Option<GatewayAsked>
    ensures { result ≡ gateway_of (view value.now) }
{
    if !is_object_of(value, &["enable_snat", "network_id"]) {
        return None;
    }
    let network = id_of(value.get("network_id")?)?;
    let snat = match value.get("enable_snat") {
        None => None,
        Some(value) => Some(value.as_bool()?),
    };
    Some(GatewayAsked { network, snat })
}
