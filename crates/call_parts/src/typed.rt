//! What the types of values say of all rows.
ghost use Rattle.std.specs.Prelude.{◌<◌, ◌^◌};
ghost use Rattle.net_addr.specs.Prefixes.{IsPrefix};
ghost use Rattle.api_types.specs.Lists.{Each};
ghost use Rattle.call_parts.specs.Typed.{AreTyped};

use api_types::{PortRow, Rows, Shared, SubnetRow};
use net_addr::{Mac, Prefix};

fn is_prefix(prefix: Prefix)
    ensures { IsPrefix prefix }
{
    let _len = prefix.len; // for the proof: no bits stand after the length
}

fn is_mac(mac: Mac)
    ensures { mac < 2 ^ 48 }
{
    let _number = mac.0; // for the proof: it has 48 bits
}

fn have_prefixes(subnets: &[Shared<SubnetRow>])
    ensures { Each (λ s. IsPrefix s.prefix) subnets.now }
{
    for subnet in subnets {
        is_prefix(subnet.prefix);
    }
}

fn have_macs(ports: &[Shared<PortRow>])
    ensures { Each (λ p. p.mac < 2 ^ 48) ports.now }
{
    for port in ports {
        is_mac(port.mac);
    }
}

/// Rows are as the types of their values say. It reads them once, for the proof alone.
pub fn are_typed(rows: &Rows)
    ensures { AreTyped rows.now }
{
    have_prefixes(rows.subnets().rows());
    have_macs(rows.ports().rows());
}
