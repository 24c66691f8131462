//! The gateway and the pools of a subnet for which none are named.

ghost use Rattle.std.specs.Prelude.{◌≡◌, ◌<◌, ◌≤◌, ◌+◌, ◌-◌, ◌++◌, IfOk, OnOk, option_to_list, true};
ghost use Rattle.net_addr.specs.Addresses.{number};
ghost use Rattle.net_addr.specs.Spans.{is_within};
ghost use Rattle.api_types.specs.Consistent.InForm.{longest_of};
ghost use Rattle.api_ipam.specs.Addresses.{span_without};
ghost use Rattle.api_ipam.specs.Addresses as addresses;

use crate::least::number_of;
use net_addr::{Addr, OutOfMemory, Prefix, Seq, Span, Spans};
use std::alloc::Global;

/// The first address after the one that names the network.
pub fn default_gateway(prefix: Prefix) -> Addr
    requires { prefix.len ≤ longest_of prefix.base }
    ensures { result ≡ addresses.default_gateway prefix }
{
    match prefix.hosts() {
        Some(hosts) => hosts.first,
        None => unreachable!(),
    }
}

fn has(span: &Span, address: &Addr) -> bool
    ensures { result ≡ is_within span.now address.now }
{
    span.contains(*address)
}

// The part of a span below one of its addresses.
fn below(span: &Span, address: &Addr) -> Option<Span>
    requires inside { is_within span.now address.now ≡ true }
    requires above_none { 0 < number span.now.first }
    ensures { option_to_list result
        ≡ addresses.span span.now.first (number span.now.first) (number address.now - 1) }
{
    let last = address.previous()?;
    if !has(span, &last) {
        return None;
    }
    Some(Span {
        first: span.first,
        last,
    })
}

// The part of a span above one of its addresses.
fn above(span: &Span, address: &Addr) -> Option<Span>
    requires inside { is_within span.now address.now ≡ true }
    ensures { option_to_list result
        ≡ addresses.span span.now.first (number address.now + 1) (number span.now.last) }
{
    let _last = number_of(&span.last); // for the proof: it fits its version
    let first = address.next()?;
    if !has(span, &first) {
        return None;
    }
    Some(Span {
        first,
        last: span.last,
    })
}

fn push_some(spans: &mut Spans, span: Option<Span>) -> Result<(), OutOfMemory>
    ensures { OnOk result (spans.new ≡ spans.old ++ option_to_list span) }
{
    if let Some(span) = span {
        spans.push(span)?;
    }
    Ok(())
}

// A span without an address.
fn without(alloc: Global, span: &Span, address: &Addr) -> Result<Spans, OutOfMemory>
    requires { 0 < number span.now.first }
    ensures { IfOk result (λ spans. spans ≡ span_without address.now span.now) }
{
    let mut spans = Seq::new(alloc);
    if has(span, address) {
        push_some(&mut spans, below(span, address))?;
        push_some(&mut spans, above(span, address))?;
    } else {
        spans.push(*span)?;
    }
    Ok(spans)
}

/// The largest spans of a prefix's host addresses without the gateway.
pub fn default_pools(
    alloc: Global,
    prefix: Prefix,
    gateway: &Option<Addr>,
) -> Result<Spans, OutOfMemory>
    ensures { IfOk result (λ pools. pools ≡ addresses.default_pools prefix gateway.now) }
{
    let mut pools = Seq::new(alloc);
    let Some(hosts) = prefix.hosts() else {
        return Ok(pools);
    };
    if let Some(gateway) = gateway {
        return without(alloc, &hosts, gateway);
    }
    pools.push(hosts)?;
    Ok(pools)
}
