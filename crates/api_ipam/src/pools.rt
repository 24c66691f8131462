//! Whether spans may be a subnet's pools.

ghost use Rattle.std.specs.Prelude.{◌≡◌, not};
ghost use Rattle.std.specs.List.{list_all};
ghost use Rattle.net_addr.specs.Spans.{are_apart, is_within};
ghost use Rattle.api_types.specs.Consistent.InForm as in_form;
ghost use Rattle.api_types.specs.Lists.{if_some};
ghost use Rattle.api_ipam.specs.Addresses as addresses;

use net_addr::{Addr, Prefix, Span};

fn is_without(pool: &Span, address: &Option<Addr>) -> bool
    ensures { result ≡ if_some (λ x. not (is_within pool.now x)) address.now }
{
    match address {
        Some(address) => !pool.contains(*address),
        None => true,
    }
}

fn is_pool(prefix: &Prefix, gateway: &Option<Addr>, pool: &Span) -> bool
    ensures { result ≡ addresses.is_pool prefix.now gateway.now pool.now }
{
    prefix.is_host(pool.first) && prefix.is_host(pool.last) && is_without(pool, gateway)
}

fn is_apart_from(pool: &Span, pools: &[Span]) -> bool
    ensures { result ≡ list_all (are_apart pool.now) pools.now }
{
    pools.iter().all(|other| pool.is_apart(*other))
}

fn all_apart(pools: &[Span]) -> bool
    ensures { result ≡ in_form.all_apart pools.now }
{
    for place in 0..pools.len() {
        if !is_apart_from(&pools[place], &pools[place + 1..]) {
            return false;
        }
    }
    true
}

fn all_pools(prefix: &Prefix, gateway: &Option<Addr>, pools: &[Span]) -> bool
    ensures { result ≡ list_all (addresses.is_pool prefix.now gateway.now) pools.now }
{
    pools.iter().all(|pool| is_pool(prefix, gateway, pool))
}

/// Whether the spans are of the prefix's host addresses and without the gateway, and no address is
/// in two of them. Its cost grows with their number, times itself.
pub fn are_pools(prefix: &Prefix, gateway: &Option<Addr>, pools: &[Span]) -> bool
    ensures { result ≡ addresses.are_pools prefix.now gateway.now pools.now }
{
    all_pools(prefix, gateway, pools) && all_apart(pools)
}
