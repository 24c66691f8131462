//! Queries of lists and of single rows.
ghost use Rattle.std.specs.Prelude.{◌≡◌, [], IfOk, None, map, option_map, codes};
ghost use Rattle.neutron_http.specs.Filters.{is_filter, is_among as is_one_of, own_filters as the_own_filters};
ghost use Rattle.neutron_http.specs.Queries.{text_of, held, pairs_of, limit_in, limit_of as the_limit_of, has_name, is_bad, first_bad, with_name, filters_in, first_of, query_read, list_read, IsReadQuery, IsIdOf, IsMarkerOf, IsQueryOf, list_asked, fields_asked, nothing_asked, Asks};

use crate::route::{Method, Route, RoutePath};
use api_types::{Filter, Id, IdText, Kind, Query};
use http_heads::read_number;
use net_addr::{Copies, Names, OutOfMemory, Seq, Text};
use std::alloc::Global;

/// Why a query or a body is refused.
#[derive(Drop)]
pub enum BodyRefusal {
    /// The body is no object with this one member, or no object at all.
    BadBody { member: Option<Text> },
    /// The named attribute of the body, or the named query, breaks its rule.
    BadAttribute { name: Text },
    /// Memory could not be had.
    OutOfMemory,
}

impl From<OutOfMemory> for BodyRefusal {
    ghost use Rattle.neutron_http.specs.declared.query.BodyRefusal.TheVariants.{OutOfMemory as MemoryRefusal};

    ghost from_gives = { λ _ e. e ≡ MemoryRefusal };

    fn from(_e: OutOfMemory) -> BodyRefusal {
        BodyRefusal::OutOfMemory
    }
}

// A name or a value as text.
fn text(alloc: Global, bytes: &[u8]) -> Result<Text, OutOfMemory>
    ensures { IfOk result (λ t. t ≡ text_of bytes.now) }
{
    let decoded = form_urlencoded::decode(alloc, bytes)?;
    Ok(Text::from_string(decoded.into_owned(alloc)?))
}

// The names and values of a query.
fn pairs(alloc: Global, query: &[u8]) -> Result<Vec<Filter>, OutOfMemory>
    ensures { IfOk result (λ v. map held v.items ≡ pairs_of query.now) }
{
    let mut pairs = Vec::new(alloc);
    for (name, value) in form_urlencoded::raw_pairs(query) {
        pairs.push(Filter {
            name: text(alloc, name)?,
            value: text(alloc, value)?,
        })?;
    }
    Ok(pairs)
}

const COMMON_FILTERS: [&str; 3] = ["id", "project_id", "tenant_id"];

// The names by which rows of a kind are filtered, beside those for every kind.
fn own_filters(kind: Kind) -> &'static [&'static str]
    ensures { map (λ s. s.now) result.now ≡ the_own_filters kind }
{
    match kind {
        Kind::Project => &[],
        Kind::Network => &[
            "name",
            "admin_state_up",
            "shared",
            "router:external",
            "provider:network_type",
            "provider:physical_network",
            "provider:segmentation_id",
        ],
        Kind::Subnet => &[
            "name",
            "network_id",
            "ip_version",
            "cidr",
            "gateway_ip",
            "enable_dhcp",
            "ipv6_address_mode",
            "ipv6_ra_mode",
        ],
        Kind::Port => &[
            "name",
            "admin_state_up",
            "network_id",
            "mac_address",
            "device_id",
            "device_owner",
            "binding:host_id",
        ],
        Kind::Group => &["name"],
        Kind::Rule => &[
            "security_group_id",
            "direction",
            "ethertype",
            "protocol",
            "remote_ip_prefix",
            "remote_group_id",
        ],
        Kind::Router => &["name", "admin_state_up"],
        Kind::Floating => &["floating_network_id", "floating_ip_address", "port_id"],
        Kind::Policy => &["object_type", "object_id", "action", "target_tenant"],
    }
}

// Whether a name is one of some.
fn is_among(names: &[&str], name: &str) -> bool
    ensures { result ≡ is_one_of (map (λ s. s.now) names.now) name.now }
{
    for known in names {
        if *known == name {
            return true;
        }
    }
    false
}

// Whether rows of the kind are filtered by the name.
fn filters_rows(kind: Kind, name: &str) -> bool
    ensures { result ≡ is_filter kind name.now }
{
    is_among(&COMMON_FILTERS, name) || is_among(own_filters(kind), name)
}

// The limit that a text gives.
fn read_limit(text: &str) -> Option<u32>
    ensures { result ≡ limit_in text.now }
{
    match read_number(text.as_bytes(), 5) {
        Some(n) if 1 <= n && n <= 10000 => Some(n as u32),
        _ => None,
    }
}

// Whether a name is there.
fn is_there(pairs: &[Filter], name: &str) -> bool
    ensures { result ≡ has_name name.now (map held pairs.now) }
{
    for pair in pairs {
        if pair.name.as_str() == name {
            return true;
        }
    }
    false
}

// Whether a pair of a list's query is bad after others.
fn is_bad_pair(kind: Kind, before: &[Filter], pair: &Filter) -> bool
    ensures { result ≡ is_bad kind (map held before.now) (held pair.now) }
{
    let name = pair.name.as_str();
    if name == "limit" {
        return is_there(before, "limit") || read_limit(pair.value.as_str()).is_none();
    }
    if name == "marker" {
        return is_there(before, "marker");
    }
    if name == "fields" {
        return false;
    }
    !filters_rows(kind, name)
}

// The name of the first bad pair.
fn find_bad<'p>(kind: Kind, pairs: &'p [Filter]) -> Option<&'p Text>
    ensures { option_map (λ t. t.now) result ≡ first_bad kind [] (map held pairs.now) }
{
    for at in 0..pairs.len() {
        if is_bad_pair(kind, &pairs[..at], &pairs[at]) {
            return Some(&pairs[at].name);
        }
    }
    None
}

// The values under a name.
fn values_named(alloc: Global, pairs: &[Filter], name: &str) -> Result<Names, OutOfMemory>
    ensures { IfOk result (λ v. v ≡ with_name name.now (map held pairs.now)) }
{
    let mut values = Seq::new(alloc);
    for pair in pairs {
        if pair.name.as_str() == name {
            values.push(pair.value.copy(alloc)?)?;
        }
    }
    Ok(values)
}

// The first value under a name.
fn first_named<'p>(pairs: &'p [Filter], name: &str) -> Option<&'p Text>
    ensures { option_map (λ t. t.now) result ≡ first_of (with_name name.now (map held pairs.now)) }
{
    for pair in pairs {
        if pair.name.as_str() == name {
            return Some(&pair.value);
        }
    }
    None
}

// The pairs that filter rows of a kind.
fn filters(alloc: Global, kind: Kind, pairs: &[Filter]) -> Result<Seq<Filter>, OutOfMemory>
    ensures { IfOk result (λ v. map held v ≡ filters_in kind (map held pairs.now)) }
{
    let mut filters = Seq::new(alloc);
    for pair in pairs {
        if filters_rows(kind, pair.name.as_str()) {
            filters.push(Filter {
                name: pair.name.copy(alloc)?,
                value: pair.value.copy(alloc)?,
            })?;
        }
    }
    Ok(filters)
}

// A text with the id that it spells, if any.
fn marker(alloc: Global, text: &Text) -> Result<IdText, OutOfMemory>
    ensures text { IfOk result (λ m. m.text ≡ text.now) }
    ensures id { IfOk result (λ m. IsIdOf text.now m.id) }
{
    Ok(IdText {
        text: text.copy(alloc)?,
        id: Id::read(text.as_str().as_bytes()),
    })
}

// The marker of a list.
fn marker_of(alloc: Global, pairs: &[Filter]) -> Result<Option<IdText>, OutOfMemory>
    ensures { IfOk result
        (λ m. IsMarkerOf (first_of (with_name (codes "marker") (map held pairs.now))) m) }
{
    match first_named(pairs, "marker") {
        Some(text) => Ok(Some(marker(alloc, text)?)),
        None => Ok(None),
    }
}

// The most rows of a list.
fn limit_of(pairs: &[Filter]) -> Option<u32>
    ensures { result ≡ the_limit_of (first_of (with_name (codes "limit") (map held pairs.now))) }
{
    match first_named(pairs, "limit") {
        Some(text) => read_limit(text.as_str()),
        None => None,
    }
}

// What a query asks of a list.
fn list_query(alloc: Global, kind: Kind, pairs: &[Filter]) -> Result<Query, OutOfMemory>
    ensures { IfOk result (λ q. IsQueryOf (list_asked kind (map held pairs.now)) q) }
{
    let filters = filters(alloc, kind, pairs)?;
    let marker = marker_of(alloc, pairs)?;
    let fields = values_named(alloc, pairs, "fields")?;
    Ok(Query {
        filters,
        limit: limit_of(pairs),
        marker,
        fields,
    })
}

// The query of a list.
fn read_list(alloc: Global, kind: Kind, text: &[u8]) -> Result<Query, BodyRefusal>
    ensures { IsReadQuery
        (list_read kind (pairs_of text.now) (first_bad kind [] (pairs_of text.now))) result }
{
    let pairs = pairs(alloc, text)?;
    if let Some(name) = find_bad(kind, pairs.as_slice()) {
        let name = name.copy(alloc)?;
        return Err(BodyRefusal::BadAttribute { name });
    }
    Ok(list_query(alloc, kind, pairs.as_slice())?)
}

// A query that keeps these members alone.
fn with_fields(alloc: Global, fields: Names) -> Query
    ensures { IsQueryOf (record { filters = []; limit = None; marker = None; fields = fields })
        result }
{
    Query {
        filters: Seq::new(alloc),
        limit: None,
        marker: None,
        fields,
    }
}

// The query of one row.
fn read_fields(alloc: Global, text: &[u8]) -> Result<Query, BodyRefusal>
    ensures { IsReadQuery (Asks (fields_asked (pairs_of text.now))) result }
{
    let pairs = pairs(alloc, text)?;
    let fields = values_named(alloc, pairs.as_slice(), "fields")?;
    Ok(with_fields(alloc, fields))
}

// The query that isn't looked at.
fn no_query(alloc: Global) -> Query
    ensures { IsQueryOf nothing_asked result }
{
    with_fields(alloc, Seq::new(alloc))
}

/// What the text of a query asks of a route: of a list filters, `limit`, `marker` and `fields`, of
/// one row `fields`, of other routes nothing.
///
/// In a list's query the first bad name is refused, in the text's order: a name that is none of
/// these and filters no rows of the kind, a `limit` that is no number of 1 to 5 digits from 1 to
/// 10,000, and a second `limit` or `marker`. The cost grows with the text.
pub fn read_query(alloc: Global, route: &Route, text: &[u8]) -> Result<Query, BodyRefusal>
    ensures { IsReadQuery (query_read route.now.path route.now.method text.now) result }
{
    if route.method != Method::Get {
        return Ok(no_query(alloc));
    }
    match route.path {
        RoutePath::Rows(kind) => read_list(alloc, kind, text),
        RoutePath::Row(_) => read_fields(alloc, text),
        _ => Ok(no_query(alloc)),
    }
}
