//! What is asked.
ghost use Rattle.std.specs.Prelude.{◌≡◌, ℕ, List, Ok, IfOk, IfErr};
ghost use Rattle.neutron_http.specs.Queries.{query_read};
ghost use Rattle.neutron_http.specs.Routes.{To, route_of};
ghost use Rattle.neutron_json.specs.Asks.{ask_of};
ghost use Rattle.neutron_serve.specs.Reading.{refusal_by, IsUnread};
ghost use Rattle.neutron_serve.specs.Requests.{asked_by, by_body, by_query, by_route};

use api_types::{Query, Refusal};
use neutron_http::{BodyRefusal, Route, RouteRefusal, Routes, read_query};
use neutron_json::read_ask;
use plane_types::Ask;
use std::alloc::Global;

// The route of a method and a path.
fn routed(alloc: Global, routes: &Routes, method: &[u8], path: &[u8]) -> Result<Route, Refusal>
    ensures ok { IfOk result
        (λ route. route_of method.now path.now ≡ To route.path route.method route.parameters) }
    ensures err { (query body : List ℕ)
        → IfErr result (IsUnread (by_route query body (route_of method.now path.now))) }
{
    match routes.find(alloc, method, path) {
        Ok(route) => Ok(route),
        Err(RouteRefusal::NoRoute) => Err(Refusal::NoRoute),
        Err(RouteRefusal::NoMethod { allowed }) => Err(Refusal::NoMethod { allowed }),
        Err(RouteRefusal::OutOfMemory) => Err(Refusal::OutOfMemory),
    }
}

// A refusal of a query or a body as one of the API.
fn refused(refusal: BodyRefusal) -> Refusal
    ensures { result ≡ refusal_by refusal }
{
    match refusal {
        BodyRefusal::BadBody { member } => Refusal::BadBody { member },
        BodyRefusal::BadAttribute { name } => Refusal::Invalid { name },
        BodyRefusal::OutOfMemory => Refusal::OutOfMemory,
    }
}

// What the query of a route asks.
fn queried(alloc: Global, route: &Route, query: &[u8]) -> Result<Query, Refusal>
    ensures ok { (body : List ℕ)
        → IfOk result
        (λ asked.
        by_query route.now body (query_read route.now.path route.now.method query.now)
        ≡ by_body (ask_of route.now asked body)) }
    ensures err { (body : List ℕ)
        → IfErr result
        (IsUnread
        (by_query route.now body (query_read route.now.path route.now.method query.now))) }
{
    match read_query(alloc, route, query) {
        Ok(asked) => Ok(asked),
        Err(refusal) => Err(refused(refusal)),
    }
}

// What a body asks, with a route and a query.
fn bodied(alloc: Global, route: &Route, query: &Query, body: &[u8]) -> Result<Ask, Refusal>
    ensures ok { IfOk result (λ ask. by_body (ask_of route.now query.now body.now) ≡ Ok ask) }
    ensures err { IfErr result (IsUnread (by_body (ask_of route.now query.now body.now))) }
{
    match read_ask(alloc, route, query, body) {
        Ok(ask) => Ok(ask),
        Err(refusal) => Err(refused(refusal)),
    }
}

/// What a request asks by its method, its path, its query and its body: the first thing that is
/// wrong with it, in this order, refuses it.
pub(crate) fn read_asked(
    alloc: Global,
    routes: &Routes,
    method: &[u8],
    path: &[u8],
    query: &[u8],
    body: &[u8],
) -> Result<Ask, Refusal>
    ensures ok { IfOk result (λ ask. asked_by method.now path.now query.now body.now ≡ Ok ask) }
    ensures err { IfErr result (IsUnread (asked_by method.now path.now query.now body.now)) }
{
    let route = routed(alloc, routes, method, path)?;
    let query = queried(alloc, &route, query)?;
    bodied(alloc, &route, &query, body)
}
