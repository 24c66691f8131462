//! The routes of the API.
ghost use Rattle.std.specs.Prelude.{◌≡◌, ◌==◌, IfOk, OnOk, map};
ghost use Rattle.std.specs.List.{slice_split};
ghost use Rattle.neutron_http.specs.Paths.{template_of, with_routes, routes, path_at, all_paths};
ghost use Rattle.neutron_http.specs.Routes.{methods_of, method_name, method_in, allowed_text, is_parameter, parameters_in, parameters_of, route_of, Answers, AllowsValue};

use api_types::Kind;
use matchit::Router;
use net_addr::{Names, OutOfMemory, Seq, Text};
use std::alloc::Global;
use std::marker::Model;
use std::str;

/// The methods of requests that routes have.
#[derive(Clone, Copy, Debug, PartialEq, Eq)]
pub enum Method {
    Delete,
    Get,
    Post,
    Put,
}

/// A path of the API.
#[derive(Clone, Copy, Debug, PartialEq, Eq)]
pub enum RoutePath {
    /// All rows of a kind, as `/v2.0/networks`.
    Rows(Kind),
    /// One row of a kind, as `/v2.0/networks/{id}`.
    Row(Kind),
    AddInterface,
    RemoveInterface,
    Frames,
    Explain,
    Deliver,
    Resync,
    Restart,
    Forget,
    Settle,
    Hosts,
    Tables,
    Version,
    Change,
    Page,
}

/// Where a request leads: its path, its method, and the texts that stand in the path where the
/// route's text has a name in braces, in order.
#[derive(Drop)]
pub struct Route {
    pub path: RoutePath,
    pub method: Method,
    pub parameters: Names,
}

/// Why a request leads nowhere.
#[derive(Drop)]
pub enum RouteRefusal {
    /// No route has the path.
    NoRoute,
    /// The path's route hasn't the method, but these: the value of the field `Allow`.
    NoMethod { allowed: Text },
    /// Memory could not be had.
    OutOfMemory,
}

impl From<OutOfMemory> for RouteRefusal {
    ghost use Rattle.neutron_http.specs.declared.route.RouteRefusal.TheVariants.{OutOfMemory as MemoryRefusal};

    ghost from_gives = { λ _ e. e ≡ MemoryRefusal };

    fn from(_e: OutOfMemory) -> RouteRefusal {
        RouteRefusal::OutOfMemory
    }
}

const PATHS: [RoutePath; 30] = [
    RoutePath::Rows(Kind::Network),
    RoutePath::Row(Kind::Network),
    RoutePath::Rows(Kind::Subnet),
    RoutePath::Row(Kind::Subnet),
    RoutePath::Rows(Kind::Port),
    RoutePath::Row(Kind::Port),
    RoutePath::Rows(Kind::Group),
    RoutePath::Row(Kind::Group),
    RoutePath::Rows(Kind::Rule),
    RoutePath::Row(Kind::Rule),
    RoutePath::Rows(Kind::Router),
    RoutePath::Row(Kind::Router),
    RoutePath::Rows(Kind::Floating),
    RoutePath::Row(Kind::Floating),
    RoutePath::Rows(Kind::Policy),
    RoutePath::Row(Kind::Policy),
    RoutePath::AddInterface,
    RoutePath::RemoveInterface,
    RoutePath::Frames,
    RoutePath::Explain,
    RoutePath::Deliver,
    RoutePath::Resync,
    RoutePath::Restart,
    RoutePath::Forget,
    RoutePath::Settle,
    RoutePath::Hosts,
    RoutePath::Tables,
    RoutePath::Version,
    RoutePath::Change,
    RoutePath::Page,
];

// The text of the path of all rows of a kind. Projects have none.
fn rows_template(kind: Kind) -> &'static str
    ensures { result.now ≡ template_of (RoutePath.Rows kind) }
{
    match kind {
        Kind::Project => "",
        Kind::Network => "/v2.0/networks",
        Kind::Subnet => "/v2.0/subnets",
        Kind::Port => "/v2.0/ports",
        Kind::Group => "/v2.0/security-groups",
        Kind::Rule => "/v2.0/security-group-rules",
        Kind::Router => "/v2.0/routers",
        Kind::Floating => "/v2.0/floatingips",
        Kind::Policy => "/v2.0/rbac-policies",
    }
}

// The text of the path of one row of a kind.
fn row_template(kind: Kind) -> &'static str
    ensures { result.now ≡ template_of (RoutePath.Row kind) }
{
    match kind {
        Kind::Project => "",
        Kind::Network => "/v2.0/networks/{id}",
        Kind::Subnet => "/v2.0/subnets/{id}",
        Kind::Port => "/v2.0/ports/{id}",
        Kind::Group => "/v2.0/security-groups/{id}",
        Kind::Rule => "/v2.0/security-group-rules/{id}",
        Kind::Router => "/v2.0/routers/{id}",
        Kind::Floating => "/v2.0/floatingips/{id}",
        Kind::Policy => "/v2.0/rbac-policies/{id}",
    }
}

// The text of a path, with a name in braces for each parameter.
fn template(path: RoutePath) -> &'static str
    ensures { result.now ≡ template_of path }
{
    match path {
        RoutePath::Rows(kind) => rows_template(kind),
        RoutePath::Row(kind) => row_template(kind),
        RoutePath::AddInterface => "/v2.0/routers/{id}/add_router_interface",
        RoutePath::RemoveInterface => "/v2.0/routers/{id}/remove_router_interface",
        RoutePath::Frames => "/lab/v1/frames",
        RoutePath::Explain => "/lab/v1/explain",
        RoutePath::Deliver => "/lab/v1/deliver",
        RoutePath::Resync => "/lab/v1/resync",
        RoutePath::Restart => "/lab/v1/restart",
        RoutePath::Forget => "/lab/v1/forget",
        RoutePath::Settle => "/lab/v1/settle",
        RoutePath::Hosts => "/lab/v1/hosts",
        RoutePath::Tables => "/lab/v1/hosts/{name}/tables",
        RoutePath::Version => "/lab/v1/version",
        RoutePath::Change => "/lab/v1/changes/{number}",
        RoutePath::Page => "/lab/v1/snapshot/{version}/{page}",
    }
}

// Adds the routes of these paths. A route that conflicts with another can't be among them.
fn add_all(router: &mut Router<RoutePath>, paths: &[RoutePath]) -> Result<(), OutOfMemory>
    ensures { OnOk result (router.new ≡ with_routes paths.now router.old) }
{
    for path in paths {
        if router.insert(template(*path), *path).is_err() {
            return Err(OutOfMemory);
        }
    }
    Ok(())
}

// The methods of a path, in the order of their names.
fn methods(path: RoutePath) -> &'static [Method]
    ensures { result.now ≡ methods_of path }
{
    match path {
        RoutePath::Rows(_) => &[Method::Get, Method::Post],
        RoutePath::Row(Kind::Rule) => &[Method::Delete, Method::Get],
        RoutePath::Row(_) => &[Method::Delete, Method::Get, Method::Put],
        RoutePath::AddInterface | RoutePath::RemoveInterface => &[Method::Put],
        RoutePath::Hosts
        | RoutePath::Tables
        | RoutePath::Version
        | RoutePath::Change
        | RoutePath::Page => &[Method::Get],
        _ => &[Method::Post],
    }
}

// The name of a method.
fn name_of(method: Method) -> &'static str
    ensures { result.now ≡ method_name method }
{
    match method {
        Method::Delete => "DELETE",
        Method::Get => "GET",
        Method::Post => "POST",
        Method::Put => "PUT",
    }
}

// The method of that name among some.
fn find_method(methods: &[Method], name: &[u8]) -> Option<Method>
    ensures { result ≡ method_in methods.now name.now }
{
    for method in methods {
        if name_of(*method).as_bytes() == name {
            return Some(*method);
        }
    }
    None
}

// The methods of a path as one text.
fn allowed(path: RoutePath) -> &'static str
    ensures { result.now ≡ allowed_text path }
{
    match path {
        RoutePath::Rows(_) => "GET, POST",
        RoutePath::Row(Kind::Rule) => "DELETE, GET",
        RoutePath::Row(_) => "DELETE, GET, PUT",
        RoutePath::AddInterface | RoutePath::RemoveInterface => "PUT",
        RoutePath::Hosts
        | RoutePath::Tables
        | RoutePath::Version
        | RoutePath::Change
        | RoutePath::Page => "GET",
        _ => "POST",
    }
}

// The parts of a text between slashes.
fn segments<'t>(alloc: Global, text: &'t str) -> Result<Vec<&'t str>, OutOfMemory>
    ensures { IfOk result (λ v. map (λ s. s.now) v.items ≡ slice_split (λ b. b == 47) text.now) }
{
    Ok(text.split('/').collect(alloc)?)
}

// Whether a part of a route's text is a name in braces.
fn is_name(part: &str) -> bool
    ensures { result ≡ is_parameter part.now }
{
    part.starts_with('{')
}

// The parts that stand where the names in braces stand.
fn named_parts(alloc: Global, names: &[&str], parts: &[&str]) -> Result<Names, OutOfMemory>
    ensures { IfOk result
        (λ v. v ≡ parameters_in (map (λ s. s.now) names.now) (map (λ s. s.now) parts.now)) }
{
    let mut found = Seq::new(alloc);
    for at in 0..names.len().min(parts.len()) {
        if is_name(names[at]) {
            found.push(Text::of(alloc, parts[at])?)?;
        }
    }
    Ok(found)
}

// The parameters of a path, by the text of its route.
fn parameters(alloc: Global, template: &str, path: &str) -> Result<Names, OutOfMemory>
    ensures { IfOk result (λ v. v ≡ parameters_of template.now path.now) }
{
    let names = segments(alloc, template)?;
    let parts = segments(alloc, path)?;
    named_parts(alloc, names.as_slice(), parts.as_slice())
}

/// The routes of the API, ready to be searched.
#[derive(Drop)]
pub struct Routes {
    router: Router<RoutePath>,
}

impl Model for Routes {
    ghost use Rattle.std.specs.Prelude.{◌≡◌};
    ghost use Rattle.matchit.specs.Router.{RouteOf};
    ghost use Rattle.matchit.specs.Rows.{RowsOf};
    ghost use Rattle.neutron_http.specs.Paths.{routes};
    ghost use Rattle.neutron_http.specs.declared.route.RoutePath.{RoutePath as ThePath};

    ghost Value = { RowsOf (RouteOf ThePath) };

    ghost view = { λ r. r.router };

    ghost invariant = { λ r. r.router ≡ routes };
}

impl Routes {
    /// All routes. It takes memory for 27 of them.
    pub fn make(alloc: Global) -> Result<Routes, OutOfMemory> {
        let mut router = Router::new(alloc);
        add_all(&mut router, &PATHS)?;
        Ok(Routes { router })
    }

    // The path of the API that a text is.
    fn find_path(&self, path: &str) -> Option<RoutePath>
        ensures { result ≡ path_at path.now }
    {
        match self.router.at(path) {
            Ok(found) => Some(*found.value),
            Err(_) => None,
        }
    }

    /// The route of a path with a method, both compared byte for byte. A path that isn't UTF-8 has
    /// none. The cost grows with the path.
    pub fn find(&self, alloc: Global, method: &[u8], path: &[u8]) -> Result<Route, RouteRefusal>
        ensures route { Answers result (route_of method.now path.now) }
        ensures allowed { AllowsValue result }
    {
        let Ok(text) = str::from_utf8(path) else {
            return Err(RouteRefusal::NoRoute);
        };
        let Some(place) = self.find_path(text) else {
            return Err(RouteRefusal::NoRoute);
        };
        let Some(method) = find_method(methods(place), method) else {
            let allowed = Text::of(alloc, allowed(place))?;
            return Err(RouteRefusal::NoMethod { allowed });
        };
        let parameters = parameters(alloc, template(place), text)?;
        Ok(Route {
            path: place,
            method,
            parameters,
        })
    }
}

/// The route of a path with a method, among `Routes` that are made for this one search: the cost is
/// that of adding 27 routes too.
pub fn find_route(alloc: Global, method: &[u8], path: &[u8]) -> Result<Route, RouteRefusal>
    ensures route { Answers result (route_of method.now path.now) }
    ensures allowed { AllowsValue result }
{
    Routes::make(alloc)?.find(alloc, method, path)
}
