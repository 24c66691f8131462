//! Requests and replies of the Networking API as bytes of HTTP/1.1 (RFC 9112).
//!
//! `read_head` finds the head of a request, `find_route` its route, `read_query` what its query
//! asks, `written` makes a reply's bytes and `fault_of` says what the reply of a refusal says. It
//! stands on `http_heads`, `api_types` and the crates `httparse`, `http`, `matchit` and
//! `form_urlencoded`, whose own words its definitions cite. It promises that each call's result is
//! its definition's value.
#![tactic(auto)]

mod fault;
mod query;
mod reply;
mod route;

pub use fault::{Fault, fault_of};
pub use http_heads::{HEAD_LIMIT, HeadParts, HeadRead, Part, head_laws, read_head, read_number};
pub use query::{BodyRefusal, read_query};
pub use reply::{Extra, no_memory_reply, written};
pub use route::{Method, Route, RoutePath, RouteRefusal, Routes, find_route};
