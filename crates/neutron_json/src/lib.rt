//! The bodies of requests, as JSON (RFC 8259).
//!
//! `read_ask` tells what a request asks, by its route, its query and its body: the definition's
//! very value, or the first thing that is wrong with the body. It stands on `json_values` for what
//! values say, and on `api_types`, `plane_types`, `neutron_http` and `serde_json`.
#![tactic(auto)]

mod ask;
mod attribute;
mod body;
mod copy;
mod event;
mod form;
mod frame;
mod number;
mod table;

pub use ask::read_ask;
