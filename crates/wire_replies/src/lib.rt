//! A server's replies to agents in other processes, read from bytes, and their requests as bytes.
//!
//! `read_reply` tells what a reply says: the bytes are those that a server writes, or it says
//! nothing. `write_ask` makes the bytes of a request. It stands on `wire_types`, which has what is
//! asked and replied, `wire_text`, `json_trees` and `neutron_http`, whose own words its
//! definitions cite, and on `httparse` and `serde_json`.
#![tactic(auto)]

mod body;
mod document;
mod fault;
mod reply;
mod request;

pub use reply::read_reply;
pub use request::write_ask;
