//! The bodies of replies, as JSON (RFC 8259).
//!
//! `write_reply` makes the body of every answer, refusal and answer of the lab: its bytes are those
//! of the reply's definition, members in byte order of their names. It stands on `api_types`,
//! `plane_types`, `neutron_http`, `uuid` and `serde_json`, whose own words its definitions cite.
#![tactic(auto)]

mod ascending;
mod frame;
mod printed;
mod reply;
mod sending;
mod table;
mod verdict;
mod word;

pub use reply::{write_handled, write_reply};
