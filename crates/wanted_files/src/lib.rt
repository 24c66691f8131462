//! The file that says who is wanted to reach whom.
//!
//! `read_wanted` reads it from TOML: exactly what the document says, or that it isn't in its
//! grammar. The crate stands on `reach_laws` for the kinds of packets, and on `json_values` for the
//! ids and addresses that texts spell. Whether the ports are there is asked above.
#![tactic(auto)]

mod document;
mod names;
mod range;
mod table;
mod values;
mod wanted;

pub use document::read_wanted;
pub use wanted::{ReachWant, Wanted, WantedReach};
