//! What a host does for its ports: tags of networks, taps, filters, the bridge and the neighbours.
//!
//! `wire_ports` makes these tables of a host from the rows of the Networking API. Each is the list
//! that `plane_types` defines, for the tags that the host gives to networks; a network keeps the
//! tag that it had. It stands on `plane_rows` for what frames ask of rows, and on `api_secgroup`
//! for the members of groups. Running out of memory is its only refusal.
#![tactic(auto)]

mod bridge;
mod filters;
mod inward;
mod neighbours;
mod ruled;
mod sets;
mod tags;
mod taps;
mod wires;
mod wiring;

pub use tags::assign_tags;
pub use wiring::{L2Tables, wire_ports};
