//! What a host does for its routers: their ports, their routes and their floating addresses.
//!
//! `wire_routers` makes these tables of a host from the rows of the Networking API. Each is the
//! list that `plane_types` defines, for the tags that the host gave to networks. It stands on
//! `plane_rows` for what frames ask of rows: which ports are live, which routes a router has, and
//! what its gateway address is. It asks nothing of the rows, and running out of memory is its only
//! refusal.
#![tactic(auto)]

mod floats;
mod ports;
mod routers;
mod routes;
mod wiring;

pub use wiring::{L3Tables, wire_routers};
