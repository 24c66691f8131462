//! What a host has beside its tables to route by itself.
//!
//! `wire_copies` makes of the rows of the Networking API a copy of each router with a live
//! interface on a vxlan network, and whom each address leads to on these networks. Each list is the
//! one that `dvr_types` defines. `wire_host` makes a whole host, with the tables of its agents. It
//! stands on `plane_rows` for what frames ask of rows, and on the three agents. Running out of
//! memory is its only refusal.
#![tactic(auto)]

mod floats;
mod hosts;
mod near;
mod networks;
mod ports;
mod routers;
mod routes;
mod wiring;

pub use hosts::wire_host;
pub use wiring::wire_copies;
