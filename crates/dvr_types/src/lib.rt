//! What a host has beside its tables to route by itself, and in specs/ what a frame comes to at
//! such hosts.
//!
//! A host that routes for others has a copy of each router with a live interface on a vxlan
//! network, with the routes and floating addresses of these, and knows whom each address of such a
//! network leads to. The definitions are over the types declared here and those of `plane_types`:
//! which packets a copy handles, what comes of an event at hosts with copies, and which hosts have
//! to handle it by the rows.
#![tactic(auto)]

mod copies;
mod tables;
mod verdict;

pub use copies::{Copies, CopyPort, NearRow, NearTo, RouterCopy};
pub use tables::DvrTables;
pub use verdict::DvrVerdict;
