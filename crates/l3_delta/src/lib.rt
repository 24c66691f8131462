//! Edits of the tables that routers and floating addresses give to a host.
//!
//! `routers_delta` finds the edits by which a change of the rows of the Networking API leads from
//! the routers, routes and floating addresses of a host to those after it. It looks at what the
//! change touches, and at the ports twice if a touched router stands on the host. Running out of
//! memory is its only refusal.
#![tactic(auto)]

mod delta;
mod floats;
mod hosted;
mod ports;
mod routers;
mod routes;
mod touched;
mod way_keys;
mod when;

pub use delta::routers_delta;
