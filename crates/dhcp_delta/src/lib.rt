//! Edits of the leases of a host.
//!
//! `leases_delta` finds the edits by which a change of the rows of the Networking API leads from
//! the leases of a host to those after it. It looks at the ports that the change touches, and at
//! all ports of a network only if its DHCP port or a subnet of it is touched. Running out of memory
//! is its only refusal.
#![tactic(auto)]

mod delta;
mod leased;
mod rows;
mod servers;

pub use delta::leases_delta;
