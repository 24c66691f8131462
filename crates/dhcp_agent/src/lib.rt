//! What a host leases to ports: the leases of DHCP by the rows of the Networking API.
//!
//! `wire_leases` makes the table from which a host answers DHCP: a row for each live port on a
//! network whose live DHCP port is bound to that host. The table is the list that `plane_types`
//! defines, for the tags that the host gives to networks. It stands on `plane_rows` for what frames
//! ask of rows. Running out of memory is its only refusal.
#![tactic(auto)]

mod leases;
mod served;

pub use leases::wire_leases;
