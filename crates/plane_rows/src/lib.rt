//! What frames and the tables of hosts ask of the rows of the Networking API.
//!
//! Which ports are live and which hear each other, who has a MAC or an address, what a port is
//! leased, which router a port is of, and which routes and floating addresses a router has. It
//! stands on `api_types`, by whose definitions each call answers. Only what makes lists takes
//! memory.
#![tactic(auto)]

mod exits;
mod holders;
mod hosts;
mod leases;
mod legs;
mod live;
mod named_routers;
mod routers;
mod ways;

pub use holders::{
    dhcp_port, floating_holder, gateway_port, holder, named_router, port_at, router_of,
};
pub use hosts::{is_at, is_here};
pub use leases::lease_for;
pub use legs::Legs;
pub use live::{has_wire, is_joined, is_live, joined_with, network_on, segment_of};
pub use named_routers::NamedRouters;
pub use routers::{
    fixed_behind, floating_for, gateway_address, has_live_gateway, is_leg, is_own_address, leg,
};
pub use ways::{Way, named_subnet, ways_by, ways_of};
