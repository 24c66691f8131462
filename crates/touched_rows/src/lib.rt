//! What a change of the rows touches: networks, subnets, ports, routers and floating addresses.
#![tactic(auto)]

mod alike;
mod devices;
mod floatings;
mod networks;
mod ports;
mod rewiring;
mod routers;
mod subnets;

pub use devices::device_router;
pub use floatings::touched_floatings;
pub use networks::touched_networks;
pub use ports::touched_ports;
pub use rewiring::Rewiring;
pub use routers::touched_routers;
pub use subnets::touched_subnets;
