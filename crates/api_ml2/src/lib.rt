//! Segments, and the hosts that carry them.
//!
//! What Neutron's plug-in ML2 decides of networks and ports, as definitions and code. It stands on
//! the rows of `api_types` and on the settings of `net_settings`. `asked_segment` reads the
//! provider attributes of a body, `segment_in_use` and `chosen_segment` decide on a new network's
//! segment, and `pick_segment` does both. `bind` binds a port to its host, `place_router` and
//! `place_dhcp` tell where routers and DHCP ports stand. What binds and places allocates nothing.
#![tactic(auto)]

mod asked;
mod binding;
mod carrying;
mod numbers;
mod placement;
mod segments;

pub use asked::{AskedSegment, asked_segment, is_bad_number, is_bad_physical, is_wired};
pub use binding::bind;
pub use carrying::{carries, is_on};
pub use placement::{place_dhcp, place_router};
pub use segments::{SegmentRefusal, chosen_segment, pick_segment, segment_in_use};
