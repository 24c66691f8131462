//! One look-up of a frame at one host, in the tables that the host holds.
//!
//! `step` tells where a frame at a place of a host goes on, or how it ends, and adds the entry
//! that this makes. It stands on the tables of `plane_types` and on its rules for single packets;
//! no row of the API is looked at. It allocates nothing and refuses nothing, whatever the tables
//! say; what comes of it borrows from them. Its contract is the definition of `plane_types`; the
//! two maps are searched by halving, since they ascend by their type.
#![tactic(auto)]

mod bridge;
mod ending;
mod filter;
mod inside;
mod map;
mod outward;
mod place;
mod port;
mod router;
mod source;
mod tap;
mod translation;
mod ways;

pub use ending::{Ending, FrameEnd, Step};
pub use map::{bridge_at, neighbour_at};
pub use place::step;
