//! The rules of routers, and what uses their ports.
//!
//! `check_interface`, `check_remove`, `check_gateway` and `check_routes` tell the first rule or use
//! by rows alone that forbids a call on a router, whoever asks. Beside them stand the questions of
//! which they are made, which ask what a router's ports overlap, reach and hold: the plans of
//! `plan_routers` ask them too. It stands on the rows of `api_types` and on the uses of
//! `api_policy`.
#![tactic(auto)]

mod checks;
mod ways;

pub use checks::{RouterRefusal, check_gateway, check_interface, check_remove, check_routes};
pub use ways::{
    has_bad_hop, interface_in, interface_with, is_bad_leg, overlaps_interface, overlaps_leg,
};
