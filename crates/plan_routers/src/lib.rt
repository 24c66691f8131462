//! What calls on routers and their interfaces come to.
//!
//! It stands on the rows of `api_types`, on what calls are made of in `call_parts`, on the rules,
//! quotas and uses of `api_policy`, on the choice of addresses of `api_ipam`, on the hosts of
//! `api_ml2` and on what `api_router` asks of a router's ports. `create_router`, `update_router` and
//! `delete_router` give a draft, which holds the rows that a call leads to and the change that leads
//! there, or the refusal that the definitions in specs/ name; `add_interface` and
//! `remove_interface` give their answer beside it. A gateway's port comes and goes with it.
#![tactic(auto)]

mod adding;
mod creation;
mod deletion;
mod drawing;
mod finding;
mod gateways;
mod laws;
mod outer;
mod removal;
mod rows;
mod rules;
mod service;
mod shown;
mod update;

pub use adding::add_interface;
pub use creation::create_router;
pub use deletion::delete_router;
pub use laws::{
    interface_calls_keep, interface_calls_spare_others, interface_calls_stay_apart,
    router_calls_keep, router_calls_spare_others, router_calls_stay_apart,
};
pub use removal::remove_interface;
pub use shown::PlannedInterface;
pub use update::update_router;
