//! What calls on networks come to: which are refused, and where the others lead.
//!
//! It stands on the rows of `api_types`, on what calls are made of in `call_parts`, on the rules of
//! `api_policy` and on the segments of `api_ml2`. `create_network`, `update_network` and
//! `delete_network` give a draft, which holds the rows that a call leads to and the change that
//! leads there, or the refusal that the definitions in specs/ name.
#![tactic(auto)]

mod checks;
mod creation;
mod deletion;
mod drawing;
mod finding;
mod laws;
mod opening;
mod rules;
mod update;

pub use creation::create_network;
pub use deletion::delete_network;
pub use laws::{network_calls_keep, network_calls_spare_others, network_calls_stay_apart};
pub use update::update_network;
