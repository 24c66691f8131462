//! What calls on ports come to.
//!
//! It stands on the rows of `api_types`, on what calls are made of in `call_parts`, on the rules,
//! quotas and uses of `api_policy`, on the choice of addresses in `api_ipam` and on the binding of
//! `api_ml2`. `create_port`, `update_port` and `delete_port` give a draft, which holds the rows
//! that a call leads to and the change that leads there, or the refusal that the definitions in
//! specs/ name. A port that loses addresses, or goes, takes their floating addresses along: these
//! are disassociated in the same change.
#![tactic(auto)]

mod checks;
mod creation;
mod deletion;
mod finding;
mod laws;
mod row;
mod rules;
mod supply;
mod update;

pub use creation::create_port;
pub use deletion::delete_port;
pub use laws::{port_calls_keep, port_calls_spare_others, port_calls_stay_apart};
pub use update::update_port;
