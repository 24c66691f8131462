//! What calls on floating addresses come to.
//!
//! It stands on the rows of `api_types`, on what calls are made of in `call_parts`, on the rules,
//! quotas and uses of `api_policy`, on the choice of addresses of `api_ipam`, on the binding of
//! `api_ml2` and on the targets of `api_floating`. `create_floating`, `update_floating` and
//! `delete_floating` give a draft, which holds the rows that a call leads to and the change that
//! leads there, or the refusal that the definitions in specs/ name. A floating address comes with a
//! port of its own, which holds it on no host, and goes with it.
#![tactic(auto)]

mod asked;
mod creation;
mod deletion;
mod drawing;
mod finding;
mod laws;
mod outer;
mod row;
mod rules;
mod update;

pub use creation::create_floating;
pub use deletion::delete_floating;
pub use laws::{floating_calls_keep, floating_calls_spare_others, floating_calls_stay_apart};
pub use update::update_floating;
