//! What calls on RBAC policies come to.
//!
//! It stands on the rows of `api_types`, on what calls are made of in `call_parts`, and on the
//! rules, quotas and uses of `api_policy`. `create_policy`, `update_policy` and `delete_policy`
//! give a draft, which holds the rows that a call leads to and the change that leads there, or the
//! refusal that the definitions in specs/ name.
#![tactic(auto)]

mod creation;
mod deletion;
mod equal;
mod finding;
mod laws;
mod update;

pub use creation::create_policy;
pub use deletion::delete_policy;
pub use laws::{policy_calls_keep, policy_calls_spare_others, policy_calls_stay_apart};
pub use update::update_policy;
