//! What calls on security groups and their rules come to.
//!
//! It stands on the rows of `api_types`, on what calls are made of in `call_parts`, on the rules,
//! quotas and uses of `api_policy`, and on the parts of rules of `api_secgroup`. `create_group`,
//! `update_group`, `delete_group`, `create_rule` and `delete_rule` give a draft, which holds the
//! rows that a call leads to and the change that leads there, or the refusal that the definitions
//! in specs/ name.
#![tactic(auto)]

mod drawing;
mod finding;
mod group_creation;
mod group_deletion;
mod group_update;
mod laws;
mod rule_creation;
mod rule_deletion;

pub use group_creation::create_group;
pub use group_deletion::delete_group;
pub use group_update::update_group;
pub use laws::{group_calls_keep, group_calls_spare_others, group_calls_stay_apart};
pub use rule_creation::create_rule;
pub use rule_deletion::delete_rule;
