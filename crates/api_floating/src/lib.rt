//! To what a floating address leads.
//!
//! `associate` tells to which port, address and router a floating address would lead, or why it
//! can't. Beside it stand the questions of which it is made, about the address of a port that is
//! meant and the router that leads there: the plans of `plan_floatings` ask them too. It stands on
//! the rows of `api_types` and on the uses of `api_policy`.
#![tactic(auto)]

mod aim;
mod association;

pub use aim::{fixed_for, four, is_foreign};
pub use association::{FloatingRefusal, associate, target_by};
