//! What calls on subnets come to.
//!
//! It stands on the rows of `api_types`, on what calls are made of in `call_parts`, on the rules,
//! quotas and uses of `api_policy`, on the choice of addresses of `api_ipam` and on the hosts of
//! `api_ml2`. `create_subnet`, `update_subnet` and `delete_subnet` give a draft, which holds the
//! rows that a call leads to and the change that leads there, or the refusal that the definitions
//! in specs/ name. The network's DHCP port comes, holds an address of each subnet that is leased,
//! and goes with the last one.
#![tactic(auto)]

mod creation;
mod deletion;
mod finding;
mod laws;
mod lease;
mod row;
mod rules;
mod serving;
mod update;

pub use creation::create_subnet;
pub use deletion::delete_subnet;
pub use laws::{subnet_calls_keep, subnet_calls_spare_others, subnet_calls_stay_apart};
pub use update::update_subnet;
