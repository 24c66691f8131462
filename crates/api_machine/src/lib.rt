//! The machine of the Networking API: rows with a version, under settings, and what each call makes
//! of them.
//!
//! It stands on the rows of `api_types`, on the planning of each kind in its `plan_` crate, and on
//! `api_shown` for what is printed. What a call comes to is defined by `api_step`, a function of
//! settings, rows, version, caller and call. `Machine::open` takes rows that `api_check` finds
//! consistent. `plan` answers as `api_step` does and tells the change that leads there, `prepare`
//! makes the rows after it, and `accept` puts them in place, which can't fail. `calls_keep` and
//! `tenants_stay_apart` are laws: functions that do nothing, whose contracts say that accepted
//! calls keep rows sound and that what a tenant is told depends on its footing alone.
#![tactic(auto)]

mod calls;
mod laws;
mod machine;
mod planned;
mod reads;
mod shadow;

pub use laws::{calls_keep, tenants_stay_apart};
pub use machine::{Machine, Ready};
pub use planned::Planned;
