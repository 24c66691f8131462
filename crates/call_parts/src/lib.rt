//! What calls of all kinds are made of.
//!
//! `Asking` says who asks, at which consistent rows, under which settings. Around it: what bodies
//! give, refusals that name what is wrong or missing, and a `Draft`, which is the rows that a call
//! leads to and the change that leads there, edit by edit, with ids that are drawn for a project.
//! Floating addresses are disassociated where an address leaves its port. It stands on the rows of
//! `api_types` and on `net_settings`.
#![tactic(auto)]

mod asking;
mod draft;
mod drawing;
mod fixed;
mod given;
mod leaving;
mod planned_row;
mod refusals;
mod state;
mod typed;

pub use asking::Asking;
pub use draft::{Draft, Settled};
pub use drawing::Drawn;
pub use fixed::one_fixed;
pub use given::{are_unlike, is_for_other, is_given, owner, text_or, value_of, value_or};
pub use leaving::disassociate;
pub use planned_row::PlannedRow;
pub use refusals::{invalid, none_with_id, not_found};
pub use state::State;
pub use typed::are_typed;
