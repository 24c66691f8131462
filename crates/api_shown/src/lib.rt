//! What a caller is shown of rows of the Networking API.
//!
//! It stands on `api_types`, and on `api_policy` for who sees what and for the definitions of what
//! is printed. For all eight kinds it promises the very members: `Shows::members` gives all that
//! are printed of a row, `shown_of` those of them that this caller is told and asked for, `shown`
//! the same of the row with an id, whether the caller sees it or not, and `listed` the same of
//! each row that the caller sees, after a marker, by filters and up to a limit.
#![tactic(auto)]

mod asked_id;
mod filtering;
mod group;
mod keys;
mod listing;
mod members;
mod network;
mod port;
mod printable;
mod router;
mod showing;
mod subnet;

pub use listing::{ListRefusal, listed};
pub use members::Shows;
pub use showing::{shown, shown_of};
