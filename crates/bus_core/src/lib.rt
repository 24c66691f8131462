//! The last changes, by their numbers, and what they tell of earlier rows.
//!
//! A `Bus` keeps at most 1,024 changes. `make` takes the room for them, so `push` allocates
//! nothing and lets the oldest go. `get` tells the change under a number, or that none is kept
//! under it. In specs/ stands what rows with the last changes that led to them are, and which rows
//! they had at each version that these changes reach back to. It stands on `api_types` and
//! `circular_buffer`.
#![tactic(auto)]

mod bus;

pub use bus::{Bus, Gone};
