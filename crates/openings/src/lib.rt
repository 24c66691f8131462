//! What a command begins with: its settings, and the rows that its store keeps.
//!
//! `open_store` asks a desk for the settings that a command line names, and then for its store;
//! `ask_settings` asks for the settings alone.
//! `read_rows` goes on to the rows, tests that they are consistent and closes the store: what only
//! looks at rows begins with it. `Unopened` says why there is nothing to begin with.
#![tactic(auto)]

mod rows;
mod store;
mod unopened;

pub use rows::read_rows;
pub use store::{ask_settings, open_store};
pub use unopened::Unopened;
