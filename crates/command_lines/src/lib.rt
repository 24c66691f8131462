//! Command lines: the words after the program's name.
//!
//! `read_line` reads them. `clap` parses the words of each command, and what the product asks
//! beside that is tested here. `specs/Lines` says which words are a command line, and what each one
//! gives; `worked` has lines that are ones and words that are none, and `laws` what holds of each
//! option whatever its value.
#![tactic(auto)]

mod commands;
pub mod laws;
mod line;
mod matches;
mod reader;
mod values;
pub mod worked;

pub use line::{AgentLine, Delivery, Line, Opening, Refusal};
pub use reader::{read_agent_line, read_line};
