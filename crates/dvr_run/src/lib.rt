//! The command `dvr`: what events come to at hosts that route by copies of routers.
//!
//! `run_dvr` takes settings and store as a server does, makes each host's tables and copies of the
//! rows, and answers the events of an input, one on each line, one line for each. It never writes
//! to the store.
#![tactic(auto)]

mod answering;
mod asking;
mod hosts;
mod keeping;
mod lines;
mod pending;
mod status;
mod top;
mod turn;
mod words;

pub use top::run_dvr;
