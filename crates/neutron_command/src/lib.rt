//! What the program does: the command that its first argument names.
//!
//! `command` runs `dvr` and `audit`, which answer events and a file by a store, and `agent`, which
//! follows a server, and hands all else to the server, whose commands are `session`, `serve` and
//! `drill`.
#![tactic(auto)]

mod named;
mod top;

pub use top::command;
