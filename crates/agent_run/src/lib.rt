//! The command `agent`: a host's agents follow a server, in a process of their own.
//!
//! `run_agent` reads the arguments and the settings, and makes round after round: it opens a link
//! to the server, asks what the agent asks, and has it hear the first whole reply. At the end it
//! writes what is held. It stands on `agent_wire`, the agent, `agent_links`, the links, and
//! `openings`.
#![tactic(auto)]

mod rounds;
mod run;
mod status;

pub use run::run_agent;
