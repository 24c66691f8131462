//! Edits of the tables that ports give to a host, at what a change touches.
#![tactic(auto)]

mod bridge;
mod delta;
mod filters;
mod gap_list;
mod named_sets;
mod neighbours;
mod retag;
mod ruled;
mod set_keys;
mod sets;
mod tags;
mod taps;
mod touched;

pub use delta::ports_delta;
