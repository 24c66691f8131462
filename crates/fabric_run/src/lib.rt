//! What the hosts make of an event: a frame carried from host to host by their tables.
//!
//! `send` takes an event from place to place over a fleet of hosts, a look-up of `host_plane` at a
//! time, until it ends. Its contract is the definition of `plane_types`, with the hosts that made
//! entries and the trail. Nothing of the fleet is changed; running out of memory is its only
//! refusal.
#![tactic(auto)]

mod added;
mod begin;
mod fleet;
mod position;
mod run;
mod taker;
mod trip;

pub use begin::send;
pub use fleet::Fleet;
