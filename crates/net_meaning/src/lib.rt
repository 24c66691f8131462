//! What a frame does, by the rows of the Networking API alone.
//!
//! `explain` computes the verdict on an event directly from the rows and the tracked entries, by
//! searches over all rows: no tables of hosts, no tags and no tunnels. It stands on the questions
//! of `plane_rows` and `api_secgroup` and on the rules for single packets of `plane_types`, and its
//! contract is the definition of `plane_types`. Running out of memory is its only refusal.
#![tactic(auto)]

mod ask;
mod at_port;
mod event;
mod filter;
mod guard;
mod passage;
mod router;
mod source;
mod uses;

pub use event::explain;
