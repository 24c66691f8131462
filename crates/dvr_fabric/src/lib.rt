//! What hosts that route by themselves make of an event: each step looks at the tables, the copies
//! and the entries of one host.
//!
//! `dvr_send` takes an event from place to place over hosts until it ends. On a bridge a packet for
//! the interface of a copied router is handled by the copy, if it is near; all else goes by the
//! host's tables, a look-up of `host_plane` at a time. Its contract is the definition of
//! `dvr_types`, and by the laws of `dvr_laws` what the rows say, with the hosts that handle the
//! event. Running out of memory is its only refusal.
#![tactic(auto)]

mod advance;
mod begin;
mod copies;
mod find;
mod fleet;
mod path;
mod position;
mod routes;
mod rule;
mod run;
mod send;

pub use send::dvr_send;
