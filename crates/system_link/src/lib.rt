//! Links to a server over TCP.
//!
//! `SystemLink` is the trait `Link` of `agent_links` over sockets. It tells nothing but its count of
//! failures: what a peer sends exists outside of all proofs.
#![tactic(auto)]

mod connecting;
mod link;

pub use link::SystemLink;
