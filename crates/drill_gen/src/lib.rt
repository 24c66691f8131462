//! The requests of a drill, made of two numbers.
//!
//! `drill` makes a network, a subnet of it, ports on two hosts, and events of frames between these
//! ports. On which host a port is, and between which ports a frame goes, is drawn. `specs/Stream`
//! says which bytes these are.
#![tactic(auto)]

mod bodies;
mod draws;
mod request;
mod stream;

pub use stream::drill;
