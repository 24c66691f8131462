//! The desk of the system: files, databases of SQLite, and sockets of TCP.
//!
//! `SystemDesk`, `SystemSource`, `SystemSink` and `SystemStore` are the traits of `keeper_core` over
//! what the operating system has. Each failure that they report is counted. They tell next to
//! nothing: bytes, names that are asked for and connections exist outside of all proofs.
#![tactic(auto)]

mod accepting;
mod desk;
mod ends;
mod parting;
mod store;

pub use desk::SystemDesk;
pub use ends::{SystemSink, SystemSource};
pub use store::SystemStore;
