//! Links from agents to a server.
//!
//! The trait `Link` says what opening a link gives and what handing it back leaves; `MemoryLink` is
//! its form in memory, listed calls of which fail. `read_whole` reads the first whole reply of a
//! link, in pieces. It stands on `keeper_core`, whose sources and sinks are a link's ends,
//! `http_heads` and `httparse`, and on `wire_types` for how long a reply may be.
#![tactic(auto)]

mod link;
mod memory_link;
mod whole;

pub use link::{Link, LinkRefusal};
pub use memory_link::{DoneLink, MemoryLink};
pub use whole::read_whole;
