//! Tests of `keeper_core` and `http_session`: the outside in memory, and sessions over it, in which
//! listed calls fail.
//!
//! What is written and how it ends was worked out by hand. A crate with tests is proved twice, so
//! they stand here, above the two crates, and not in them. It promises nothing by itself.
#![tactic(auto)]

#[cfg(test)]
mod listed;
#[cfg(test)]
mod memory;
#[cfg(test)]
mod sessions;
#[cfg(test)]
mod undone;
