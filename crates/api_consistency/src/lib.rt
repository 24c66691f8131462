//! The test of whole consistency in a time that is near linear in the rows.
//!
//! `find_broken` answers what `first_broken` of `api_check` does. It looks rows up by their ids and
//! sorts what may be held once, so it takes memory. Rows that are consistent cost near linear; for
//! others `first_broken` tells which clause they break first.
#![tactic(auto)]

mod disjoint;
mod find;
mod floating;
mod forms;
mod groups;
mod held;
mod known;
mod looked;
mod meeting;
mod named;
mod numbered;
mod numbers;
mod permitted;
mod placed;
mod routers;
mod segments;
mod services;
mod stretch;

pub use find::find_broken;
