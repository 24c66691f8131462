//! The test of whole consistency.
//!
//! `first_broken` tells the first of the fourteen clauses that rows break, with the first row that
//! breaks it, or none where the rows are consistent. A store is to be put into service only after
//! this test. The clauses over rows of one kind are types of `api_clauses`, searched by one
//! function, and whether a port's host can carry its network is told by `api_ml2`. It allocates
//! nothing, so most tests look through a list for each row.
#![tactic(auto)]

mod broken;
mod clauses;
mod first;
mod hosts;
mod numbered;
mod segments;

pub use broken::Inconsistent;
pub use first::first_broken;
