//! Whether the tables of a wanted file hold of rows, and the command `audit`, which prints it.
//!
//! `run_audit` reads the arguments, the rows of a store and the wanted file, and writes a line for
//! each table. `audit_rows` holds the bytes of a file against rows and prints the lines. What
//! becomes of the tables is said by `reach_sets`, and the file's grammar by `wanted_files`.
#![tactic(auto)]

mod arguments;
mod audit;
mod event_body;
mod lines;
mod matches;
mod run;
mod status;

pub use audit::{Audit, audit_rows};
pub use run::run_audit;
