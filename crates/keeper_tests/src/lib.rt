//! Tests of `keeper_sql`, on what no stream of tests/corpus can say: rows that no call makes, and
//! that a store which is refused stays as it was.
//!
//! A crate with tests is proved twice, so they stand here, above `keeper_sql`, and not in it. It
//! promises nothing by itself.
#![tactic(auto)]

#[cfg(test)]
mod kept;
#[cfg(test)]
mod refused;
#[cfg(test)]
mod rows;
