//! Tests of single crates of the house, on what no stream of tests/corpus can say: what is named of
//! rows that break a clause, tables that no agent makes, sets that no command asks for, replies that
//! no request has, and texts of rows. Expected values were worked out by hand.
//!
//! A crate of tests links all that it reaches before its first function, so they share one. It
//! promises nothing by itself.
#![tactic(auto)]

#[cfg(test)]
mod again;
#[cfg(test)]
mod broken;
#[cfg(test)]
mod dangling;
#[cfg(test)]
mod found;
#[cfg(test)]
mod lab;
#[cfg(test)]
mod reach_rows;
#[cfg(test)]
mod sets;
#[cfg(test)]
mod steps;
#[cfg(test)]
mod store;
#[cfg(test)]
mod store_rows;
#[cfg(test)]
mod tags;
#[cfg(test)]
mod text_rows;
#[cfg(test)]
mod texts;
#[cfg(test)]
mod unasked;
#[cfg(test)]
mod wired;
