//! Tests of the program's call, over a desk in memory: what it comes to if a call of the outside
//! fails or input comes in pieces, and what connections are told, with values that were worked out
//! by hand.
//!
//! It promises nothing by itself.
#![tactic(auto)]

#[cfg(test)]
mod desk;
#[cfg(test)]
mod fails;
#[cfg(test)]
mod outcome;
#[cfg(test)]
mod pieces;
#[cfg(test)]
mod requests;
#[cfg(test)]
mod served;
#[cfg(test)]
mod unkept;
