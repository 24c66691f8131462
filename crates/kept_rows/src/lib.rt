//! Laws of rows that keep their numbers through a change: what is found among them, and which of
//! them pass a test.
#![tactic(auto)]
