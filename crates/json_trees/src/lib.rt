//! Definitions alone: printed values as JSON (RFC 8259), which bodies of replies and texts of rows
//! cite.
#![tactic(auto)]
