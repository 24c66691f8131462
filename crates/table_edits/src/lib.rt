//! Edits of the tables of a host at the keys that a change touches.
//!
//! A table is a partial function from keys to rows. For each touched key the row that stands there
//! is compared with the one that is to stand there, and where they differ there is one edit. The
//! edits lead from the table before a change to the one after it, and are few: no row that stands
//! in both under its key is written. Tables with a row, or a chunk of rows, for each row of a kind
//! have their keys by numbers that rows keep through a change; others by keys of their own.
#![tactic(auto)]

mod by_row;
mod chunks;
mod edits;
mod keys;
mod numbers;
mod own_key;
mod table_laws;
mod table_row;

pub use by_row::{ByRow, edits_by_row};
pub use chunks::{ByChunk, KeyedRow, edits_by_chunk};
pub use edits::{Changed, edits_of};
pub use keys::{TableKey, descending, is_among};
pub use numbers::Numbers;
pub use own_key::{OwnKey, edits_by_own_key, find_by_key, key_number};
pub use table_laws::{
    filters_are_rewired, floats_are_rewired, leases_are_rewired, routers_are_rewired,
    rows_are_rewired, sets_are_rewired, tables_are_rewired, taps_are_rewired,
};
pub use table_row::TableRow;
