//! Rows as they were while all addresses were of version 4, and the same rows of today.
//!
//! A store of that time is read into `OldRows`; `migrate` makes of them the rows that the server
//! keeps now, in the same order. Where the old rows were consistent, the migrated ones are. Kinds
//! whose rows hold no address of either version have the row types of `api_types`, on which the
//! crate stands, with `net_addr` and `indexmap`.
#![tactic(auto)]

mod laws;
mod list;
mod migrates;
mod migration;
mod port;
mod prefix;
mod router;
mod rows;
mod rule;
mod subnet;
mod table;

pub use laws::migrated_rows_are_consistent;
pub use migration::migrate;
pub use port::{Fixed4, OldPort, Pair4};
pub use prefix::{Prefix4, Span4};
pub use router::OldRouter;
pub use rows::OldRows;
pub use rule::OldRule;
pub use subnet::{Hop4, OldSubnet};
