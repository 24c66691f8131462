//! Rows kept in a database of SQLite.
//!
//! `SqlKeeper` is a `Keeper` over any store of the crate `sqlite`: a table for each kind, with a
//! column for each field under the API's name, and a table `format` with the one number 2. A
//! change is one transaction. A store of format 1, in which all addresses are of version 4, is
//! migrated when it is loaded. Contracts say that a change is kept whole or not at all, over
//! crashes too, and that a failure is counted; that it loads what it applied is tested. The crate
//! stands on `net_addr`, `api_types`, `old_rows`, `keeper_core`, `serde_json` and `sqlite`.
#![tactic(auto)]

mod adding;
mod address;
mod change;
mod column;
mod floating;
mod group;
mod keeper;
mod listed;
mod migration;
mod names;
mod network;
mod old_listed;
mod old_stored;
mod policy;
mod port;
mod project;
mod router;
mod rule;
mod statement;
mod stored;
mod subnet;
mod tables;
mod trouble;

pub use keeper::SqlKeeper;
