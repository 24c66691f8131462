//! The world of a server: the machine of the Networking API with the keeper of its rows, and the
//! hosts that carry its frames.
//!
//! `World::open` puts rows into service under any settings, where they are consistent.
//! `World::handle` answers what a caller asks. A change is planned and prepared, at the hosts too,
//! before the keeper gets it, and put in place after it, so that nothing can fail in between: the
//! kept rows are the world's, always. It is kept as a message with its number (`bus_core`), which
//! each host is told at once, or, in manual delivery, by a call of the lab. A host that misses a
//! message lags, and its tables are those of the rows that it has, always. `Hosts` is the list of
//! the hosts, each an `AgentNode`; frames go over them as a `Fleet`. Calls of the lab deliver
//! messages, restart hosts, give them the current rows, send frames through the tables, tell what
//! the rows say of them, show the tables, and tell the version, the kept changes and the rows to
//! agents in other processes. Each call is a step of the world of `world_laws`,
//! whose laws so hold of every list of calls. `tenants_stay_apart` is a law: what a tenant is told
//! depends on its footing alone.
#![tactic(auto)]

mod changes;
mod each;
mod frames;
mod hosts;
mod lab;
mod laws;
mod messages;
mod opening;
mod told;
mod world;

pub use hosts::Hosts;
pub use laws::{asks_keep_worlds, asks_leave_hosts_synced, tenants_stay_apart};
pub use opening::OpenRefusal;
pub use world::World;
