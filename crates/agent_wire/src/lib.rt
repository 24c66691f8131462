//! A host's agents in a process of their own: they learn a server's rows by its replies alone.
//!
//! A `WireAgent` says what it asks next, hears a reply as bytes, and holds the rows of a version
//! with the tables that these give to its host. It stands on `wire_replies`, which reads replies,
//! `agent_node`, which wires rows, `api_consistency` and `call_parts`, which test them, and
//! `wire_laws`, in whose words its contracts are written.
#![tactic(auto)]

mod agent;
mod snapshot;

pub use agent::WireAgent;
