//! One host's agents: the rows that they were last given, the tables wired from these, and the
//! host's tracked entries.
//!
//! An `AgentNode` is told changes one after the other, by `deliver`: it puts the one that follows
//! what it holds into its rows, and the edits that it makes into its tables, and leaves all others.
//! The edits are found and given room by `prepare_rewire`, and `rewire` puts them in, which
//! allocates nothing. It is given rows whole by `make` and `resync`, or by `prepare_resync` and then
//! `put`, which allocates nothing. `restart` makes it hold nothing, `forget` empties its entries. At
//! every moment between calls its rows are consistent, its tables are those that the rows give to
//! the host, and each entry is of a tap or router in these tables. A network keeps its tag from one
//! wiring to the next. It stands on `l2_agent`, `l3_agent` and `dhcp_agent`, which make whole
//! tables, and on `l2_delta`, `l3_delta` and `dhcp_delta`, which make edits. Running out of memory
//! is its only refusal, and leaves rows, tables and entries as they were.
#![tactic(auto)]

mod node;
mod ready;
mod rewire;
mod still;
mod wiring;

pub use node::AgentNode;
pub use ready::ReadyNode;
pub use rewire::Rewire;
