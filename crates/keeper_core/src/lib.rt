//! The outside: where bytes come from and go to, where rows are kept, and the desk that hands all
//! of it out.
//!
//! The traits `Source`, `Sink`, `Keeper` and `Desk` say what each call of the outside gives, what a
//! refusal leaves, and that a failure is answered only where a count of faults rose. Each has a
//! form in memory that fails in listed calls (`Memory..`) and one that never fails (`Sure..`).
//! `ReaderSource` and `WriterSink` make the traits of std's readers and writers. The crate stands
//! on `net_addr` and `api_types`.
#![tactic(auto)]

mod adapter;
mod ask;
mod book;
mod calls;
mod connections;
mod desk;
mod keeper;
mod last_read;
mod memory_desk;
mod memory_keeper;
mod memory_sink;
mod memory_source;
mod named;
mod refusal;
mod shelf;
mod sink;
mod source;
mod sure_desk;

pub use adapter::{ReaderSource, WriterSink};
pub use ask::DeskAsk;
pub use calls::Calls;
pub use desk::Desk;
pub use keeper::Keeper;
pub use last_read::LastRead;
pub use memory_desk::{EndsList, MemoryDesk};
pub use memory_keeper::{MemoryKeeper, SureKeeper};
pub use memory_sink::{MemorySink, SureSink};
pub use memory_source::{MemorySource, SureSource};
pub use named::{Named, NamedBytes, NamedRows};
pub use refusal::{DeskRefusal, Failed, KeeperRefusal, OutsideRefusal, SinkRefusal};
pub use sink::Sink;
pub use source::Source;
pub use sure_desk::{SureDesk, SureEnds};
