//! What crosses the wire between a server and the agents of a host that run elsewhere.
//!
//! An agent asks for the numbers of the kept changes, for one change, or for one page of the rows.
//! In specs/ stand the pages of rows, the rows after the first so many changes, and what a server
//! with a history replies. It stands on `api_types` and `bus_core`.
#![tactic(auto)]

mod ask;
mod changes;
mod laws;
mod pages;
mod reply;
mod step;

pub use ask::WireAsk;
pub use changes::copy_change;
pub use laws::all_rows_are_read_back;
pub use pages::{RowsPage, copy_page};
pub use reply::{BODY_LIMIT, WireReply};
pub use step::WireStep;
