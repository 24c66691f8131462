//! A session over bytes: requests of HTTP/1.1 read from an input in whatever pieces they come, each
//! answered by a handler, and the replies written to an output in order.
//!
//! `session` is its one call. A `Handler` is what answers a whole request; the machine of the API
//! is put in its place in the crates above. The crate stands on `http_heads`, by whose definitions
//! the requests are cut from the bytes, and on `keeper_core`, whose sources, sinks and keepers it
//! uses. It promises that each whole request has its one reply, which the handler's step gives, and
//! that each end of a session has its cause. What the reading of a head costs grows with its bytes,
//! in whatever pieces they come and however many empty lines stand before it (`session`).
#![tactic(auto)]

mod bad_bytes;
mod buffer;
mod handler;
mod laws;
mod reading;
mod request;
mod sending;
mod session_end;
mod sessions;
mod turn;

pub use bad_bytes::BadBytes;
pub use buffer::REQUEST_LIMIT;
pub use handler::{Answer, Handler};
pub use laws::session_laws;
pub use request::Request;
pub use sending::send;
pub use session_end::SessionEnd;
pub use sessions::session;
