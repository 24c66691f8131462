//! The server: requests of the Networking API read from an input, and their replies written to an
//! output.
//!
//! `session` answers the requests of one input over a world, and `run` does what the program's
//! words say. The crate puts the world of `lab_world` in place of the handler of `http_session`:
//! it reads who asks and what with `neutron_http` and `neutron_json`, and writes replies with
//! them. It promises that each request has the reply of the machine's step, and each end its
//! cause. `words` has what a program is started with.
#![tactic(auto)]

mod api;
mod ask;
mod caller;
mod drilling;
mod opening;
mod program_words;
mod reply;
mod request;
mod serving;
mod sessions;
mod status;
mod top;

pub use http_session::SessionEnd;
pub use program_words::{unread_status, words};
pub use sessions::session;
pub use top::run;
