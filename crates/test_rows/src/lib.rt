//! Rows made by hand, for tests.
//!
//! `add` adds a row last, where its id is new, and the other calls make rows whose fields nobody
//! asks for are empty. It stands on `api_types`, and promises nothing.
#![tactic(auto)]

mod adding;
mod make;

pub use adding::add;
pub use make::{
    bound_port, floating, four, group, held, held_six, hold, id, mac, network, policy, port,
    prefix, prefix_six, project, router, rule, service_port, six, subnet,
};
