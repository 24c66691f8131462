//! Tracked entries: flows of filters, and translations of routers.

use crate::frame::Key;
use api_types::{Direction, Id};
use net_addr::{Addr4, Copies, OutOfMemory};
use std::alloc::Global;

/// What a host keeps of a packet that passed.
#[derive(Clone, Copy, PartialEq, Eq)]
pub enum Entry {
    /// A filter of this port let a packet with this key pass.
    Flow {
        port: Id,
        direction: Direction,
        key: Key,
    },
    /// A router gave a packet with this key another source (RFC 3022, NAPT).
    Snat {
        router: Id,
        key: Key,
        outer: Addr4,
        outer_port: u16,
    },
}

impl Copies for Entry {
    fn copy(&self, _alloc: Global) -> Result<Entry, OutOfMemory> {
        Ok(*self)
    }
}
