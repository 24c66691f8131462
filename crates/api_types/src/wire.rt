//! The wires of physical networks.

use net_addr::{Copies, OutOfMemory, Text};
use std::alloc::Global;

/// A physical network, untagged or with a tag of IEEE 802.1Q.
#[derive(Drop)]
pub struct Wire {
    pub physical: Text,
    /// 1 to 4,094, or none where frames are untagged.
    pub tag: Option<u16>,
}

impl Copies for Wire {
    fn copy(&self, alloc: Global) -> Result<Wire, OutOfMemory> {
        Ok(Wire {
            physical: self.physical.copy(alloc)?,
            tag: self.tag,
        })
    }
}
