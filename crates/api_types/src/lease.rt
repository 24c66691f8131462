//! What ports are leased.

use crate::subnet::Routes;
use net_addr::{Addr, Copies, OutOfMemory, Seq};
use std::alloc::Global;

/// What a port is told by DHCP (RFC 2131, RFC 3442).
#[derive(Drop)]
pub struct Lease {
    pub address: Addr,
    /// The length of the subnet's prefix.
    pub length: u8,
    pub gateway: Option<Addr>,
    pub name_servers: Seq<Addr>,
    pub host_routes: Routes,
}

impl Copies for Lease {
    fn copy(&self, alloc: Global) -> Result<Lease, OutOfMemory> {
        Ok(Lease {
            address: self.address,
            length: self.length,
            gateway: self.gateway,
            name_servers: self.name_servers.copy(alloc)?,
            host_routes: self.host_routes.copy(alloc)?,
        })
    }
}
