//! The link of the system.
ghost use Rattle.std.specs.Prelude.{None};

use crate::connecting::connect;
use agent_links::{Link, LinkRefusal};
use keeper_core::{ReaderSource, WriterSink};
use net_addr::{Copies, Text};
use std::alloc::Global;
use std::net::TcpStream;

/// Connections of TCP to a server. It tells the address of the one that is out, and its count of
/// failures.
#[derive(Drop)]
pub struct SystemLink {
    rt: HostRuntime,
    // The address that was opened last, while its connection is out.
    address: Option<Text>,
    faults: u64,
}

impl SystemLink {
    /// Links over the sockets of this process, none of which is open.
    pub fn make(rt: HostRuntime) -> SystemLink {
        SystemLink {
            rt,
            address: None,
            faults: 0,
        }
    }
}

impl Link for SystemLink {
    type In = ReaderSource<TcpStream>;

    type Out = WriterSink<TcpStream>;

    ghost told = { λ link. record {
      to_come = None;
      ended = None;
      opened = link.address;
      faults = link.faults;
    } };

    fn open(
        &mut self,
        alloc: Global,
        address: &Text,
    ) -> Result<(ReaderSource<TcpStream>, WriterSink<TcpStream>), LinkRefusal> {
        let address = address.copy(alloc)?;
        match connect(&self.rt, address.as_str()) {
            Ok((input, output)) => {
                self.address = Some(address);
                Ok((ReaderSource::make(input), WriterSink::make(output)))
            }
            Err(_) => {
                self.faults = self.faults.saturating_add(1);
                Err(LinkRefusal::Failed)
            }
        }
    }

    fn done(&mut self, input: ReaderSource<TcpStream>, output: WriterSink<TcpStream>) {
        self.address = None;
        let faults = input.faults().saturating_add(output.faults());
        self.faults = self.faults.saturating_add(faults);
    }
}
