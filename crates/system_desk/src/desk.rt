//! The desk: files, databases and sockets.
ghost use Rattle.std.specs.Prelude.{◌≡◌, ◌≤◌};
ghost use Rattle.keeper_core.specs.Counts.{RoseBy};
ghost use Rattle.keeper_core.specs.declared.refusal.OutsideRefusal.TheVariants.{Failed as HasFailed};

use crate::accepting::{Accepted, accept};
use crate::ends::{SystemSink, SystemSource};
use crate::parting::part;
use crate::store::SystemStore;
use keeper_core::{Desk, DeskRefusal};
use net_addr::{Bytes, Text};
use std::alloc::Global;
use std::net::{TcpListener, TcpStream};
use std::{fs, io};

/// Settings in files, stores in databases of SQLite, and connections of TCP. It tells nothing but
/// its counts of failures.
#[derive(Drop)]
pub struct SystemDesk {
    rt: HostRuntime,
    listener: Option<TcpListener>,
    // The connection that is out.
    peer: Option<TcpStream>,
    faults: u64,
    store_faults: u64,
}

impl SystemDesk {
    /// A desk at which nothing is open, over the files and sockets of this process.
    pub fn make(rt: HostRuntime) -> SystemDesk {
        SystemDesk {
            rt,
            listener: None,
            peer: None,
            faults: 0,
            store_faults: 0,
        }
    }
}

// Counts a failure, but not running out of memory.
fn refuse(faults: &mut u64, refusal: DeskRefusal) -> DeskRefusal
    ensures later { faults.old ≤ faults.new }
    ensures cause { result ≡ HasFailed → RoseBy 1 faults.old faults.new }
{
    match refusal {
        DeskRefusal::OutOfMemory => DeskRefusal::OutOfMemory,
        DeskRefusal::Failed => {
            *faults = faults.saturating_add(1);
            DeskRefusal::Failed
        }
    }
}

// Why a file isn't read.
fn refusal_of(error: &io::Error) -> DeskRefusal {
    if error.kind() == io::ErrorKind::OutOfMemory {
        DeskRefusal::OutOfMemory
    } else {
        DeskRefusal::Failed
    }
}

fn read_file(rt: &HostRuntime, name: &Text) -> Result<Bytes, DeskRefusal> {
    match fs::read(rt, name.as_str()) {
        Ok(bytes) => Ok(Bytes::from_vec(bytes)),
        Err(error) => Err(refusal_of(&error)),
    }
}

fn bind(rt: &HostRuntime, address: &Text) -> Result<TcpListener, DeskRefusal> {
    match TcpListener::bind(rt, address.as_str()) {
        Ok(listener) => Ok(listener),
        Err(_) => Err(DeskRefusal::Failed),
    }
}

// Where that fails, the peer is gone.
fn leave(rt: &HostRuntime, stream: TcpStream, is_drained: bool) {
    let _ = part(rt, &stream, is_drained);
}

fn let_go(_input: SystemSource, _output: SystemSink) {}

impl Desk for SystemDesk {
    type In = SystemSource;

    type Out = SystemSink;

    type Store = SystemStore;

    ghost use Rattle.keeper_core.specs.Desk.{untold_desk};

    ghost told = { λ desk. untold_desk desk.faults desk.store_faults };

    fn settings(&mut self, _alloc: Global, name: &Text) -> Result<Bytes, DeskRefusal> {
        match read_file(&self.rt, name) {
            Ok(bytes) => Ok(bytes),
            Err(refusal) => Err(refuse(&mut self.faults, refusal)),
        }
    }

    fn store(&mut self, alloc: Global, name: Option<&Text>) -> Result<SystemStore, DeskRefusal> {
        match SystemStore::open(&self.rt, alloc, name) {
            Ok(store) => Ok(store),
            Err(refusal) => Err(refuse(&mut self.faults, refusal)),
        }
    }

    fn close(&mut self, store: SystemStore) {
        self.store_faults = self.store_faults.saturating_add(store.faults());
        store.shut();
    }

    fn listen(&mut self, _alloc: Global, address: &Text) -> Result<(), DeskRefusal> {
        match bind(&self.rt, address) {
            Ok(listener) => {
                self.listener = Some(listener);
                Ok(())
            }
            Err(refusal) => Err(refuse(&mut self.faults, refusal)),
        }
    }

    fn next(&mut self, _alloc: Global) -> Result<Option<(SystemSource, SystemSink)>, DeskRefusal> {
        let Some(listener) = &self.listener else {
            return Ok(None);
        };
        match accept(&self.rt, listener) {
            Ok(
                Accepted {
                    stream,
                    input,
                    output,
                },
            ) => {
                self.peer = Some(stream);
                Ok(Some((SystemSource::peer(input), SystemSink::peer(output))))
            }
            Err(refusal) => Err(refuse(&mut self.faults, refusal)),
        }
    }

    fn done(&mut self, input: SystemSource, output: SystemSink) {
        if let Some(stream) = self.peer.take() {
            leave(&self.rt, stream, input.is_drained());
        }
        let_go(input, output);
    }
}
