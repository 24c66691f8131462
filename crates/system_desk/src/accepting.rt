//! How a connection is taken.

use keeper_core::DeskRefusal;
use std::net::{TcpListener, TcpStream};
use std::time::Duration;
use std::{io, thread};

// How many seconds a peer may send nothing, or take nothing of what is written to it.
const SILENCE: u64 = 30;

// How often a connection is tried for before the desk fails.
const TRIES: u32 = 1000;

// How many milliseconds pass between two tries.
const PAUSE: u64 = 10;

/// A connection, and its two ends.
#[derive(Drop)]
pub(crate) struct Accepted {
    pub(crate) stream: TcpStream,
    pub(crate) input: TcpStream,
    pub(crate) output: TcpStream,
}

// The next connection. A read or a write of it that waits for 30 seconds fails.
fn accept_once(listener: &TcpListener) -> io::Result<Accepted> {
    let (stream, _) = listener.accept()?;
    let silence = Some(Duration::from_secs(SILENCE));
    stream.set_read_timeout(silence)?;
    stream.set_write_timeout(silence)?;
    let input = stream.try_clone()?;
    let output = stream.try_clone()?;
    Ok(Accepted {
        stream,
        input,
        output,
    })
}

/// The next connection that can be had. A failure mostly says something of one connection, whose
/// peer has gone already, or passes, as when there are no descriptors for a moment (Linux,
/// accept(2), "Error handling"). So it is tried again, every ten milliseconds, until 1,000 tries
/// have failed.
pub(crate) fn accept(rt: &HostRuntime, listener: &TcpListener) -> Result<Accepted, DeskRefusal> {
    for _ in 1..TRIES {
        if let Ok(accepted) = accept_once(listener) {
            return Ok(accepted);
        }
        thread::sleep(rt, Duration::from_millis(PAUSE));
    }
    match accept_once(listener) {
        Ok(accepted) => Ok(accepted),
        Err(_) => Err(DeskRefusal::Failed),
    }
}
