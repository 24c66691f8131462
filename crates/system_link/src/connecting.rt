//! How a connection is opened.

use std::io;
use std::net::{TcpStream, ToSocketAddrs};
use std::time::Duration;

// How many seconds a server may take to accept a connection, to send something more, or to take
// something of what is written to it.
const SILENCE: u64 = 30;

// A connection to the first address that answers in time.
fn reach(rt: &HostRuntime, address: &str) -> io::Result<TcpStream> {
    let mut last = io::Error::from(io::ErrorKind::InvalidInput);
    for at in address.to_socket_addrs(rt)? {
        match TcpStream::connect_timeout(rt, &at, Duration::from_secs(SILENCE)) {
            Ok(stream) => return Ok(stream),
            Err(error) => last = error,
        }
    }
    Err(last)
}

/// The two ends of a new connection to an address. A read or a write of it that waits for 30 seconds
/// fails.
pub(crate) fn connect(rt: &HostRuntime, address: &str) -> io::Result<(TcpStream, TcpStream)> {
    let input = reach(rt, address)?;
    let silence = Some(Duration::from_secs(SILENCE));
    input.set_read_timeout(silence)?;
    input.set_write_timeout(silence)?;
    let output = input.try_clone()?;
    Ok((input, output))
}
