//! How a connection ends.

use std::io::{self, Read};
use std::net::{Shutdown, TcpStream};
use std::time::{Duration, Instant};

// How many milliseconds a peer may be silent, if all that had come from it was read and otherwise,
// and how many seconds it may go on sending.
const SHORT_SILENCE: u64 = 50;

const SILENCE: u64 = 1000;

const PATIENCE: u64 = 2;

/// Ends a connection in stages (RFC 9112, 9.6): its peer is told that nothing more comes, and what
/// it still sends is read away until it closes its side, is silent for a second, or has sent for
/// two. A socket that is closed over bytes which nobody read is reset, and its peer may lose the
/// last reply. If all that had come was read, 50 milliseconds of silence are enough.
pub(crate) fn part(rt: &HostRuntime, mut stream: &TcpStream, is_drained: bool) -> io::Result<()> {
    let begun = Instant::now(rt)?;
    stream.shutdown(Shutdown::Write)?;
    let silence = if is_drained { SHORT_SILENCE } else { SILENCE };
    stream.set_read_timeout(Some(Duration::from_millis(silence)))?;
    let mut piece = [0; 16_384];
    for _ in 0..u64::MAX {
        let count = stream.read(&mut piece)?;
        if count == 0 || begun.elapsed(rt)? >= Duration::from_secs(PATIENCE) {
            break;
        }
    }
    Ok(())
}
