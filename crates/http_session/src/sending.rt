//! Bytes go out.
ghost use Rattle.std.specs.Prelude.{◌≡◌, ℕ, ◌≤◌, List, ◌++◌, length, take, drop, OnOk, OnErr, option_map};
ghost use Rattle.std.specs.Io.KnownBytes.{Appends};
ghost use Rattle.keeper_core.specs.Counts.{HasRefusalCause};

use keeper_core::{Sink, SinkRefusal};

/// Writes all of these bytes, in as many pieces as the output takes them, and flushes it. Where a
/// call fails, a front of them is written and nothing more is flushed.
pub fn send<O: Sink>(output: &mut O, reply: &[u8]) -> Result<(), SinkRefusal>
    ensures ok { OnOk result
        (Appends (O.told output.old).written (O.told output.new).written reply.now) }
    ensures flushed { OnOk result
        ((O.told output.new).flushed ≡ option_map length (O.told output.new).written) }
    ensures flushed_stays { OnErr result
        ((O.told output.new).flushed ≡ (O.told output.old).flushed) }
    ensures err { OnErr result
        ((n : ℕ) × (n ≤ length reply.now)
        × Appends (O.told output.old).written (O.told output.new).written (take n reply.now)) }
    ensures cause { HasRefusalCause (O.told output.old).faults (O.told output.new).faults result }
{
    let mut sent = 0;
    'pieces: while sent < reply.len() {
        sent += output.write(&reply[sent..])?;
    }
    match output.flush() {
        Ok(()) => Ok(()),
        Err(_) => Err(SinkRefusal::Failed),
    }
}
