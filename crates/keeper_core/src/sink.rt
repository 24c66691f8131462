//! The trait `Sink`: where bytes go.

ghost use Rattle.std.specs.Prelude.{◌≡◌, ◌<◌, ◌≤◌, length, option_map, IfOk, OnOk, OnErr};
ghost use Rattle.std.specs.Io.KnownBytes.{WriteAppends, Keeps};
ghost use Rattle.keeper_core.specs.Counts.{HasCause, HasRefusalCause};
ghost use Rattle.keeper_core.specs.Ends.{SinkTold};

use crate::refusal::{Failed, SinkRefusal};

/// Where bytes go to.
pub trait Sink {
    // the bytes that were written and how many of them were flushed, where it tells them, and how
    // many calls failed
    ghost told: { Self → SinkTold };

    /// Writes the first bytes of a piece that isn't empty, and answers how many: one at least. They
    /// go after those that were written. After a refusal the bytes written are as before. What is
    /// flushed stays as it is.
    fn write(&mut self, piece: &[u8]) -> Result<usize, SinkRefusal>
        requires { 0 < length piece.now }
        ensures count { IfOk result (λ n. (0 < n) × (n ≤ length piece.now)) }
        ensures bytes { WriteAppends (told self.old).written (told self.new).written result
            piece.now }
        ensures flushed { (told self.new).flushed ≡ (told self.old).flushed }
        ensures cause { HasRefusalCause (told self.old).faults (told self.new).faults result };

    /// Flushes all bytes that were written. A failure leaves those flushed that were.
    fn flush(&mut self) -> Result<(), Failed>
        ensures bytes { Keeps (told self.old).written (told self.new).written }
        ensures flushed { OnOk result
            ((told self.new).flushed ≡ option_map length (told self.new).written) }
        ensures kept { OnErr result ((told self.new).flushed ≡ (told self.old).flushed) }
        ensures cause { HasCause (told self.old).faults (told self.new).faults result };
}
