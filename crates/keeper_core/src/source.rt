//! The trait `Source`: where bytes come from.

ghost use Rattle.std.specs.Prelude.{◌≡◌, ◌<◌, length};
ghost use Rattle.std.specs.Io.{ReadsAtMost};
ghost use Rattle.std.specs.Io.KnownBytes.{ReadConsumes};
ghost use Rattle.keeper_core.specs.Counts.{HasCause};
ghost use Rattle.keeper_core.specs.Ends.{SourceTold, last_read};

use crate::refusal::Failed;

/// Where bytes come from.
pub trait Source {
    // the bytes that are left, where it tells them, how its last read ended, and how many failed
    ghost told: { Self → SourceTold };

    /// Reads the next bytes to the front of a buffer that isn't empty, and answers how many. They
    /// are the first of those left. 0 is the end: it comes exactly where nothing is left. After a
    /// failure the bytes left are as before.
    fn read(&mut self, buf: &mut [u8]) -> Result<usize, Failed>
        requires { 0 < length buf.old }
        ensures bound { ReadsAtMost result buf.new }
        ensures bytes { ReadConsumes (told self.old).left (told self.new).left result buf.new }
        ensures last { (told self.new).last ≡ last_read result }
        ensures cause { HasCause (told self.old).faults (told self.new).faults result };
}
