//! Why bytes are no text of a change or of rows.

use net_addr::OutOfMemory;
use std::error::Error;
use std::fmt;

/// Why bytes give no change, or no rows.
#[derive(Clone, Copy, Debug, PartialEq, Eq)]
pub enum TextRefusal {
    /// No change, or no rows, are written so.
    BadText,
    /// Memory could not be had.
    OutOfMemory,
}

impl fmt::Display for TextRefusal {
    fn fmt<W: fmt::Write>(&self, f: &mut fmt::Formatter<W>) -> fmt::Result {
        match self {
            TextRefusal::BadText => write!(f, "nothing is written so"),
            TextRefusal::OutOfMemory => write!(f, "memory could not be had"),
        }
    }
}

impl Error for TextRefusal {}

impl From<OutOfMemory> for TextRefusal {
    ghost use Rattle.std.specs.Prelude.{◌≡◌};
    ghost use Rattle.wire_text.specs.declared.refusal.TextRefusal.TheVariants.{OutOfMemory as Memory};

    ghost from_gives = { λ _ e. e ≡ Memory };

    fn from(_: OutOfMemory) -> TextRefusal {
        TextRefusal::OutOfMemory
    }
}
