//! Why a call of the outside is refused.

ghost use Rattle.std.specs.Prelude.{◌≡◌};
ghost use Rattle.keeper_core.specs.declared.refusal.OutsideRefusal.TheVariants.{Failed as HasFailed, OutOfMemory as Memory};

use net_addr::OutOfMemory;
use std::alloc::AllocError;
use std::error::Error;
use std::fmt;

/// A call of the outside failed, and a count of faults rose.
#[derive(Clone, Copy, Debug, PartialEq, Eq)]
pub struct Failed;

impl fmt::Display for Failed {
    fn fmt<W: fmt::Write>(&self, f: &mut fmt::Formatter<W>) -> fmt::Result {
        write!(f, "a call of the outside failed")
    }
}

impl Error for Failed {}

/// Why a call of the outside that takes memory was refused.
#[derive(Clone, Copy, Debug, PartialEq, Eq)]
pub enum OutsideRefusal {
    /// The call failed, and a count of faults rose.
    Failed,
    /// Memory could not be had.
    OutOfMemory,
}

/// Why a write was refused. A sink in memory grows, so memory may run out.
pub type SinkRefusal = OutsideRefusal;

/// Why a keeper refused.
pub type KeeperRefusal = OutsideRefusal;

/// Why a desk refused.
pub type DeskRefusal = OutsideRefusal;

impl fmt::Display for OutsideRefusal {
    fn fmt<W: fmt::Write>(&self, f: &mut fmt::Formatter<W>) -> fmt::Result {
        match self {
            OutsideRefusal::Failed => write!(f, "a call of the outside failed"),
            OutsideRefusal::OutOfMemory => write!(f, "memory could not be had"),
        }
    }
}

impl Error for OutsideRefusal {}

impl From<Failed> for OutsideRefusal {
    ghost from_gives = { λ _ e. e ≡ HasFailed };

    fn from(_e: Failed) -> OutsideRefusal {
        OutsideRefusal::Failed
    }
}

impl From<OutOfMemory> for OutsideRefusal {
    ghost from_gives = { λ _ e. e ≡ Memory };

    fn from(_e: OutOfMemory) -> OutsideRefusal {
        OutsideRefusal::OutOfMemory
    }
}

impl From<AllocError> for OutsideRefusal {
    ghost from_gives = { λ _ e. e ≡ Memory };

    fn from(_e: AllocError) -> OutsideRefusal {
        OutsideRefusal::OutOfMemory
    }
}
