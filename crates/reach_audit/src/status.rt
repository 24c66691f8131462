//! The exit status of `audit`.

ghost use Rattle.std.specs.Prelude.{◌≡◌};
ghost use Rattle.reach_audit.specs.Status.{refused_status, status_code, unopened_status};

use keeper_core::DeskRefusal;
use net_addr::OutOfMemory;
use openings::Unopened;

/// How a run of `audit` ended.
#[derive(Clone, Copy)]
pub(crate) enum Status {
    /// Each table holds.
    Done,
    /// The arguments are none of `audit`.
    WrongWords,
    /// A write or a flush of the output failed.
    WriteFault,
    /// Memory ran out.
    OutOfMemory,
    /// The settings aren't in their grammar.
    BadSettings,
    /// The rows of the store break a clause of consistency.
    Inconsistent,
    /// The desk or the store failed.
    Failed,
    /// The wanted file isn't in its grammar, or names what isn't there.
    BadWanted,
    /// A table doesn't hold.
    Broken,
}

impl Status {
    /// Its number.
    pub(crate) fn code(self) -> u8
        ensures { result ≡ status_code self }
    {
        match self {
            Status::Done => 0,
            Status::WrongWords => 1,
            Status::WriteFault => 3,
            Status::OutOfMemory => 4,
            Status::BadSettings => 5,
            Status::Inconsistent => 6,
            Status::Failed => 7,
            Status::BadWanted => 12,
            Status::Broken => 13,
        }
    }
}

impl From<OutOfMemory> for Status {
    ghost use Rattle.reach_audit.specs.declared.status.Status.TheVariants.{OutOfMemory as Memory};

    ghost from_gives = { λ _ s. s ≡ Memory };

    fn from(_error: OutOfMemory) -> Status {
        Status::OutOfMemory
    }
}

impl From<DeskRefusal> for Status {
    ghost from_gives = { λ refusal s. s ≡ refused_status refusal };

    fn from(refusal: DeskRefusal) -> Status {
        match refusal {
            DeskRefusal::Failed => Status::Failed,
            DeskRefusal::OutOfMemory => Status::OutOfMemory,
        }
    }
}

impl From<Unopened> for Status {
    ghost from_gives = { λ why s. s ≡ unopened_status why };

    fn from(why: Unopened) -> Status {
        match why {
            Unopened::BadSettings => Status::BadSettings,
            Unopened::Inconsistent => Status::Inconsistent,
            Unopened::Failed => Status::Failed,
            Unopened::OutOfMemory => Status::OutOfMemory,
        }
    }
}
