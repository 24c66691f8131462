//! The exit status of the program.
ghost use Rattle.std.specs.Prelude.{◌≡◌};
ghost use Rattle.neutron_serve.specs.Status.{ended_status, status_code, unopened_status};

use http_session::SessionEnd;
use openings::Unopened;

/// How a run of the program ended.
#[derive(Clone, Copy, Debug, PartialEq, Eq)]
pub(crate) enum Status {
    /// The input, the connections or the drill was done.
    Done,
    /// The arguments are no command line.
    WrongWords,
    /// A read of the input failed.
    ReadFault,
    /// A write or a flush of the output failed.
    WriteFault,
    /// Memory ran out outside a reply.
    OutOfMemory,
    /// The settings aren't in their grammar.
    BadSettings,
    /// The rows of the store break a clause of consistency.
    Inconsistent,
    /// The desk failed, or the store before the first request.
    Failed,
    /// As many bytes were read as a session may read.
    Budget,
}

impl Status {
    /// Its number.
    pub(crate) fn code(self) -> u8
        ensures { result ≡ status_code self }
    {
        match self {
            Status::Done => 0,
            Status::WrongWords => 1,
            Status::ReadFault => 2,
            Status::WriteFault => 3,
            Status::OutOfMemory => 4,
            Status::BadSettings => 5,
            Status::Inconsistent => 6,
            Status::Failed => 7,
            Status::Budget => 8,
        }
    }

    /// By how a session ended.
    pub(crate) fn of_end(end: SessionEnd) -> Status
        ensures { result ≡ ended_status end }
    {
        match end {
            SessionEnd::Done => Status::Done,
            SessionEnd::ReadFault => Status::ReadFault,
            SessionEnd::WriteFault => Status::WriteFault,
            SessionEnd::OutOfMemory => Status::OutOfMemory,
            SessionEnd::Budget => Status::Budget,
        }
    }

    /// By why nothing was opened.
    pub(crate) fn of_unopened(why: Unopened) -> Status
        ensures { result ≡ unopened_status why }
    {
        match why {
            Unopened::BadSettings => Status::BadSettings,
            Unopened::Inconsistent => Status::Inconsistent,
            Unopened::Failed => Status::Failed,
            Unopened::OutOfMemory => Status::OutOfMemory,
        }
    }
}
