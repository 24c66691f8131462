//! The exit status of the command.

ghost use Rattle.std.specs.Prelude.{◌≡◌};
ghost use Rattle.dvr_run.specs.Status.{is_whole, status_code, unopened_status};

use openings::Unopened;

/// How a run of the command ended.
#[derive(Clone, Copy, Debug, PartialEq, Eq)]
pub(crate) enum Status {
    /// All lines of the input were answered.
    Done,
    /// The arguments are no command line.
    WrongWords,
    /// A read of the input failed.
    ReadFault,
    /// A write or a flush of the output failed.
    WriteFault,
    /// Memory ran out.
    OutOfMemory,
    /// The settings aren't in their grammar.
    BadSettings,
    /// The rows of the store break a clause of consistency.
    Inconsistent,
    /// The desk or the store failed.
    Failed,
    /// As many bytes were read as a run may read.
    Budget,
    /// A line asks for no event of the rows; those before it are answered.
    BadLine,
}

impl Status {
    /// Its number.
    pub(crate) fn code(self) -> u8
        ensures { result ≡ status_code self }
    {
        match self {
            Status::Done => 0,
            Status::WrongWords => 1,
            Status::ReadFault => 2,
            Status::WriteFault => 3,
            Status::OutOfMemory => 4,
            Status::BadSettings => 5,
            Status::Inconsistent => 6,
            Status::Failed => 7,
            Status::Budget => 8,
            Status::BadLine => 11,
        }
    }

    /// Whether each line is answered, to the last or to a bad one.
    pub(crate) fn is_whole(self) -> bool
        ensures { result ≡ is_whole self }
    {
        match self {
            Status::Done | Status::BadLine => true,
            Status::WrongWords
            | Status::ReadFault
            | Status::WriteFault
            | Status::OutOfMemory
            | Status::BadSettings
            | Status::Inconsistent
            | Status::Failed
            | Status::Budget => false,
        }
    }

    /// By why nothing was opened.
    pub(crate) fn of_unopened(why: Unopened) -> Status
        ensures { result ≡ unopened_status why }
    {
        match why {
            Unopened::BadSettings => Status::BadSettings,
            Unopened::Inconsistent => Status::Inconsistent,
            Unopened::Failed => Status::Failed,
            Unopened::OutOfMemory => Status::OutOfMemory,
        }
    }
}
