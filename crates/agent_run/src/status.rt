//! The exit status of `agent`.

ghost use Rattle.std.specs.Prelude.{◌≡◌};
ghost use Rattle.agent_run.specs.Status.{status_code, unopened_status};

use openings::Unopened;

/// How a run of `agent` ended.
#[derive(Clone, Copy)]
pub(crate) enum Status {
    /// All rounds were made, and the line is written.
    Done,
    /// The arguments are none of `agent`.
    WrongWords,
    /// A write or a flush of the output failed.
    WriteFault,
    /// Memory ran out.
    OutOfMemory,
    /// The settings aren't in their grammar.
    BadSettings,
    /// The desk failed.
    Failed,
    /// A reply was none of a server.
    BadReply,
    /// The rows of a reply couldn't be taken.
    BadRows,
}

impl Status {
    /// Its number.
    pub(crate) fn code(self) -> u8
        ensures { result ≡ status_code self }
    {
        match self {
            Status::Done => 0,
            Status::WrongWords => 1,
            Status::WriteFault => 3,
            Status::OutOfMemory => 4,
            Status::BadSettings => 5,
            Status::Failed => 7,
            Status::BadReply => 9,
            Status::BadRows => 10,
        }
    }

    /// The status by why there are no settings.
    pub(crate) fn unopened(why: Unopened) -> Status
        ensures { result ≡ unopened_status why }
    {
        match why {
            Unopened::BadSettings => Status::BadSettings,
            Unopened::Inconsistent | Unopened::Failed => Status::Failed,
            Unopened::OutOfMemory => Status::OutOfMemory,
        }
    }
}
