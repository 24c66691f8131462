//! How the last read of a source ended.

ghost use Rattle.std.specs.Prelude.{◌≡◌};

use crate::refusal::Failed;

/// How the last read of a source ended.
#[derive(Clone, Copy, Debug, PartialEq, Eq)]
pub enum LastRead {
    /// Nothing was read yet.
    Unread,
    /// It gave some bytes.
    Bytes,
    /// It gave no byte: the input has ended.
    AtEnd,
    /// It failed.
    Failed,
}

impl LastRead {
    ghost use Rattle.keeper_core.specs.Ends.{last_read};

    /// How a read ended that answered this.
    pub(crate) fn of(answer: &Result<usize, Failed>) -> LastRead
        ensures { result ≡ last_read answer.now }
    {
        match answer {
            Ok(0) => LastRead::AtEnd,
            Ok(_) => LastRead::Bytes,
            Err(_) => LastRead::Failed,
        }
    }
}
