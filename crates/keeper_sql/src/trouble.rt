//! Why the store gave or took no rows.

use net_addr::OutOfMemory;
use sqlite::{Error, ErrorCode};
use std::alloc::{AllocError, AllocFailed};

/// Why rows could not be read or written.
#[derive(Clone, Copy, Debug, PartialEq, Eq)]
pub(crate) enum Trouble {
    /// The store answered an error, or what it holds spells no rows.
    Fault,
    /// Memory could not be had.
    OutOfMemory,
}

impl From<Error> for Trouble {
    fn from(error: Error) -> Trouble {
        match error {
            Error::SqliteFailure(ErrorCode::OutOfMemory) => Trouble::OutOfMemory,
            _ => Trouble::Fault,
        }
    }
}

impl From<OutOfMemory> for Trouble {
    fn from(_e: OutOfMemory) -> Trouble {
        Trouble::OutOfMemory
    }
}

impl From<AllocError> for Trouble {
    fn from(_e: AllocError) -> Trouble {
        Trouble::OutOfMemory
    }
}

impl<T: Drop> From<AllocFailed<T>> for Trouble {
    fn from(_e: AllocFailed<T>) -> Trouble {
        Trouble::OutOfMemory
    }
}
