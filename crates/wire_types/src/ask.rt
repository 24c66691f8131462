//! What an agent asks of a server.

/// What an agent asks next.
#[derive(Clone, Copy, Debug, PartialEq, Eq)]
pub enum WireAsk {
    /// The numbers of the kept changes.
    Version,
    /// A page of the rows, if they still have this version.
    Page { version: u64, number: u64 },
    /// The change with this number.
    Change { number: u64 },
}
