//! What a server replies to an agent.

use api_types::{Change, PageRows};

/// The most bytes of a reply's body.
pub const BODY_LIMIT: usize = 67_108_864;

/// What a reply says to an agent. It tells apart only those refusals after which an agent does
/// something else.
#[derive(Drop)]
pub enum WireReply {
    /// The first and the last number of the kept changes; the last is the current version.
    Version {
        first: u64,
        last: u64,
    },
    /// A page of the rows at a version, and whether it is the last one.
    Page {
        version: u64,
        number: u64,
        last: bool,
        rows: PageRows,
    },
    /// The change with this number.
    Change {
        number: u64,
        items: Change,
    },
    /// The change isn't kept.
    NoMessage,
    /// The rows have another version.
    VersionMoved,
    /// The page is neither the first nor begun by a row.
    NoPage,
    /// Any other refusal.
    Refused,
}
