//! Where the parts of one request stand in the buffer.

use http_heads::{HeadParts, Part};

/// Where the parts of one request stand in the bytes that begin with it.
#[derive(Clone, Copy, Debug, PartialEq, Eq)]
pub struct Request {
    /// The parts of the head.
    pub parts: HeadParts,
    /// The body. The request ends where it does.
    pub body: Part,
    /// Whether the connection ends after the reply.
    pub close: bool,
}
