//! Heads of requests, read from bytes that come in pieces (RFC 9112).
//!
//! `read_head` looks at the bytes that have come and tells a whole head with its parts, a refusal,
//! or that more is awaited. It stands on `httparse`, whose grammar its definitions cite. It
//! promises that the first prefix that says something decides, and that what is decided stays
//! decided, whatever follows. It allocates and copies nothing.
#![tactic(auto)]

mod empty_lines;
mod field_list;
mod head;
mod judging;
mod laws;
mod line_count;
mod values;
mod whole;

pub use empty_lines::skip_empty_lines;
pub use head::{HeadParts, HeadRead, Part, read_head, resume_head};
pub use laws::head_laws;
pub use values::read_number;

/// The most bytes of a head.
pub const HEAD_LIMIT: usize = 16384;
