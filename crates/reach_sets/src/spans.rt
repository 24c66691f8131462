//! Spans of numbers.

use net_addr::Seq;

/// Numbers from the first to the last.
#[derive(Clone, Copy, Debug, PartialEq, Eq)]
pub struct Span {
    pub first: u32,
    pub last: u32,
}

/// Spans in ascending order.
pub type Spans = Seq<Span>;
