//! A change: items, each of which makes, changes or takes out one row.

use crate::kind::{Kind, Row};
use net_addr::Seq;

/// What becomes of one row: it is made, changed in its place or taken out.
#[derive(Drop)]
pub struct Item {
    pub kind: Kind,
    /// The row's place among the rows of its kind.
    pub place: usize,
    /// The row before, or none where it is made.
    pub before: Option<Row>,
    /// The row after, or none where it is taken out.
    pub after: Option<Row>,
}

/// Items that are put into rows one after the other.
pub type Change = Seq<Item>;
