//! Rows of any kind in a row, as a page of a snapshot has them.

use crate::kind::{Kind, Row};
use net_addr::Seq;

/// A row with its kind.
#[derive(Drop)]
pub struct PageRow {
    pub kind: Kind,
    pub row: Row,
}

/// The rows of a page, kind by kind, and by place within a kind.
pub type PageRows = Seq<PageRow>;
