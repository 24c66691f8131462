//! A row as a call leaves it, and where the call leads.

use crate::draft::Draft;

/// A row as a call leaves it, with the rows and the change that lead there.
#[derive(Drop)]
pub struct PlannedRow<R> {
    pub draft: Draft,
    pub row: R,
}
