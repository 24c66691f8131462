//! A part of a list.

/// The items from a place on, up to the one before another place.
#[derive(Clone, Copy)]
pub(crate) struct Run {
    pub(crate) start: usize,
    pub(crate) end: usize,
}
