//! The ranks of routes.

/// Which of two routes with equal lengths goes first.
#[derive(Clone, Copy, PartialEq, Eq)]
pub enum RouteRank {
    Connected,
    Extra,
    Default,
}
