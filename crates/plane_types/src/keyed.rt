//! Rows that are looked up by a key.

ghost use Rattle.std.specs.Prelude.{◌≡◌, Bool, None, Some, false};

use std::hash::Hash;

/// A row that is looked up by a key, or by none.
pub(crate) trait Keyed: Drop {
    type Key: Eq + Hash + Copy;

    /// Whether a row has a key.
    ghost is_at: { Self.Key → Self → Bool };

    /// The row's key, where it has one.
    fn key(&self) -> Option<Self::Key>
        ensures { (k : Self.Key)
            → is_at k self.now ≡ elim result [ None ↦ false | Some own ↦ Self.Key.eq own k ] };
}
