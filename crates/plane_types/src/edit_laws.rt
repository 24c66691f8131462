//! Laws of edits at keys: they lead from one table to another, and write few rows.

ghost use Rattle.std.specs.Prelude.{◌≡◌, Bool, false, List, Option, map};
ghost use Rattle.plane_types.specs.Edits.{AreFew, Differ, edit_at, with_edits};
ghost use Rattle.plane_types.specs.Keyed.{Descends, Enumerates, IsTotal, Rises, Say, names_key, row_at};

/// Edits at keys outside of which two functions agree lead from the rows of one to the rows of the
/// other, each at its place in the first list, from the greatest key to the least.
pub fn edits_lead<K, R>()
    ensures { (before : K → K → Bool)
        → IsTotal before
        → (f g : K → Option R) (xs ys : List R) (old : Enumerates before f xs)
        → Enumerates before g ys
        → (os : List (K × Option R))
        → Descends before os
        → Say before g os
        → ((q : K) → names_key before q os ≡ false → f q ≡ g q)
        → with_edits xs (map (edit_at before old.entries) os) ≡ ys }
{}

/// Where the two differ at each of these keys, no row is written that stands in both.
pub fn edits_are_few<K, R>()
    ensures { (before : K → K → Bool)
        → IsTotal before
        → (old new : List (K × R))
        → Rises before old
        → Rises before new
        → (os : List (K × Option R))
        → Descends before os
        → Say before (λ k. row_at before k new) os
        → Differ before old new os
        → AreFew before old new (map (edit_at before old) os) }
{}
