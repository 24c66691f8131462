//! Marks for numbers that stand one after the other.

ghost use Rattle.std.specs.Prelude.{◌≡◌, ◌+◌, ◌<◌, ◌≤◌, ◌||◌, ◌==◌, ℕ, false, true, length, slice_index_or};

/// Marks a number, where it is among those from the first on that have marks.
pub(crate) fn mark(marks: &mut [bool], first: u128, number: u128)
    ensures length { length marks.new ≡ length marks.old }
    ensures marked { (k : ℕ) → k < length marks.old
        → slice_index_or marks.new k false
        ≡ (slice_index_or marks.old k false || (number == first + k)) }
{
    if number < first {
        return;
    }
    let place = number - first;
    if place < marks.len() as u128 {
        marks[place as usize] = true;
    }
}

/// How many numbers are marked one after the other, from the first on.
pub(crate) fn count_marked(marks: &[bool]) -> usize
    ensures within { result ≤ length marks.now }
    ensures marked { (k : ℕ) → k < result → slice_index_or marks.now k false ≡ true }
    ensures stops { slice_index_or marks.now result false ≡ false }
{
    for place in 0..marks.len() {
        if !marks[place] {
            return place;
        }
    }
    marks.len()
}
