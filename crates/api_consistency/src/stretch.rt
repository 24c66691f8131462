//! Numbers in a row, and whether any two of them meet.

ghost use Rattle.std.specs.Prelude.{◌≡◌, true};
ghost use Rattle.std.specs.List.{IsDistinct};
ghost use Rattle.api_consistency.specs.Stretches as stretches;

/// The numbers from the first to the last that a holder has in a group.
#[derive(Clone, Copy, Debug, PartialEq, Eq, PartialOrd, Ord)]
pub(crate) struct Stretch {
    pub group: u128,
    pub first: u128,
    pub last: u128,
    pub holder: u128,
}

// Whether the second begins after the first has ended, or is of a later group.
fn is_before(a: &Stretch, b: &Stretch) -> bool
    ensures { result ≡ stretches.is_before a.now b.now }
{
    b.first <= b.last && (a.group < b.group || (a.group == b.group && a.last < b.first))
}

fn is_same(a: &Stretch, b: &Stretch) -> bool
    ensures { result ≡ stretches.is_same a.now b.now }
{
    a.group == b.group && a.first == b.first && a.last == b.last && a.holder == b.holder
}

fn goes_first(a: &Stretch, rest: &[Stretch]) -> bool
    ensures { result ≡ stretches.goes_first stretches.is_before a.now rest.now }
{
    match rest.first() {
        Some(b) => is_before(a, b),
        None => true,
    }
}

fn goes_first_or_again(a: &Stretch, rest: &[Stretch]) -> bool
    ensures { result ≡ stretches.goes_first stretches.is_before_or_same a.now rest.now }
{
    match rest.first() {
        Some(b) => is_before(a, b) || is_same(a, b),
        None => true,
    }
}

#[tactic(auto, unfolding(crate::specs::Stretches::follow))]
fn follow(sorted: &[Stretch]) -> bool
    ensures { result ≡ stretches.follow stretches.is_before sorted.now }
{
    let mut left = sorted;
    while let Some((a, rest)) = left.split_first() {
        if !goes_first(a, rest) {
            return false;
        }
        left = rest;
    }
    true
}

#[tactic(auto, unfolding(crate::specs::Stretches::follow))]
fn follow_or_again(sorted: &[Stretch]) -> bool
    ensures { result ≡ stretches.follow stretches.is_before_or_same sorted.now }
{
    let mut left = sorted;
    while let Some((a, rest)) = left.split_first() {
        if !goes_first_or_again(a, rest) {
            return false;
        }
        left = rest;
    }
    true
}

/// Whether no two stretches meet. False may also be answered where a stretch is empty. Its cost
/// grows with their number and its logarithm.
pub(crate) fn are_apart(mut items: Vec<Stretch>) -> bool
    ensures { result ≡ true → IsDistinct stretches.meet items.items }
{
    items.sort_unstable();
    follow(items.as_slice())
}

/// Whether no two stretches of different holders meet. False may also be answered where a stretch
/// is empty, or two of one holder meet and aren't the same. Its cost grows with their number and
/// its logarithm.
pub(crate) fn are_apart_by_holder(mut items: Vec<Stretch>) -> bool
    ensures { result ≡ true → IsDistinct stretches.clash items.items }
{
    items.sort_unstable();
    follow_or_again(items.as_slice())
}
