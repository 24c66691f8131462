//! How many rows each project owns.

ghost use Rattle.std.specs.Prelude.{◌≡◌, ◌+◌, ◌-◌, ◌<◌, ◌^◌, List, ℕ, OnErr, OnOk};
ghost use Rattle.api_types.specs.Counts.{count_in, one_at};

use net_addr::{OutOfMemory, Text};
use std::collections::HashMap;

/// The count of a project.
pub(crate) fn count_of(counts: &HashMap<Text, usize>, project: &Text) -> usize
    ensures { result ≡ count_in counts.now project.now }
{
    match counts.get(project) {
        Some(count) => *count,
        None => 0,
    }
}

/// Adds one to the count of a project, or leaves all as it is.
pub(crate) fn count_one(
    counts: &mut HashMap<Text, usize>,
    project: &Text,
) -> Result<(), OutOfMemory>
    requires { count_in counts.old project.now < 2 ^ 63 }
    ensures ok { OnOk result ((other : List ℕ)
        → count_in counts.new other ≡ count_in counts.old other + one_at project.now other) }
    ensures err { OnErr result ((other : List ℕ)
        → count_in counts.new other ≡ count_in counts.old other) }
{
    if let Some(count) = counts.get_mut(project) {
        *count += 1;
        return Ok(());
    }
    counts.insert(project.clone()?, 1)?;
    Ok(())
}

/// Takes one from the count of a project. It allocates nothing: a count of none stays.
pub(crate) fn uncount_one(counts: &mut HashMap<Text, usize>, project: &Text)
    ensures { (other : List ℕ)
        → count_in counts.new other ≡ count_in counts.old other - one_at project.now other }
{
    if let Some(count) = counts.get_mut(project) {
        *count = count.saturating_sub(1);
    }
}

/// Takes one from the count of a project and adds one to that of another, or leaves all as it is.
pub(crate) fn move_one(
    counts: &mut HashMap<Text, usize>,
    from: &Text,
    to: &Text,
) -> Result<(), OutOfMemory>
    requires { count_in counts.old to.now < 2 ^ 63 }
    ensures ok { OnOk result ((other : List ℕ)
        → count_in counts.new other
        ≡ count_in counts.old other + one_at to.now other - one_at from.now other) }
    ensures err { OnErr result ((other : List ℕ)
        → count_in counts.new other ≡ count_in counts.old other) }
{
    if from == to {
        return Ok(());
    }
    count_one(counts, to)?;
    uncount_one(counts, from);
    Ok(())
}
