//! Each host keeps the entries that it made.

ghost use Rattle.std.specs.Prelude.{◌≡◌, ◌++◌, OnOk, length};
ghost use Rattle.std.specs.List.{filter_map};
ghost use Rattle.dvr_run.specs.Hosts.{items_of, kept_from};
ghost use Rattle.plane_types.specs.Verdicts.{made_at};

use net_addr::OutOfMemory;
use plane_types::{Entries, Made};

// Adds what the host at this place made.
fn add_made(entries: &mut Entries, place: usize, fresh: &[Made]) -> Result<(), OutOfMemory>
    ensures { OnOk result
        (entries.new.items ≡ entries.old.items ++ filter_map (made_at place) fresh.now) }
{
    entries.reserve(fresh.len())?;
    for made in fresh {
        if made.host == Some(place) {
            entries.add(made.entry);
        }
    }
    Ok(())
}

/// Adds at each host what it made. The cost grows with the hosts times the fresh entries.
pub(crate) fn keep_all(entries: &mut [Entries], fresh: &[Made]) -> Result<(), OutOfMemory>
    ensures length { length entries.new ≡ length entries.old }
    ensures kept { OnOk result
        (items_of entries.new ≡ kept_from 0 (items_of entries.old) fresh.now) }
{
    for place in 0..entries.len() {
        add_made(&mut entries[place], place, fresh)?;
    }
    Ok(())
}
