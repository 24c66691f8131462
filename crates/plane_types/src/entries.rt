//! Tracked entries of a host.

ghost use Rattle.std.specs.Prelude.{◌≡◌, ◌≤◌, []};
ghost use Rattle.std.specs.List.{filter};
ghost use Rattle.plane_types.specs.Attached.{is_attached as is_attached_at};

use crate::entry::Entry;
use crate::spare_vec::SpareVec;
use crate::tables::HostTables;

/// Entries in the order in which they were made.
pub type Entries = SpareVec<Entry>;

/// The entries that one event has made so far.
pub type Fresh = Entries;

impl SpareVec<Entry> {
    /// Drops all entries; their room stays.
    pub fn clear(&mut self)
        ensures items { self.new.items ≡ [] }
        ensures spare { self.old.spare ≤ self.new.spare }
    {
        self.items.clear();
    }

    /// Drops the entries of ports without a tap by these tables, and of routers that they haven't.
    /// It allocates nothing. Its cost grows with the entries.
    pub fn keep_attached(&mut self, tables: &HostTables)
        ensures items { self.new.items ≡ filter (is_attached_at tables.now.lists) self.old.items }
        ensures spare { self.old.spare ≤ self.new.spare }
    {
        self.items.retain(|entry| is_attached(tables, entry));
    }
}

// Whether an entry is of a tap or of a router of these tables.
fn is_attached(tables: &HostTables, entry: &Entry) -> bool
    ensures { result ≡ is_attached_at tables.now.lists entry.now }
{
    match *entry {
        Entry::Flow { port, .. } => tables.has_tap(port),
        Entry::Snat { router, .. } => tables.has_router(router),
    }
}
