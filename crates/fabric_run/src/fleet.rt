//! The hosts as a run sees them: names, tables and entries, borrowed.

ghost use Rattle.std.specs.Prelude.{◌≡◌, ◌<◌, Some, length, slice_get};
ghost use Rattle.fabric_run.specs.Views.{view_of_host};

use net_addr::Text;
use plane_types::{Entries, HostTables};

/// Hosts in order, each with its name, its tables and its tracked entries.
pub trait Fleet {
    ghost use Rattle.std.specs.Prelude.{◌<◌, List, Some, length, map, slice_get};
    ghost use Rattle.plane_types.specs.Hosts.{Host};

    ghost hosts: { Self → List Host };

    /// How many hosts there are.
    fn count(&self) -> usize
        ensures { result ≡ length (hosts self.now) };

    /// The name of a host.
    fn host(&self, at: usize) -> &Text
        requires { at < length (hosts self.now) }
        ensures { slice_get (map (λ (h : Host). h.name) (hosts self.now)) at ≡ Some result.now };

    /// The tables of a host.
    fn tables(&self, at: usize) -> &HostTables
        requires { at < length (hosts self.now) }
        ensures { slice_get (map (λ (h : Host). h.tables) (hosts self.now)) at
            ≡ Some result.now.lists };

    /// The tracked entries of a host.
    fn entries(&self, at: usize) -> &Entries
        requires { at < length (hosts self.now) }
        ensures { slice_get (map (λ (h : Host). h.entries) (hosts self.now)) at
            ≡ Some result.now.items };
}

/// A host of a fleet.
#[derive(Clone, Copy)]
pub(crate) struct HostAt<'f> {
    pub(crate) name: &'f Text,
    pub(crate) tables: &'f HostTables,
    pub(crate) entries: &'f Entries,
}

pub(crate) fn host_at<F: Fleet>(fleet: &F, at: usize) -> HostAt<'_>
    requires { at < length (F.hosts fleet.now) }
    ensures { slice_get (F.hosts fleet.now) at ≡ Some (view_of_host result) }
{
    HostAt {
        name: fleet.host(at),
        tables: fleet.tables(at),
        entries: fleet.entries(at),
    }
}
