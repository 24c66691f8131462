//! Hosts that route by themselves, as a run sees them: names, tables, copies and entries, borrowed.

ghost use Rattle.std.specs.Prelude.{◌≡◌, ◌<◌, Some, length, slice_get};
ghost use Rattle.dvr_fabric.specs.Found.{IsHostOf, view_of_host};
ghost use Rattle.dvr_types.specs.DvrHosts.{dvr_hosts};

use dvr_types::{Copies, DvrTables};
use net_addr::Text;
use plane_types::{Entries, HostTables};
use std::marker::Model;

/// A host, borrowed, with its place among the hosts.
#[derive(Clone, Copy)]
pub(crate) struct HostAt<'d> {
    pub(crate) at: usize,
    pub(crate) name: &'d Text,
    pub(crate) tables: &'d HostTables,
    pub(crate) copies: &'d Copies,
    pub(crate) entries: &'d Entries,
}

/// Hosts in order, with the entries of each. Contracts see them as hosts of the definition.
#[derive(Drop)]
pub(crate) struct DvrFleet<'d> {
    hosts: &'d [DvrTables],
    entries: &'d [Entries],
}

impl<'d> Model for DvrFleet<'d> {
    ghost use Rattle.std.specs.Prelude.{◌≡◌, List, length};
    ghost use Rattle.dvr_types.specs.DvrFabric.{DvrHost};
    ghost use Rattle.dvr_types.specs.DvrHosts.{dvr_hosts};

    ghost Value = { List DvrHost };

    ghost view = { λ f. dvr_hosts f.hosts.now f.entries.now };

    ghost invariant = { λ f. length f.hosts.now ≡ length f.entries.now };
}

// The host at a place, with its entries.
fn host_of<'d>(hosts: &'d [DvrTables], entries: &'d [Entries], at: usize) -> HostAt<'d>
    requires lengths { length hosts.now ≡ length entries.now }
    requires within { at < length hosts.now }
    ensures here { IsHostOf (dvr_hosts hosts.now entries.now) result }
    ensures at { result.at ≡ at }
{
    let host = &hosts[at];
    let entries = &entries[at];
    HostAt {
        at,
        name: &host.host,
        tables: &host.base,
        copies: &host.copies,
        entries,
    }
}

impl<'d> DvrFleet<'d> {
    /// These hosts with their entries.
    pub(crate) fn of(hosts: &'d [DvrTables], entries: &'d [Entries]) -> DvrFleet<'d>
        requires { length hosts.now ≡ length entries.now }
        ensures { result ≡ dvr_hosts hosts.now entries.now }
    {
        DvrFleet { hosts, entries }
    }

    /// How many hosts there are.
    pub(crate) fn count(&self) -> usize
        ensures { result ≡ length self.now }
    {
        self.hosts.len()
    }

    /// The host at a place.
    pub(crate) fn host_at(&self, at: usize) -> HostAt<'d>
        requires { at < length self.now }
        ensures here { IsHostOf self.now result }
        ensures there { slice_get self.now at ≡ Some (view_of_host result) }
        ensures at { result.at ≡ at }
    {
        host_of(self.hosts, self.entries, at)
    }
}
