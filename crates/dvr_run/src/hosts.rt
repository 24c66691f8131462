//! The hosts of the settings, with the tables and copies that rows give, and what they track.

ghost use Rattle.std.specs.Prelude.{◌≡◌, IfOk, OnOk, length, map};
ghost use Rattle.std.specs.List.{IsDistinct};
ghost use Rattle.std.specs.Str.{bytes_eq};
ghost use Rattle.api_types.specs.Consistent.{IsConsistent};
ghost use Rattle.dvr_run.specs.Answers.{names_of};
ghost use Rattle.dvr_run.specs.Hosts.{first_hosts};
ghost use Rattle.dvr_types.specs.DvrVerdicts.{dvr_hosts_after, dvr_verdict};

use crate::keeping::keep_all;
use api_types::Rows;
use dvr_agent::wire_host;
use dvr_fabric::dvr_send;
use dvr_types::{DvrTables, DvrVerdict};
use net_addr::OutOfMemory;
use net_settings::Host;
use plane_types::{Entries, Event};
use std::alloc::Global;
use std::marker::Model;

/// Hosts with their tracked entries. Their names differ.
#[derive(Drop)]
pub(crate) struct Hosts {
    tables: Vec<DvrTables>,
    entries: Vec<Entries>,
}

impl Model for Hosts {
    ghost use Rattle.std.specs.Prelude.{◌≡◌, ◌≤◌, List, count_by, length};
    ghost use Rattle.dvr_types.specs.DvrFabric.{DvrHost, is_dvr_named};
    ghost use Rattle.dvr_types.specs.DvrHosts.{dvr_hosts};
    ghost use Rattle.net_addr.specs.Words.{Text as TheText};

    ghost Value = { List DvrHost };

    ghost view = { λ h. dvr_hosts h.tables.items h.entries.items };

    ghost invariant = { λ h. (length h.tables.items ≡ length h.entries.items)
        × ((name : TheText)
        → count_by (is_dvr_named name) (dvr_hosts h.tables.items h.entries.items) ≤ 1) };
}

impl Hosts {
    /// These hosts hold the rows, and have no entries yet. The cost grows with the hosts times the
    /// rows.
    pub(crate) fn of(alloc: Global, rows: &Rows, hosts: &[Host]) -> Result<Hosts, OutOfMemory>
        requires consistent { IsConsistent rows.now }
        requires names { IsDistinct bytes_eq (names_of hosts.now) }
        ensures { IfOk result (λ h. h ≡ first_hosts rows.now hosts.now) }
    {
        let mut tables = Vec::new(alloc);
        let mut entries = Vec::new(alloc);
        for host in hosts {
            tables.push(wire_host(alloc, rows, &host.name)?)?;
            entries.push(Entries::new(alloc))?;
        }
        Ok(Hosts { tables, entries })
    }

    /// What an event comes to; each host keeps the entries that it makes.
    pub(crate) fn send(&mut self, alloc: Global, event: &Event) -> Result<DvrVerdict, OutOfMemory>
        ensures verdict { IfOk result (λ v. v ≡ dvr_verdict self.old event.now) }
        ensures kept { OnOk result (self.new ≡ dvr_hosts_after self.old event.now) }
    {
        let verdict = dvr_send(
            alloc,
            self.tables.as_slice(),
            self.entries.as_slice(),
            event,
        )?;
        keep_all(
            self.entries.as_mut_slice(),
            verdict.verdict.fresh.as_slice(),
        )?;
        Ok(verdict)
    }
}
