//! The old rows of all kinds.

ghost use Rattle.std.specs.Prelude.{◌≡◌, [], ◌∷◌, ◌++◌, if◌then◌else◌, OnErr, IfOk};
ghost use Rattle.api_types.specs.Rows.{project_id};
ghost use Rattle.api_types.specs.Table.{is_new};
ghost use Rattle.old_rows.specs.OldLists.{no_old_rows};

use crate::port::OldPort;
use crate::router::OldRouter;
use crate::rule::OldRule;
use crate::subnet::OldSubnet;
use crate::table::OldTable;
use api_types::{FloatingRow, GroupRow, NetworkRow, PolicyRow, ProjectRow, Rows};
use net_addr::OutOfMemory;
use std::alloc::Global;
use std::marker::Model;

/// The old rows of all kinds. Contracts see them as a record of nine lists in order of creation.
#[derive(Drop)]
pub struct OldRows {
    // Kinds whose rows are what they were.
    pub(crate) same: Rows,
    pub(crate) subnets: OldTable<OldSubnet>,
    pub(crate) ports: OldTable<OldPort>,
    pub(crate) rules: OldTable<OldRule>,
    pub(crate) routers: OldTable<OldRouter>,
}

impl Model for OldRows {
    ghost use Rattle.old_rows.specs.OldLists.{OldLists, HasNoOther};

    ghost Value = { OldLists };

    ghost view = { λ r.
        record {
          projects = r.same.projects;
          networks = r.same.networks;
          subnets = r.subnets;
          ports = r.ports;
          groups = r.same.groups;
          rules = r.rules;
          routers = r.routers;
          floatings = r.same.floatings;
          policies = r.same.policies;
        } };

    ghost invariant = { λ r. HasNoOther r.same };
}

impl OldRows {
    /// No rows.
    pub fn empty(alloc: Global) -> Result<OldRows, OutOfMemory>
        ensures { IfOk result (λ r. r ≡ no_old_rows) }
    {
        Ok(OldRows {
            same: Rows::empty(alloc)?,
            subnets: OldTable::new(alloc),
            ports: OldTable::new(alloc),
            rules: OldTable::new(alloc),
            routers: OldTable::new(alloc),
        })
    }

    /// Adds a project last, where none has its id, and answers whether it did. Otherwise nothing
    /// changes.
    pub fn add_project(&mut self, alloc: Global, row: ProjectRow) -> Result<bool, OutOfMemory>
        ensures added { IfOk result (λ added. (added ≡ is_new project_id row self.old.projects)
            × (self.new ≡ (if added then
            record self.old { projects = self.old.projects ++ row ∷ [] } else self.old))) }
        ensures err { OnErr result (self.new ≡ self.old) }
    {
        self.same.add_project(alloc, row)
    }

    /// Adds a network last, where none has its id, and answers whether it did. Otherwise nothing
    /// changes.
    pub fn add_network(&mut self, alloc: Global, row: NetworkRow) -> Result<bool, OutOfMemory>
        ensures added { IfOk result (λ added. (added ≡ is_new (λ r. r.id) row self.old.networks)
            × (self.new ≡ (if added then
            record self.old { networks = self.old.networks ++ row ∷ [] } else self.old))) }
        ensures err { OnErr result (self.new ≡ self.old) }
    {
        self.same.add_network(alloc, row)
    }

    /// Adds a subnet last, where none has its id, and answers whether it did. Otherwise nothing
    /// changes.
    pub fn add_subnet(&mut self, row: OldSubnet) -> Result<bool, OutOfMemory>
        ensures added { IfOk result (λ added. (added ≡ is_new (λ r. r.id) row self.old.subnets)
            × (self.new ≡ (if added then
            record self.old { subnets = self.old.subnets ++ row ∷ [] } else self.old))) }
        ensures err { OnErr result (self.new ≡ self.old) }
    {
        self.subnets.add(row)
    }

    /// Adds a port last, where none has its id, and answers whether it did. Otherwise nothing
    /// changes.
    pub fn add_port(&mut self, row: OldPort) -> Result<bool, OutOfMemory>
        ensures added { IfOk result (λ added. (added ≡ is_new (λ r. r.id) row self.old.ports)
            × (self.new ≡ (if added then
            record self.old { ports = self.old.ports ++ row ∷ [] } else self.old))) }
        ensures err { OnErr result (self.new ≡ self.old) }
    {
        self.ports.add(row)
    }

    /// Adds a security group last, where none has its id, and answers whether it did. Otherwise
    /// nothing changes.
    pub fn add_group(&mut self, alloc: Global, row: GroupRow) -> Result<bool, OutOfMemory>
        ensures added { IfOk result (λ added. (added ≡ is_new (λ r. r.id) row self.old.groups)
            × (self.new ≡ (if added then
            record self.old { groups = self.old.groups ++ row ∷ [] } else self.old))) }
        ensures err { OnErr result (self.new ≡ self.old) }
    {
        self.same.add_group(alloc, row)
    }

    /// Adds a rule last, where none has its id, and answers whether it did. Otherwise nothing
    /// changes.
    pub fn add_rule(&mut self, row: OldRule) -> Result<bool, OutOfMemory>
        ensures added { IfOk result (λ added. (added ≡ is_new (λ r. r.id) row self.old.rules)
            × (self.new ≡ (if added then
            record self.old { rules = self.old.rules ++ row ∷ [] } else self.old))) }
        ensures err { OnErr result (self.new ≡ self.old) }
    {
        self.rules.add(row)
    }

    /// Adds a router last, where none has its id, and answers whether it did. Otherwise nothing
    /// changes.
    pub fn add_router(&mut self, row: OldRouter) -> Result<bool, OutOfMemory>
        ensures added { IfOk result (λ added. (added ≡ is_new (λ r. r.id) row self.old.routers)
            × (self.new ≡ (if added then
            record self.old { routers = self.old.routers ++ row ∷ [] } else self.old))) }
        ensures err { OnErr result (self.new ≡ self.old) }
    {
        self.routers.add(row)
    }

    /// Adds a floating address last, where none has its id, and answers whether it did. Otherwise
    /// nothing changes.
    pub fn add_floating(&mut self, alloc: Global, row: FloatingRow) -> Result<bool, OutOfMemory>
        ensures added { IfOk result (λ added. (added ≡ is_new (λ r. r.id) row self.old.floatings)
            × (self.new ≡ (if added then
            record self.old { floatings = self.old.floatings ++ row ∷ [] } else self.old))) }
        ensures err { OnErr result (self.new ≡ self.old) }
    {
        self.same.add_floating(alloc, row)
    }

    /// Adds a policy last, where none has its id, and answers whether it did. Otherwise nothing
    /// changes.
    pub fn add_policy(&mut self, alloc: Global, row: PolicyRow) -> Result<bool, OutOfMemory>
        ensures added { IfOk result (λ added. (added ≡ is_new (λ r. r.id) row self.old.policies)
            × (self.new ≡ (if added then
            record self.old { policies = self.old.policies ++ row ∷ [] } else self.old))) }
        ensures err { OnErr result (self.new ≡ self.old) }
    {
        self.same.add_policy(alloc, row)
    }
}
