//! The rows to which a row of a store is added.

use crate::stored::AddedTo;
use api_types::{
    FloatingRow, GroupRow, NetworkRow, PolicyRow, PortRow, ProjectRow, RouterRow, Rows, RuleRow,
    SubnetRow,
};
use net_addr::OutOfMemory;
use old_rows::{OldPort, OldRouter, OldRows, OldRule, OldSubnet};
use std::alloc::Global;

impl AddedTo<Rows> for ProjectRow {
    fn add_to(self, alloc: Global, kept: &mut Rows) -> Result<bool, OutOfMemory> {
        kept.add_project(alloc, self)
    }
}

impl AddedTo<Rows> for NetworkRow {
    fn add_to(self, alloc: Global, kept: &mut Rows) -> Result<bool, OutOfMemory> {
        kept.add_network(alloc, self)
    }
}

impl AddedTo<Rows> for SubnetRow {
    fn add_to(self, alloc: Global, kept: &mut Rows) -> Result<bool, OutOfMemory> {
        kept.add_subnet(alloc, self)
    }
}

impl AddedTo<Rows> for PortRow {
    fn add_to(self, alloc: Global, kept: &mut Rows) -> Result<bool, OutOfMemory> {
        kept.add_port(alloc, self)
    }
}

impl AddedTo<Rows> for GroupRow {
    fn add_to(self, alloc: Global, kept: &mut Rows) -> Result<bool, OutOfMemory> {
        kept.add_group(alloc, self)
    }
}

impl AddedTo<Rows> for RuleRow {
    fn add_to(self, alloc: Global, kept: &mut Rows) -> Result<bool, OutOfMemory> {
        kept.add_rule(alloc, self)
    }
}

impl AddedTo<Rows> for RouterRow {
    fn add_to(self, alloc: Global, kept: &mut Rows) -> Result<bool, OutOfMemory> {
        kept.add_router(alloc, self)
    }
}

impl AddedTo<Rows> for FloatingRow {
    fn add_to(self, alloc: Global, kept: &mut Rows) -> Result<bool, OutOfMemory> {
        kept.add_floating(alloc, self)
    }
}

impl AddedTo<Rows> for PolicyRow {
    fn add_to(self, alloc: Global, kept: &mut Rows) -> Result<bool, OutOfMemory> {
        kept.add_policy(alloc, self)
    }
}

impl AddedTo<OldRows> for ProjectRow {
    fn add_to(self, alloc: Global, kept: &mut OldRows) -> Result<bool, OutOfMemory> {
        kept.add_project(alloc, self)
    }
}

impl AddedTo<OldRows> for NetworkRow {
    fn add_to(self, alloc: Global, kept: &mut OldRows) -> Result<bool, OutOfMemory> {
        kept.add_network(alloc, self)
    }
}

impl AddedTo<OldRows> for OldSubnet {
    fn add_to(self, _alloc: Global, kept: &mut OldRows) -> Result<bool, OutOfMemory> {
        kept.add_subnet(self)
    }
}

impl AddedTo<OldRows> for OldPort {
    fn add_to(self, _alloc: Global, kept: &mut OldRows) -> Result<bool, OutOfMemory> {
        kept.add_port(self)
    }
}

impl AddedTo<OldRows> for GroupRow {
    fn add_to(self, alloc: Global, kept: &mut OldRows) -> Result<bool, OutOfMemory> {
        kept.add_group(alloc, self)
    }
}

impl AddedTo<OldRows> for OldRule {
    fn add_to(self, _alloc: Global, kept: &mut OldRows) -> Result<bool, OutOfMemory> {
        kept.add_rule(self)
    }
}

impl AddedTo<OldRows> for OldRouter {
    fn add_to(self, _alloc: Global, kept: &mut OldRows) -> Result<bool, OutOfMemory> {
        kept.add_router(self)
    }
}

impl AddedTo<OldRows> for FloatingRow {
    fn add_to(self, alloc: Global, kept: &mut OldRows) -> Result<bool, OutOfMemory> {
        kept.add_floating(alloc, self)
    }
}

impl AddedTo<OldRows> for PolicyRow {
    fn add_to(self, alloc: Global, kept: &mut OldRows) -> Result<bool, OutOfMemory> {
        kept.add_policy(alloc, self)
    }
}
