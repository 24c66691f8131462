//! Old rows as rows of today.

ghost use Rattle.std.specs.Prelude.{◌≡◌, [], map, IfOk, OnOk};
ghost use Rattle.old_rows.specs.Migrated.{migrated, migrated_port, migrated_router, migrated_rule, migrated_subnet};

use crate::migrates::Migrates;
use crate::port::OldPort;
use crate::router::OldRouter;
use crate::rows::OldRows;
use crate::rule::OldRule;
use crate::subnet::OldSubnet;
use crate::table::OldTable;
use api_types::Rows;
use net_addr::OutOfMemory;
use std::alloc::Global;

fn migrate_subnets(
    alloc: Global,
    old: &OldTable<OldSubnet>,
    rows: &mut Rows,
) -> Result<(), OutOfMemory>
    requires { rows.old.subnets ≡ [] }
    ensures { OnOk result
        (rows.new ≡ record rows.old { subnets = map migrated_subnet old.now }) }
{
    for row in old.rows() {
        rows.add_subnet(alloc, row.migrate(alloc)?)?;
    }
    Ok(())
}

fn migrate_ports(alloc: Global, old: &OldTable<OldPort>, rows: &mut Rows) -> Result<(), OutOfMemory>
    requires { rows.old.ports ≡ [] }
    ensures { OnOk result (rows.new ≡ record rows.old { ports = map migrated_port old.now }) }
{
    for row in old.rows() {
        rows.add_port(alloc, row.migrate(alloc)?)?;
    }
    Ok(())
}

fn migrate_rules(alloc: Global, old: &OldTable<OldRule>, rows: &mut Rows) -> Result<(), OutOfMemory>
    requires { rows.old.rules ≡ [] }
    ensures { OnOk result (rows.new ≡ record rows.old { rules = map migrated_rule old.now }) }
{
    for row in old.rows() {
        rows.add_rule(alloc, row.migrate(alloc)?)?;
    }
    Ok(())
}

fn migrate_routers(
    alloc: Global,
    old: &OldTable<OldRouter>,
    rows: &mut Rows,
) -> Result<(), OutOfMemory>
    requires { rows.old.routers ≡ [] }
    ensures { OnOk result
        (rows.new ≡ record rows.old { routers = map migrated_router old.now }) }
{
    for row in old.rows() {
        rows.add_router(alloc, row.migrate(alloc)?)?;
    }
    Ok(())
}

/// The same rows in the same order, with addresses of version 4 and no modes. Its cost grows with
/// the rows.
pub fn migrate(alloc: Global, old: &OldRows) -> Result<Rows, OutOfMemory>
    ensures { IfOk result (λ rows. rows ≡ migrated old.now) }
{
    let mut rows = old.same.copy(alloc)?;
    migrate_subnets(alloc, &old.subnets, &mut rows)?;
    migrate_ports(alloc, &old.ports, &mut rows)?;
    migrate_rules(alloc, &old.rules, &mut rows)?;
    migrate_routers(alloc, &old.routers, &mut rows)?;
    Ok(rows)
}
