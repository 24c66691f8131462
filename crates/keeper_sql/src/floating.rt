//! Floating addresses in the store.

ghost use Rattle.std.specs.Prelude.{◌≡◌, OnOk};
ghost use Rattle.keeper_sql.specs.Whole.{CommitsNothing, Runs};

use crate::column::{four_at, four_if, id_at, id_if, text_at};
use crate::statement::execute;
use crate::stored::Stored;
use crate::trouble::Trouble;
use api_types::{FloatingRow, Id, Target};
use net_addr::{Addr4, OutOfMemory, Text};
use sqlite::types::{ToSql, ValueRef};
use sqlite::{Alter, Row, Transaction};
use std::alloc::Global;

const UPSERT: &str = "INSERT INTO floating_ips (id, project_id, description, floating_network_id,
    own_port_id, floating_ip_address, port_id, fixed_ip_address, router_id)
    VALUES (?1, ?2, ?3, ?4, ?5, ?6, ?7, ?8, ?9)
    ON CONFLICT (id) DO UPDATE SET project_id = excluded.project_id,
    description = excluded.description, floating_network_id = excluded.floating_network_id,
    own_port_id = excluded.own_port_id, floating_ip_address = excluded.floating_ip_address,
    port_id = excluded.port_id, fixed_ip_address = excluded.fixed_ip_address,
    router_id = excluded.router_id";

/// Deletes the row with an id.
pub(crate) const DELETE: &str = "DELETE FROM floating_ips WHERE id = ?1";

// The association's columns: port, its address and router.
#[derive(Drop)]
struct TargetTexts {
    port: Option<Text>,
    fixed: Option<Text>,
    router: Option<Text>,
}

fn target_texts(alloc: Global, target: Option<Target>) -> Result<TargetTexts, OutOfMemory> {
    match target {
        Some(target) => Ok(TargetTexts {
            port: Some(target.port.print(alloc)?),
            fixed: Some(target.fixed.print(alloc)?),
            router: Some(target.router.print(alloc)?),
        }),
        None => Ok(TargetTexts {
            port: None,
            fixed: None,
            router: None,
        }),
    }
}

// The columns that are printed.
#[derive(Drop)]
struct FloatingTexts {
    id: Text,
    network: Text,
    own_port: Text,
    address: Text,
    target: TargetTexts,
}

fn floating_texts(alloc: Global, row: &FloatingRow) -> Result<FloatingTexts, OutOfMemory> {
    Ok(FloatingTexts {
        id: row.id.print(alloc)?,
        network: row.network.print(alloc)?,
        own_port: row.own_port.print(alloc)?,
        address: row.address.print(alloc)?,
        target: target_texts(alloc, row.target)?,
    })
}

// The columns' values.
fn values<'r>(row: &'r FloatingRow, texts: &'r FloatingTexts) -> [ValueRef<'r>; 9] {
    [
        texts.id.as_str().to_sql(),
        row.project.as_str().to_sql(),
        row.description.as_str().to_sql(),
        texts.network.as_str().to_sql(),
        texts.own_port.as_str().to_sql(),
        texts.address.as_str().to_sql(),
        texts.target.port.as_ref().map(Text::as_str).to_sql(),
        texts.target.fixed.as_ref().map(Text::as_str).to_sql(),
        texts.target.router.as_ref().map(Text::as_str).to_sql(),
    ]
}

/// Replaces the row with its id, or adds it last.
pub(crate) fn write<S: Alter>(
    alloc: Global,
    to: &mut Transaction<'_, S>,
    row: &FloatingRow,
) -> Result<(), Trouble>
    ensures same_reference { to.new.conn.ghost_name ≡ to.old.conn.ghost_name }
    ensures inside { CommitsNothing S.Store to.old.conn.now to.new.conn.now }
    ensures ran { OnOk result (Runs S.Store to.old.conn.now to.new.conn.now) }
{
    let texts = floating_texts(alloc, row)?;
    execute(to, UPSERT, &values(row, &texts))
}

// An association has all three columns, and none has none.
fn target_of(
    port: Option<Id>,
    fixed: Option<Addr4>,
    router: Option<Id>,
) -> Result<Option<Target>, Trouble> {
    match (port, fixed, router) {
        (Some(port), Some(fixed), Some(router)) => Ok(Some(Target {
            port,
            fixed,
            router,
        })),
        (None, None, None) => Ok(None),
        _ => Err(Trouble::Fault),
    }
}

impl Stored for FloatingRow {
    fn select() -> &'static str {
        "SELECT id, project_id, description, floating_network_id, own_port_id,
            floating_ip_address, port_id, fixed_ip_address, router_id
        FROM floating_ips ORDER BY place"
    }

    fn read(_alloc: Global, row: &Row) -> Result<FloatingRow, Trouble> {
        let id = id_at(row, 0)?;
        let network = id_at(row, 3)?;
        let own_port = id_at(row, 4)?;
        let address = four_at(row, 5)?;
        let target = target_of(id_if(row, 6)?, four_if(row, 7)?, id_if(row, 8)?)?;
        let project = text_at(row, 1)?;
        let description = text_at(row, 2)?;
        Ok(FloatingRow {
            id,
            project,
            description,
            network,
            own_port,
            address,
            target,
        })
    }
}
