//! Ports in the store.

ghost use Rattle.std.specs.Prelude.{◌≡◌, OnOk};
ghost use Rattle.keeper_sql.specs.Whole.{CommitsNothing, Runs};

use crate::column::{bytes_at, flag_at, id_at, mac_at, text_at};
use crate::listed::{list_at, list_text};
use crate::names::{Names, names_at};
use crate::statement::execute;
use crate::stored::Stored;
use crate::trouble::Trouble;
use api_types::{Id, PortRow, Vif};
use net_addr::{Mac, OutOfMemory, Text};
use sqlite::types::{ToSql, ValueRef};
use sqlite::{Alter, Row, Transaction};
use std::alloc::Global;

const UPSERT: &str = "INSERT INTO ports (id, project_id, network_id, name, description,
    admin_state_up, mac_address, fixed_ips, allowed_address_pairs, port_security_enabled,
    security_groups, device_id, device_owner, host_id, vif_type, by_admin)
    VALUES (?1, ?2, ?3, ?4, ?5, ?6, ?7, ?8, ?9, ?10, ?11, ?12, ?13, ?14, ?15, ?16)
    ON CONFLICT (id) DO UPDATE SET project_id = excluded.project_id,
    network_id = excluded.network_id, name = excluded.name, description = excluded.description,
    admin_state_up = excluded.admin_state_up, mac_address = excluded.mac_address,
    fixed_ips = excluded.fixed_ips, allowed_address_pairs = excluded.allowed_address_pairs,
    port_security_enabled = excluded.port_security_enabled,
    security_groups = excluded.security_groups, device_id = excluded.device_id,
    device_owner = excluded.device_owner, host_id = excluded.host_id,
    vif_type = excluded.vif_type, by_admin = excluded.by_admin";

/// Deletes the row with an id.
pub(crate) const DELETE: &str = "DELETE FROM ports WHERE id = ?1";

fn vif_word(vif: Vif) -> &'static str {
    match vif {
        Vif::Unbound => "unbound",
        Vif::Failed => "binding_failed",
        Vif::Ovs => "ovs",
    }
}

// How a port is bound.
fn vif_at(row: &Row, at: usize) -> Result<Vif, Trouble> {
    let word = bytes_at(row, at)?;
    if word == b"unbound".as_slice() {
        Ok(Vif::Unbound)
    } else if word == b"binding_failed".as_slice() {
        Ok(Vif::Failed)
    } else if word == b"ovs".as_slice() {
        Ok(Vif::Ovs)
    } else {
        Err(Trouble::Fault)
    }
}

// The columns that are printed.
#[derive(Drop)]
struct PortTexts {
    id: Text,
    network: Text,
    mac: Text,
    fixed: String,
    pairs: String,
    groups: String,
}

fn port_texts(alloc: Global, row: &PortRow) -> Result<PortTexts, OutOfMemory> {
    Ok(PortTexts {
        id: row.id.print(alloc)?,
        network: row.network.print(alloc)?,
        mac: row.mac.print(alloc)?,
        fixed: list_text(alloc, &row.fixed)?,
        pairs: list_text(alloc, &row.pairs)?,
        groups: list_text(alloc, &row.groups)?,
    })
}

// The columns' values.
fn values<'r>(row: &'r PortRow, texts: &'r PortTexts) -> [ValueRef<'r>; 16] {
    [
        texts.id.as_str().to_sql(),
        row.project.as_str().to_sql(),
        texts.network.as_str().to_sql(),
        row.name.as_str().to_sql(),
        row.description.as_str().to_sql(),
        row.up.to_sql(),
        texts.mac.as_str().to_sql(),
        texts.fixed.as_str().to_sql(),
        texts.pairs.as_str().to_sql(),
        row.secured.to_sql(),
        texts.groups.as_str().to_sql(),
        row.device.as_str().to_sql(),
        row.owner.as_str().to_sql(),
        row.host.as_str().to_sql(),
        vif_word(row.vif).to_sql(),
        row.by_admin.to_sql(),
    ]
}

/// Replaces the row with its id, or adds it last.
pub(crate) fn write<S: Alter>(
    alloc: Global,
    to: &mut Transaction<'_, S>,
    row: &PortRow,
) -> Result<(), Trouble>
    ensures same_reference { to.new.conn.ghost_name ≡ to.old.conn.ghost_name }
    ensures inside { CommitsNothing S.Store to.old.conn.now to.new.conn.now }
    ensures ran { OnOk result (Runs S.Store to.old.conn.now to.new.conn.now) }
{
    let texts = port_texts(alloc, row)?;
    execute(to, UPSERT, &values(row, &texts))
}

/// The columns of a port that own no memory.
#[derive(Clone, Copy)]
pub(crate) struct PortFacts {
    pub id: Id,
    pub network: Id,
    pub up: bool,
    pub mac: Mac,
    pub secured: bool,
    pub vif: Vif,
    pub by_admin: bool,
}

/// What a port's columns spell that own no memory.
pub(crate) fn facts_at(row: &Row) -> Result<PortFacts, Trouble> {
    Ok(PortFacts {
        id: id_at(row, 0)?,
        network: id_at(row, 2)?,
        up: flag_at(row, 5)?,
        mac: mac_at(row, 6)?,
        secured: flag_at(row, 9)?,
        vif: vif_at(row, 14)?,
        by_admin: flag_at(row, 15)?,
    })
}

/// The device of a port.
#[derive(Drop)]
pub(crate) struct Device {
    pub id: Text,
    pub owner: Text,
    pub host: Text,
}

/// The device that a port's columns name.
pub(crate) fn device_at(row: &Row) -> Result<Device, Trouble> {
    Ok(Device {
        id: text_at(row, 11)?,
        owner: text_at(row, 12)?,
        host: text_at(row, 13)?,
    })
}

impl Stored for PortRow {
    fn select() -> &'static str {
        "SELECT id, project_id, network_id, name, description, admin_state_up, mac_address,
            fixed_ips, allowed_address_pairs, port_security_enabled, security_groups, device_id,
            device_owner, host_id, vif_type, by_admin FROM ports ORDER BY place"
    }

    fn read(alloc: Global, row: &Row) -> Result<PortRow, Trouble> {
        let facts = facts_at(row)?;
        let names = names_at(row, 3, 4)?;
        let fixed = list_at(alloc, row, 7)?;
        let pairs = list_at(alloc, row, 8)?;
        let groups = list_at(alloc, row, 10)?;
        let Device { id, owner, host } = device_at(row)?;
        let Names {
            project,
            name,
            description,
        } = names;
        Ok(PortRow {
            id: facts.id,
            project,
            network: facts.network,
            name,
            description,
            up: facts.up,
            mac: facts.mac,
            fixed,
            pairs,
            secured: facts.secured,
            groups,
            device: id,
            owner,
            host,
            vif: facts.vif,
            by_admin: facts.by_admin,
        })
    }
}
