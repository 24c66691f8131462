//! Routers in the store.

ghost use Rattle.std.specs.Prelude.{◌≡◌, OnOk};
ghost use Rattle.keeper_sql.specs.Whole.{CommitsNothing, Runs};

use crate::column::{flag_at, flag_if, id_at, id_if, text_if};
use crate::listed::{list_at, list_text};
use crate::names::{Names, names_at};
use crate::statement::execute;
use crate::stored::Stored;
use crate::trouble::Trouble;
use api_types::{Gateway, Id, RouterRow};
use net_addr::{OutOfMemory, Text};
use sqlite::types::{ToSql, ValueRef};
use sqlite::{Alter, Row, Transaction};
use std::alloc::Global;

const UPSERT: &str = "INSERT INTO routers (id, project_id, name, description, admin_state_up, host,
    gateway_network_id, gateway_port_id, enable_snat, routes)
    VALUES (?1, ?2, ?3, ?4, ?5, ?6, ?7, ?8, ?9, ?10)
    ON CONFLICT (id) DO UPDATE SET project_id = excluded.project_id, name = excluded.name,
    description = excluded.description, admin_state_up = excluded.admin_state_up,
    host = excluded.host, gateway_network_id = excluded.gateway_network_id,
    gateway_port_id = excluded.gateway_port_id, enable_snat = excluded.enable_snat,
    routes = excluded.routes";

/// Deletes the row with an id.
pub(crate) const DELETE: &str = "DELETE FROM routers WHERE id = ?1";

// The gateway's columns: network, port and translation.
#[derive(Drop)]
struct GatewayTexts {
    network: Option<Text>,
    port: Option<Text>,
    snat: Option<u32>,
}

fn gateway_texts(alloc: Global, gateway: Option<Gateway>) -> Result<GatewayTexts, OutOfMemory> {
    match gateway {
        Some(gateway) => Ok(GatewayTexts {
            network: Some(gateway.network.print(alloc)?),
            port: Some(gateway.port.print(alloc)?),
            snat: Some(u32::from(gateway.snat)),
        }),
        None => Ok(GatewayTexts {
            network: None,
            port: None,
            snat: None,
        }),
    }
}

// The columns that are printed.
#[derive(Drop)]
struct RouterTexts {
    id: Text,
    gateway: GatewayTexts,
    routes: String,
}

fn router_texts(alloc: Global, row: &RouterRow) -> Result<RouterTexts, OutOfMemory> {
    Ok(RouterTexts {
        id: row.id.print(alloc)?,
        gateway: gateway_texts(alloc, row.gateway)?,
        routes: list_text(alloc, &row.routes)?,
    })
}

// The columns' values.
fn values<'r>(row: &'r RouterRow, texts: &'r RouterTexts) -> [ValueRef<'r>; 10] {
    [
        texts.id.as_str().to_sql(),
        row.project.as_str().to_sql(),
        row.name.as_str().to_sql(),
        row.description.as_str().to_sql(),
        row.up.to_sql(),
        row.host.as_ref().map(Text::as_str).to_sql(),
        texts.gateway.network.as_ref().map(Text::as_str).to_sql(),
        texts.gateway.port.as_ref().map(Text::as_str).to_sql(),
        texts.gateway.snat.to_sql(),
        texts.routes.as_str().to_sql(),
    ]
}

/// Replaces the row with its id, or adds it last.
pub(crate) fn write<S: Alter>(
    alloc: Global,
    to: &mut Transaction<'_, S>,
    row: &RouterRow,
) -> Result<(), Trouble>
    ensures same_reference { to.new.conn.ghost_name ≡ to.old.conn.ghost_name }
    ensures inside { CommitsNothing S.Store to.old.conn.now to.new.conn.now }
    ensures ran { OnOk result (Runs S.Store to.old.conn.now to.new.conn.now) }
{
    let texts = router_texts(alloc, row)?;
    execute(to, UPSERT, &values(row, &texts))
}

// A gateway has all three columns, and none has none.
fn gateway_of(
    network: Option<Id>,
    port: Option<Id>,
    snat: Option<bool>,
) -> Result<Option<Gateway>, Trouble> {
    match (network, port, snat) {
        (Some(network), Some(port), Some(snat)) => Ok(Some(Gateway {
            network,
            port,
            snat,
        })),
        (None, None, None) => Ok(None),
        _ => Err(Trouble::Fault),
    }
}

/// The gateway that the columns spell.
pub(crate) fn gateway_at(row: &Row) -> Result<Option<Gateway>, Trouble> {
    gateway_of(id_if(row, 6)?, id_if(row, 7)?, flag_if(row, 8)?)
}

impl Stored for RouterRow {
    fn select() -> &'static str {
        "SELECT id, project_id, name, description, admin_state_up, host, gateway_network_id,
            gateway_port_id, enable_snat, routes FROM routers ORDER BY place"
    }

    fn read(alloc: Global, row: &Row) -> Result<RouterRow, Trouble> {
        let id = id_at(row, 0)?;
        let up = flag_at(row, 4)?;
        let gateway = gateway_at(row)?;
        let names = names_at(row, 2, 3)?;
        let host = text_if(row, 5)?;
        let routes = list_at(alloc, row, 9)?;
        let Names {
            project,
            name,
            description,
        } = names;
        Ok(RouterRow {
            id,
            project,
            name,
            description,
            up,
            host,
            gateway,
            routes,
        })
    }
}
