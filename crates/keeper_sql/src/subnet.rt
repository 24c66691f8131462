//! Subnets in the store.

ghost use Rattle.std.specs.Prelude.{◌≡◌, OnOk};
ghost use Rattle.keeper_sql.specs.Whole.{CommitsNothing, Runs};

use crate::column::{address_if, bytes_if, flag_at, id_at, prefix_at, spelled};
use crate::listed::{list_at, list_text};
use crate::names::{Names, names_at};
use crate::statement::execute;
use crate::stored::Stored;
use crate::trouble::Trouble;
use api_types::{Ipv6Mode, SubnetRow};
use net_addr::{Addr, OutOfMemory, Text};
use sqlite::types::{ToSql, ValueRef};
use sqlite::{Alter, Row, Transaction};
use std::alloc::Global;

const UPSERT: &str = "INSERT INTO subnets (id, project_id, network_id, name, description, cidr,
    gateway_ip, allocation_pools, enable_dhcp, ipv6_address_mode, ipv6_ra_mode, dns_nameservers,
    host_routes)
    VALUES (?1, ?2, ?3, ?4, ?5, ?6, ?7, ?8, ?9, ?10, ?11, ?12, ?13)
    ON CONFLICT (id) DO UPDATE SET project_id = excluded.project_id,
    network_id = excluded.network_id, name = excluded.name, description = excluded.description,
    cidr = excluded.cidr, gateway_ip = excluded.gateway_ip,
    allocation_pools = excluded.allocation_pools, enable_dhcp = excluded.enable_dhcp,
    ipv6_address_mode = excluded.ipv6_address_mode, ipv6_ra_mode = excluded.ipv6_ra_mode,
    dns_nameservers = excluded.dns_nameservers, host_routes = excluded.host_routes";

/// Deletes the row with an id.
pub(crate) const DELETE: &str = "DELETE FROM subnets WHERE id = ?1";

fn mode_word(mode: Option<Ipv6Mode>) -> Option<&'static str> {
    match mode {
        Some(Ipv6Mode::Slaac) => Some("slaac"),
        Some(Ipv6Mode::Stateful) => Some("dhcpv6-stateful"),
        Some(Ipv6Mode::Stateless) => Some("dhcpv6-stateless"),
        None => None,
    }
}

fn mode_of(word: &[u8]) -> Option<Ipv6Mode> {
    if word == b"slaac".as_slice() {
        Some(Ipv6Mode::Slaac)
    } else if word == b"dhcpv6-stateful".as_slice() {
        Some(Ipv6Mode::Stateful)
    } else if word == b"dhcpv6-stateless".as_slice() {
        Some(Ipv6Mode::Stateless)
    } else {
        None
    }
}

fn mode_if(row: &Row, at: usize) -> Result<Option<Ipv6Mode>, Trouble> {
    match bytes_if(row, at)? {
        None => Ok(None),
        Some(word) => Ok(Some(spelled(mode_of(word))?)),
    }
}

fn gateway_text(alloc: Global, gateway: Option<Addr>) -> Result<Option<Text>, OutOfMemory> {
    match gateway {
        Some(address) => Ok(Some(address.print(alloc)?)),
        None => Ok(None),
    }
}

fn str_if(text: &Option<Text>) -> Option<&str> {
    match text {
        Some(text) => Some(text.as_str()),
        None => None,
    }
}

// The columns that are printed.
#[derive(Drop)]
struct SubnetTexts {
    id: Text,
    network: Text,
    prefix: Text,
    gateway: Option<Text>,
    pools: String,
    dns: String,
    host_routes: String,
}

fn subnet_texts(alloc: Global, row: &SubnetRow) -> Result<SubnetTexts, OutOfMemory> {
    Ok(SubnetTexts {
        id: row.id.print(alloc)?,
        network: row.network.print(alloc)?,
        prefix: row.prefix.print(alloc)?,
        gateway: gateway_text(alloc, row.gateway)?,
        pools: list_text(alloc, &row.pools)?,
        dns: list_text(alloc, &row.dns)?,
        host_routes: list_text(alloc, &row.host_routes)?,
    })
}

// The columns' values.
fn values<'r>(row: &'r SubnetRow, texts: &'r SubnetTexts) -> [ValueRef<'r>; 13] {
    [
        texts.id.as_str().to_sql(),
        row.project.as_str().to_sql(),
        texts.network.as_str().to_sql(),
        row.name.as_str().to_sql(),
        row.description.as_str().to_sql(),
        texts.prefix.as_str().to_sql(),
        str_if(&texts.gateway).to_sql(),
        texts.pools.as_str().to_sql(),
        row.dhcp.to_sql(),
        mode_word(row.address_mode).to_sql(),
        mode_word(row.ra_mode).to_sql(),
        texts.dns.as_str().to_sql(),
        texts.host_routes.as_str().to_sql(),
    ]
}

/// Replaces the row with its id, or adds it last.
pub(crate) fn write<S: Alter>(
    alloc: Global,
    to: &mut Transaction<'_, S>,
    row: &SubnetRow,
) -> Result<(), Trouble>
    ensures same_reference { to.new.conn.ghost_name ≡ to.old.conn.ghost_name }
    ensures inside { CommitsNothing S.Store to.old.conn.now to.new.conn.now }
    ensures ran { OnOk result (Runs S.Store to.old.conn.now to.new.conn.now) }
{
    let texts = subnet_texts(alloc, row)?;
    execute(to, UPSERT, &values(row, &texts))
}

impl Stored for SubnetRow {
    fn select() -> &'static str {
        "SELECT id, project_id, network_id, name, description, cidr, gateway_ip, allocation_pools,
            enable_dhcp, ipv6_address_mode, ipv6_ra_mode, dns_nameservers, host_routes
        FROM subnets ORDER BY place"
    }

    fn read(alloc: Global, row: &Row) -> Result<SubnetRow, Trouble> {
        let id = id_at(row, 0)?;
        let network = id_at(row, 2)?;
        let prefix = prefix_at(row, 5)?;
        let gateway = address_if(row, 6)?;
        let dhcp = flag_at(row, 8)?;
        let address_mode = mode_if(row, 9)?;
        let ra_mode = mode_if(row, 10)?;
        let names = names_at(row, 3, 4)?;
        let pools = list_at(alloc, row, 7)?;
        let dns = list_at(alloc, row, 11)?;
        let host_routes = list_at(alloc, row, 12)?;
        let Names {
            project,
            name,
            description,
        } = names;
        Ok(SubnetRow {
            id,
            project,
            network,
            name,
            description,
            prefix,
            gateway,
            pools,
            dhcp,
            address_mode,
            ra_mode,
            dns,
            host_routes,
        })
    }
}
