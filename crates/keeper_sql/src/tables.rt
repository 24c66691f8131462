//! The tables, and their format.

use crate::statement::execute;
use crate::trouble::Trouble;
use sqlite::{Alter, Row, Transaction};

/// The formats of a store.
#[derive(Clone, Copy, Debug, PartialEq, Eq)]
pub(crate) enum Format {
    /// All addresses are of version 4, and subnets have no modes.
    One,
    /// The format that is written.
    Two,
}

const TABLES: &str = "CREATE TABLE format (number INTEGER NOT NULL) STRICT;
CREATE TABLE projects (
    place INTEGER PRIMARY KEY,
    ordinal INTEGER NOT NULL UNIQUE,
    name TEXT NOT NULL,
    count INTEGER NOT NULL
) STRICT;
CREATE TABLE networks (
    place INTEGER PRIMARY KEY,
    id TEXT NOT NULL UNIQUE,
    project_id TEXT NOT NULL,
    name TEXT NOT NULL,
    description TEXT NOT NULL,
    admin_state_up INTEGER NOT NULL,
    network_type TEXT NOT NULL,
    physical_network TEXT,
    segmentation_id INTEGER
) STRICT;
CREATE TABLE ports (
    place INTEGER PRIMARY KEY,
    id TEXT NOT NULL UNIQUE,
    project_id TEXT NOT NULL,
    network_id TEXT NOT NULL,
    name TEXT NOT NULL,
    description TEXT NOT NULL,
    admin_state_up INTEGER NOT NULL,
    mac_address TEXT NOT NULL,
    fixed_ips TEXT NOT NULL,
    allowed_address_pairs TEXT NOT NULL,
    port_security_enabled INTEGER NOT NULL,
    security_groups TEXT NOT NULL,
    device_id TEXT NOT NULL,
    device_owner TEXT NOT NULL,
    host_id TEXT NOT NULL,
    vif_type TEXT NOT NULL,
    by_admin INTEGER NOT NULL
) STRICT;
CREATE TABLE security_groups (
    place INTEGER PRIMARY KEY,
    id TEXT NOT NULL UNIQUE,
    project_id TEXT NOT NULL,
    name TEXT NOT NULL,
    description TEXT NOT NULL,
    is_default INTEGER NOT NULL
) STRICT;
CREATE TABLE security_group_rules (
    place INTEGER PRIMARY KEY,
    id TEXT NOT NULL UNIQUE,
    project_id TEXT NOT NULL,
    security_group_id TEXT NOT NULL,
    description TEXT NOT NULL,
    direction TEXT NOT NULL,
    ethertype TEXT NOT NULL,
    protocol INTEGER,
    port_range_min INTEGER,
    port_range_max INTEGER,
    remote_ip_prefix TEXT,
    remote_group_id TEXT
) STRICT;
CREATE TABLE routers (
    place INTEGER PRIMARY KEY,
    id TEXT NOT NULL UNIQUE,
    project_id TEXT NOT NULL,
    name TEXT NOT NULL,
    description TEXT NOT NULL,
    admin_state_up INTEGER NOT NULL,
    host TEXT,
    gateway_network_id TEXT,
    gateway_port_id TEXT,
    enable_snat INTEGER,
    routes TEXT NOT NULL
) STRICT;
CREATE TABLE floating_ips (
    place INTEGER PRIMARY KEY,
    id TEXT NOT NULL UNIQUE,
    project_id TEXT NOT NULL,
    description TEXT NOT NULL,
    floating_network_id TEXT NOT NULL,
    own_port_id TEXT NOT NULL,
    floating_ip_address TEXT NOT NULL,
    port_id TEXT,
    fixed_ip_address TEXT,
    router_id TEXT
) STRICT;
CREATE TABLE rbac_policies (
    place INTEGER PRIMARY KEY,
    id TEXT NOT NULL UNIQUE,
    project_id TEXT NOT NULL,
    object_id TEXT NOT NULL,
    action TEXT NOT NULL,
    target_tenant TEXT NOT NULL
) STRICT;";

const SUBNETS: &str = "CREATE TABLE subnets (
    place INTEGER PRIMARY KEY,
    id TEXT NOT NULL UNIQUE,
    project_id TEXT NOT NULL,
    network_id TEXT NOT NULL,
    name TEXT NOT NULL,
    description TEXT NOT NULL,
    cidr TEXT NOT NULL,
    gateway_ip TEXT,
    allocation_pools TEXT NOT NULL,
    enable_dhcp INTEGER NOT NULL,
    ipv6_address_mode TEXT,
    ipv6_ra_mode TEXT,
    dns_nameservers TEXT NOT NULL,
    host_routes TEXT NOT NULL
) STRICT;";

// The subnets of format 1, set aside while their table is made anew.
const SET_ASIDE: &str = "CREATE TABLE subnets_of_format_1 (
    place INTEGER PRIMARY KEY,
    id TEXT NOT NULL,
    project_id TEXT NOT NULL,
    network_id TEXT NOT NULL,
    name TEXT NOT NULL,
    description TEXT NOT NULL,
    cidr TEXT NOT NULL,
    gateway_ip TEXT,
    allocation_pools TEXT NOT NULL,
    enable_dhcp INTEGER NOT NULL,
    dns_nameservers TEXT NOT NULL,
    host_routes TEXT NOT NULL
) STRICT;
INSERT INTO subnets_of_format_1 SELECT place, id, project_id, network_id, name, description, cidr,
    gateway_ip, allocation_pools, enable_dhcp, dns_nameservers, host_routes FROM subnets;
DROP TABLE subnets;";

// They have no modes, and each keeps its place.
const BROUGHT_BACK: &str = "INSERT INTO subnets SELECT place, id, project_id, network_id, name,
    description, cidr, gateway_ip, allocation_pools, enable_dhcp, NULL, NULL, dns_nameservers,
    host_routes FROM subnets_of_format_1;
DROP TABLE subnets_of_format_1;";

// All rows of a query. (Without clauses of the database: its callers have none either.)
fn query_all<S: Alter>(from: &mut Transaction<'_, S>, query: &str) -> Result<Vec<Row>, Trouble> {
    Ok(from.query_all(query, &[])?)
}

// The same of statements.
fn execute_batch<S: Alter>(to: &mut Transaction<'_, S>, statements: &str) -> Result<(), Trouble> {
    Ok(to.execute_batch(statements)?)
}

// Whether the store has a table of formats.
fn has_format<S: Alter>(to: &mut Transaction<'_, S>) -> Result<bool, Trouble> {
    let query = "SELECT name FROM sqlite_schema WHERE type = 'table' AND name = 'format'";
    Ok(!query_all(to, query)?.is_empty())
}

// Whether nothing stands in the store.
fn is_bare<S: Alter>(to: &mut Transaction<'_, S>) -> Result<bool, Trouble> {
    Ok(query_all(to, "SELECT name FROM sqlite_schema")?.is_empty())
}

// The format with a number, as a store says it.
fn format_of(number: i64) -> Result<Format, Trouble> {
    match number {
        1 => Ok(Format::One),
        2 => Ok(Format::Two),
        _ => Err(Trouble::Fault),
    }
}

// The one number of the format.
fn read_format<S: Alter>(to: &mut Transaction<'_, S>) -> Result<Format, Trouble> {
    let rows = query_all(to, "SELECT number FROM format")?;
    match rows.as_slice() {
        [row] => format_of(row.get(0)?),
        _ => Err(Trouble::Fault),
    }
}

/// Makes the tables, where nothing stands in the store, and tells the format.
pub(crate) fn make_tables<S: Alter>(to: &mut Transaction<'_, S>) -> Result<Format, Trouble> {
    if has_format(to)? {
        return read_format(to);
    }
    if !is_bare(to)? {
        return Err(Trouble::Fault);
    }
    execute_batch(to, TABLES)?;
    execute_batch(to, SUBNETS)?;
    execute(to, "INSERT INTO format (number) VALUES (2)", &[])?;
    Ok(Format::Two)
}

/// Makes a store of format 1 one of format 2. Only subnets have other columns there; a text of
/// version 4 is what it was.
pub(crate) fn renew_tables<S: Alter>(to: &mut Transaction<'_, S>) -> Result<(), Trouble> {
    execute_batch(to, SET_ASIDE)?;
    execute_batch(to, SUBNETS)?;
    execute_batch(to, BROUGHT_BACK)?;
    execute(to, "UPDATE format SET number = 2", &[])
}
