//! A store that is refused stays as it was: another program's, and one of format 1 with an address of
//! version 6. Which stores are refused is in the streams of tests/corpus/stores.
use keeper_core::Keeper;
use keeper_sql::SqlKeeper;
use sqlite::{Connection, MemStore};
use std::test::Fail;

/// The tables of a store of format 1: subnets have no modes.
const TABLES: &str = "CREATE TABLE format (number INTEGER NOT NULL) STRICT;
CREATE TABLE projects (place INTEGER PRIMARY KEY, ordinal INTEGER NOT NULL UNIQUE,
    name TEXT NOT NULL, count INTEGER NOT NULL) STRICT;
CREATE TABLE networks (place INTEGER PRIMARY KEY, id TEXT NOT NULL UNIQUE,
    project_id TEXT NOT NULL, name TEXT NOT NULL, description TEXT NOT NULL,
    admin_state_up INTEGER NOT NULL, network_type TEXT NOT NULL, physical_network TEXT,
    segmentation_id INTEGER) STRICT;
CREATE TABLE subnets (place INTEGER PRIMARY KEY, id TEXT NOT NULL UNIQUE,
    project_id TEXT NOT NULL, network_id TEXT NOT NULL, name TEXT NOT NULL,
    description TEXT NOT NULL, cidr TEXT NOT NULL, gateway_ip TEXT,
    allocation_pools TEXT NOT NULL, enable_dhcp INTEGER NOT NULL, dns_nameservers TEXT NOT NULL,
    host_routes TEXT NOT NULL) STRICT;
CREATE TABLE ports (place INTEGER PRIMARY KEY, id TEXT NOT NULL UNIQUE,
    project_id TEXT NOT NULL, network_id TEXT NOT NULL, name TEXT NOT NULL,
    description TEXT NOT NULL, admin_state_up INTEGER NOT NULL, mac_address TEXT NOT NULL,
    fixed_ips TEXT NOT NULL, allowed_address_pairs TEXT NOT NULL,
    port_security_enabled INTEGER NOT NULL, security_groups TEXT NOT NULL,
    device_id TEXT NOT NULL, device_owner TEXT NOT NULL, host_id TEXT NOT NULL,
    vif_type TEXT NOT NULL, by_admin INTEGER NOT NULL) STRICT;
CREATE TABLE security_groups (place INTEGER PRIMARY KEY, id TEXT NOT NULL UNIQUE,
    project_id TEXT NOT NULL, name TEXT NOT NULL, description TEXT NOT NULL,
    is_default INTEGER NOT NULL) STRICT;
CREATE TABLE security_group_rules (place INTEGER PRIMARY KEY, id TEXT NOT NULL UNIQUE,
    project_id TEXT NOT NULL, security_group_id TEXT NOT NULL, description TEXT NOT NULL,
    direction TEXT NOT NULL, ethertype TEXT NOT NULL, protocol INTEGER, port_range_min INTEGER,
    port_range_max INTEGER, remote_ip_prefix TEXT, remote_group_id TEXT) STRICT;
CREATE TABLE routers (place INTEGER PRIMARY KEY, id TEXT NOT NULL UNIQUE,
    project_id TEXT NOT NULL, name TEXT NOT NULL, description TEXT NOT NULL,
    admin_state_up INTEGER NOT NULL, host TEXT, gateway_network_id TEXT, gateway_port_id TEXT,
    enable_snat INTEGER, routes TEXT NOT NULL) STRICT;
CREATE TABLE floating_ips (place INTEGER PRIMARY KEY, id TEXT NOT NULL UNIQUE,
    project_id TEXT NOT NULL, description TEXT NOT NULL, floating_network_id TEXT NOT NULL,
    own_port_id TEXT NOT NULL, floating_ip_address TEXT NOT NULL, port_id TEXT,
    fixed_ip_address TEXT, router_id TEXT) STRICT;
CREATE TABLE rbac_policies (place INTEGER PRIMARY KEY, id TEXT NOT NULL UNIQUE,
    project_id TEXT NOT NULL, object_id TEXT NOT NULL, action TEXT NOT NULL,
    target_tenant TEXT NOT NULL) STRICT;
INSERT INTO format (number) VALUES (1)";

/// A subnet whose gateway is of version 6.
const SUBNET: &str =
    "INSERT INTO subnets (id, project_id, network_id, name, description, cidr, gateway_ip,
        allocation_pools, enable_dhcp, dns_nameservers, host_routes) VALUES
        ('00000001-0000-8000-8000-000000000007', 'a', '00000001-0000-8000-8000-000000000006',
        '', '', '10.0.0.0/24', '2001:db8::1', '[]', 0, '[]', '[]')";

const FORMAT: &str = "SELECT number FROM format";

// The one number that a query of a store gives.
fn number_in(conn: &mut Connection<MemStore>, query: &str) -> Result<i64, Fail> {
    let rows = conn.query_all(query, &[])?;
    match rows.as_slice() {
        [row] => Ok(row.get(0)?),
        _ => Err(Fail::new("not one number")),
    }
}

// An address of version 6 spells no row there, and the store is left as it was.
#[test]
fn refuses_version_six_in_format_one(rt: HostRuntime) -> Result<(), Fail> {
    let alloc = rt.alloc();
    let mut conn = Connection::open_in_memory(alloc)?;
    conn.execute_batch(TABLES)?;
    conn.execute(SUBNET, &[])?;
    let mut keeper = SqlKeeper::make(conn);
    assert!(rt; keeper.load(alloc).is_err());
    assert_eq!(rt; keeper.faults(), 1);
    let mut conn = keeper.into_conn();
    assert_eq!(rt; number_in(&mut conn, FORMAT)?, 1);
    Ok(())
}

// Another program's database, which is left as it was.
#[test]
fn refuses_another_database(rt: HostRuntime) -> Result<(), Fail> {
    let alloc = rt.alloc();
    let mut conn = Connection::open_in_memory(alloc)?;
    conn.execute("CREATE TABLE songs (title TEXT) STRICT", &[])?;
    let mut keeper = SqlKeeper::make(conn);
    assert!(rt; keeper.load(alloc).is_err());
    assert_eq!(rt; keeper.faults(), 1);
    let mut conn = keeper.into_conn();
    let tables = conn.query_all("SELECT name FROM sqlite_schema", &[])?;
    assert_eq!(rt; tables.len(), 1);
    Ok(())
}
