//! Rows of the kinds that have other addresses in a store of format 1.

use crate::column::{bytes_at, bytes_if, flag_at, four_if, id_at, spelled, text_at, text_if};
use crate::listed::list_at;
use crate::names::{Names, names_at};
use crate::old_listed::four_prefix_of;
use crate::port::{Device, device_at};
use crate::router::gateway_at;
use crate::stored::Stored;
use crate::trouble::Trouble;
use crate::{port, rule};
use api_types::{PortRow, RouterRow, RuleRow};
use old_rows::{OldPort, OldRouter, OldRule, OldSubnet, Prefix4};
use sqlite::Row;
use std::alloc::Global;

fn four_prefix_at(row: &Row, at: usize) -> Result<Prefix4, Trouble> {
    spelled(four_prefix_of(bytes_at(row, at)?))
}

fn four_prefix_if(row: &Row, at: usize) -> Result<Option<Prefix4>, Trouble> {
    match bytes_if(row, at)? {
        None => Ok(None),
        Some(bytes) => Ok(Some(spelled(four_prefix_of(bytes))?)),
    }
}

impl Stored for OldSubnet {
    fn select() -> &'static str {
        "SELECT id, project_id, network_id, name, description, cidr, gateway_ip, allocation_pools,
            enable_dhcp, dns_nameservers, host_routes FROM subnets ORDER BY place"
    }

    fn read(alloc: Global, row: &Row) -> Result<OldSubnet, Trouble> {
        let id = id_at(row, 0)?;
        let network = id_at(row, 2)?;
        let prefix = four_prefix_at(row, 5)?;
        let gateway = four_if(row, 6)?;
        let dhcp = flag_at(row, 8)?;
        let names = names_at(row, 3, 4)?;
        let pools = list_at(alloc, row, 7)?;
        let dns = list_at(alloc, row, 9)?;
        let host_routes = list_at(alloc, row, 10)?;
        let Names {
            project,
            name,
            description,
        } = names;
        Ok(OldSubnet {
            id,
            project,
            network,
            name,
            description,
            prefix,
            gateway,
            pools,
            dhcp,
            dns,
            host_routes,
        })
    }
}

impl Stored for OldPort {
    fn select() -> &'static str {
        PortRow::select()
    }

    fn read(alloc: Global, row: &Row) -> Result<OldPort, Trouble> {
        let facts = port::facts_at(row)?;
        let names = names_at(row, 3, 4)?;
        let fixed = list_at(alloc, row, 7)?;
        let pairs = list_at(alloc, row, 8)?;
        let groups = list_at(alloc, row, 10)?;
        let Device { id, owner, host } = device_at(row)?;
        let Names {
            project,
            name,
            description,
        } = names;
        Ok(OldPort {
            id: facts.id,
            project,
            network: facts.network,
            name,
            description,
            up: facts.up,
            mac: facts.mac,
            fixed,
            pairs,
            secured: facts.secured,
            groups,
            device: id,
            owner,
            host,
            vif: facts.vif,
            by_admin: facts.by_admin,
        })
    }
}

impl Stored for OldRule {
    fn select() -> &'static str {
        RuleRow::select()
    }

    fn read(_alloc: Global, row: &Row) -> Result<OldRule, Trouble> {
        let facts = rule::facts_at(row)?;
        let remote_prefix = four_prefix_if(row, 9)?;
        let project = text_at(row, 1)?;
        let description = text_at(row, 3)?;
        Ok(OldRule {
            id: facts.id,
            project,
            group: facts.group,
            description,
            direction: facts.direction,
            ethertype: facts.ethertype,
            protocol: facts.protocol,
            low: facts.low,
            high: facts.high,
            remote_prefix,
            remote_group: facts.remote_group,
        })
    }
}

impl Stored for OldRouter {
    fn select() -> &'static str {
        RouterRow::select()
    }

    fn read(alloc: Global, row: &Row) -> Result<OldRouter, Trouble> {
        let id = id_at(row, 0)?;
        let up = flag_at(row, 4)?;
        let gateway = gateway_at(row)?;
        let names = names_at(row, 2, 3)?;
        let host = text_if(row, 5)?;
        let routes = list_at(alloc, row, 9)?;
        let Names {
            project,
            name,
            description,
        } = names;
        Ok(OldRouter {
            id,
            project,
            name,
            description,
            up,
            host,
            gateway,
            routes,
        })
    }
}
