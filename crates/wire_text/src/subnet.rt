//! Subnets.
ghost use Rattle.wire_text.specs.RowTrees.{subnet_tree};
ghost use Rattle.wire_text.specs.Typed.{IsSubnet};

use crate::refusal::TextRefusal;
use crate::value::{FromJson, ToJson, put, read_member};
use api_types::SubnetRow;
use net_addr::OutOfMemory;
use serde_json::{Map, Value};
use std::alloc::Global;

impl ToJson for SubnetRow {
    ghost tree = { subnet_tree };

    fn to_json(&self, alloc: Global) -> Result<Value, OutOfMemory> {
        let mut map = Map::new(alloc);
        put(&mut map, alloc, "address_mode", &self.address_mode)?;
        put(&mut map, alloc, "description", &self.description)?;
        put(&mut map, alloc, "dhcp", &self.dhcp)?;
        put(&mut map, alloc, "dns", &self.dns)?;
        put(&mut map, alloc, "gateway", &self.gateway)?;
        put(&mut map, alloc, "host_routes", &self.host_routes)?;
        put(&mut map, alloc, "id", &self.id)?;
        put(&mut map, alloc, "name", &self.name)?;
        put(&mut map, alloc, "network", &self.network)?;
        put(&mut map, alloc, "pools", &self.pools)?;
        put(&mut map, alloc, "prefix", &self.prefix)?;
        put(&mut map, alloc, "project", &self.project)?;
        put(&mut map, alloc, "ra_mode", &self.ra_mode)?;
        Ok(Value::Object(map))
    }
}

impl FromJson for SubnetRow {
    ghost fits = { IsSubnet };

    fn from_json(alloc: Global, value: &Value) -> Result<SubnetRow, TextRefusal> {
        let address_mode = read_member(alloc, value, "address_mode")?;
        let description = read_member(alloc, value, "description")?;
        let dhcp = read_member(alloc, value, "dhcp")?;
        let dns = read_member(alloc, value, "dns")?;
        let gateway = read_member(alloc, value, "gateway")?;
        let host_routes = read_member(alloc, value, "host_routes")?;
        let id = read_member(alloc, value, "id")?;
        let name = read_member(alloc, value, "name")?;
        let network = read_member(alloc, value, "network")?;
        let pools = read_member(alloc, value, "pools")?;
        let prefix = read_member(alloc, value, "prefix")?;
        let project = read_member(alloc, value, "project")?;
        let ra_mode = read_member(alloc, value, "ra_mode")?;
        Ok(SubnetRow {
            address_mode,
            description,
            dhcp,
            dns,
            gateway,
            host_routes,
            id,
            name,
            network,
            pools,
            prefix,
            project,
            ra_mode,
        })
    }
}
