//! What bodies give of each kind: an attribute is absent, null or a value.

use crate::group::{Direction, Ethertype};
use crate::id::Id;
use crate::policy::Action;
use crate::subnet::{Ipv6Mode, Routes};
use net_addr::{Addr, Addr4, Mac, Prefix, Seq, Spans, Text};

/// What a body says of an attribute.
#[derive(Drop)]
pub enum Given<T> {
    /// Nothing.
    Absent,
    /// The attribute is null.
    Null,
    /// The attribute has this value.
    Is(T),
}

/// The kind of a segment (`provider:network_type`).
#[derive(Clone, Copy, Debug, PartialEq, Eq)]
pub enum NetworkType {
    Local,
    Flat,
    Vlan,
    Vxlan,
}

/// The version of IP of a subnet (`ip_version`).
#[derive(Clone, Copy, Debug, PartialEq, Eq)]
pub enum IpVersion {
    V4,
    V6,
}

/// The type of a virtual card (`binding:vnic_type`).
#[derive(Clone, Copy, Debug, PartialEq, Eq)]
pub enum VnicType {
    Normal,
}

/// What a policy speaks of (`object_type`).
#[derive(Clone, Copy, Debug, PartialEq, Eq)]
pub enum ObjectType {
    Network,
}

/// An address that a port is to have: a named one, any of a subnet, or a named one of a subnet. At
/// least one of the two is there.
#[derive(Clone, Copy, Debug, PartialEq, Eq)]
pub struct FixedAsked {
    pub address: Option<Addr>,
    pub subnet: Option<Id>,
}

/// An allowed address pair as it is asked for. Without a MAC address the port's own is meant.
#[derive(Clone, Copy, Debug, PartialEq, Eq)]
pub struct PairAsked {
    pub mac: Option<Mac>,
    pub prefix: Prefix,
}

/// A gateway as it is asked for (`external_gateway_info`).
#[derive(Clone, Copy, Debug, PartialEq, Eq)]
pub struct GatewayAsked {
    pub network: Id,
    pub snat: Option<bool>,
}

/// The attributes of a network that a body may have.
#[derive(Drop)]
pub struct NetworkForm {
    pub name: Given<Text>,
    pub description: Given<Text>,
    pub admin_state_up: Given<bool>,
    pub shared: Given<bool>,
    pub router_external: Given<bool>,
    pub provider_network_type: Given<NetworkType>,
    pub provider_physical_network: Given<Text>,
    pub provider_segmentation_id: Given<u32>,
    pub project_id: Given<Text>,
    pub tenant_id: Given<Text>,
}

/// The attributes of a subnet that a body may have.
#[derive(Drop)]
pub struct SubnetForm {
    pub name: Given<Text>,
    pub description: Given<Text>,
    pub network_id: Given<Id>,
    pub ip_version: Given<IpVersion>,
    pub ipv6_address_mode: Given<Ipv6Mode>,
    pub ipv6_ra_mode: Given<Ipv6Mode>,
    pub cidr: Given<Prefix>,
    pub gateway_ip: Given<Addr>,
    pub allocation_pools: Given<Spans>,
    pub enable_dhcp: Given<bool>,
    pub dns_nameservers: Given<Seq<Addr>>,
    pub host_routes: Given<Routes>,
}

/// The attributes of a port that a body may have.
#[derive(Drop)]
pub struct PortForm {
    pub name: Given<Text>,
    pub description: Given<Text>,
    pub admin_state_up: Given<bool>,
    pub network_id: Given<Id>,
    pub mac_address: Given<Mac>,
    pub fixed_ips: Given<Seq<FixedAsked>>,
    pub allowed_address_pairs: Given<Seq<PairAsked>>,
    pub port_security_enabled: Given<bool>,
    pub security_groups: Given<Seq<Id>>,
    pub device_id: Given<Text>,
    pub device_owner: Given<Text>,
    pub binding_host_id: Given<Text>,
    pub binding_vnic_type: Given<VnicType>,
    pub project_id: Given<Text>,
    pub tenant_id: Given<Text>,
}

/// The attributes of a security group that a body may have.
#[derive(Drop)]
pub struct GroupForm {
    pub name: Given<Text>,
    pub description: Given<Text>,
    pub project_id: Given<Text>,
    pub tenant_id: Given<Text>,
}

/// The attributes of a rule of a security group that a body may have.
#[derive(Drop)]
pub struct RuleForm {
    pub description: Given<Text>,
    pub security_group_id: Given<Id>,
    pub direction: Given<Direction>,
    pub ethertype: Given<Ethertype>,
    pub protocol: Given<u8>,
    pub port_range_min: Given<u16>,
    pub port_range_max: Given<u16>,
    pub remote_ip_prefix: Given<Prefix>,
    pub remote_group_id: Given<Id>,
}

/// The attributes of a router that a body may have.
#[derive(Drop)]
pub struct RouterForm {
    pub name: Given<Text>,
    pub description: Given<Text>,
    pub admin_state_up: Given<bool>,
    pub external_gateway_info: Given<GatewayAsked>,
    pub routes: Given<Routes>,
    pub project_id: Given<Text>,
    pub tenant_id: Given<Text>,
}

/// The attributes of a floating address that a body may have.
#[derive(Drop)]
pub struct FloatingForm {
    pub description: Given<Text>,
    pub floating_network_id: Given<Id>,
    pub floating_ip_address: Given<Addr4>,
    pub port_id: Given<Id>,
    pub fixed_ip_address: Given<Addr4>,
    pub project_id: Given<Text>,
    pub tenant_id: Given<Text>,
}

/// The attributes of an RBAC policy that a body may have.
#[derive(Drop)]
pub struct PolicyForm {
    pub object_type: Given<ObjectType>,
    pub object_id: Given<Id>,
    pub action: Given<Action>,
    pub target_tenant: Given<Text>,
    pub project_id: Given<Text>,
    pub tenant_id: Given<Text>,
}

/// The attributes of a row of some kind.
pub enum Form {
    Network(NetworkForm),
    Subnet(SubnetForm),
    Port(PortForm),
    Group(GroupForm),
    Rule(RuleForm),
    Router(RouterForm),
    Floating(FloatingForm),
    Policy(PolicyForm),
}

impl Drop for Form {
    fn drop(self) {
        match self {
            Form::Network(_) => {}
            Form::Subnet(_) => {}
            Form::Port(_) => {}
            Form::Group(_) => {}
            Form::Rule(_) => {}
            Form::Router(_) => {}
            Form::Floating(_) => {}
            Form::Policy(_) => {}
        }
    }
}
