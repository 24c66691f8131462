//! The attributes that bodies have, kind by kind.
ghost use Rattle.std.specs.Prelude.{◌≡◌, map};
ghost use Rattle.neutron_json.specs.Attributes.{attribute_of};
ghost use Rattle.neutron_json.specs.Tables.{attributes_of, interface_attributes, host_attributes, deliver_attributes, port_event_attributes, wire_event_attributes};

use crate::attribute::Attribute;
use crate::attribute::Needs::{Required, RequiredOrNull, Value, ValueOrNull};
use crate::attribute::ReadIn::{Both, Creation, Update};
use api_types::Kind;
use json_values::GrammarName::{
    AddressMode, AddressPairs, AllocationPools, AnyAddress, CardMac, ChangeNumber, DeviceOwner,
    EtherVersion, EventFrame, FixedAddresses, Flag, FourAddress, GatewayInfo, GroupIds, GroupName,
    HostRoutes, NameServers, NetworkKind, PermittedAction, PolicyObject, PortNumber, ProjectName,
    ProtocolNumber, RemotePrefix, RouterRoutes, RowId, RuleDirection, SegmentNumber, ShortText,
    SubnetPrefix, SubnetVersion, TargetName, VirtualCard, WireTag,
};

const NETWORK: [Attribute; 10] = [
    ("admin_state_up", Flag, Both, Value),
    ("description", ShortText, Both, Value),
    ("name", ShortText, Both, Value),
    ("project_id", ProjectName, Creation, Value),
    ("provider:network_type", NetworkKind, Creation, Value),
    (
        "provider:physical_network",
        ShortText,
        Creation,
        ValueOrNull,
    ),
    (
        "provider:segmentation_id",
        SegmentNumber,
        Creation,
        ValueOrNull,
    ),
    ("router:external", Flag, Both, Value),
    ("shared", Flag, Both, Value),
    ("tenant_id", ProjectName, Creation, Value),
];

const SUBNET: [Attribute; 12] = [
    ("allocation_pools", AllocationPools, Both, Value),
    ("cidr", SubnetPrefix, Creation, Required),
    ("description", ShortText, Both, Value),
    ("dns_nameservers", NameServers, Both, Value),
    ("enable_dhcp", Flag, Both, Value),
    ("gateway_ip", AnyAddress, Both, ValueOrNull),
    ("host_routes", HostRoutes, Both, Value),
    ("ip_version", SubnetVersion, Creation, Required),
    ("ipv6_address_mode", AddressMode, Creation, ValueOrNull),
    ("ipv6_ra_mode", AddressMode, Creation, ValueOrNull),
    ("name", ShortText, Both, Value),
    ("network_id", RowId, Creation, Required),
];

const PORT: [Attribute; 15] = [
    ("admin_state_up", Flag, Both, Value),
    ("allowed_address_pairs", AddressPairs, Both, Value),
    ("binding:host_id", ShortText, Both, Value),
    ("binding:vnic_type", VirtualCard, Both, Value),
    ("description", ShortText, Both, Value),
    ("device_id", ShortText, Both, Value),
    ("device_owner", DeviceOwner, Both, Value),
    ("fixed_ips", FixedAddresses, Both, Value),
    ("mac_address", CardMac, Both, Value),
    ("name", ShortText, Both, Value),
    ("network_id", RowId, Creation, Required),
    ("port_security_enabled", Flag, Both, Value),
    ("project_id", ProjectName, Creation, Value),
    ("security_groups", GroupIds, Both, Value),
    ("tenant_id", ProjectName, Creation, Value),
];

const GROUP: [Attribute; 4] = [
    ("description", ShortText, Both, Value),
    ("name", GroupName, Both, Value),
    ("project_id", ProjectName, Creation, Value),
    ("tenant_id", ProjectName, Creation, Value),
];

const RULE: [Attribute; 9] = [
    ("description", ShortText, Both, Value),
    ("direction", RuleDirection, Creation, Required),
    ("ethertype", EtherVersion, Creation, Value),
    ("port_range_max", PortNumber, Creation, ValueOrNull),
    ("port_range_min", PortNumber, Creation, ValueOrNull),
    ("protocol", ProtocolNumber, Creation, ValueOrNull),
    ("remote_group_id", RowId, Creation, ValueOrNull),
    ("remote_ip_prefix", RemotePrefix, Creation, ValueOrNull),
    ("security_group_id", RowId, Creation, Required),
];

const ROUTER: [Attribute; 7] = [
    ("admin_state_up", Flag, Both, Value),
    ("description", ShortText, Both, Value),
    ("external_gateway_info", GatewayInfo, Both, ValueOrNull),
    ("name", ShortText, Both, Value),
    ("project_id", ProjectName, Creation, Value),
    ("routes", RouterRoutes, Update, Value),
    ("tenant_id", ProjectName, Creation, Value),
];

const FLOATING: [Attribute; 7] = [
    ("description", ShortText, Both, Value),
    ("fixed_ip_address", FourAddress, Both, Value),
    ("floating_ip_address", FourAddress, Creation, Value),
    ("floating_network_id", RowId, Creation, Required),
    ("port_id", RowId, Both, ValueOrNull),
    ("project_id", ProjectName, Creation, Value),
    ("tenant_id", ProjectName, Creation, Value),
];

const POLICY: [Attribute; 6] = [
    ("action", PermittedAction, Creation, Required),
    ("object_id", RowId, Creation, Required),
    ("object_type", PolicyObject, Creation, Required),
    ("project_id", ProjectName, Creation, Value),
    ("target_tenant", TargetName, Both, Required),
    ("tenant_id", ProjectName, Creation, Value),
];

const INTERFACE: [Attribute; 2] = [
    ("port_id", RowId, Creation, Value),
    ("subnet_id", RowId, Creation, Value),
];

const HOST: [Attribute; 1] = [("host", ShortText, Creation, Required)];

const DELIVER: [Attribute; 2] = [
    ("host", ShortText, Creation, Required),
    ("number", ChangeNumber, Creation, Required),
];

const PORT_EVENT: [Attribute; 2] = [
    ("frame", EventFrame, Creation, Required),
    ("port", RowId, Creation, Required),
];

const WIRE_EVENT: [Attribute; 3] = [
    ("frame", EventFrame, Creation, Required),
    ("physical_network", ShortText, Creation, Required),
    ("segmentation_id", WireTag, Creation, RequiredOrNull),
];

/// The attributes of a kind, in byte order of their names. Projects have none.
pub(crate) fn attributes(kind: Kind) -> &'static [Attribute]
    ensures { map attribute_of result.now ≡ attributes_of kind }
{
    match kind {
        Kind::Project => &[],
        Kind::Network => &NETWORK,
        Kind::Subnet => &SUBNET,
        Kind::Port => &PORT,
        Kind::Group => &GROUP,
        Kind::Rule => &RULE,
        Kind::Router => &ROUTER,
        Kind::Floating => &FLOATING,
        Kind::Policy => &POLICY,
    }
}

/// What names an interface of a router.
pub(crate) fn interface_attributes() -> &'static [Attribute]
    ensures { map attribute_of result.now ≡ interface_attributes }
{
    &INTERFACE
}

/// What a call on a host has.
pub(crate) fn host_attributes() -> &'static [Attribute]
    ensures { map attribute_of result.now ≡ host_attributes }
{
    &HOST
}

/// What the delivery of a change has.
pub(crate) fn deliver_attributes() -> &'static [Attribute]
    ensures { map attribute_of result.now ≡ deliver_attributes }
{
    &DELIVER
}

/// What a frame from a port has.
pub(crate) fn port_event_attributes() -> &'static [Attribute]
    ensures { map attribute_of result.now ≡ port_event_attributes }
{
    &PORT_EVENT
}

/// What a frame from a physical network has.
pub(crate) fn wire_event_attributes() -> &'static [Attribute]
    ensures { map attribute_of result.now ≡ wire_event_attributes }
{
    &WIRE_EVENT
}
