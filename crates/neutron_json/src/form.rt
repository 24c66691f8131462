//! Objects as forms of their kind.
ghost use Rattle.std.specs.Prelude.{◌≡◌, IfOk, option_map};
ghost use Rattle.serde_json.specs.View.{view};
ghost use Rattle.neutron_json.specs.Forms.{given, is_or_null, network_form, subnet_form, port_form, group_form, rule_form, router_form, floating_form, policy_form, form_of, icmp_named, protocol_given, version_6_given};

use api_types::{
    Ethertype, FloatingForm, Form, Given, GroupForm, Kind, NetworkForm, PolicyForm, PortForm,
    RouterForm, RuleForm, SubnetForm,
};
use json_values::{
    AddressMode, AddressPairs, AllocationPools, AnyAddress, CardMac, DeviceOwner, EtherVersion,
    FixedAddresses, Flag, FourAddress, GatewayInfo, Grammar, GroupIds, GroupName, HostRoutes,
    NameServers, NetworkKind, PermittedAction, PolicyObject, PortNumber, ProjectName,
    ProtocolNumber, RemotePrefix, RouterRoutes, RowId, RuleDirection, SegmentNumber, ShortText,
    SubnetPrefix, SubnetVersion, TargetName, VirtualCard,
};
use net_addr::OutOfMemory;
use serde_json::Value;
use std::alloc::Global;

// What an object says of an attribute.
fn given<G: Grammar>(
    alloc: Global,
    object: &Value,
    name: &str,
) -> Result<Given<G::Read>, OutOfMemory>
    ensures { IfOk result (λ g. g ≡ given G.says (view object.now) name.now) }
{
    let Some(value) = object.get(name) else {
        return Ok(Given::Absent);
    };
    match G::read(alloc, value)? {
        None => Ok(Given::Null),
        Some(read) => Ok(Given::Is(read)),
    }
}

fn network_form(alloc: Global, object: &Value) -> Result<NetworkForm, OutOfMemory>
    ensures { IfOk result (λ f. f ≡ network_form (view object.now)) }
{
    Ok(NetworkForm {
        name: given::<ShortText>(alloc, object, "name")?,
        description: given::<ShortText>(alloc, object, "description")?,
        admin_state_up: given::<Flag>(alloc, object, "admin_state_up")?,
        shared: given::<Flag>(alloc, object, "shared")?,
        router_external: given::<Flag>(alloc, object, "router:external")?,
        provider_network_type: given::<NetworkKind>(alloc, object, "provider:network_type")?,
        provider_physical_network: given::<ShortText>(alloc, object, "provider:physical_network")?,
        provider_segmentation_id: given::<SegmentNumber>(
            alloc,
            object,
            "provider:segmentation_id",
        )?,
        project_id: given::<ProjectName>(alloc, object, "project_id")?,
        tenant_id: given::<ProjectName>(alloc, object, "tenant_id")?,
    })
}

fn subnet_form(alloc: Global, object: &Value) -> Result<SubnetForm, OutOfMemory>
    ensures { IfOk result (λ f. f ≡ subnet_form (view object.now)) }
{
    Ok(SubnetForm {
        name: given::<ShortText>(alloc, object, "name")?,
        description: given::<ShortText>(alloc, object, "description")?,
        network_id: given::<RowId>(alloc, object, "network_id")?,
        ip_version: given::<SubnetVersion>(alloc, object, "ip_version")?,
        ipv6_address_mode: given::<AddressMode>(alloc, object, "ipv6_address_mode")?,
        ipv6_ra_mode: given::<AddressMode>(alloc, object, "ipv6_ra_mode")?,
        cidr: given::<SubnetPrefix>(alloc, object, "cidr")?,
        gateway_ip: given::<AnyAddress>(alloc, object, "gateway_ip")?,
        allocation_pools: given::<AllocationPools>(alloc, object, "allocation_pools")?,
        enable_dhcp: given::<Flag>(alloc, object, "enable_dhcp")?,
        dns_nameservers: given::<NameServers>(alloc, object, "dns_nameservers")?,
        host_routes: given::<HostRoutes>(alloc, object, "host_routes")?,
    })
}

fn port_form(alloc: Global, object: &Value) -> Result<PortForm, OutOfMemory>
    ensures { IfOk result (λ f. f ≡ port_form (view object.now)) }
{
    Ok(PortForm {
        name: given::<ShortText>(alloc, object, "name")?,
        description: given::<ShortText>(alloc, object, "description")?,
        admin_state_up: given::<Flag>(alloc, object, "admin_state_up")?,
        network_id: given::<RowId>(alloc, object, "network_id")?,
        mac_address: given::<CardMac>(alloc, object, "mac_address")?,
        fixed_ips: given::<FixedAddresses>(alloc, object, "fixed_ips")?,
        allowed_address_pairs: given::<AddressPairs>(alloc, object, "allowed_address_pairs")?,
        port_security_enabled: given::<Flag>(alloc, object, "port_security_enabled")?,
        security_groups: given::<GroupIds>(alloc, object, "security_groups")?,
        device_id: given::<ShortText>(alloc, object, "device_id")?,
        device_owner: given::<DeviceOwner>(alloc, object, "device_owner")?,
        binding_host_id: given::<ShortText>(alloc, object, "binding:host_id")?,
        binding_vnic_type: given::<VirtualCard>(alloc, object, "binding:vnic_type")?,
        project_id: given::<ProjectName>(alloc, object, "project_id")?,
        tenant_id: given::<ProjectName>(alloc, object, "tenant_id")?,
    })
}

fn group_form(alloc: Global, object: &Value) -> Result<GroupForm, OutOfMemory>
    ensures { IfOk result (λ f. f ≡ group_form (view object.now)) }
{
    Ok(GroupForm {
        name: given::<GroupName>(alloc, object, "name")?,
        description: given::<ShortText>(alloc, object, "description")?,
        project_id: given::<ProjectName>(alloc, object, "project_id")?,
        tenant_id: given::<ProjectName>(alloc, object, "tenant_id")?,
    })
}

// Whether an object has the protocol `icmp` by that name.
fn names_icmp(object: &Value) -> bool
    ensures { result ≡ icmp_named (view object.now) }
{
    let Some(value) = object.get("protocol") else {
        return false;
    };
    match value.as_str() {
        Some(name) => name == "icmp",
        None => false,
    }
}

fn is_version_6(ethertype: &Given<Ethertype>) -> bool
    ensures { result ≡ version_6_given ethertype.now }
{
    match ethertype {
        Given::Is(ethertype) => matches!(ethertype, Ethertype::Ipv6),
        _ => false,
    }
}

// The protocol of a rule of a version.
fn rule_protocol(
    alloc: Global,
    object: &Value,
    ethertype: &Given<Ethertype>,
) -> Result<Given<u8>, OutOfMemory>
    ensures { IfOk result (λ g. g ≡ protocol_given ethertype.now (view object.now)) }
{
    if is_version_6(ethertype) && names_icmp(object) {
        return Ok(Given::Is(58));
    }
    given::<ProtocolNumber>(alloc, object, "protocol")
}

fn rule_form(alloc: Global, object: &Value) -> Result<RuleForm, OutOfMemory>
    ensures { IfOk result (λ f. f ≡ rule_form (view object.now)) }
{
    let ethertype = given::<EtherVersion>(alloc, object, "ethertype")?;
    let protocol = rule_protocol(alloc, object, &ethertype)?;
    Ok(RuleForm {
        description: given::<ShortText>(alloc, object, "description")?,
        security_group_id: given::<RowId>(alloc, object, "security_group_id")?,
        direction: given::<RuleDirection>(alloc, object, "direction")?,
        ethertype,
        protocol,
        port_range_min: given::<PortNumber>(alloc, object, "port_range_min")?,
        port_range_max: given::<PortNumber>(alloc, object, "port_range_max")?,
        remote_ip_prefix: given::<RemotePrefix>(alloc, object, "remote_ip_prefix")?,
        remote_group_id: given::<RowId>(alloc, object, "remote_group_id")?,
    })
}

fn router_form(alloc: Global, object: &Value) -> Result<RouterForm, OutOfMemory>
    ensures { IfOk result (λ f. f ≡ router_form (view object.now)) }
{
    Ok(RouterForm {
        name: given::<ShortText>(alloc, object, "name")?,
        description: given::<ShortText>(alloc, object, "description")?,
        admin_state_up: given::<Flag>(alloc, object, "admin_state_up")?,
        external_gateway_info: given::<GatewayInfo>(alloc, object, "external_gateway_info")?,
        routes: given::<RouterRoutes>(alloc, object, "routes")?,
        project_id: given::<ProjectName>(alloc, object, "project_id")?,
        tenant_id: given::<ProjectName>(alloc, object, "tenant_id")?,
    })
}

fn floating_form(alloc: Global, object: &Value) -> Result<FloatingForm, OutOfMemory>
    ensures { IfOk result (λ f. f ≡ floating_form (view object.now)) }
{
    Ok(FloatingForm {
        description: given::<ShortText>(alloc, object, "description")?,
        floating_network_id: given::<RowId>(alloc, object, "floating_network_id")?,
        floating_ip_address: given::<FourAddress>(alloc, object, "floating_ip_address")?,
        port_id: given::<RowId>(alloc, object, "port_id")?,
        fixed_ip_address: given::<FourAddress>(alloc, object, "fixed_ip_address")?,
        project_id: given::<ProjectName>(alloc, object, "project_id")?,
        tenant_id: given::<ProjectName>(alloc, object, "tenant_id")?,
    })
}

fn policy_form(alloc: Global, object: &Value) -> Result<PolicyForm, OutOfMemory>
    ensures { IfOk result (λ f. f ≡ policy_form (view object.now)) }
{
    Ok(PolicyForm {
        object_type: given::<PolicyObject>(alloc, object, "object_type")?,
        object_id: given::<RowId>(alloc, object, "object_id")?,
        action: given::<PermittedAction>(alloc, object, "action")?,
        target_tenant: given::<TargetName>(alloc, object, "target_tenant")?,
        project_id: given::<ProjectName>(alloc, object, "project_id")?,
        tenant_id: given::<ProjectName>(alloc, object, "tenant_id")?,
    })
}

/// The form of a kind that an object gives. Projects have none. The cost grows with the object.
pub(crate) fn form_of(
    alloc: Global,
    kind: Kind,
    object: &Value,
) -> Result<Option<Form>, OutOfMemory>
    ensures { IfOk result (λ o. o ≡ form_of kind (view object.now)) }
{
    match kind {
        Kind::Project => Ok(None),
        Kind::Network => Ok(Some(Form::Network(network_form(alloc, object)?))),
        Kind::Subnet => Ok(Some(Form::Subnet(subnet_form(alloc, object)?))),
        Kind::Port => Ok(Some(Form::Port(port_form(alloc, object)?))),
        Kind::Group => Ok(Some(Form::Group(group_form(alloc, object)?))),
        Kind::Rule => Ok(Some(Form::Rule(rule_form(alloc, object)?))),
        Kind::Router => Ok(Some(Form::Router(router_form(alloc, object)?))),
        Kind::Floating => Ok(Some(Form::Floating(floating_form(alloc, object)?))),
        Kind::Policy => Ok(Some(Form::Policy(policy_form(alloc, object)?))),
    }
}
