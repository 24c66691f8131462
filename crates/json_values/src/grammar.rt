//! The grammars of attributes.
ghost use Rattle.std.specs.Prelude.{◌≡◌, IfOk, option_map};
ghost use Rattle.serde_json.specs.Find.{as_bool};
ghost use Rattle.serde_json.specs.View.{view};
ghost use Rattle.api_types.specs.Consistent.InForm.{longest_of as longest_length};
ghost use Rattle.json_values.specs.Items.{id_of, four_of, address_of, card_of, prefix_said, gateway_of};
ghost use Rattle.json_values.specs.Frames.{frame_of};
ghost use Rattle.json_values.specs.Grammars.{short_text, group_name, device_owner, project_name, target_name, network_type_of, segment_number, ip_version, mode_of, subnet_prefix, pools, name_servers, host_routes, router_routes, fixed_addresses, address_pairs, group_ids, vnic_type_of, direction_of, ethertype_of, protocol_of, port_number, object_type_of, action_of, wire_tag, change_number};

use crate::frame::frame_of;
use crate::item::gateway_of;
use crate::list::{is_pairwise, list_of};
use crate::value::{address_of, card_of, exact_of, four_of, id_of, prefix_of, whole_of};
use crate::word::{
    action_of, device_owner, direction_of, ethertype_of, group_name, mode_of, network_type_of,
    project_name, protocol_of, short_text, target_name,
};
use api_types::{
    Action, Direction, Ethertype, FixedAsked, GatewayAsked, Id, IpVersion, Ipv6Mode, NetworkType,
    ObjectType, PairAsked, Routes, VnicType,
};
use net_addr::{Addr, Addr4, Mac, OutOfMemory, Prefix, Seq, Spans, Text};
use plane_types::Frame;
use serde_json::Value;
use std::alloc::Global;

/// How the value of an attribute is written.
pub trait Grammar {
    ghost use Rattle.std.specs.Prelude.{Option};
    ghost use Rattle.serde_json.specs.Data.{Data};

    /// What a value says.
    type Read: Drop;

    ghost says: { Data → Option Self.Read };

    /// What the value says, or None where it isn't allowed. Its cost grows with the value, that of
    /// lists of different items with the square of their length.
    fn read(alloc: Global, value: &Value) -> Result<Option<Self::Read>, OutOfMemory>
        ensures { IfOk result (λ o. o ≡ says (view value.now)) };
}

// A text of one's own.
fn copied(alloc: Global, text: Option<&str>) -> Result<Option<Text>, OutOfMemory>
    ensures { IfOk result (λ o. o ≡ option_map (λ s. s.now) text.entry) }
{
    match text {
        None => Ok(None),
        Some(text) => Ok(Some(Text::of(alloc, text)?)),
    }
}

/// A text of at most 255 characters.
pub struct ShortText;

impl Grammar for ShortText {
    type Read = Text;

    ghost says = { short_text };

    fn read(alloc: Global, value: &Value) -> Result<Option<Text>, OutOfMemory> {
        copied(alloc, short_text(value))
    }
}

/// The name of a security group: a text of at most 255 characters, and not `default`.
pub struct GroupName;

impl Grammar for GroupName {
    type Read = Text;

    ghost says = { group_name };

    fn read(alloc: Global, value: &Value) -> Result<Option<Text>, OutOfMemory> {
        copied(alloc, group_name(value))
    }
}

/// The owner of a device: a text of at most 255 characters that doesn't begin with `network:`.
pub struct DeviceOwner;

impl Grammar for DeviceOwner {
    type Read = Text;

    ghost says = { device_owner };

    fn read(alloc: Global, value: &Value) -> Result<Option<Text>, OutOfMemory> {
        copied(alloc, device_owner(value))
    }
}

/// The name of a project: 1 to 64 letters and digits of ASCII, hyphens and underscores.
pub struct ProjectName;

impl Grammar for ProjectName {
    type Read = Text;

    ghost says = { project_name };

    fn read(alloc: Global, value: &Value) -> Result<Option<Text>, OutOfMemory> {
        copied(alloc, project_name(value))
    }
}

/// Whom a policy permits: the name of a project, or `*` for all.
pub struct TargetName;

impl Grammar for TargetName {
    type Read = Text;

    ghost says = { target_name };

    fn read(alloc: Global, value: &Value) -> Result<Option<Text>, OutOfMemory> {
        copied(alloc, target_name(value))
    }
}

/// A truth value.
pub struct Flag;

impl Grammar for Flag {
    type Read = bool;

    ghost says = { as_bool };

    fn read(_alloc: Global, value: &Value) -> Result<Option<bool>, OutOfMemory> {
        Ok(value.as_bool())
    }
}

/// An id in the hyphenated form (RFC 9562), in either case, that a project can have drawn.
pub struct RowId;

impl Grammar for RowId {
    type Read = Id;

    ghost says = { id_of };

    fn read(_alloc: Global, value: &Value) -> Result<Option<Id>, OutOfMemory> {
        Ok(id_of(value))
    }
}

/// The type of a network's segment: `local`, `flat`, `vlan` or `vxlan`.
pub struct NetworkKind;

impl Grammar for NetworkKind {
    type Read = NetworkType;

    ghost says = { network_type_of };

    fn read(_alloc: Global, value: &Value) -> Result<Option<NetworkType>, OutOfMemory> {
        Ok(network_type_of(value))
    }
}

/// A tag or a number of VXLAN, 1 to 16,777,215.
pub struct SegmentNumber;

impl Grammar for SegmentNumber {
    type Read = u32;

    ghost says = { segment_number };

    fn read(_alloc: Global, value: &Value) -> Result<Option<u32>, OutOfMemory> {
        match whole_of(value, 1, 16_777_215) {
            Some(number) => Ok(Some(number as u32)),
            None => Ok(None),
        }
    }
}

/// The version of IP of a subnet, 4 or 6.
pub struct SubnetVersion;

impl Grammar for SubnetVersion {
    type Read = IpVersion;

    ghost says = { ip_version };

    fn read(_alloc: Global, value: &Value) -> Result<Option<IpVersion>, OutOfMemory> {
        match whole_of(value, 4, 6) {
            Some(number) if number == 4 => Ok(Some(IpVersion::V4)),
            Some(number) if number == 6 => Ok(Some(IpVersion::V6)),
            _ => Ok(None),
        }
    }
}

/// How the ports of a subnet of version 6 come by their addresses: `slaac`, `dhcpv6-stateful` or
/// `dhcpv6-stateless`.
pub struct AddressMode;

impl Grammar for AddressMode {
    type Read = Ipv6Mode;

    ghost says = { mode_of };

    fn read(_alloc: Global, value: &Value) -> Result<Option<Ipv6Mode>, OutOfMemory> {
        Ok(mode_of(value))
    }
}

// The greatest length of a subnet's prefix.
fn longest_of(base: &Addr) -> u8
    ensures { result ≡ longest_length base.now }
{
    match *base {
        Addr::V4(_) => 30,
        Addr::V6(_) => 126,
    }
}

/// The prefix of a subnet, of length 1 to 30 or, of version 6, to 126, whose other bits are zero.
pub struct SubnetPrefix;

impl Grammar for SubnetPrefix {
    type Read = Prefix;

    ghost says = { subnet_prefix };

    fn read(_alloc: Global, value: &Value) -> Result<Option<Prefix>, OutOfMemory> {
        match exact_of(value) {
            Some(prefix) if 1 <= prefix.len && prefix.len <= longest_of(&prefix.base) => {
                Ok(Some(prefix))
            }
            _ => Ok(None),
        }
    }
}

/// An address of either version.
pub struct AnyAddress;

impl Grammar for AnyAddress {
    type Read = Addr;

    ghost says = { address_of };

    fn read(_alloc: Global, value: &Value) -> Result<Option<Addr>, OutOfMemory> {
        Ok(address_of(value))
    }
}

/// An IPv4 address.
pub struct FourAddress;

impl Grammar for FourAddress {
    type Read = Addr4;

    ghost says = { four_of };

    fn read(_alloc: Global, value: &Value) -> Result<Option<Addr4>, OutOfMemory> {
        Ok(four_of(value))
    }
}

/// 1 to 20 disjoint pools of addresses.
pub struct AllocationPools;

impl Grammar for AllocationPools {
    type Read = Spans;

    ghost says = { pools };

    fn read(alloc: Global, value: &Value) -> Result<Option<Spans>, OutOfMemory> {
        match list_of(alloc, value, 20)? {
            Some(spans) if 1 <= spans.len() && is_pairwise(spans.as_slice()) => Ok(Some(spans)),
            _ => Ok(None),
        }
    }
}

/// At most 5 addresses of name servers.
pub struct NameServers;

impl Grammar for NameServers {
    type Read = Seq<Addr>;

    ghost says = { name_servers };

    fn read(alloc: Global, value: &Value) -> Result<Option<Seq<Addr>>, OutOfMemory> {
        list_of(alloc, value, 5)
    }
}

/// At most 20 routes.
pub struct HostRoutes;

impl Grammar for HostRoutes {
    type Read = Routes;

    ghost says = { host_routes };

    fn read(alloc: Global, value: &Value) -> Result<Option<Routes>, OutOfMemory> {
        list_of(alloc, value, 20)
    }
}

/// At most 30 different routes.
pub struct RouterRoutes;

impl Grammar for RouterRoutes {
    type Read = Routes;

    ghost says = { router_routes };

    fn read(alloc: Global, value: &Value) -> Result<Option<Routes>, OutOfMemory> {
        match list_of(alloc, value, 30)? {
            Some(items) if is_pairwise(items.as_slice()) => Ok(Some(items)),
            _ => Ok(None),
        }
    }
}

/// The MAC of one card: it isn't zero, and its first byte is even.
pub struct CardMac;

impl Grammar for CardMac {
    type Read = Mac;

    ghost says = { card_of };

    fn read(_alloc: Global, value: &Value) -> Result<Option<Mac>, OutOfMemory> {
        Ok(card_of(value))
    }
}

/// At most 5 fixed addresses, each with an address, a subnet or both.
pub struct FixedAddresses;

impl Grammar for FixedAddresses {
    type Read = Seq<FixedAsked>;

    ghost says = { fixed_addresses };

    fn read(alloc: Global, value: &Value) -> Result<Option<Seq<FixedAsked>>, OutOfMemory> {
        list_of(alloc, value, 5)
    }
}

/// At most 10 allowed address pairs.
pub struct AddressPairs;

impl Grammar for AddressPairs {
    type Read = Seq<PairAsked>;

    ghost says = { address_pairs };

    fn read(alloc: Global, value: &Value) -> Result<Option<Seq<PairAsked>>, OutOfMemory> {
        list_of(alloc, value, 10)
    }
}

/// At most 20 different ids.
pub struct GroupIds;

impl Grammar for GroupIds {
    type Read = Seq<Id>;

    ghost says = { group_ids };

    fn read(alloc: Global, value: &Value) -> Result<Option<Seq<Id>>, OutOfMemory> {
        match list_of(alloc, value, 20)? {
            Some(items) if is_pairwise(items.as_slice()) => Ok(Some(items)),
            _ => Ok(None),
        }
    }
}

/// The type of a virtual card, `normal`.
pub struct VirtualCard;

impl Grammar for VirtualCard {
    type Read = VnicType;

    ghost says = { vnic_type_of };

    fn read(_alloc: Global, value: &Value) -> Result<Option<VnicType>, OutOfMemory> {
        match value.as_str() {
            Some(text) if text == "normal" => Ok(Some(VnicType::Normal)),
            _ => Ok(None),
        }
    }
}

/// `ingress` or `egress`.
pub struct RuleDirection;

impl Grammar for RuleDirection {
    type Read = Direction;

    ghost says = { direction_of };

    fn read(_alloc: Global, value: &Value) -> Result<Option<Direction>, OutOfMemory> {
        Ok(direction_of(value))
    }
}

/// `IPv4` or `IPv6`, in any ASCII case.
pub struct EtherVersion;

impl Grammar for EtherVersion {
    type Read = Ethertype;

    ghost says = { ethertype_of };

    fn read(_alloc: Global, value: &Value) -> Result<Option<Ethertype>, OutOfMemory> {
        Ok(ethertype_of(value))
    }
}

/// A protocol of IP (IANA): its name, its number's text or its number, 0 to 255.
pub struct ProtocolNumber;

impl Grammar for ProtocolNumber {
    type Read = u8;

    ghost says = { protocol_of };

    fn read(_alloc: Global, value: &Value) -> Result<Option<u8>, OutOfMemory> {
        Ok(protocol_of(value))
    }
}

/// A port, or a type or code of ICMP, 0 to 65,535.
pub struct PortNumber;

impl Grammar for PortNumber {
    type Read = u16;

    ghost says = { port_number };

    fn read(_alloc: Global, value: &Value) -> Result<Option<u16>, OutOfMemory> {
        match whole_of(value, 0, 65535) {
            Some(number) => Ok(Some(number as u16)),
            None => Ok(None),
        }
    }
}

/// An address, or a prefix, whose other bits are cleared.
pub struct RemotePrefix;

impl Grammar for RemotePrefix {
    type Read = Prefix;

    ghost says = { prefix_said };

    fn read(_alloc: Global, value: &Value) -> Result<Option<Prefix>, OutOfMemory> {
        Ok(prefix_of(value))
    }
}

/// The gateway of a router: a network and, if wished, whether sources are translated.
pub struct GatewayInfo;

impl Grammar for GatewayInfo {
    type Read = GatewayAsked;

    ghost says = { gateway_of };

    fn read(_alloc: Global, value: &Value) -> Result<Option<GatewayAsked>, OutOfMemory> {
        Ok(gateway_of(value))
    }
}

/// What a policy speaks of, `network`.
pub struct PolicyObject;

impl Grammar for PolicyObject {
    type Read = ObjectType;

    ghost says = { object_type_of };

    fn read(_alloc: Global, value: &Value) -> Result<Option<ObjectType>, OutOfMemory> {
        match value.as_str() {
            Some(text) if text == "network" => Ok(Some(ObjectType::Network)),
            _ => Ok(None),
        }
    }
}

/// `access_as_shared` or `access_as_external`.
pub struct PermittedAction;

impl Grammar for PermittedAction {
    type Read = Action;

    ghost says = { action_of };

    fn read(_alloc: Global, value: &Value) -> Result<Option<Action>, OutOfMemory> {
        Ok(action_of(value))
    }
}

/// A tag of IEEE 802.1Q, 1 to 4,094.
pub struct WireTag;

impl Grammar for WireTag {
    type Read = u16;

    ghost says = { wire_tag };

    fn read(_alloc: Global, value: &Value) -> Result<Option<u16>, OutOfMemory> {
        match whole_of(value, 1, 4094) {
            Some(number) => Ok(Some(number as u16)),
            None => Ok(None),
        }
    }
}

/// The number of a change, of 64 bits.
pub struct ChangeNumber;

impl Grammar for ChangeNumber {
    type Read = u64;

    ghost says = { change_number };

    fn read(_alloc: Global, value: &Value) -> Result<Option<u64>, OutOfMemory> {
        Ok(whole_of(value, 0, u64::MAX))
    }
}

/// A frame, as an object with exactly the members of its kind.
pub struct EventFrame;

impl Grammar for EventFrame {
    type Read = Frame;

    ghost says = { frame_of };

    fn read(_alloc: Global, value: &Value) -> Result<Option<Frame>, OutOfMemory> {
        Ok(frame_of(value))
    }
}
