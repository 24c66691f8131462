//! Grammars by name.
ghost use Rattle.std.specs.Prelude.{◌≡◌, IfOk, is_some};
ghost use Rattle.serde_json.specs.View.{view};
ghost use Rattle.json_values.specs.Allowed.{allows};

use crate::grammar::{
    AddressMode, AddressPairs, AllocationPools, AnyAddress, CardMac, ChangeNumber, DeviceOwner,
    EtherVersion, EventFrame, FixedAddresses, Flag, FourAddress, GatewayInfo, Grammar, GroupIds,
    GroupName, HostRoutes, NameServers, NetworkKind, PermittedAction, PolicyObject, PortNumber,
    ProjectName, ProtocolNumber, RemotePrefix, RouterRoutes, RowId, RuleDirection, SegmentNumber,
    ShortText, SubnetPrefix, SubnetVersion, TargetName, VirtualCard, WireTag,
};
use crate::object::is_empty_object;
use net_addr::OutOfMemory;
use serde_json::Value;
use std::alloc::Global;

/// The grammar of an attribute, by name.
#[derive(Clone, Copy)]
pub enum GrammarName {
    ShortText,
    GroupName,
    DeviceOwner,
    ProjectName,
    TargetName,
    Flag,
    RowId,
    NetworkKind,
    SegmentNumber,
    SubnetVersion,
    AddressMode,
    SubnetPrefix,
    AnyAddress,
    FourAddress,
    AllocationPools,
    NameServers,
    HostRoutes,
    RouterRoutes,
    CardMac,
    FixedAddresses,
    AddressPairs,
    GroupIds,
    VirtualCard,
    RuleDirection,
    EtherVersion,
    ProtocolNumber,
    PortNumber,
    RemotePrefix,
    GatewayInfo,
    PolicyObject,
    PermittedAction,
    WireTag,
    ChangeNumber,
    EventFrame,
}

// Whether a value is allowed by a grammar.
fn is_read<G: Grammar>(alloc: Global, value: &Value) -> Result<bool, OutOfMemory>
    ensures { IfOk result (λ b. b ≡ is_some (G.says (view value.now))) }
{
    Ok(G::read(alloc, value)?.is_some())
}

/// Whether a value is allowed by itself: its grammar reads it. An object without members is also
/// allowed as the gateway of a router, where it means null. The cost is that of reading it.
pub fn allows(alloc: Global, name: GrammarName, value: &Value) -> Result<bool, OutOfMemory>
    ensures { IfOk result (λ b. b ≡ allows name (view value.now)) }
{
    match name {
        GrammarName::ShortText => is_read::<ShortText>(alloc, value),
        GrammarName::GroupName => is_read::<GroupName>(alloc, value),
        GrammarName::DeviceOwner => is_read::<DeviceOwner>(alloc, value),
        GrammarName::ProjectName => is_read::<ProjectName>(alloc, value),
        GrammarName::TargetName => is_read::<TargetName>(alloc, value),
        GrammarName::Flag => is_read::<Flag>(alloc, value),
        GrammarName::RowId => is_read::<RowId>(alloc, value),
        GrammarName::NetworkKind => is_read::<NetworkKind>(alloc, value),
        GrammarName::SegmentNumber => is_read::<SegmentNumber>(alloc, value),
        GrammarName::SubnetVersion => is_read::<SubnetVersion>(alloc, value),
        GrammarName::AddressMode => is_read::<AddressMode>(alloc, value),
        GrammarName::SubnetPrefix => is_read::<SubnetPrefix>(alloc, value),
        GrammarName::AnyAddress => is_read::<AnyAddress>(alloc, value),
        GrammarName::FourAddress => is_read::<FourAddress>(alloc, value),
        GrammarName::AllocationPools => is_read::<AllocationPools>(alloc, value),
        GrammarName::NameServers => is_read::<NameServers>(alloc, value),
        GrammarName::HostRoutes => is_read::<HostRoutes>(alloc, value),
        GrammarName::RouterRoutes => is_read::<RouterRoutes>(alloc, value),
        GrammarName::CardMac => is_read::<CardMac>(alloc, value),
        GrammarName::FixedAddresses => is_read::<FixedAddresses>(alloc, value),
        GrammarName::AddressPairs => is_read::<AddressPairs>(alloc, value),
        GrammarName::GroupIds => is_read::<GroupIds>(alloc, value),
        GrammarName::VirtualCard => is_read::<VirtualCard>(alloc, value),
        GrammarName::RuleDirection => is_read::<RuleDirection>(alloc, value),
        GrammarName::EtherVersion => is_read::<EtherVersion>(alloc, value),
        GrammarName::ProtocolNumber => is_read::<ProtocolNumber>(alloc, value),
        GrammarName::PortNumber => is_read::<PortNumber>(alloc, value),
        GrammarName::RemotePrefix => is_read::<RemotePrefix>(alloc, value),
        GrammarName::GatewayInfo => {
            Ok(is_read::<GatewayInfo>(alloc, value)? || is_empty_object(value))
        }
        GrammarName::PolicyObject => is_read::<PolicyObject>(alloc, value),
        GrammarName::PermittedAction => is_read::<PermittedAction>(alloc, value),
        GrammarName::WireTag => is_read::<WireTag>(alloc, value),
        GrammarName::ChangeNumber => is_read::<ChangeNumber>(alloc, value),
        GrammarName::EventFrame => is_read::<EventFrame>(alloc, value),
    }
}
