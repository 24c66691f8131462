//! What the values of JSON bodies say (RFC 8259), attribute by attribute.
//!
//! Each attribute of the Networking API has one grammar, a type with the trait `Grammar`: `read`
//! gives exactly what the definition says of the value, and nothing where the value isn't allowed
//! by itself. `GrammarName` names them, for tables of attributes, and `allows` tests a value by
//! name. Frames of the lab are read in the same way. It stands on `net_addr`, `api_types`,
//! `plane_types`, and on `serde_json` and `uuid`, whose own words its definitions cite.
#![tactic(auto)]

mod allowed;
mod frame;
mod grammar;
mod item;
mod list;
mod object;
mod text;
mod value;
mod word;

pub use allowed::{GrammarName, allows};
pub use grammar::{
    AddressMode, AddressPairs, AllocationPools, AnyAddress, CardMac, ChangeNumber, DeviceOwner,
    EtherVersion, EventFrame, FixedAddresses, Flag, FourAddress, GatewayInfo, Grammar, GroupIds,
    GroupName, HostRoutes, NameServers, NetworkKind, PermittedAction, PolicyObject, PortNumber,
    ProjectName, ProtocolNumber, RemotePrefix, RouterRoutes, RowId, RuleDirection, SegmentNumber,
    ShortText, SubnetPrefix, SubnetVersion, TargetName, VirtualCard, WireTag,
};
pub use text::read_id;
