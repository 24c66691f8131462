//! The refusals of a server by their status and type.
ghost use Rattle.std.specs.Prelude.{◌≡◌, ◌==◌, ◌&&◌};
ghost use Rattle.std.specs.List.{list_any};
ghost use Rattle.std.specs.Str.{bytes_eq};
ghost use Rattle.wire_replies.specs.Faults as faults;

use wire_types::WireReply;

/// Each status of a refusal with the types that have it.
const FAULTS: [(u16, &str); 50] = [
    (400, "MalformedRequest"),
    (431, "HeadTooLarge"),
    (413, "BodyTooLarge"),
    (411, "LengthRequired"),
    (401, "NotAuthenticated"),
    (404, "HTTPNotFound"),
    (405, "MethodNotAllowed"),
    (400, "BadBody"),
    (400, "InvalidInput"),
    (404, "NetworkNotFound"),
    (404, "SubnetNotFound"),
    (404, "PortNotFound"),
    (404, "SecurityGroupNotFound"),
    (404, "SecurityGroupRuleNotFound"),
    (404, "RouterNotFound"),
    (404, "FloatingIPNotFound"),
    (404, "RbacPolicyNotFound"),
    (404, "RouterInterfaceNotFound"),
    (403, "PolicyNotAuthorized"),
    (409, "NetworkInUse"),
    (409, "SubnetInUse"),
    (409, "GatewayIpInUse"),
    (409, "ServicePortInUse"),
    (409, "PortInUse"),
    (409, "SecurityGroupCannotRemoveDefault"),
    (409, "SecurityGroupInUse"),
    (409, "RouterInUse"),
    (409, "RbacPolicyInUse"),
    (409, "RouterInterfaceInUseByRoute"),
    (409, "RouterInterfaceInUseByFloatingIP"),
    (409, "RouterExternalGatewayInUseByFloatingIp"),
    (409, "FloatingIPPortAlreadyAssociated"),
    (409, "IpAddressInUse"),
    (409, "MacAddressInUse"),
    (409, "SecurityGroupRuleExists"),
    (409, "DuplicateRbacPolicy"),
    (409, "FlatNetworkInUse"),
    (409, "VlanIdInUse"),
    (409, "TunnelIdInUse"),
    (404, "ExternalGatewayForFloatingIPNotFound"),
    (409, "OverQuota"),
    (409, "IpAddressGenerationFailure"),
    (503, "NoNetworkAvailable"),
    (503, "CountersSpent"),
    (503, "StoreFault"),
    (507, "OutOfMemory"),
    (404, "HostNotFound"),
    (404, "MessageGone"),
    (409, "VersionMoved"),
    (404, "PageNotFound"),
];

/// Whether one of these has this status and type.
fn has_fault(listed: &[(u16, &'static str)], code: u16, kind: &str) -> bool
    ensures { result ≡ list_any (λ f. (f.0 == code) && bytes_eq f.1.now kind.now) listed.now }
{
    listed
        .iter()
        .any(|fault| fault.0 == code && fault.1 == kind)
}

/// Whether a server refuses with this status and type.
pub(crate) fn is_fault(code: u16, kind: &str) -> bool
    ensures { result ≡ faults.is_fault code kind.now }
{
    has_fault(&FAULTS, code, kind)
}

/// What a refusal of a type says to an agent.
pub(crate) fn fault_reply(kind: &str) -> WireReply
    ensures { result ≡ faults.fault_reply kind.now }
{
    match kind {
        "MessageGone" => WireReply::NoMessage,
        "VersionMoved" => WireReply::VersionMoved,
        "PageNotFound" => WireReply::NoPage,
        _ => WireReply::Refused,
    }
}
