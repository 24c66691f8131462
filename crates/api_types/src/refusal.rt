//! Why a request is refused, with all that its message says.

ghost use Rattle.std.specs.Prelude.{◌≡◌};
ghost use Rattle.api_types.specs.declared.refusal.Refusal.TheVariants.{OutOfMemory as MemoryRefusal};

use crate::id::Id;
use crate::kind::Kind;
use crate::network::Segment;
use net_addr::{Addr, Mac, OutOfMemory, Text};

/// The rules of policy, which administrators meet.
#[derive(Clone, Copy, Debug, PartialEq, Eq)]
pub enum PolicyRule {
    AdminOnly,
    OwnerOnly,
    NetworkOwner,
    NetworkAccess,
    PortDelete,
}

/// The ways in which a row can be in use.
#[derive(Clone, Copy, Debug, PartialEq, Eq)]
pub enum UseRule {
    NetworkInUse,
    SubnetInUse,
    GatewayIpInUse,
    ServicePortInUse,
    PortInUse,
    SecurityGroupCannotRemoveDefault,
    SecurityGroupInUse,
    RouterInUse,
    RbacPolicyInUse,
    RouterInterfaceInUseByRoute,
    RouterInterfaceInUseByFloatingIp,
    RouterExternalGatewayInUseByFloatingIp,
    FloatingIpPortAlreadyAssociated,
}

/// A value that is held once in a network.
#[derive(Clone, Copy, Debug, PartialEq, Eq)]
pub enum Value {
    Address(Addr),
    Mac(Mac),
}

/// Why a request is refused, with what the message says. After each of them all is as before.
#[derive(Drop)]
pub enum Refusal {
    /// 400: the bytes are no request.
    Malformed,
    /// 431: the head has more than 16,384 bytes or 64 fields.
    HeadLarge,
    /// 413: the body has more than 65,536 bytes.
    BodyLarge,
    /// 411: the length is missing, or a transfer coding is used.
    NoLength,
    /// 401: no project is named.
    NoCaller,
    /// 404: the path has no route.
    NoRoute,
    /// 405: the route has no such method, but these.
    NoMethod {
        allowed: Text,
    },
    /// 400: the body is no JSON object with this one member, or no object at all.
    BadBody {
        member: Option<Text>,
    },
    /// 400: the named attribute or query name breaks its rule.
    Invalid {
        name: Text,
    },
    /// 404: a named row isn't there, or isn't seen.
    NotFound {
        kind: Text,
        text: Text,
    },
    /// 403: a rule of policy forbids it.
    Forbidden {
        rule: PolicyRule,
    },
    /// 409: the row is in use, by the row that is told where the caller sees it.
    InUse {
        rule: UseRule,
        kind: Kind,
        id: Id,
        by: Option<(Kind, Id)>,
    },
    /// 409: a port of the network holds the value.
    Taken {
        value: Value,
        network: Id,
    },
    /// 409: an equal row is there.
    Exists {
        kind: Kind,
        id: Id,
    },
    /// 409: another network has the segment.
    SegmentInUse {
        segment: Segment,
        network: Id,
    },
    /// 404: no router joins the subnet to the external network.
    NoGateway {
        network: Id,
        subnet: Id,
    },
    /// 409: the owning project may have no more rows of this kind.
    OverQuota {
        resource: Kind,
        limit: u64,
        used: u64,
    },
    /// 409: each pool address of the network that may be given is held, or it has no subnet that
    /// could give one.
    PoolsSpent {
        network: Id,
    },
    /// 503: no segment is left, or the most networks stand.
    NoNetwork,
    /// 503: a counter is at its last value.
    CountersSpent,
    /// 503: the store failed.
    StoreFault,
    /// 507: memory could not be had.
    OutOfMemory,
    /// 404: no host has that name.
    NoHost {
        name: Text,
    },
    /// 404: the message isn't among the kept ones.
    NoMessage {
        asked: u64,
        first: u64,
        last: u64,
    },
    /// 409: the rows have another version than the one whose page is asked for.
    VersionMoved {
        asked: u64,
        now: u64,
    },
    /// 404: the page is neither the first nor begun by a row.
    NoPage {
        number: u64,
    },
}

impl From<OutOfMemory> for Refusal {
    ghost from_gives = { λ _ e. e ≡ MemoryRefusal };

    fn from(_e: OutOfMemory) -> Refusal {
        Refusal::OutOfMemory
    }
}
