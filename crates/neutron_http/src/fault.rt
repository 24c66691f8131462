//! The status, the type and the message of each refusal.
ghost use Rattle.std.specs.Prelude.{◌≡◌, ◌++◌, IfOk, codes, decimal};
ghost use Rattle.api_types.specs.Ident.{ident_text};
ghost use Rattle.api_types.specs.Titles.{title_of, resource_of};
ghost use Rattle.neutron_http.specs.Faults.{code_of, type_of, use_type, taken_type, exists_type, segment_type, rule_name, body_message, user_text, value_text, message_of};
ghost use Rattle.neutron_http.specs.Replies.{IsReplyCode};

use api_types::{Id, Kind, PolicyRule, Refusal, Segment, UseRule, Value};
use net_addr::{OutOfMemory, Text};
use std::alloc::Global;

/// What a reply says of a refusal.
#[derive(Debug, Drop)]
pub struct Fault {
    /// The status code.
    pub code: u16,
    /// The type of the fault.
    pub kind: Text,
    pub message: Text,
}

// The status code of a refusal.
fn code(refusal: &Refusal) -> u16
    ensures code { result ≡ code_of refusal.now }
    ensures reply { IsReplyCode result }
{
    match refusal {
        Refusal::HeadLarge => 431,
        Refusal::BodyLarge => 413,
        Refusal::NoLength => 411,
        Refusal::NoCaller => 401,
        Refusal::NoMethod { .. } => 405,
        Refusal::Malformed | Refusal::BadBody { .. } | Refusal::Invalid { .. } => 400,
        Refusal::NoRoute | Refusal::NotFound { .. } | Refusal::NoGateway { .. } => 404,
        Refusal::NoHost { .. } | Refusal::NoMessage { .. } | Refusal::NoPage { .. } => 404,
        Refusal::Forbidden { .. } => 403,
        Refusal::InUse { .. } | Refusal::Taken { .. } | Refusal::Exists { .. } => 409,
        Refusal::SegmentInUse { .. } | Refusal::OverQuota { .. } => 409,
        Refusal::PoolsSpent { .. } | Refusal::VersionMoved { .. } => 409,
        Refusal::NoNetwork | Refusal::CountersSpent | Refusal::StoreFault => 503,
        Refusal::OutOfMemory => 507,
    }
}

// The type of a row in use.
fn use_word(rule: UseRule) -> &'static str
    ensures { result.now ≡ use_type rule }
{
    match rule {
        UseRule::NetworkInUse => "NetworkInUse",
        UseRule::SubnetInUse => "SubnetInUse",
        UseRule::GatewayIpInUse => "GatewayIpInUse",
        UseRule::ServicePortInUse => "ServicePortInUse",
        UseRule::PortInUse => "PortInUse",
        UseRule::SecurityGroupCannotRemoveDefault => "SecurityGroupCannotRemoveDefault",
        UseRule::SecurityGroupInUse => "SecurityGroupInUse",
        UseRule::RouterInUse => "RouterInUse",
        UseRule::RbacPolicyInUse => "RbacPolicyInUse",
        UseRule::RouterInterfaceInUseByRoute => "RouterInterfaceInUseByRoute",
        UseRule::RouterInterfaceInUseByFloatingIp => "RouterInterfaceInUseByFloatingIP",
        UseRule::RouterExternalGatewayInUseByFloatingIp => "RouterExternalGatewayInUseByFloatingIp",
        UseRule::FloatingIpPortAlreadyAssociated => "FloatingIPPortAlreadyAssociated",
    }
}

// The type of a value that is held.
fn taken_word(value: Value) -> &'static str
    ensures { result.now ≡ taken_type value }
{
    match value {
        Value::Address(_) => "IpAddressInUse",
        Value::Mac(_) => "MacAddressInUse",
    }
}

// The type of a row that is there already.
fn exists_word(kind: Kind) -> &'static str
    ensures { result.now ≡ exists_type kind }
{
    match kind {
        Kind::Rule => "SecurityGroupRuleExists",
        _ => "DuplicateRbacPolicy",
    }
}

// The type of a segment in use.
fn segment_word(segment: &Segment) -> &'static str
    ensures { result.now ≡ segment_type segment.now }
{
    match segment {
        Segment::Local | Segment::Flat { .. } => "FlatNetworkInUse",
        Segment::Vlan { .. } => "VlanIdInUse",
        Segment::Vxlan { .. } => "TunnelIdInUse",
    }
}

// The type of a refusal.
fn type_text(alloc: Global, refusal: &Refusal) -> Result<Text, OutOfMemory>
    ensures { IfOk result (λ t. t ≡ type_of refusal.now) }
{
    match refusal {
        Refusal::Malformed => Text::of(alloc, "MalformedRequest"),
        Refusal::HeadLarge => Text::of(alloc, "HeadTooLarge"),
        Refusal::BodyLarge => Text::of(alloc, "BodyTooLarge"),
        Refusal::NoLength => Text::of(alloc, "LengthRequired"),
        Refusal::NoCaller => Text::of(alloc, "NotAuthenticated"),
        Refusal::NoRoute => Text::of(alloc, "HTTPNotFound"),
        Refusal::NoMethod { .. } => Text::of(alloc, "MethodNotAllowed"),
        Refusal::BadBody { .. } => Text::of(alloc, "BadBody"),
        Refusal::Invalid { .. } => Text::of(alloc, "InvalidInput"),
        Refusal::NotFound { kind, .. } => joined(alloc, kind.as_str(), "NotFound"),
        Refusal::Forbidden { .. } => Text::of(alloc, "PolicyNotAuthorized"),
        Refusal::InUse { rule, .. } => Text::of(alloc, use_word(*rule)),
        Refusal::Taken { value, .. } => Text::of(alloc, taken_word(*value)),
        Refusal::Exists { kind, .. } => Text::of(alloc, exists_word(*kind)),
        Refusal::SegmentInUse { segment, .. } => Text::of(alloc, segment_word(segment)),
        Refusal::NoGateway { .. } => Text::of(alloc, "ExternalGatewayForFloatingIPNotFound"),
        Refusal::OverQuota { .. } => Text::of(alloc, "OverQuota"),
        Refusal::PoolsSpent { .. } => Text::of(alloc, "IpAddressGenerationFailure"),
        Refusal::NoNetwork => Text::of(alloc, "NoNetworkAvailable"),
        Refusal::CountersSpent => Text::of(alloc, "CountersSpent"),
        Refusal::StoreFault => Text::of(alloc, "StoreFault"),
        Refusal::OutOfMemory => Text::of(alloc, "OutOfMemory"),
        Refusal::NoHost { .. } => Text::of(alloc, "HostNotFound"),
        Refusal::NoMessage { .. } => Text::of(alloc, "MessageGone"),
        Refusal::VersionMoved { .. } => Text::of(alloc, "VersionMoved"),
        Refusal::NoPage { .. } => Text::of(alloc, "PageNotFound"),
    }
}

// Two texts, one after the other.
fn joined(alloc: Global, front: &str, back: &str) -> Result<Text, OutOfMemory>
    ensures { IfOk result (λ t. t ≡ front.now ++ back.now) }
{
    Ok(Text::from_string(format!(in alloc; "{front}{back}")?))
}

// Three texts, one after the other.
fn around(alloc: Global, front: &str, middle: &str, back: &str) -> Result<Text, OutOfMemory>
    ensures { IfOk result (λ t. t ≡ front.now ++ middle.now ++ back.now) }
{
    Ok(Text::from_string(format!(in alloc; "{front}{middle}{back}")?))
}

// A text around an id.
fn around_id(alloc: Global, front: &str, id: Id, back: &str) -> Result<Text, OutOfMemory>
    ensures { IfOk result (λ t. t ≡ front.now ++ ident_text id ++ back.now) }
{
    let id = id.print(alloc)?;
    around(alloc, front, id.as_str(), back)
}

// The name of a rule of policy.
fn rule_word(rule: PolicyRule) -> &'static str
    ensures { result.now ≡ rule_name rule }
{
    match rule {
        PolicyRule::AdminOnly => "admin_only",
        PolicyRule::OwnerOnly => "owner_only",
        PolicyRule::NetworkOwner => "network_owner",
        PolicyRule::NetworkAccess => "network_access",
        PolicyRule::PortDelete => "port_delete",
    }
}

// The message of a body that isn't in form.
fn bad_body(alloc: Global, member: &Option<Text>) -> Result<Text, OutOfMemory>
    ensures { IfOk result (λ t. t ≡ body_message member.now) }
{
    match member {
        None => Text::of(alloc, "The body is not an object."),
        Some(name) => around(
            alloc,
            "The body is not an object with the one member ",
            name.as_str(),
            ".",
        ),
    }
}

// What is told of the row that uses another.
fn user(alloc: Global, by: Option<(Kind, Id)>) -> Result<Text, OutOfMemory>
    ensures { IfOk result (λ t. t ≡ user_text by) }
{
    match by {
        None => Text::of(alloc, "."),
        Some((kind, id)) => {
            let word = kind.resource();
            let id = id.print(alloc)?;
            let id = id.as_str();
            Ok(Text::from_string(format!(in alloc; " by {word} {id}.")?))
        }
    }
}

// The message of a row in use.
fn in_use(alloc: Global, kind: Kind, id: Id, by: Option<(Kind, Id)>) -> Result<Text, OutOfMemory>
    ensures { IfOk result
        (λ t. t
        ≡ title_of kind ++ codes " " ++ ident_text id ++ codes " is in use" ++ user_text by) }
{
    let title = kind.title();
    let id = id.print(alloc)?;
    let id = id.as_str();
    let user = user(alloc, by)?;
    let user = user.as_str();
    Ok(Text::from_string(format!(in alloc; "{title} {id} is in use{user}")?))
}

// A value that is held.
fn value_words(alloc: Global, value: Value) -> Result<Text, OutOfMemory>
    ensures { IfOk result (λ t. t ≡ value_text value) }
{
    match value {
        Value::Address(address) => {
            let text = address.print(alloc)?;
            joined(alloc, "IP address ", text.as_str())
        }
        Value::Mac(mac) => {
            let text = mac.print(alloc)?;
            joined(alloc, "MAC address ", text.as_str())
        }
    }
}

// The message of a value that is held.
fn taken(alloc: Global, value: Value, network: Id) -> Result<Text, OutOfMemory>
    ensures { IfOk result
        (λ t. t
        ≡ value_text value ++ codes " is in use in network " ++ ident_text network
        ++ codes ".") }
{
    let value = value_words(alloc, value)?;
    let value = value.as_str();
    let network = network.print(alloc)?;
    let network = network.as_str();
    Ok(Text::from_string(format!(in alloc; "{value} is in use in network {network}.")?))
}

// The message of a subnet that no router joins to an external network.
fn no_gateway(alloc: Global, network: Id, subnet: Id) -> Result<Text, OutOfMemory>
    ensures { IfOk result
        (λ t. t
        ≡ codes "External network " ++ ident_text network
        ++ codes " is not reachable from subnet " ++ ident_text subnet ++ codes ".") }
{
    let network = network.print(alloc)?;
    let network = network.as_str();
    let subnet = subnet.print(alloc)?;
    let subnet = subnet.as_str();
    Ok(Text::from_string(format!(in alloc;
        "External network {network} is not reachable from subnet {subnet}."
    )?))
}

// The message of a quota that is exceeded.
fn over_quota(alloc: Global, resource: Kind, limit: u64, used: u64) -> Result<Text, OutOfMemory>
    ensures { IfOk result
        (λ t. t
        ≡ codes "Quota exceeded for " ++ resource_of resource ++ codes ": limit "
        ++ decimal limit ++ codes ", used " ++ decimal used ++ codes ".") }
{
    let word = resource.resource();
    Ok(Text::from_string(format!(in alloc;
        "Quota exceeded for {word}: limit {limit}, used {used}."
    )?))
}

// The message of a message that isn't kept.
fn no_message(alloc: Global, asked: u64, first: u64, last: u64) -> Result<Text, OutOfMemory>
    ensures { IfOk result
        (λ t. t
        ≡ codes "Message " ++ decimal asked ++ codes " is not kept: first " ++ decimal first
        ++ codes ", last " ++ decimal last ++ codes ".") }
{
    Ok(Text::from_string(format!(in alloc;
        "Message {asked} is not kept: first {first}, last {last}."
    )?))
}

// The message of a version that isn't the current one.
fn version_moved(alloc: Global, asked: u64, now: u64) -> Result<Text, OutOfMemory>
    ensures { IfOk result
        (λ t. t
        ≡ codes "Version " ++ decimal asked ++ codes " is not the version of now: "
        ++ decimal now ++ codes ".") }
{
    Ok(Text::from_string(format!(in alloc; "Version {asked} is not the version of now: {now}.")?))
}

// The message of a page that isn't there.
fn no_page(alloc: Global, number: u64) -> Result<Text, OutOfMemory>
    ensures { IfOk result
        (λ t. t ≡ codes "Page " ++ decimal number ++ codes " could not be found.") }
{
    Ok(Text::from_string(format!(in alloc; "Page {number} could not be found.")?))
}

// The message of a row that isn't found.
fn not_found(alloc: Global, kind: &Text, text: &Text) -> Result<Text, OutOfMemory>
    ensures { IfOk result
        (λ t. t ≡ kind.now ++ codes " " ++ text.now ++ codes " could not be found.") }
{
    let kind = kind.as_str();
    let text = text.as_str();
    Ok(Text::from_string(format!(in alloc; "{kind} {text} could not be found.")?))
}

const HEAD_LARGE: &str = "The request head is larger than 16384 bytes or 64 fields.";

const NO_LENGTH: &str = "The request needs a Content-Length and no transfer coding.";

const NO_METHOD: &str = "The method is not allowed for this resource.";

// The message of a refusal.
fn message(alloc: Global, refusal: &Refusal) -> Result<Text, OutOfMemory>
    ensures { IfOk result (λ t. t ≡ message_of refusal.now) }
{
    match refusal {
        Refusal::Malformed => Text::of(alloc, "The request could not be read."),
        Refusal::HeadLarge => Text::of(alloc, HEAD_LARGE),
        Refusal::BodyLarge => Text::of(alloc, "The request body is larger than 65536 bytes."),
        Refusal::NoLength => Text::of(alloc, NO_LENGTH),
        Refusal::NoCaller => Text::of(alloc, "The request names no caller."),
        Refusal::NoRoute => Text::of(alloc, "The resource could not be found."),
        Refusal::NoMethod { .. } => Text::of(alloc, NO_METHOD),
        Refusal::BadBody { member } => bad_body(alloc, member),
        Refusal::Invalid { name } => around(alloc, "Invalid input for ", name.as_str(), "."),
        Refusal::NotFound { kind, text } => not_found(alloc, kind, text),
        Refusal::Forbidden { rule } => around(
            alloc,
            "(rule:",
            rule_word(*rule),
            ") is disallowed by policy.",
        ),
        Refusal::InUse { kind, id, by, .. } => in_use(alloc, *kind, *id, *by),
        Refusal::Taken { value, network } => taken(alloc, *value, *network),
        Refusal::Exists { id, .. } => around_id(alloc, "An equal row exists: ", *id, "."),
        Refusal::SegmentInUse { network, .. } => around_id(
            alloc,
            "The segment is in use by network ",
            *network,
            ".",
        ),
        Refusal::NoGateway { network, subnet } => no_gateway(alloc, *network, *subnet),
        Refusal::OverQuota {
            resource,
            limit,
            used,
        } => over_quota(alloc, *resource, *limit, *used),
        Refusal::PoolsSpent { network } => around_id(
            alloc,
            "No more IP addresses available on network ",
            *network,
            ".",
        ),
        Refusal::NoNetwork => Text::of(alloc, "No tenant network is available for allocation."),
        Refusal::CountersSpent => Text::of(alloc, "A counter is at its last value."),
        Refusal::StoreFault => Text::of(alloc, "The store failed in this request."),
        Refusal::OutOfMemory => Text::of(alloc, "Memory could not be had."),
        Refusal::NoHost { name } => around(alloc, "Host ", name.as_str(), " could not be found."),
        Refusal::NoMessage { asked, first, last } => no_message(alloc, *asked, *first, *last),
        Refusal::VersionMoved { asked, now } => version_moved(alloc, *asked, *now),
        Refusal::NoPage { number } => no_page(alloc, *number),
    }
}

/// The status code, the type and the message of a refusal, exactly as clients read them.
pub fn fault_of(alloc: Global, refusal: &Refusal) -> Result<Fault, OutOfMemory>
    ensures code { IfOk result (λ f. f.code ≡ code_of refusal.now) }
    ensures kind { IfOk result (λ f. f.kind ≡ type_of refusal.now) }
    ensures message { IfOk result (λ f. f.message ≡ message_of refusal.now) }
    ensures reply { IfOk result (λ f. IsReplyCode f.code) }
{
    Ok(Fault {
        code: code(refusal),
        kind: type_text(alloc, refusal)?,
        message: message(alloc, refusal)?,
    })
}
