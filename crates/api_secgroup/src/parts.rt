//! What a rule says of packets, and which attributes it may not have beside others.

ghost use Rattle.std.specs.Prelude.{◌≡◌, IfErr, IfOk, None, OnOk, Some};
ghost use Rattle.api_types.specs.declared.refusal.Refusal.TheVariants.{Invalid as InvalidBy};
ghost use Rattle.api_secgroup.specs.RuleOf.{attribute_name, bad_in, parts_asked, parts_of};
ghost use Rattle.api_secgroup.specs.RuleParts.{bad_part};
ghost use Rattle.api_secgroup.specs.RuleParts as rule_parts;

use crate::given::{value_of, value_or};
use api_types::{Direction, Ethertype, Id, RuleForm, RuleRow};
use net_addr::Prefix;

/// What a rule says of packets.
#[derive(Clone, Copy, Debug, PartialEq, Eq)]
pub struct RuleParts {
    /// Which way they go, seen from the port.
    pub direction: Direction,
    /// Their version of IP.
    pub ethertype: Ethertype,
    /// Their protocol by its number (IANA), or any.
    pub protocol: Option<u8>,
    /// The least port, or the type for ICMP and ICMPv6.
    pub low: Option<u16>,
    /// The greatest port, or the code for ICMP and ICMPv6.
    pub high: Option<u16>,
    /// Where the far address may be.
    pub remote_prefix: Option<Prefix>,
    /// The group of which the far address may be a member's.
    pub remote_group: Option<Id>,
}

/// An attribute of a rule that others in its body may forbid.
#[derive(Clone, Copy, Debug, PartialEq, Eq)]
pub enum RuleAttribute {
    PortRangeMax,
    PortRangeMin,
    Protocol,
    RemoteGroupId,
    RemoteIpPrefix,
}

/// The attribute of a rule that others in its body forbid.
#[derive(Clone, Copy, Debug, PartialEq, Eq)]
pub struct BadPart {
    pub name: RuleAttribute,
}

impl RuleAttribute {
    /// Its name in bodies.
    pub fn as_str(self) -> &'static str
        ensures { result.now ≡ attribute_name self }
    {
        match self {
            RuleAttribute::PortRangeMax => "port_range_max",
            RuleAttribute::PortRangeMin => "port_range_min",
            RuleAttribute::Protocol => "protocol",
            RuleAttribute::RemoteGroupId => "remote_group_id",
            RuleAttribute::RemoteIpPrefix => "remote_ip_prefix",
        }
    }
}

impl RuleParts {
    /// What a rule says.
    pub fn of(rule: &RuleRow) -> RuleParts
        ensures { result ≡ parts_of rule.now }
    {
        RuleParts {
            direction: rule.direction,
            ethertype: rule.ethertype,
            protocol: rule.protocol,
            low: rule.low,
            high: rule.high,
            remote_prefix: rule.remote_prefix,
            remote_group: rule.remote_group,
        }
    }

    // What a form asks for.
    fn asked(form: &RuleForm) -> RuleParts
        ensures { result ≡ parts_asked form.now }
    {
        RuleParts {
            direction: value_or(Direction::Ingress, &form.direction),
            ethertype: value_or(Ethertype::Ipv4, &form.ethertype),
            protocol: value_of(&form.protocol),
            low: value_of(&form.port_range_min),
            high: value_of(&form.port_range_max),
            remote_prefix: value_of(&form.remote_ip_prefix),
            remote_group: value_of(&form.remote_group_id),
        }
    }
}

// Whether the protocol is ICMP or ICMPv6, which have a type and a code.
fn is_icmp(protocol: Option<u8>) -> bool
    ensures { result ≡ rule_parts.is_icmp protocol }
{
    match protocol {
        Some(number) => number == 1 || number == 58,
        None => false,
    }
}

// Whether the protocol is TCP or UDP, which have ports.
fn has_ports(protocol: Option<u8>) -> bool
    ensures { result ≡ rule_parts.has_ports protocol }
{
    match protocol {
        Some(number) => number == 6 || number == 17,
        None => false,
    }
}

// A last port comes with a first one, and isn't below it.
fn is_bad_last_port(first: Option<u16>, last: Option<u16>) -> bool
    ensures { result ≡ rule_parts.is_bad_last_port first last }
{
    match (first, last) {
        (None, _) => false,
        (Some(_), None) => true,
        (Some(first), Some(last)) => last < 1 || (1 <= first && last < first),
    }
}

// A first port comes with a last one.
fn is_bad_first_port(first: Option<u16>, last: Option<u16>) -> bool
    ensures { result ≡ rule_parts.is_bad_first_port first last }
{
    match first {
        None => last.is_some(),
        Some(first) => first < 1,
    }
}

fn is_bad_code(kind: Option<u16>, code: Option<u16>) -> bool
    ensures { result ≡ rule_parts.is_bad_code kind code }
{
    match (kind, code) {
        (Some(_), Some(code)) => 255 < code,
        _ => false,
    }
}

// A code comes with a type.
fn is_bad_type(kind: Option<u16>, code: Option<u16>) -> bool
    ensures { result ≡ rule_parts.is_bad_type kind code }
{
    match kind {
        None => code.is_some(),
        Some(kind) => 255 < kind,
    }
}

fn is_bad_max(parts: &RuleParts) -> bool
    ensures { result ≡ rule_parts.is_bad_max parts.now.protocol parts.now.low parts.now.high }
{
    if has_ports(parts.protocol) {
        is_bad_last_port(parts.low, parts.high)
    } else if is_icmp(parts.protocol) {
        is_bad_code(parts.low, parts.high)
    } else {
        parts.high.is_some()
    }
}

fn is_bad_min(parts: &RuleParts) -> bool
    ensures { result ≡ rule_parts.is_bad_min parts.now.protocol parts.now.low parts.now.high }
{
    if has_ports(parts.protocol) {
        is_bad_first_port(parts.low, parts.high)
    } else if is_icmp(parts.protocol) {
        is_bad_type(parts.low, parts.high)
    } else {
        parts.low.is_some()
    }
}

// ICMPv6 is of version 6.
fn is_bad_protocol(parts: &RuleParts) -> bool
    ensures { result ≡ rule_parts.is_bad_protocol parts.now.protocol parts.now.ethertype }
{
    match parts.protocol {
        Some(number) => number == 58 && Ethertype::Ipv6 != parts.ethertype,
        None => false,
    }
}

// A prefix is of the rule's version.
fn is_bad_remote(parts: &RuleParts) -> bool
    ensures { result ≡ rule_parts.is_bad_remote parts.now.remote_prefix parts.now.ethertype }
{
    let Some(prefix) = &parts.remote_prefix else {
        return false;
    };
    match parts.ethertype {
        Ethertype::Ipv4 => !prefix.base.is_v4(),
        Ethertype::Ipv6 => prefix.base.is_v4(),
    }
}

// Refuses the first attribute, in byte order, that others forbid.
fn check(parts: &RuleParts) -> Result<(), BadPart>
    ensures ok { OnOk result (bad_in parts.now ≡ None) }
    ensures err { IfErr result
        (λ b. bad_in parts.now ≡ Some (InvalidBy (attribute_name b.name))) }
{
    if is_bad_max(parts) {
        return Err(BadPart {
            name: RuleAttribute::PortRangeMax,
        });
    }
    if is_bad_min(parts) {
        return Err(BadPart {
            name: RuleAttribute::PortRangeMin,
        });
    }
    if is_bad_protocol(parts) {
        return Err(BadPart {
            name: RuleAttribute::Protocol,
        });
    }
    if parts.remote_group.is_some() && parts.remote_prefix.is_some() {
        return Err(BadPart {
            name: RuleAttribute::RemoteGroupId,
        });
    }
    if is_bad_remote(parts) {
        return Err(BadPart {
            name: RuleAttribute::RemoteIpPrefix,
        });
    }
    Ok(())
}

/// What a rule is asked to say, or the first attribute, in byte order, that others in the body
/// forbid (Networking API v2.0, security group rules): TCP and UDP have both ends of a range of
/// ports or none, ICMP and ICMPv6 a code only with a type, other protocols neither; ICMPv6 and a
/// remote prefix are of the rule's version, and a remote group stands without a prefix. It
/// allocates nothing.
pub fn rule_of(form: &RuleForm) -> Result<RuleParts, BadPart>
    ensures parts { IfOk result (λ p. p ≡ parts_asked form.now) }
    ensures ok { OnOk result (bad_part form.now ≡ None) }
    ensures err { IfErr result
        (λ b. bad_part form.now ≡ Some (InvalidBy (attribute_name b.name))) }
{
    let parts = RuleParts::asked(form);
    check(&parts)?;
    Ok(parts)
}
