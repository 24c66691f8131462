//! Texts with rules of their own, and words.
ghost use Rattle.std.specs.Prelude.{◌≡◌, option_map};
ghost use Rattle.std.specs.List.{list_all};
ghost use Rattle.serde_json.specs.View.{view};
ghost use Rattle.json_values.specs.Grammars.{is_short, short_text, group_name, device_owner, is_project_byte, is_project_name, project_name, target_name, network_type_of, mode_of, direction_of, ethertype_of, named_protocol, protocol_in, protocol_of, action_of};

use crate::text::read_byte;
use crate::value::whole_of;
use api_types::{Action, Direction, Ethertype, Ipv6Mode, NetworkType};
use serde_json::Value;

// Whether a text has at most 255 characters.
fn is_short(text: &str) -> bool
    ensures { result ≡ is_short text.now }
{
    text.chars().count() <= 255
}

/// A text of at most 255 characters.
pub(crate) fn short_text(value: &Value) -> Option<&str>
    ensures { option_map (λ s. s.now) result ≡ short_text (view value.now) }
{
    match value.as_str() {
        Some(text) if is_short(text) => Some(text),
        _ => None,
    }
}

/// The name of a group that isn't each project's own.
pub(crate) fn group_name(value: &Value) -> Option<&str>
    ensures { option_map (λ s. s.now) result ≡ group_name (view value.now) }
{
    match short_text(value) {
        Some(text) if text != "default" => Some(text),
        _ => None,
    }
}

/// The owner of a device that isn't the server's.
pub(crate) fn device_owner(value: &Value) -> Option<&str>
    ensures { option_map (λ s. s.now) result ≡ device_owner (view value.now) }
{
    match short_text(value) {
        Some(text) if !text.as_bytes().starts_with(b"network:") => Some(text),
        _ => None,
    }
}

// Whether each byte may be in the name of a project.
fn are_project_bytes(bytes: &[u8]) -> bool
    ensures { result ≡ list_all is_project_byte bytes.now }
{
    bytes.iter().all(|b| b.is_ascii_alphanumeric() || (*b == b'-' || *b == b'_'))
}

// Whether a text is the name of a project.
fn is_project_name(text: &str) -> bool
    ensures { result ≡ is_project_name text.now }
{
    1 <= text.len() && (text.len() <= 64 && are_project_bytes(text.as_bytes()))
}

pub(crate) fn project_name(value: &Value) -> Option<&str>
    ensures { option_map (λ s. s.now) result ≡ project_name (view value.now) }
{
    match value.as_str() {
        Some(text) if is_project_name(text) => Some(text),
        _ => None,
    }
}

/// The name of a project, or `*`.
pub(crate) fn target_name(value: &Value) -> Option<&str>
    ensures { option_map (λ s. s.now) result ≡ target_name (view value.now) }
{
    match value.as_str() {
        Some(text) if text == "*" || is_project_name(text) => Some(text),
        _ => None,
    }
}

pub(crate) fn network_type_of(value: &Value) -> Option<NetworkType>
    ensures { result ≡ network_type_of (view value.now) }
{
    match value.as_str()? {
        "local" => Some(NetworkType::Local),
        "flat" => Some(NetworkType::Flat),
        "vlan" => Some(NetworkType::Vlan),
        "vxlan" => Some(NetworkType::Vxlan),
        _ => None,
    }
}

/// How the ports of a subnet of version 6 come by their addresses.
pub(crate) fn mode_of(value: &Value) -> Option<Ipv6Mode>
    ensures { result ≡ mode_of (view value.now) }
{
    match value.as_str()? {
        "slaac" => Some(Ipv6Mode::Slaac),
        "dhcpv6-stateful" => Some(Ipv6Mode::Stateful),
        "dhcpv6-stateless" => Some(Ipv6Mode::Stateless),
        _ => None,
    }
}

pub(crate) fn direction_of(value: &Value) -> Option<Direction>
    ensures { result ≡ direction_of (view value.now) }
{
    match value.as_str()? {
        "ingress" => Some(Direction::Ingress),
        "egress" => Some(Direction::Egress),
        _ => None,
    }
}

/// A version of IP in any case.
pub(crate) fn ethertype_of(value: &Value) -> Option<Ethertype>
    ensures { result ≡ ethertype_of (view value.now) }
{
    let text = value.as_str()?;
    if text.eq_ignore_ascii_case("ipv4") {
        Some(Ethertype::Ipv4)
    } else if text.eq_ignore_ascii_case("ipv6") {
        Some(Ethertype::Ipv6)
    } else {
        None
    }
}

// A protocol by its name (IANA).
fn named_protocol(text: &str) -> Option<u8>
    ensures { result ≡ named_protocol text.now }
{
    match text {
        "icmp" => Some(1),
        "igmp" => Some(2),
        "tcp" => Some(6),
        "udp" => Some(17),
        "gre" => Some(47),
        "esp" => Some(50),
        "ah" => Some(51),
        "ipv6-icmp" => Some(58),
        "icmpv6" => Some(58),
        "ospf" => Some(89),
        "vrrp" => Some(112),
        "sctp" => Some(132),
        _ => None,
    }
}

// A protocol by its name or its number's text.
fn protocol_in(text: &str) -> Option<u8>
    ensures { result ≡ protocol_in text.now }
{
    match named_protocol(text) {
        Some(number) => Some(number),
        None => read_byte(text),
    }
}

/// A protocol by its name, its number's text or its number.
pub(crate) fn protocol_of(value: &Value) -> Option<u8>
    ensures { result ≡ protocol_of (view value.now) }
{
    if let Some(text) = value.as_str() {
        return protocol_in(text);
    }
    match whole_of(value, 0, 255) {
        Some(number) => Some(number as u8),
        None => None,
    }
}

pub(crate) fn action_of(value: &Value) -> Option<Action>
    ensures { result ≡ action_of (view value.now) }
{
    match value.as_str()? {
        "access_as_shared" => Some(Action::Shared),
        "access_as_external" => Some(Action::External),
        _ => None,
    }
}
