//! Variants by their names.
ghost use Rattle.std.specs.Prelude.{◌≡◌, ⊤};
ghost use Rattle.api_types.specs.Printed.{word};
ghost use Rattle.wire_text.specs.NamedVariants as variants;
ghost use Rattle.wire_text.specs.VariantNames as names;

use crate::refusal::TextRefusal;
use crate::value::{FromJson, NotNull, ToJson};
use crate::word::read_word;
use api_types::{Action, Direction, Ethertype, Ipv6Mode, Kind, Vif};
use net_addr::OutOfMemory;
use serde_json::Value;
use std::alloc::Global;

fn kind_name(value: Kind) -> &'static str
    ensures { result.now ≡ names.kind_name value }
{
    match value {
        Kind::Project => "Project",
        Kind::Network => "Network",
        Kind::Subnet => "Subnet",
        Kind::Port => "Port",
        Kind::Group => "Group",
        Kind::Rule => "Rule",
        Kind::Router => "Router",
        Kind::Floating => "Floating",
        Kind::Policy => "Policy",
    }
}

fn find_kind(name: &str) -> Option<Kind>
    ensures { result ≡ variants.kind_named name.now }
{
    if name == "Project" {
        Some(Kind::Project)
    } else if name == "Network" {
        Some(Kind::Network)
    } else if name == "Subnet" {
        Some(Kind::Subnet)
    } else if name == "Port" {
        Some(Kind::Port)
    } else if name == "Group" {
        Some(Kind::Group)
    } else if name == "Rule" {
        Some(Kind::Rule)
    } else if name == "Router" {
        Some(Kind::Router)
    } else if name == "Floating" {
        Some(Kind::Floating)
    } else if name == "Policy" {
        Some(Kind::Policy)
    } else {
        None
    }
}

impl ToJson for Kind {
    ghost tree = { λ v. word (names.kind_name v) };

    fn to_json(&self, alloc: Global) -> Result<Value, OutOfMemory> {
        Ok(Value::try_from_str(alloc, kind_name(*self))?)
    }
}

impl FromJson for Kind {
    ghost fits = { λ v. ⊤ };

    fn from_json(_alloc: Global, value: &Value) -> Result<Kind, TextRefusal> {
        match find_kind(read_word(value)?) {
            Some(kind) => Ok(kind),
            None => Err(TextRefusal::BadText),
        }
    }
}

fn mode_name(value: Ipv6Mode) -> &'static str
    ensures { result.now ≡ names.mode_name value }
{
    match value {
        Ipv6Mode::Slaac => "Slaac",
        Ipv6Mode::Stateful => "Stateful",
        Ipv6Mode::Stateless => "Stateless",
    }
}

fn find_mode(name: &str) -> Option<Ipv6Mode>
    ensures { result ≡ variants.mode_named name.now }
{
    if name == "Slaac" {
        Some(Ipv6Mode::Slaac)
    } else if name == "Stateful" {
        Some(Ipv6Mode::Stateful)
    } else if name == "Stateless" {
        Some(Ipv6Mode::Stateless)
    } else {
        None
    }
}

impl ToJson for Ipv6Mode {
    ghost tree = { λ v. word (names.mode_name v) };

    fn to_json(&self, alloc: Global) -> Result<Value, OutOfMemory> {
        Ok(Value::try_from_str(alloc, mode_name(*self))?)
    }
}

impl FromJson for Ipv6Mode {
    ghost fits = { λ v. ⊤ };

    fn from_json(_alloc: Global, value: &Value) -> Result<Ipv6Mode, TextRefusal> {
        match find_mode(read_word(value)?) {
            Some(mode) => Ok(mode),
            None => Err(TextRefusal::BadText),
        }
    }
}

impl NotNull for Ipv6Mode {
    ghost not_null = { λ x. tt };
}

fn vif_name(value: Vif) -> &'static str
    ensures { result.now ≡ names.vif_name value }
{
    match value {
        Vif::Unbound => "Unbound",
        Vif::Failed => "Failed",
        Vif::Ovs => "Ovs",
    }
}

fn find_vif(name: &str) -> Option<Vif>
    ensures { result ≡ variants.vif_named name.now }
{
    if name == "Unbound" {
        Some(Vif::Unbound)
    } else if name == "Failed" {
        Some(Vif::Failed)
    } else if name == "Ovs" {
        Some(Vif::Ovs)
    } else {
        None
    }
}

impl ToJson for Vif {
    ghost tree = { λ v. word (names.vif_name v) };

    fn to_json(&self, alloc: Global) -> Result<Value, OutOfMemory> {
        Ok(Value::try_from_str(alloc, vif_name(*self))?)
    }
}

impl FromJson for Vif {
    ghost fits = { λ v. ⊤ };

    fn from_json(_alloc: Global, value: &Value) -> Result<Vif, TextRefusal> {
        match find_vif(read_word(value)?) {
            Some(vif) => Ok(vif),
            None => Err(TextRefusal::BadText),
        }
    }
}

fn direction_name(value: Direction) -> &'static str
    ensures { result.now ≡ names.direction_name value }
{
    match value {
        Direction::Ingress => "Ingress",
        Direction::Egress => "Egress",
    }
}

fn find_direction(name: &str) -> Option<Direction>
    ensures { result ≡ variants.direction_named name.now }
{
    if name == "Ingress" {
        Some(Direction::Ingress)
    } else if name == "Egress" {
        Some(Direction::Egress)
    } else {
        None
    }
}

impl ToJson for Direction {
    ghost tree = { λ v. word (names.direction_name v) };

    fn to_json(&self, alloc: Global) -> Result<Value, OutOfMemory> {
        Ok(Value::try_from_str(alloc, direction_name(*self))?)
    }
}

impl FromJson for Direction {
    ghost fits = { λ v. ⊤ };

    fn from_json(_alloc: Global, value: &Value) -> Result<Direction, TextRefusal> {
        match find_direction(read_word(value)?) {
            Some(direction) => Ok(direction),
            None => Err(TextRefusal::BadText),
        }
    }
}

fn ethertype_name(value: Ethertype) -> &'static str
    ensures { result.now ≡ names.ethertype_name value }
{
    match value {
        Ethertype::Ipv4 => "Ipv4",
        Ethertype::Ipv6 => "Ipv6",
    }
}

fn find_ethertype(name: &str) -> Option<Ethertype>
    ensures { result ≡ variants.ethertype_named name.now }
{
    if name == "Ipv4" {
        Some(Ethertype::Ipv4)
    } else if name == "Ipv6" {
        Some(Ethertype::Ipv6)
    } else {
        None
    }
}

impl ToJson for Ethertype {
    ghost tree = { λ v. word (names.ethertype_name v) };

    fn to_json(&self, alloc: Global) -> Result<Value, OutOfMemory> {
        Ok(Value::try_from_str(alloc, ethertype_name(*self))?)
    }
}

impl FromJson for Ethertype {
    ghost fits = { λ v. ⊤ };

    fn from_json(_alloc: Global, value: &Value) -> Result<Ethertype, TextRefusal> {
        match find_ethertype(read_word(value)?) {
            Some(ethertype) => Ok(ethertype),
            None => Err(TextRefusal::BadText),
        }
    }
}

fn action_name(value: Action) -> &'static str
    ensures { result.now ≡ names.action_name value }
{
    match value {
        Action::Shared => "Shared",
        Action::External => "External",
    }
}

fn find_action(name: &str) -> Option<Action>
    ensures { result ≡ variants.action_named name.now }
{
    if name == "Shared" {
        Some(Action::Shared)
    } else if name == "External" {
        Some(Action::External)
    } else {
        None
    }
}

impl ToJson for Action {
    ghost tree = { λ v. word (names.action_name v) };

    fn to_json(&self, alloc: Global) -> Result<Value, OutOfMemory> {
        Ok(Value::try_from_str(alloc, action_name(*self))?)
    }
}

impl FromJson for Action {
    ghost fits = { λ v. ⊤ };

    fn from_json(_alloc: Global, value: &Value) -> Result<Action, TextRefusal> {
        match find_action(read_word(value)?) {
            Some(action) => Ok(action),
            None => Err(TextRefusal::BadText),
        }
    }
}
