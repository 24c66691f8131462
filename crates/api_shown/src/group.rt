//! What is printed of security groups and rules.

ghost use Rattle.std.specs.Prelude.{◌≡◌, IfOk, map, option_map};
ghost use Rattle.api_types.specs.Printed.{tree_of};
ghost use Rattle.api_policy.specs.Groups.{named_protocol, protocol_word, rule_members, rule_object};
ghost use Rattle.api_policy.specs.Groups as groups;
ghost use Rattle.api_policy.specs.Trees.{null_or};

use crate::members::Shows;
use crate::printable::{no_members, object_of, push, push_value, push_word};
use api_types::{Caller, Direction, Ethertype, GroupRow, Members, Printed, Rows, RuleRow};
use net_addr::{OutOfMemory, Text};
use std::alloc::Global;

fn direction_word(direction: Direction) -> &'static str
    ensures { result.now ≡ groups.direction_word direction }
{
    match direction {
        Direction::Ingress => "ingress",
        Direction::Egress => "egress",
    }
}

fn ethertype_word(ethertype: Ethertype) -> &'static str
    ensures { result.now ≡ groups.ethertype_word ethertype }
{
    match ethertype {
        Ethertype::Ipv4 => "IPv4",
        Ethertype::Ipv6 => "IPv6",
    }
}

// The name of a protocol that has one.
fn protocol_name(protocol: u8) -> Option<&'static str>
    ensures { option_map (λ name. name.now) result ≡ named_protocol protocol }
{
    match protocol {
        1 => Some("icmp"),
        2 => Some("igmp"),
        6 => Some("tcp"),
        17 => Some("udp"),
        47 => Some("gre"),
        50 => Some("esp"),
        51 => Some("ah"),
        58 => Some("ipv6-icmp"),
        89 => Some("ospf"),
        112 => Some("vrrp"),
        132 => Some("sctp"),
        _ => None,
    }
}

#[tactic(auto, unfolding(api_policy::specs::Groups::protocol_word))]
fn protocol_printed(alloc: Global, protocol: u8) -> Result<Printed, OutOfMemory>
    ensures { IfOk result (λ p. tree_of p ≡ protocol_word protocol) }
{
    match protocol_name(protocol) {
        Some(name) => Ok(Printed::Constant(name)),
        None => Ok(Printed::Word(Text::from_string(protocol.to_string(alloc)?))),
    }
}

fn protocol_of(alloc: Global, rule: &RuleRow) -> Result<Printed, OutOfMemory>
    ensures { IfOk result (λ p. tree_of p ≡ null_or protocol_word rule.now.protocol) }
{
    match rule.protocol {
        Some(protocol) => protocol_printed(alloc, protocol),
        None => Ok(Printed::Null),
    }
}

impl Shows for RuleRow {
    ghost use Rattle.api_policy.specs.Groups.{rule_members};
    ghost use Rattle.std.specs.Prelude.{refl, true};

    ghost members_of = { λ _ _ r. rule_members r };

    ghost is_apart = { true };

    ghost apart = { λ _ _ _ _ _. refl };

    fn is_apart() -> bool {
        true
    }

    fn members(
        &self,
        alloc: Global,
        _rows: &Rows,
        _caller: &Caller,
    ) -> Result<Members, OutOfMemory> {
        let protocol = protocol_of(alloc, self)?;
        let direction = direction_word(self.direction);
        let ethertype = ethertype_word(self.ethertype);
        let mut all = no_members(alloc)?;
        push(alloc, &mut all, "description", &self.description)?;
        push_word(&mut all, "direction", direction)?;
        push_word(&mut all, "ethertype", ethertype)?;
        push(alloc, &mut all, "id", &self.id)?;
        push(alloc, &mut all, "port_range_max", &self.high)?;
        push(alloc, &mut all, "port_range_min", &self.low)?;
        push(alloc, &mut all, "project_id", &self.project)?;
        push_value(&mut all, "protocol", protocol)?;
        push(alloc, &mut all, "remote_group_id", &self.remote_group)?;
        push(alloc, &mut all, "remote_ip_prefix", &self.remote_prefix)?;
        push(alloc, &mut all, "security_group_id", &self.group)?;
        push(alloc, &mut all, "tenant_id", &self.project)?;
        Ok(all)
    }
}

fn rule_printed(
    alloc: Global,
    rows: &Rows,
    caller: &Caller,
    rule: &RuleRow,
) -> Result<Printed, OutOfMemory>
    ensures { IfOk result (λ p. tree_of p ≡ rule_object rule.now) }
{
    Ok(object_of(rule.members(alloc, rows, caller)?))
}

// The rules of a group, as objects.
fn rules_of(
    alloc: Global,
    rows: &Rows,
    caller: &Caller,
    group: &GroupRow,
) -> Result<Vec<Printed>, OutOfMemory>
    ensures { IfOk result
        (λ v. map tree_of v.items ≡ map rule_object (groups.rules_of rows.now.rules group.now)) }
{
    let mut objects = Vec::new(alloc);
    for rule in rows.rules().rows() {
        if group.id == rule.group {
            objects.push(rule_printed(alloc, rows, caller, rule)?)?;
        }
    }
    Ok(objects)
}

impl Shows for GroupRow {
    ghost use Rattle.api_policy.specs.Groups.{group_members};
    ghost use Rattle.std.specs.Prelude.{refl, true};

    ghost members_of = { λ rows _ g. group_members rows g };

    ghost is_apart = { true };

    ghost apart = { λ _ _ _ _ _. refl };

    fn is_apart() -> bool {
        true
    }

    fn members(&self, alloc: Global, rows: &Rows, caller: &Caller) -> Result<Members, OutOfMemory> {
        let rules = rules_of(alloc, rows, caller, self)?;
        let mut all = no_members(alloc)?;
        push(alloc, &mut all, "description", &self.description)?;
        push(alloc, &mut all, "id", &self.id)?;
        push(alloc, &mut all, "name", &self.name)?;
        push(alloc, &mut all, "project_id", &self.project)?;
        let rules = Printed::Items(rules);
        push_value(&mut all, "security_group_rules", rules)?;
        push(alloc, &mut all, "tenant_id", &self.project)?;
        Ok(all)
    }
}
