//! Whether the rules of a port's groups let a packet pass.

ghost use Rattle.std.specs.Prelude.{◌≡◌};
ghost use Rattle.plane_types.specs.Filter.{far_fits as fits_far, rule_matches as matches_rule, rules_allow as allowed_by_rules};
ghost use Rattle.api_types.specs.Members.{is_member as is_member_of};

use api_secgroup::is_member;
use api_types::{Direction, PortRow, Rows, RuleRow};
use net_addr::Addr;
use plane_types::{Key, far_of, in_range, is_protocol};

// Whether the far address is in the rule's prefix, or a member's of its group, or both are null.
fn far_fits(rows: &Rows, rule: &RuleRow, far: &Addr) -> bool
    ensures { result
        ≡ fits_far (is_member_of rows.now) rule.now.remote_prefix rule.now.remote_group far.now }
{
    match (rule.remote_prefix, rule.remote_group) {
        (None, None) => true,
        (Some(prefix), None) => prefix.contains(*far),
        (None, Some(group)) => is_member(rows, group, far),
        (Some(prefix), Some(group)) => prefix.contains(*far) || is_member(rows, group, far),
    }
}

#[tactic(auto, unfolding(plane_types::specs::Filter::rule_matches))]
fn rule_matches(rows: &Rows, direction: Direction, key: &Key, rule: &RuleRow) -> bool
    ensures { result ≡ matches_rule rows.now direction key.now rule.now }
{
    let far = far_of(direction, key);
    rule.direction == direction
        && rule.ethertype == key.ends.ethertype()
        && is_protocol(rule.protocol, &key.ends, key.kind)
        && in_range(rule.low, rule.high, &key.ends, key.kind, key.dport)
        && far_fits(rows, rule, &far)
}

/// Whether some rule of some group of the port lets a key pass in a direction. Its cost grows with
/// the rules, and for those with a remote group with the ports.
#[tactic(auto, unfolding(plane_types::specs::Filter::rules_allow))]
pub(crate) fn rules_allow(rows: &Rows, port: &PortRow, direction: Direction, key: &Key) -> bool
    ensures { result ≡ allowed_by_rules rows.now port.now direction key.now }
{
    rows.rules().rows().iter().any(|rule| {
        port.names_group(rule.group) && rule_matches(rows, direction, key, rule)
    })
}
