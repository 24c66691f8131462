//! Rules that say the same.

ghost use Rattle.std.specs.Prelude.{◌≡◌, option_copied};
ghost use Rattle.api_types.specs.Consistent.Groups.{same_rule};
ghost use Rattle.api_types.specs.Consistent.Groups as groups;
ghost use Rattle.api_secgroup.specs.RuleOf.{bare_rule};
ghost use Rattle.api_secgroup.specs.RuleParts as rule_parts;

use crate::parts::RuleParts;
use api_types::{Id, RuleRow, Shared};
use net_addr::Text;

fn same_match(rule: &RuleRow, parts: &RuleParts) -> bool
    ensures { result ≡ groups.same_match rule.now
        (bare_rule rule.now.group rule.now.project parts.now) }
{
    rule.protocol == parts.protocol
        && rule.low == parts.low
        && rule.high == parts.high
        && rule.remote_prefix == parts.remote_prefix
        && rule.remote_group == parts.remote_group
}

// Whether a rule is of this group and project and says this.
fn says(rule: &RuleRow, group: Id, project: &Text, parts: &RuleParts) -> bool
    ensures { result ≡ same_rule rule.now (bare_rule group project.now parts.now) }
{
    rule.group == group
        && (rule.project == *project
            && (rule.direction == parts.direction
                && (rule.ethertype == parts.ethertype && same_match(rule, parts))))
}

/// Whether two rules are equal but for their ids and descriptions. It allocates nothing.
pub fn equal_rules(a: &RuleRow, b: &RuleRow) -> bool
    ensures { result ≡ same_rule a.now b.now }
{
    says(a, b.group, &b.project, &RuleParts::of(b))
}

/// The first rule of a group and project that says this. Its cost grows with the rules, of which
/// those of other groups are told apart by the group alone.
pub fn equal_rule<'r>(
    rules: &'r [Shared<RuleRow>],
    group: Id,
    project: &Text,
    parts: &RuleParts,
) -> Option<&'r Shared<RuleRow>>
    ensures { option_copied result
        ≡ rule_parts.equal_rule rules.now (bare_rule group project.now parts.now) }
{
    rules.iter().find(|rule| says(rule, group, project, parts))
}
