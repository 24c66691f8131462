//! Clause 3: rows in form.

ghost use Rattle.std.specs.Prelude.{◌≡◌};
ghost use Rattle.std.specs.List.{list_all};
ghost use Rattle.api_types.specs.Consistent.InForm as in_form;
ghost use Rattle.api_consistency.specs.Keys as keys;

use crate::looked::is_group_of;
use crate::meeting::each_meets;
use api_clauses::{FormedNetwork, FormedPort, FormedRouter, FormedSubnet};
use api_types::{Rows, RuleRow};

fn is_rule_of_group(rows: &Rows, rule: &RuleRow) -> bool
    ensures { result ≡ in_form.is_group_of rows.now.groups rule.now.project rule.now.group }
{
    is_group_of(rows, &rule.project, rule.group)
}

fn are_rules_of_groups(rows: &Rows) -> bool
    ensures { result
        ≡ list_all (λ r. in_form.is_group_of rows.now.groups r.project r.group) rows.now.rules }
{
    rows.rules()
        .rows()
        .iter()
        .all(|rule| is_rule_of_group(rows, rule))
}

/// Whether owners, addresses, numbers and lengths of lists are in form. Its cost grows with the
/// rows, and with the networks, of which a store has at most 4,000, for each subnet and DHCP port.
pub(crate) fn are_in_form(rows: &Rows) -> bool
    ensures { result ≡ keys.are_in_form rows.now }
{
    each_meets::<FormedNetwork>(rows)
        && (each_meets::<FormedSubnet>(rows)
            && (each_meets::<FormedPort>(rows)
                && (are_rules_of_groups(rows) && each_meets::<FormedRouter>(rows))))
}
