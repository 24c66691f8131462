//! The clauses that several kinds have, each searched for the first row that breaks it.

ghost use Rattle.std.specs.Prelude.{◌≡◌};
ghost use Rattle.api_check.specs.FirstBroken as breaking;

use crate::broken::{Inconsistent, first_broken_row};
use crate::numbered::broken_project;
use api_clauses::{
    ApartPort, ApartSubnet, FormedNetwork, FormedPort, FormedRouter, FormedRule, FormedSubnet,
    GroupedPort, GroupedProject, GroupedRule, NamedFloating, NamedGroup, NamedNetwork, NamedPolicy,
    NamedPort, NamedRouter, NamedRule, NamedSubnet, Numbered, OnlyPolicy, PermittedFloating,
    PermittedRouter, ServedFloating, ServedNetwork, ServedRouter, ServingPort,
};
use api_types::{
    FloatingRow, GroupRow, NetworkRow, PolicyRow, PortRow, RouterRow, Rows, RuleRow, SubnetRow,
};

/// Names, ordinals and counts of projects, and the ids of all other rows.
#[tactic(auto, unfolding(crate::specs::FirstBroken::numbers_broken, crate::specs::Broken::first_some))]
pub(crate) fn broken_number(rows: &Rows) -> Option<Inconsistent>
    ensures { result ≡ breaking.numbers_broken rows.now }
{
    broken_project(rows)
        .or_else(|| first_broken_row::<Numbered<NetworkRow>>(rows))
        .or_else(|| first_broken_row::<Numbered<SubnetRow>>(rows))
        .or_else(|| first_broken_row::<Numbered<PortRow>>(rows))
        .or_else(|| first_broken_row::<Numbered<GroupRow>>(rows))
        .or_else(|| first_broken_row::<Numbered<RuleRow>>(rows))
        .or_else(|| first_broken_row::<Numbered<RouterRow>>(rows))
        .or_else(|| first_broken_row::<Numbered<FloatingRow>>(rows))
        .or_else(|| first_broken_row::<Numbered<PolicyRow>>(rows))
}

/// What rows name, and their projects.
#[tactic(auto, unfolding(crate::specs::FirstBroken::names_broken, crate::specs::Broken::first_some))]
pub(crate) fn broken_name(rows: &Rows) -> Option<Inconsistent>
    ensures { result ≡ breaking.names_broken rows.now }
{
    first_broken_row::<NamedNetwork>(rows)
        .or_else(|| first_broken_row::<NamedSubnet>(rows))
        .or_else(|| first_broken_row::<NamedPort>(rows))
        .or_else(|| first_broken_row::<NamedGroup>(rows))
        .or_else(|| first_broken_row::<NamedRule>(rows))
        .or_else(|| first_broken_row::<NamedRouter>(rows))
        .or_else(|| first_broken_row::<NamedFloating>(rows))
        .or_else(|| first_broken_row::<NamedPolicy>(rows))
}

/// Owners, addresses, numbers and lengths of lists.
#[tactic(auto, unfolding(crate::specs::FirstBroken::forms_broken, crate::specs::Broken::first_some))]
pub(crate) fn broken_form(rows: &Rows) -> Option<Inconsistent>
    ensures { result ≡ breaking.forms_broken rows.now }
{
    first_broken_row::<FormedNetwork>(rows)
        .or_else(|| first_broken_row::<FormedSubnet>(rows))
        .or_else(|| first_broken_row::<FormedPort>(rows))
        .or_else(|| first_broken_row::<FormedRule>(rows))
        .or_else(|| first_broken_row::<FormedRouter>(rows))
}

/// Subnets that overlap, in a network or at a router.
#[tactic(auto, unfolding(crate::specs::FirstBroken::disjoint_broken, crate::specs::Broken::first_some))]
pub(crate) fn broken_disjoint(rows: &Rows) -> Option<Inconsistent>
    ensures { result ≡ breaking.disjoint_broken rows.now }
{
    first_broken_row::<ApartSubnet>(rows).or_else(|| first_broken_row::<ApartPort>(rows))
}

/// The ports of DHCP, of routers and of floating addresses.
#[tactic(auto, unfolding(crate::specs::FirstBroken::services_broken, crate::specs::Broken::first_some))]
pub(crate) fn broken_service(rows: &Rows) -> Option<Inconsistent>
    ensures { result ≡ breaking.services_broken rows.now }
{
    first_broken_row::<ServedNetwork>(rows)
        .or_else(|| first_broken_row::<ServingPort>(rows))
        .or_else(|| first_broken_row::<ServedRouter>(rows))
        .or_else(|| first_broken_row::<ServedFloating>(rows))
}

/// Default groups, groups of other projects, and rules that stand twice.
#[tactic(auto, unfolding(crate::specs::FirstBroken::groups_broken, crate::specs::Broken::first_some))]
pub(crate) fn broken_group(rows: &Rows) -> Option<Inconsistent>
    ensures { result ≡ breaking.groups_broken rows.now }
{
    first_broken_row::<GroupedProject>(rows)
        .or_else(|| first_broken_row::<GroupedPort>(rows))
        .or_else(|| first_broken_row::<GroupedRule>(rows))
}

/// Gateways and floating addresses on networks that are not external, and policies that stand
/// twice.
#[tactic(auto, unfolding(crate::specs::FirstBroken::outsides_broken, crate::specs::Broken::first_some))]
pub(crate) fn broken_outside(rows: &Rows) -> Option<Inconsistent>
    ensures { result ≡ breaking.outsides_broken rows.now }
{
    first_broken_row::<PermittedRouter>(rows)
        .or_else(|| first_broken_row::<PermittedFloating>(rows))
        .or_else(|| first_broken_row::<OnlyPolicy>(rows))
}
