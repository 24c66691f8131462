//! How many rows of a kind a project may have.

ghost use Rattle.std.specs.Prelude.{◌≡◌, None, Some, IfErr, OnOk};
ghost use Rattle.api_types.specs.declared.refusal.Refusal.TheVariants.{OverQuota as OverQuotaBy};
ghost use Rattle.api_policy.specs.Checks.{IsAnswerOf};
ghost use Rattle.api_policy.specs.Quotas as quotas_specs;

use api_types::{Kind, Refusal, Rows};
use net_addr::Text;
use net_settings::{Limit, Quotas, Settings};

/// One row more of a kind would be above the project's limit.
#[derive(Clone, Copy, Debug, PartialEq, Eq)]
pub struct OverQuota {
    pub resource: Kind,
    /// How many rows the project may have, at most 2147483647.
    pub limit: u64,
    /// How many it has.
    pub used: u64,
}

impl From<OverQuota> for Refusal {
    ghost from_gives = { λ over e. e ≡ OverQuotaBy over.resource over.limit over.used };

    fn from(over: OverQuota) -> Refusal {
        Refusal::OverQuota {
            resource: over.resource,
            limit: over.limit,
            used: over.used,
        }
    }
}

// How many rows of the kind the project has.
fn used_of(rows: &Rows, project: &Text, kind: Kind) -> usize
    ensures { result ≡ quotas_specs.used_of rows.now project.now kind }
{
    match kind {
        Kind::Project => 0,
        Kind::Network => rows.networks().owned_count(project),
        Kind::Subnet => rows.subnets().owned_count(project),
        Kind::Port => rows.ports().owned_count(project),
        Kind::Group => rows.groups().owned_count(project),
        Kind::Rule => rows.rules().owned_count(project),
        Kind::Router => rows.routers().owned_count(project),
        Kind::Floating => rows.floatings().owned_count(project),
        Kind::Policy => rows.policies().owned_count(project),
    }
}

fn limit_of(quotas: &Quotas, kind: Kind) -> Limit
    ensures { result ≡ quotas_specs.limit_of quotas.now kind }
{
    match kind {
        Kind::Project => Limit::Unlimited,
        Kind::Network => quotas.network,
        Kind::Subnet => quotas.subnet,
        Kind::Port => quotas.port,
        Kind::Group => quotas.security_group,
        Kind::Rule => quotas.security_group_rule,
        Kind::Router => quotas.router,
        Kind::Floating => quotas.floatingip,
        Kind::Policy => quotas.rbac_policy,
    }
}

/// Whether the project may have one row more of the kind, by the quotas of the settings. Its cost
/// doesn't grow with the rows.
pub fn within_quota(
    rows: &Rows,
    settings: &Settings,
    project: &Text,
    kind: Kind,
) -> Result<(), OverQuota>
    ensures ok { OnOk result (quotas_specs.over_quota settings.now rows.now project.now kind
        ≡ None) }
    ensures err { IfErr result
        (λ e. quotas_specs.over_quota settings.now rows.now project.now kind
        ≡ Some (OverQuotaBy e.resource e.limit e.used)) }
{
    let Limit::AtMost(limit) = limit_of(&settings.quotas(), kind) else {
        return Ok(());
    };
    let limit = u64::from(limit);
    let used = used_of(rows, project, kind) as u64;
    if used < limit {
        return Ok(());
    }
    Err(OverQuota {
        resource: kind,
        limit,
        used,
    })
}

/// The same as `within_quota`, as the refusal of a call.
pub fn over_quota(
    rows: &Rows,
    settings: &Settings,
    project: &Text,
    kind: Kind,
) -> Result<(), Refusal>
    ensures { IsAnswerOf (quotas_specs.over_quota settings.now rows.now project.now kind) result }
{
    within_quota(rows, settings, project, kind)?;
    Ok(())
}
