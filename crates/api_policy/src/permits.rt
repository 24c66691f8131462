//! The rules of policy, which administrators meet.

ghost use Rattle.std.specs.Prelude.{◌≡◌};
ghost use Rattle.api_types.specs.Refusing.{when};
ghost use Rattle.api_types.specs.declared.refusal.Refusal.TheVariants.{Forbidden as ForbiddenBy};
ghost use Rattle.api_policy.specs.Checks.{IsAnswerOf};
ghost use Rattle.api_policy.specs.Permits as permits;

use crate::visible::{Visible, is_own, owns_network, uses_network};
use api_types::{Caller, Id, PolicyRule, PortRow, Refusal, Rows};
use net_addr::Text;

// Whether a caller who is no administrator asks for what is for administrators alone.
pub(crate) fn breaks_admin_only(caller: &Caller, needed: bool) -> bool
    ensures { result ≡ permits.breaks_admin_only caller.now needed }
{
    needed && !caller.admin
}

// Whether a row is another project's.
pub(crate) fn breaks_owner_only(caller: &Caller, project: &Text) -> bool
    ensures { result ≡ permits.breaks_owner_only caller.now project.now }
{
    !is_own(caller, project)
}

// Whether what is asked is for the network's owner, and that is another project.
pub(crate) fn breaks_network_owner(rows: &Rows, caller: &Caller, needed: bool, network: Id) -> bool
    ensures { result ≡ permits.breaks_network_owner rows.now caller.now needed network }
{
    needed && !(caller.admin || owns_network(rows, &caller.project, network))
}

// Whether the network is neither the caller's project's nor shared with it.
pub(crate) fn breaks_network_access(rows: &Rows, caller: &Caller, network: Id) -> bool
    ensures { result ≡ permits.breaks_network_access rows.now caller.now network }
{
    !(caller.admin || uses_network(rows, &caller.project, network))
}

// Whether neither the port nor its network is the caller's project's.
pub(crate) fn breaks_port_delete(rows: &Rows, caller: &Caller, port: &PortRow) -> bool
    ensures { result ≡ permits.breaks_port_delete rows.now caller.now port.now }
{
    !port.is_seen(rows, caller)
}

fn ensure_rule_kept(broken: bool, rule: PolicyRule) -> Result<(), Refusal>
    ensures { IsAnswerOf (when broken (ForbiddenBy rule)) result }
{
    if broken {
        Err(Refusal::Forbidden { rule })
    } else {
        Ok(())
    }
}

/// Refuses what is for administrators alone, where the call needs it and the caller is none.
pub fn admin_only(caller: &Caller, needed: bool) -> Result<(), Refusal>
    ensures { IsAnswerOf (permits.admin_only caller.now needed) result }
{
    ensure_rule_kept(breaks_admin_only(caller, needed), PolicyRule::AdminOnly)
}

/// Refuses a row that is another project's.
pub fn owner_only(caller: &Caller, project: &Text) -> Result<(), Refusal>
    ensures { IsAnswerOf (permits.owner_only caller.now project.now) result }
{
    ensure_rule_kept(breaks_owner_only(caller, project), PolicyRule::OwnerOnly)
}

/// Refuses what is for the network's owner alone, where the call needs it and the network isn't
/// the caller's project's. Its cost doesn't grow with the rows.
pub fn network_owner(rows: &Rows, caller: &Caller, needed: bool, network: Id) -> Result<(), Refusal>
    ensures { IsAnswerOf (permits.network_owner rows.now caller.now needed network) result }
{
    ensure_rule_kept(
        breaks_network_owner(rows, caller, needed, network),
        PolicyRule::NetworkOwner,
    )
}

/// Refuses a network that is neither the caller's project's nor shared with it. Its cost grows with
/// the policies.
pub fn network_access(rows: &Rows, caller: &Caller, network: Id) -> Result<(), Refusal>
    ensures { IsAnswerOf (permits.network_access rows.now caller.now network) result }
{
    ensure_rule_kept(
        breaks_network_access(rows, caller, network),
        PolicyRule::NetworkAccess,
    )
}

/// Refuses a port of which neither it nor its network is the caller's project's. Its cost doesn't
/// grow with the rows.
pub fn port_delete(rows: &Rows, caller: &Caller, port: &PortRow) -> Result<(), Refusal>
    ensures { IsAnswerOf (permits.port_delete rows.now caller.now port.now) result }
{
    ensure_rule_kept(
        breaks_port_delete(rows, caller, port),
        PolicyRule::PortDelete,
    )
}
