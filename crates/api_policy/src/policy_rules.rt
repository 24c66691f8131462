//! Which rule of policy forbids a call.

ghost use Rattle.std.specs.Prelude.{◌≡◌, None, Some, IfErr, OnOk, option_and_then};
ghost use Rattle.api_types.specs.Given.{value_of};
ghost use Rattle.api_policy.specs.Seen as seen;
ghost use Rattle.api_types.specs.declared.refusal.Refusal.TheVariants.{Forbidden as ForbiddenBy};
ghost use Rattle.api_policy.specs.May as may_specs;

use crate::permits::{
    breaks_admin_only, breaks_network_access, breaks_network_owner, breaks_owner_only,
    breaks_port_delete,
};
use crate::reserved::{
    floating_for_admin, given_id, is_for_other, is_snat_asked, network_for_admin, policy_for_admin,
    port_for_admin, port_for_owner, router_for_admin,
};
use crate::seen::{
    floating_seen, group_seen, network_seen, policy_seen, port_seen, router_seen, rule_seen,
    subnet_seen,
};
use api_types::{
    Call, Caller, Form, Id, InterfaceBy, Kind, NetworkRow, PolicyRule, PortForm, PortRow, Refusal,
    Rows,
};
use net_addr::Text;

/// A rule of policy forbids the call.
#[derive(Clone, Copy, Debug, PartialEq, Eq)]
pub struct Forbidden {
    pub rule: PolicyRule,
}

impl From<Forbidden> for Refusal {
    ghost from_gives = { λ forbidden e. e ≡ ForbiddenBy forbidden.rule };

    fn from(forbidden: Forbidden) -> Refusal {
        Refusal::Forbidden {
            rule: forbidden.rule,
        }
    }
}

fn rule_if(broken: bool, rule: PolicyRule) -> Option<PolicyRule>
    ensures { result ≡ may_specs.rule_if broken rule }
{
    if broken { Some(rule) } else { None }
}

fn admin_rule(caller: &Caller, needed: bool) -> Option<PolicyRule>
    ensures { result ≡ may_specs.admin_rule caller.now needed }
{
    rule_if(breaks_admin_only(caller, needed), PolicyRule::AdminOnly)
}

fn owner_rule(caller: &Caller, project: &Text) -> Option<PolicyRule>
    ensures { result ≡ may_specs.owner_rule caller.now project.now }
{
    rule_if(breaks_owner_only(caller, project), PolicyRule::OwnerOnly)
}

fn network_rule(rows: &Rows, caller: &Caller, needed: bool, network: Id) -> Option<PolicyRule>
    ensures { result ≡ may_specs.network_rule rows.now caller.now needed network }
{
    let broken = breaks_network_owner(rows, caller, needed, network);
    rule_if(broken, PolicyRule::NetworkOwner)
}

fn access_rule(rows: &Rows, caller: &Caller, network: Id) -> Option<PolicyRule>
    ensures { result ≡ may_specs.access_rule rows.now caller.now network }
{
    let broken = breaks_network_access(rows, caller, network);
    rule_if(broken, PolicyRule::NetworkAccess)
}

fn deletion_rule(rows: &Rows, caller: &Caller, port: &PortRow) -> Option<PolicyRule>
    ensures { result ≡ may_specs.deletion_rule rows.now caller.now port.now }
{
    rule_if(
        breaks_port_delete(rows, caller, port),
        PolicyRule::PortDelete,
    )
}

fn on_network(rows: &Rows, caller: &Caller, id: Option<Id>) -> Option<PolicyRule>
    ensures { result ≡ may_specs.on_network rows.now caller.now id }
{
    network_rule(rows, caller, true, network_seen(rows, caller, id)?.id)
}

fn network_owned(rows: &Rows, caller: &Caller, id: Option<Id>) -> Option<PolicyRule>
    ensures { result ≡ may_specs.network_owned rows.now caller.now id }
{
    owner_rule(caller, &network_seen(rows, caller, id)?.project)
}

fn subnet_owned(rows: &Rows, caller: &Caller, id: Option<Id>) -> Option<PolicyRule>
    ensures { result ≡ may_specs.subnet_owned rows.now caller.now id }
{
    network_rule(rows, caller, true, subnet_seen(rows, caller, id)?.network)
}

fn port_owned(rows: &Rows, caller: &Caller, id: Option<Id>) -> Option<PolicyRule>
    ensures { result ≡ may_specs.port_owned rows.now caller.now id }
{
    owner_rule(caller, &port_seen(rows, caller, id)?.project)
}

fn group_owned(rows: &Rows, caller: &Caller, id: Option<Id>) -> Option<PolicyRule>
    ensures { result ≡ may_specs.group_owned rows.now caller.now id }
{
    owner_rule(caller, &group_seen(rows, caller, id)?.project)
}

fn rule_owned(rows: &Rows, caller: &Caller, id: Option<Id>) -> Option<PolicyRule>
    ensures { result ≡ may_specs.rule_owned rows.now caller.now id }
{
    owner_rule(caller, &rule_seen(rows, caller, id)?.project)
}

fn router_owned(rows: &Rows, caller: &Caller, id: Option<Id>) -> Option<PolicyRule>
    ensures { result ≡ may_specs.router_owned rows.now caller.now id }
{
    owner_rule(caller, &router_seen(rows, caller, id)?.project)
}

fn floating_owned(rows: &Rows, caller: &Caller, id: Option<Id>) -> Option<PolicyRule>
    ensures { result ≡ may_specs.floating_owned rows.now caller.now id }
{
    owner_rule(caller, &floating_seen(rows, caller, id)?.project)
}

fn policy_owned(rows: &Rows, caller: &Caller, id: Option<Id>) -> Option<PolicyRule>
    ensures { result ≡ may_specs.policy_owned rows.now caller.now id }
{
    owner_rule(caller, &policy_seen(rows, caller, id)?.project)
}

fn port_on(
    rows: &Rows,
    caller: &Caller,
    form: &PortForm,
    network: &NetworkRow,
) -> Option<PolicyRule>
    ensures { result ≡ may_specs.port_on rows.now caller.now form.now network.now }
{
    network_rule(rows, caller, port_for_owner(form), network.id).or(access_rule(
        rows, caller, network.id,
    ))
}

fn port_on_named(rows: &Rows, caller: &Caller, form: &PortForm) -> Option<PolicyRule>
    ensures { result
        ≡ option_and_then (may_specs.port_on rows.now caller.now form.now)
        (seen.network_seen rows.now caller.now (value_of form.now.network_id)) }
{
    let network = network_seen(rows, caller, given_id(&form.network_id))?;
    port_on(rows, caller, form, network)
}

fn port_made_by(rows: &Rows, caller: &Caller, form: &PortForm) -> Option<PolicyRule>
    ensures { result ≡ may_specs.port_made_by rows.now caller.now form.now }
{
    admin_rule(caller, port_for_admin(caller, form)).or(port_on_named(rows, caller, form))
}

fn creation_rule(rows: &Rows, caller: &Caller, form: &Form) -> Option<PolicyRule>
    ensures { result ≡ may_specs.creation_rule rows.now caller.now form.now }
{
    match form {
        Form::Network(form) => admin_rule(caller, network_for_admin(caller, form)),
        Form::Subnet(form) => on_network(rows, caller, given_id(&form.network_id)),
        Form::Port(form) => port_made_by(rows, caller, form),
        Form::Group(form) => {
            admin_rule(
                caller,
                is_for_other(caller, &form.project_id, &form.tenant_id),
            )
        }
        Form::Rule(form) => group_owned(rows, caller, given_id(&form.security_group_id)),
        Form::Router(form) => admin_rule(caller, router_for_admin(caller, form)),
        Form::Floating(form) => admin_rule(caller, floating_for_admin(caller, form)),
        Form::Policy(form) => admin_rule(caller, policy_for_admin(caller, form)).or(on_network(
            rows,
            caller,
            given_id(&form.object_id),
        )),
    }
}

fn change_of_port(
    rows: &Rows,
    caller: &Caller,
    form: &PortForm,
    port: &PortRow,
) -> Option<PolicyRule>
    ensures { result ≡ may_specs.change_of_port rows.now caller.now form.now port.now }
{
    owner_rule(caller, &port.project).or(network_rule(
        rows,
        caller,
        port_for_owner(form),
        port.network,
    ))
}

fn change_of_named(
    rows: &Rows,
    caller: &Caller,
    id: Option<Id>,
    form: &PortForm,
) -> Option<PolicyRule>
    ensures { result
        ≡ option_and_then (may_specs.change_of_port rows.now caller.now form.now)
        (seen.port_seen rows.now caller.now id) }
{
    let port = port_seen(rows, caller, id)?;
    change_of_port(rows, caller, form, port)
}

fn port_changed_by(
    rows: &Rows,
    caller: &Caller,
    id: Option<Id>,
    form: &PortForm,
) -> Option<PolicyRule>
    ensures { result ≡ may_specs.port_changed_by rows.now caller.now id form.now }
{
    admin_rule(caller, port_for_admin(caller, form)).or(change_of_named(rows, caller, id, form))
}

fn update_rule(rows: &Rows, caller: &Caller, id: Option<Id>, form: &Form) -> Option<PolicyRule>
    ensures { result ≡ may_specs.update_rule rows.now caller.now id form.now }
{
    match form {
        Form::Network(form) => admin_rule(caller, network_for_admin(caller, form)).or(network_owned(
            rows, caller, id,
        )),
        Form::Subnet(_) => subnet_owned(rows, caller, id),
        Form::Port(form) => port_changed_by(rows, caller, id, form),
        Form::Group(_) => group_owned(rows, caller, id),
        Form::Rule(_) => None,
        Form::Router(form) => {
            admin_rule(caller, is_snat_asked(form)).or(router_owned(rows, caller, id))
        }
        Form::Floating(_) => floating_owned(rows, caller, id),
        Form::Policy(form) => {
            admin_rule(caller, policy_for_admin(caller, form)).or(policy_owned(rows, caller, id))
        }
    }
}

fn port_gone_by(rows: &Rows, caller: &Caller, id: Option<Id>) -> Option<PolicyRule>
    ensures { result
        ≡ option_and_then (may_specs.deletion_rule rows.now caller.now)
        (seen.port_seen rows.now caller.now id) }
{
    deletion_rule(rows, caller, port_seen(rows, caller, id)?)
}

fn gone_by(rows: &Rows, caller: &Caller, kind: Kind, id: Option<Id>) -> Option<PolicyRule>
    ensures { result ≡ may_specs.gone_by rows.now caller.now kind id }
{
    match kind {
        Kind::Project => None,
        Kind::Network => network_owned(rows, caller, id),
        Kind::Subnet => subnet_owned(rows, caller, id),
        Kind::Port => port_gone_by(rows, caller, id),
        Kind::Group => group_owned(rows, caller, id),
        Kind::Rule => rule_owned(rows, caller, id),
        Kind::Router => router_owned(rows, caller, id),
        Kind::Floating => floating_owned(rows, caller, id),
        Kind::Policy => policy_owned(rows, caller, id),
    }
}

fn named_by(rows: &Rows, caller: &Caller, by: &InterfaceBy) -> Option<PolicyRule>
    ensures { result ≡ may_specs.named_by rows.now caller.now by.now }
{
    match by {
        InterfaceBy::Subnet(id) => subnet_owned(rows, caller, Some(*id)),
        InterfaceBy::Port(id) => port_owned(rows, caller, Some(*id)),
    }
}

fn interface_rule(
    rows: &Rows,
    caller: &Caller,
    id: Option<Id>,
    by: &InterfaceBy,
) -> Option<PolicyRule>
    ensures { result ≡ may_specs.interface_rule rows.now caller.now id by.now }
{
    router_owned(rows, caller, id).or(named_by(rows, caller, by))
}

fn forbidden_by(rows: &Rows, caller: &Caller, call: &Call) -> Option<PolicyRule>
    ensures { result ≡ may_specs.forbidden_by rows.now caller.now call.now }
{
    match call {
        Call::List { kind: _, query: _ } => None,
        Call::Show {
            kind: _,
            name: _,
            fields: _,
        } => None,
        Call::Create { form } => creation_rule(rows, caller, form),
        Call::Update { name, form } => update_rule(rows, caller, name.id, form),
        Call::Delete { kind, name } => gone_by(rows, caller, *kind, name.id),
        Call::AddInterface { router, by } => interface_rule(rows, caller, router.id, by),
        Call::RemoveInterface { router, by } => interface_rule(rows, caller, router.id, by),
    }
}

/// Whether the rules of policy let the caller make the call, by what the body asks for and by the
/// rows that path and body name, where they are there and seen. Its cost grows with the policies,
/// and with the items of the body.
pub fn may(rows: &Rows, caller: &Caller, call: &Call) -> Result<(), Forbidden>
    ensures ok { OnOk result (may_specs.forbidden_by rows.now caller.now call.now ≡ None) }
    ensures err { IfErr result (λ e. may_specs.forbidden_by rows.now caller.now call.now
        ≡ Some e.rule) }
{
    match forbidden_by(rows, caller, call) {
        Some(rule) => Err(Forbidden { rule }),
        None => Ok(()),
    }
}
