//! The plan of a call, by its kind.
ghost use Rattle.std.specs.Prelude.{◌≡◌, IfErr, IfOk, not, true};
ghost use Rattle.api_types.specs.Lists.{is_empty};
ghost use Rattle.api_types.specs.Outcome.{Told};
ghost use Rattle.api_types.specs.Printed.{reply_of};
ghost use Rattle.call_parts.specs.InForm.{IsInForm, has_needed, is_form};
ghost use Rattle.call_parts.specs.Answers.{IsRefusalOf};
ghost use Rattle.api_machine.specs.Plan.{Answers};
ghost use Rattle.api_machine.specs.WholeStep.{api_step, row_created, row_deleted, row_shown, row_updated};

use crate::planned::{Planned, plan_creation, plan_deletion, plan_update};
use crate::reads::{list, show};
use api_types::{
    Answer, Call, FloatingRow, Form, GroupRow, IdText, Kind, NetworkRow, PolicyRow, PortRow,
    Refusal, RouterRow, RuleRow, SubnetRow,
};
use call_parts::{Asking, not_found};
use net_addr::Names;
use plan_floatings::{create_floating, delete_floating, update_floating};
use plan_groups::{create_group, create_rule, delete_group, delete_rule, update_group};
use plan_networks::{create_network, delete_network, update_network};
use plan_policies::{create_policy, delete_policy, update_policy};
use plan_ports::{create_port, delete_port, update_port};
use plan_routers::{
    PlannedInterface, add_interface, create_router, delete_router, remove_interface, update_router,
};
use plan_subnets::{create_subnet, delete_subnet, update_subnet};
use std::alloc::Global;

fn show_by_kind(
    alloc: Global,
    asking: &Asking<'_>,
    kind: Kind,
    name: &IdText,
    fields: &Names,
) -> Result<Answer, Refusal>
    ensures ok { IfOk result
        (λ a. row_shown asking.now.state asking.now.caller kind name.now fields.now
        ≡ Told (reply_of a)) }
    ensures err { IfErr result
        (IsRefusalOf (row_shown asking.now.state asking.now.caller kind name.now fields.now)) }
{
    match kind {
        Kind::Project => Err(not_found(alloc, Kind::Project, &name.text)),
        Kind::Network => show::<NetworkRow>(alloc, asking, name, fields),
        Kind::Subnet => show::<SubnetRow>(alloc, asking, name, fields),
        Kind::Port => show::<PortRow>(alloc, asking, name, fields),
        Kind::Group => show::<GroupRow>(alloc, asking, name, fields),
        Kind::Rule => show::<RuleRow>(alloc, asking, name, fields),
        Kind::Router => show::<RouterRow>(alloc, asking, name, fields),
        Kind::Floating => show::<FloatingRow>(alloc, asking, name, fields),
        Kind::Policy => show::<PolicyRow>(alloc, asking, name, fields),
    }
}

fn create(alloc: Global, asking: &Asking<'_>, form: &Form) -> Result<Planned, Refusal>
    requires named { not (is_empty asking.now.caller.project) ≡ true }
    requires needed { has_needed form.now ≡ true }
    requires in_form { is_form form.now ≡ true }
    ensures ok { IfOk result
        (Answers asking.now.state
        (row_created asking.now.settings asking.now.state asking.now.caller form.now)) }
    ensures err { IfErr result
        (IsRefusalOf
        (row_created asking.now.settings asking.now.state asking.now.caller form.now)) }
{
    match form {
        Form::Network(form) => plan_creation(alloc, asking, create_network(alloc, asking, form)?),
        Form::Subnet(form) => plan_creation(alloc, asking, create_subnet(alloc, asking, form)?),
        Form::Port(form) => plan_creation(alloc, asking, create_port(alloc, asking, form)?),
        Form::Group(form) => plan_creation(alloc, asking, create_group(alloc, asking, form)?),
        Form::Rule(form) => plan_creation(alloc, asking, create_rule(alloc, asking, form)?),
        Form::Router(form) => plan_creation(alloc, asking, create_router(alloc, asking, form)?),
        Form::Floating(form) => plan_creation(alloc, asking, create_floating(alloc, asking, form)?),
        Form::Policy(form) => plan_creation(alloc, asking, create_policy(alloc, asking, form)?),
    }
}

fn update(
    alloc: Global,
    asking: &Asking<'_>,
    name: &IdText,
    form: &Form,
) -> Result<Planned, Refusal>
    ensures ok { IfOk result
        (Answers asking.now.state
        (row_updated asking.now.settings asking.now.state asking.now.caller name.now form.now)) }
    ensures err { IfErr result
        (IsRefusalOf
        (row_updated asking.now.settings asking.now.state asking.now.caller name.now
        form.now)) }
{
    match form {
        Form::Network(form) => plan_update(
            alloc,
            asking,
            update_network(alloc, asking, name, form)?,
        ),
        Form::Subnet(form) => plan_update(alloc, asking, update_subnet(alloc, asking, name, form)?),
        Form::Port(form) => plan_update(alloc, asking, update_port(alloc, asking, name, form)?),
        Form::Group(form) => plan_update(alloc, asking, update_group(alloc, asking, name, form)?),
        Form::Rule(_) => Err(not_found(alloc, Kind::Rule, &name.text)),
        Form::Router(form) => plan_update(alloc, asking, update_router(alloc, asking, name, form)?),
        Form::Floating(form) => plan_update(
            alloc,
            asking,
            update_floating(alloc, asking, name, form)?,
        ),
        Form::Policy(form) => plan_update(alloc, asking, update_policy(alloc, asking, name, form)?),
    }
}

fn delete(alloc: Global, asking: &Asking<'_>, kind: Kind, name: &IdText) -> Result<Planned, Refusal>
    ensures ok { IfOk result
        (Answers asking.now.state
        (row_deleted asking.now.state asking.now.caller kind name.now)) }
    ensures err { IfErr result
        (IsRefusalOf (row_deleted asking.now.state asking.now.caller kind name.now)) }
{
    match kind {
        Kind::Project => Err(not_found(alloc, Kind::Project, &name.text)),
        Kind::Network => Ok(plan_deletion(delete_network(alloc, asking, name)?)?),
        Kind::Subnet => Ok(plan_deletion(delete_subnet(alloc, asking, name)?)?),
        Kind::Port => Ok(plan_deletion(delete_port(alloc, asking, name)?)?),
        Kind::Group => Ok(plan_deletion(delete_group(alloc, asking, name)?)?),
        Kind::Rule => Ok(plan_deletion(delete_rule(alloc, asking, name)?)?),
        Kind::Router => Ok(plan_deletion(delete_router(alloc, asking, name)?)?),
        Kind::Floating => Ok(plan_deletion(delete_floating(alloc, asking, name)?)?),
        Kind::Policy => Ok(plan_deletion(delete_policy(alloc, asking, name)?)?),
    }
}

/// What a call comes to at a state, under the settings.
pub(crate) fn plan_call(alloc: Global, asking: &Asking<'_>, call: &Call) -> Result<Planned, Refusal>
    requires { IsInForm asking.now.caller call.now }
    ensures ok { IfOk result
        (Answers asking.now.state
        (api_step asking.now.settings asking.now.state asking.now.caller call.now)) }
    ensures err { IfErr result
        (IsRefusalOf
        (api_step asking.now.settings asking.now.state asking.now.caller call.now)) }
{
    match call {
        Call::List { kind, query } => {
            let answer = list(alloc, asking, *kind, query)?;
            Ok(Planned::unchanged(answer))
        }
        Call::Show { kind, name, fields } => {
            let answer = show_by_kind(alloc, asking, *kind, name, fields)?;
            Ok(Planned::unchanged(answer))
        }
        Call::Create { form } => create(alloc, asking, form),
        Call::Update { name, form } => update(alloc, asking, name, form),
        Call::Delete { kind, name } => delete(alloc, asking, *kind, name),
        Call::AddInterface { router, by } => {
            let PlannedInterface { draft, shown } = add_interface(alloc, asking, router, by)?;
            Ok(Planned::changing(draft, Answer::Interface(shown))?)
        }
        Call::RemoveInterface { router, by } => {
            let PlannedInterface { draft, shown } = remove_interface(alloc, asking, router, by)?;
            Ok(Planned::changing(draft, Answer::Interface(shown))?)
        }
    }
}
