//! What is answered where an interface is added or removed.

ghost use Rattle.std.specs.Prelude.{◌≡◌, ◌∷◌, ◌++◌, [], IfOk, OnOk, map};
ghost use Rattle.api_policy.specs.Trees.{id_word, list_of};
ghost use Rattle.api_types.specs.Printed.{member_of, shown_row, tree_of, word};
ghost use Rattle.plan_routers.specs.InterfaceCalls.{interface_members};
ghost use Rattle.plan_routers.specs.InterfaceCalls as interface_calls;

use api_types::{Id, Kind, MemberName, Members, PortRow, Printed, RouterRow, Shown};
use call_parts::Draft;
use net_addr::{Copies, OutOfMemory, Seq, Text};
use std::alloc::Global;

/// An interface that a call adds or removes, as it is shown, with the rows and the change that lead
/// there.
#[derive(Drop)]
pub struct PlannedInterface {
    pub draft: Draft,
    pub shown: Shown,
}

fn push(members: &mut Members, name: &'static str, value: Printed) -> Result<(), OutOfMemory>
    ensures { OnOk result
        (map member_of members.new ≡ map member_of members.old ++ (name.now, tree_of value) ∷ []) }
{
    members.push((MemberName::of(name), value))
}

fn push_id(members: &mut Members, name: &'static str, id: Id) -> Result<(), OutOfMemory>
    ensures { OnOk result
        (map member_of members.new ≡ map member_of members.old ++ (name.now, id_word id) ∷ []) }
{
    push(members, name, Printed::Id(id))
}

fn push_text(
    alloc: Global,
    members: &mut Members,
    name: &'static str,
    text: &Text,
) -> Result<(), OutOfMemory>
    ensures { OnOk result
        (map member_of members.new ≡ map member_of members.old ++ (name.now, word text.now) ∷ []) }
{
    push(members, name, Printed::Word(text.copy(alloc)?))
}

fn push_one(
    alloc: Global,
    members: &mut Members,
    name: &'static str,
    id: Id,
) -> Result<(), OutOfMemory>
    ensures { OnOk result
        (map member_of members.new
        ≡ map member_of members.old ++ (name.now, list_of id_word (id ∷ [])) ∷ []) }
{
    let mut items = Vec::new(alloc);
    items.push(Printed::Id(id))?;
    push(members, name, Printed::Items(items))
}

fn members_of(
    alloc: Global,
    router: &RouterRow,
    port: &PortRow,
    subnet: Id,
) -> Result<Members, OutOfMemory>
    ensures { IfOk result (λ m. map member_of m ≡ interface_members router.now port.now subnet) }
{
    let mut members = Seq::new(alloc);
    push_id(&mut members, "id", router.id)?;
    push_id(&mut members, "network_id", port.network)?;
    push_id(&mut members, "port_id", port.id)?;
    push_text(alloc, &mut members, "project_id", &port.project)?;
    push_id(&mut members, "subnet_id", subnet)?;
    push_one(alloc, &mut members, "subnet_ids", subnet)?;
    push_text(alloc, &mut members, "tenant_id", &port.project)?;
    Ok(members)
}

/// The router, its interface and that one's subnet, as they are shown.
pub(crate) fn interface_shown(
    alloc: Global,
    router: &RouterRow,
    port: &PortRow,
    subnet: Id,
) -> Result<Shown, OutOfMemory>
    ensures { IfOk result (λ s. shown_row s
        ≡ interface_calls.interface_shown router.now port.now subnet) }
{
    Ok(Shown {
        kind: Kind::Router,
        members: members_of(alloc, router, port, subnet)?,
    })
}
