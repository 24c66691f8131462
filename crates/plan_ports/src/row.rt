//! The row of a port, as a body asks for it.

ghost use Rattle.std.specs.Prelude.{◌≡◌, [], IfOk, find, map, option_copied};
ghost use Rattle.api_types.specs.Consistent.Groups.{is_default_of};
ghost use Rattle.api_types.specs.Given as given;
ghost use Rattle.plan_ports.specs.PortCalls as calls;
ghost use Rattle.plan_ports.specs.PortCalls.{ids_of};

use api_ml2::bind;
use api_policy::is_marked;
use api_types::{
    FixedList, Given, GroupRow, Id, NetworkRow, Pair, PairAsked, PortForm, PortRow, Rows, Shared,
    Vif,
};
use call_parts::{Asking, text_or, value_or};
use net_addr::{Copies, Mac, OutOfMemory, Seq, Text};
use net_settings::Settings;
use std::alloc::Global;

/// What is chosen for a new port: its MAC address and its addresses.
#[derive(Drop)]
pub(crate) struct Chosen {
    pub mac: Mac,
    pub fixed: FixedList,
}

/// What a new port is given besides its form: its id, its MAC address and its addresses.
#[derive(Drop)]
pub(crate) struct Placed {
    pub id: Id,
    pub mac: Mac,
    pub fixed: FixedList,
}

// A pair without a MAC address has the port's.
fn pair_of(mac: Mac, asked: &PairAsked) -> Pair
    ensures { result ≡ calls.pair_of mac asked.now }
{
    Pair {
        mac: asked.mac.unwrap_or(mac),
        prefix: asked.prefix,
    }
}

fn all_pairs(alloc: Global, mac: Mac, asked: &[PairAsked]) -> Result<Seq<Pair>, OutOfMemory>
    ensures { IfOk result (λ pairs. pairs ≡ map (calls.pair_of mac) asked.now) }
{
    let mut pairs = Seq::new(alloc);
    for one in asked {
        pairs.push(pair_of(mac, one))?;
    }
    Ok(pairs)
}

fn pairs_of(
    alloc: Global,
    mac: Mac,
    asked: &Given<Seq<PairAsked>>,
) -> Result<Seq<Pair>, OutOfMemory>
    ensures { IfOk result (λ pairs. pairs ≡ map (calls.pair_of mac) (given.value_or [] asked.now)) }
{
    match asked {
        Given::Is(asked) => all_pairs(alloc, mac, asked.as_slice()),
        _ => Ok(Seq::new(alloc)),
    }
}

fn default_of<'g>(groups: &'g [Shared<GroupRow>], owner: &Text) -> Option<&'g GroupRow>
    ensures { option_copied result ≡ find (is_default_of owner.now) groups.now }
{
    for group in groups {
        if group.is_default && group.project == *owner {
            return Some(group);
        }
    }
    None
}

fn default_groups(
    alloc: Global,
    groups: &[Shared<GroupRow>],
    owner: &Text,
) -> Result<Seq<Id>, OutOfMemory>
    ensures { IfOk result (λ ids. ids ≡ ids_of (find (is_default_of owner.now) groups.now)) }
{
    let mut ids = Seq::new(alloc);
    if let Some(group) = default_of(groups, owner) {
        ids.push(group.id)?;
    }
    Ok(ids)
}

// The groups that are named, or the default group of a port that is filtered.
fn groups_at_first(
    alloc: Global,
    groups: &[Shared<GroupRow>],
    owner: &Text,
    secured: bool,
    named: &Given<Seq<Id>>,
) -> Result<Seq<Id>, OutOfMemory>
    ensures { IfOk result
        (λ ids. ids ≡ calls.groups_at_first groups.now owner.now secured named.now) }
{
    match named {
        Given::Is(ids) => ids.copy(alloc),
        _ => {
            if secured {
                default_groups(alloc, groups, owner)
            } else {
                Ok(Seq::new(alloc))
            }
        }
    }
}

/// The new port among rows in which its id is drawn. Its cost grows with the groups, the policies
/// and the hosts.
pub(crate) fn new_port(
    alloc: Global,
    asking: &Asking<'_>,
    rows: &Rows,
    form: &PortForm,
    network: &NetworkRow,
    owner: &Text,
    placed: Placed,
) -> Result<PortRow, OutOfMemory>
    ensures { IfOk result
        (λ p. p
        ≡ calls.new_port asking.now.settings rows.now asking.now.caller form.now network.now
        owner.now placed.id placed.mac placed.fixed) }
{
    let Placed { id, mac, fixed } = placed;
    let empty = Text::new(alloc);
    let host = text_or(alloc, &empty, &form.binding_host_id)?;
    let secured = value_or(true, &form.port_security_enabled);
    let groups = rows.groups().rows();
    Ok(PortRow {
        id,
        project: owner.copy(alloc)?,
        network: network.id,
        name: text_or(alloc, &empty, &form.name)?,
        description: text_or(alloc, &empty, &form.description)?,
        up: value_or(true, &form.admin_state_up),
        mac,
        fixed,
        pairs: pairs_of(alloc, mac, &form.allowed_address_pairs)?,
        secured,
        groups: groups_at_first(alloc, groups, owner, secured, &form.security_groups)?,
        device: text_or(alloc, &empty, &form.device_id)?,
        owner: text_or(alloc, &empty, &form.device_owner)?,
        vif: bind(asking.settings(), &network.segment, &host),
        host,
        by_admin: is_marked(rows, asking.caller(), owner, network),
    })
}

// The binding to the host that the body names, or the old one.
fn vif_after(settings: &Settings, network: &NetworkRow, host: &Given<Text>, old: Vif) -> Vif
    ensures { result ≡ calls.vif_after settings.now network.now host.now old }
{
    match host {
        Given::Is(host) => bind(settings, &network.segment, host),
        _ => old,
    }
}

// The pairs that the body gives, or the old ones.
fn pairs_after(
    alloc: Global,
    mac: Mac,
    asked: &Given<Seq<PairAsked>>,
    old: &Seq<Pair>,
) -> Result<Seq<Pair>, OutOfMemory>
    ensures { IfOk result (λ pairs. pairs ≡ calls.pairs_after mac asked.now old.now) }
{
    match asked {
        Given::Is(asked) => all_pairs(alloc, mac, asked.as_slice()),
        _ => old.copy(alloc),
    }
}

fn groups_after(
    alloc: Global,
    named: &Given<Seq<Id>>,
    old: &Seq<Id>,
) -> Result<Seq<Id>, OutOfMemory>
    ensures { IfOk result (λ ids. ids ≡ given.value_or old.now named.now) }
{
    match named {
        Given::Is(ids) => ids.copy(alloc),
        _ => old.copy(alloc),
    }
}

/// The port as a body changes it, with these addresses. Its cost grows with the hosts.
pub(crate) fn changed_port(
    alloc: Global,
    settings: &Settings,
    form: &PortForm,
    network: &NetworkRow,
    port: &PortRow,
    fixed: FixedList,
) -> Result<PortRow, OutOfMemory>
    ensures { IfOk result
        (λ p. p ≡ calls.changed_port settings.now form.now network.now port.now fixed) }
{
    let mac = value_or(port.mac, &form.mac_address);
    Ok(PortRow {
        id: port.id,
        project: port.project.copy(alloc)?,
        network: port.network,
        name: text_or(alloc, &port.name, &form.name)?,
        description: text_or(alloc, &port.description, &form.description)?,
        up: value_or(port.up, &form.admin_state_up),
        mac,
        fixed,
        pairs: pairs_after(alloc, mac, &form.allowed_address_pairs, &port.pairs)?,
        secured: value_or(port.secured, &form.port_security_enabled),
        groups: groups_after(alloc, &form.security_groups, &port.groups)?,
        device: text_or(alloc, &port.device, &form.device_id)?,
        owner: text_or(alloc, &port.owner, &form.device_owner)?,
        host: text_or(alloc, &port.host, &form.binding_host_id)?,
        vif: vif_after(settings, network, &form.binding_host_id, port.vif),
        by_admin: port.by_admin,
    })
}
