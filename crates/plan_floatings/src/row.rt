//! The row of a floating address, and the port that holds it.

ghost use Rattle.std.specs.Prelude.{◌≡◌, ◌∷◌, [], IfOk, true};
ghost use Rattle.net_addr.specs.Addresses.{is_v4, number};
ghost use Rattle.plan_floatings.specs.FloatingCalls as calls;

use crate::outer::Outer;
use api_floating::four;
use api_ml2::bind;
use api_types::{
    Fixed, FixedList, FloatingForm, FloatingRow, Given, Id, NetworkRow, PortRow, Target,
};
use call_parts::{one_fixed, text_or};
use net_addr::{Copies, OutOfMemory, Seq, Text};
use net_settings::Settings;
use std::alloc::Global;

/// What a new floating address takes on its network, and what it leads to.
#[derive(Drop)]
pub(crate) struct Ends {
    pub outer: Outer,
    pub target: Option<Target>,
}

/// The row of a new floating address of the network.
pub(crate) fn new_floating(
    alloc: Global,
    form: &FloatingForm,
    owner: &Text,
    network: &NetworkRow,
    id: Id,
    own_port: Id,
    ends: &Ends,
) -> Result<FloatingRow, OutOfMemory>
    requires { is_v4 ends.now.outer.fixed.address ≡ true }
    ensures { IfOk result
        (λ f. f
        ≡ calls.new_floating form.now owner.now network.now id own_port
        (number ends.now.outer.fixed.address) ends.now.target) }
{
    let empty = Text::new(alloc);
    Ok(FloatingRow {
        id,
        project: owner.copy(alloc)?,
        description: text_or(alloc, &empty, &form.description)?,
        network: network.id,
        own_port,
        address: four(&ends.outer.fixed.address),
        target: ends.target,
    })
}

/// The port that holds a floating address, on no host.
pub(crate) fn own_port(
    alloc: Global,
    settings: &Settings,
    network: &NetworkRow,
    floating: &FloatingRow,
    outer: &Outer,
) -> Result<PortRow, OutOfMemory>
    ensures { IfOk result
        (λ p. p
        ≡ calls.own_port settings.now network.now floating.now outer.now.mac outer.now.fixed) }
{
    let host = Text::new(alloc);
    Ok(PortRow {
        id: floating.own_port,
        project: Text::new(alloc),
        network: network.id,
        name: Text::new(alloc),
        description: Text::new(alloc),
        up: true,
        mac: outer.mac,
        fixed: one_fixed(alloc, &outer.fixed)?,
        pairs: Seq::new(alloc),
        secured: false,
        groups: Seq::new(alloc),
        device: floating.id.print(alloc)?,
        owner: Text::of(alloc, "network:floatingip")?,
        vif: bind(settings, &network.segment, &host),
        host,
        by_admin: false,
    })
}

// What the floating address leads to after the change: what it did where no port is named, and
// nothing where the body takes it off.
fn target_after(given: &Given<Id>, old: Option<Target>, new: Option<Target>) -> Option<Target>
    ensures { result ≡ calls.target_after given.now old new }
{
    match given {
        Given::Absent => old,
        Given::Null => new,
        Given::Is(_) => new,
    }
}

/// The row of a floating address as a body changes it, led to this target where the body names a
/// port.
pub(crate) fn changed_floating(
    alloc: Global,
    form: &FloatingForm,
    floating: &FloatingRow,
    target: Option<Target>,
) -> Result<FloatingRow, OutOfMemory>
    ensures { IfOk result (λ f. f ≡ calls.changed_floating form.now floating.now target) }
{
    Ok(FloatingRow {
        id: floating.id,
        project: floating.project.copy(alloc)?,
        description: text_or(alloc, &floating.description, &form.description)?,
        network: floating.network,
        own_port: floating.own_port,
        address: floating.address,
        target: target_after(&form.port_id, floating.target, target),
    })
}
