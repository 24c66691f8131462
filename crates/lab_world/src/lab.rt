//! What is asked of the lab, by whom it may be asked, and what it needs.
ghost use Rattle.std.specs.Prelude.{◌≡◌, ◌⊎◌, None, Some, false, IfErr, IfOk, OnOk, true};
ghost use Rattle.api_types.specs.Ident.{ident_text};
ghost use Rattle.api_types.specs.declared.refusal.PolicyRule.TheVariants.{AdminOnly as ForAdmins};
ghost use Rattle.api_types.specs.declared.refusal.Refusal.TheVariants.{Forbidden as ForbiddenBy, NoHost as NoHostOf, NoMessage as NoMessageOf};
ghost use Rattle.api_types.specs.Refusing as refusing;
ghost use Rattle.plane_types.specs.Node.{Node};
ghost use Rattle.plane_types.specs.declared.ask.LabAnswer.TheVariants.{Tables as TablesOf};
ghost use Rattle.bus_core.specs.Kept.{IsGone, change_of, first_of};
ghost use Rattle.lab_world.specs.Lab.{event_refusal};
ghost use Rattle.lab_world.specs.Hosts.{IsNamedAt, named_node};

use crate::hosts::Hosts;
use api_policy::sees;
use api_types::{Caller, Change, Id, Kind, PolicyRule, Refusal, Rows};
use bus_core::Bus;
use net_addr::{Copies, OutOfMemory, Text};
use plane_rows::network_on;
use plane_types::{Event, LabAnswer};
use std::alloc::Global;

/// Refuses a caller who is no administrator.
pub(crate) fn ensure_admin(caller: &Caller) -> Result<(), Refusal>
    ensures ok { OnOk result (caller.now.admin ≡ true) }
    ensures err { IfErr result
        (λ refusal. (caller.now.admin ≡ false) × (refusal ≡ ForbiddenBy ForAdmins)) }
{
    if caller.admin {
        Ok(())
    } else {
        Err(Refusal::Forbidden {
            rule: PolicyRule::AdminOnly,
        })
    }
}

fn no_port(alloc: Global, port: Id) -> Result<Refusal, OutOfMemory>
    ensures { IfOk result (λ r. r ≡ refusing.not_found Kind.Port (ident_text port)) }
{
    Ok(Refusal::NotFound {
        kind: Text::of(alloc, Kind::Port.title())?,
        text: port.print(alloc)?,
    })
}

/// Refuses an event whose port isn't there or isn't seen, whose caller is no administrator, or
/// whose physical network carries none so.
pub(crate) fn ensure_event_allowed(
    alloc: Global,
    rows: &Rows,
    caller: &Caller,
    event: &Event,
) -> Result<(), Refusal>
    ensures ok { OnOk result (event_refusal rows.now caller.now event.now ≡ None) }
    ensures err { IfErr result
        (λ refusal. (refusal ≡ Refusal.OutOfMemory)
        ⊎ (event_refusal rows.now caller.now event.now ≡ Some refusal)) }
{
    match event {
        Event::FromPort { port, .. } => {
            if !sees(rows, caller, Kind::Port, *port) {
                return Err(no_port(alloc, *port)?);
            }
            ensure_admin(caller)
        }
        Event::FromWire { physical, tag, .. } => {
            ensure_admin(caller)?;
            if network_on(rows, physical, *tag).is_none() {
                return Err(Refusal::Invalid {
                    name: Text::of(alloc, "physical_network")?,
                });
            }
            Ok(())
        }
    }
}

/// The place of the host of this name.
pub(crate) fn place_of(alloc: Global, hosts: &Hosts, name: &Text) -> Result<usize, Refusal>
    ensures ok { IfOk result (IsNamedAt name.now hosts.now) }
    ensures err { IfErr result
        (λ refusal. (refusal ≡ Refusal.OutOfMemory)
        ⊎ ((refusal ≡ NoHostOf name.now) × (named_node name.now hosts.now ≡ None))) }
{
    match hosts.place(name) {
        Some(at) => Ok(at),
        None => Err(Refusal::NoHost {
            name: name.copy(alloc)?,
        }),
    }
}

/// The kept change with a number, or the refusal that tells which are kept.
pub(crate) fn kept_change(bus: &Bus, number: u64) -> Result<&Change, Refusal>
    ensures ok { IfOk result
        (λ change. change_of bus.now.last bus.now.changes number ≡ Some change.now) }
    ensures err { IfErr result
        (λ refusal.
        (refusal ≡ NoMessageOf number (first_of bus.now.last bus.now.changes) bus.now.last)
        × IsGone bus.now number) }
{
    match bus.get(number) {
        Ok(change) => Ok(change),
        Err(gone) => Err(Refusal::NoMessage {
            asked: number,
            first: gone.first,
            last: gone.last,
        }),
    }
}

/// The tables of the host of this name.
pub(crate) fn tables_of(alloc: Global, hosts: &Hosts, name: &Text) -> Result<LabAnswer, Refusal>
    ensures ok { IfOk result
        (λ answer. (n : Node) × (named_node name.now hosts.now ≡ Some n)
        × (answer ≡ TablesOf n.agent.tables)) }
    ensures err { IfErr result
        (λ refusal. (refusal ≡ Refusal.OutOfMemory)
        ⊎ ((refusal ≡ NoHostOf name.now) × (named_node name.now hosts.now ≡ None))) }
{
    match hosts.tables_of(name) {
        Some(tables) => Ok(LabAnswer::Tables(tables.lists(alloc)?)),
        None => Err(Refusal::NoHost {
            name: name.copy(alloc)?,
        }),
    }
}
