//! By which port of a router packets leave into a subnet.

ghost use Rattle.std.specs.Prelude.{◌≡◌, IfOk, OnOk, Some, find, if◌then◌else◌, map, option_map};
ghost use Rattle.std.specs.HashMap.{get};
ghost use Rattle.api_types.specs.Ident.{Ident};
ghost use Rattle.api_types.specs.Owners.{holds_in as held_in};
ghost use Rattle.api_types.specs.Table.{ident_eq};
ghost use Rattle.api_types.specs.declared.port.PortRow.{PortRow as ThePort};

use api_types::{Id, PortRow};
use net_addr::OutOfMemory;
use std::alloc::Global;
use std::collections::HashMap;
use std::marker::Model;

/// Ports of a router, of which the first one in a subnet is looked up. Contracts see their list.
#[derive(Drop)]
pub(crate) struct Exits<'l, 'r> {
    legs: &'l [&'r PortRow],
    by_subnet: HashMap<Id, Id>,
}

impl<'l, 'r> Model for Exits<'l, 'r> {
    ghost use Rattle.std.specs.Prelude.{◌≡◌, List, find, map, option_map};
    ghost use Rattle.std.specs.HashMap.{get};
    ghost use Rattle.api_types.specs.Ident.{Ident};
    ghost use Rattle.api_types.specs.Owners.{holds_in};
    ghost use Rattle.api_types.specs.Table.{ident_eq};
    ghost use Rattle.api_types.specs.declared.port.PortRow.{PortRow};

    ghost Value = { List PortRow };

    ghost view = { λ e. map (λ p. p.now) e.legs.now };

    ghost invariant = { λ e. (n : Ident)
        → get ident_eq e.by_subnet n
        ≡ option_map (λ (p : PortRow). p.id) (find (holds_in n) (map (λ p. p.now) e.legs.now)) };
}

// Gives the subnets of a port to it.
fn add_port(by_subnet: &mut HashMap<Id, Id>, port: &PortRow) -> Result<(), OutOfMemory>
    ensures { OnOk result
        ((n : Ident)
        → get ident_eq by_subnet.new n ≡ if held_in n port.now then Some port.now.id
        else get ident_eq by_subnet.old n) }
{
    for fixed in port.fixed.as_slice() {
        by_subnet.insert(fixed.subnet, port.id)?;
    }
    Ok(())
}

// From the last to the first, so that the first port in a subnet stays.
fn by_subnet(alloc: Global, legs: &[&PortRow]) -> Result<HashMap<Id, Id>, OutOfMemory>
    ensures { IfOk result
        (λ m. (n : Ident)
        → get ident_eq m n
        ≡ option_map (λ (p : ThePort). p.id) (find (held_in n) (map (λ p. p.now) legs.now))) }
{
    let mut by_subnet = HashMap::new(alloc);
    let mut left = legs.len();
    while left > 0 {
        left -= 1;
        add_port(&mut by_subnet, legs[left])?;
    }
    Ok(by_subnet)
}

impl<'l, 'r> Exits<'l, 'r> {
    /// These ports. Its cost grows with them and their addresses.
    pub(crate) fn of(alloc: Global, legs: &'l [&'r PortRow]) -> Result<Exits<'l, 'r>, OutOfMemory>
        ensures { IfOk result (λ e. e ≡ map (λ p. p.now) legs.now) }
    {
        Ok(Exits {
            legs,
            by_subnet: by_subnet(alloc, legs)?,
        })
    }

    /// The ports.
    pub(crate) fn legs(&self) -> &'l [&'r PortRow]
        ensures { map (λ p. p.now) result.now ≡ self.now }
    {
        self.legs
    }

    /// The first of the ports with an address in the subnet. Its cost is
    /// constant.
    pub(crate) fn port_in(&self, subnet: Id) -> Option<Id>
        ensures { result ≡ option_map (λ (p : ThePort). p.id) (find (held_in subnet) self.now) }
    {
        self.by_subnet.get(&subnet).copied()
    }
}
