//! The addresses that are held on a network.

ghost use Rattle.std.specs.Prelude.{◌≡◌, ◌&&◌, ◌||◌, [], not, IfOk, OnOk};
ghost use Rattle.std.specs.List.{list_any};
ghost use Rattle.net_addr.specs.Addresses.{addr_eq};
ghost use Rattle.net_addr.specs.declared.address.Addr.{Addr as Address};
ghost use Rattle.api_types.specs.HeldAddresses.{holds_address, is_address_held, is_held_by_other};
ghost use Rattle.api_types.specs.Lists.{is_some_so};
ghost use Rattle.api_types.specs.declared.port.Fixed.{Fixed as TheFixed};
ghost use Rattle.api_ipam.specs.FixedChoice as fixed_choice;

use crate::places::is_in;
use api_types::{Fixed, Id, PortRow, Shared};
use net_addr::{Addr, OutOfMemory};
use std::alloc::Global;
use std::marker::Model;

/// Addresses of a network that can't be given. A look-up passes over them once. Contracts see them
/// as a list, in no order.
#[derive(Drop)]
pub struct HeldAddresses {
    addresses: Vec<Addr>,
}

impl Model for HeldAddresses {
    ghost use Rattle.std.specs.Prelude.{List};
    ghost use Rattle.net_addr.specs.declared.address.Addr.{Addr as Address};

    ghost Value = { List Address };

    ghost view = { λ h. h.addresses.items };
}

// Whether the address is one of a port's list.
fn is_of(fixed: &[Fixed], address: &Addr) -> bool
    ensures { result ≡ list_any (λ (f : TheFixed). addr_eq f.address address.now) fixed.now }
{
    fixed.iter().any(|one| one.address == *address)
}

impl HeldAddresses {
    /// The addresses that the network's ports hold. Its cost grows with the ports and their
    /// addresses, and its memory with them: there is room for as many addresses as there are ports
    /// at once.
    pub fn on(
        alloc: Global,
        ports: &[Shared<PortRow>],
        network: Id,
    ) -> Result<HeldAddresses, OutOfMemory>
        ensures { IfOk result
            (λ held. (x : Address)
            → fixed_choice.is_in held x ≡ is_address_held ports.now network x) }
    {
        let mut held = HeldAddresses::with_room(alloc, ports.len())?;
        for port in ports {
            held.take_port(network, port)?;
        }
        Ok(held)
    }

    /// The addresses that other ports of the port's network hold. Its cost and memory grow as those
    /// of `on`.
    pub fn by_others(
        alloc: Global,
        ports: &[Shared<PortRow>],
        port: &PortRow,
    ) -> Result<HeldAddresses, OutOfMemory>
        ensures { IfOk result
            (λ held. (x : Address)
            → fixed_choice.is_in held x ≡ is_held_by_other ports.now port.now x) }
    {
        HeldAddresses::but(alloc, ports, port.network, port.fixed.as_slice())
    }

    /// No addresses, with room for that many.
    pub(crate) fn with_room(alloc: Global, many: usize) -> Result<HeldAddresses, OutOfMemory>
        ensures { IfOk result (λ held. held ≡ []) }
    {
        Ok(HeldAddresses {
            addresses: Vec::with_capacity(alloc, many)?,
        })
    }

    // The addresses that the network's ports hold, but those of a list.
    fn but(
        alloc: Global,
        ports: &[Shared<PortRow>],
        network: Id,
        left: &[Fixed],
    ) -> Result<HeldAddresses, OutOfMemory>
        ensures { IfOk result
            (λ held. (x : Address)
            → fixed_choice.is_in held x
            ≡ (is_address_held ports.now network x
            && not (list_any (λ (f : TheFixed). addr_eq f.address x) left.now))) }
    {
        let mut held = HeldAddresses::with_room(alloc, ports.len())?;
        for port in ports {
            held.take_port_but(network, left, port)?;
        }
        Ok(held)
    }

    /// Whether the address is one of them.
    pub fn has(&self, address: &Addr) -> bool
        ensures { result ≡ fixed_choice.is_in self.now address.now }
    {
        is_in(self.addresses.as_slice(), address)
    }

    /// The addresses.
    pub(crate) fn as_slice(&self) -> &[Addr]
        ensures { result.now ≡ self.now }
    {
        self.addresses.as_slice()
    }

    /// The allocator of the list.
    pub(crate) fn alloc(&self) -> Global {
        *self.addresses.allocator()
    }

    /// Adds an address, which may be there already.
    pub fn take(&mut self, address: &Addr) -> Result<(), OutOfMemory>
        ensures { OnOk result
            ((x : Address)
            → fixed_choice.is_in self.new x
            ≡ (fixed_choice.is_in self.old x || addr_eq address.now x)) }
    {
        self.addresses.push(*address)?;
        Ok(())
    }

    /// Adds an address, where there is one.
    pub(crate) fn take_if_any(&mut self, address: &Option<Addr>) -> Result<(), OutOfMemory>
        ensures { OnOk result
            ((x : Address)
            → fixed_choice.is_in self.new x
            ≡ (fixed_choice.is_in self.old x || is_some_so (λ y. addr_eq y x) address.now)) }
    {
        match address {
            Some(address) => self.take(address),
            None => Ok(()),
        }
    }

    // Adds an address that isn't one of a list.
    fn take_but(&mut self, left: &[Fixed], address: &Addr) -> Result<(), OutOfMemory>
        ensures { OnOk result
            ((x : Address)
            → fixed_choice.is_in self.new x
            ≡ (fixed_choice.is_in self.old x
            || (addr_eq address.now x
            && not (list_any (λ (f : TheFixed). addr_eq f.address x) left.now)))) }
    {
        if is_of(left, address) {
            return Ok(());
        }
        self.take(address)
    }

    // Adds the addresses of a port's list that aren't of another one.
    fn take_all(&mut self, left: &[Fixed], fixed: &[Fixed]) -> Result<(), OutOfMemory>
        ensures { OnOk result
            ((x : Address)
            → fixed_choice.is_in self.new x
            ≡ (fixed_choice.is_in self.old x
            || (list_any (λ (f : TheFixed). addr_eq f.address x) fixed.now
            && not (list_any (λ (f : TheFixed). addr_eq f.address x) left.now)))) }
    {
        for one in fixed {
            self.take_but(left, &one.address)?;
        }
        Ok(())
    }

    // Adds the addresses of a port that aren't of a list, where it is on the network.
    fn take_port_but(
        &mut self,
        network: Id,
        left: &[Fixed],
        port: &PortRow,
    ) -> Result<(), OutOfMemory>
        ensures { OnOk result
            ((x : Address)
            → fixed_choice.is_in self.new x
            ≡ (fixed_choice.is_in self.old x
            || (holds_address network x port.now
            && not (list_any (λ (f : TheFixed). addr_eq f.address x) left.now)))) }
    {
        if port.network != network {
            return Ok(());
        }
        self.take_all(left, port.fixed.as_slice())
    }

    // Adds the addresses of a port's list. It is no part of the loops over ports, so that they keep
    // what they need in registers.
    #[inline(never)]
    fn take_each(&mut self, fixed: &[Fixed]) -> Result<(), OutOfMemory>
        ensures { OnOk result
            ((x : Address)
            → fixed_choice.is_in self.new x
            ≡ (fixed_choice.is_in self.old x
            || list_any (λ (f : TheFixed). addr_eq f.address x) fixed.now)) }
    {
        for one in fixed {
            self.take(&one.address)?;
        }
        Ok(())
    }

    // The same, with a way of its own for a single address, as nearly all ports have.
    fn take_fixed(&mut self, fixed: &[Fixed]) -> Result<(), OutOfMemory>
        ensures { OnOk result
            ((x : Address)
            → fixed_choice.is_in self.new x
            ≡ (fixed_choice.is_in self.old x
            || list_any (λ (f : TheFixed). addr_eq f.address x) fixed.now)) }
    {
        match fixed {
            [one] => self.take(&one.address),
            _ => self.take_each(fixed),
        }
    }

    /// Adds the addresses of a port, where it is on the network.
    pub(crate) fn take_port(&mut self, network: Id, port: &PortRow) -> Result<(), OutOfMemory>
        ensures { OnOk result
            ((x : Address)
            → fixed_choice.is_in self.new x
            ≡ (fixed_choice.is_in self.old x || holds_address network x port.now)) }
    {
        if network == port.network {
            self.take_fixed(port.fixed.as_slice())?;
        }
        Ok(())
    }
}
